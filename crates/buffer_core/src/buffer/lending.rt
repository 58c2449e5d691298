//! Whole lists of a buffer, lent to be written (rustybuzz: hb/buffer.rs, `info_slice_mut`, `out_info_mut`,
//! `pos_slice_mut`).
ghost use Rattle.std.specs.Prelude.{◌≡◌, false};
ghost use Rattle.std.specs.Borrow.{sem};
ghost use Rattle.buffer_core.specs.Sides.{all_glyphs};
ghost use Rattle.buffer_core.specs.Lending.{LendsGlyphs, LendsOutput, LendsPositions};

use super::hb_buffer_t;
use buffer_glyphs::info::hb_glyph_info_t;
use buffer_glyphs::position::GlyphPosition;
use buffer_lists::order::{ClusterOrder, KnownOrder};
use buffer_lists::over;

// Whole lists, lent to be written. As many glyphs come back as were lent.
impl hb_buffer_t {
    /// All glyphs, to be written, while no output is open.
    pub fn info_slice_mut(&mut self) -> &mut [hb_glyph_info_t]
        requires { self.old.is_open ≡ false }
        ensures value { result.now ≡ all_glyphs self.old }
        ensures* writes_back { sem 𝓛 (LendsGlyphs self.entry result) }
    {
        self.order = ClusterOrder::of(KnownOrder::Unknown);
        &mut self.info
    }

    /// The glyphs behind the cursor, to be written: those of the output while one is open. Where the output has had more
    /// glyphs than were read, the input moves up to it first, in linear time; `rotate_output` needs no such move.
    pub fn out_info_mut(&mut self) -> &mut [hb_glyph_info_t]
        ensures value { result.now ≡ self.old.behind }
        ensures* writes_back { sem 𝓛 (LendsOutput self.entry result) }
    {
        let end = self.out_len();
        let at = end.max(self.idx - self.gap);
        over::join(&mut self.info, at, self.idx);
        self.gap -= self.idx - at;
        self.idx = at;
        self.order = ClusterOrder::of(KnownOrder::Unknown);
        self.info.slice_mut(..end)
    }

    /// The glyphs' positions, to be written, while no output is open.
    pub fn pos_slice_mut(&mut self) -> &mut [GlyphPosition]
        requires { self.old.is_open ≡ false }
        ensures value { result.now ≡ self.old.positions }
        ensures* writes_back { sem 𝓛 (LendsPositions self.entry result) }
    {
        self.is_placed = true;
        &mut self.pos
    }
}
