//! The buffer's cursor calls (rustybuzz: hb/buffer.rs).
ghost use Rattle.std.specs.Prelude.{◌≡◌, ◌<◌, ◌≤◌, ◌+◌, ◌-◌, ◌^◌, ◌++◌, [], drop, length, vec_len, not, true, false, Some, IsOk, OnOk, OnErr, IfOk, slice_get};
ghost use Rattle.std.specs.Bool.{OnFalse};
ghost use Rattle.std.specs.Borrow.{sem};
ghost use Rattle.buffer_core.specs.Sides.{all_glyphs, has_output_room, with_output, after_next_glyphs, fits_next, fits_joined, after_sync, after_refusal, zero_positions, HasCurrentInPlace};
ghost use Rattle.buffer_core.specs.Lending.{LendsGlyph, LendsLast, LendsPosition};

use super::hb_buffer_t;
use buffer_glyphs::info::hb_glyph_info_t;
use buffer_glyphs::position::GlyphPosition;
use buffer_lists::order::Lent;
use buffer_lists::over;
use std::alloc::AllocError;

impl hb_buffer_t {
    /// Opens an empty output, with the cursor before all glyphs. It takes no memory.
    pub fn clear_output(&mut self) -> Result<bool, AllocError>
        requires { self.old.is_open ≡ false }
        ensures opened { result ≡ Ok true }
        ensures after { self.new ≡ with_output self.old }
        ensures kept { all_glyphs self.new ≡ all_glyphs self.old }
    {
        self.have_output = true;
        self.out_len = 0;
        self.idx = 0;
        Ok(true)
    }

    /// Whether the output is still in the place of glyphs that were read: from `clear_output` until a call leaves more
    /// glyphs behind the cursor than were read, less those that `move_to` put back; once it has left, it stays apart until
    /// `sync`.
    pub fn output_in_place(&self) -> bool
        requires { self.now.is_open ≡ true }
        ensures { result ≡ not self.now.is_apart }
    {
        !self.is_apart
    }

    /// How many glyphs are behind the cursor: those of the output while one is open.
    pub fn out_len(&self) -> usize
        ensures { result ≡ length self.now.behind }
    {
        if self.have_output {
            self.out_len
        } else {
            self.idx
        }
    }

    /// How many glyphs are ahead of the cursor; the memory that a list takes bounds it.
    pub fn lookahead_len(&self) -> usize
        ensures count { result ≡ length self.now.ahead }
        ensures small { result < 2 ^ 59 }
    {
        self.info[self.idx..].len()
    }

    /// The last glyph behind the cursor: that of the output while one is open.
    pub fn prev(&self) -> &hb_glyph_info_t
        requires { 0 < length self.now.behind }
        ensures { slice_get self.now.behind (length self.now.behind - 1) ≡ Some result.now }
    {
        let behind = self.out_info();
        &behind[behind.len() - 1]
    }

    /// The last glyph behind the cursor, to be written.
    pub fn prev_mut(&mut self) -> &mut hb_glyph_info_t
        requires { 0 < length self.old.behind }
        ensures value { slice_get self.old.behind (length self.old.behind - 1) ≡ Some result.now }
        ensures* writes_back { sem 𝓛 (LendsLast self.entry result) }
    {
        self.order.settle(&self.info);
        let last = self.out_len() - 1;
        self.order.lent = Some(Lent {
            at: last,
            cluster: self.info[last].cluster,
        });
        &mut self.info[last]
    }

    /// The glyphs behind the cursor: those of the output while one is open.
    pub fn out_info(&self) -> &[hb_glyph_info_t]
        ensures { result.now ≡ self.now.behind }
    {
        &self.info[..self.out_len()]
    }

    /// The i-th glyph from the cursor on; `cur(0)` is the current one.
    pub fn cur(&self, i: usize) -> &hb_glyph_info_t
        requires { i < length self.now.ahead }
        ensures { slice_get self.now.ahead i ≡ Some result.now }
    {
        &self.info[self.idx + i]
    }

    /// The i-th glyph from the cursor on, to be written.
    #[tactic(auto, using(crate::proofs::Written::glyph_written))]
    pub fn cur_mut(&mut self, i: usize) -> &mut hb_glyph_info_t
        requires { i < length self.old.ahead }
        ensures value { slice_get self.old.ahead i ≡ Some result.now }
        ensures* writes_back { sem 𝓛 (LendsGlyph i self.entry result) }
    {
        let at = self.idx + i;
        self.order.settle(&self.info);
        self.order.lent = Some(Lent {
            at,
            cluster: self.info[at].cluster,
        });
        &mut self.info[at]
    }

    /// The position of the glyph at the cursor, to be written, while no output is open.
    pub fn cur_pos_mut(&mut self) -> &mut GlyphPosition
        requires current_in_place { HasCurrentInPlace self.old }
        ensures value { slice_get self.old.positions self.old.read ≡ Some result.now }
        ensures* writes_back { sem 𝓛 (LendsPosition self.entry result) }
    {
        self.is_placed = true;
        &mut self.pos[self.idx]
    }

    /// Moves the cursor over a glyph, which is appended to the output where one is open; answers false, and moves
    /// nothing, where the output has as many as it may. With the output in place it takes no memory.
    #[tactic(auto, using(crate::proofs::Kept::moved_all))]
    pub fn next_glyph(&mut self) -> Result<bool, AllocError>
        requires { 0 < length self.old.ahead }
        ensures held { IfOk result (λ b. b ≡ fits_next 1 self.old) }
        ensures moved { result ≡ Ok true → self.new ≡ after_next_glyphs 1 self.old }
        ensures kept { all_glyphs self.new ≡ all_glyphs self.old }
        ensures full { result ≡ Ok false → self.new ≡ after_refusal self.old }
        ensures err { OnErr result (self.new ≡ self.old) }
        ensures in_place { self.old.is_open ≡ false → result ≡ Ok true }
        ensures stays { self.old.is_open ≡ true → self.old.is_apart ≡ false → result ≡ Ok true }
    {
        if !self.have_output {
            self.idx += 1;
            return Ok(true);
        }
        if !self.has_output_room(1) {
            return Ok(self.refuse());
        }
        self.pass(1);
        Ok(true)
    }

    /// Moves glyphs from the input to the end of the output.
    pub(super) fn pass(&mut self, count: usize)
        requires open { self.old.is_open ≡ true }
        requires there { count ≤ length self.old.ahead }
        requires room { has_output_room count self.old ≡ true }
        ensures { self.new ≡ after_next_glyphs count self.old }
    {
        // In their place already, they keep their clusters, with that of a lent glyph.
        if self.out_len == self.idx {
            self.out_len += count;
            self.idx += count;
            return;
        }
        self.order.settle(&self.info);
        over::output_first(&mut self.info, self.out_len, self.idx, count);
        self.out_len += count;
        self.idx += count;
    }

    /// Appends the rest of the input to the output, which becomes the list, with zero positions and the cursor at its
    /// front; answers false, and joins nothing, where the list would have more than it may or a call before was refused
    /// for length. With the output in place it takes no memory.
    pub fn sync(&mut self) -> Result<bool, AllocError>
        requires { self.old.is_open ≡ true }
        ensures held { IfOk result (λ b. b ≡ fits_joined self.old) }
        ensures joined { result ≡ Ok true → self.new ≡ after_sync self.old }
        ensures kept { all_glyphs self.new ≡ all_glyphs self.old }
        ensures full { result ≡ Ok false → self.new ≡ after_refusal self.old }
        ensures err { OnErr result (self.new ≡ self.old) }
        ensures stays { self.old.is_apart ≡ false → result ≡ Ok (fits_joined self.old) }
    {
        if !self.fits_joined() {
            return Ok(self.refuse());
        }
        self.join()?;
        Ok(true)
    }

    fn fits_joined(&self) -> bool
        requires { self.now.is_open ≡ true }
        ensures { result ≡ fits_joined self.now }
    {
        self.successful && self.info.len() - self.idx <= self.max_len - self.out_len()
    }

    /// Makes one list of the output and the rest of the input.
    fn join(&mut self) -> Result<(), AllocError>
        requires open { self.old.is_open ≡ true }
        requires fits { fits_joined self.old ≡ true }
        ensures joined { OnOk result (self.new ≡ after_sync self.old) }
        ensures err { OnErr result (self.new ≡ self.old) }
        ensures stays { self.old.is_apart ≡ false → IsOk result }
    {
        self.order.settle(&self.info);
        let count = self.out_len + (self.info.len() - self.idx);
        resize_positions(&mut self.pos, self.is_placed, count)?;
        over::join(&mut self.info, self.out_len, self.idx);
        self.is_placed = false;
        self.have_output = false;
        self.is_apart = false;
        self.gap = 0;
        self.idx = 0;
        Ok(())
    }
}

/// `count` zero positions in place of those that there are. Only where some may be other than zero are these written.
#[tactic(auto, using(crate::proofs::Cleared::zero_cut, crate::proofs::Cleared::zero_of_length))]
fn resize_positions(
    positions: &mut Vec<GlyphPosition>,
    is_placed: bool,
    count: usize,
) -> Result<(), AllocError>
    requires { OnFalse is_placed (positions.old.items ≡ zero_positions (length positions.old.items)) }
    ensures ok { OnOk result (positions.new.items ≡ zero_positions count) }
    ensures err { OnErr result (OnFalse is_placed (positions.new.items ≡ zero_positions (length positions.new.items))) }
    ensures stays { count ≤ vec_len positions.old → IsOk result }
{
    if count <= positions.len() {
        cut_positions(positions, is_placed, count);
        return Ok(());
    }
    if is_placed {
        positions.clear();
    }
    positions.resize(count, GlyphPosition::default())
}

/// The first positions, each of them zero.
#[tactic(auto, using(crate::proofs::Cleared::zero_cut))]
fn cut_positions(positions: &mut Vec<GlyphPosition>, is_placed: bool, count: usize)
    requires there { count ≤ vec_len positions.old }
    requires cleared { OnFalse is_placed (positions.old.items ≡ zero_positions (length positions.old.items)) }
    ensures { positions.new.items ≡ zero_positions count }
{
    positions.truncate(count);
    if is_placed {
        positions.fill(GlyphPosition::default());
    }
}
