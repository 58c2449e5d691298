//! Some glyphs replaced by others (rustybuzz: hb/buffer.rs, `replace_glyphs`).
ghost use Rattle.std.specs.Prelude.{◌≡◌, ◌≢◌, ◌<◌, ◌+◌, ◌≤◌, length, true, false, Ok, IsOk, OnOk, OnErr, IfOk, ◌∷◌, []};
ghost use Rattle.buffer_glyphs.specs.Parts.{numbers_replaced};
ghost use Rattle.buffer_glyphs.specs.Replacements.{items_replaced};
ghost use Rattle.buffer_core.specs.Sides.{all_glyphs, has_output_room, items_of, after_refusal, origins_of, origins_by};
ghost use Rattle.buffer_core.specs.Merging.{fits_copies, with_replaced};
ghost use Rattle.buffer_glyphs.specs.Events.{Replace};

use super::hb_buffer_t;
use super::merges::add_has_glyph_flags;
use super::room::{has_left, make_room};
use buffer_lists::replacement::replace_first;
use std::alloc::AllocError;

impl hb_buffer_t {
    /// Merges the `num_in` glyphs at the cursor, deletes them (where PRODUCE_SAFE_BREAKS is set, they hand on their flags),
    /// and appends a copy of the first input glyph (of the last output glyph where the input is empty; none where there is
    /// neither) for each of the `num_out` numbers. It answers false, and changes neither list, where the output would have
    /// more than it may. It takes no memory where the output stays in place.
    pub fn replace_glyphs(
        &mut self,
        num_in: usize,
        num_out: usize,
        glyph_data: &[u32],
    ) -> Result<bool, AllocError>
        requires open { self.old.is_open ≡ true }
        requires taken { num_in ≤ length self.old.ahead }
        requires given { num_out ≡ length glyph_data.now }
        ensures held { IfOk result (λ b. b ≡ fits_copies num_out self.old) }
        ensures replaced { result ≡ Ok true → self.new ≡ with_replaced num_in glyph_data.now self.old }
        ensures items { result ≡ Ok true →
            items_of self.new ≡ items_replaced (length self.old.behind) num_in glyph_data.now (items_of self.old) }
        ensures origins { result ≡ Ok true →
            origins_of self.new ≡ origins_by (Replace (length self.old.behind) num_in num_out ∷ []) self.old }
        ensures full { result ≡ Ok false → self.new ≡ after_refusal self.old }
        ensures err { OnErr result (self.new ≡ self.old) }
        ensures stays { (with_replaced num_in glyph_data.now self.old).is_apart ≡ false → result ≡ Ok true }
    {
        if self.is_empty() {
            return Ok(true);
        }
        if !self.has_output_room(num_out) {
            return Ok(self.refuse());
        }
        self.replace_taken(num_in, glyph_data)?;
        Ok(true)
    }

    fn replace_taken(&mut self, num_in: usize, glyph_data: &[u32]) -> Result<(), AllocError>
        requires open { self.old.is_open ≡ true }
        requires some { length (all_glyphs self.old) ≢ 0 }
        requires taken { num_in ≤ length self.old.ahead }
        requires room { has_output_room (length glyph_data.now) self.old ≡ true }
        ensures replaced { OnOk result (self.new ≡ with_replaced num_in glyph_data.now self.old) }
        ensures err { OnErr result (self.new ≡ self.old) }
        ensures stays { length self.old.behind + length glyph_data.now ≤ self.old.read + num_in → IsOk result }
    {
        let breaks = self.asks_breaks();
        self.order.settle(&self.info);
        let more = glyph_data.len().saturating_sub(num_in);
        let moved = make_room(&mut self.info, self.out_len, self.idx, self.gap, more)?;
        self.idx += moved;
        self.gap += moved;
        self.is_apart = has_left(self.is_apart, moved);
        let (marked, known, out_len) = replace_first(
            &mut self.info,
            self.out_len,
            self.idx,
            num_in,
            glyph_data,
            self.cluster_level,
            self.order.known,
            breaks,
        );
        self.out_len = out_len;
        self.idx += num_in;
        self.order.known = known;
        self.scratch_flags = add_has_glyph_flags(marked, self.scratch_flags);
        Ok(())
    }
}
