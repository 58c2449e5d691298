//! Single glyphs appended to the output (rustybuzz: hb/buffer.rs, `output_glyph`, `output_info`, `replace_glyph`).
ghost use Rattle.std.specs.Prelude.{◌≡◌, ◌≢◌, ◌<◌, ◌≤◌, ◌+◌, ◌++◌, ◌∷◌, [], take, drop, length, true, false, Ok, IsOk, OnOk, OnErr, IfOk};
ghost use Rattle.buffer_glyphs.specs.Items.{clusters, item_of, strip};
ghost use Rattle.buffer_lists.specs.Known.{HasOrder};
ghost use Rattle.buffer_glyphs.specs.Parts.{numbers_replaced};
ghost use Rattle.buffer_glyphs.specs.Replacements.{items_replaced};
ghost use Rattle.buffer_core.specs.Sides.{all_glyphs, has_output_room, items_of, after_refusal, origins_of, origins_by, HasCurrent};
ghost use Rattle.buffer_core.specs.Merging.{fits_copies, with_output_glyph, with_output_info, with_replaced_glyph};
ghost use Rattle.buffer_glyphs.specs.Origins.{origin_of, origins};
ghost use Rattle.buffer_glyphs.specs.Events.{Replace};

use super::hb_buffer_t;
use super::room::{has_left, make_room};
use buffer_glyphs::info::hb_glyph_info_t;
use buffer_lists::order::KnownOrder;
use buffer_lists::over;
use buffer_lists::replacement::put_copies;
use std::alloc::AllocError;

impl hb_buffer_t {
    /// Appends a copy of the glyph at the cursor (of the last output glyph where the cursor is past the end; none where
    /// there is neither) under another number. It answers false, and appends none, where the output would have more
    /// than it may. Where the output stays in place it takes no memory.
    pub fn output_glyph(&mut self, glyph_index: u32) -> Result<bool, AllocError>
        requires { self.old.is_open ≡ true }
        ensures held { IfOk result (λ b. b ≡ fits_copies 1 self.old) }
        ensures put { result ≡ Ok true → self.new ≡ with_output_glyph glyph_index self.old }
        ensures items { result ≡ Ok true →
            items_of self.new ≡ items_replaced (length self.old.behind) 0 (glyph_index ∷ []) (items_of self.old) }
        ensures origins { result ≡ Ok true →
            origins_of self.new ≡ origins_by (Replace (length self.old.behind) 0 1 ∷ []) self.old }
        ensures full { result ≡ Ok false → self.new ≡ after_refusal self.old }
        ensures err { OnErr result (self.new ≡ self.old) }
        ensures stays { (with_output_glyph glyph_index self.old).is_apart ≡ false → result ≡ Ok true }
    {
        if self.is_empty() {
            return Ok(true);
        }
        if !self.has_output_room(1) {
            return Ok(self.refuse());
        }
        self.put_copy(glyph_index)?;
        Ok(true)
    }

    fn put_copy(&mut self, glyph_index: u32) -> Result<(), AllocError>
        requires open { self.old.is_open ≡ true }
        requires some { length (all_glyphs self.old) ≢ 0 }
        requires room { has_output_room 1 self.old ≡ true }
        ensures put { OnOk result (self.new ≡ with_output_glyph glyph_index self.old) }
        ensures err { OnErr result (self.new ≡ self.old) }
        ensures stays { length self.old.behind < self.old.read → IsOk result }
    {
        self.order.settle(&self.info);
        let moved = make_room(&mut self.info, self.out_len, self.idx, self.gap, 1)?;
        self.idx += moved;
        self.gap += moved;
        self.is_apart = has_left(self.is_apart, moved);
        self.out_len = put_copies(
            &mut self.info,
            self.out_len,
            self.idx,
            self.idx,
            &[glyph_index],
        );
        Ok(())
    }

    /// Appends a glyph to the output; answers false, and appends none, where the output has as many as it may. Where the
    /// output stays in place it takes no memory.
    pub fn output_info(&mut self, glyph_info: hb_glyph_info_t) -> Result<bool, AllocError>
        requires { self.old.is_open ≡ true }
        ensures held { IfOk result (λ b. b ≡ has_output_room 1 self.old) }
        ensures put { result ≡ Ok true → self.new ≡ with_output_info glyph_info self.old }
        ensures items { result ≡ Ok true →
            items_of self.new ≡ strip self.old.behind ++ item_of glyph_info ∷ strip self.old.ahead }
        ensures origins { result ≡ Ok true →
            origins_of self.new ≡ origins self.old.behind ++ origin_of glyph_info ∷ origins self.old.ahead }
        ensures full { result ≡ Ok false → self.new ≡ after_refusal self.old }
        ensures err { OnErr result (self.new ≡ self.old) }
        ensures stays { (with_output_info glyph_info self.old).is_apart ≡ false → result ≡ Ok true }
    {
        if !self.has_output_room(1) {
            return Ok(self.refuse());
        }
        self.put_info(glyph_info)?;
        Ok(true)
    }

    fn put_info(&mut self, glyph_info: hb_glyph_info_t) -> Result<(), AllocError>
        requires open { self.old.is_open ≡ true }
        requires room { has_output_room 1 self.old ≡ true }
        ensures put { OnOk result (self.new ≡ with_output_info glyph_info self.old) }
        ensures err { OnErr result (self.new ≡ self.old) }
        ensures stays { length self.old.behind < self.old.read → IsOk result }
    {
        self.order.settle(&self.info);
        let moved = make_room(&mut self.info, self.out_len, self.idx, self.gap, 1)?;
        self.idx += moved;
        self.gap += moved;
        self.is_apart = has_left(self.is_apart, moved);
        let known = self.order.known;
        let (out_len, from) = (self.out_len, self.idx);
        self.order.known = with_between(known, &self.info, out_len, glyph_info.cluster, from);
        over::put(&mut self.info, out_len, from, glyph_info);
        self.out_len += 1;
        Ok(())
    }

    /// Appends the glyph at the cursor to the output under another number; answers false, and moves nothing, where the
    /// output has as many as it may. With the output in place it takes no memory.
    #[tactic(auto, using(crate::proofs::Kept::renumbered_origins))]
    pub fn replace_glyph(&mut self, glyph_index: u32) -> Result<bool, AllocError>
        requires current { HasCurrent self.old }
        ensures held { IfOk result (λ b. b ≡ has_output_room 1 self.old) }
        ensures replaced { result ≡ Ok true → self.new ≡ with_replaced_glyph glyph_index self.old }
        ensures items { result ≡ Ok true →
            items_of self.new ≡ items_replaced (length self.old.behind) 1 (glyph_index ∷ []) (items_of self.old) }
        ensures origins { origins_of self.new ≡ origins_of self.old }
        ensures full { result ≡ Ok false → self.new ≡ after_refusal self.old }
        ensures err { OnErr result (self.new ≡ self.old) }
        ensures stays { self.old.is_apart ≡ false → result ≡ Ok true }
    {
        if !self.has_output_room(1) {
            return Ok(self.refuse());
        }
        self.pass_renumbered(glyph_index);
        Ok(true)
    }

    fn pass_renumbered(&mut self, glyph_index: u32)
        requires current { HasCurrent self.old }
        requires room { has_output_room 1 self.old ≡ true }
        ensures replaced { self.new ≡ with_replaced_glyph glyph_index self.old }
    {
        self.order.settle(&self.info);
        let glyph = hb_glyph_info_t {
            glyph_id: glyph_index,
            ..self.info[self.idx]
        };
        over::put(&mut self.info, self.out_len, self.idx + 1, glyph);
        self.out_len += 1;
        self.idx += 1;
    }
}

/// What is known of the order of the output and the input with a glyph of the cluster between.
fn with_between(
    known: KnownOrder,
    glyphs: &[hb_glyph_info_t],
    out_len: usize,
    cluster: u32,
    from: usize,
) -> KnownOrder
    requires ordered { out_len ≤ from }
    requires within { from ≤ length glyphs.now }
    ensures { HasOrder known (clusters (take out_len glyphs.now) ++ clusters (drop from glyphs.now)) →
        HasOrder result (clusters (take out_len glyphs.now) ++ cluster ∷ clusters (drop from glyphs.now)) }
{
    known.with_between(&glyphs[..out_len], cluster, &glyphs[from..])
}
