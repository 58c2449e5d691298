//! Moves of the cursor (rustybuzz: hb/buffer.rs, `next_glyphs`, `skip_glyph`, `move_to`).
ghost use Rattle.std.specs.Prelude.{◌≡◌, ◌<◌, ◌≤◌, ◌+◌, ◌-◌, ◌++◌, length, drop, true, false, Ok, OnOk, OnErr, IfOk, ◌∷◌, []};
ghost use Rattle.buffer_glyphs.specs.Items.{strip};
ghost use Rattle.buffer_core.specs.Sides.{all_glyphs, fits_next, has_output_room, items_of, after_next_glyphs, after_refusal, origins_of, origins_by, HasCurrent};
ghost use Rattle.buffer_core.specs.Merging.{with_glyph_passed, with_glyph_skipped};
ghost use Rattle.buffer_glyphs.specs.Parts.{elements_replaced};
ghost use Rattle.buffer_core.specs.Moving.{fits_moved, has_room_back, after_move_to};
ghost use Rattle.buffer_glyphs.specs.Events.{Replace};

use super::hb_buffer_t;
use buffer_lists::over;
use std::alloc::AllocError;

impl hb_buffer_t {
    /// Moves the cursor over `count` glyphs, which are appended to the output where one is open; answers false, and
    /// moves nothing, where the output would have more than it may. With the output in place it takes no memory.
    #[tactic(auto, using(crate::proofs::Kept::moved_all))]
    pub fn next_glyphs(&mut self, count: usize) -> Result<bool, AllocError>
        requires { count ≤ length self.old.ahead }
        ensures held { IfOk result (λ b. b ≡ fits_next count self.old) }
        ensures moved { result ≡ Ok true → self.new ≡ after_next_glyphs count self.old }
        ensures kept { all_glyphs self.new ≡ all_glyphs self.old }
        ensures full { result ≡ Ok false → self.new ≡ after_refusal self.old }
        ensures err { OnErr result (self.new ≡ self.old) }
        ensures in_place { self.old.is_open ≡ false → result ≡ Ok true }
        ensures stays { self.old.is_open ≡ true → self.old.is_apart ≡ false → result ≡ Ok true }
    {
        if !self.have_output {
            self.idx += count;
            return Ok(true);
        }
        if !self.has_output_room(count) {
            return Ok(self.refuse());
        }
        self.pass(count);
        Ok(true)
    }

    /// Deletes the glyph at the cursor, with no merge of clusters; where PRODUCE_SAFE_BREAKS is set, it hands on its flags.
    /// It takes no memory.
    #[tactic(auto, using(buffer_glyphs::proofs::Lists::drop_next))]
    pub fn skip_glyph(&mut self)
        requires current { HasCurrent self.old }
        ensures skipped { self.new ≡ with_glyph_skipped self.old }
        ensures items { items_of self.new ≡ strip self.old.behind ++ drop 1 (strip self.old.ahead) }
        ensures origins { origins_of self.new ≡ origins_by (Replace (length self.old.behind) 1 0 ∷ []) self.old }
    {
        let glyph = *self.cur(0);
        self.pass_over();
        self.hand_on(glyph);
    }

    /// Deletes the glyph at the cursor, whose flags are handed on later.
    #[tactic(auto, using(buffer_glyphs::proofs::Lists::drop_next))]
    fn pass_over(&mut self)
        requires current { HasCurrent self.old }
        ensures skipped { self.new ≡ with_glyph_passed self.old }
        ensures items { items_of self.new ≡ strip self.old.behind ++ drop 1 (strip self.old.ahead) }
        ensures origins { origins_of self.new
            ≡ elements_replaced (length self.old.behind) 1 0 (origins_of self.old) }
    {
        self.idx += 1;
    }

    /// Moves the cursor to before the i-th of all glyphs. While an output is open this moves glyphs: those up to the
    /// i-th from the input to the output, or those from the i-th on from the output back to the input. It then answers
    /// false, and moves nothing, where an earlier call was refused for length, or where the side that gets the glyphs
    /// would have more than a list may have. With the output in place it takes no memory.
    pub fn move_to(&mut self, i: usize) -> Result<bool, AllocError>
        requires { i ≤ length (all_glyphs self.old) }
        ensures held { IfOk result (λ b. b ≡ fits_moved i self.old) }
        ensures moved { result ≡ Ok true → self.new ≡ after_move_to i self.old }
        ensures kept { all_glyphs self.new ≡ all_glyphs self.old }
        ensures full { result ≡ Ok false → self.new ≡ after_refusal self.old }
        ensures err { OnErr result (self.new ≡ self.old) }
        ensures in_place { self.old.is_open ≡ false → result ≡ Ok true }
        ensures stays { self.old.is_open ≡ true → self.old.is_apart ≡ false → self.old.has_refused ≡ false →
            result ≡ Ok true }
    {
        if !self.have_output {
            self.idx = i;
            return Ok(true);
        }
        if !self.successful {
            return Ok(false);
        }
        let count = self.out_len();
        if i > count {
            return self.next_glyphs(i - count);
        }
        self.move_back(i)
    }

    /// Moves the glyphs of the output from the i-th on back to the front of the input.
    #[tactic(auto, using(crate::proofs::Moved::moved_to_all))]
    fn move_back(&mut self, i: usize) -> Result<bool, AllocError>
        requires open { self.old.is_open ≡ true }
        requires there { i ≤ length self.old.behind }
        ensures held { IfOk result (λ b. b ≡ has_room_back i self.old) }
        ensures moved { result ≡ Ok true → self.new ≡ after_move_to i self.old }
        ensures kept { all_glyphs self.new ≡ all_glyphs self.old }
        ensures full { result ≡ Ok false → self.new ≡ after_refusal self.old }
        ensures err { OnErr result (self.new ≡ self.old) }
        ensures stays { self.old.is_apart ≡ false → result ≡ Ok true }
    {
        if !self.has_room_back(i) {
            return Ok(self.refuse());
        }
        self.pass_back(i);
        Ok(true)
    }

    fn pass_back(&mut self, i: usize)
        requires open { self.old.is_open ≡ true }
        requires there { i ≤ length self.old.behind }
        requires room { has_room_back i self.old ≡ true }
        ensures { self.new ≡ after_move_to i self.old }
    {
        self.order.settle(&self.info);
        over::pass_back(&mut self.info, self.out_len, self.idx, i);
        self.idx -= self.out_len - i;
        self.gap = self.gap.min(self.idx);
        self.out_len = i;
    }

    /// Whether the input has room for the glyphs of the output from the i-th on.
    fn has_room_back(&self, i: usize) -> bool
        requires open { self.now.is_open ≡ true }
        requires there { i ≤ length self.now.behind }
        ensures room { result ≡ has_room_back i self.now }
        ensures stays { self.now.is_apart ≡ false → result ≡ true }
    {
        let rest = self.info.len() - self.idx;
        self.out_len() - i <= self.max_len - rest
    }
}
