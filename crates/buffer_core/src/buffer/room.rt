//! Whether a list may grow, and refusals for length (rustybuzz: hb/buffer.rs, `ensure`, `successful`).
ghost use Rattle.std.specs.Prelude.{◌≡◌, ◌≤◌, ◌+◌, ◌||◌, nat_lt, take, drop, length, vec_len, false, true, Ok, IfOk, OnOk, OnErr};
ghost use Rattle.buffer_core.specs.Sides.{has_output_room, after_refusal};

use super::hb_buffer_t;
use buffer_glyphs::info::hb_glyph_info_t;
use buffer_lists::over;
use std::alloc::AllocError;

impl hb_buffer_t {
    /// Whether the output may have `count` more glyphs.
    pub(super) fn has_output_room(&self, count: usize) -> bool
        requires { self.now.is_open ≡ true }
        ensures room { result ≡ has_output_room count self.now }
        ensures in_place { self.now.is_apart ≡ false → length self.now.behind ≤ self.now.read }
        ensures within { self.now.is_apart ≡ false → self.now.read + length self.now.ahead ≤ self.now.max_len }
    {
        count <= self.max_len - self.out_len()
    }

    /// Records that a list would have more glyphs than it may: no later `sync` succeeds. Answers false.
    pub(super) fn refuse(&mut self) -> bool
        ensures answer { result ≡ false }
        ensures after { self.new ≡ after_refusal self.old }
    {
        self.successful = false;
        false
    }
}

/// Makes room for `count` more glyphs after the output, and moves the input on where there is too little; answers how
/// far. Where it moves, it moves by a sixteenth of its length at least, and as far as it has moved before, so that it
/// moves few times.
pub(super) fn make_room(
    glyphs: &mut Vec<hb_glyph_info_t>,
    out_len: usize,
    from: usize,
    opened: usize,
    more: usize,
) -> Result<usize, AllocError>
    requires ordered { out_len ≤ from }
    requires within { from ≤ vec_len glyphs.old }
    ensures output { OnOk result (take out_len glyphs.new.items ≡ take out_len glyphs.old.items) }
    ensures input { IfOk result (λ n. drop (from + n) glyphs.new.items ≡ drop from glyphs.old.items) }
    ensures len { IfOk result (λ n. vec_len glyphs.new ≡ vec_len glyphs.old + n) }
    ensures room { IfOk result (λ n. out_len + more ≤ from + n) }
    ensures moved { IfOk result (λ n. nat_lt 0 n ≡ nat_lt from (out_len + more)) }
    ensures stays { out_len + more ≤ from → result ≡ Ok 0 }
    ensures err { OnErr result (glyphs.new.items ≡ glyphs.old.items) }
{
    let room = from - out_len;
    if more <= room {
        return Ok(0);
    }
    let wanted = (more - room).max(opened).max((glyphs.len() - from) / 16);
    over::open_gap(glyphs, out_len, from, wanted)?;
    Ok(wanted)
}

/// Whether the output has had more glyphs than were read, once the input has moved on so far.
pub(super) fn has_left(is_apart: bool, moved: usize) -> bool
    ensures { result ≡ (is_apart || nat_lt 0 moved) }
{
    is_apart || moved > 0
}
