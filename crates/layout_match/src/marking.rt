//! Glyph flags on ranges around the cursor.
ghost use Rattle.std.specs.Prelude.{◌≡◌, ◌≤◌, ◌+◌, ◌-◌, ◌∷◌, [], length};
ghost use Rattle.buffer_glyphs.specs.Events.{Break, Concat};
ghost use Rattle.buffer_stages.specs.Buffers.{IsPassed};

use buffer_core::buffer::hb_buffer_t;

/// Flags `back` glyphs before the cursor, and `ahead` from there on, as unsafe to concat, where that is requested.
pub fn mark_attempt(back: usize, ahead: usize, buffer: &mut hb_buffer_t)
    requires before { back ≤ length buffer.old.behind }
    requires after { ahead ≤ length buffer.old.ahead }
    ensures { IsPassed (Concat (length buffer.old.behind - back) (length buffer.old.behind + ahead)
        ∷ []) buffer.old buffer.new }
{
    // The length of the input bounds `buffer.idx() + ahead`.
    let _end = buffer.len();
    let start = buffer.out_len() - back;
    let end = buffer.idx() + ahead;
    buffer.unsafe_to_concat_from_outbuffer(Some(start), Some(end));
}

/// Flags such glyphs outside the least cluster among them as unsafe to break.
pub fn mark_match(back: usize, ahead: usize, buffer: &mut hb_buffer_t)
    requires before { back ≤ length buffer.old.behind }
    requires after { ahead ≤ length buffer.old.ahead }
    ensures { IsPassed (Break (length buffer.old.behind - back) (length buffer.old.behind + ahead)
        ∷ []) buffer.old buffer.new }
{
    // The length of the input bounds `buffer.idx() + ahead`.
    let _end = buffer.len();
    let start = buffer.out_len() - back;
    let end = buffer.idx() + ahead;
    buffer.unsafe_to_break_from_outbuffer(Some(start), Some(end));
}
