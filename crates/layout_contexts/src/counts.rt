//! How many glyphs are before and after the cursor.
ghost use Rattle.std.specs.Prelude.{◌≡◌, ◌<◌, ◌^◌, length};
ghost use Rattle.buffer_stages.specs.Actions.{whole};
ghost use Rattle.buffer_stages.specs.Buffers.{cut_of};

use buffer_core::buffer::hb_buffer_t;

/// How many glyphs are before the cursor; the memory that a list takes bounds it.
pub(crate) fn backtrack_len(buffer: &hb_buffer_t) -> usize
    ensures count { result ≡ length buffer.now.behind }
    ensures small { result < 2 ^ 59 }
{
    buffer.out_info().len()
}

/// How many glyphs there are, before the cursor and from it on.
#[tactic(auto, using(crate::proofs::Lemmas::Lengths::whole_count))]
pub fn glyph_count(buffer: &hb_buffer_t) -> usize
    ensures count { result ≡ length (whole (cut_of buffer.now)) }
    ensures small { result < 2 ^ 60 }
{
    backtrack_len(buffer) + buffer.lookahead_len()
}
