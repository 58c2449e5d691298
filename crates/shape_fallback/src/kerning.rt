//! Fallback kerning (rustybuzz: hb/ot_shape_fallback.rs, a stub).
ghost use Rattle.std.specs.Prelude.{◌≡◌};

use buffer_core::buffer::hb_buffer_t;

/// No-op, as in rustybuzz: fallback kerning is a stub.
pub fn _hb_ot_shape_fallback_kern(buffer: &mut hb_buffer_t)
    ensures { buffer.new ≡ buffer.old }
{
    // The buffer is an argument because rustybuzz's call has it.
    let _ = buffer;
}
