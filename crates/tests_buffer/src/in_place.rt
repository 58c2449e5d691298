//! Output in the place of what was read: a walk over ten glyphs takes no memory. `tools/short_memory tests_buffer in_place`
//! runs it with each allocation refused in turn.
use buffer_core::buffer::hb_buffer_t;
use buffer_core::laws::law_walks_in_place;
use std::alloc::{AllocError, Global};
use std::test::Fail;

fn walks_ten(alloc: Global) -> Result<bool, AllocError> {
    let mut buffer = hb_buffer_t::new(alloc);
    if !buffer.push_str("abcdefghij")? || !buffer.clear_output()? {
        return Ok(false);
    }
    if !buffer.output_in_place() || buffer.lookahead_len() < 10 {
        return Ok(false);
    }
    if !law_walks_in_place(10, &mut buffer) || !buffer.output_in_place() || buffer.out_len() != 10 {
        return Ok(false);
    }
    buffer.sync()
}

#[test]
fn walks_ten_in_place(rt: HostRuntime) -> Result<(), Fail> {
    assert!(rt; walks_ten(rt.alloc())?);
    Ok(())
}

fn grows_once(alloc: Global) -> Result<bool, AllocError> {
    let mut buffer = hb_buffer_t::new(alloc);
    if !buffer.push_str("abc")? || !buffer.clear_output()? || buffer.lookahead_len() < 3 {
        return Ok(false);
    }
    buffer.skip_glyph();
    // one glyph was read, and one is output
    if !buffer.output_glyph(7)? || !buffer.output_in_place() {
        return Ok(false);
    }
    // two are output, and one was read
    if !buffer.output_glyph(8)? || buffer.output_in_place() {
        return Ok(false);
    }
    // a glyph that is put back does not bring the output back
    if !buffer.move_to(0)? || buffer.output_in_place() {
        return Ok(false);
    }
    if !buffer.sync()? || !buffer.clear_output()? {
        return Ok(false);
    }
    Ok(buffer.output_in_place() && buffer.lookahead_len() == 4)
}

#[test]
fn is_apart_once_it_grows(rt: HostRuntime) -> Result<(), Fail> {
    assert!(rt; grows_once(rt.alloc())?);
    Ok(())
}
