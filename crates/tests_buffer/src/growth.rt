//! More glyphs than 16 bits count: no size makes a call fail for lack of memory.
use crate::call::Call::*;
use crate::call::{Call, make};
use buffer_core::buffer::hb_buffer_t;
use std::alloc::{AllocError, Global};
use std::test::Fail;

const COUNT: usize = 70_000;

/// Each call, with the number of glyphs in the list or the output after it.
static CALLS: &[(Call, usize)] = &[
    (SetLen(COUNT), COUNT),
    (Push("bc"), COUNT + 2),
    (Add('d', 7), COUNT + 3),
    (SetLen(COUNT + 10), COUNT + 10),
    (Open, 0),
    (NextMany(COUNT), COUNT),
    (Next, COUNT + 1),
    (Output(4), COUNT + 2),
    (Put(5), COUNT + 3),
    (Replace(6), COUNT + 4),
    (ReplaceMany(2, &[7, 8, 9]), COUNT + 7),
    (MoveTo(0), 0),
    (Sync, COUNT + 13),
    (ResetClusters, COUNT + 13),
    (Sort(0, COUNT + 13), COUNT + 13),
];

fn count(buffer: &hb_buffer_t) -> usize {
    if buffer.have_output() {
        buffer.out_len()
    } else {
        buffer.len()
    }
}

fn makes_each(alloc: Global, calls: &[(Call, usize)]) -> Result<bool, AllocError> {
    let mut buffer = hb_buffer_t::new(alloc);
    for (call, want) in calls {
        if !make(&mut buffer, alloc, call)? || count(&buffer) != *want {
            return Ok(false);
        }
    }
    Ok(true)
}

#[test]
fn grows_past_two_bytes(rt: HostRuntime) -> Result<(), Fail> {
    assert!(rt; makes_each(rt.alloc(), CALLS)?);
    Ok(())
}
