//! Sorts of a range where memory may be lacking: a range in order takes none, and a sort that was refused memory leaves
//! the buffer as it was. `tools/short_memory tests_buffer memory` runs these rows with each allocation refused in turn.
//! The rows of the two kinds of levels repeat their glyphs, so that each reads alone, and each has a test of its own, so
//! that memory is refused in its sort alone.
use crate::call::Call::*;
use crate::call::{Call, make};
use crate::rows::{Glyph, are, make_all};
use buffer_core::buffer::hb_buffer_t;
use std::alloc::{AllocError, Global};
use std::test::Fail;

struct Row {
    /// The calls that lead to the list.
    calls: &'static [Call],
    before: &'static [Glyph],
    /// The list after a sort of all glyphs by number.
    after: &'static [Glyph],
}

// Clusters 2 and 3 are flagged, but for the least of them. The first five glyphs are then the smallest range that the
// order permutes: they get the cluster 0, and those whose cluster changes lose their flags.
static OUT_OF_ORDER: Row = Row {
    calls: &[
        Push("\u{1}\u{2}\u{3}\u{4}\u{5}\u{6}"),
        UnsafeToBreak(Some(2), Some(4)),
        ReverseRange(0, 5),
    ],
    before: &[
        (5, 4, 0),
        (4, 3, 3),
        (3, 2, 0),
        (2, 1, 0),
        (1, 0, 0),
        (6, 5, 0),
    ],
    after: &[
        (1, 0, 0),
        (2, 0, 0),
        (3, 0, 0),
        (4, 0, 0),
        (5, 0, 0),
        (6, 5, 0),
    ],
};

// Where characters are kept apart the five keep their clusters, and all but the least are flagged.
static OUT_OF_ORDER_APART: Row = Row {
    calls: &[
        KeepApart,
        Push("\u{1}\u{2}\u{3}\u{4}\u{5}\u{6}"),
        UnsafeToBreak(Some(2), Some(4)),
        ReverseRange(0, 5),
    ],
    before: &[
        (5, 4, 0),
        (4, 3, 3),
        (3, 2, 0),
        (2, 1, 0),
        (1, 0, 0),
        (6, 5, 0),
    ],
    after: &[
        (1, 0, 0),
        (2, 1, 3),
        (3, 2, 3),
        (4, 3, 3),
        (5, 4, 3),
        (6, 5, 0),
    ],
};

static IN_ORDER: Row = Row {
    calls: &[
        Push("\u{1}\u{2}\u{3}\u{4}\u{5}\u{6}"),
        UnsafeToBreak(Some(2), Some(4)),
    ],
    before: &[
        (1, 0, 0),
        (2, 1, 0),
        (3, 2, 0),
        (4, 3, 3),
        (5, 4, 0),
        (6, 5, 0),
    ],
    after: &[
        (1, 0, 0),
        (2, 1, 0),
        (3, 2, 0),
        (4, 3, 3),
        (5, 4, 0),
        (6, 5, 0),
    ],
};

static IN_ORDER_APART: Row = Row {
    calls: &[
        KeepApart,
        Push("\u{1}\u{2}\u{3}\u{4}\u{5}\u{6}"),
        UnsafeToBreak(Some(2), Some(4)),
    ],
    before: &[
        (1, 0, 0),
        (2, 1, 0),
        (3, 2, 0),
        (4, 3, 3),
        (5, 4, 0),
        (6, 5, 0),
    ],
    after: &[
        (1, 0, 0),
        (2, 1, 0),
        (3, 2, 0),
        (4, 3, 3),
        (5, 4, 0),
        (6, 5, 0),
    ],
};

fn is(buffer: &hb_buffer_t, want: &[Glyph]) -> bool {
    !buffer.have_output() && are(buffer.info_slice(), want)
}

/// Sorts the list of a row by number. Returns the sort's answer, and whether the list and the scratch flags are those
/// that belong to it: as before where memory was refused.
fn sorts(alloc: Global, row: &Row) -> Result<(bool, Result<bool, AllocError>), AllocError> {
    let mut buffer = hb_buffer_t::new(alloc);
    make_all(&mut buffer, alloc, row.calls)?;
    let flags = buffer.scratch_flags();
    let was = is(&buffer, row.before);
    let end = buffer.len();
    let answer = make(&mut buffer, alloc, &Sort(0, end));
    let is_left = match answer {
        Ok(is_made) => is_made && is(&buffer, row.after),
        Err(_) => buffer.scratch_flags() == flags && is(&buffer, row.before),
    };
    Ok((was && is_left, answer))
}

#[test]
fn sorts_or_leaves_a_range(rt: HostRuntime) -> Result<(), Fail> {
    let (as_wanted, answer) = sorts(rt.alloc(), &OUT_OF_ORDER)?;
    assert!(rt; as_wanted);
    answer?;
    Ok(())
}

#[test]
fn sorts_or_leaves_a_range_kept_apart(rt: HostRuntime) -> Result<(), Fail> {
    let (as_wanted, answer) = sorts(rt.alloc(), &OUT_OF_ORDER_APART)?;
    assert!(rt; as_wanted);
    answer?;
    Ok(())
}

#[test]
fn takes_no_memory_in_order(rt: HostRuntime) -> Result<(), Fail> {
    for row in [&IN_ORDER, &IN_ORDER_APART] {
        let (as_wanted, answer) = sorts(rt.alloc(), row)?;
        assert!(rt; as_wanted && answer.is_ok());
    }
    Ok(())
}
