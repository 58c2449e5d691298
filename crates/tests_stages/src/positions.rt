//! Positions before and after their links are followed.
use crate::glyphs::position_of;
use crate::rows::{direction_of, distance, part, value};
use buffer_common::direction::Direction;
use buffer_glyphs::position::GlyphPosition;
use layout_offsets::followed_links::finish_offsets;
use std::alloc::{AllocError, Global};
use std::test::Fail;

fn position(words: &str) -> GlyphPosition {
    GlyphPosition {
        attach_chain: i16::try_from(distance(words, "link")).unwrap_or(0),
        attach_type: match value(words, "kind") {
            "mark" => 1,
            "cursive" => 2,
            _ => 0,
        },
        ..position_of(words)
    }
}

/// A position after links are followed: its offsets are new, and it keeps its advances and its kind.
fn drawn(words: &str, offsets: &str) -> GlyphPosition {
    GlyphPosition {
        x_offset: distance(offsets, "o"),
        y_offset: distance(offsets, "q"),
        attach_chain: 0,
        ..position(words)
    }
}

fn are_drawn(positions: &[GlyphPosition], row: &str) -> bool {
    let words = part(row, 2).split(',').zip(part(row, 3).split(','));
    for (found, (words, offsets)) in positions.iter().zip(words) {
        if *found != drawn(words, offsets) {
            return false;
        }
    }
    positions.len() == part(row, 3).split(',').count()
}

/// Whether the links of a row's positions are followed as it says.
pub(crate) fn is_drawn(alloc: Global, row: &str) -> Result<bool, AllocError> {
    let words = part(row, 2).split(',');
    let mut positions: Vec<GlyphPosition> = words.map(|words| position(words)).collect(alloc)?;
    finish_offsets(&mut positions, direction_of(part(row, 1)));
    Ok(are_drawn(&positions, row))
}

// A position has advances `a` and `b`, offsets `o` and `q`, and a link to another one, of a kind.
pub(crate) static ROWS: &str = "
# name; direction; positions; offsets afterwards
ttb: cursive 2 to 1; ttb; o=10 q=7, o=10 q=7 link=-1 kind=cursive, a=-20 o=-30; o=10 q=7, o=20 q=7, o=-30
rtl: cursive 1 to 2; rtl; a=100 o=10 link=1 kind=cursive, b=-900, q=200; o=10, o=0, q=200
rtl: mark 3 to 2; rtl; a=500 o=10 q=7, a=100 o=10 q=7, a=-20 q=7 link=-1 kind=mark; o=10 q=7, o=10 q=7, o=-10 q=14
ltr: mark 2 to 1 and mark 3 to 1; ltr; a=100 o=-30 q=7, o=10 link=-1 kind=mark, o=10 q=200 link=-2 kind=mark;
  o=-30 q=7, o=-120 q=7, o=-120 q=207
btt: cursive 3 to 2; btt; a=500, a=-20 o=10 q=7, a=500 o=-30 link=-1 kind=cursive; o=0, o=10 q=7, o=-20
rtl: mark 2 to 1 and mark 3 to 1; rtl; o=-30, b=-900 o=-30 q=7 link=-1 kind=mark, a=500 q=7 link=-2 kind=mark;
  o=-30, o=-60 q=-893, o=470 q=-893
ltr: cursive 2 to 1 and cursive 3 to 2; ltr; a=100, b=-900 link=-1 kind=cursive, a=100 o=-30 q=7 link=-1 kind=cursive;
  o=0, o=0, o=-30 q=7
rtl: cursive 2 to 3; rtl; b=-900 o=-30 q=200, a=500 link=1 kind=cursive, q=200; o=-30 q=200, q=200, q=200
ttb: cursive 1 to 3 and mark 2 to 1; ttb; o=-30 link=2 kind=cursive, a=100 link=-1 kind=mark, a=500 b=-900 o=-30;
  o=-60, o=-60, o=-30
rtl: mark 2 to 1 and cursive 3 to 1; rtl; a=100 q=200, a=-20 q=200 link=-1 kind=mark, a=500 o=10 link=-2 kind=cursive;
  q=200, o=-20 q=400, o=10 q=200
ltr: cursive 2 to 1; ltr; a=500 b=-900 q=7, a=-20 o=10 q=200 link=-1 kind=cursive, a=-20; q=7, o=10 q=207, o=0
ttb: mark 3 to 1; ttb; a=500 o=-30 q=200, a=100 b=-900 o=-30, a=0 link=-2 kind=mark; o=-30 q=200, o=-30, o=-630 q=1100
ltr: mark 2 to 1 and mark 3 to 2; ltr; a=100 b=-900 o=10, a=-20 o=-30 q=7 link=-1 kind=mark, o=-30 link=-1 kind=mark;
  o=10, o=-120 q=907, o=-130 q=907
ltr: cursive 2 to 1 and mark 3 to 2; ltr;
  a=-20 o=-30 q=200, a=500 o=10 q=7 link=-1 kind=cursive, a=500 o=10 link=-1 kind=mark;
  o=-30 q=200, o=10 q=207, o=-480 q=207
btt: mark 2 to 1 and mark 3 to 1; btt;
  a=100 o=10, a=-20 b=-900 o=10 q=7 link=-1 kind=mark, a=500 o=-30 q=7 link=-2 kind=mark; o=10, q=-893, o=460 q=-893
ttb: mark 2 to 1 and mark 3 to 2; ttb;
  a=100 o=-30 q=7, b=-900 q=200 link=-1 kind=mark, b=-900 o=10 q=7 link=-1 kind=mark;
  o=-30 q=7, o=-130 q=207, o=-120 q=1114
rtl: cursive 3 to 2; rtl; a=100 o=10, b=-900 o=-30, a=-20 b=-900 o=-30 q=7 link=-1 kind=cursive; o=10, o=-30, o=-30 q=7
ttb: cursive 2 to 1; ttb; b=-900, b=-900 o=10 q=7 link=-1 kind=cursive, a=500 b=-900 o=10 q=200;
  o=0, o=10 q=7, o=10 q=200
btt: mark 2 to 1 and cursive 3 to 2; btt;
  a=-20 o=10, a=500 q=200 link=-1 kind=mark, a=100 b=-900 o=-30 q=200 link=-1 kind=cursive;
  o=10, o=510 q=200, o=480 q=200
rtl: cursive 1 to 2 and mark 3 to 2; rtl;
  a=500 o=-30 q=7 link=1 kind=cursive, o=-30 q=200, a=500 b=-900 o=-30 q=200 link=-1 kind=mark;
  o=-30 q=207, o=-30 q=200, o=440 q=-500
btt: mark 2 to 1 and mark 3 to 1; btt;
  a=500 b=-900 o=-30 q=200, a=100 b=-900 o=-30 q=200 link=-1 kind=mark, a=500 b=-900 link=-2 kind=mark;
  o=-30 q=200, o=40 q=-500, o=570 q=-1600
ttb: cursive 2 to 1 and cursive 3 to 4; ttb;
  a=-20 q=7, b=-900 o=10 link=-1 kind=cursive, o=-30 link=1 kind=cursive, a=-20; q=7, o=10, o=-30, o=0
rtl: cursive 2 to 1 and mark 3 to 1; rtl;
  a=500 q=7, a=-20 b=-900 o=-30 link=-1 kind=cursive, q=7 link=-2 kind=mark, a=500 o=-30 q=7;
  q=7, o=-30 q=7, o=-20 q=-886, o=-30 q=7
ltr: mark 2 to 1 and cursive 4 to 1; ltr;
  a=100 q=200, o=10 link=-1 kind=mark, b=-900, a=-20 b=-900 o=10 q=7 link=-3 kind=cursive;
  q=200, o=-90 q=200, o=0, o=10 q=207
btt: cursive 3 to 2; btt; a=500 q=200, a=100 o=-30, a=500 o=-30 q=7 link=-1 kind=cursive, a=500 b=-900;
  q=200, o=-30, o=-60 q=7, o=0
ltr: cursive 1 to 4 and mark 2 to 1 and mark 4 to 3; ltr;
  a=100 o=-30 link=3 kind=cursive, b=-900 o=-30 link=-1 kind=mark, b=-900 o=-30, a=500 b=-900 o=10 link=-1 kind=mark;
  o=-30 q=900, o=-160 q=900, o=-30, o=-20 q=900
ltr: cursive 3 to 5 and mark 4 to 3 and mark 5 to 2; ltr;
  a=-20 o=10 q=200, a=500 q=200, q=7 link=2 kind=cursive, q=7 link=-1 kind=mark, a=500 o=-30 q=7 link=-3 kind=mark;
  o=10 q=200, q=200, q=214, q=221, o=-530 q=207
ttb: cursive 2 to 1 and mark 5 to 2; ttb;
  q=7, o=-30 q=200 link=-1 kind=cursive, o=10 q=200, a=100 o=-30 q=7, o=-30 q=200 link=-3 kind=mark;
  q=7, o=-30 q=200, o=10 q=200, o=-30 q=7, o=-160 q=400
ttb: mark 2 to 1 and mark 3 to 1 and cursive 4 to 1; ttb;
  b=-900 q=7, o=10 link=-1 kind=mark, b=-900 q=7 link=-2 kind=mark, a=100 q=200 link=-3 kind=cursive, a=500 o=10 q=200;
  q=7, o=10 q=907, q=914, q=200, o=10 q=200
btt: cursive 4 to 5; btt; a=500 b=-900, b=-900 q=200, a=500 b=-900, a=500 o=-30 q=7 link=1 kind=cursive, o=10;
  o=0, q=200, o=0, o=-20 q=7, o=10
rtl: cursive 2 to 1; rtl;
  a=500 b=-900 o=-30 q=200, a=-20 b=-900 q=7 link=-1 kind=cursive, q=7, a=100 b=-900 o=10, a=100 o=10 q=7;
  o=-30 q=200, q=207, q=7, o=10, o=10 q=7
btt: cursive 2 to 1 and mark 3 to 2 and cursive 4 to 2; btt;
  a=-20 b=-900, a=100 b=-900 o=-30 link=-1 kind=cursive, a=500 o=10 q=200 link=-1 kind=mark, a=500 o=10 link=-2
   kind=cursive, a=-20 o=10 q=7;
  o=0, o=-30, o=480 q=200, o=-20, o=10 q=7
rtl: cursive 1 to 2 and cursive 2 to 4 and mark 5 to 4; rtl;
  a=-20 o=2147483643 q=200 link=1 kind=cursive, a=-20 o=-30 q=7 link=2 kind=cursive, a=-20 o=-30 q=200, o=10, a=-20
   o=-30 link=-1 kind=mark;
  o=2147483643 q=207, o=-30 q=7, o=-30 q=200, o=10, o=-40";

/// A mark with a link of that length.
fn mark(attach_chain: i16) -> GlyphPosition {
    GlyphPosition {
        x_offset: 10,
        attach_chain,
        attach_type: 1,
        ..GlyphPosition::default()
    }
}

#[test]
fn rings_are_cleared(rt: HostRuntime) -> Result<(), Fail> {
    let mut ring = [mark(1), mark(-1)];
    finish_offsets(&mut ring, Direction::LeftToRight);
    for drawn in ring {
        assert_eq!(&rt; drawn.attach_chain, 0);
    }
    // a link of no kind, and one that leads outside
    let mut others = [
        mark(2),
        GlyphPosition {
            attach_type: 129,
            ..mark(-1)
        },
    ];
    finish_offsets(&mut others, Direction::RightToLeft);
    for drawn in others {
        assert_eq!(&rt; drawn.attach_chain, 0);
        assert_eq!(&rt; drawn.x_offset, 10);
    }
    Ok(())
}

/// A base and all marks whose links can reach it.
fn many_marks(alloc: Global) -> Result<Vec<GlyphPosition>, AllocError> {
    let mut positions = Vec::new(alloc);
    positions.push(GlyphPosition {
        x_advance: 500,
        ..GlyphPosition::default()
    })?;
    for link in 1..i16::MAX {
        positions.push(mark(link.saturating_neg()))?;
    }
    Ok(positions)
}

fn are_attached(positions: &mut [GlyphPosition]) -> bool {
    finish_offsets(positions, Direction::LeftToRight);
    positions
        .iter()
        .skip(1)
        .all(|position| position.x_offset == -490)
}

#[test]
fn many_marks_are_attached_to_a_base(rt: HostRuntime) -> Result<(), Fail> {
    let mut positions = many_marks(rt.alloc())?;
    let as_wanted = are_attached(&mut positions);
    assert!(rt; as_wanted);
    Ok(())
}
