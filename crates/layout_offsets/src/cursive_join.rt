//! Cursive joins of two glyphs, on a list of positions.
ghost use Rattle.std.specs.Prelude.{◌≡◌, ◌<◌, ◌-ℤ◌, length};
ghost use Rattle.layout_offsets.specs.Cursive.{attaches_earlier, cursive_attachment, with_cursive_offset};

use crate::cursive_chain::{attach_child, join_advances};
use buffer_common::direction::Direction;
use buffer_glyphs::position::GlyphPosition;
use layout_common::flags::RIGHT_TO_LEFT;
use layout_tables::value::Anchor;

/// Whether a lookup with this flag attaches the earlier of two glyphs to the later one.
pub fn attaches_earlier_glyph(props: u32) -> bool
    ensures { result ≡ attaches_earlier props }
{
    props & u32::from(RIGHT_TO_LEFT) != 0
}

fn difference(a: i16, b: i16) -> i32
    ensures { result ≡ a -ℤ b }
{
    i32::from(a) - i32::from(b)
}

/// Two glyphs to join: their indices, the exit of the first and the entry of the second.
#[derive(Clone, Copy)]
pub struct Joint {
    pub first: usize,
    pub exit: Anchor,
    pub second: usize,
    pub entry: Anchor,
}

/// Attaches one of two glyphs to the other: the earlier to the later, or the later to the earlier.
fn join_on(positions: &mut [GlyphPosition], earlier: bool, join: Joint, direction: Direction)
    requires first { join.first < length positions.old }
    requires second { join.second < length positions.old }
    ensures { positions.new ≡ with_cursive_offset direction earlier join.first join.exit join.second join.entry positions.old }
{
    let Joint {
        first,
        exit,
        second,
        entry,
    } = join;
    if earlier {
        let (x, y) = (difference(entry.x, exit.x), difference(entry.y, exit.y));
        attach_child(positions, first, second, x, y, direction);
        return;
    }
    let (x, y) = (difference(exit.x, entry.x), difference(exit.y, entry.y));
    attach_child(positions, second, first, x, y, direction);
}

/// Joins two glyphs along the line and across it.
pub fn join_both(positions: &mut [GlyphPosition], earlier: bool, join: Joint, direction: Direction)
    requires first { join.first < length positions.old }
    requires second { join.second < length positions.old }
    ensures { positions.new ≡ cursive_attachment direction earlier join.first join.exit join.second join.entry positions.old }
{
    join_advances(
        positions,
        join.first,
        join.exit,
        join.second,
        join.entry,
        direction,
    );
    join_on(positions, earlier, join, direction);
}
