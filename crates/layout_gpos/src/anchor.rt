//! Attachment of marks to other glyphs by anchors, on a list of positions (rustybuzz: hb/ot_layout_gpos_table.rs,
//! `MarkArrayExt`).
ghost use Rattle.std.specs.Prelude.{◌≡◌, ◌<◌, ◌-ℤ◌, length};
ghost use Rattle.layout_gpos.specs.Anchors.{anchored_position, with_mark_attached};
ghost use Rattle.layout_offsets.specs.Links.{is_near, link_to};

use buffer_glyphs::position::GlyphPosition;
use buffer_glyphs::position::attach_type::MARK;
use layout_offsets::links::{is_near, link_to};
use layout_tables::value::Anchor;

fn difference(a: i16, b: i16) -> i32
    ensures { result ≡ a -ℤ b }
{
    i32::from(a) - i32::from(b)
}

fn anchor_mark(base: Anchor, mark: Anchor, link: i16, position: GlyphPosition) -> GlyphPosition
    ensures { result ≡ anchored_position base mark link position }
{
    GlyphPosition {
        x_offset: difference(base.x, mark.x),
        y_offset: difference(base.y, mark.y),
        attach_chain: link,
        attach_type: MARK,
        ..position
    }
}

/// Attaches a mark to its base, anchor on anchor. Where the base is more than 32767 glyphs away, nothing changes.
pub fn attach_mark(
    positions: &mut [GlyphPosition],
    at: usize,
    base: usize,
    base_anchor: Anchor,
    mark_anchor: Anchor,
)
    requires { at < length positions.old }
    ensures { positions.new ≡ with_mark_attached at base base_anchor mark_anchor positions.old }
{
    if is_near(at, base) {
        positions[at] = anchor_mark(base_anchor, mark_anchor, link_to(at, base), positions[at]);
    }
}
