//! Unhides grapheme joiners that keep nothing apart (rustybuzz: hb/ot_shape_normalize.rs).
ghost use Rattle.std.specs.Prelude.{◌≡◌, ◌<◌, ◌≤◌, ◌+◌, ◌==◌, ◌||◌, nat_le, length};
ghost use Rattle.std.specs.List.{list_any};
ghost use Rattle.buffer_glyphs.specs.Items.{item_of};
ghost use Rattle.buffer_glyphs.specs.Origins.{origin_of};
ghost use Rattle.buffer_core.specs.Sides.{items_of};
ghost use Rattle.buffer_stages.specs.Ready.{IsReady};
ghost use Rattle.buffer_properties.specs.Characters.{visible_item};
ghost use Rattle.buffer_properties.specs.Ordering.{joiners_shown};
ghost use Rattle.shape_normalize.specs.Runs.{HasItems, ShowsAt};

use crate::SEVERAL;
use crate::characters::mark_class;
use crate::composing::write_ahead;
use buffer_core::buffer::hb_buffer_t;
use buffer_glyphs::flags::UnicodeProps;
use buffer_glyphs::info::hb_glyph_info_t;

/// COMBINING GRAPHEME JOINER.
const JOINER: u32 = 0x034F;

/// Whether a joiner between items of two combining classes keeps nothing apart.
fn keeps_nothing_apart(before: u8, after: u8) -> bool
    ensures { result ≡ (after == 0 || nat_le before after) }
{
    after == 0 || before <= after
}

/// A character that is not hidden any more.
fn shown(info: &hb_glyph_info_t) -> hb_glyph_info_t
    ensures item { item_of result ≡ visible_item (item_of info.now) }
    ensures origin { origin_of result ≡ origin_of info.now }
{
    let word = info.unicode_props.0;
    hb_glyph_info_t {
        unicode_props: UnicodeProps(word - (word & UnicodeProps::HIDDEN.0)),
        ..*info
    }
}

/// Unhides the item at an index, after one of class `before`, if it is a joiner that keeps nothing apart; returns the
/// item's class.
fn show_joiner(before: u8, i: usize, buffer: &mut hb_buffer_t) -> u8
    requires ready { IsReady buffer.old }
    requires there { i + 1 < length buffer.old.ahead }
    ensures { ShowsAt before i result buffer.old buffer.new }
{
    // The number of glyphs bounds `i + 1`.
    let _count = buffer.len();
    let glyph = *buffer.cur(i);
    let class = mark_class(&glyph);
    if glyph.glyph_id != JOINER {
        return class;
    }
    let after = mark_class(buffer.cur(i + 1));
    if !keeps_nothing_apart(before, after) {
        return class;
    }
    write_ahead(i, shown(&glyph), buffer);
    class
}

/// Unhides each joiner among that many items that keeps nothing apart.
fn show_between(count: usize, buffer: &mut hb_buffer_t)
    requires ready { IsReady buffer.old }
    requires counted { count ≡ length buffer.old.ahead }
    requires some { 2 ≤ count }
    ensures { HasItems (joiners_shown (items_of buffer.old)) buffer.old buffer.new }
{
    let mut before = mark_class(buffer.cur(0));
    for i in 1..count - 1 {
        before = show_joiner(before, i, buffer);
    }
}

/// Whether there is a grapheme joiner.
fn has_joiner(glyphs: &[hb_glyph_info_t]) -> bool
    ensures { result ≡ list_any (λ g. g.glyph_id == 0x034F) glyphs.now }
{
    if glyphs.len() < SEVERAL {
        return glyphs.iter().any(|glyph| glyph.glyph_id == JOINER);
    }
    let mut any = false;
    for glyph in glyphs {
        any |= glyph.glyph_id == JOINER;
    }
    any
}

/// Unhides each grapheme joiner between two items where the next class is 0, or at least the previous one. It takes
/// linear time; a text without joiners is only searched for one.
#[tactic(auto, using(crate::proofs::Shown::none_stays))]
pub(crate) fn show_joiners(buffer: &mut hb_buffer_t)
    requires ready { IsReady buffer.old }
    ensures { HasItems (joiners_shown (items_of buffer.old)) buffer.old buffer.new }
{
    if !has_joiner(buffer.info_slice()) {
        return;
    }
    let count = buffer.lookahead_len();
    if count < 2 {
        return;
    }
    show_between(count, buffer);
}
