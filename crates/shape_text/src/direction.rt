//! Reverses a text that is set against its script's direction, ensure_native_direction (rustybuzz: hb/ot_shape.rs).
ghost use Rattle.std.specs.Prelude.{◌≡◌, false};
ghost use Rattle.std.specs.List.{list_any};
ghost use Rattle.buffer_glyphs.specs.Items.{item_of, strip};
ghost use Rattle.buffer_glyphs.specs.Origins.{origin_of};
ghost use Rattle.buffer_core.specs.Readings.{always};
ghost use Rattle.buffer_core.specs.Graphemes.{continues};
ghost use Rattle.buffer_core.specs.Sides.{items_of};
ghost use Rattle.buffer_stages.specs.Ready.{IsReady};
ghost use Rattle.buffer_properties.specs.Categories.{is_letter};
ghost use Rattle.buffer_stages.specs.Stages.{IsFollowed, with_items_mapped};
ghost use Rattle.shape_text.specs.NativeOrder.{is_number_text, is_numeral, is_reversed, native_order, in_native_order, runs_against, script_direction, reversed_text, with_numbers, without_continuation};

use buffer_common::direction::Direction;
use buffer_common::script::Script;
use buffer_core::buffer::hb_buffer_t;
use buffer_glyphs::flags::UnicodeProps;
use buffer_glyphs::info::hb_glyph_info_t;
use buffer_properties::categories::{is_decimal_number, is_letter};
use buffer_stages::glyphs::map_glyphs;
use buffer_stages::layout_stages::merges_graphemes;

fn is_numeral(glyph: &hb_glyph_info_t) -> bool
    ensures { result ≡ is_numeral (item_of glyph.now) }
{
    matches!(glyph.glyph_id, 0x1F1E6..=0x1F1FF) || is_decimal_number(glyph)
}

#[tactic(auto, using(crate::proofs::Turned::number_text_stripped))]
fn is_number_text(glyphs: &[hb_glyph_info_t]) -> bool
    ensures { result ≡ is_number_text (strip glyphs.now) }
{
    has_numeral(glyphs) && !has_letter(glyphs)
}

fn has_numeral(glyphs: &[hb_glyph_info_t]) -> bool
    ensures { result ≡ list_any (λ g. is_numeral (item_of g)) glyphs.now }
{
    glyphs.iter().any(|glyph| is_numeral(glyph))
}

fn has_letter(glyphs: &[hb_glyph_info_t]) -> bool
    ensures { result ≡ list_any (λ g. is_letter (item_of g)) glyphs.now }
{
    glyphs.iter().any(|glyph| is_letter(glyph))
}

fn script_direction(script: Option<Script>) -> Direction
    ensures { result ≡ script_direction script }
{
    match script {
        Some(script) => Direction::from_script(script).unwrap_or(Direction::Invalid),
        None => Direction::Invalid,
    }
}

fn with_numbers(is_number_text: bool, text: Direction, direction: Direction) -> Direction
    ensures { result ≡ with_numbers is_number_text text direction }
{
    match (is_number_text, text, direction) {
        (true, Direction::LeftToRight, Direction::RightToLeft) => Direction::LeftToRight,
        _ => direction,
    }
}

fn runs_against(text: Direction, written: Direction) -> bool
    ensures { result ≡ runs_against text written }
{
    matches!(
        (text, written),
        (Direction::LeftToRight, Direction::RightToLeft)
            | (Direction::RightToLeft, Direction::LeftToRight)
            | (Direction::BottomToTop, _)
    )
}

fn continues_grapheme(glyph: &hb_glyph_info_t) -> bool
    ensures { result ≡ continues (item_of glyph.now) }
{
    glyph.unicode_props.0 & UnicodeProps::CONTINUATION.0 != 0
}

fn without_continuation(glyph: &hb_glyph_info_t) -> hb_glyph_info_t
    ensures item { item_of result ≡ without_continuation (item_of glyph.now) }
    ensures origin { origin_of result ≡ origin_of glyph.now }
{
    let props = glyph.unicode_props.0;
    hb_glyph_info_t {
        unicode_props: UnicodeProps(props - (props & UnicodeProps::CONTINUATION.0)),
        ..*glyph
    }
}

/// Reverses a text whose direction is against its script's (`ensure_native_direction`): the graphemes are reversed,
/// each in its own order, and so is the direction. At level MonotoneCharacters, each grapheme is merged before.
/// Afterwards no glyph record has the continuation bit. It takes linear time and no memory.
pub fn ensure_native_direction(buffer: &mut hb_buffer_t)
    requires { IsReady buffer.old }
    ensures { IsFollowed (always (native_order buffer.old.script)) buffer.old buffer.new }
{
    order_graphemes(buffer);
    clear_continuations(buffer);
}

#[tactic(auto, using(crate::proofs::Alone::continuations_stay))]
fn clear_continuations(buffer: &mut hb_buffer_t)
    requires { IsReady buffer.old }
    ensures { IsFollowed (always (with_items_mapped without_continuation)) buffer.old buffer.new }
{
    if has_continuation(buffer.info_slice()) {
        clear_each_continuation(buffer);
    }
}

/// A list of this length or more is searched to its end, so that several glyphs are tested at once.
const SEVERAL: usize = 16;

/// Whether one of the characters continues a grapheme.
pub(crate) fn has_continuation(glyphs: &[hb_glyph_info_t]) -> bool
    ensures { result ≡ list_any (λ g. continues (item_of g)) glyphs.now }
{
    if glyphs.len() < SEVERAL {
        return glyphs.iter().any(|glyph| continues_grapheme(glyph));
    }
    let mut any = false;
    for glyph in glyphs {
        any |= continues_grapheme(glyph);
    }
    any
}

fn clear_each_continuation(buffer: &mut hb_buffer_t)
    requires { IsReady buffer.old }
    ensures { IsFollowed (always (with_items_mapped without_continuation)) buffer.old buffer.new }
{
    map_glyphs(buffer, |glyph| without_continuation(glyph));
}

#[tactic(auto, using(crate::proofs::Turned::turned_ordered, crate::proofs::Turned::stays_ordered))]
fn order_graphemes(buffer: &mut hb_buffer_t)
    requires { IsReady buffer.old }
    ensures { IsFollowed (always (in_native_order buffer.old.script)) buffer.old buffer.new }
{
    if is_turned(buffer) {
        turn_graphemes(buffer);
    }
}

#[tactic(auto, using(crate::proofs::Turned::numbers_stay))]
fn is_turned(buffer: &hb_buffer_t) -> bool
    requires { buffer.now.is_open ≡ false }
    ensures { result ≡ is_reversed buffer.now.script buffer.now.direction (items_of buffer.now) }
{
    let text = buffer.direction();
    let written = script_direction(buffer.script());
    // Numbers never reverse a text that its script doesn't, so it needs no search for them.
    if !runs_against(text, written) {
        return false;
    }
    let numbers = is_number_text(buffer.info_slice());
    runs_against(text, with_numbers(numbers, text, written))
}

fn turn_graphemes(buffer: &mut hb_buffer_t)
    requires { IsReady buffer.old }
    ensures { IsFollowed (always reversed_text) buffer.old buffer.new }
{
    let merge = merges_graphemes(buffer.cluster_level());
    let direction = buffer.direction().reverse();
    buffer.reverse_groups(|_before, glyph| continues_grapheme(glyph), merge);
    buffer.set_direction(direction);
}
