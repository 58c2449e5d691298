//! Hebrew: presentation forms, and the reordering of marks (rustybuzz: hb/ot_shaper_hebrew.rs).
ghost use Rattle.std.specs.Prelude.{◌≡◌, ◌≤◌, ◌+◌, ◌<◌, ◌==◌, ◌&&◌, find, length};
ghost use Rattle.std.specs.Option.{option_map};
ghost use Rattle.buffer_glyphs.specs.Items.{item_of, strip};
ghost use Rattle.buffer_core.specs.Readings.{always};
ghost use Rattle.buffer_core.specs.Sides.{all_glyphs};
ghost use Rattle.buffer_stages.specs.Ready.{IsReady};
ghost use Rattle.buffer_properties.specs.Characters.{mark_class};
ghost use Rattle.script_hebrew.specs.Hebrew.{begins_with_three, first_three, hebrew_pair, is_meteg_or_below, is_patah_or_qamats, is_sheva_or_hiriq, marks_reordered, presentation_form, with_swapped};
ghost use Rattle.script_hebrew.specs.Neighbours.{IsThreeWithin};
ghost use Rattle.buffer_stages.specs.Stages.{IsFollowed};

use buffer_core::buffer::hb_buffer_t;
use buffer_glyphs::info::hb_glyph_info_t;
use buffer_properties::categories::is_mark;
use buffer_stages::moves::move_back;
use buffer_unicode_tables::UnicodeTables;

/// Letter, point, and the presentation form of both.
const PRESENTATION_FORMS: [(char, char, char); 36] = [
    ('\u{05D9}', '\u{05B4}', '\u{FB1D}'),
    ('\u{05F2}', '\u{05B7}', '\u{FB1F}'),
    ('\u{05D0}', '\u{05B7}', '\u{FB2E}'),
    ('\u{05D0}', '\u{05B8}', '\u{FB2F}'),
    ('\u{05D5}', '\u{05B9}', '\u{FB4B}'),
    ('\u{05D0}', '\u{05BC}', '\u{FB30}'),
    ('\u{05D1}', '\u{05BC}', '\u{FB31}'),
    ('\u{05D2}', '\u{05BC}', '\u{FB32}'),
    ('\u{05D3}', '\u{05BC}', '\u{FB33}'),
    ('\u{05D4}', '\u{05BC}', '\u{FB34}'),
    ('\u{05D5}', '\u{05BC}', '\u{FB35}'),
    ('\u{05D6}', '\u{05BC}', '\u{FB36}'),
    ('\u{05D8}', '\u{05BC}', '\u{FB38}'),
    ('\u{05D9}', '\u{05BC}', '\u{FB39}'),
    ('\u{05DA}', '\u{05BC}', '\u{FB3A}'),
    ('\u{05DB}', '\u{05BC}', '\u{FB3B}'),
    ('\u{05DC}', '\u{05BC}', '\u{FB3C}'),
    ('\u{05DE}', '\u{05BC}', '\u{FB3E}'),
    ('\u{05E0}', '\u{05BC}', '\u{FB40}'),
    ('\u{05E1}', '\u{05BC}', '\u{FB41}'),
    ('\u{05E3}', '\u{05BC}', '\u{FB43}'),
    ('\u{05E4}', '\u{05BC}', '\u{FB44}'),
    ('\u{05E6}', '\u{05BC}', '\u{FB46}'),
    ('\u{05E7}', '\u{05BC}', '\u{FB47}'),
    ('\u{05E8}', '\u{05BC}', '\u{FB48}'),
    ('\u{05E9}', '\u{05BC}', '\u{FB49}'),
    ('\u{05EA}', '\u{05BC}', '\u{FB4A}'),
    ('\u{FB2A}', '\u{05BC}', '\u{FB2C}'),
    ('\u{FB2B}', '\u{05BC}', '\u{FB2D}'),
    ('\u{05D1}', '\u{05BF}', '\u{FB4C}'),
    ('\u{05DB}', '\u{05BF}', '\u{FB4D}'),
    ('\u{05E4}', '\u{05BF}', '\u{FB4E}'),
    ('\u{05E9}', '\u{05C1}', '\u{FB2A}'),
    ('\u{FB49}', '\u{05C1}', '\u{FB2C}'),
    ('\u{05E9}', '\u{05C2}', '\u{FB2B}'),
    ('\u{FB49}', '\u{05C2}', '\u{FB2D}'),
];

/// The composition of two characters (`compose`): as in Unicode, else a presentation form where the font has no GPOS
/// mark positioning.
pub fn compose(tables: &UnicodeTables, has_gpos_mark: bool, a: char, b: char) -> Option<char>
    ensures { result ≡ hebrew_pair tables.now has_gpos_mark a b }
{
    if let Some(whole) = buffer_unicode_tables::compose(tables, a, b) {
        return Some(whole);
    }
    if has_gpos_mark {
        return None;
    }
    presentation_form(a, b)
}

fn presentation_form(a: char, b: char) -> Option<char>
    ensures { result ≡ presentation_form a b }
{
    form_in(&PRESENTATION_FORMS, a, b)
}

fn form_in(forms: &[(char, char, char)], a: char, b: char) -> Option<char>
    ensures { result ≡ option_map (λ row. row.2) (find (λ row. row.0 == a && row.1 == b) forms.now) }
{
    let form = forms.iter().find(|form| form.0 == a && form.1 == b)?;
    Some(form.2)
}

/// Among the marks `start..end`, finds the first three neighbours that are patah or qamats, sheva or hiriq, and meteg
/// or another mark below; swaps the last two of them, and merges them (`reorder_marks`). It takes linear time and no
/// memory.
#[tactic(auto, using(crate::proofs::Swapped::part_seen, crate::proofs::Swapped::within_run))]
pub fn reorder_marks(buffer: &mut hb_buffer_t, start: usize, end: usize)
    requires ready { IsReady buffer.old }
    requires ordered { start ≤ end }
    requires within { end ≤ length (all_glyphs buffer.old) }
    ensures { IsFollowed (always (marks_reordered start end)) buffer.old buffer.new }
{
    let three = first_three(&buffer.info_slice()[start..end]);
    swap(buffer, start, three, end);
}

#[tactic(auto, using(crate::proofs::Swapped::swap_followed, crate::proofs::Swapped::none_swapped))]
fn swap(buffer: &mut hb_buffer_t, start: usize, three: Option<usize>, end: usize)
    requires ready { IsReady buffer.old }
    requires within { IsThreeWithin start three end }
    requires there { end ≤ length (all_glyphs buffer.old) }
    ensures { IsFollowed (always (with_swapped start three)) buffer.old buffer.new }
{
    if let Some(n) = three {
        let at = start + (n + 1);
        move_back(buffer, at, at + 1, at + 2);
    }
}

/// The index of the first three such neighbours.
#[tactic(auto, using(crate::proofs::Swapped::none_met, crate::proofs::Swapped::next_met, crate::proofs::Swapped::met_three, crate::proofs::Swapped::met_none))]
fn first_three(run: &[hb_glyph_info_t]) -> Option<usize>
    ensures index { result ≡ first_three (strip run.now) }
    ensures inside { IsThreeWithin 0 result (length run.now) }
{
    for at in 0..run.len() {
        if begins_with_three(&run[at..]) {
            return Some(at);
        }
    }
    None
}

fn begins_with_three(run: &[hb_glyph_info_t]) -> bool
    ensures { result ≡ begins_with_three (strip run.now) }
{
    match run {
        [first, second, third, ..] => {
            is_patah_or_qamats(first) && is_sheva_or_hiriq(second) && is_meteg_or_below(third)
        }
        _ => false,
    }
}

fn is_patah_or_qamats(glyph: &hb_glyph_info_t) -> bool
    ensures { result ≡ is_patah_or_qamats (item_of glyph.now) }
{
    matches!(mark_class(glyph), 20 | 21)
}

fn is_sheva_or_hiriq(glyph: &hb_glyph_info_t) -> bool
    ensures { result ≡ is_sheva_or_hiriq (item_of glyph.now) }
{
    matches!(mark_class(glyph), 22 | 23)
}

fn is_meteg_or_below(glyph: &hb_glyph_info_t) -> bool
    ensures { result ≡ is_meteg_or_below (item_of glyph.now) }
{
    matches!(mark_class(glyph), 25 | 220)
}

fn mark_class(glyph: &hb_glyph_info_t) -> u8
    ensures { result ≡ mark_class (item_of glyph.now) }
{
    if is_mark(glyph) {
        glyph.modified_combining_class
    } else {
        0
    }
}
