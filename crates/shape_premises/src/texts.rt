//! Tests of a text: whether a shaper that decomposes as far as it can sees the whole of the text's canonical decomposition.
ghost use Rattle.std.specs.Prelude.{◌≡◌, ◌↔◌, ◌≤◌, IsTrue, Some, chars, fold};
ghost use Rattle.std.specs.List.{list_all, list_any};
ghost use Rattle.buffer_unicode.specs.Character.{is_variation_selector_character};
ghost use Rattle.buffer_unicode_tables.specs.Expansion.{expansion_by_splits};
ghost use Rattle.buffer_unicode_tables.specs.Tables.{class_of, split_of};
ghost use Rattle.buffer_unicode_tables.specs.Texts.{full_text};
ghost use Rattle.buffer_properties.specs.Premises.{HasShortRuns};
ghost use Rattle.buffer_properties.specs.Properties.{is_mark_character};
ghost use Rattle.shape_premises.specs.Texts.{IsRegularText, starts_with_mark, has_mark_after_first, has_whole, is_in_font, run_after, run_grown, run_with_whole};

use buffer_unicode::{CharExt, GeneralCategoryExt};
use buffer_unicode_tables::{CharTablesExt, UnicodeTables, decompose};
use layout_face::Face;

/// How many decompositions a chain of first halves may have.
pub(crate) const MAX_SPLITS: u32 = 8;

/// How many combining marks of a run are sorted.
const MAX_COMBINING_MARKS: usize = 32;

/// Whether a text is one of those that shape alike where they are canonically equivalent: its first character is no combining
/// mark and a later one is, none is a variation selector, and of its full canonical decomposition (UAX 15, D68) the font has
/// each character and no run of characters of nonzero class is longer than is sorted.
pub fn is_regular(face: &Face, tables: &UnicodeTables, text: &str) -> bool
    ensures { IsTrue result ↔ IsRegularText face.now tables.now (chars text.now) }
{
    if starts_with_mark(text) || !has_mark_after_first(text) {
        return false;
    }
    if has_selector(text) || !has_short_runs(tables, text) {
        return false;
    }
    has_full_expansion(face, tables, text)
}

/// Whether the font has each character of a text's full canonical decomposition.
#[tactic(auto, using(crate::proofs::Runs::all_of_text))]
pub fn has_full_expansion(face: &Face, tables: &UnicodeTables, text: &str) -> bool
    ensures { result ≡ list_all (is_in_font face.now) (full_text tables.now (chars text.now)) }
{
    has_each_whole(face, tables, text)
}

/// Whether a text's full canonical decomposition has no run of more characters of nonzero class than normalising sorts,
/// which is 32.
#[tactic(auto, using(crate::proofs::Runs::some_is_short))]
pub fn has_short_runs(tables: &UnicodeTables, text: &str) -> bool
    ensures { IsTrue result ↔ HasShortRuns (class_of tables.now) 0 (full_text tables.now (chars text.now)) }
{
    run_of_text(tables, text).is_some()
}

fn has_each_whole(face: &Face, tables: &UnicodeTables, text: &str) -> bool
    ensures { result ≡ list_all (has_whole face.now tables.now) (chars text.now) }
{
    text.chars().all(|u| has_whole(face, tables, u))
}

#[tactic(auto, unfolding(crate::specs::Texts::has_whole))]
fn has_whole(face: &Face, tables: &UnicodeTables, u: char) -> bool
    ensures { result ≡ has_whole face.now tables.now u }
{
    has_expansion(face, tables, MAX_SPLITS, u)
}

/// How many characters of nonzero class the decomposition of a text ends with; `None` where it has a run of more such
/// characters than normalising sorts, which is 32.
fn run_of_text(tables: &UnicodeTables, text: &str) -> Option<usize>
    ensures { result ≡ fold (run_with_whole tables.now) (Some 0) (chars text.now) }
{
    text.chars()
        .fold(Some(0), |met, u| run_with_whole(tables, met, u))
}

#[tactic(auto, unfolding(crate::specs::Texts::run_with_whole))]
fn run_with_whole(tables: &UnicodeTables, met: Option<usize>, u: char) -> Option<usize>
    ensures { result ≡ run_with_whole tables.now met u }
{
    run_of(tables, MAX_SPLITS, u, met?)
}

/// How many characters of nonzero class there are at the end, after `met` of them and then the decomposition of a character.
#[tactic(auto, using(crate::proofs::Runs::run_at_zero, crate::proofs::Runs::run_unsplit, crate::proofs::Runs::run_first, crate::proofs::Runs::run_both, crate::proofs::Runs::run_long))]
fn run_of(tables: &UnicodeTables, depth: u32, u: char, met: usize) -> Option<usize>
    ensures { result ≡ run_after (class_of tables.now) (Some met)
        (expansion_by_splits (split_of tables.now) depth u) }
{
    if depth == 0 {
        return run_with(tables, u, met);
    }
    let Some((first, second)) = decompose(tables, u) else {
        return run_with(tables, u, met);
    };
    let met = run_of(tables, depth - 1, first, met)?;
    if second == '\0' {
        return Some(met);
    }
    run_with(tables, second, met)
}

/// How many characters of nonzero class there are at the end, after `met` of them and then one character.
fn run_with(tables: &UnicodeTables, u: char, met: usize) -> Option<usize>
    ensures { result ≡ run_grown (class_of tables.now u) met }
{
    if u.modified_combining_class(tables) == 0 {
        return Some(0);
    }
    if met < MAX_COMBINING_MARKS {
        Some(met + 1)
    } else {
        None
    }
}

#[tactic(auto, using(crate::proofs::Runs::all_at_zero, crate::proofs::Runs::all_unsplit, crate::proofs::Runs::all_first, crate::proofs::Runs::all_second, crate::proofs::Runs::all_lacking))]
fn has_expansion(face: &Face, tables: &UnicodeTables, depth: u32, u: char) -> bool
    ensures { result ≡ list_all (is_in_font face.now) (expansion_by_splits (split_of tables.now) depth u) }
{
    if depth == 0 {
        return has_character(face, u);
    }
    let Some((first, second)) = decompose(tables, u) else {
        return has_character(face, u);
    };
    if !has_expansion(face, tables, depth - 1, first) {
        return false;
    }
    second == '\0' || has_character(face, second)
}

fn has_character(face: &Face, u: char) -> bool
    ensures { result ≡ is_in_font face.now u }
{
    face.has_glyph(u)
}

fn starts_with_mark(text: &str) -> bool
    ensures { result ≡ starts_with_mark (chars text.now) }
{
    match text.chars().next() {
        Some(u) => is_mark(u),
        None => false,
    }
}

fn has_mark_after_first(text: &str) -> bool
    ensures { result ≡ has_mark_after_first (chars text.now) }
{
    text.chars().skip(1).any(is_mark)
}

fn has_selector(text: &str) -> bool
    ensures { result ≡ list_any is_variation_selector_character (chars text.now) }
{
    text.chars().any(|u| u.is_variation_selector())
}

fn is_mark(u: char) -> bool
    ensures { result ≡ is_mark_character u }
{
    u.general_category().is_mark()
}
