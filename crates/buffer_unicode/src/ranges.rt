//! Ranges of characters that may overlap.
ghost use Rattle.std.specs.Prelude.{◌≡◌, true, max, List, IfOk};
ghost use Rattle.buffer_unicode.specs.Keys.{is_rising};
ghost use Rattle.buffer_unicode.specs.Ranges.{ends_rise, is_in_ranges, widened_ranges};
ghost use Rattle.buffer_unicode.specs.declared.rows.CharacterRange.{CharacterRange};

use crate::rows::CharacterRange;
use buffer_rows::first_from;
use std::alloc::{AllocError, Global};
use std::marker::Model;

/// Ranges of characters in the order of their first characters.
#[derive(Drop)]
pub struct CharacterRanges {
    rows: Vec<CharacterRange>,
    widened: Vec<CharacterRange>,
}

impl Model for CharacterRanges {
    ghost use Rattle.std.specs.Prelude.{List};
    ghost use Rattle.buffer_unicode.specs.Inside.{IsSound};
    ghost use Rattle.buffer_unicode.specs.declared.rows.CharacterRange.{CharacterRange};

    ghost Value = { List CharacterRange };

    ghost view = { λ r. r.rows.items };

    ghost invariant = { IsSound };
}

impl CharacterRanges {
    /// Ranges that are found by binary search, though they may overlap.
    pub fn new(alloc: Global, rows: Vec<CharacterRange>) -> Result<CharacterRanges, AllocError>
        requires { is_rising (λ _. 0) (λ (r : CharacterRange). r.first) rows.items ≡ true }
        ensures { IfOk result (λ r. r ≡ rows.items) }
    {
        let widened = widen(alloc, &rows)?;
        Ok(CharacterRanges { rows, widened })
    }

    /// Whether one of the ranges has a character.
    #[tactic(auto, using(crate::proofs::Widened::widened_has, crate::proofs::Widened::widened_rises, crate::proofs::Widened::widened_ends))]
    pub fn contains(&self, c: char) -> bool
        ensures { result ≡ is_in_ranges self.now c }
    {
        is_in_widened(&self.widened, c)
    }
}

fn widen(alloc: Global, rows: &[CharacterRange]) -> Result<Vec<CharacterRange>, AllocError>
    ensures { IfOk result (λ v. v.items ≡ widened_ranges 0 rows.now) }
{
    let mut wide = Vec::new(alloc);
    let mut reach = '\0';
    for row in rows {
        let last = greater(reach, row.last);
        wide.push(CharacterRange {
            first: row.first,
            last,
        })?;
        reach = last;
    }
    Ok(wide)
}

fn greater(a: char, b: char) -> char
    ensures { result ≡ max a b }
{
    if a < b { b } else { a }
}

/// Whether one of the ranges has a character, where their ends never decrease: of those that begin at the character or
/// before it the last one reaches as far as any.
#[tactic(auto, using(crate::proofs::Searches::numbers_from))]
fn is_in_widened(rows: &[CharacterRange], c: char) -> bool
    requires firsts { is_rising (λ _. 0) (λ (r : CharacterRange). r.first) rows.now ≡ true }
    requires ends { ends_rise 0 rows.now ≡ true }
    ensures { result ≡ is_in_ranges rows.now c }
{
    let after = first_from(rows, c as u32 + 1);
    if after == 0 {
        return false;
    }
    c <= rows[after - 1].last
}
