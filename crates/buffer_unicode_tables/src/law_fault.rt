//! The check that tables are lawful.
ghost use Rattle.std.specs.Prelude.{ℕ, ◌≡◌, ◌+◌, ◌<◌, ◌≤◌, ◌↔◌, true, false, length, is_none, IsTrue, IsNone, IfSome, MatchBool};
ghost use Rattle.std.specs.List.{list_all};
ghost use Rattle.buffer_unicode.specs.declared.rows.CharacterClass.{CharacterClass};
ghost use Rattle.buffer_unicode.specs.declared.rows.Pair.{Pair};
ghost use Rattle.buffer_unicode.specs.declared.rows.Split.{Split};
ghost use Rattle.buffer_unicode_tables.specs.ClassOrder.{beside_starters};
ghost use Rattle.buffer_unicode_tables.specs.Lawful.{AsciiHasNoMarks};
ghost use Rattle.buffer_unicode_tables.specs.Ranges.{AllAmong, SomeAmong};
ghost use Rattle.buffer_unicode_tables.specs.Tables.{class_of, pair_of, splits_of};
ghost use Rattle.buffer_unicode_tables.specs.Tests.{class_is_of_mark, same_text, second_half_stays};

use crate::depth::split;
use crate::expansion::{EXPANSIONS, expand};
use crate::hangul::{T_BASE, T_COUNT, V_BASE, V_COUNT, below_surrogates};
use crate::tables::{UnicodeTables, compose, decompose};
use arrayvec::ArrayVec;
use buffer_rows::PagedRows;
use buffer_unicode::{CharExt, CharacterClass, GeneralCategoryExt, Split};
use thiserror::Error;

/// The faults of unlawful tables, in the order in which they are found.
#[derive(Clone, Copy, PartialEq, Eq, Debug, Error)]
pub enum LawFault {
    /// The second half of a decomposition decomposes itself.
    #[error("SecondPartSplits")]
    SecondPartSplits,
    /// The full expansion of a composite has another class order than that of its pair.
    #[error("PairNotEquivalent")]
    PairNotEquivalent,
    /// A character that is no combining mark has a nonzero class.
    #[error("ClassOnNonMark")]
    ClassOnNonMark,
    /// A half of a character of nonzero class has another class.
    #[error("SplitLosesClass")]
    SplitLosesClass,
    /// A character below U+0080 is a combining mark.
    #[error("AsciiMark")]
    AsciiMark,
}

impl UnicodeTables {
    ghost use Rattle.buffer_unicode_tables.specs.Lawful.{IsLawful, IsFirstFault, SecondHalvesStay, PairsAreEquivalent, ClassesAreOfMarks, SplitsKeepClass};
    ghost use Rattle.buffer_unicode_tables.specs.Tests.{whole_is_equivalent, has_same_classes, same_beside_starters, keeps_class};

    /// The first fault, `None` exactly where the tables are lawful: then equivalent texts, fully expanded, have
    /// one class order (`equivalents_have_one_order`). It takes no memory.
    pub fn law_fault(&self) -> Option<LawFault>
        ensures lawful { IsNone result ↔ IsLawful self.now }
        ensures first { IfSome result (IsFirstFault self.now) }
    {
        if !self.second_pieces_stay() {
            return Some(LawFault::SecondPartSplits);
        }
        if !self.pairs_are_equivalent() {
            return Some(LawFault::PairNotEquivalent);
        }
        if !self.classes_are_of_marks() {
            return Some(LawFault::ClassOnNonMark);
        }
        if !self.splits_keep_class() {
            return Some(LawFault::SplitLosesClass);
        }
        if !ascii_has_no_marks() {
            return Some(LawFault::AsciiMark);
        }
        None
    }

    fn second_pieces_stay(&self) -> bool
        ensures { IsTrue result ↔ SecondHalvesStay self.now }
    {
        let splits = self.splits();
        if !rows_stay(splits) {
            return false;
        }
        if !stay_whole(splits, V_BASE, V_COUNT) {
            return false;
        }
        stay_whole(splits, T_BASE + 1, T_COUNT - 1)
    }

    fn pairs_are_equivalent(&self) -> bool
        ensures { SecondHalvesStay self.now → (IsTrue result ↔ PairsAreEquivalent self.now) }
    {
        // The tables' invariant says that chains of first halves end.
        let _splits = self.splits();
        self.all_pairs_pass()
    }

    fn all_pairs_pass(&self) -> bool
        ensures { result ≡ list_all
            (λ (p : Pair). whole_is_equivalent self.now p.first p.second
            (pair_of self.now p.first p.second)) self.now.pairs }
    {
        self.pairs()
            .iter()
            .all(|row| self.pair_is_equivalent(row.first, row.second))
    }

    fn pair_is_equivalent(&self, a: char, b: char) -> bool
        ensures { result ≡ whole_is_equivalent self.now a b (pair_of self.now a b) }
    {
        let Some(u) = compose(self, a, b) else {
            return true;
        };
        let mut whole = ArrayVec::new();
        expand(self.splits(), u, &mut whole);
        let mut pieces = ArrayVec::new();
        expand(self.splits(), a, &mut pieces);
        expand(self.splits(), b, &mut pieces);
        self.has_same_classes(&whole, &pieces)
    }

    #[tactic(auto, using(crate::proofs::Decisions::same_texts_agree))]
    fn has_same_classes(&self, xs: &[char], ys: &[char]) -> bool
        requires first { length xs.now ≤ 18 }
        requires second { length ys.now ≤ 18 }
        ensures { result ≡ has_same_classes (class_of self.now) xs.now ys.now }
    {
        if same_text(xs, ys) {
            return true;
        }
        self.same_beside_starters(xs, ys, 0)
            && self.same_for_classes(xs, xs, ys)
            && self.same_for_classes(ys, xs, ys)
    }

    /// Whether the two texts agree in each class that occurs in a third.
    fn same_for_classes(&self, zs: &[char], xs: &[char], ys: &[char]) -> bool
        requires first { length xs.now ≤ 18 }
        requires second { length ys.now ≤ 18 }
        ensures { result ≡ list_all
            (λ z. same_beside_starters (class_of self.now) xs.now ys.now (class_of self.now z)) zs.now }
    {
        zs.iter()
            .all(|z| self.same_beside_starters(xs, ys, self.class(*z)))
    }

    fn same_beside_starters(&self, xs: &[char], ys: &[char], class: u8) -> bool
        requires first { length xs.now ≤ 18 }
        requires second { length ys.now ≤ 18 }
        ensures { result ≡ same_beside_starters (class_of self.now) xs.now ys.now class }
    {
        same_text(
            &self.beside_starters(xs, class),
            &self.beside_starters(ys, class),
        )
    }

    fn beside_starters(&self, xs: &[char], class: u8) -> ArrayVec<char, EXPANSIONS>
        requires { length xs.now ≤ 18 }
        ensures { result.items ≡ beside_starters (class_of self.now) class xs.now }
    {
        let mut kept = ArrayVec::new();
        for x in xs {
            let own = self.class(*x);
            if own == 0 || own == class {
                kept.push(*x);
            }
        }
        kept
    }

    fn classes_are_of_marks(&self) -> bool
        ensures { IsTrue result ↔ ClassesAreOfMarks self.now }
    {
        marks_pass(self.classes())
    }

    fn splits_keep_class(&self) -> bool
        ensures { IsTrue result ↔ SplitsKeepClass self.now }
    {
        self.all_classes_pass()
    }

    fn all_classes_pass(&self) -> bool
        ensures { result ≡ list_all (λ (r : CharacterClass). keeps_class self.now r.character) self.now.classes }
    {
        self.classes()
            .iter()
            .all(|row| self.keeps_class(row.character))
    }

    fn keeps_class(&self, u: char) -> bool
        ensures { result ≡ keeps_class self.now u }
    {
        let class = self.class(u);
        if class == 0 {
            return true;
        }
        match decompose(self, u) {
            None => true,
            Some((a, b)) => self.class(a) == class && (b == '\0' || self.class(b) == class),
        }
    }
}

/// Whether each character of nonzero class is a combining mark.
fn marks_pass(classes: &[CharacterClass]) -> bool
    ensures { result ≡ list_all class_is_of_mark classes.now }
{
    classes.iter().all(|row| row.class == 0 || row.character.general_category().is_mark())
}

/// Whether no second half of a row's decomposition decomposes itself.
fn rows_stay(splits: &PagedRows<Split>) -> bool
    ensures { result ≡ list_all
        (λ (r : Split). second_half_stays (splits_of splits.now) (splits_of splits.now r.whole)) splits.now }
{
    splits
        .as_slice()
        .iter()
        .all(|row| second_stays(splits, row.whole))
}

/// Whether the second half of a character's decomposition, if it has one, doesn't decompose.
fn second_stays(splits: &PagedRows<Split>, u: char) -> bool
    ensures { result ≡ second_half_stays (splits_of splits.now) (splits_of splits.now u) }
{
    match split(splits, u) {
        None => true,
        Some((_, second)) => second == '\0' || split(splits, second).is_none(),
    }
}

/// Whether none of the code points of a range decomposes.
fn stay_whole(splits: &PagedRows<Split>, base: u32, count: u32) -> bool
    requires { base + count ≤ 0xD800 }
    ensures { MatchBool result (AllAmong base count (λ c. is_none (splits_of splits.now c)))
        (SomeAmong base count (λ c. is_none (splits_of splits.now c) ≡ false)) }
{
    for code in base..base + count {
        if split(splits, below_surrogates(code)).is_some() {
            return false;
        }
    }
    true
}

fn same_text(xs: &[char], ys: &[char]) -> bool
    ensures { result ≡ same_text xs.now ys.now }
{
    xs == ys
}

fn ascii_has_no_marks() -> bool
    ensures { IsTrue result ↔ AsciiHasNoMarks }
{
    for code in 0..0x80u8 {
        if (code as char).general_category().is_mark() {
            return false;
        }
    }
    true
}
