//! Rules by glyphs or by classes (OpenType, chapter 2, sequence context and chained sequence context formats 1 and 2). A
//! font can have thousands, most of them short: these need no allocation.
ghost use Rattle.std.specs.Prelude.{◌≡◌, ◌==◌, ◌≤◌, true, IfOk, length};
ghost use Rattle.layout_tables.specs.Covers.{begins_with};
ghost use Rattle.layout_tables.specs.ItemRules.{IsShort, short_rule};

use crate::context::{SequenceLookupRecord, SequenceRule};
use arrayvec::ArrayVec;
use layout_common::digest::hb_set_digest_ext;
use layout_common::digested::Covers;
use std::alloc::{AllocError, Global};
use std::marker::Model;

/// How many items of a backtrack or lookahead sequence a short rule has at most.
pub const CONTEXT_INSIDE: usize = 4;

/// How many items of an input sequence a short rule has at most.
pub const INPUT_INSIDE: usize = 8;

/// How many lookup records a short rule has at most.
pub const RECORDS_INSIDE: usize = 4;

/// A rule whose sequences and lookup records stand in the value itself.
#[derive(Debug, Drop)]
pub struct ShortRule {
    pub backtrack: ArrayVec<u16, CONTEXT_INSIDE>,
    pub input: ArrayVec<u16, INPUT_INSIDE>,
    pub lookahead: ArrayVec<u16, CONTEXT_INSIDE>,
    pub records: ArrayVec<SequenceLookupRecord, RECORDS_INSIDE>,
}

/// Where a rule is kept.
#[derive(Debug, Drop)]
enum Kept {
    Short(ShortRule),
    Long(Box<SequenceRule<u16>>),
}

/// A rule whose items are glyphs or classes. It is a `SequenceRule`, which needs no allocation where it is short.
#[derive(Debug, Drop)]
pub struct ItemRule {
    kept: Kept,
}

impl Model for ItemRule {
    ghost use Rattle.std.specs.Prelude.{ℕ};
    ghost use Rattle.layout_tables.specs.declared.context.SequenceRule.{SequenceRule};
    ghost use Rattle.layout_tables.specs.ItemRules.{kept_rule};

    ghost Value = { SequenceRule ℕ };

    ghost view = { λ r. kept_rule r.kept };
}

/// The sequences of a rule and its lookups, as those of a `SequenceRule`.
#[derive(Clone, Copy, Drop)]
pub struct RuleSequences<'a> {
    pub backtrack: &'a [u16],
    pub input: &'a [u16],
    pub lookahead: &'a [u16],
    pub records: &'a [SequenceLookupRecord],
}

impl ItemRule {
    /// Of a short rule.
    pub fn short(rule: ShortRule) -> ItemRule
        ensures { result ≡ short_rule rule }
    {
        ItemRule {
            kept: Kept::Short(rule),
        }
    }

    /// Of a rule of any length.
    pub fn long(alloc: Global, rule: SequenceRule<u16>) -> Result<ItemRule, AllocError>
        ensures { IfOk result (λ r. r ≡ rule) }
    {
        let rule = Box::new(alloc, rule)?;
        Ok(ItemRule {
            kept: Kept::Long(rule),
        })
    }

    /// Of a rule, as a short one where it is.
    pub fn of(alloc: Global, rule: SequenceRule<u16>) -> Result<ItemRule, AllocError>
        ensures { IfOk result (λ r. r ≡ rule) }
    {
        if is_short(&rule) {
            return Ok(ItemRule::short(shortened(&rule)));
        }
        ItemRule::long(alloc, rule)
    }

    /// The sequences and the lookups, by one test of where they are kept.
    #[inline]
    pub fn sequences(&self) -> RuleSequences<'_>
        ensures backtrack { result.backtrack.now ≡ self.now.backtrack }
        ensures input { result.input.now ≡ self.now.input }
        ensures lookahead { result.lookahead.now ≡ self.now.lookahead }
        ensures records { result.records.now ≡ self.now.records }
    {
        match &self.kept {
            Kept::Short(rule) => RuleSequences {
                backtrack: rule.backtrack.as_slice(),
                input: rule.input.as_slice(),
                lookahead: rule.lookahead.as_slice(),
                records: rule.records.as_slice(),
            },
            Kept::Long(rule) => RuleSequences {
                backtrack: rule.backtrack.as_slice(),
                input: rule.input.as_slice(),
                lookahead: rule.lookahead.as_slice(),
                records: rule.records.as_slice(),
            },
        }
    }

    /// The backtrack sequence, before the input, the nearest item first.
    pub fn backtrack(&self) -> &[u16]
        ensures { result.now ≡ self.now.backtrack }
    {
        self.sequences().backtrack
    }

    /// The input sequence with its first glyph.
    #[inline]
    pub fn input(&self) -> &[u16]
        ensures { result.now ≡ self.now.input }
    {
        match &self.kept {
            Kept::Short(rule) => rule.input.as_slice(),
            Kept::Long(rule) => rule.input.as_slice(),
        }
    }

    /// The lookahead sequence, after the input, the nearest item first.
    pub fn lookahead(&self) -> &[u16]
        ensures { result.now ≡ self.now.lookahead }
    {
        self.sequences().lookahead
    }

    /// The lookups, in the order in which they are applied.
    pub fn records(&self) -> &[SequenceLookupRecord]
        ensures { result.now ≡ self.now.records }
    {
        self.sequences().records
    }
}

/// Whether a rule is short.
fn is_short(rule: &SequenceRule<u16>) -> bool
    ensures { result ≡ true → IsShort rule.now }
{
    rule.backtrack.len() <= CONTEXT_INSIDE
        && rule.input.len() <= INPUT_INSIDE
        && rule.lookahead.len() <= CONTEXT_INSIDE
        && rule.records.len() <= RECORDS_INSIDE
}

/// A short rule as one.
fn shortened(rule: &SequenceRule<u16>) -> ShortRule
    requires { IsShort rule.now }
    ensures { short_rule result ≡ rule.now }
{
    ShortRule {
        backtrack: copied(rule.backtrack.as_slice()),
        input: copied(rule.input.as_slice()),
        lookahead: copied(rule.lookahead.as_slice()),
        records: copied(rule.records.as_slice()),
    }
}

/// Copies of at most `N` items.
fn copied<T: Copy + Default, const N: usize>(items: &[T]) -> ArrayVec<T, N>
    requires { length items.now ≤ N }
    ensures { result.items ≡ items.now }
{
    let mut copies = ArrayVec::new();
    for i in 0..items.len() {
        copies.push(items[i]);
    }
    copies
}

/// By the first item of the input.
impl Covers for ItemRule {
    ghost covers = { λ r g. begins_with (λ first. g == first) r.input };

    fn collect<D: hb_set_digest_ext>(&self, digest: &mut D) {
        match self.input() {
            [first, ..] => first.collect(digest),
            [] => {}
        }
    }
}
