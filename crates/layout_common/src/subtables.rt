//! The subtables of a lookup, with an index by glyph; rustybuzz has none.
ghost use Rattle.std.specs.Prelude.{ℕ, ◌≡◌, ◌<◌, ◌≤◌, ◌/◌, ◌%◌, ◌*◌, ◌+◌, ◌≢◌, ◌&&◌, true, false, IfOk, IfSome, length, Some, slice_get};
ghost use Rattle.std.specs.Option.{option_copied};
ghost use Rattle.layout_common.specs.Buckets.{has_bucket};
ghost use Rattle.layout_common.specs.Neighbours.{IsClearAt};
ghost use Rattle.layout_common.specs.Subtables.{HasBits, AreIndexed};

use crate::array::Array;
use crate::columns::{column_word, columns};
use crate::digest::{has_bucket, hb_set_digest_ext, with_bucket};
use crate::digested::{Covers, Digested};
use crate::neighbours::{Neighbour, Side};
use std::alloc::{AllocError, Global};
use std::marker::Model;

/// How many buckets of glyphs there are: glyph g is in the bucket `g mod 1024`.
const BUCKETS: usize = 1024;
/// How many subtables a word has.
const WORD: usize = 64;
/// From how many subtables on there is an index. Fewer are asked one after another as fast.
const FEWEST: usize = 8;
/// How many subtables are indexed at most: a font's table has no more.
const MOST: usize = 65536;

/// The subtables of a lookup in the order in which they are tried. Where there are many, an index by the low bits of a
/// glyph's number has those that may act at it, so that the others aren't tried. The index only saves time: contracts
/// see the list of subtables.
#[derive(Debug, Drop)]
pub struct Subtables<S: Covers> {
    items: Array<Digested<S>>,
    /// For each 64 subtables a word for each bucket: bit i is set where the i-th of them may act at a glyph of it. No
    /// words where there are few subtables.
    words: Vec<u64>,
    /// The index by the glyph before, and by the one after (`columns`).
    before: Vec<u64>,
    after: Vec<u64>,
}

impl<S: Covers> Model for Subtables<S> {
    ghost use Rattle.std.specs.Prelude.{List};
    ghost use Rattle.layout_common.specs.Neighbours.{AreColumns};
    ghost use Rattle.layout_common.specs.Subtables.{AreIndexed};
    ghost use Rattle.layout_common.specs.declared.neighbours.Side.TheVariants.{Before, After};

    ghost Value = { List S };

    ghost view = { λ s. s.items };

    ghost invariant = { λ s. AreIndexed S.covers s.items s.words.items
        × AreColumns (λ x. S.admits x Before) s.items s.before.items
        × AreColumns (λ x. S.admits x After) s.items s.after.items };
}

impl<S: Covers + Drop> Subtables<S> {
    /// Subtables in the order in which they are tried. The index takes 8192 bytes for each 64 of them.
    pub fn new(alloc: Global, items: Array<Digested<S>>) -> Result<Subtables<S>, AllocError>
        ensures { IfOk result (λ s. s ≡ items) }
    {
        let words = index(alloc, items.as_slice())?;
        let before = columns(alloc, items.as_slice(), Side::Before)?;
        let after = columns(alloc, items.as_slice(), Side::After)?;
        Ok(Subtables {
            items,
            words,
            before,
            after,
        })
    }
}

impl<S: Covers> Subtables<S> {
    /// The subtables themselves.
    pub fn as_slice(&self) -> &[Digested<S>]
        ensures { result.now ≡ self.now }
    {
        self.items.as_slice()
    }

    /// The subtable at an index, none past the last one.
    pub fn get(&self, index: usize) -> Option<&Digested<S>>
        ensures { option_copied result ≡ slice_get self.now index }
    {
        self.items.get(index)
    }

    /// The index of a subtable, from one on, that may act at a glyph: those before it can't. Past the last one where
    /// none can.
    pub fn next_at(&self, glyph: u16, from: usize) -> usize
        ensures on { from ≤ result }
        ensures skipped { (k : ℕ) (s : S) → from ≤ k → k < result → slice_get self.now k ≡ Some s
            → S.covers s glyph ≡ false }
    {
        let bucket = usize::from(glyph) % BUCKETS;
        let mut at = from;
        while at < self.items.len() {
            let Some(word) = word_of(&self.words, at / WORD, bucket) else {
                return at;
            };
            let bit = next_bit(word, (at % WORD) as u32);
            let next = (at / WORD * WORD).saturating_add(bit as usize);
            if bit < 64 {
                return next;
            }
            at = next;
        }
        at
    }
}

impl<S: Covers> Subtables<S> {
    ghost use Rattle.layout_common.specs.Neighbours.{may_stand};
    ghost use Rattle.layout_common.specs.declared.neighbours.Side.TheVariants.{Before, After};

    /// Whether it has an index by the glyph on a side, so that `next_between` leaves out more where that is known.
    pub fn has_columns(&self, side: Side) -> bool {
        match side {
            Side::Before => !self.before.is_empty(),
            Side::After => !self.after.is_empty(),
        }
    }

    /// The word of 64 subtables for a glyph between two others: bit i is clear where the i-th of them can't act there.
    fn word_between(&self, row: usize, glyph: u16, before: Neighbour, after: Neighbour) -> u64
        ensures { (k : ℕ) (s : S) → k / 64 ≡ row → slice_get self.now k ≡ Some s → has_bucket result (k % 64) ≡ false
            → (S.covers s glyph && may_stand (S.admits s Before) before && may_stand (S.admits s After) after) ≡ false }
    {
        let own = word_or_full(&self.words, row, usize::from(glyph) % BUCKETS);
        own & column_word(&self.before, row, before) & column_word(&self.after, row, after)
    }

    /// The index of a subtable, from one on, that may act at a glyph between two others: those before it can't. Past the
    /// last one where none can.
    pub fn next_between(
        &self,
        glyph: u16,
        before: Neighbour,
        after: Neighbour,
        from: usize,
    ) -> usize
        ensures on { from ≤ result }
        ensures skipped { (k : ℕ) (s : S) → from ≤ k → k < result → slice_get self.now k ≡ Some s
            → (S.covers s glyph && may_stand (S.admits s Before) before && may_stand (S.admits s After) after) ≡ false }
    {
        let mut at = from;
        while at < self.items.len() {
            let word = self.word_between(at / WORD, glyph, before, after);
            let bit = next_bit(word, (at % WORD) as u32);
            let next = (at / WORD * WORD).saturating_add(bit as usize);
            if bit < 64 {
                return next;
            }
            at = next;
        }
        at
    }
}

/// As `word_of`, with all bits where there is no index.
#[tactic(auto, using(crate::proofs::ColumnBits::never_clear))]
fn word_or_full(words: &[u64], row: usize, bucket: usize) -> u64
    requires { bucket < 1024 }
    ensures { (b : ℕ) → b < 64 → has_bucket result b ≡ false → IsClearAt words.now (row * 1024 + bucket) b }
{
    match word_of(words, row, bucket) {
        Some(word) => word,
        None => u64::MAX,
    }
}

/// The word of 64 subtables for a bucket, none where there is no index.
fn word_of(words: &[u64], row: usize, bucket: usize) -> Option<u64>
    requires { bucket < 1024 }
    ensures { IfSome result (λ w. slice_get words.now (row * 1024 + bucket) ≡ Some w) }
{
    let start = row.checked_mul(BUCKETS)?;
    words.get(start.checked_add(bucket)?).copied()
}

/// The next bit of a word that is set, from one on; 64 where none is.
fn next_bit(word: u64, from: u32) -> u32
    requires { from < 64 }
    ensures on { from ≤ result }
    ensures within { result ≤ 64 }
    ensures none { (b : ℕ) → from ≤ b → b < result → has_bucket word b ≡ false }
{
    (from + (word >> from).trailing_zeros()).min(64)
}

/// The words of the index, none where there are few subtables.
fn index<S: Covers>(alloc: Global, items: &[Digested<S>]) -> Result<Vec<u64>, AllocError>
    ensures { IfOk result (λ words. AreIndexed S.covers items.now words.items) }
{
    if items.len() < FEWEST || items.len() > MOST {
        return Ok(Vec::new(alloc));
    }
    let count = items.len().div_ceil(WORD) * BUCKETS;
    let mut words = Vec::with_capacity(alloc, count)?;
    for at in 0..count {
        words.push(word_at(items, at / BUCKETS, (at % BUCKETS) as u16))?;
    }
    Ok(words)
}

/// The word of 64 subtables for a bucket: the bits of those that may act at a glyph of it.
fn word_at<S: Covers>(items: &[Digested<S>], row: usize, bucket: u16) -> u64
    requires { row < 1024 }
    ensures { HasBits S.covers items.now row bucket result }
{
    let mut word = 0;
    for bit in 0..64 {
        if may_act(items, row * WORD + bit as usize, bucket) {
            word = with_bucket(word, bit);
        }
    }
    word
}

/// Whether a subtable, if there is one, may act at a glyph of a bucket.
fn may_act<S: Covers>(items: &[Digested<S>], k: usize, bucket: u16) -> bool
    ensures { result ≡ false → (s : S) (g : ℕ) → slice_get items.now k ≡ Some s → S.covers s g ≡ true
        → g % 1024 ≢ bucket }
{
    match items.get(k) {
        Some(item) => item.low_bits().may_have_glyph(bucket),
        None => false,
    }
}
