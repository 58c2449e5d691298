//! An index of subtables by the glyphs that have to stand beside the one at which they act.
ghost use Rattle.std.specs.Prelude.{ℕ, ◌≡◌, ◌==◌, ◌≤◌, ◌<◌, ◌+◌, ◌*◌, ◌/◌, ◌%◌, ◌||◌, ◌&&◌, true, false, IfOk, Option, length, slice_get};
ghost use Rattle.layout_common.specs.Bits.{word_has};
ghost use Rattle.layout_common.specs.Buckets.{has_bucket};
ghost use Rattle.layout_common.specs.LowBits.{has_low_bits};
ghost use Rattle.layout_common.specs.Neighbours.{AreColumns, AreKeptBits, IsClear, IsClearAt, column_of, in_column};

use crate::digest::{has_bucket, hb_set_digest_ext, with_bucket};
use crate::digested::{Covers, Digested};
use crate::glyph_bits::word_at;
use crate::low_bits::LowBits;
use crate::neighbours::{Neighbour, Side};
use std::alloc::{AllocError, Global};

/// How many columns glyphs have: glyph g is in the column `g mod 512`.
const GLYPHS: usize = 512;
/// How many columns there are: the last one is that of no glyph.
const COLUMNS: usize = 513;
/// How many subtables a word has.
const WORD: usize = 64;
/// From how many subtables on that require a glyph on a side there is an index. Fewer are tried one after another as fast.
const FEWEST: usize = 4;
/// How many subtables are indexed at most: a font's table has no more.
const MOST: usize = 65536;

/// Sets a bit of a word.
#[tactic(auto, using(crate::proofs::Words::word_set))]
fn set_bit(words: &mut Vec<u64>, at: usize, bit: u32)
    requires there { at < length words.old.items }
    requires small { bit < 64 }
    ensures size { length words.new.items ≡ length words.old.items }
    ensures bits { (i b : ℕ) → word_has (slice_get words.new.items i) b
        ≡ (word_has (slice_get words.old.items i) b || (i == at && b == bit)) }
{
    words[at] = with_bucket(words[at], bit);
}

/// Sets the bit of a subtable in those of 64 columns whose buckets a set has.
fn add_buckets(words: &mut Vec<u64>, first: usize, bit: u32, buckets: u64)
    requires there { first + 64 ≤ length words.old.items }
    requires small { bit < 64 }
    ensures size { length words.new.items ≡ length words.old.items }
    ensures kept { AreKeptBits words.old.items words.new.items }
    ensures added { (b : ℕ) → b < 64 → has_bucket buckets b ≡ true
        → word_has (slice_get words.new.items (first + b)) bit ≡ true }
{
    for b in 0..64 {
        if !has_bucket(buckets, b) {
            continue;
        }
        set_bit(words, first + b as usize, bit);
    }
}

/// Sets the bit of a subtable in the columns of a set's glyphs.
fn add_glyphs(words: &mut Vec<u64>, start: usize, bit: u32, glyphs: &LowBits)
    requires there { start + 513 ≤ length words.old.items }
    requires small { bit < 64 }
    ensures size { length words.new.items ≡ length words.old.items }
    ensures kept { AreKeptBits words.old.items words.new.items }
    ensures added { (g : ℕ) → has_low_bits glyphs.now.words g ≡ true
        → word_has (slice_get words.new.items (start + g % 512)) bit ≡ true }
{
    for i in 0..16 {
        let buckets = glyphs.word(i);
        if buckets == 0 {
            continue;
        }
        add_buckets(words, start + i % 8 * WORD, bit, buckets);
    }
}

/// Sets the bit of a subtable in each column.
fn add_all(words: &mut Vec<u64>, start: usize, bit: u32)
    requires there { start + 513 ≤ length words.old.items }
    requires small { bit < 64 }
    ensures size { length words.new.items ≡ length words.old.items }
    ensures kept { AreKeptBits words.old.items words.new.items }
    ensures added { (c : ℕ) → c < 513 → word_has (slice_get words.new.items (start + c)) bit ≡ true }
{
    for c in 0..COLUMNS {
        set_bit(words, start + c, bit);
    }
}

/// Sets the bit of the k-th subtable in the columns of what it admits on a side.
fn add_subtable<S: Covers>(words: &mut Vec<u64>, k: usize, item: &S, side: Side)
    requires there { k / 64 * 513 + 513 ≤ length words.old.items }
    ensures size { length words.new.items ≡ length words.old.items }
    ensures kept { AreKeptBits words.old.items words.new.items }
    ensures added { (o : Option ℕ) → S.admits item.now side o ≡ true → in_column words.new.items k (column_of o) ≡ true }
{
    let mut glyphs = LowBits::new();
    let start = k / WORD * COLUMNS;
    let bit = (k % WORD) as u32;
    if item.collect_beside(side, &mut glyphs) {
        add_glyphs(words, start, bit, &glyphs);
        return;
    }
    add_all(words, start, bit);
}

/// How many of some subtables require a glyph on a side.
fn count_requiring<S: Covers>(items: &[Digested<S>], side: Side) -> usize {
    let mut count: usize = 0;
    for item in items {
        let mut glyphs = LowBits::new();
        if item.inner().collect_beside(side, &mut glyphs) {
            count = count.saturating_add(1);
        }
    }
    count
}

/// The words of the index for a side, 513 for each 64 subtables: bit i is set where the i-th of them admits the glyph of
/// the word's column. None where few subtables require a glyph there.
pub(crate) fn columns<S: Covers>(
    alloc: Global,
    items: &[Digested<S>],
    side: Side,
) -> Result<Vec<u64>, AllocError>
    ensures { IfOk result (λ words. AreColumns (λ s. S.admits s side) items.now words.items) }
{
    let mut words = Vec::new(alloc);
    if items.len() < FEWEST || items.len() > MOST || count_requiring(items, side) < FEWEST {
        return Ok(words);
    }
    words.resize(items.len().div_ceil(WORD) * COLUMNS, 0)?;
    for k in 0..items.len() {
        add_subtable(&mut words, k, items[k].inner(), side);
    }
    Ok(words)
}

/// A word of the index, that of a row in a column; one with all bits where there is none.
#[tactic(auto, using(crate::proofs::ColumnBits::never_clear, crate::proofs::ColumnBits::clear_there))]
fn word_or_full(words: &[u64], row: usize, column: usize) -> u64
    requires { column < 513 }
    ensures { (b : ℕ) → b < 64 → has_bucket result b ≡ false → IsClearAt words.now (row * 513 + column) b }
{
    let Some(start) = row.checked_mul(COLUMNS) else {
        return u64::MAX;
    };
    let Some(at) = start.checked_add(column) else {
        return u64::MAX;
    };
    match word_at(words, at) {
        Some(word) => word,
        None => u64::MAX,
    }
}

/// The word of 64 subtables for what is known of a side: bit i is clear where the i-th of them can't act beside it.
#[tactic(auto, using(crate::proofs::ColumnBits::never_clear))]
pub(crate) fn column_word(words: &[u64], row: usize, neighbour: Neighbour) -> u64
    ensures { (b : ℕ) → b < 64 → has_bucket result b ≡ false → IsClear words.now row neighbour b }
{
    match neighbour {
        Neighbour::Unknown => u64::MAX,
        Neighbour::Missing => word_or_full(words, row, GLYPHS),
        Neighbour::Glyph(glyph) => word_or_full(words, row, usize::from(glyph) % GLYPHS),
    }
}
