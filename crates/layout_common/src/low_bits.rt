//! Sets of glyphs by the low bits of their numbers; rustybuzz has none.
ghost use Rattle.std.specs.Prelude.{ℕ, List, [], ◌∷◌, ◌++◌, ◌≡◌, ◌==◌, ◌||◌, ◌%◌, ◌*◌, ◌+◌, ◌-◌, ◌≤◌, ◌<◌, ◌↔◌, true, false, set};
ghost use Rattle.layout_common.specs.Buckets.{has_bucket, numbers_from};
ghost use Rattle.layout_common.specs.Coverage.{is_covered};
ghost use Rattle.layout_common.specs.LowBits.{IsLowBitsOf, has_low_bits, shares_low_bits};

use crate::digest::{has_bucket, hb_set_digest_ext, with_bucket};

/// How many buckets a word has.
const WORD: u16 = 64;
/// How many words there are.
const WORDS: usize = 16;
/// How many buckets there are.
const BUCKETS: u16 = 1024;

/// A set of glyphs by 1024 buckets: glyph g is in the bucket `g mod 1024`. Among 1024 neighbouring numbers it is exact,
/// and it takes one test.
#[derive(Clone, Copy, Debug, Drop)]
pub struct LowBits {
    words: [u64; WORDS],
}

/// Sets a word where it is another one: a text has few glyphs many times, so most words stay, and aren't written.
#[tactic(auto, using(crate::proofs::LowBits::word_stays))]
fn put_word(words: &mut [u64; WORDS], index: usize, word: u64)
    requires { index < 16 }
    ensures { words.new ≡ set words.old index word }
{
    if words[index] != word {
        words[index] = word;
    }
}

/// Whether each bit of some words is set.
fn are_full(words: &[u64; WORDS]) -> bool
    ensures { result ≡ true ↔ ((g : ℕ) → has_low_bits words.now g ≡ true) }
{
    for i in 0..WORDS {
        if words[i] != u64::MAX {
            return false;
        }
    }
    true
}

impl LowBits {
    /// The word of 64 buckets at an index.
    pub(crate) fn word(&self, index: usize) -> u64
        requires { index < 16 }
        ensures { (b : ℕ) → b < 64 → has_bucket result b ≡ has_low_bits self.now.words (index * 64 + b) }
    {
        self.words[index]
    }
}

impl hb_set_digest_ext for LowBits {
    ghost may_contain = { λ s g. has_low_bits s.words g };

    ghost IsDigestOf = { λ s glyphs. IsLowBitsOf s.words glyphs };

    ghost shares_buckets = { shares_low_bits };

    ghost exact = { λ s glyphs g is. is g };

    fn new() -> Self {
        Self { words: [0; WORDS] }
    }

    fn full() -> Self {
        Self {
            words: [u64::MAX; WORDS],
        }
    }

    fn add(&mut self, glyph: u16)
        ensures added { has_low_bits self.new.words glyph ≡ true }
        ensures stays { (g : ℕ) → has_low_bits self.old.words g ≡ true → has_low_bits self.new.words g ≡ true }
        ensures exact { (glyphs : List ℕ) → IsLowBitsOf self.old.words glyphs
            → IsLowBitsOf self.new.words (glyphs ++ glyph ∷ []) }
        ensures buckets { (g : ℕ) → has_low_bits self.new.words g
            ≡ (has_low_bits self.old.words g || glyph % 1024 == g % 1024) }
    {
        let low = glyph % BUCKETS;
        let index = usize::from(low / WORD);
        let word = with_bucket(self.words[index], u32::from(low % WORD));
        put_word(&mut self.words, index, word);
    }

    fn add_array(&mut self, glyphs: &[u16])
        ensures added { (g : ℕ) → is_covered g glyphs.now ≡ true → has_low_bits self.new.words g ≡ true }
        ensures stays { (g : ℕ) → has_low_bits self.old.words g ≡ true → has_low_bits self.new.words g ≡ true }
        ensures exact { (others : List ℕ) → IsLowBitsOf self.old.words others
            → IsLowBitsOf self.new.words (others ++ glyphs.now) }
        ensures buckets { (g : ℕ) → has_low_bits self.new.words g
            ≡ (has_low_bits self.old.words g || shares_low_bits glyphs.now g) }
    {
        for glyph in glyphs {
            self.add(*glyph);
        }
    }

    fn add_range(&mut self, first: u16, last: u16) -> bool
        ensures added { (g : ℕ) → first ≤ g → g ≤ last → has_low_bits self.new.words g ≡ true }
        ensures stays { (g : ℕ) → has_low_bits self.old.words g ≡ true → has_low_bits self.new.words g ≡ true }
        ensures all { result ≡ false ↔ ((g : ℕ) → has_low_bits self.new.words g ≡ true) }
        ensures exact { (others : List ℕ) → IsLowBitsOf self.old.words others
            → IsLowBitsOf self.new.words (others ++ numbers_from first (last + 1 - first)) }
        ensures buckets { (g : ℕ) → has_low_bits self.new.words g
            ≡ (has_low_bits self.old.words g || shares_low_bits (numbers_from first (last + 1 - first)) g) }
    {
        if last < first {
            return !are_full(&self.words);
        }
        if last - first >= BUCKETS - 1 {
            *self = Self::full();
            return false;
        }
        for k in 0..last - first + 1 {
            self.add(first + k);
        }
        !are_full(&self.words)
    }

    fn may_have_glyph(&self, glyph: u16) -> bool {
        let low = glyph % BUCKETS;
        has_bucket(self.words[usize::from(low / WORD)], u32::from(low % WORD))
    }

    fn may_have(&self, other: &Self) -> bool
        ensures apart { result ≡ false → (g : ℕ) → has_low_bits self.now.words g ≡ true
            → has_low_bits other.now.words g ≡ false }
        ensures exact { ((g : ℕ) → has_low_bits self.now.words g ≡ true
            → has_low_bits other.now.words g ≡ false) → result ≡ false }
    {
        for i in 0..WORDS {
            if self.words[i] & other.words[i] != 0 {
                return true;
            }
        }
        false
    }
}
