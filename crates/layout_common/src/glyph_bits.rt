//! A bit for each glyph of a range.
ghost use Rattle.std.specs.Prelude.{◌≡◌, ◌≤◌, ◌<◌, ◌/◌, ◌==◌, ◌||◌, ℕ, IfOk, OnOk, length, get_or, slice_get};
ghost use Rattle.layout_common.specs.Bits.{AreBits, has_bit};

use crate::digest::{has_bucket, with_bucket};
use std::alloc::{AllocError, Global};

/// How many glyphs a word has.
const WORD: u16 = 64;

/// A bit for each glyph of a range, by words of 64 glyphs.
#[derive(Debug, Drop)]
pub struct GlyphBits {
    /// The count of the words of lower glyphs, which are left out.
    start: u16,
    words: Vec<u64>,
}

impl GlyphBits {
    /// The bits of glyphs from a first one on.
    #[tactic(auto, using(crate::proofs::Words::bits_of_all))]
    pub(crate) fn new(
        alloc: Global,
        first: u16,
        word_count: usize,
        glyphs: &[u16],
    ) -> Result<GlyphBits, AllocError>
        requires { (i d : ℕ) → i < length glyphs.now → first ≤ get_or glyphs.now i d }
        ensures { IfOk result (λ b. AreBits b.start b.words.items glyphs.now) }
    {
        let mut bits = GlyphBits {
            start: first / WORD,
            words: Vec::with_capacity(alloc, word_count)?,
        };
        for glyph in glyphs {
            bits.add(*glyph)?;
        }
        Ok(bits)
    }

    /// Sets the bit of a glyph.
    fn add(&mut self, glyph: u16) -> Result<(), AllocError>
        requires { self.old.start ≤ glyph / 64 }
        ensures start { OnOk result (self.new.start ≡ self.old.start) }
        ensures added { OnOk result ((g : ℕ) → has_bit self.new.start self.new.words.items g
            ≡ (has_bit self.old.start self.old.words.items g || glyph == g)) }
    {
        let index = usize::from(glyph / WORD - self.start);
        lengthen(&mut self.words, index + 1)?;
        self.words[index] = with_bucket(self.words[index], u32::from(glyph % WORD));
        Ok(())
    }

    /// Whether the bit of a glyph is set.
    #[tactic(auto, using(crate::proofs::Words::before_start, crate::proofs::Words::bit_in_word, crate::proofs::Words::past_words))]
    pub(crate) fn contains(&self, glyph: u16) -> bool
        ensures { result ≡ has_bit self.now.start self.now.words.items glyph }
    {
        if glyph / WORD < self.start {
            return false;
        }
        match word_at(&self.words, usize::from(glyph / WORD - self.start)) {
            Some(word) => has_bucket(word, u32::from(glyph % WORD)),
            None => false,
        }
    }
}

/// The word at an index, none past the last one.
pub(crate) fn word_at(words: &[u64], index: usize) -> Option<u64>
    ensures { result ≡ slice_get words.now index }
{
    words.get(index).copied()
}

/// Appends words without bits, so that there are at least `count`.
#[tactic(auto, using(crate::proofs::Words::word_appended))]
fn lengthen(words: &mut Vec<u64>, count: usize) -> Result<(), AllocError>
    ensures long { OnOk result (count ≤ length words.new.items) }
    ensures same { OnOk result ((start g : ℕ) → has_bit start words.new.items g ≡ has_bit start words.old.items g) }
{
    for _ in words.len()..count {
        words.push(0)?;
    }
    Ok(())
}
