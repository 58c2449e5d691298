//! Sets of glyphs (OpenType, chapter 2, coverage table).
ghost use Rattle.std.specs.Prelude.{◌≡◌, ℕ, List, true, IfOk, IfSome};
ghost use Rattle.std.specs.Ordering.{nat_cmp};
ghost use Rattle.std.specs.List.Sorted.{IsSorted};
ghost use Rattle.layout_common.specs.Bits.{AreBits};
ghost use Rattle.layout_common.specs.Coverage.{is_covered, in_order};

use crate::digest::hb_set_digest_ext;
use crate::digested::Covers;
use crate::glyph_bits::GlyphBits;
use std::alloc::{AllocError, Global};
use std::marker::Model;

/// How many words of bits there are at most for each glyph.
const WORDS_PER_GLYPH: usize = 2;

/// A set of glyphs (OpenType, chapter 2, coverage table), in the order of their numbers.
#[derive(Debug, Drop)]
pub struct Coverage {
    glyphs: Vec<u16>,
    /// Their bits, unless they lie too far apart. They only save time, the search by halves.
    bits: Option<GlyphBits>,
}

impl Model for Coverage {
    ghost use Rattle.std.specs.Prelude.{ℕ, List, IfSome};
    ghost use Rattle.std.specs.Ordering.{nat_cmp};
    ghost use Rattle.std.specs.List.Sorted.{IsSorted};
    ghost use Rattle.layout_common.specs.Bits.{AreBits};

    ghost Value = { List ℕ };

    ghost view = { λ c. c.glyphs.items };

    ghost invariant = { λ c. IsSorted nat_cmp c.glyphs.items
        × IfSome c.bits (λ b. AreBits b.start b.words.items c.glyphs.items) };
}

impl Coverage {
    /// The set of the listed glyphs, which may be in any order and with repetitions. Beside them it takes at most 16
    /// bytes for each.
    pub fn new(alloc: Global, glyphs: Vec<u16>) -> Result<Coverage, AllocError>
        ensures order { IfOk result (λ c. c ≡ in_order glyphs.items) }
        ensures members { IfOk result (λ c. (g : ℕ) → is_covered g c ≡ is_covered g glyphs.items) }
    {
        let mut glyphs = glyphs;
        glyphs.sort_unstable();
        let bits = bits_of(alloc, &glyphs)?;
        Ok(Coverage { glyphs, bits })
    }

    /// The glyphs, in rising order.
    pub fn as_slice(&self) -> &[u16]
        ensures { result.now ≡ self.now }
    {
        &self.glyphs
    }

    /// Whether the set has a glyph: by its bit, in logarithmic time where the glyphs lie too far apart for bits.
    pub fn contains(&self, glyph: u16) -> bool
        ensures { result ≡ is_covered glyph self.now }
    {
        match &self.bits {
            Some(bits) => bits.contains(glyph),
            None => is_among(&self.glyphs, glyph),
        }
    }
}

/// Whether a glyph is among sorted ones, in logarithmic time.
fn is_among(glyphs: &[u16], glyph: u16) -> bool
    requires { IsSorted nat_cmp glyphs.now }
    ensures { result ≡ is_covered glyph glyphs.now }
{
    glyphs.binary_search(&glyph).is_ok()
}

/// The bits of sorted glyphs, unless they lie too far apart.
#[tactic(auto, using(crate::proofs::Words::first_least))]
fn bits_of(alloc: Global, glyphs: &[u16]) -> Result<Option<GlyphBits>, AllocError>
    requires { IsSorted nat_cmp glyphs.now }
    ensures { IfOk result (λ bits. IfSome bits (λ b. AreBits b.start b.words.items glyphs.now)) }
{
    let Some(first) = glyphs.first() else {
        return Ok(None);
    };
    let Some(last) = glyphs.last() else {
        return Ok(None);
    };
    let word_count = usize::from(last / 64).saturating_sub(usize::from(first / 64)) + 1;
    if word_count > glyphs.len().saturating_mul(WORDS_PER_GLYPH) {
        return Ok(None);
    }
    Ok(Some(GlyphBits::new(alloc, *first, word_count, glyphs)?))
}

/// A coverage whose glyphs are collected.
pub trait CoverageExt {
    ghost glyphs: { Self → List ℕ };

    /// Adds the glyphs of the coverage to a set. What was there stays.
    fn collect<D: hb_set_digest_ext>(&self, set_digest: &mut D)
        ensures added { (g : ℕ) → is_covered g (glyphs self.now) ≡ true → D.may_contain set_digest.new g ≡ true }
        ensures stays { (g : ℕ) → D.may_contain set_digest.old g ≡ true → D.may_contain set_digest.new g ≡ true };
}

impl CoverageExt for Coverage {
    ghost glyphs = { λ c. c };

    fn collect<D: hb_set_digest_ext>(&self, set_digest: &mut D) {
        set_digest.add_array(&self.glyphs);
    }
}

impl Covers for Coverage {
    ghost covers = { λ c g. is_covered g c };

    fn collect<D: hb_set_digest_ext>(&self, digest: &mut D) {
        CoverageExt::collect(self, digest);
    }
}
