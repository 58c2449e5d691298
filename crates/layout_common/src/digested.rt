//! What can act at some glyphs alone, with a set of them, so that it need not be tried at others.
ghost use Rattle.std.specs.Prelude.{ℕ, ◌≡◌, ◌==◌, Bool, true, false};
ghost use Rattle.std.specs.List.{list_any};

use crate::digest::{hb_set_digest_ext, hb_set_digest_t};
use crate::low_bits::LowBits;
use crate::neighbours::Side;
use std::marker::Model;

/// What can act at some glyphs alone: a row, a rule, a subtable, the subtables of a lookup.
pub trait Covers {
    ghost use Rattle.std.specs.Prelude.{Option, None, Some};
    ghost use Rattle.layout_common.specs.declared.neighbours.Side.{Side};

    ghost covers: { Self → ℕ → Bool };

    // whether it may act where a glyph stands beside the one at which it is tried, the nearest on a side that its lookup's
    // flag doesn't skip, or where none stands there
    ghost admits: { Self → Side → Option ℕ → Bool } = { λ _ _ _. true };

    /// Adds the glyphs at which it can act. What was there stays.
    fn collect<D: hb_set_digest_ext>(&self, digest: &mut D)
        ensures added { (g : ℕ) → covers self.now g ≡ true → D.may_contain digest.new g ≡ true }
        ensures stays { (g : ℕ) → D.may_contain digest.old g ≡ true → D.may_contain digest.new g ≡ true };

    /// Adds the glyphs of which one has to stand on a side, where there are such; whether there are.
    fn collect_beside<D: hb_set_digest_ext>(&self, side: Side, digest: &mut D) -> bool
        ensures none { result ≡ true → admits self.now side None ≡ false }
        ensures added { result ≡ true → (g : ℕ) → admits self.now side (Some g) ≡ true
            → D.may_contain digest.new g ≡ true }
    {
        false
    }
}

/// A glyph, as the first item of a rule's input.
impl Covers for u16 {
    ghost covers = { λ glyph g. g == glyph };

    fn collect<D: hb_set_digest_ext>(&self, digest: &mut D) {
        digest.add(*self);
    }
}

/// Adds the glyphs at which one of several can act. What was there stays.
pub fn collect_each<S: Covers, D: hb_set_digest_ext>(items: &[S], digest: &mut D)
    ensures added { (g : ℕ) → list_any (λ s. S.covers s g) items.now ≡ true → D.may_contain digest.new g ≡ true }
    ensures stays { (g : ℕ) → D.may_contain digest.old g ≡ true → D.may_contain digest.new g ≡ true }
{
    for item in items {
        item.collect(digest);
    }
}

/// A value that can act at some glyphs alone (`Covers`), kept with two sets that have each of these glyphs: a digest,
/// and one by low bits. The value is skipped at a glyph that either of them lacks, and in a text that shares no low
/// bits with the second. The sets only save time: contracts see the value alone.
#[derive(Debug, Drop)]
pub struct Digested<S: Covers> {
    inner: S,
    digest: hb_set_digest_t,
    low_bits: LowBits,
}

impl<S: Covers> Model for Digested<S> {
    ghost use Rattle.std.specs.Prelude.{ℕ, ◌≡◌, true};

    ghost Value = { S };

    ghost view = { λ d. d.inner };

    ghost invariant = { λ d. ((g : ℕ) → S.covers d.inner g ≡ true
        → ⟦<hb_set_digest_t as hb_set_digest_ext>⟧.may_contain d.digest g ≡ true)
        × ((g : ℕ) → S.covers d.inner g ≡ true → ⟦<LowBits as hb_set_digest_ext>⟧.may_contain d.low_bits g ≡ true) };
}

impl<S: Covers> Digested<S> {
    /// Keeps a value with both sets of the glyphs at which it can act.
    pub fn new(inner: S) -> Digested<S>
        ensures { result ≡ inner }
    {
        let mut digest = hb_set_digest_t::new();
        inner.collect(&mut digest);
        let mut low_bits = LowBits::new();
        inner.collect(&mut low_bits);
        Digested {
            inner,
            digest,
            low_bits,
        }
    }

    /// The value itself.
    pub fn inner(&self) -> &S
        ensures { result.now ≡ self.now }
    {
        &self.inner
    }

    /// Whether both sets have a glyph: where one lacks it, the value can't act there.
    pub fn may_have_glyph(&self, glyph: u16) -> bool
        ensures { result ≡ false → S.covers self.now glyph ≡ false }
    {
        // Low bits first: one test of a bit, which is exact in a font of up to 1,024 glyphs. In larger ones the digest,
        // three tests, lacks many glyphs that have the low bits of a covered one.
        self.low_bits.may_have_glyph(glyph) && self.digest.may_have_glyph(glyph)
    }

    /// The set by low bits, which has each glyph at which it can act.
    pub fn low_bits(&self) -> &LowBits
        ensures { (g : ℕ) → S.covers self.now g ≡ true → ⟦<LowBits as hb_set_digest_ext>⟧.may_contain result.now g ≡ true }
    {
        &self.low_bits
    }

    /// The digest, which has each glyph at which it can act.
    pub fn digest(&self) -> hb_set_digest_t
        ensures { (g : ℕ) → S.covers self.now g ≡ true
            → ⟦<hb_set_digest_t as hb_set_digest_ext>⟧.may_contain result g ≡ true }
    {
        self.digest
    }
}

impl<S: Covers> Covers for Digested<S> {
    ghost covers = { S.covers };

    fn collect<D: hb_set_digest_ext>(&self, digest: &mut D) {
        self.inner.collect(digest);
    }
}
