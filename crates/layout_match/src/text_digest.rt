//! The glyphs of a text as a set, by which a lookup that can act at none of them is skipped (rustybuzz: hb/buffer.rs,
//! `digest`; hb/ot_layout.rs, `apply_layout_table`).
ghost use Rattle.std.specs.Prelude.{ℕ, ◌≡◌, ◌&&◌, Bool, List, true, false};
ghost use Rattle.std.specs.List.{list_any};
ghost use Rattle.std.specs.Option.{option_map_or};
ghost use Rattle.buffer_glyphs.specs.Items.{Item, item_of, strip};
ghost use Rattle.buffer_core.specs.Sides.{items_of};
ghost use Rattle.buffer_stages.specs.Buffers.{are_glyphs};
ghost use Rattle.buffer_stages.specs.Masks.{shares_mask};
ghost use Rattle.buffer_stages.specs.Pauses.{BringsNoGlyph};
ghost use Rattle.buffer_stages.specs.Ready.{HasGlyphsInPlace};
ghost use Rattle.layout_match.specs.Skipping.{HoldsNumbers, HoldsMasks, HoldsText, TextSets};

use buffer_core::buffer::hb_buffer_t;
use buffer_glyphs::info::{DEFINED, hb_glyph_info_t};
use layout_common::digest::hb_set_digest_ext;
use layout_common::digested::{Covers, Digested};
use layout_common::low_bits::LowBits;

/// What is known of the glyphs of a text while lookups are applied to it: it misses none of them.
pub trait TextDigest {
    ghost sets: { Self → TextSets };

    /// Whether a lookup can act at no glyph of the text in the buffer: none has a bit of its mask, or its subtables cover
    /// none. It may answer false where that is so.
    fn misses<S: Covers>(
        &mut self,
        mask: u32,
        subtables: &Digested<S>,
        buffer: &hb_buffer_t,
    ) -> bool
        requires glyphs_in_place { HasGlyphsInPlace buffer.now }
        requires held { HoldsText (sets self.old) (items_of buffer.now) }
        ensures held { HoldsText (sets self.new) (items_of buffer.now) }
        ensures misses { result ≡ true → list_any (λ (x : Item). shares_mask mask x.mask
            && S.covers subtables.now x.number) (items_of buffer.now) ≡ false };

    /// After a lookup: where it acted, what is known is forgotten, and collected anew.
    fn after_lookup(&mut self, acted: bool)
        ensures { (old new : List Item) → HoldsText (sets self.old) old → (acted ≡ false → new ≡ old)
            → HoldsText (sets self.new) new };

    /// After a pause: where it introduced a glyph number, what is known is forgotten, and collected anew; else the
    /// feature bits alone are, since it may have set masks.
    fn after_pause(&mut self, introduced: bool)
        ensures { (old new : List Item) → HoldsText (sets self.old) old → (introduced ≡ false → BringsNoGlyph old new)
            → HoldsText (sets self.new) new };
}

/// A text's glyphs by the low bits of their numbers, and the feature bits of their masks. Both are collected in one
/// pass, when a lookup is first tested after they were forgotten, and the lookup before it acted nowhere. They only
/// save time: a lookup that is skipped would act at no glyph of the text.
#[derive(Debug, Drop)]
pub struct TextGlyphs {
    glyphs: Option<LowBits>,
    features: Option<u32>,
    /// Whether they are worth a pass: no lookup was applied yet, or the last one acted nowhere. A lookup that acts is
    /// often followed by another, to which they were of no use.
    is_due: bool,
}

/// The feature bits of a glyph's mask.
fn features_of(info: &hb_glyph_info_t) -> u32
    ensures { result ≡ (item_of info.now).mask }
{
    info.mask - (info.mask & DEFINED)
}

/// Adds the numbers of glyphs to a set, and answers the feature bits of their masks.
#[tactic(auto, using(crate::proofs::Lemmas::Held::held_none, crate::proofs::Lemmas::Held::masks_none))]
fn collect_glyphs<D: hb_set_digest_ext>(glyphs: &[hb_glyph_info_t], digest: &mut D) -> u32
    requires { are_glyphs (strip glyphs.now) ≡ true }
    ensures glyphs { HoldsNumbers (D.may_contain digest.new) (strip glyphs.now) }
    ensures features { HoldsMasks (λ mask. shares_mask mask result) (strip glyphs.now) }
{
    let mut features = 0;
    for info in glyphs {
        digest.add(info.as_glyph().0);
        features |= features_of(info);
    }
    features
}

/// Whether a glyph may have a bit of a mask, by the bits that are known.
fn may_share(features: Option<u32>, mask: u32) -> bool
    ensures { result ≡ option_map_or (λ m. shares_mask mask m) features true }
{
    match features {
        Some(features) => features & mask != 0,
        None => true,
    }
}

/// Whether a text may have a glyph of a set, by the glyphs that are known. Where it may not, it has none.
fn may_share_glyph(glyphs: &Option<LowBits>, set: &LowBits) -> bool
    ensures { result ≡ false → (n : ℕ)
        → option_map_or (λ d. ⟦<LowBits as hb_set_digest_ext>⟧.may_contain d n) glyphs.now true ≡ true
        → ⟦<LowBits as hb_set_digest_ext>⟧.may_contain set.now n ≡ false }
{
    match glyphs {
        Some(glyphs) => glyphs.may_have(set),
        None => true,
    }
}

impl TextGlyphs {
    /// Of a text whose glyphs were not looked at.
    pub fn new() -> TextGlyphs
        ensures { (items : List Item) → HoldsText (⟦<TextGlyphs as TextDigest>⟧.sets result) items }
    {
        TextGlyphs {
            glyphs: None,
            features: None,
            is_due: true,
        }
    }

    /// Collects what isn't known of the text in a buffer, where that is due.
    fn collect(&mut self, buffer: &hb_buffer_t)
        requires glyphs_in_place { HasGlyphsInPlace buffer.now }
        requires held { HoldsText (⟦<TextGlyphs as TextDigest>⟧.sets self.old) (items_of buffer.now) }
        ensures { HoldsText (⟦<TextGlyphs as TextDigest>⟧.sets self.new) (items_of buffer.now) }
    {
        if !self.is_due || self.glyphs.is_some() {
            return;
        }
        let mut glyphs = LowBits::new();
        let features = collect_glyphs(buffer.info_slice(), &mut glyphs);
        self.glyphs = Some(glyphs);
        self.features = Some(features);
    }
}

impl TextDigest for TextGlyphs {
    ghost sets = { λ t. record {
      has = λ n. option_map_or (λ d. ⟦<LowBits as hb_set_digest_ext>⟧.may_contain d n) t.glyphs true;
      shares = λ mask. option_map_or (λ m. shares_mask mask m) t.features true;
    } };

    fn misses<S: Covers>(
        &mut self,
        mask: u32,
        subtables: &Digested<S>,
        buffer: &hb_buffer_t,
    ) -> bool {
        self.collect(buffer);
        // One test of the mask comes before those of sixteen words of low bits.
        if !may_share(self.features, mask) {
            return true;
        }
        !may_share_glyph(&self.glyphs, subtables.low_bits())
    }

    fn after_lookup(&mut self, acted: bool) {
        self.is_due = !acted;
        if acted {
            self.glyphs = None;
            self.features = None;
        }
    }

    fn after_pause(&mut self, introduced: bool) {
        if introduced {
            self.glyphs = None;
        }
        self.features = None;
    }
}
