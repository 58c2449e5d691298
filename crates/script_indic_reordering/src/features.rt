//! The features that the glyphs of a syllable get by their positions (rustybuzz: hb/ot_shaper_indic.rs).
ghost use Rattle.std.specs.Prelude.{◌≡◌, ◌≤◌, ◌<◌, ◌+◌, bit_and, drop, length, true, IfSome};
ghost use Rattle.std.specs.List.{list_any};
ghost use Rattle.buffer_glyphs.specs.Items.{item_of, strip};
ghost use Rattle.buffer_glyphs.specs.Origins.{origin_of};
ghost use Rattle.buffer_stages.specs.Ordering.{AreMade};
ghost use Rattle.script_indic_reordering.specs.Glyphs.{is_zwnj};
ghost use Rattle.script_indic_reordering.specs.Masks.{after_masked, own_bits, pair_masked, part_masked, without_bits};
ghost use Rattle.script_indic_reordering.specs.Initial.{base_in, cleared_before_zwnj, without_bits_if, continues, form_pref, forms_pref, masked_by_position, masks_set, pref_masked, pref_pair, reph_in};

use crate::forms::IndicForms;
use crate::glyphs::{is_consonant, is_halant, is_zwnj};
use crate::script::IndicMasks;
use crate::sought::Sought;
use buffer_glyphs::info::{hb_glyph_info_t, hb_mask_t};
use buffer_stages::parts::mask_within;
use buffer_stages::rewriting::PartRule;

/// The masks of a syllable, and the index of its pair of a halant and a consonant that form together.
#[derive(Clone, Copy)]
pub(crate) struct Features {
    pub masks: IndicMasks,
    pub pair: Option<usize>,
}

impl PartRule for Features {
    ghost use Rattle.script_indic_reordering.specs.Initial.{masks_set};

    ghost made = { λ f. masks_set f.masks f.pair };

    #[tactic(auto, using(crate::proofs::Lemmas::Walks::features_made))]
    fn make(&self, glyphs: &mut [hb_glyph_info_t]) {
        mask_by_position(&self.masks, glyphs);
        mask_pair(self.masks.pref, self.pair, glyphs);
        clear_before_zwnj(own_bits(self.masks.half), glyphs);
    }
}

/// The index of the base; that of the end where there is none.
fn base_in(glyphs: &[hb_glyph_info_t]) -> usize
    ensures index { result ≡ base_in (strip glyphs.now) }
    ensures within { result ≤ length glyphs.now }
{
    Sought::Base.index(glyphs)
}

/// How many glyphs the reph is.
fn reph_in(glyphs: &[hb_glyph_info_t]) -> usize
    ensures count { result ≡ reph_in (strip glyphs.now) }
    ensures within { result ≤ length glyphs.now }
{
    Sought::NotReph.index(glyphs)
}

/// Sets the features of a reph, of the glyphs before the base and of those after the base.
#[tactic(auto, using(crate::proofs::Lemmas::Walks::by_position_made))]
fn mask_by_position(masks: &IndicMasks, glyphs: &mut [hb_glyph_info_t])
    ensures { AreMade (masked_by_position masks.now (strip glyphs.old)) glyphs.old glyphs.new }
{
    let base = base_in(glyphs);
    let reph = reph_in(glyphs);
    mask_part(glyphs, 0, reph, masks.rphf);
    mask_part(glyphs, 0, base, masks.before_base);
    mask_after(glyphs, base, masks.after_base);
}

/// Sets the features of a mask on the glyphs after an index.
#[tactic(auto, using(crate::proofs::Lemmas::Walks::none_after, crate::proofs::Lemmas::Walks::after_made))]
fn mask_after(glyphs: &mut [hb_glyph_info_t], base: usize, mask: hb_mask_t)
    requires { base ≤ length glyphs.old }
    ensures { AreMade (after_masked (base + 1) mask (strip glyphs.old)) glyphs.old glyphs.new }
{
    let count = glyphs.len();
    if base == count {
        return;
    }
    mask_within(glyphs, base + 1, count, mask);
}

/// Sets the features of a mask on the glyphs from `start` up to before `end`.
#[tactic(auto, using(crate::proofs::Lemmas::Walks::part_made))]
fn mask_part(glyphs: &mut [hb_glyph_info_t], start: usize, end: usize, mask: hb_mask_t)
    requires ordered { start ≤ end }
    requires within { end ≤ length glyphs.old }
    ensures made { AreMade (part_masked start end mask (strip glyphs.old)) glyphs.old glyphs.new }
    ensures count { length glyphs.new ≡ length glyphs.old }
{
    mask_within(glyphs, start, end, mask);
}

/// The index of the first halant after the base that forms with a consonant after it.
#[tactic(auto, using(crate::proofs::Lemmas::Walks::pairing_begun, crate::proofs::Lemmas::Walks::pair_next, crate::proofs::Lemmas::Walks::pair_found, crate::proofs::Lemmas::Walks::pair_none))]
pub(crate) fn pref_pair<F: IndicForms>(forms: &F, glyphs: &[hb_glyph_info_t]) -> Option<usize>
    ensures value { result ≡ pref_pair (F.forms_of forms.now) (strip glyphs.now) }
    ensures within { IfSome result (λ i. i + 2 ≤ length glyphs.now) }
{
    let base = base_in(glyphs);
    for i in base + 1..glyphs.len() {
        if forms_pref(forms, glyphs, i) {
            return Some(i);
        }
    }
    None
}

/// Whether the glyphs at an index and after it are a halant and a consonant that form together.
#[tactic(auto, using(crate::proofs::Lemmas::Walks::last_forms_none, crate::proofs::Lemmas::Walks::two_form))]
fn forms_pref<F: IndicForms>(forms: &F, glyphs: &[hb_glyph_info_t], i: usize) -> bool
    requires { i < length glyphs.now }
    ensures value { result ≡ forms_pref (F.forms_of forms.now) (drop i (strip glyphs.now)) }
    ensures there { result ≡ true → i + 2 ≤ length glyphs.now }
{
    if i + 1 == glyphs.len() {
        return false;
    }
    form_pref(forms, &glyphs[i], &glyphs[i + 1])
}

fn form_pref<F: IndicForms>(forms: &F, glyph: &hb_glyph_info_t, next: &hb_glyph_info_t) -> bool
    ensures { result ≡ form_pref (F.forms_of forms.now) (item_of glyph.now) (item_of next.now) }
{
    is_halant(glyph) && is_consonant(next) && forms.forms_pref(glyph.glyph_id, next.glyph_id)
}

fn mask_pair(mask: hb_mask_t, pair: Option<usize>, glyphs: &mut [hb_glyph_info_t])
    ensures { AreMade (pref_masked mask pair (strip glyphs.old)) glyphs.old glyphs.new }
{
    let Some(i) = pair else {
        return;
    };
    mask_at(mask, i, glyphs);
}

/// Sets the features of a mask on the glyph at an index and the next one, where both are there.
#[tactic(auto, using(crate::proofs::Lemmas::Walks::no_pair, crate::proofs::Lemmas::Walks::pair_made))]
fn mask_at(mask: hb_mask_t, i: usize, glyphs: &mut [hb_glyph_info_t])
    ensures { AreMade (pair_masked i mask (strip glyphs.old)) glyphs.old glyphs.new }
{
    let count = glyphs.len();
    if i >= count {
        return;
    }
    if i + 1 >= count {
        return;
    }
    mask_within(glyphs, i, i + 2, mask);
}

/// The bits of a mask that are a feature's own.
#[tactic(auto, using(crate::proofs::Lemmas::Bits::own_no_flags))]
fn own_bits(mask: hb_mask_t) -> hb_mask_t
    ensures value { result ≡ own_bits mask }
    ensures flagless { bit_and result 7 ≡ 0 }
{
    mask - (mask & 0x8000_0007)
}

/// Clears the bits of a mask on the glyphs before a ZWNJ, back to the nearest consonant. It takes linear time, since it
/// walks from the end and keeps whether a ZWNJ follows; hardly any syllable has one.
#[tactic(auto, using(crate::proofs::Lemmas::Zwnj::none_cleared, crate::proofs::Lemmas::Walks::clearing_begun, crate::proofs::Lemmas::Walks::clearing_next, crate::proofs::Lemmas::Walks::clearing_done))]
fn clear_before_zwnj(bits: hb_mask_t, glyphs: &mut [hb_glyph_info_t])
    requires { bit_and bits 7 ≡ 0 }
    ensures { AreMade (cleared_before_zwnj bits (strip glyphs.old)) glyphs.old glyphs.new }
{
    if !has_zwnj(glyphs) {
        return;
    }
    let mut is_before = false;
    let mut i = glyphs.len();
    while i > 0 {
        i -= 1;
        let glyph = glyphs[i];
        glyphs[i] = without_bits_if(is_before, bits, glyph);
        is_before = continues(&glyph, is_before);
    }
}

fn has_zwnj(glyphs: &[hb_glyph_info_t]) -> bool
    ensures { result ≡ list_any (λ g. is_zwnj (item_of g)) glyphs.now }
{
    glyphs.iter().any(|glyph| is_zwnj(glyph))
}

/// Whether a ZWNJ follows what stands before a glyph, with no consonant between, by whether one so follows the glyph.
fn continues(glyph: &hb_glyph_info_t, is_before: bool) -> bool
    ensures { result ≡ continues (item_of glyph.now) is_before }
{
    is_zwnj(glyph) || (!is_consonant(glyph) && is_before)
}

fn without_bits_if(is_before: bool, bits: hb_mask_t, glyph: hb_glyph_info_t) -> hb_glyph_info_t
    requires { bit_and bits 7 ≡ 0 }
    ensures item { item_of result ≡ without_bits_if is_before bits (item_of glyph) }
    ensures origin { origin_of result ≡ origin_of glyph }
{
    if is_before {
        return without_bits(bits, glyph);
    }
    glyph
}

/// A glyph without some bits of its mask, none of which is a glyph flag.
#[tactic(auto, using(crate::proofs::Lemmas::Bits::item_cleared, crate::proofs::Lemmas::Bits::origin_cleared))]
fn without_bits(bits: hb_mask_t, glyph: hb_glyph_info_t) -> hb_glyph_info_t
    requires { bit_and bits 7 ≡ 0 }
    ensures item { item_of result ≡ without_bits bits (item_of glyph) }
    ensures origin { origin_of result ≡ origin_of glyph }
{
    hb_glyph_info_t {
        mask: glyph.mask - (glyph.mask & bits),
        ..glyph
    }
}
