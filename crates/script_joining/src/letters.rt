//! The forms of a text's letters, arabic_joining and mongolian_variation_selectors (rustybuzz: hb/ot_shaper_arabic.rs).
ghost use Rattle.std.specs.Prelude.{◌≡◌, None, find, map};
ghost use Rattle.std.specs.Option.{option_map};
ghost use Rattle.buffer_glyphs.specs.Items.{item_of};
ghost use Rattle.script_joining.specs.Glyphs.{glyph_formed, glyph_joined, glyphs_copied, glyphs_formed, mask_of, nearest_or, type_kept};
ghost use Rattle.script_joining.specs.Forms.{letter_form};
ghost use Rattle.script_joining.specs.Joining.{form_after, is_letter, is_mongolian_selector};

use crate::forms::letter_form;
use crate::types::{is_letter, nearest_past, type_kept};
use buffer_glyphs::info::{hb_glyph_info_t, hb_mask_t};
use script_categories::hb_arabic_joining_type_t;

/// Sets the forms of a Mongolian text's glyphs that hold their joining types, by the nearest letters before and after
/// them, and adds the masks of the forms.
pub(crate) fn join(
    masks: &[hb_mask_t],
    before: hb_arabic_joining_type_t,
    after: hb_arabic_joining_type_t,
    glyphs: &mut [hb_glyph_info_t],
)
    ensures { glyphs.new
        ≡ map (glyph_joined masks.now) (glyphs_copied None (glyphs_formed before after glyphs.old)) }
{
    form_letters(before, after, glyphs);
    copy_forms(glyphs);
    add_masks(masks, glyphs);
}

#[tactic(auto, using(crate::proofs::Formed::none_formed, crate::proofs::Formed::next_formed, crate::proofs::Formed::all_formed))]
fn form_letters(
    before: hb_arabic_joining_type_t,
    after: hb_arabic_joining_type_t,
    glyphs: &mut [hb_glyph_info_t],
)
    ensures { glyphs.new ≡ glyphs_formed before after glyphs.old }
{
    let mut before = before;
    for at in 0..glyphs.len() {
        let letter = type_kept(&glyphs[at]);
        let form = form_before(before, letter, after, &glyphs[at + 1..]);
        glyphs[at].auxiliary = form;
        before = nearest_past(before, letter);
    }
}

/// The form of a letter before the given characters. A transparent one has none whatever follows, so the marks after a
/// letter are walked only once.
fn form_before(
    before: hb_arabic_joining_type_t,
    letter: hb_arabic_joining_type_t,
    after: hb_arabic_joining_type_t,
    rest: &[hb_glyph_info_t],
) -> u8
    ensures { result ≡ letter_form before letter (nearest_or after (map type_kept rest.now)) }
{
    let follows = if is_letter(letter) {
        nearest_or(after, rest)
    } else {
        after
    };
    letter_form(before, letter, follows)
}

#[tactic(auto, using(crate::proofs::Formed::found_seen))]
fn nearest_or(
    beyond: hb_arabic_joining_type_t,
    glyphs: &[hb_glyph_info_t],
) -> hb_arabic_joining_type_t
    ensures { result ≡ nearest_or beyond (map type_kept glyphs.now) }
{
    first_letter(glyphs).unwrap_or(beyond)
}

fn first_letter(glyphs: &[hb_glyph_info_t]) -> Option<hb_arabic_joining_type_t>
    ensures { result ≡ option_map type_kept (find (λ g. is_letter (type_kept g)) glyphs.now) }
{
    let first = glyphs.iter().find(|glyph| is_letter(type_kept(glyph)))?;
    Some(type_kept(first))
}

/// Copies to each Mongolian variation selector the form of the glyph before it (`mongolian_variation_selectors`).
#[tactic(auto, using(crate::proofs::Formed::none_copied, crate::proofs::Formed::next_copied, crate::proofs::Formed::all_copied))]
fn copy_forms(glyphs: &mut [hb_glyph_info_t])
    ensures { glyphs.new ≡ glyphs_copied None glyphs.old }
{
    let mut before = None;
    for glyph in glyphs.iter_mut() {
        let form = form_after(before, glyph);
        glyph.auxiliary = form;
        before = Some(form);
    }
}

fn form_after(before: Option<u8>, glyph: &hb_glyph_info_t) -> u8
    ensures { result ≡ form_after before (item_of glyph.now) glyph.now.auxiliary }
{
    match before {
        Some(form) if is_mongolian_selector(glyph) => form,
        _ => glyph.auxiliary,
    }
}

fn is_mongolian_selector(glyph: &hb_glyph_info_t) -> bool
    ensures { result ≡ is_mongolian_selector (item_of glyph.now) }
{
    matches!(glyph.glyph_id, 0x180B..=0x180D | 0x180F)
}

#[tactic(auto, using(buffer_glyphs::proofs::Lists::map_step))]
fn add_masks(masks: &[hb_mask_t], glyphs: &mut [hb_glyph_info_t])
    ensures { glyphs.new ≡ map (glyph_joined masks.now) glyphs.old }
{
    for glyph in glyphs.iter_mut() {
        add_mask(masks, glyph);
    }
}

/// Adds the mask of the feature of a glyph's form. No other part of the record is written, which takes less than to copy
/// it.
fn add_mask(masks: &[hb_mask_t], glyph: &mut hb_glyph_info_t)
    ensures { glyph.new ≡ glyph_joined masks.now glyph.old }
{
    glyph.mask |= mask_of(masks, glyph.auxiliary);
}

/// The mask of a form's feature.
pub(crate) fn mask_of(masks: &[hb_mask_t], form: u8) -> hb_mask_t
    ensures { result ≡ mask_of masks.now form }
{
    masks.get(form as usize).copied().unwrap_or(0)
}
