//! The syllabic positions of consonants, by the forms that a font has for them (rustybuzz: hb/ot_shaper_indic.rs,
//! `update_consonant_positions`).
ghost use Rattle.std.specs.Prelude.{◌≡◌, true};
ghost use Rattle.buffer_glyphs.specs.Items.{item_of};
ghost use Rattle.buffer_glyphs.specs.Origins.{origin_of};
ghost use Rattle.buffer_core.specs.Readings.{always};
ghost use Rattle.script_indic_reordering.specs.Glyphs.{is_consonant};
ghost use Rattle.buffer_stages.specs.Ready.{IsReady};
ghost use Rattle.buffer_stages.specs.Stages.{AreMapped, IsFollowed, with_items_mapped};
ghost use Rattle.script_indic_reordering.specs.Orders.{consonant_with_position};
ghost use Rattle.script_indic_reordering.specs.KnownForms.{AreKnown, formed_position};

use crate::forms::IndicForms;
use crate::glyphs::is_consonant;
use buffer_core::buffer::hb_buffer_t;
use buffer_glyphs::info::hb_glyph_info_t;
use script_categories::ot_position_t::{POS_BELOW_C, POS_POST_C, Position};

/// How many consonants are remembered at once: a script has fewer, and fonts number most of them one after another.
const ROWS: usize = 64;

/// The form of a consonant with a virama, as a font answered. It only saves time: the font would answer the same again.
#[derive(Clone, Copy)]
pub(crate) struct KnownForm {
    /// The glyph of the consonant that the font was asked for, if it was asked.
    pub glyph: Option<u32>,
    /// The position of its form, if it has one.
    pub position: Option<Position>,
}

/// Gives each consonant the position below the base or after it where the font has such a form of the consonant with a
/// virama before or after it. It takes linear time, but for the font's answers.
#[tactic(auto, using(buffer_stages::specs::Lemmas::Written::mapped_followed, crate::proofs::Lemmas::KnownForms::none_known))]
pub fn update_consonant_positions<F: IndicForms>(forms: &F, virama: u32, buffer: &mut hb_buffer_t)
    requires ready { IsReady buffer.old }
    ensures { IsFollowed (always (with_items_mapped (consonant_with_position (F.forms_of forms.now) virama))) buffer.old buffer.new }
{
    let mut known = [KnownForm {
        glyph: None,
        position: None,
    }; ROWS];
    update_each(forms, virama, &mut known, buffer.info_slice_mut());
}

/// Updates the glyphs. Few consonants make up a text, so most answers of the font are remembered.
fn update_each<F: IndicForms>(
    forms: &F,
    virama: u32,
    known: &mut [KnownForm; ROWS],
    glyphs: &mut [hb_glyph_info_t],
)
    requires { AreKnown (F.forms_of forms.now) virama known.old }
    ensures { AreMapped (consonant_with_position (F.forms_of forms.now) virama) glyphs.old glyphs.new }
{
    for glyph in glyphs.iter_mut() {
        update_glyph(forms, virama, known, glyph);
    }
}

/// Gives a consonant the position of its forms, if the font has some. No other glyph is written.
#[tactic(auto, using(crate::proofs::Lemmas::KnownForms::other_item))]
fn update_glyph<F: IndicForms>(
    forms: &F,
    virama: u32,
    known: &mut [KnownForm; ROWS],
    glyph: &mut hb_glyph_info_t,
)
    requires { AreKnown (F.forms_of forms.now) virama known.old }
    ensures item { item_of glyph.new ≡ consonant_with_position (F.forms_of forms.now) virama (item_of glyph.old) }
    ensures origin { origin_of glyph.new ≡ origin_of glyph.old }
    ensures known { AreKnown (F.forms_of forms.now) virama known.new }
{
    if !is_consonant(glyph) {
        return;
    }
    update_consonant(forms, virama, known, glyph);
}

/// Gives a consonant the position of its forms, if the font has some.
#[tactic(auto, using(crate::proofs::Lemmas::KnownForms::formed_item, crate::proofs::Lemmas::KnownForms::unformed_item))]
fn update_consonant<F: IndicForms>(
    forms: &F,
    virama: u32,
    known: &mut [KnownForm; ROWS],
    glyph: &mut hb_glyph_info_t,
)
    requires known { AreKnown (F.forms_of forms.now) virama known.old }
    requires consonant { is_consonant (item_of glyph.old) ≡ true }
    ensures item { item_of glyph.new ≡ consonant_with_position (F.forms_of forms.now) virama (item_of glyph.old) }
    ensures origin { origin_of glyph.new ≡ origin_of glyph.old }
    ensures remembered { AreKnown (F.forms_of forms.now) virama known.new }
{
    match known_position(forms, virama, known, glyph.glyph_id) {
        Some(position) => glyph.auxiliary = position,
        None => {}
    }
}

/// The position of the forms of a consonant, remembered or asked for.
#[tactic(auto, using(crate::proofs::Lemmas::KnownForms::row_known, crate::proofs::Lemmas::KnownForms::row_made))]
fn known_position<F: IndicForms>(
    forms: &F,
    virama: u32,
    known: &mut [KnownForm; ROWS],
    consonant: u32,
) -> Option<Position>
    requires known { AreKnown (F.forms_of forms.now) virama known.old }
    ensures position { result ≡ formed_position (F.forms_of forms.now) virama consonant }
    ensures remembered { AreKnown (F.forms_of forms.now) virama known.new }
{
    let at = consonant as usize % ROWS;
    let row = known[at];
    if let Some(glyph) = row.glyph
        && glyph == consonant
    {
        return row.position;
    }
    let position = formed_position(forms, virama, consonant);
    known[at] = KnownForm {
        glyph: Some(consonant),
        position,
    };
    position
}

fn formed_position<F: IndicForms>(forms: &F, virama: u32, consonant: u32) -> Option<Position>
    ensures { result ≡ formed_position (F.forms_of forms.now) virama consonant }
{
    if forms.forms_below(virama, consonant) || forms.forms_below(consonant, virama) {
        return Some(POS_BELOW_C);
    }
    if forms.forms_post(virama, consonant) || forms.forms_post(consonant, virama) {
        return Some(POS_POST_C);
    }
    None
}
