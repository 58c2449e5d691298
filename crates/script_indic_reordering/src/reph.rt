//! The reph that a syllable begins with (rustybuzz: hb/ot_shaper_indic.rs).
ghost use Rattle.std.specs.Prelude.{◌≡◌, ◌≤◌, length};
ghost use Rattle.buffer_glyphs.specs.Items.{strip};
ghost use Rattle.script_indic_reordering.specs.Base.{joiners, reph_front, reph_glyphs};
ghost use Rattle.script_indic_reordering.specs.declared.script.RephMode.TheVariants.{Explicit, Implicit, Logical};

use crate::forms::IndicForms;
use crate::glyphs::{is_halant, is_joiner, is_ra, is_zwj};
use crate::script::RephMode;
use crate::sought::Sought;
use buffer_glyphs::info::hb_glyph_info_t;
use script_categories::ot_category_t::OT_Repha;

/// How many glyphs a reph is with the joiners after it, 0 where there is none.
pub(crate) fn reph_front<F: IndicForms>(
    forms: &F,
    mode: RephMode,
    glyphs: &[hb_glyph_info_t],
) -> usize
    ensures count { result ≡ reph_front mode (F.forms_of forms.now) (strip glyphs.now) }
    ensures within { result ≤ length glyphs.now }
{
    let count = reph_glyphs(forms, mode, glyphs);
    if count == 0 {
        return 0;
    }
    count + joiners(&glyphs[count..])
}

/// How many joiners glyphs begin with.
pub(crate) fn joiners(glyphs: &[hb_glyph_info_t]) -> usize
    ensures count { result ≡ joiners (strip glyphs.now) }
    ensures within { result ≤ length glyphs.now }
{
    Sought::NoJoiner.index(glyphs)
}

fn reph_glyphs<F: IndicForms>(forms: &F, mode: RephMode, glyphs: &[hb_glyph_info_t]) -> usize
    ensures count { result ≡ reph_glyphs mode (F.forms_of forms.now) (strip glyphs.now) }
    ensures within { result ≤ length glyphs.now }
{
    match mode {
        RephMode::Logical => logical_reph(forms, glyphs),
        RephMode::Implicit => implicit_reph(forms, glyphs),
        RephMode::Explicit => explicit_reph(forms, glyphs),
    }
}

fn logical_reph<F: IndicForms>(_forms: &F, glyphs: &[hb_glyph_info_t]) -> usize
    ensures count { result ≡ reph_glyphs Logical (F.forms_of _forms.now) (strip glyphs.now) }
    ensures within { result ≤ length glyphs.now }
{
    match glyphs.first() {
        Some(glyph) if glyph.category == OT_Repha => 1,
        _ => 0,
    }
}

/// Ra and a halant, with no joiner after them.
fn implicit_reph<F: IndicForms>(forms: &F, glyphs: &[hb_glyph_info_t]) -> usize
    ensures count { result ≡ reph_glyphs Implicit (F.forms_of forms.now) (strip glyphs.now) }
    ensures within { result ≤ length glyphs.now }
{
    let [ra, halant, next, ..] = glyphs else {
        return 0;
    };
    if !is_ra(ra) || !is_halant(halant) || is_joiner(next) {
        return 0;
    }
    if forms.forms_reph(ra.glyph_id, halant.glyph_id) {
        return 2;
    }
    0
}

/// Ra, a halant and a ZWJ, formed with the ZWJ or without it.
fn explicit_reph<F: IndicForms>(forms: &F, glyphs: &[hb_glyph_info_t]) -> usize
    ensures count { result ≡ reph_glyphs Explicit (F.forms_of forms.now) (strip glyphs.now) }
    ensures within { result ≤ length glyphs.now }
{
    let [ra, halant, next, ..] = glyphs else {
        return 0;
    };
    if !is_ra(ra) || !is_halant(halant) || !is_zwj(next) {
        return 0;
    }
    if forms.forms_reph(ra.glyph_id, halant.glyph_id) {
        return 2;
    }
    if forms.forms_reph_with_joiner(ra.glyph_id, halant.glyph_id, next.glyph_id) {
        return 2;
    }
    0
}
