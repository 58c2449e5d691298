//! The state table of Arabic joining: a letter's form between its neighbours (rustybuzz: hb/ot_shaper_arabic.rs).
ghost use Rattle.std.specs.Prelude.{◌≡◌};
ghost use Rattle.script_joining.specs.Forms.{alaph_form, final_alaph, joined_form, joins_before, joins_next, letter_form};

use script_categories::arabic_action_t::{FIN2, FIN3, FINA, INIT, ISOL, MED2, MEDI, NONE};
use script_categories::hb_arabic_joining_type_t;

/// The form of a letter by its joining type and those of the nearest letters before and after it (`STATE_TABLE`). A
/// transparent or non-joining character has none.
pub fn letter_form(
    before: hb_arabic_joining_type_t,
    letter: hb_arabic_joining_type_t,
    after: hb_arabic_joining_type_t,
) -> u8
    ensures { result ≡ letter_form before letter after }
{
    match letter {
        hb_arabic_joining_type_t::U | hb_arabic_joining_type_t::T | hb_arabic_joining_type_t::X =>
            NONE,
        hb_arabic_joining_type_t::L => joined_form(false, joins_before(after)),
        hb_arabic_joining_type_t::R | hb_arabic_joining_type_t::GroupDalathRish => {
            joined_form(joins_next(before), false)
        }
        hb_arabic_joining_type_t::D => joined_form(joins_next(before), joins_before(after)),
        hb_arabic_joining_type_t::GroupAlaph => alaph_form(before, joins_before(after)),
    }
}

fn joins_next(joining: hb_arabic_joining_type_t) -> bool
    ensures { result ≡ joins_next joining }
{
    matches!(
        joining,
        hb_arabic_joining_type_t::L | hb_arabic_joining_type_t::D
    )
}

pub(crate) fn joins_before(joining: hb_arabic_joining_type_t) -> bool
    ensures { result ≡ joins_before joining }
{
    matches!(
        joining,
        hb_arabic_joining_type_t::R
            | hb_arabic_joining_type_t::D
            | hb_arabic_joining_type_t::GroupAlaph
            | hb_arabic_joining_type_t::GroupDalathRish
    )
}

fn joined_form(before: bool, after: bool) -> u8
    ensures { result ≡ joined_form before after }
{
    match (before, after) {
        (true, true) => MEDI,
        (true, false) => FINA,
        (false, true) => INIT,
        (false, false) => ISOL,
    }
}

fn alaph_form(before: hb_arabic_joining_type_t, is_joined_after: bool) -> u8
    ensures { result ≡ alaph_form before is_joined_after }
{
    if !is_joined_after {
        return final_alaph(before);
    }
    if joins_next(before) { MED2 } else { ISOL }
}

fn final_alaph(before: hb_arabic_joining_type_t) -> u8
    ensures { result ≡ final_alaph before }
{
    match before {
        hb_arabic_joining_type_t::L | hb_arabic_joining_type_t::D => FINA,
        hb_arabic_joining_type_t::R | hb_arabic_joining_type_t::GroupAlaph => FIN2,
        hb_arabic_joining_type_t::GroupDalathRish => FIN3,
        hb_arabic_joining_type_t::U | hb_arabic_joining_type_t::T | hb_arabic_joining_type_t::X =>
            ISOL,
    }
}
