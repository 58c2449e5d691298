//! The choice of a shaper for a script, hb_ot_shape_complex_categorize (rustybuzz: hb/ot_shaper.rs).
ghost use Rattle.std.specs.Prelude.{◌≡◌};
ghost use Rattle.script_dispatch.specs.Dispatch.{script_shaper, ends_in_three, indic_shaper, is_default_or_latin, connects_letters, myanmar_shaper, own_shaper, universal_shaper};

use crate::any_shaper::{DEFAULT_SHAPER, hb_ot_any_shaper_t};
use buffer_common::direction::Direction;
use buffer_common::script::*;
use buffer_common::tag::Tag;
use script_categories::hb_ot_script_shaper_t::{
    ARABIC_SHAPER, HANGUL_SHAPER, HEBREW_SHAPER, INDIC_SHAPER, KHMER_SHAPER, MYANMAR_SHAPER,
    MYANMAR_ZAWGYI_SHAPER, THAI_SHAPER, UNIVERSAL_SHAPER,
};

const INDIC: [Script; 9] = [
    BENGALI, DEVANAGARI, GUJARATI, GURMUKHI, KANNADA, MALAYALAM, ORIYA, TAMIL, TELUGU,
];

/// The scripts of the universal shaper.
const UNIVERSAL: [Script; 84] = [
    TIBETAN,
    MONGOLIAN,
    SINHALA,
    BUHID,
    HANUNOO,
    TAGALOG,
    TAGBANWA,
    LIMBU,
    TAI_LE,
    BUGINESE,
    KHAROSHTHI,
    SYLOTI_NAGRI,
    TIFINAGH,
    BALINESE,
    NKO,
    PHAGS_PA,
    CHAM,
    KAYAH_LI,
    LEPCHA,
    REJANG,
    SAURASHTRA,
    SUNDANESE,
    EGYPTIAN_HIEROGLYPHS,
    JAVANESE,
    KAITHI,
    MEETEI_MAYEK,
    TAI_THAM,
    TAI_VIET,
    BATAK,
    BRAHMI,
    MANDAIC,
    CHAKMA,
    MIAO,
    SHARADA,
    TAKRI,
    DUPLOYAN,
    GRANTHA,
    KHOJKI,
    KHUDAWADI,
    MAHAJANI,
    MANICHAEAN,
    MODI,
    PAHAWH_HMONG,
    PSALTER_PAHLAVI,
    SIDDHAM,
    TIRHUTA,
    AHOM,
    MULTANI,
    ADLAM,
    BHAIKSUKI,
    MARCHEN,
    NEWA,
    MASARAM_GONDI,
    SOYOMBO,
    ZANABAZAR_SQUARE,
    DOGRA,
    GUNJALA_GONDI,
    HANIFI_ROHINGYA,
    MAKASAR,
    MEDEFAIDRIN,
    OLD_SOGDIAN,
    SOGDIAN,
    ELYMAIC,
    NANDINAGARI,
    NYIAKENG_PUACHUE_HMONG,
    WANCHO,
    CHORASMIAN,
    DIVES_AKURU,
    KHITAN_SMALL_SCRIPT,
    YEZIDI,
    CYPRO_MINOAN,
    OLD_UYGHUR,
    TANGSA,
    TOTO,
    VITHKUQI,
    KAWI,
    NAG_MUNDARI,
    GARAY,
    GURUNG_KHEMA,
    KIRAT_RAI,
    OL_ONAL,
    SUNUWAR,
    TODHRI,
    TULU_TIGALARI,
];

/// The shaper of a text by its script, its direction, and the GSUB script `chosen_script`.
pub fn hb_ot_shape_complex_categorize(
    script: Script,
    direction: Direction,
    gsub_script: Option<Tag>,
) -> hb_ot_any_shaper_t
    ensures { result ≡ script_shaper script direction gsub_script }
{
    if connects_letters(script, direction, gsub_script) {
        hb_ot_any_shaper_t::Script(ARABIC_SHAPER)
    } else if INDIC.contains(&script) {
        indic_shaper(gsub_script)
    } else if script == MYANMAR {
        myanmar_shaper(gsub_script)
    } else if UNIVERSAL.contains(&script) {
        universal_shaper(gsub_script)
    } else {
        own_shaper(script)
    }
}

fn is_default_or_latin(tag: Option<Tag>) -> bool
    ensures { result ≡ is_default_or_latin tag }
{
    tag == Some(Tag::from_bytes(b"DFLT")) || tag == Some(Tag::from_bytes(b"latn"))
}

/// The character 3, as the last byte of a tag.
const DIGIT_THREE: u32 = 0x33;

/// Whether the font's script tag ends in 3, which the universal shaper takes.
fn ends_in_three(tag: Option<Tag>) -> bool
    ensures { result ≡ ends_in_three tag }
{
    match tag {
        Some(tag) => tag.0 % 256 == DIGIT_THREE,
        None => false,
    }
}

fn connects_letters(script: Script, direction: Direction, tag: Option<Tag>) -> bool
    ensures { result ≡ connects_letters script direction tag }
{
    direction.is_horizontal()
        && (script == ARABIC || script == SYRIAC && tag != Some(Tag::from_bytes(b"DFLT")))
}

fn indic_shaper(tag: Option<Tag>) -> hb_ot_any_shaper_t
    ensures { result ≡ indic_shaper tag }
{
    if is_default_or_latin(tag) {
        DEFAULT_SHAPER
    } else if ends_in_three(tag) {
        hb_ot_any_shaper_t::Script(UNIVERSAL_SHAPER)
    } else {
        hb_ot_any_shaper_t::Script(INDIC_SHAPER)
    }
}

fn myanmar_shaper(tag: Option<Tag>) -> hb_ot_any_shaper_t
    ensures { result ≡ myanmar_shaper tag }
{
    if is_default_or_latin(tag) || tag == Some(Tag::from_bytes(b"mymr")) {
        DEFAULT_SHAPER
    } else {
        hb_ot_any_shaper_t::Script(MYANMAR_SHAPER)
    }
}

fn universal_shaper(tag: Option<Tag>) -> hb_ot_any_shaper_t
    ensures { result ≡ universal_shaper tag }
{
    if is_default_or_latin(tag) {
        DEFAULT_SHAPER
    } else {
        hb_ot_any_shaper_t::Script(UNIVERSAL_SHAPER)
    }
}

/// The shaper of a script whose choice doesn't depend on the font.
fn own_shaper(script: Script) -> hb_ot_any_shaper_t
    ensures { result ≡ own_shaper script }
{
    if script == THAI || script == LAO {
        hb_ot_any_shaper_t::Script(THAI_SHAPER)
    } else if script == HANGUL {
        hb_ot_any_shaper_t::Script(HANGUL_SHAPER)
    } else if script == HEBREW {
        hb_ot_any_shaper_t::Script(HEBREW_SHAPER)
    } else if script == KHMER {
        hb_ot_any_shaper_t::Script(KHMER_SHAPER)
    } else if script == MYANMAR_ZAWGYI {
        hb_ot_any_shaper_t::Script(MYANMAR_ZAWGYI_SHAPER)
    } else {
        DEFAULT_SHAPER
    }
}
