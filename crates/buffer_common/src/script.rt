//! Scripts by their ISO 15924 tags (rustybuzz: hb/common.rs, `Script`).
ghost use Rattle.std.specs.Prelude.{◌≡◌};
ghost use Rattle.buffer_common.specs.Script.{script_of_tag, script_named, alias_in, script_of_text, ScriptsAreNamed, TagsLeadBack};

use crate::tag::{Tag, tag};
use std::str::FromStr;
use thiserror::Error;

/// A script by its ISO 15924 tag, in title case.
#[derive(Clone, Copy, PartialEq, Eq, Debug, Hash)]
pub struct Script(pub Tag);

pub const COMMON: Script = Script(tag!(b"Zyyy"));

pub const INHERITED: Script = Script(tag!(b"Zinh"));

pub const ARABIC: Script = Script(tag!(b"Arab"));

pub const ARMENIAN: Script = Script(tag!(b"Armn"));

pub const BENGALI: Script = Script(tag!(b"Beng"));

pub const CYRILLIC: Script = Script(tag!(b"Cyrl"));

pub const DEVANAGARI: Script = Script(tag!(b"Deva"));

pub const GEORGIAN: Script = Script(tag!(b"Geor"));

pub const GREEK: Script = Script(tag!(b"Grek"));

pub const GUJARATI: Script = Script(tag!(b"Gujr"));

pub const GURMUKHI: Script = Script(tag!(b"Guru"));

pub const HANGUL: Script = Script(tag!(b"Hang"));

pub const HAN: Script = Script(tag!(b"Hani"));

pub const HEBREW: Script = Script(tag!(b"Hebr"));

pub const HIRAGANA: Script = Script(tag!(b"Hira"));

pub const KANNADA: Script = Script(tag!(b"Knda"));

pub const KATAKANA: Script = Script(tag!(b"Kana"));

pub const LAO: Script = Script(tag!(b"Laoo"));

pub const LATIN: Script = Script(tag!(b"Latn"));

pub const MALAYALAM: Script = Script(tag!(b"Mlym"));

pub const ORIYA: Script = Script(tag!(b"Orya"));

pub const TAMIL: Script = Script(tag!(b"Taml"));

pub const TELUGU: Script = Script(tag!(b"Telu"));

pub const THAI: Script = Script(tag!(b"Thai"));

pub const TIBETAN: Script = Script(tag!(b"Tibt"));

pub const BOPOMOFO: Script = Script(tag!(b"Bopo"));

pub const BRAILLE: Script = Script(tag!(b"Brai"));

pub const CANADIAN_SYLLABICS: Script = Script(tag!(b"Cans"));

pub const CHEROKEE: Script = Script(tag!(b"Cher"));

pub const ETHIOPIC: Script = Script(tag!(b"Ethi"));

pub const KHMER: Script = Script(tag!(b"Khmr"));

pub const MONGOLIAN: Script = Script(tag!(b"Mong"));

pub const MYANMAR: Script = Script(tag!(b"Mymr"));

pub const OGHAM: Script = Script(tag!(b"Ogam"));

pub const RUNIC: Script = Script(tag!(b"Runr"));

pub const SINHALA: Script = Script(tag!(b"Sinh"));

pub const SYRIAC: Script = Script(tag!(b"Syrc"));

pub const THAANA: Script = Script(tag!(b"Thaa"));

pub const YI: Script = Script(tag!(b"Yiii"));

pub const DESERET: Script = Script(tag!(b"Dsrt"));

pub const GOTHIC: Script = Script(tag!(b"Goth"));

pub const OLD_ITALIC: Script = Script(tag!(b"Ital"));

pub const BUHID: Script = Script(tag!(b"Buhd"));

pub const HANUNOO: Script = Script(tag!(b"Hano"));

pub const TAGALOG: Script = Script(tag!(b"Tglg"));

pub const TAGBANWA: Script = Script(tag!(b"Tagb"));

pub const CYPRIOT: Script = Script(tag!(b"Cprt"));

pub const LIMBU: Script = Script(tag!(b"Limb"));

pub const LINEAR_B: Script = Script(tag!(b"Linb"));

pub const OSMANYA: Script = Script(tag!(b"Osma"));

pub const SHAVIAN: Script = Script(tag!(b"Shaw"));

pub const TAI_LE: Script = Script(tag!(b"Tale"));

pub const UGARITIC: Script = Script(tag!(b"Ugar"));

pub const BUGINESE: Script = Script(tag!(b"Bugi"));

pub const COPTIC: Script = Script(tag!(b"Copt"));

pub const GLAGOLITIC: Script = Script(tag!(b"Glag"));

pub const KHAROSHTHI: Script = Script(tag!(b"Khar"));

pub const NEW_TAI_LUE: Script = Script(tag!(b"Talu"));

pub const OLD_PERSIAN: Script = Script(tag!(b"Xpeo"));

pub const SYLOTI_NAGRI: Script = Script(tag!(b"Sylo"));

pub const TIFINAGH: Script = Script(tag!(b"Tfng"));

pub const UNKNOWN: Script = Script(tag!(b"Zzzz"));

pub const BALINESE: Script = Script(tag!(b"Bali"));

pub const CUNEIFORM: Script = Script(tag!(b"Xsux"));

pub const NKO: Script = Script(tag!(b"Nkoo"));

pub const PHAGS_PA: Script = Script(tag!(b"Phag"));

pub const PHOENICIAN: Script = Script(tag!(b"Phnx"));

pub const CARIAN: Script = Script(tag!(b"Cari"));

pub const CHAM: Script = Script(tag!(b"Cham"));

pub const KAYAH_LI: Script = Script(tag!(b"Kali"));

pub const LEPCHA: Script = Script(tag!(b"Lepc"));

pub const LYCIAN: Script = Script(tag!(b"Lyci"));

pub const LYDIAN: Script = Script(tag!(b"Lydi"));

pub const OL_CHIKI: Script = Script(tag!(b"Olck"));

pub const REJANG: Script = Script(tag!(b"Rjng"));

pub const SAURASHTRA: Script = Script(tag!(b"Saur"));

pub const SUNDANESE: Script = Script(tag!(b"Sund"));

pub const VAI: Script = Script(tag!(b"Vaii"));

pub const AVESTAN: Script = Script(tag!(b"Avst"));

pub const BAMUM: Script = Script(tag!(b"Bamu"));

pub const EGYPTIAN_HIEROGLYPHS: Script = Script(tag!(b"Egyp"));

pub const IMPERIAL_ARAMAIC: Script = Script(tag!(b"Armi"));

pub const INSCRIPTIONAL_PAHLAVI: Script = Script(tag!(b"Phli"));

pub const INSCRIPTIONAL_PARTHIAN: Script = Script(tag!(b"Prti"));

pub const JAVANESE: Script = Script(tag!(b"Java"));

pub const KAITHI: Script = Script(tag!(b"Kthi"));

pub const LISU: Script = Script(tag!(b"Lisu"));

pub const MEETEI_MAYEK: Script = Script(tag!(b"Mtei"));

pub const OLD_SOUTH_ARABIAN: Script = Script(tag!(b"Sarb"));

pub const OLD_TURKIC: Script = Script(tag!(b"Orkh"));

pub const SAMARITAN: Script = Script(tag!(b"Samr"));

pub const TAI_THAM: Script = Script(tag!(b"Lana"));

pub const TAI_VIET: Script = Script(tag!(b"Tavt"));

pub const BATAK: Script = Script(tag!(b"Batk"));

pub const BRAHMI: Script = Script(tag!(b"Brah"));

pub const MANDAIC: Script = Script(tag!(b"Mand"));

pub const CHAKMA: Script = Script(tag!(b"Cakm"));

pub const MEROITIC_CURSIVE: Script = Script(tag!(b"Merc"));

pub const MEROITIC_HIEROGLYPHS: Script = Script(tag!(b"Mero"));

pub const MIAO: Script = Script(tag!(b"Plrd"));

pub const SHARADA: Script = Script(tag!(b"Shrd"));

pub const SORA_SOMPENG: Script = Script(tag!(b"Sora"));

pub const TAKRI: Script = Script(tag!(b"Takr"));

pub const BASSA_VAH: Script = Script(tag!(b"Bass"));

pub const CAUCASIAN_ALBANIAN: Script = Script(tag!(b"Aghb"));

pub const DUPLOYAN: Script = Script(tag!(b"Dupl"));

pub const ELBASAN: Script = Script(tag!(b"Elba"));

pub const GRANTHA: Script = Script(tag!(b"Gran"));

pub const KHOJKI: Script = Script(tag!(b"Khoj"));

pub const KHUDAWADI: Script = Script(tag!(b"Sind"));

pub const LINEAR_A: Script = Script(tag!(b"Lina"));

pub const MAHAJANI: Script = Script(tag!(b"Mahj"));

pub const MANICHAEAN: Script = Script(tag!(b"Mani"));

pub const MENDE_KIKAKUI: Script = Script(tag!(b"Mend"));

pub const MODI: Script = Script(tag!(b"Modi"));

pub const MRO: Script = Script(tag!(b"Mroo"));

pub const NABATAEAN: Script = Script(tag!(b"Nbat"));

pub const OLD_NORTH_ARABIAN: Script = Script(tag!(b"Narb"));

pub const OLD_PERMIC: Script = Script(tag!(b"Perm"));

pub const PAHAWH_HMONG: Script = Script(tag!(b"Hmng"));

pub const PALMYRENE: Script = Script(tag!(b"Palm"));

pub const PAU_CIN_HAU: Script = Script(tag!(b"Pauc"));

pub const PSALTER_PAHLAVI: Script = Script(tag!(b"Phlp"));

pub const SIDDHAM: Script = Script(tag!(b"Sidd"));

pub const TIRHUTA: Script = Script(tag!(b"Tirh"));

pub const WARANG_CITI: Script = Script(tag!(b"Wara"));

pub const AHOM: Script = Script(tag!(b"Ahom"));

pub const ANATOLIAN_HIEROGLYPHS: Script = Script(tag!(b"Hluw"));

pub const HATRAN: Script = Script(tag!(b"Hatr"));

pub const MULTANI: Script = Script(tag!(b"Mult"));

pub const OLD_HUNGARIAN: Script = Script(tag!(b"Hung"));

pub const SIGNWRITING: Script = Script(tag!(b"Sgnw"));

pub const ADLAM: Script = Script(tag!(b"Adlm"));

pub const BHAIKSUKI: Script = Script(tag!(b"Bhks"));

pub const MARCHEN: Script = Script(tag!(b"Marc"));

pub const OSAGE: Script = Script(tag!(b"Osge"));

pub const TANGUT: Script = Script(tag!(b"Tang"));

pub const NEWA: Script = Script(tag!(b"Newa"));

pub const MASARAM_GONDI: Script = Script(tag!(b"Gonm"));

pub const NUSHU: Script = Script(tag!(b"Nshu"));

pub const SOYOMBO: Script = Script(tag!(b"Soyo"));

pub const ZANABAZAR_SQUARE: Script = Script(tag!(b"Zanb"));

pub const DOGRA: Script = Script(tag!(b"Dogr"));

pub const GUNJALA_GONDI: Script = Script(tag!(b"Gong"));

pub const HANIFI_ROHINGYA: Script = Script(tag!(b"Rohg"));

pub const MAKASAR: Script = Script(tag!(b"Maka"));

pub const MEDEFAIDRIN: Script = Script(tag!(b"Medf"));

pub const OLD_SOGDIAN: Script = Script(tag!(b"Sogo"));

pub const SOGDIAN: Script = Script(tag!(b"Sogd"));

pub const ELYMAIC: Script = Script(tag!(b"Elym"));

pub const NANDINAGARI: Script = Script(tag!(b"Nand"));

pub const NYIAKENG_PUACHUE_HMONG: Script = Script(tag!(b"Hmnp"));

pub const WANCHO: Script = Script(tag!(b"Wcho"));

pub const CHORASMIAN: Script = Script(tag!(b"Chrs"));

pub const DIVES_AKURU: Script = Script(tag!(b"Diak"));

pub const KHITAN_SMALL_SCRIPT: Script = Script(tag!(b"Kits"));

pub const YEZIDI: Script = Script(tag!(b"Yezi"));

pub const CYPRO_MINOAN: Script = Script(tag!(b"Cpmn"));

pub const OLD_UYGHUR: Script = Script(tag!(b"Ougr"));

pub const TANGSA: Script = Script(tag!(b"Tnsa"));

pub const TOTO: Script = Script(tag!(b"Toto"));

pub const VITHKUQI: Script = Script(tag!(b"Vith"));

pub const KAWI: Script = Script(tag!(b"Kawi"));

pub const NAG_MUNDARI: Script = Script(tag!(b"Nagm"));

pub const GARAY: Script = Script(tag!(b"Gara"));

pub const GURUNG_KHEMA: Script = Script(tag!(b"Gukh"));

pub const KIRAT_RAI: Script = Script(tag!(b"Krai"));

pub const OL_ONAL: Script = Script(tag!(b"Onao"));

pub const SUNUWAR: Script = Script(tag!(b"Sunu"));

pub const TODHRI: Script = Script(tag!(b"Todr"));

pub const TULU_TIGALARI: Script = Script(tag!(b"Tutg"));

pub const SCRIPT_MATH: Script = Script(tag!(b"Zmth"));

pub const MYANMAR_ZAWGYI: Script = Script(tag!(b"Qaag"));

/// Tags of ISO 15924 for variants of a script, with the script that Unicode has for them.
const ALIASES: [(Tag, Script); 13] = [
    (tag!(b"Qaai"), INHERITED),
    (tag!(b"Qaac"), COPTIC),
    (tag!(b"Aran"), ARABIC),
    (tag!(b"Cyrs"), CYRILLIC),
    (tag!(b"Geok"), GEORGIAN),
    (tag!(b"Hans"), HAN),
    (tag!(b"Hant"), HAN),
    (tag!(b"Jamo"), HANGUL),
    (tag!(b"Latf"), LATIN),
    (tag!(b"Latg"), LATIN),
    (tag!(b"Syre"), SYRIAC),
    (tag!(b"Syrj"), SYRIAC),
    (tag!(b"Syrn"), SYRIAC),
];

/// The error of a text that is empty or names no script.
#[derive(Clone, Copy, PartialEq, Eq, Debug, Error)]
#[error("invalid script")]
pub struct InvalidScript;

impl Script {
    /// The script of an ISO 15924 tag in any case. A tag that is not four letters gives UNKNOWN, the zero tag none.
    pub fn from_iso15924_tag(tag: Tag) -> Option<Script>
        ensures { result ≡ script_of_tag tag }
    {
        if tag.0 == 0 {
            return None;
        }
        let [first, second, third, fourth] = tag.to_bytes();
        if !(first.is_ascii_alphabetic()
            && second.is_ascii_alphabetic()
            && third.is_ascii_alphabetic()
            && fourth.is_ascii_alphabetic())
        {
            return Some(UNKNOWN);
        }
        Some(named_script(Tag::from_bytes(&[
            first.to_ascii_uppercase(),
            second.to_ascii_lowercase(),
            third.to_ascii_lowercase(),
            fourth.to_ascii_lowercase(),
        ])))
    }

    /// The ISO 15924 tag.
    pub fn tag(&self) -> Tag
        ensures { result ≡ self.now.0 }
    {
        self.0
    }
}

fn named_script(title: Tag) -> Script
    ensures { result ≡ script_named title }
{
    alias_of(&ALIASES, title).unwrap_or(Script(title))
}

fn alias_of(aliases: &[(Tag, Script)], title: Tag) -> Option<Script>
    ensures { result ≡ alias_in aliases.now title }
{
    let alias = aliases.iter().find(|alias| alias.0 == title)?;
    Some(alias.1)
}

impl FromStr for Script {
    ghost use Rattle.std.specs.Prelude.{◌≡◌};
    ghost use Rattle.buffer_common.specs.Script.{script_of_text};

    type Err = InvalidScript;

    ghost from_str_gives = { λ text r. r ≡ script_of_text text };

    fn from_str(text: &str) -> Result<Script, InvalidScript> {
        Script::from_iso15924_tag(Tag::from_bytes_lossy(text.as_bytes())).ok_or(InvalidScript)
    }
}

/// Each constant has the tag that ISO 15924 gives its script.
#[tactic(auto, using(crate::proofs::Tables::scripts_are_named))]
pub fn law_scripts_are_named()
    ensures { ScriptsAreNamed }
{}

/// The tag of each script leads back to it.
#[tactic(auto, using(crate::proofs::Tables::tags_lead_back))]
pub fn law_tags_lead_back()
    ensures { TagsLeadBack }
{}
