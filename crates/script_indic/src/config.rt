//! What the scripts of the Indic shaper differ in (rustybuzz: hb/ot_shaper_indic.rs, `IndicConfig`).
ghost use Rattle.std.specs.Prelude.{◌≡◌};
ghost use Rattle.script_indic.specs.Config.{config_rows, default_config, indic_config, row_of};

use buffer_common::script::{
    BENGALI, DEVANAGARI, GUJARATI, GURMUKHI, KANNADA, MALAYALAM, ORIYA, Script, TAMIL, TELUGU,
};
use script_categories::ot_position_t::{
    POS_AFTER_MAIN, POS_AFTER_POST, POS_AFTER_SUB, POS_BEFORE_POST, POS_BEFORE_SUB, Position,
};
use script_indic_reordering::script::RephMode;

/// On which side of the base the feature blwf forms consonants.
#[derive(Clone, Copy)]
pub enum BlwfMode {
    /// Before the base and after it.
    PreAndPost,
    /// Only after it.
    PostOnly,
}

/// What a script differs in.
#[derive(Clone, Copy)]
pub struct IndicConfig {
    /// The script's virama.
    pub virama: Option<char>,
    /// The position that a reph moves to.
    pub reph_pos: Position,
    /// How a reph is encoded.
    pub reph_mode: RephMode,
    /// Where blwf forms consonants.
    pub blwf_mode: BlwfMode,
    /// Whether consonants are tested for forms by rules without context alone.
    pub zero_context: bool,
}

/// The values of a script that is none of the nine.
const DEFAULT_CONFIG: IndicConfig = IndicConfig {
    virama: None,
    reph_pos: POS_BEFORE_POST,
    reph_mode: RephMode::Implicit,
    blwf_mode: BlwfMode::PreAndPost,
    zero_context: true,
};

const CONFIGS: [(Script, IndicConfig); 9] = [
    (
        DEVANAGARI,
        IndicConfig {
            virama: Some('\u{094D}'),
            reph_pos: POS_BEFORE_POST,
            reph_mode: RephMode::Implicit,
            blwf_mode: BlwfMode::PreAndPost,
            zero_context: true,
        },
    ),
    (
        BENGALI,
        IndicConfig {
            virama: Some('\u{09CD}'),
            reph_pos: POS_AFTER_SUB,
            reph_mode: RephMode::Implicit,
            blwf_mode: BlwfMode::PreAndPost,
            zero_context: true,
        },
    ),
    (
        GURMUKHI,
        IndicConfig {
            virama: Some('\u{0A4D}'),
            reph_pos: POS_BEFORE_SUB,
            reph_mode: RephMode::Implicit,
            blwf_mode: BlwfMode::PreAndPost,
            zero_context: true,
        },
    ),
    (
        GUJARATI,
        IndicConfig {
            virama: Some('\u{0ACD}'),
            reph_pos: POS_BEFORE_POST,
            reph_mode: RephMode::Implicit,
            blwf_mode: BlwfMode::PreAndPost,
            zero_context: true,
        },
    ),
    (
        ORIYA,
        IndicConfig {
            virama: Some('\u{0B4D}'),
            reph_pos: POS_AFTER_MAIN,
            reph_mode: RephMode::Implicit,
            blwf_mode: BlwfMode::PreAndPost,
            zero_context: true,
        },
    ),
    (
        TAMIL,
        IndicConfig {
            virama: Some('\u{0BCD}'),
            reph_pos: POS_AFTER_POST,
            reph_mode: RephMode::Implicit,
            blwf_mode: BlwfMode::PreAndPost,
            zero_context: true,
        },
    ),
    (
        TELUGU,
        IndicConfig {
            virama: Some('\u{0C4D}'),
            reph_pos: POS_AFTER_POST,
            reph_mode: RephMode::Explicit,
            blwf_mode: BlwfMode::PostOnly,
            zero_context: true,
        },
    ),
    (
        KANNADA,
        IndicConfig {
            virama: Some('\u{0CCD}'),
            reph_pos: POS_AFTER_POST,
            reph_mode: RephMode::Implicit,
            blwf_mode: BlwfMode::PostOnly,
            zero_context: true,
        },
    ),
    (
        MALAYALAM,
        IndicConfig {
            virama: Some('\u{0D4D}'),
            reph_pos: POS_AFTER_MAIN,
            reph_mode: RephMode::Logical,
            blwf_mode: BlwfMode::PreAndPost,
            zero_context: false,
        },
    ),
];

fn row_of(rows: &[(Script, IndicConfig)], script: Script) -> Option<IndicConfig>
    ensures { result ≡ row_of rows.now script }
{
    let row = rows.iter().find(|row| row.0 == script)?;
    Some(row.1)
}

/// What a script differs in; a script that is none of the nine has the default values.
pub fn indic_config(script: Option<Script>) -> IndicConfig
    ensures { result ≡ indic_config script }
{
    let Some(script) = script else {
        return DEFAULT_CONFIG;
    };
    row_of(&CONFIGS, script).unwrap_or(DEFAULT_CONFIG)
}
