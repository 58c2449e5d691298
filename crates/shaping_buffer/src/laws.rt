//! What callers rely on of the layer's plain types: `==` holds exactly between a value and itself, and the numbers of
//! constants that clauses cite by name.
ghost use Rattle.std.specs.Prelude.{◌≡◌, ◌≢◌, MatchBool, [], ◌∷◌};
ghost use Rattle.std.specs.Bool.{Decides};
ghost use Rattle.buffer_common.specs.declared.direction.Direction.TheVariants.{Invalid};
ghost use Rattle.buffer_common.specs.Language.{language_text};

use buffer_common::constants::{
    BufferFlags, HB_BUFFER_SCRATCH_FLAG_HAS_BROKEN_SYLLABLE, HB_BUFFER_SCRATCH_FLAG_HAS_CGJ,
    HB_BUFFER_SCRATCH_FLAG_HAS_DEFAULT_IGNORABLES, HB_BUFFER_SCRATCH_FLAG_HAS_GLYPH_FLAGS,
    HB_BUFFER_SCRATCH_FLAG_HAS_GPOS_ATTACHMENT, HB_BUFFER_SCRATCH_FLAG_HAS_NON_ASCII,
    HB_BUFFER_SCRATCH_FLAG_HAS_SPACE_FALLBACK, hb_buffer_scratch_flags_t,
};
use buffer_common::direction::{Direction, InvalidDirection};
use buffer_common::language::{Language, LanguageFault};
use buffer_common::script::{InvalidScript, Script};
use buffer_common::tag::Tag;
use buffer_glyphs::cause::ShapeCause;
use buffer_glyphs::flags::{GlyphPropsFlags, SerializeFlags, UnicodeProps};
use buffer_glyphs::info::{
    DEFINED, SAFE_TO_INSERT_TATWEEL, UNSAFE_TO_BREAK, UNSAFE_TO_CONCAT, hb_glyph_info_t, hb_mask_t,
};
use buffer_glyphs::level::{
    BufferClusterLevel, HB_BUFFER_CLUSTER_LEVEL_CHARACTERS, HB_BUFFER_CLUSTER_LEVEL_DEFAULT,
    HB_BUFFER_CLUSTER_LEVEL_GRAPHEMES, HB_BUFFER_CLUSTER_LEVEL_MONOTONE_CHARACTERS,
    HB_BUFFER_CLUSTER_LEVEL_MONOTONE_GRAPHEMES, hb_buffer_cluster_level_t,
};
use buffer_glyphs::names::{GlyphId, hb_glyph_extents_t};
use buffer_glyphs::position::GlyphPosition;
use buffer_tags::feature::{Feature, InvalidFeature};
use buffer_unicode::fault::TablesFault;
use buffer_unicode_tables::hangul::{
    L_BASE, L_COUNT, N_COUNT, S_BASE, S_COUNT, T_BASE, T_COUNT, V_BASE, V_COUNT,
};
use buffer_unicode_tables::law_fault::LawFault;

pub fn law_directions_are_equal(left: Direction, right: Direction) -> bool
    ensures { MatchBool result (left ≡ right) (left ≢ right) }
{
    left == right
}

pub fn law_scripts_are_equal(left: Script, right: Script) -> bool
    ensures { MatchBool result (left ≡ right) (left ≢ right) }
{
    left == right
}

pub fn law_tags_are_equal(left: Tag, right: Tag) -> bool
    ensures { MatchBool result (left ≡ right) (left ≢ right) }
{
    left == right
}

pub fn law_features_are_equal(left: Feature, right: Feature) -> bool
    ensures { MatchBool result (left ≡ right) (left ≢ right) }
{
    left == right
}

pub fn law_levels_are_equal(left: BufferClusterLevel, right: BufferClusterLevel) -> bool
    ensures { MatchBool result (left ≡ right) (left ≢ right) }
{
    left == right
}

pub fn law_infos_are_equal(left: &hb_glyph_info_t, right: &hb_glyph_info_t) -> bool
    ensures { MatchBool result (left.now ≡ right.now) (left.now ≢ right.now) }
{
    left == right
}

pub fn law_glyph_ids_are_equal(left: GlyphId, right: GlyphId) -> bool
    ensures { MatchBool result (left ≡ right) (left ≢ right) }
{
    left == right
}

pub fn law_positions_are_equal(left: &GlyphPosition, right: &GlyphPosition) -> bool
    ensures { Decides result (left.now ≡ right.now) }
{
    left == right
}

pub fn law_extents_are_equal(left: &hb_glyph_extents_t, right: &hb_glyph_extents_t) -> bool
    ensures { Decides result (left.now ≡ right.now) }
{
    left == right
}

/// Languages are equal where their tags are.
pub fn law_languages_are_equal(left: &Language, right: &Language) -> bool
    ensures { Decides result (language_text left.now ≡ language_text right.now) }
{
    left == right
}

pub fn law_causes_are_equal(left: ShapeCause, right: ShapeCause) -> bool
    ensures { MatchBool result (left ≡ right) (left ≢ right) }
{
    left == right
}

pub fn law_glyph_properties_are_equal(left: GlyphPropsFlags, right: GlyphPropsFlags) -> bool
    ensures { MatchBool result (left ≡ right) (left ≢ right) }
{
    left == right
}

pub fn law_unicode_properties_are_equal(left: UnicodeProps, right: UnicodeProps) -> bool
    ensures { MatchBool result (left ≡ right) (left ≢ right) }
{
    left == right
}

pub fn law_buffer_flags_are_equal(left: BufferFlags, right: BufferFlags) -> bool
    ensures { MatchBool result (left ≡ right) (left ≢ right) }
{
    left == right
}

pub fn law_serialize_flags_are_equal(left: SerializeFlags, right: SerializeFlags) -> bool
    ensures { MatchBool result (left ≡ right) (left ≢ right) }
{
    left == right
}

pub fn law_table_faults_are_equal(left: TablesFault, right: TablesFault) -> bool
    ensures { MatchBool result (left ≡ right) (left ≢ right) }
{
    left == right
}

pub fn law_law_faults_are_equal(left: LawFault, right: LawFault) -> bool
    ensures { MatchBool result (left ≡ right) (left ≢ right) }
{
    left == right
}

pub fn law_direction_faults_are_equal(left: InvalidDirection, right: InvalidDirection) -> bool
    ensures { MatchBool result (left ≡ right) (left ≢ right) }
{
    left == right
}

pub fn law_script_faults_are_equal(left: InvalidScript, right: InvalidScript) -> bool
    ensures { MatchBool result (left ≡ right) (left ≢ right) }
{
    left == right
}

pub fn law_feature_faults_are_equal(left: InvalidFeature, right: InvalidFeature) -> bool
    ensures { MatchBool result (left ≡ right) (left ≢ right) }
{
    left == right
}

pub fn law_language_faults_are_equal(left: LanguageFault, right: LanguageFault) -> bool
    ensures { MatchBool result (left ≡ right) (left ≢ right) }
{
    left == right
}

/// The direction where none was set.
pub fn default_direction() -> Direction
    ensures { result ≡ Invalid }
{
    Direction::default()
}

/// The bases and counts of Hangul syllables (The Unicode Standard, section 3.12).
pub fn hangul_numbers() -> [u32; 9]
    ensures { result ≡ 0xAC00 ∷ 0x1100 ∷ 0x1161 ∷ 0x11A7 ∷ 19 ∷ 21 ∷ 28 ∷ 588 ∷ 11172 ∷ [] }
{
    [
        S_BASE, L_BASE, V_BASE, T_BASE, L_COUNT, V_COUNT, T_COUNT, N_COUNT, S_COUNT,
    ]
}

/// The levels of clusters: monotone graphemes, monotone characters, characters, graphemes, and the default.
pub fn cluster_level_numbers() -> [hb_buffer_cluster_level_t; 5]
    ensures { result ≡ 0 ∷ 1 ∷ 2 ∷ 3 ∷ 0 ∷ [] }
{
    [
        HB_BUFFER_CLUSTER_LEVEL_MONOTONE_GRAPHEMES,
        HB_BUFFER_CLUSTER_LEVEL_MONOTONE_CHARACTERS,
        HB_BUFFER_CLUSTER_LEVEL_CHARACTERS,
        HB_BUFFER_CLUSTER_LEVEL_GRAPHEMES,
        HB_BUFFER_CLUSTER_LEVEL_DEFAULT,
    ]
}

/// The three glyph flags, and all of them.
pub fn glyph_flag_numbers() -> [hb_mask_t; 4]
    ensures { result ≡ 1 ∷ 2 ∷ 4 ∷ 7 ∷ [] }
{
    [
        UNSAFE_TO_BREAK,
        UNSAFE_TO_CONCAT,
        SAFE_TO_INSERT_TATWEEL,
        DEFINED,
    ]
}

/// The scratch flags of a text: characters outside ASCII, ignorables, spaces without a glyph, attached glyphs, a
/// combining grapheme joiner, glyph flags, broken syllables.
pub fn scratch_flag_numbers() -> [hb_buffer_scratch_flags_t; 7]
    ensures { result ≡ 1 ∷ 2 ∷ 4 ∷ 8 ∷ 16 ∷ 32 ∷ 64 ∷ [] }
{
    [
        HB_BUFFER_SCRATCH_FLAG_HAS_NON_ASCII,
        HB_BUFFER_SCRATCH_FLAG_HAS_DEFAULT_IGNORABLES,
        HB_BUFFER_SCRATCH_FLAG_HAS_SPACE_FALLBACK,
        HB_BUFFER_SCRATCH_FLAG_HAS_GPOS_ATTACHMENT,
        HB_BUFFER_SCRATCH_FLAG_HAS_CGJ,
        HB_BUFFER_SCRATCH_FLAG_HAS_GLYPH_FLAGS,
        HB_BUFFER_SCRATCH_FLAG_HAS_BROKEN_SYLLABLE,
    ]
}
