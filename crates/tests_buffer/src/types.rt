//! The numbers of flags, levels and bit sets, glyph records, and the names of causes.
//!
//! Other lists of numbered names have the same form; each has its own type.
use bitflags::Flags;
use buffer_glyphs::cause::ShapeCause;
use buffer_glyphs::flags::{GlyphPropsFlags, SerializeFlags, UnicodeProps};
use buffer_glyphs::info::*;
use buffer_glyphs::level::*;
use buffer_glyphs::names::GlyphId;
use buffer_glyphs::position::GlyphPosition;
use std::alloc::{AllocError, AllocFailed};
use std::test::Fail;

/// Numbers of flags and levels: the actual and the expected one.
static NUMBERS: [(u32, u32); 9] = [
    (UNSAFE_TO_BREAK, 1),
    (UNSAFE_TO_CONCAT, 2),
    (SAFE_TO_INSERT_TATWEEL, 4),
    (DEFINED, 7),
    (HB_BUFFER_CLUSTER_LEVEL_MONOTONE_GRAPHEMES, 0),
    (HB_BUFFER_CLUSTER_LEVEL_MONOTONE_CHARACTERS, 1),
    (HB_BUFFER_CLUSTER_LEVEL_CHARACTERS, 2),
    (HB_BUFFER_CLUSTER_LEVEL_GRAPHEMES, 3),
    (HB_BUFFER_CLUSTER_LEVEL_DEFAULT, 0),
];

static LEVELS: [(BufferClusterLevel, u32); 4] = [
    (BufferClusterLevel::MonotoneGraphemes, 0),
    (BufferClusterLevel::MonotoneCharacters, 1),
    (BufferClusterLevel::Characters, 2),
    (BufferClusterLevel::Graphemes, 3),
];

static GLYPH_PROPS: [(GlyphPropsFlags, u16); 7] = [
    (GlyphPropsFlags::BASE_GLYPH, 2),
    (GlyphPropsFlags::LIGATURE, 4),
    (GlyphPropsFlags::MARK, 8),
    (GlyphPropsFlags::SUBSTITUTED, 16),
    (GlyphPropsFlags::LIGATED, 32),
    (GlyphPropsFlags::MULTIPLIED, 64),
    (GlyphPropsFlags::PRESERVE, 112),
];

static CHARACTER_PROPS: [(UnicodeProps, u16); 7] = [
    (UnicodeProps::GENERAL_CATEGORY, 0x1F),
    (UnicodeProps::IGNORABLE, 0x20),
    (UnicodeProps::HIDDEN, 0x40),
    (UnicodeProps::CONTINUATION, 0x80),
    (UnicodeProps::CF_ZWJ, 0x100),
    (UnicodeProps::CF_ZWNJ, 0x200),
    (UnicodeProps::CF_VS, 0x400),
];

static PRINTED: [(SerializeFlags, u8); 7] = [
    (SerializeFlags::DEFAULT, 0),
    (SerializeFlags::NO_CLUSTERS, 1),
    (SerializeFlags::NO_POSITIONS, 2),
    (SerializeFlags::NO_GLYPH_NAMES, 4),
    (SerializeFlags::GLYPH_EXTENTS, 8),
    (SerializeFlags::GLYPH_FLAGS, 16),
    (SerializeFlags::NO_ADVANCES, 32),
];

static CAUSES: [(ShapeCause, &str); 4] = [
    (ShapeCause::OutOfMemory, "S1 OutOfMemory"),
    (ShapeCause::TooLong, "S2 TooLong"),
    (ShapeCause::StretchRange, "S3 StretchRange"),
    (ShapeCause::UnknownSyllableKind, "S4 UnknownSyllableKind"),
];

#[test]
fn have_their_numbers(rt: HostRuntime) {
    for (found, number) in &NUMBERS {
        assert_eq!(rt; *found, *number);
    }
    for (level, number) in &LEVELS {
        assert_eq!(rt; *level as u32, *number);
    }
    for (props, number) in &GLYPH_PROPS {
        assert_eq!(rt; props.bits(), *number);
    }
    for (props, number) in &CHARACTER_PROPS {
        assert_eq!(rt; props.bits(), *number);
    }
    for (flags, number) in &PRINTED {
        assert_eq!(rt; flags.bits(), *number);
    }
    let all = (
        GlyphPropsFlags::all().bits(),
        UnicodeProps::all().bits(),
        SerializeFlags::all().bits(),
    );
    assert_eq!(rt; all, (126, 0x7FF, 63));
    assert_eq!(rt;
        BufferClusterLevel::default(),
        BufferClusterLevel::MonotoneGraphemes
    );
}

#[test]
fn show_glyphs(rt: HostRuntime) {
    let glyph = hb_glyph_info_t {
        glyph_id: 97,
        mask: 5,
        ..hb_glyph_info_t::default()
    };
    assert!(rt; glyph.unsafe_to_break() && !hb_glyph_info_t::default().unsafe_to_break());
    assert_eq!(rt; glyph.as_char(), 'a');
    assert_eq!(rt; glyph.as_glyph(), GlyphId(97));
    let zeros = GlyphPosition {
        x_advance: 0,
        y_advance: 0,
        x_offset: 0,
        y_offset: 0,
        attach_chain: 0,
        attach_type: 0,
    };
    assert!(rt; GlyphPosition::default() == zeros);
}

#[test]
fn name_causes(rt: HostRuntime) -> Result<(), Fail> {
    for (cause, want) in &CAUSES {
        assert_eq!(rt; format!(in rt.alloc(); "{cause}")?.as_str(), *want);
    }
    assert_eq!(rt; ShapeCause::from(AllocError), ShapeCause::OutOfMemory);
    assert_eq!(rt;
        ShapeCause::from(AllocFailed { value: 0u8 }),
        ShapeCause::OutOfMemory
    );
    Ok(())
}
