//! Texts, their guessed settings, and printed glyphs.
ghost use Rattle.std.specs.Prelude.{None};

use crate::parts::part;
use buffer_common::constants::BufferFlags;
use buffer_common::direction::Direction;
use buffer_common::language::Language;
use buffer_common::script::Script;
use buffer_core::buffer::hb_buffer_t;
use buffer_glyphs::flags::SerializeFlags;
use buffer_glyphs::info::hb_glyph_info_t;
use buffer_glyphs::level::BufferClusterLevel;
use buffer_glyphs::names::{GlyphId, GlyphNames, hb_glyph_extents_t};
use buffer_glyphs::position::GlyphPosition;
use buffer_wrappers::glyphs::GlyphBuffer;
use buffer_wrappers::unicode_buffer::UnicodeBuffer;
use std::alloc::{AllocError, Global};
use std::test::Fail;

/// A font without glyph names and extents.
struct NoNames;

impl GlyphNames for NoNames {
    ghost name_of = { λ _ _. None };

    ghost extents_of = { λ _ _. None };

    fn glyph_name(&self, _glyph: GlyphId) -> Option<&str> {
        None
    }

    fn glyph_extents(&self, _glyph: GlyphId) -> Option<hb_glyph_extents_t> {
        None
    }
}

/// The glyphs are these characters in these clusters, with all other fields zero.
fn are(glyphs: &[hb_glyph_info_t], want: &[(char, u32)]) -> bool {
    let wanted = want.iter().map(|(character, cluster)| hb_glyph_info_t {
        glyph_id: *character as u32,
        cluster: *cluster,
        ..hb_glyph_info_t::default()
    });
    glyphs.iter().copied().eq(wanted)
}

fn adds(alloc: Global, text: &str, want: &[(char, u32)]) -> Result<bool, AllocError> {
    let mut buffer = UnicodeBuffer::new(alloc);
    let added = buffer.push_str(text)? && buffer.len() == want.len();
    let buffer = UnicodeBuffer::from_buffer(buffer.into_buffer()).into_buffer();
    Ok(added && buffer.pos_slice().len() == want.len() && are(buffer.info_slice(), want))
}

#[test]
fn numbers_characters_by_bytes(rt: HostRuntime) -> Result<(), Fail> {
    let rows: [(&str, &[(char, u32)]); 4] = [
        ("", &[]),
        ("aé€", &[('a', 0), ('é', 1), ('€', 3)]),
        ("€😀b", &[('€', 0), ('😀', 3), ('b', 7)]),
        ("e\u{301}", &[('e', 0), ('\u{301}', 1)]),
    ];
    for (text, want) in rows {
        assert!(rt; adds(rt.alloc(), text, want)?, "{text}");
    }
    Ok(())
}

// The text, the direction and the script that are set, the direction and the script that are guessed.
static GUESSES: &str = "12 я;;;l;Cyrl
אב;;;r;Hebr
\u{301}ب;;;r;Arab
12;;;l;Zzzz
;;;l;Zzzz
ᚠ;;;l;Runr
漢;t;;t;Hani
אב;l;;l;Hebr
12 я;;Hebr;r;Hebr";

fn guesses(alloc: Global, row: &str) -> Result<bool, AllocError> {
    let mut buffer = UnicodeBuffer::new(alloc);
    buffer.push_str(part(row, 0))?;
    buffer.set_direction(part(row, 1).parse().unwrap_or(Direction::Invalid));
    if let Ok(script) = part(row, 2).parse::<Script>() {
        buffer.set_script(script);
    }
    buffer.guess_segment_properties();
    Ok(
        part(row, 3).parse() == Ok(buffer.direction())
            && part(row, 4).parse() == Ok(buffer.script()),
    )
}

#[test]
fn guesses_what_was_not_set(rt: HostRuntime) -> Result<(), Fail> {
    for row in GUESSES.lines() {
        let as_wanted = guesses(rt.alloc(), row)?;
        assert!(rt; as_wanted, "{row}");
    }
    Ok(())
}

fn set_advances(positions: &mut [GlyphPosition], advances: &[i32]) {
    for (position, advance) in positions.iter_mut().zip(advances) {
        position.x_advance = *advance;
    }
}

/// The glyphs 1 and 2, in the clusters 0 and 1, with such advances.
fn two_glyphs(alloc: Global, advances: &[i32], turned: bool) -> Result<GlyphBuffer, AllocError> {
    let mut text = UnicodeBuffer::new(alloc);
    text.push_str("\u{1}\u{2}")?;
    let mut buffer = text.into_buffer();
    set_advances(buffer.pos_slice_mut(), advances);
    if turned {
        buffer.reverse();
    }
    Ok(GlyphBuffer::from_buffer(buffer))
}

#[test]
fn prints_glyphs_as_they_stand(rt: HostRuntime) -> Result<(), Fail> {
    for (turned, want) in [(false, "1=0+500|2=1+600"), (true, "2=1+600|1=0+500")] {
        let glyphs = two_glyphs(rt.alloc(), &[500, 600], turned)?;
        let text = glyphs.serialize(rt.alloc(), &NoNames, SerializeFlags::NO_GLYPH_NAMES)?;
        assert_eq!(rt; text.as_str(), want);
        assert!(rt; glyphs.clear().is_empty());
    }
    Ok(())
}

fn set_fields(text: &mut UnicodeBuffer) {
    text.set_flags(BufferFlags::BEGINNING_OF_TEXT);
    text.set_cluster_level(BufferClusterLevel::Characters);
    text.set_invisible_glyph(GlyphId(3));
    text.set_not_found_variation_selector_glyph(GlyphId(4));
    text.set_not_found_glyph(GlyphId(5));
    text.set_pre_context("ab");
    text.set_post_context("cd");
    text.reset_clusters();
}

fn shows_fields(text: &UnicodeBuffer) -> bool {
    text.flags() == BufferFlags::BEGINNING_OF_TEXT
        && text.cluster_level() == BufferClusterLevel::Characters
}

fn has_kept(buffer: &hb_buffer_t) -> bool {
    buffer.invisible() == Some(GlyphId(3))
        && buffer.not_found_variation_selector() == Some(GlyphId(4))
        && buffer.not_found() == GlyphId(5)
        && buffer.pre_context() == ['b', 'a'].as_slice()
        && buffer.post_context() == ['c', 'd'].as_slice()
}

fn keeps_fields(alloc: Global) -> bool {
    let mut text = UnicodeBuffer::new(alloc);
    set_fields(&mut text);
    shows_fields(&text) && has_kept(&text.into_buffer())
}

#[test]
fn keeps_what_was_set(rt: HostRuntime) {
    assert!(rt; keeps_fields(rt.alloc()));
}

fn is_turkish(language: Option<&Language>) -> bool {
    match language {
        Some(language) => language.as_str() == "tr",
        None => false,
    }
}

fn keeps_language(alloc: Global, language: Language) -> bool {
    let mut text = UnicodeBuffer::new(alloc);
    let had_none = text.language().is_none();
    text.set_language(language);
    let is_kept = is_turkish(text.language());
    text.clear();
    had_none && is_kept && text.language().is_none()
}

#[test]
fn knows_its_language(rt: HostRuntime) -> Result<(), Fail> {
    let language = Language::from_str(rt.alloc(), "TR")?;
    assert!(rt; keeps_language(rt.alloc(), language));
    Ok(())
}
