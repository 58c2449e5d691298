//! What a client sets in a font changes positions, and what is refused changes nothing.
use super::files::FILE;
use super::{FONT, answered, close, is_shaped, text_of};
use crate::calls::{
    kus_font_create, kus_font_create_from_bytes_alone, kus_font_destroy, kus_font_reference,
};
use crate::queries::kus_font_get_line_metrics;
use crate::settings::{
    kus_font_set_advances, kus_font_set_glyphs, kus_font_set_invisible_glyph,
    kus_font_set_not_found_glyph, kus_font_set_scale,
};
use c_text::handle::Handle;
use c_text::types::{kus_character_glyph_t, kus_glyph_advance_t, kus_line_metrics_t};
use std::alloc::{AllocError, Global};
use std::test::Fail;

fn given(glyph: u32, advance: u32) -> kus_glyph_advance_t {
    kus_glyph_advance_t { glyph, advance }
}

/// A font of its own takes advances, the last one of a glyph; one that is shared takes none.
fn advances_are_set(
    alloc: Global,
    font: &mut Handle,
    other: &mut Handle,
) -> Result<bool, AllocError> {
    let no_font = kus_font_set_advances(alloc, font, &[]);
    let created = kus_font_create(alloc, font, b"{}", FONT.as_bytes());
    let unknown = [given(1, 700), given(99, 1), given(2, 65536)];
    let no_glyph = kus_font_set_advances(alloc, font, &unknown);
    let wide = kus_font_set_advances(alloc, font, &[given(1, 700), given(2, 65536)]);
    let own = [(1, 0, 500), (2, 1, 600)];
    let before = is_shaped(alloc, font, &text_of(b"ab", 0, &[]), 0, &own);
    let list = [given(1, 700), given(7, 65535), given(1, 900)];
    let set = kus_font_set_advances(alloc, font, &list);
    let theirs = [(1, 0, 900), (2, 1, 600), (7, 2, 65535)];
    let after = is_shaped(alloc, font, &text_of(b"abfi", 0, &[]), 0, &theirs);
    let referenced = kus_font_reference(alloc, font, other);
    let shared = kus_font_set_advances(alloc, font, &[given(1, 1)]);
    let both = is_shaped(alloc, other, &text_of(b"abfi", 0, &[]), 0, &theirs);
    Ok(
        no_font == 16
            && answered(created)? == 0
            && (no_glyph, wide) == (27, 28)
            && before?
            && answered(set)? == 0
            && after?
            && answered(referenced)? == 0
            && shared == 26
            && both?,
    )
}

#[test]
fn clients_set_advances(rt: HostRuntime) -> Result<(), Fail> {
    let (mut font, mut other) = (Handle::empty(rt.alloc()), Handle::empty(rt.alloc()));
    let holds = advances_are_set(rt.alloc(), &mut font, &mut other);
    close(font);
    close(other);
    assert!(rt; holds?);
    Ok(())
}

fn mapped(character: u32, selector: u32, glyph: u32) -> kus_character_glyph_t {
    kus_character_glyph_t {
        character,
        selector,
        glyph,
    }
}

/// A list with a surrogate, and one with a number that no glyph has, change nothing.
fn maps_are_refused(alloc: Global, font: &mut Handle) -> Result<bool, AllocError> {
    let surrogate = kus_font_set_glyphs(
        alloc,
        font,
        &[mapped(0x61, 0, 2), mapped(0x62, 0xD800, 65536)],
    );
    let wide = kus_font_set_glyphs(alloc, font, &[mapped(0x61, 0, 2), mapped(0x62, 0, 65536)]);
    let own = [(1, 0, 500), (2, 1, 600)];
    let kept = is_shaped(alloc, font, &text_of(b"ab", 0, &[]), 0, &own)?;
    Ok(kept && (surrogate, wide) == (29, 27))
}

/// a has glyph 4, c glyph 1, b before the first variation selector glyph 7, and then a has none.
fn maps_are_set(alloc: Global, font: &mut Handle, other: &mut Handle) -> Result<bool, AllocError> {
    let list = [
        mapped(0x61, 0, 2),
        mapped(0x63, 0, 1),
        mapped(0x62, 0xFE00, 7),
        mapped(0x61, 0, 4),
    ];
    let set = answered(kus_font_set_glyphs(alloc, font, &list))?;
    let theirs = [(4, 0, 250), (1, 1, 500), (7, 2, 520)];
    let text = text_of(b"acb\xEF\xB8\x80", 0, &[]);
    let after = is_shaped(alloc, font, &text, 0, &theirs)?;
    let referenced = answered(kus_font_reference(alloc, font, other))?;
    let removed = [mapped(0x61, 0, 0xFFFF_FFFF)];
    let shared = kus_font_set_glyphs(alloc, font, &removed);
    let both = is_shaped(alloc, other, &text, 0, &theirs)?;
    kus_font_destroy(alloc, other);
    let own = answered(kus_font_set_glyphs(alloc, font, &removed))?;
    let none = is_shaped(alloc, font, &text_of(b"a", 0, &[]), 0, &[(0, 0, 0)])?;
    Ok((set, referenced, shared, own) == (0, 0, 26, 0) && after && both && none)
}

fn characters_are_set(
    alloc: Global,
    font: &mut Handle,
    other: &mut Handle,
) -> Result<bool, AllocError> {
    let no_font = kus_font_set_glyphs(alloc, font, &[]);
    let created = answered(kus_font_create(alloc, font, b"{}", FONT.as_bytes()))?;
    Ok(
        no_font == 16
            && created == 0
            && maps_are_refused(alloc, font)?
            && maps_are_set(alloc, font, other)?,
    )
}

#[test]
fn clients_set_characters(rt: HostRuntime) -> Result<(), Fail> {
    let (mut font, mut other) = (Handle::empty(rt.alloc()), Handle::empty(rt.alloc()));
    let holds = characters_are_set(rt.alloc(), &mut font, &mut other);
    close(font);
    close(other);
    assert!(rt; holds?);
    Ok(())
}

/// A zero width space is a default ignorable, and the font has no z: they have glyphs 5 and 6, also in another handle.
fn replacements_are_set(
    alloc: Global,
    font: &mut Handle,
    other: &mut Handle,
) -> Result<bool, AllocError> {
    let no_font = kus_font_set_invisible_glyph(alloc, font, 5);
    let none = kus_font_set_not_found_glyph(alloc, font, 6);
    let created = answered(kus_font_create(alloc, font, b"{}", FONT.as_bytes()))?;
    let invisible = kus_font_set_invisible_glyph(alloc, font, 5);
    let not_found = kus_font_set_not_found_glyph(alloc, font, 6);
    let wide = kus_font_set_invisible_glyph(alloc, font, 65536);
    let wider = kus_font_set_not_found_glyph(alloc, font, 0xFFFF_FFFF);
    let text = text_of(b"a\xE2\x80\x8Bz", 0, &[]);
    let theirs = [(1, 0, 500), (5, 1, 0), (6, 4, 0)];
    let shaped = is_shaped(alloc, font, &text, 0, &theirs)?;
    let referenced = answered(kus_font_reference(alloc, font, other))?;
    let reset = kus_font_set_not_found_glyph(alloc, font, 0);
    let both = is_shaped(alloc, other, &text, 0, &theirs)?;
    let own = is_shaped(alloc, font, &text, 0, &[(1, 0, 500), (5, 1, 0), (0, 4, 0)])?;
    Ok(
        (no_font, none, created, invisible, not_found) == (16, 16, 0, 0, 0)
            && (wide, wider, referenced, reset) == (27, 27, 0, 0)
            && shaped
            && both
            && own,
    )
}

#[test]
fn clients_set_replacements(rt: HostRuntime) -> Result<(), Fail> {
    let (mut font, mut other) = (Handle::empty(rt.alloc()), Handle::empty(rt.alloc()));
    let holds = replacements_are_set(rt.alloc(), &mut font, &mut other);
    close(font);
    close(other);
    assert!(rt; holds?);
    Ok(())
}

/// An em has 1000 units: advances of 500 and 600 by `(advance * (scale * 65536 / 1000) + 32768) >> 16`
/// (`hb_font_t::em_mult`).
fn positions_are_scaled(alloc: Global, font: &mut Handle) -> Result<bool, AllocError> {
    let no_font = kus_font_set_scale(alloc, font, 1, 1);
    let created = kus_font_create(alloc, font, b"{}", FONT.as_bytes());
    if answered(created)? != 0 || no_font != 16 {
        return Ok(false);
    }
    let rows = [
        ((2001, 7), (1000, 1201)),
        ((-499, 7), (-249, -299)),
        ((0, 7), (0, 0)),
        ((2147483647, 7), (1073741823, 1288490188)),
        ((0, 0), (500, 600)),
    ];
    for ((x, y), (first, second)) in rows {
        let set = kus_font_set_scale(alloc, font, x, y);
        let want = [(1, 0, first), (2, 1, second)];
        if set != 0 || !is_shaped(alloc, font, &text_of(b"ab", 0, &[]), 0, &want)? {
            return Ok(false);
        }
    }
    Ok(true)
}

#[test]
fn clients_set_a_scale(rt: HostRuntime) -> Result<(), Fail> {
    let mut font = Handle::empty(rt.alloc());
    let holds = positions_are_scaled(rt.alloc(), &mut font);
    close(font);
    assert!(rt; holds?);
    Ok(())
}

/// The file's hhea has 800, -200 and 0, and it has no OS/2; a font of JSON has none.
fn lines_have_metrics(alloc: Global, font: &mut Handle) -> Result<bool, AllocError> {
    let mut found = kus_line_metrics_t {
        ascender: 99,
        descender: 99,
        line_gap: 99,
    };
    let json = kus_font_create(alloc, font, b"{}", FONT.as_bytes());
    let none = kus_font_get_line_metrics(alloc, font, &mut found) || found.ascender != 99;
    let read = kus_font_create_from_bytes_alone(alloc, font, FILE, 0, 0);
    let has = kus_font_get_line_metrics(alloc, font, &mut found);
    Ok(
        answered(json)? == 0
            && !none
            && answered(read)? == 0
            && has
            && (found.ascender, found.descender, found.line_gap) == (800, -200, 0),
    )
}

#[test]
fn files_have_metrics_of_lines(rt: HostRuntime) -> Result<(), Fail> {
    let mut font = Handle::empty(rt.alloc());
    let holds = lines_have_metrics(rt.alloc(), &mut font);
    close(font);
    assert!(rt; holds?);
    Ok(())
}
