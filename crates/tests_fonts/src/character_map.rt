//! A font's character map as a client sets it: a character's glyph replaced, added and taken away, and that of a variation
//! sequence. The characters beside it keep theirs.
use crate::fonts::font;
use font_file::FontParts;
use layout_face::Face;
use std::alloc::{AllocError, Global};
use std::process::Abort;
use std::test::Fail;

/// A font that has A, B and the acute accent by glyphs 1, 2 and 3.
fn letters(alloc: Global) -> Result<Face, Fail> {
    font(alloc, 0, FontParts::all())
}

/// Whether characters have these glyphs, 0 for none.
fn has_glyphs(face: &Face, glyphs: &[(char, u16)]) -> bool {
    glyphs
        .iter()
        .all(|row| face.get_nominal_glyph(row.0).unwrap_or(0) == row.1)
}

/// Whether variation sequences have these glyphs, 0 for none.
fn has_variants(face: &Face, glyphs: &[(char, char, u16)]) -> bool {
    glyphs.iter().all(|row| face.glyph_variation_index(row.0, row.1).unwrap_or(0) == row.2)
}

#[test]
fn a_glyph_is_replaced(rt: HostRuntime) -> Result<(), Fail> {
    let mut face = letters(rt.alloc())?;
    face.set_nominal_glyph('B', Some(9))?;
    assert!(rt; has_glyphs(&face, &[('A', 1), ('B', 9), ('C', 0), ('\u{301}', 3)]));
    Ok(())
}

/// Before all characters of the font, between two, on a page of its own and after all.
fn add_four(face: &mut Face) -> Result<(), AllocError> {
    face.set_nominal_glyph('\u{10FFFF}', Some(7))?;
    face.set_nominal_glyph('C', Some(4))?;
    face.set_nominal_glyph('\u{4E00}', Some(6))?;
    face.set_nominal_glyph('\0', Some(5))
}

const ADDED: [(char, u16); 8] = [
    ('\0', 5),
    ('A', 1),
    ('B', 2),
    ('C', 4),
    ('D', 0),
    ('\u{301}', 3),
    ('\u{4E00}', 6),
    ('\u{10FFFF}', 7),
];

#[test]
fn characters_are_added(rt: HostRuntime) -> Result<(), Fail> {
    let mut face = letters(rt.alloc())?;
    add_four(&mut face)?;
    assert!(rt; has_glyphs(&face, &ADDED));
    face.index_characters(rt.alloc())?;
    assert!(rt; has_glyphs(&face, &ADDED));
    Ok(())
}

/// Adds a thousand characters, the last one first.
fn add_many(face: &mut Face) -> Result<(), AllocError> {
    for n in 0..1000u16 {
        let number = 0x5000 - u32::from(n);
        face.set_nominal_glyph(char::from_u32(number).unwrap_or('A'), Some(1000 - n))?;
    }
    Ok(())
}

fn has_many(face: &Face) -> bool {
    (0..1000u16).all(|n| {
        let number = 0x5000 - u32::from(n);
        face.get_nominal_glyph(char::from_u32(number).unwrap_or('A')) == Some(1000 - n)
    })
}

#[test]
fn a_map_grows(rt: HostRuntime) -> Result<(), Fail> {
    let mut face = letters(rt.alloc())?;
    add_many(&mut face)?;
    assert!(rt; has_many(&face));
    face.index_characters(rt.alloc())?;
    assert!(rt; has_many(&face));
    assert!(rt;
        has_glyphs(
            &face,
            &[
                ('A', 1),
                ('B', 2),
                ('\u{301}', 3),
                ('\u{5001}', 0),
                ('\u{4C18}', 0)
            ]
        )
    );
    Ok(())
}

#[test]
fn characters_are_taken_away(rt: HostRuntime) -> Result<(), Fail> {
    let mut face = letters(rt.alloc())?;
    face.set_nominal_glyph('C', None)?;
    assert!(rt; has_glyphs(&face, &[('A', 1), ('B', 2), ('C', 0), ('\u{301}', 3)]));
    face.set_nominal_glyph('B', None)?;
    assert!(rt; has_glyphs(&face, &[('A', 1), ('B', 0), ('C', 0), ('\u{301}', 3)]));
    face.index_characters(rt.alloc())?;
    assert!(rt; has_glyphs(&face, &[('A', 1), ('B', 0), ('C', 0), ('\u{301}', 3)]));
    Ok(())
}

#[test]
fn variation_sequences_are_set(rt: HostRuntime) -> Result<(), Fail> {
    let mut face = letters(rt.alloc())?;
    face.set_variation_glyph('B', '\u{FE00}', Some(4))?;
    face.set_variation_glyph('A', '\u{FE01}', Some(5))?;
    face.set_variation_glyph('A', '\u{FE00}', Some(6))?;
    let set = [
        ('A', '\u{FE00}', 6),
        ('A', '\u{FE01}', 5),
        ('B', '\u{FE00}', 4),
        ('B', '\u{FE01}', 0),
    ];
    assert!(rt; has_variants(&face, &set));
    face.set_variation_glyph('A', '\u{FE01}', Some(7))?;
    face.set_variation_glyph('A', '\u{FE00}', None)?;
    face.set_variation_glyph('B', '\u{FE01}', None)?;
    let set = [
        ('A', '\u{FE00}', 0),
        ('A', '\u{FE01}', 7),
        ('B', '\u{FE00}', 4),
        ('B', '\u{FE01}', 0),
    ];
    assert!(rt; has_variants(&face, &set));
    assert!(rt; has_glyphs(&face, &[('A', 1), ('B', 2), ('\u{301}', 3)]));
    Ok(())
}
