//! The fonts of a collection: characters, metrics, names and rules as hb-shape shows them (`--show-extents`, from the top
//! down too), and what is no font.
//!
//! `has_ligature` and `has_pair` have one form, since the lookups of GSUB and of GPOS are types of their own.
use crate::rows::COLLECTION;
use font_bytes::fault::TableFault;
use font_file::{FontParts, font_count, read_font};
use layout_face::Face;
use layout_face::positioning::PositioningSubtables;
use layout_face::substitution::SubstitutionSubtables;
use layout_tables::pair::PairPos;
use std::alloc::Global;
use std::process::Abort;
use std::test::Fail;

/// The font with an index of the collection.
pub(crate) fn font(alloc: Global, index: usize, parts: FontParts) -> Result<Face, Fail> {
    match read_font(alloc, &COLLECTION, index, parts) {
        Ok(face) => Ok(face),
        Err(_fault) => Err("refused".into()),
    }
}

/// The glyphs of characters.
fn has_characters(face: &Face) -> bool {
    face.get_nominal_glyph('A') == Some(1)
        && face.get_nominal_glyph('B') == Some(2)
        && face.get_nominal_glyph('\u{301}') == Some(3)
        && face.get_nominal_glyph('C').is_none()
}

/// Width, height and vertical origin of a glyph.
fn has_metrics(face: &Face, glyph: u16, width: i32, height: i32, origin: i32) -> bool {
    face.glyph_h_advance(glyph) == width
        && face.glyph_v_advance(glyph) == height
        && face.glyph_v_origin(glyph) == origin
}

/// Left and upper side, width and height of a glyph's box.
fn has_box(face: &Face, glyph: u16, x: i32, y: i32, width: i32, height: i32) -> bool {
    match face.glyph_extents(glyph) {
        Some(extents) => {
            extents.x_bearing == x
                && extents.y_bearing == y
                && extents.width == width
                && extents.height == height
        }
        None => false,
    }
}

fn has_name(face: &Face, glyph: u16, wanted: &str) -> bool {
    match face.glyph_name(glyph) {
        Some(name) => name == wanted,
        None => false,
    }
}

/// The first lookup of GSUB makes A B the ligature A_B.
fn has_ligature(face: &Face) -> bool {
    let Some(table) = face.gsub() else {
        return false;
    };
    let Some(lookup) = table.get_lookup(0) else {
        return false;
    };
    let SubstitutionSubtables::Ligature(subtables) = lookup.subtables.inner() else {
        return false;
    };
    let Some(subtable) = subtables.as_slice().first() else {
        return false;
    };
    let Some(set) = subtable.inner().set_of(1) else {
        return false;
    };
    match set.ligatures().first() {
        Some(ligature) => ligature.glyph() == 4 && ligature.components() == [2].as_slice(),
        None => false,
    }
}

/// The first lookup of GPOS puts B closer to A.
fn has_pair(face: &Face) -> bool {
    let Some(table) = face.gpos() else {
        return false;
    };
    let Some(lookup) = table.get_lookup(0) else {
        return false;
    };
    let PositioningSubtables::Pair(subtables) = lookup.subtables.inner() else {
        return false;
    };
    let Some(subtable) = subtables.as_slice().first() else {
        return false;
    };
    let PairPos::Glyphs(pairs) = subtable.inner() else {
        return false;
    };
    match pairs.rows.as_slice().first() {
        Some(row) => {
            row.first == 1
                && row.second == 2
                && row.values.first.x_advance == -50
                && row.values.second.is_none()
        }
        None => false,
    }
}

#[test]
fn outlines_of_glyf_are_read(rt: HostRuntime) -> Result<(), Fail> {
    let face = font(rt.alloc(), 0, FontParts::all())?;
    assert!(rt; has_characters(&face), "characters");
    assert!(rt;
        face.glyph_variation_index('A', '\u{fe00}') == Some(2),
        "a variant"
    );
    assert!(rt;
        face.glyph_variation_index('A', '\u{fe01}').is_none(),
        "no variant"
    );
    assert!(rt;
        face.units_per_em() == 1000 && face.ascender() == 800,
        "the line"
    );
    assert!(rt; has_metrics(&face, 1, 600, -1100, 900), "the metrics of A");
    assert!(rt;
        has_metrics(&face, 3, 0, -1100, 1225),
        "the metrics of the mark"
    );
    assert!(rt; has_box(&face, 1, 10, 700, 490, -700), "the box of A");
    assert!(rt; has_box(&face, 2, 30, 710, 500, -720), "the box of B");
    assert!(rt;
        has_name(&face, 1, "A") && has_name(&face, 4, "A_B"),
        "names"
    );
    assert!(rt;
        face.glyph_class(1) == 1 && face.glyph_class(4) == 2 && face.glyph_class(3) == 3,
        "classes"
    );
    assert!(rt; has_ligature(&face), "the ligature");
    assert!(rt; has_pair(&face), "the pair");
    Ok(())
}

#[test]
fn outlines_of_cff_are_read(rt: HostRuntime) -> Result<(), Fail> {
    let face = font(rt.alloc(), 1, FontParts::all())?;
    assert!(rt; has_characters(&face), "characters");
    assert!(rt; face.ascender() == 810, "the line");
    assert!(rt; has_metrics(&face, 1, 600, -900, 870), "the metrics of A");
    assert!(rt; has_metrics(&face, 2, 650, -1000, 880), "the metrics of B");
    assert!(rt; has_box(&face, 2, 50, 710, 500, -720), "the box of B");
    assert!(rt;
        has_box(&face, 3, -200, 750, 150, -150),
        "the box of the mark"
    );
    assert!(rt;
        has_name(&face, 1, "A") && has_name(&face, 4, "A_B"),
        "names"
    );
    assert!(rt; face.gsub().is_none() && face.gpos().is_none(), "rules");
    Ok(())
}

/// Whether a file is refused for a cause.
fn is_refused(alloc: Global, bytes: &[u8], index: usize, cause: TableFault) -> bool {
    match read_font(alloc, bytes, index, FontParts::all()) {
        Ok(face) => {
            drop(face);
            false
        }
        Err(fault) => fault.cause == cause,
    }
}

#[test]
fn what_is_no_font_is_refused(rt: HostRuntime) {
    let alloc = rt.alloc();
    assert!(rt; font_count(&COLLECTION) == Ok(2), "two fonts");
    assert!(rt;
        is_refused(alloc, &COLLECTION, 2, TableFault::Index),
        "a third font"
    );
    assert!(rt;
        is_refused(alloc, b"no font's bytes", 0, TableFault::Kind(0)),
        "a text"
    );
    assert!(rt;
        is_refused(alloc, b"OTTO", 0, TableFault::Short(0)),
        "four bytes"
    );
}
