//! Subtables, by the examples of the OpenType specification (chapter GSUB, examples 2 to 6) and by what fonts leave out.
//!
//! `positions` has the same test of what is left out, over readers of its own table.
use font_bytes::fault::TableFault;
use font_bytes::room::Room;
use font_substitution::ligature::read_ligature_subst;
use font_substitution::reverse::read_reverse_subst;
use font_substitution::sequence::{read_alternate_subst, read_multiple_subst};
use font_substitution::single::read_single_subst;
use layout_tables::ligature::LigatureSet;
use std::alloc::Global;
use std::process::Abort;
use std::test::Fail;

const ROOM: usize = 4_194_304;

/// Single substitutions of format 1: glyphs and their substitutes.
static DIFFERENCES: &[(&[u8], &[(u16, Option<u16>)])] = &[
    (
        &[0, 1, 0, 6, 0, 0xc0, 0, 2, 0, 1, 0, 0x4e, 0, 0x57, 0, 0],
        &[(0x4e, Some(0x10e)), (0x57, Some(0x117)), (0x58, None)],
    ),
    // Past 65,535 it begins again.
    (
        &[0, 1, 0, 6, 0xff, 0xff, 0, 1, 0, 1, 0, 0x4e],
        &[(0x4e, Some(0x4d))],
    ),
];

/// Single substitutions of format 2: glyphs and their substitutes.
static SUBSTITUTES: &[(&[u8], &[(u16, Option<u16>)])] = &[
    (
        &[
            0, 2, 0, 14, 0, 4, 1, 0x31, 1, 0x35, 1, 0x3e, 1, 0x43, 0, 1, 0, 4, 0, 0x3c, 0, 0x40, 0,
            0x4b, 0, 0x4f,
        ],
        &[(0x3c, Some(0x131)), (0x4b, Some(0x13e)), (0x3d, None)],
    ),
    // A repeated glyph has its first record, and a glyph without a record no row.
    (
        &[0, 2, 0, 10, 0, 2, 0, 7, 0, 8, 0, 1, 0, 3, 0, 5, 0, 5, 0, 6],
        &[(5, Some(7)), (6, None)],
    ),
    // A null coverage has no glyph.
    (&[0, 2, 0, 0, 0, 1, 0, 7], &[(0, None)]),
];

fn has_substitutes(alloc: Global, table: &[u8], rows: &[(u16, Option<u16>)]) -> bool {
    match read_single_subst(alloc, table, 0, &mut Room { left: ROOM }) {
        Ok(Some(subtable)) => {
            let mut is_equal = true;
            for (glyph, substitute) in rows {
                is_equal &= subtable.substitute(*glyph) == *substitute;
            }
            is_equal
        }
        _ => false,
    }
}

fn are_substituted(rt: &impl Abort, alloc: Global, rows: &[(&[u8], &[(u16, Option<u16>)])]) {
    for (row, (table, glyphs)) in rows.iter().enumerate() {
        assert!(rt; has_substitutes(alloc, table, glyphs), "{row}");
    }
}

#[test]
fn differences_are_added(rt: HostRuntime) {
    are_substituted(&rt, rt.alloc(), DIFFERENCES);
}

#[test]
fn substitutes_are_listed(rt: HostRuntime) {
    are_substituted(&rt, rt.alloc(), SUBSTITUTES);
}

#[test]
fn other_subtables_are_none_or_refused(rt: HostRuntime) {
    let alloc = rt.alloc();
    let room = &mut Room { left: ROOM };
    assert!(rt; matches!(read_single_subst(alloc, &[0, 3], 0, room), Ok(None)));
    assert!(rt; matches!(read_multiple_subst(alloc, &[0, 2], 0, room), Ok(None)));
    assert!(rt; matches!(read_alternate_subst(alloc, &[0, 0], 0, room), Ok(None)));
    assert!(rt; matches!(read_ligature_subst(alloc, &[0, 2], 0, room), Ok(None)));
    assert!(rt; matches!(read_reverse_subst(alloc, &[0, 2], 0, room), Ok(None)));
    assert!(rt;
        matches!(
            read_single_subst(alloc, &[0], 0, room),
            Err(TableFault::Short(0))
        )
    );
    let table = [0, 2, 0, 8, 0, 2, 0, 7];
    assert!(rt;
        matches!(
            read_single_subst(alloc, &table, 0, room),
            Err(TableFault::Short(6))
        )
    );
    let table = [0, 2, 0, 10, 0, 2, 0, 7, 0, 8, 0, 1, 0, 2, 0, 5, 0, 6];
    let few = &mut Room { left: 3 };
    assert!(rt;
        matches!(
            read_single_subst(alloc, &table, 0, few),
            Err(TableFault::TooLarge)
        )
    );
}

#[test]
fn sequences_are_read(rt: HostRuntime) -> Result<(), Fail> {
    let table = [
        0, 1, 0, 8, 0, 1, 0, 14, 0, 1, 0, 1, 0, 0xf1, 0, 3, 0, 0x1a, 0, 0x1a, 0, 0x1d,
    ];
    let room = &mut Room { left: ROOM };
    match read_multiple_subst(rt.alloc(), &table, 0, room) {
        Ok(Some(subtable)) => {
            assert!(rt; matches!(subtable.sequence(0xf1), Some(&[0x1a, 0x1a, 0x1d])));
            assert!(rt; matches!(subtable.sequence(0xf2), None));
        }
        _ => return Err("refused".into()),
    }
    // A record, a glyph and three glyphs of the sequence.
    assert_eq!(rt; room.left, ROOM - 5);
    let null = [0, 1, 0, 8, 0, 1, 0, 0, 0, 1, 0, 1, 0, 0xf1];
    match read_multiple_subst(rt.alloc(), &null, 0, room) {
        Ok(Some(subtable)) => assert!(rt; matches!(subtable.sequence(0xf1), Some(&[]))),
        _ => return Err("refused".into()),
    }
    Ok(())
}

#[test]
fn alternates_are_read(rt: HostRuntime) -> Result<(), Fail> {
    let table = [
        0, 1, 0, 8, 0, 1, 0, 14, 0, 1, 0, 1, 0, 0x3a, 0, 2, 0, 0xc9, 0, 0xca,
    ];
    match read_alternate_subst(rt.alloc(), &table, 0, &mut Room { left: ROOM }) {
        Ok(Some(subtable)) => {
            assert!(rt; matches!(subtable.alternates(0x3a), Some(&[0xc9, 0xca])));
            Ok(())
        }
        _ => Err("refused".into()),
    }
}

/// Whether a set has one ligature: of two components after the first, and a glyph.
fn is_ligature(set: &LigatureSet, second: u16, third: u16, glyph: u16) -> bool {
    match set.ligatures() {
        [ligature] => match ligature.components() {
            [a, b] => *a == second && *b == third && ligature.glyph() == glyph,
            _ => false,
        },
        _ => false,
    }
}

#[test]
fn ligatures_are_read(rt: HostRuntime) -> Result<(), Fail> {
    let table = [
        0, 1, 0, 10, 0, 2, 0, 20, 0, 32, 0, 2, 0, 1, 0, 0x19, 0, 0x1a, 0, 0, 0, 1, 0, 4, 1, 0x5b,
        0, 3, 0, 0x28, 0, 0x17, 0, 1, 0, 4, 0, 0xf1, 0, 3, 0, 0x1a, 0, 0x1d,
    ];
    match read_ligature_subst(rt.alloc(), &table, 0, &mut Room { left: ROOM }) {
        Ok(Some(subtable)) => {
            let Some(etc) = subtable.set_of(0x19) else {
                return Err("no first set".into());
            };
            assert!(rt; is_ligature(etc, 0x28, 0x17, 0x15b));
            let Some(ffi) = subtable.set_of(0x1a) else {
                return Err("no second set".into());
            };
            assert!(rt; is_ligature(ffi, 0x1a, 0x1d, 0xf1));
            assert!(rt; matches!(subtable.set_of(0x1b), None));
            Ok(())
        }
        _ => Err("refused".into()),
    }
}

#[test]
fn ligatures_without_components_are_left_out(rt: HostRuntime) -> Result<(), Fail> {
    // Three ligatures: a null one, one of no component, and one of its first component alone.
    let table = [
        0, 1, 0, 8, 0, 1, 0, 14, 0, 1, 0, 1, 0, 5, 0, 3, 0, 0, 0, 8, 0, 12, 0, 9, 0, 0, 0, 7, 0, 1,
    ];
    match read_ligature_subst(rt.alloc(), &table, 0, &mut Room { left: ROOM }) {
        Ok(Some(subtable)) => {
            let Some(set) = subtable.set_of(5) else {
                return Err("no set".into());
            };
            match set.ligatures() {
                [ligature] => assert!(rt;
                    ligature.glyph() == 7 && ligature.components().is_empty()
                ),
                _ => return Err("other ligatures".into()),
            }
            Ok(())
        }
        _ => Err("refused".into()),
    }
}

#[test]
fn reverse_chains_are_read(rt: HostRuntime) -> Result<(), Fail> {
    // One coverage before, none after, and one substitute.
    let table = [
        0, 1, 0, 14, 0, 1, 0, 20, 0, 0, 0, 1, 0, 9, 0, 1, 0, 1, 0, 5, 0, 1, 0, 1, 0, 4,
    ];
    match read_reverse_subst(rt.alloc(), &table, 0, &mut Room { left: ROOM }) {
        Ok(Some(subtable)) => {
            assert_eq!(rt; subtable.substitute(5), Some(9));
            assert_eq!(rt; subtable.substitute(4), None);
            assert_eq!(rt; subtable.lookahead.len(), 0);
            match subtable.backtrack.as_slice() {
                [before] => assert!(rt; before.contains(4) && !before.contains(5)),
                _ => return Err("other coverages".into()),
            }
            Ok(())
        }
        _ => Err("refused".into()),
    }
}
