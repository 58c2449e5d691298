//! Subtables, by an example of the OpenType specification (chapter GPOS, example 2), by bytes written out after its formats,
//! and by what fonts leave out.
//!
//! `substitutions` has the same test of what is left out, over readers of its own table.
use font_bytes::fault::TableFault;
use font_bytes::room::Room;
use font_positioning::cursive::read_cursive_pos;
use font_positioning::marks::{read_mark_base_pos, read_mark_lig_pos};
use font_positioning::pair::read_pair_pos;
use font_positioning::single::read_single_pos;
use layout_tables::mark::{MarkBasePos, MarkLigPos};
use layout_tables::pair::{PairPos, PairValues};
use layout_tables::value::{Anchor, ValueRecord};
use std::alloc::Global;
use std::process::Abort;
use std::test::Fail;

const ROOM: usize = 4_194_304;

/// A glyph, and x placement, y placement, x advance and y advance of its value record, if it has one.
type GlyphValue = (u16, Option<(i16, i16, i16, i16)>);

/// Format 1: one value record for all glyphs.
static SHARED_VALUE: [u8; 18] = [
    0, 1, 0, 8, 0, 2, 0xff, 0xb0, 0, 2, 0, 1, 1, 0xb3, 1, 0xbc, 0, 0,
];

/// Format 2 with value format 0x0055: xPlacement, xAdvance, and the offsets of two devices, which are passed over.
static VALUES: [u8; 32] = [
    0, 2, 0, 24, 0, 0x55, 0, 2, 0, 50, 0, 40, 0, 1, 0, 1, 0xff, 0xff, 0, 7, 0, 0, 0, 0, 0, 1, 0, 2,
    0, 3, 0, 4,
];

/// Whether a value record is this one.
fn is_value(found: Option<ValueRecord>, wanted: Option<(i16, i16, i16, i16)>) -> bool {
    match (found, wanted) {
        (None, None) => true,
        (Some(value), Some((x, y, x_advance, y_advance))) => {
            value.x_placement == x
                && value.y_placement == y
                && value.x_advance == x_advance
                && value.y_advance == y_advance
        }
        _ => false,
    }
}

/// Whether glyphs have these values.
fn has_values(alloc: Global, table: &[u8], rows: &[GlyphValue]) -> bool {
    match read_single_pos(alloc, table, 0, &mut Room { left: ROOM }) {
        Ok(Some(subtable)) => {
            let mut is_equal = true;
            for (glyph, value) in rows {
                is_equal &= is_value(subtable.value(*glyph), *value);
            }
            is_equal
        }
        _ => false,
    }
}

#[test]
fn values_of_all_glyphs_are_read(rt: HostRuntime) {
    let rows = [
        (0x1b3, Some((0, -80, 0, 0))),
        (0x1bc, Some((0, -80, 0, 0))),
        (0x1bd, None),
    ];
    assert!(rt; has_values(rt.alloc(), &SHARED_VALUE, &rows));
}

#[test]
fn values_of_each_glyph_are_read(rt: HostRuntime) {
    let rows = [
        (3, Some((50, 0, 40, 0))),
        (4, Some((-1, 0, 7, 0))),
        (5, None),
    ];
    assert!(rt; has_values(rt.alloc(), &VALUES, &rows));
}

#[test]
fn other_subtables_are_none_or_refused(rt: HostRuntime) {
    let alloc = rt.alloc();
    let room = &mut Room { left: ROOM };
    assert!(rt; matches!(read_single_pos(alloc, &[0, 0], 0, room), Ok(None)));
    assert!(rt; matches!(read_pair_pos(alloc, &[0, 3], 0, room), Ok(None)));
    assert!(rt; matches!(read_cursive_pos(alloc, &[0, 2], 0, room), Ok(None)));
    assert!(rt; matches!(read_mark_base_pos(alloc, &[0, 2], 0, room), Ok(None)));
    assert!(rt; matches!(read_mark_lig_pos(alloc, &[0, 2], 0, room), Ok(None)));
    assert!(rt;
        matches!(
            read_pair_pos(alloc, &[0], 0, room),
            Err(TableFault::Short(0))
        )
    );
    // 65,535 times 65,535 records without a byte.
    let table = [0, 2, 0, 0, 0, 0, 0, 0, 0, 0, 0, 0, 0xff, 0xff, 0xff, 0xff];
    assert!(rt;
        matches!(
            read_pair_pos(alloc, &table, 0, room),
            Err(TableFault::TooLarge)
        )
    );
}

/// The adjustments of two glyphs, none where the bytes have none.
fn pair(alloc: Global, table: &[u8], first: u16, second: u16) -> Option<PairValues> {
    match read_pair_pos(alloc, table, 0, &mut Room { left: ROOM }) {
        Ok(Some(PairPos::Classes(pairs))) => pairs.values(first, second),
        Ok(Some(PairPos::Glyphs(pairs))) => {
            let mut found = None;
            for row in pairs.rows.as_slice() {
                if row.first == first && row.second == second {
                    found = Some(row.values);
                }
            }
            found
        }
        _ => None,
    }
}

/// Two glyphs, and the x advance of the first one's value record with the x placement of the second one's, where they have
/// records.
type GlyphPair = (u16, u16, Option<(i16, Option<i16>)>);

/// Two sets; the second glyphs of the first fall, and the second set has a pair twice.
static SETS: [u8; 50] = [
    0, 1, 0, 42, 0, 4, 0, 1, 0, 2, 0, 14, 0, 28, 0, 2, 0, 9, 0, 1, 0, 2, 0, 8, 0, 3, 0, 4, 0, 2, 0,
    8, 0, 5, 0, 6, 0, 8, 0, 7, 0, 8, 0, 1, 0, 2, 0, 0x30, 0, 0x31,
];

static SETS_PAIRS: &[GlyphPair] = &[
    (0x30, 8, Some((3, Some(4)))),
    (0x30, 9, Some((1, Some(2)))),
    (0x31, 8, Some((5, Some(6)))),
    (0x31, 9, None),
];

/// Without a second format there is no second record, and a null set has no pair.
static NULL_SET: [u8; 28] = [
    0, 1, 0, 20, 0, 4, 0, 0, 0, 2, 0, 14, 0, 0, 0, 1, 0, 9, 0, 1, 0, 1, 0, 2, 0, 0x30, 0, 0x31,
];

static NULL_SET_PAIRS: &[GlyphPair] = &[(0x30, 9, Some((1, None))), (0x31, 9, None)];

/// Glyphs 1 to 3 are covered: 2 is of class 1, and 3 of class 2, which has no records. Second glyphs: 7 is of class 1, and
/// 8 of class 2, which has no records and so is class 0.
static CLASSES: [u8; 54] = [
    0, 2, 0, 24, 0, 4, 0, 0, 0, 34, 0, 44, 0, 2, 0, 2, 0, 1, 0, 2, 0, 3, 0, 4, 0, 2, 0, 1, 0, 1, 0,
    3, 0, 0, 0, 1, 0, 2, 0, 2, 0, 1, 0, 2, 0, 1, 0, 7, 0, 2, 0, 1, 0, 2,
];

static CLASSES_PAIRS: &[GlyphPair] = &[
    (1, 6, Some((1, None))),
    (1, 7, Some((2, None))),
    (2, 6, Some((3, None))),
    (2, 7, Some((4, None))),
    (2, 8, Some((3, None))),
    (3, 6, None),
    (4, 6, None),
];

fn is_pair(found: Option<PairValues>, wanted: Option<(i16, Option<i16>)>) -> bool {
    match (found, wanted) {
        (None, None) => true,
        (Some(values), Some((advance, placement))) => {
            values.first.x_advance == advance
                && values.second.map(|value| value.x_placement) == placement
        }
        _ => false,
    }
}

fn has_pairs(rt: &impl Abort, alloc: Global, table: &[u8], pairs: &[GlyphPair]) {
    for (first, second, wanted) in pairs {
        assert!(rt;
            is_pair(pair(alloc, table, *first, *second), *wanted),
            "{first} {second}"
        );
    }
}

#[test]
fn pairs_of_glyphs_are_read(rt: HostRuntime) {
    has_pairs(&rt, rt.alloc(), &SETS, SETS_PAIRS);
    has_pairs(&rt, rt.alloc(), &NULL_SET, NULL_SET_PAIRS);
}

#[test]
fn pairs_of_classes_are_read(rt: HostRuntime) {
    has_pairs(&rt, rt.alloc(), &CLASSES, CLASSES_PAIRS);
}

fn is_anchor(anchor: Option<Anchor>, x: i16, y: i16) -> bool {
    match anchor {
        Some(a) => a.x == x && a.y == y,
        None => false,
    }
}

#[test]
fn entries_and_exits_are_read(rt: HostRuntime) -> Result<(), Fail> {
    // An exit of format 1, an entry of format 3, and an exit of an unknown format, which is none.
    let table = [
        0, 1, 0, 14, 0, 2, 0, 0, 0, 22, 0, 28, 0, 38, 0, 1, 0, 2, 0, 5, 0, 6, 0, 1, 0, 1, 0xff,
        0xfe, 0, 3, 0, 3, 0, 4, 0, 0, 0, 0, 0, 4, 0, 5, 0, 6,
    ];
    match read_cursive_pos(rt.alloc(), &table, 0, &mut Room { left: ROOM }) {
        Ok(Some(subtable)) => {
            let Some(five) = subtable.entry_exit(5) else {
                return Err("no row".into());
            };
            assert!(rt; five.entry.is_none() && is_anchor(five.exit, 1, -2));
            let Some(six) = subtable.entry_exit(6) else {
                return Err("no row".into());
            };
            assert!(rt; is_anchor(six.entry, 3, 4) && six.exit.is_none());
            Ok(())
        }
        _ => Err("refused".into()),
    }
}

fn mark_base(alloc: Global, table: &[u8]) -> Result<MarkBasePos, Fail> {
    match read_mark_base_pos(alloc, table, 0, &mut Room { left: ROOM }) {
        Ok(Some(subtable)) => Ok(subtable),
        _ => Err("refused".into()),
    }
}

#[test]
fn marks_on_bases_are_read(rt: HostRuntime) -> Result<(), Fail> {
    // Two classes; the marks 5, of class 1, and 6, of class 2, which has no anchors. The base 9 has none for class 0.
    let table = [
        0, 1, 0, 12, 0, 20, 0, 2, 0, 26, 0, 42, 0, 1, 0, 2, 0, 5, 0, 6, 0, 1, 0, 1, 0, 9, 0, 2, 0,
        1, 0, 10, 0, 2, 0, 10, 0, 1, 0, 11, 0, 12, 0, 1, 0, 0, 0, 6, 0, 1, 0, 21, 0, 22,
    ];
    let subtable = mark_base(rt.alloc(), &table)?;
    let Some(mark) = subtable.mark(5) else {
        return Err("no mark".into());
    };
    assert!(rt; mark.class == 1 && is_anchor(mark.anchor, 11, 12));
    assert!(rt; subtable.mark(6).is_none());
    assert!(rt; subtable.base_anchor(9, 0).is_none());
    assert!(rt; is_anchor(subtable.base_anchor(9, 1), 21, 22));
    Ok(())
}

fn mark_ligature(alloc: Global, table: &[u8]) -> Result<MarkLigPos, Fail> {
    match read_mark_lig_pos(alloc, table, 0, &mut Room { left: ROOM }) {
        Ok(Some(subtable)) => Ok(subtable),
        _ => Err("refused".into()),
    }
}

#[test]
fn marks_on_ligatures_are_read(rt: HostRuntime) -> Result<(), Fail> {
    // One class; the ligature 9 has two components, the first without an anchor, and 10 a null table.
    let table = [
        0, 1, 0, 12, 0, 18, 0, 1, 0, 26, 0, 38, 0, 1, 0, 1, 0, 5, 0, 1, 0, 2, 0, 9, 0, 10, 0, 1, 0,
        0, 0, 6, 0, 1, 0, 11, 0, 12, 0, 2, 0, 6, 0, 0, 0, 2, 0, 0, 0, 6, 0, 1, 0, 21, 0, 22,
    ];
    let subtable = mark_ligature(rt.alloc(), &table)?;
    let Some(mark) = subtable.mark(5) else {
        return Err("no mark".into());
    };
    assert!(rt; mark.class == 0 && is_anchor(mark.anchor, 11, 12));
    assert_eq!(rt; subtable.component_count(9), Some(2));
    assert!(rt; subtable.component_anchor(9, 0, 0).is_none());
    assert!(rt; is_anchor(subtable.component_anchor(9, 1, 0), 21, 22));
    assert_eq!(rt; subtable.component_count(10), None);
    Ok(())
}
