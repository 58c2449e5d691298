//! Coverage and class definition tables, by the examples of the OpenType specification (chapter 2, examples 5, 6 and 8)
//! and by damaged ones.
use font_bytes::fault::TableFault;
use font_bytes::room::Room;
use font_common::class_definition::read_class_definition;
use font_common::coverage::{read_coverage, read_coverage_glyphs};
use font_common::offsets::{CoverageReader, read_list};
use std::alloc::Global;
use std::process::Abort;
use std::test::Fail;

/// Coverage tables of both formats, and their glyphs.
static EXAMPLES: &[(&[u8], &[u16])] = &[
    (
        &[0, 1, 0, 5, 0, 0x38, 0, 0x3b, 0, 0x41, 0, 0x42, 0, 0x4a],
        &[0x38, 0x3b, 0x41, 0x42, 0x4a],
    ),
    (
        &[0, 2, 0, 1, 0, 0x4e, 0, 0x57, 0, 0],
        &[0x4e, 0x4f, 0x50, 0x51, 0x52, 0x53, 0x54, 0x55, 0x56, 0x57],
    ),
    (
        &[0, 2, 0, 2, 0, 3, 0, 3, 0, 0, 0xff, 0xfe, 0xff, 0xff, 0, 1],
        &[3, 0xfffe, 0xffff],
    ),
    (&[0, 1, 0, 2, 0, 5, 0, 5], &[5, 5]),
    (&[0, 1, 0, 0], &[]),
];

/// Coverage tables with ranges that end before they begin.
static PASSED_OVER: &[(&[u8], &[u16])] = &[
    (&[0, 2, 0, 1, 0, 5, 0, 4, 0, 0], &[]),
    (
        &[
            0, 2, 0, 3, 0, 5, 0, 6, 0, 0, 0, 9, 0, 2, 0, 7, 0, 7, 0, 7, 0, 2,
        ],
        &[5, 6, 7],
    ),
];

static FALLING: &[(&[u8], TableFault)] = &[(
    &[
        0, 2, 0, 3, 0, 7, 0, 8, 0, 0, 0, 9, 0, 2, 0, 2, 0, 6, 0, 6, 0, 2,
    ],
    TableFault::Order(0),
)];

/// Damaged coverage tables, and their faults.
static DAMAGED: &[(&[u8], TableFault)] = &[
    (&[0, 1, 0], TableFault::Short(0)),
    (&[0, 1, 0, 2, 0, 5, 0], TableFault::Short(4)),
    (&[0, 1, 0, 2, 0, 5, 0, 4], TableFault::Order(0)),
    (&[0, 2, 0, 1, 0, 5, 0, 6, 0, 1], TableFault::Order(0)),
];

/// A coverage table of an unknown format has no glyph.
static UNKNOWN: &[(&[u8], &[u16])] = &[(&[0, 3, 0, 0], &[])];

/// A class definition table of the font Padmaa, whose second range ends before it begins.
static PADMAA: &[(&[u8], &[(u16, u16)])] = &[(
    &[
        0, 2, 0, 3, 1, 0x32, 1, 0x32, 0, 2, 1, 0x33, 0, 2, 0, 1, 1, 0x35, 1, 0x77, 0, 2,
    ],
    &[
        (2, 0),
        (306, 2),
        (307, 0),
        (308, 0),
        (309, 2),
        (375, 2),
        (376, 0),
    ],
)];

/// Class definition tables of both formats: glyphs and their classes.
static CLASSES: &[(&[u8], &[(u16, u16)])] = &[
    (
        &[0, 1, 0, 50, 0, 3, 0, 7, 0, 0, 0, 2],
        &[(49, 0), (50, 7), (51, 0), (52, 2)],
    ),
    (
        &[
            0, 2, 0, 3, 0, 0x30, 0, 0x31, 0, 2, 0, 0x40, 0, 0x41, 0, 3, 0, 0xd2, 0, 0xd3, 0, 1,
        ],
        &[(0x31, 2), (0x32, 0), (0x40, 3), (0xd3, 1)],
    ),
    (
        &[0, 2, 0, 2, 0, 1, 0, 2, 0, 8, 0, 2, 0, 3, 0, 9],
        &[(1, 8), (2, 8), (3, 9)],
    ),
];

fn is_read(alloc: Global, table: &[u8], glyphs: &[u16]) -> bool {
    match read_coverage_glyphs(alloc, table, 0) {
        Ok(read) => read.as_slice() == glyphs,
        Err(_fault) => false,
    }
}

fn are_read(rt: &impl Abort, alloc: Global, rows: &[(&[u8], &[u16])]) {
    for (row, (table, glyphs)) in rows.iter().enumerate() {
        assert!(rt; is_read(alloc, table, glyphs), "{row}");
    }
}

fn is_refused(alloc: Global, table: &[u8], fault: TableFault) -> bool {
    match read_coverage_glyphs(alloc, table, 0) {
        Ok(_glyphs) => false,
        Err(other) => other == fault,
    }
}

fn are_refused(rt: &impl Abort, alloc: Global, rows: &[(&[u8], TableFault)]) {
    for (row, (table, fault)) in rows.iter().enumerate() {
        assert!(rt; is_refused(alloc, table, *fault), "{row}");
    }
}

#[test]
fn examples_are_read(rt: HostRuntime) {
    are_read(&rt, rt.alloc(), EXAMPLES);
}

/// A range that ends before it begins has no glyph, wherever it stands.
#[test]
fn ranges_without_glyphs_are_passed_over(rt: HostRuntime) {
    are_read(&rt, rt.alloc(), PASSED_OVER);
    are_refused(&rt, rt.alloc(), FALLING);
    are_classes(&rt, rt.alloc(), PADMAA);
}

#[test]
fn damage_is_refused(rt: HostRuntime) {
    are_refused(&rt, rt.alloc(), DAMAGED);
    are_read(&rt, rt.alloc(), UNKNOWN);
}

#[test]
fn glyphs_take_room(rt: HostRuntime) -> Result<(), Fail> {
    let table = [0, 2, 0, 1, 0, 5, 0, 8, 0, 0];
    let mut room = Room { left: 7 };
    match read_coverage(rt.alloc(), &table, 0, &mut room) {
        Ok(coverage) => {
            assert!(rt; coverage.contains(8) && !coverage.contains(9));
        }
        Err(_fault) => return Err("refused".into()),
    }
    assert_eq!(rt; room.left, 3);
    match read_coverage(rt.alloc(), &table, 0, &mut room) {
        Ok(_coverage) => Err("read".into()),
        Err(fault) => {
            assert!(rt; fault == TableFault::TooLarge);
            Ok(())
        }
    }
}

#[test]
fn offsets_lead_to_tables(rt: HostRuntime) -> Result<(), Fail> {
    let bytes = [0, 2, 0, 6, 0, 6, 0, 1, 0, 2, 0, 3, 0, 4];
    let mut room = Room { left: 6 };
    match read_list(&CoverageReader, rt.alloc(), &bytes, 0, 0, &mut room) {
        Ok(coverages) => {
            assert_eq!(rt; coverages.len(), 2);
        }
        Err(_fault) => return Err("refused".into()),
    }
    assert_eq!(rt; room.left, 0);
    match read_list(&CoverageReader, rt.alloc(), &bytes, 0, 0, &mut room) {
        Ok(_coverages) => Err("read".into()),
        Err(fault) => {
            assert!(rt; fault == TableFault::TooLarge);
            Ok(())
        }
    }
}

fn has_classes(alloc: Global, table: &[u8], rows: &[(u16, u16)]) -> bool {
    match read_class_definition(alloc, table, 0, &mut Room { left: 100 }) {
        Ok(classes) => {
            let mut is_equal = true;
            for (glyph, class) in rows {
                is_equal &= classes.class_of(*glyph) == *class;
            }
            is_equal
        }
        Err(_fault) => false,
    }
}

fn are_classes(rt: &impl Abort, alloc: Global, rows: &[(&[u8], &[(u16, u16)])]) {
    for (row, (table, classes)) in rows.iter().enumerate() {
        assert!(rt; has_classes(alloc, table, classes), "{row}");
    }
}

#[test]
fn classes_are_read(rt: HostRuntime) {
    are_classes(&rt, rt.alloc(), CLASSES);
}
