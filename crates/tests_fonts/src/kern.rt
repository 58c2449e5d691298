//! Tables `kern` by bytes written out, with values worked out by hand.
use buffer_common::tag::Tag;
use font_bytes::fault::TableFault;
use font_bytes::room::Room;
use font_kern::gpos::with_kerning;
use layout_face::parts::CharacterRow;
use layout_face::positioning::{PositioningSubtables, PositioningTable};
use layout_tables::pair::{PairPos, PairValues};
use layout_tables::pair_rows::second_values;
use std::alloc::Global;
use std::test::Fail;

/// Version 0, one subtable of format 0: glyphs 3 and 4 with the distance -75, 5 and 6 with 10.
const PAIRS: [u8; 30] = [
    0, 0, 0, 1, 0, 0, 0, 26, 0, 1, 0, 2, 0, 12, 0, 1, 0, 0, 0, 3, 0, 4, 255, 181, 0, 5, 0, 6, 0, 10,
];

/// Version 1.0, one subtable of format 2: rows of two distances; glyph 1 is in the second one, glyph 9 in column 1.
const CLASSES: [u8; 44] = [
    0, 1, 0, 0, 0, 0, 0, 1, 0, 0, 0, 36, 0, 2, 0, 0, 0, 4, 0, 16, 0, 22, 0, 28, 0, 1, 0, 1, 0, 32,
    0, 9, 0, 1, 0, 2, 0, 0, 0, 0, 0, 7, 255, 206,
];

fn values(table: &PositioningTable, index: u16, first: u16, second: u16) -> Option<PairValues> {
    match table.get_lookup(index)?.subtables.inner() {
        PositioningSubtables::Pair(subtables) => match subtables.get(0)?.inner() {
            PairPos::Glyphs(pairs) => second_values(pairs.rows.rows_of(first), second),
            PairPos::Classes(pairs) => pairs.values(first, second),
        },
        _ => None,
    }
}

/// What is added to the advances of two glyphs.
fn advances(table: &PositioningTable, index: u16, first: u16, second: u16) -> Option<(i16, i16)> {
    let values = values(table, index, first, second)?;
    Some((values.first.x_advance, values.second?.x_advance))
}

fn kerned(
    alloc: Global,
    table: &[u8],
    room: usize,
) -> Result<Option<PositioningTable>, TableFault> {
    let characters = [
        CharacterRow {
            character: 'A',
            glyph: 3,
        },
        CharacterRow {
            character: '\u{632}',
            glyph: 5,
        },
    ];
    let mut room = Room { left: room };
    with_kerning(alloc, table, &characters, None, &mut room)
}

#[test]
fn pairs_kern_in_both_directions(rt: HostRuntime) -> Result<(), Fail> {
    let Ok(Some(table)) = kerned(rt.alloc(), &PAIRS, 1000) else {
        return Err("refused".into());
    };
    assert_eq!(rt; table.lookups.len(), 4);
    assert_eq!(rt; advances(&table, 0, 3, 4), Some((-38, -37)));
    assert_eq!(rt; advances(&table, 0, 4, 3), None);
    assert_eq!(rt; advances(&table, 2, 4, 3), Some((-37, -38)));
    assert_eq!(rt; advances(&table, 2, 6, 5), Some((5, 5)));
    assert_eq!(rt; table.inner.scripts().len(), 2);
    let Some(script) = table.inner.script(Tag::from_bytes(b"arab")) else {
        return Err("no script".into());
    };
    let Some(system) = script.default_lang_sys() else {
        return Err("no system".into());
    };
    assert!(rt; system.features() == [1].as_slice());
    Ok(())
}

#[test]
fn classes_kern(rt: HostRuntime) -> Result<(), Fail> {
    let Ok(Some(table)) = kerned(rt.alloc(), &CLASSES, 100000) else {
        return Err("refused".into());
    };
    assert_eq!(rt; advances(&table, 0, 1, 9), Some((-25, -25)));
    assert_eq!(rt; advances(&table, 0, 1, 2), Some((3, 4)));
    assert_eq!(rt; advances(&table, 0, 2, 9), None);
    assert_eq!(rt; advances(&table, 2, 9, 1), Some((-25, -25)));
    Ok(())
}

#[test]
fn others_are_left_out(rt: HostRuntime) {
    let mut other = PAIRS;
    other[9] = 5;
    assert!(rt; matches!(kerned(rt.alloc(), &other, 1000), Ok(None)));
    assert!(rt; matches!(kerned(rt.alloc(), &PAIRS, 67), Err(TableFault::TooLarge)));
    assert!(rt;
        matches!(
            kerned(rt.alloc(), &PAIRS[..29], 1000),
            Err(TableFault::Short(18))
        )
    );
}
