//! Subtables: the example of the OpenType specification (chapter 5, cmap, format 4), one of the other formats each, and
//! variation sequences.
use buffer_rows::PagedRows;
use font_bytes::fault::TableFault;
use font_bytes::room::Room;
use font_cmap::encoded::row_glyph;
use font_cmap::{read_characters, read_variations};
use layout_face::parts::CharacterRow;
use std::alloc::Global;
use std::process::Abort;
use std::test::Fail;

/// Format 4: characters 10 to 20, 30 to 90 and 153 to 480 by deltas of -9, -18 and -27, and the last one.
const SEGMENTS: [u8; 60] = [
    0, 0, 0, 1, 0, 3, 0, 1, 0, 0, 0, 12, 0, 4, 0, 48, 0, 0, 0, 8, 0, 8, 0, 2, 0, 0, 0, 20, 0, 90,
    1, 0xe0, 0xff, 0xff, 0, 0, 0, 10, 0, 30, 0, 153, 0xff, 0xff, 0xff, 0xf7, 0xff, 0xee, 0xff,
    0xe5, 0, 1, 0, 0, 0, 0, 0, 0, 0, 0,
];

/// Format 4 with an idRangeOffset of 5, which counts as two words: U+0041 and U+0042 have glyphs 7 and 9.
const ODD_OFFSET: [u8; 48] = [
    0, 0, 0, 1, 0, 3, 0, 1, 0, 0, 0, 12, 0, 4, 0, 36, 0, 0, 0, 4, 0, 4, 0, 1, 0, 0, 0, 0x42, 0xff,
    0xff, 0, 0, 0, 0x41, 0xff, 0xff, 0, 0, 0, 1, 0, 5, 0, 0, 0, 7, 0, 9,
];

/// A symbol subtable of format 6: U+F041 has glyph 7 and U+F042 none, and U+F043 glyph 9.
const SYMBOL: [u8; 28] = [
    0, 0, 0, 1, 0, 3, 0, 0, 0, 0, 0, 12, 0, 6, 0, 16, 0, 0, 0xf0, 0x41, 0, 3, 0, 7, 0, 0, 0, 9,
];

/// Format 12 (U+1F600 and U+1F601 have glyphs 5 and 6), and a selector U+FE0F, which keeps the glyph of U+1F600 and gives
/// U+1F601 glyph 8.
const SEQUENCES: [u8; 86] = [
    0, 0, 0, 2, 0, 0, 0, 5, 0, 0, 0, 48, 0, 3, 0, 10, 0, 0, 0, 20, 0, 12, 0, 0, 0, 0, 0, 28, 0, 0,
    0, 0, 0, 0, 0, 1, 0, 1, 0xf6, 0, 0, 1, 0xf6, 1, 0, 0, 0, 5, 0, 14, 0, 0, 0, 38, 0, 0, 0, 1, 0,
    0xfe, 0x0f, 0, 0, 0, 21, 0, 0, 0, 29, 0, 0, 0, 1, 1, 0xf6, 0, 0, 0, 0, 0, 1, 1, 0xf6, 1, 0, 8,
];

fn characters(alloc: Global, table: &[u8]) -> Result<PagedRows<CharacterRow>, TableFault> {
    let mut room = Room { left: 1_310_720 };
    read_characters(alloc, table, &mut room)
}

fn has_glyphs(
    rt: &impl Abort,
    alloc: Global,
    table: &[u8],
    glyphs: &[(u32, u16)],
) -> Result<(), Fail> {
    let Ok(rows) = characters(alloc, table) else {
        return Err("refused".into());
    };
    for (character, glyph) in glyphs {
        assert!(rt; row_glyph(&rows, *character) == *glyph, "another glyph");
    }
    Ok(())
}

#[test]
fn characters_are_read(rt: HostRuntime) -> Result<(), Fail> {
    let alloc = rt.alloc();
    let examples = [
        (9, 0),
        (10, 1),
        (20, 11),
        (21, 0),
        (30, 12),
        (90, 72),
        (153, 126),
        (480, 453),
        (481, 0),
        (0xffff, 0),
    ];
    has_glyphs(&rt, alloc, &SEGMENTS, &examples)?;
    let odd = [(0x40, 0), (0x41, 7), (0x42, 9), (0x43, 0)];
    has_glyphs(&rt, alloc, &ODD_OFFSET, &odd)?;
    let symbols = [
        (0x40, 0),
        (0x41, 7),
        (0x42, 0),
        (0x43, 9),
        (0xf041, 7),
        (0xf043, 9),
    ];
    has_glyphs(&rt, alloc, &SYMBOL, &symbols)?;
    let groups = [(0x1f5ff, 0), (0x1f600, 5), (0x1f601, 6), (0x1f602, 0)];
    has_glyphs(&rt, alloc, &SEQUENCES, &groups)
}

#[test]
fn sequences_are_read(rt: HostRuntime) -> Result<(), Fail> {
    let alloc = rt.alloc();
    let mut room = Room { left: 10 };
    let Ok(usual) = read_characters(alloc, &SEQUENCES, &mut room) else {
        return Err("refused".into());
    };
    let Ok(rows) = read_variations(alloc, &SEQUENCES, &usual, &mut room) else {
        return Err("refused".into());
    };
    assert_eq!(rt; rows.as_slice().len(), 2);
    for (character, glyph) in [('\u{1f600}', 5), ('\u{1f601}', 8)] {
        match rows.get((character, '\u{fe0f}')) {
            Some(row) => assert_eq!(rt; row.glyph, glyph),
            None => return Err("no row".into()),
        }
    }
    assert_eq!(rt; room.left, 5);
    Ok(())
}

#[test]
fn damage_is_refused(rt: HostRuntime) -> Result<(), Fail> {
    let short = characters(rt.alloc(), &SEGMENTS[..59]);
    assert!(rt; matches!(short, Err(TableFault::Short(26))));
    let mut other = SEGMENTS;
    other[13] = 5;
    assert!(rt; matches!(characters(rt.alloc(), &other), Err(TableFault::Kind(12))));
    Ok(())
}
