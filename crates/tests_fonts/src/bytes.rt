//! Numbers, directories and room, by bytes written out.
use font_bytes::directory::font_table;
use font_bytes::fault::TableFault;
use font_bytes::room::Room;
use font_bytes::words::{long_at, signed_word, word_at};
use std::process::Abort;

/// `cmap`
const CMAP: u32 = 0x636d6170;

/// A font of one table of four bytes.
static FONT: [u8; 32] = [
    0, 1, 0, 0, 0, 1, 0, 16, 0, 0, 0, 0, 0x63, 0x6d, 0x61, 0x70, 0, 0, 0, 0, 0, 0, 0, 28, 0, 0, 0,
    4, 1, 2, 3, 4,
];

/// A collection of that font, whose offsets count from the file's start, and of one past the file's end.
static COLLECTION: [u8; 52] = [
    0x74, 0x74, 0x63, 0x66, 0, 1, 0, 0, 0, 0, 0, 2, 0, 0, 0, 20, 0, 0, 0, 99, // header
    0, 1, 0, 0, 0, 1, 0, 16, 0, 0, 0, 0, 0x63, 0x6d, 0x61, 0x70, 0, 0, 0, 0, 0, 0, 0, 48, 0, 0, 0,
    4, 1, 2, 3, 4,
];

/// The first and the end index of the font's bytes that are the file, the index of a font, and the fault.
static REFUSED_FONTS: &[(usize, usize, usize, TableFault)] = &[
    (0, 32, 1, TableFault::Index),
    (0, 31, 0, TableFault::Short(28)),
    (0, 27, 0, TableFault::Short(12)),
    (0, 11, 0, TableFault::Short(0)),
    (1, 32, 0, TableFault::Kind(0)),
];

static REFUSED_COLLECTIONS: &[(usize, usize, usize, TableFault)] = &[
    (0, 52, 1, TableFault::Short(99)),
    (0, 52, 2, TableFault::Index),
];

#[test]
fn numbers_are_big_endian(rt: HostRuntime) {
    let bytes = [0x12, 0x34, 0xff, 0xfe];
    assert_eq!(rt; word_at(&bytes, 0), Some(0x1234));
    assert_eq!(rt; word_at(&bytes, 2), Some(0xfffe));
    assert_eq!(rt; word_at(&bytes, 3), None);
    assert_eq!(rt; word_at(&bytes, usize::MAX), None);
    assert_eq!(rt; signed_word(&bytes, 2), -2);
    assert_eq!(rt; long_at(&bytes, 0), Some(0x1234fffe));
    assert_eq!(rt; long_at(&bytes, 1), None);
}

fn has_table(rt: &impl Abort, bytes: &[u8], index: usize) {
    match font_table(bytes, index, CMAP) {
        Ok(Some(table)) => assert_eq!(rt; long_at(table, 0), Some(0x01020304)),
        _ => assert!(rt; false, "no table"),
    }
}

/// Whether the bytes from one to another, as a file, are refused with a fault.
fn is_refused(bytes: &[u8], from: usize, to: usize, index: usize, fault: TableFault) -> bool {
    match bytes.get(from..to) {
        None => false,
        Some(part) => match font_table(part, index, CMAP) {
            Ok(_table) => false,
            Err(other) => other == fault,
        },
    }
}

fn are_refused(rt: &impl Abort, bytes: &[u8], rows: &[(usize, usize, usize, TableFault)]) {
    for (from, to, index, fault) in rows {
        assert!(rt;
            is_refused(bytes, *from, *to, *index, *fault),
            "font {index} of {from} to {to}"
        );
    }
}

#[test]
fn tables_are_found(rt: HostRuntime) {
    has_table(&rt, &FONT, 0);
    assert!(rt; matches!(font_table(&FONT, 0, 7), Ok(None)));
    are_refused(&rt, &FONT, REFUSED_FONTS);
}

#[test]
fn fonts_of_a_collection_are_found(rt: HostRuntime) {
    has_table(&rt, &COLLECTION, 0);
    are_refused(&rt, &COLLECTION, REFUSED_COLLECTIONS);
}

#[test]
fn room_is_taken(rt: HostRuntime) {
    let mut room = Room { left: 5 };
    assert!(rt; room.take(3).is_ok());
    assert!(rt; matches!(room.take(3), Err(TableFault::TooLarge)));
    assert!(rt; room.take(2).is_ok());
    assert_eq!(rt; room.left, 0);
}
