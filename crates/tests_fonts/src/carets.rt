//! The carets of ligatures, by bytes written out.
use font_bytes::fault::TableFault;
use font_bytes::room::Room;
use font_carets::{carets_of, glyph_carets, read_ligature_carets};
use std::process::Abort;
use std::test::Fail;

/// Glyph 5 has carets of the formats 1 at 250, 2, 3 at -2 and 9, and one whose offset is null; glyph 6 one past the end;
/// glyph 7 has a null offset, and glyph 8 no ligature.
const DEFINITION: [u8; 68] = [
    0, 1, 0, 0, 0, 0, 0, 0, 0, 12, 0, 0, // header
    0, 44, 0, 3, 0, 10, 0, 40, 0, 0, // list
    0, 5, 0, 12, 0, 16, 0, 20, 0, 26, 0, 0, // glyph 5
    0, 1, 0, 250, 0, 2, 0, 3, 0, 3, 0xff, 0xfe, 0, 0, 0, 9, 0, 7, // its values
    0, 1, 0, 99, // glyph 6
    0, 1, 0, 4, 0, 5, 0, 6, 0, 7, 0, 8, // coverage
];

#[test]
fn ligatures_have_carets(rt: HostRuntime) -> Result<(), Fail> {
    let mut room = Room { left: 100 };
    let Ok(rows) = read_ligature_carets(rt.alloc(), &DEFINITION, &mut room) else {
        return Err("refused".into());
    };
    assert!(rt; carets_of(&rows, 5) == [250, 0, -2, 0, 0].as_slice());
    assert!(rt; carets_of(&rows, 6) == [0].as_slice());
    assert!(rt; carets_of(&rows, 7).is_empty() && carets_of(&rows, 8).is_empty());
    assert!(rt; glyph_carets(&rows, 5).len() == 5 && glyph_carets(&rows, 65541).is_empty());
    // three offsets, four glyphs, and six carets
    assert_eq!(rt; room.left, 87);
    Ok(())
}

/// Why the first bytes of the table aren't read, in some room.
fn fault_of(rt: &HostRuntime, end: usize, left: usize) -> Option<TableFault> {
    let mut room = Room { left };
    read_ligature_carets(rt.alloc(), DEFINITION.get(..end)?, &mut room).err()
}

#[test]
fn damaged_carets_are_refused(rt: HostRuntime) {
    assert_eq!(rt; fault_of(&rt, 68, 13), None);
    assert_eq!(rt; fault_of(&rt, 68, 12), Some(TableFault::TooLarge));
    assert_eq!(rt; fault_of(&rt, 11, 100), Some(TableFault::Short(0)));
    assert_eq!(rt; fault_of(&rt, 15, 100), Some(TableFault::Short(12)));
    assert_eq!(rt; fault_of(&rt, 21, 100), Some(TableFault::Short(16)));
    assert_eq!(rt; fault_of(&rt, 58, 100), Some(TableFault::Short(56)));
}
