//! Tables whose boxes and names are fontTools', the example of TN 5176 (appendix D), and tables that are refused.
use font_bytes::fault::TableFault;
use font_bytes::room::Room;
use font_cff::charset::read_charset;
use font_cff::glyphs::{CffGlyphs, CffParts, read_cff};
use font_cff::selects::read_selects;
use font_metrics::GlyphBox;
use std::alloc::Global;
use std::process::Abort;

/// Two glyphs without outlines, by the charset ISOAdobe.
const EXAMPLE: [u8; 147] = [
    1, 0, 4, 1, 0, 1, 1, 1, 19, 65, 66, 67, 68, 69, 70, 43, 84, 105, 109, 101, 115, 45, 82, 111,
    109, 97, 110, 0, 1, 1, 1, 31, 248, 27, 0, 248, 28, 2, 248, 29, 3, 248, 25, 4, 28, 111, 0, 13,
    251, 60, 251, 110, 250, 124, 250, 22, 5, 233, 17, 184, 241, 18, 0, 3, 1, 1, 8, 19, 24, 48, 48,
    49, 46, 48, 48, 55, 84, 105, 109, 101, 115, 32, 82, 111, 109, 97, 110, 84, 105, 109, 101, 115,
    0, 0, 0, 2, 1, 1, 2, 3, 14, 14, 125, 153, 249, 42, 153, 251, 118, 149, 247, 115, 139, 6, 247,
    154, 147, 252, 124, 140, 7, 125, 153, 248, 86, 149, 247, 94, 153, 8, 251, 110, 140, 248, 115,
    147, 247, 16, 139, 9, 167, 10, 223, 11, 247, 142, 20,
];

/// Each path operator, flexes, hints and masks, subroutines, a composed glyph, div and fractions.
const ALL: [u8; 473] = [
    1, 0, 4, 2, 0, 1, 1, 1, 4, 84, 45, 82, 0, 1, 1, 1, 29, 248, 36, 2, 29, 255, 255, 134, 101, 254,
    126, 248, 231, 29, 0, 0, 121, 155, 5, 247, 16, 15, 141, 248, 99, 18, 247, 29, 17, 0, 10, 1, 1,
    7, 12, 17, 23, 26, 35, 39, 45, 52, 55, 102, 108, 101, 120, 101, 115, 115, 117, 98, 114, 115,
    104, 105, 110, 116, 115, 99, 117, 114, 118, 101, 115, 111, 100, 100, 102, 114, 97, 99, 116,
    105, 111, 110, 115, 108, 111, 110, 101, 110, 111, 109, 111, 118, 101, 90, 99, 117, 115, 116,
    111, 109, 84, 32, 82, 0, 1, 1, 1, 7, 169, 179, 5, 32, 10, 11, 1, 0, 34, 0, 0, 125, 0, 0, 171,
    0, 1, 135, 8, 0, 13, 2, 0, 1, 0, 4, 0, 17, 0, 27, 0, 37, 0, 102, 0, 108, 0, 132, 0, 214, 0,
    241, 1, 18, 1, 23, 1, 27, 1, 40, 248, 136, 14, 239, 139, 21, 248, 36, 6, 249, 80, 7, 252, 36,
    6, 14, 159, 248, 136, 21, 169, 239, 5, 179, 6, 14, 248, 236, 247, 12, 247, 142, 204, 247, 86,
    14, 139, 139, 21, 149, 159, 169, 179, 189, 199, 209, 12, 34, 140, 141, 142, 143, 144, 145, 146,
    147, 148, 149, 150, 151, 189, 12, 35, 140, 141, 142, 143, 144, 145, 146, 147, 148, 12, 36, 149,
    141, 169, 143, 189, 145, 209, 147, 229, 149, 150, 12, 37, 140, 159, 142, 179, 144, 199, 146,
    219, 148, 239, 150, 12, 37, 14, 149, 149, 21, 32, 29, 14, 248, 136, 149, 159, 169, 179, 18,
    140, 141, 142, 143, 144, 145, 19, 232, 149, 159, 21, 20, 16, 169, 99, 5, 14, 140, 141, 21, 142,
    143, 144, 145, 146, 27, 142, 143, 144, 145, 146, 26, 149, 159, 169, 179, 189, 31, 149, 159,
    169, 179, 189, 199, 209, 219, 229, 30, 140, 141, 142, 143, 144, 145, 146, 147, 24, 140, 141,
    142, 143, 144, 145, 146, 147, 25, 148, 147, 146, 145, 144, 143, 142, 141, 27, 148, 147, 146,
    145, 144, 143, 142, 141, 26, 148, 147, 146, 145, 144, 143, 142, 141, 140, 149, 150, 151, 152,
    31, 14, 140, 141, 21, 142, 143, 144, 6, 142, 143, 144, 252, 236, 7, 140, 141, 142, 143, 144,
    145, 146, 147, 148, 149, 150, 151, 8, 14, 255, 0, 0, 128, 0, 255, 255, 255, 128, 0, 21, 255, 0,
    1, 64, 0, 255, 252, 23, 64, 0, 5, 136, 146, 12, 12, 6, 239, 142, 12, 12, 7, 14, 247, 225, 95,
    21, 14, 169, 179, 5, 14, 254, 255, 250, 255, 21, 28, 138, 208, 28, 117, 48, 5, 14, 141, 19, 0,
    1, 1, 1, 4, 189, 6, 11,
];

/// CFF2 with blends of two regions.
const BLEND: [u8; 135] = [
    2, 0, 5, 0, 8, 247, 16, 12, 36, 208, 17, 156, 24, 0, 0, 0, 0, 0, 50, 0, 1, 0, 0, 0, 12, 0, 1,
    0, 0, 0, 40, 0, 2, 0, 2, 0, 0, 64, 0, 64, 0, 0, 0, 0, 0, 0, 0, 0, 0, 0, 0, 0, 0, 0, 0, 64, 0,
    64, 0, 0, 0, 0, 0, 0, 2, 0, 0, 0, 1, 0, 0, 0, 4, 1, 1, 10, 34, 46, 46, 239, 247, 92, 21, 189,
    6, 149, 159, 5, 149, 159, 140, 141, 142, 143, 141, 16, 21, 169, 179, 144, 145, 146, 147, 141,
    16, 5, 39, 132, 136, 140, 16, 6, 139, 15, 149, 159, 21, 140, 141, 142, 143, 144, 145, 8, 0, 0,
    0, 1, 1, 1, 5, 139, 247, 27, 18,
];

/// Three glyphs of a CID-keyed font, of three font DICTs.
const CID: [u8; 529] = [
    1, 0, 4, 2, 0, 1, 1, 1, 22, 78, 111, 116, 111, 83, 97, 110, 115, 67, 74, 75, 106, 112, 45, 82,
    101, 103, 117, 108, 97, 114, 0, 1, 1, 1, 46, 248, 27, 248, 28, 139, 12, 30, 251, 42, 12, 3,
    198, 89, 250, 29, 249, 174, 5, 30, 42, 0, 57, 153, 159, 12, 31, 29, 0, 0, 255, 255, 12, 34,
    240, 15, 245, 12, 37, 247, 60, 12, 36, 247, 12, 17, 0, 2, 1, 1, 6, 14, 65, 100, 111, 98, 101,
    73, 100, 101, 110, 116, 105, 116, 121, 0, 0, 0, 0, 66, 5, 181, 3, 0, 3, 0, 0, 0, 0, 1, 2, 0, 2,
    1, 0, 3, 0, 3, 1, 1, 2, 15, 42, 14, 85, 32, 10, 34, 10, 147, 74, 5, 35, 10, 33, 10, 14, 248,
    249, 248, 77, 33, 10, 247, 15, 145, 247, 25, 153, 244, 157, 138, 213, 24, 37, 115, 251, 14,
    126, 251, 19, 133, 32, 10, 0, 3, 1, 1, 5, 9, 13, 144, 247, 79, 18, 144, 247, 84, 18, 147, 248,
    59, 18, 250, 124, 20, 246, 21, 250, 124, 20, 144, 19, 0, 2, 1, 1, 165, 221, 8, 151, 215, 142,
    153, 143, 157, 144, 152, 25, 55, 141, 5, 140, 127, 137, 121, 138, 121, 131, 62, 24, 71, 138, 5,
    96, 52, 146, 145, 104, 31, 141, 64, 5, 136, 180, 217, 135, 182, 27, 200, 140, 135, 92, 134, 89,
    137, 89, 25, 251, 30, 75, 251, 4, 251, 23, 251, 21, 26, 54, 191, 98, 205, 194, 199, 161, 172,
    194, 30, 155, 83, 211, 161, 131, 164, 131, 166, 131, 168, 25, 224, 211, 220, 247, 3, 196, 247,
    34, 8, 232, 112, 190, 71, 63, 26, 251, 22, 251, 4, 46, 251, 73, 120, 30, 182, 72, 5, 247, 124,
    176, 234, 247, 16, 247, 36, 26, 247, 2, 65, 231, 251, 17, 172, 30, 140, 143, 5, 144, 155, 148,
    166, 145, 153, 8, 252, 7, 251, 65, 21, 121, 7, 64, 149, 58, 153, 68, 30, 103, 88, 91, 122, 100,
    27, 101, 120, 160, 180, 221, 213, 238, 236, 194, 31, 14, 21, 97, 251, 4, 78, 58, 73, 76, 8,
    128, 197, 132, 200, 203, 26, 140, 180, 5, 156, 185, 197, 154, 204, 27, 247, 23, 247, 2, 21, 60,
    159, 138, 122, 134, 113, 134, 124, 25, 136, 129, 102, 140, 5, 88, 78, 130, 123, 83, 31, 142,
    181, 142, 181, 143, 178, 11, 249, 122, 20, 248, 253, 21, 147, 19, 0, 6, 1, 1, 6, 25, 34, 71,
    76, 89, 247, 109, 126, 21, 11, 37, 10, 209, 201, 184, 247, 75, 160, 31, 251, 43, 7, 92, 86, 95,
    115, 87, 27, 11, 206, 200, 174, 182, 191, 31, 142, 6, 11, 214, 247, 226, 6, 247, 27, 84, 227,
    251, 25, 51, 63, 100, 107, 90, 30, 174, 36, 10, 196, 168, 202, 27, 228, 162, 72, 69, 31, 251,
    123, 113, 37, 80, 251, 10, 26, 11, 76, 5, 168, 182, 11, 41, 206, 83, 230, 30, 165, 213, 21, 85,
    97, 163, 201, 11,
];

/// What is read of all tables.
const PARTS: CffParts = CffParts {
    boxes: true,
    names: true,
};

/// The glyphs of a table in a room.
fn read(alloc: Global, table: &[u8], is_cff2: bool, left: usize) -> Result<CffGlyphs, TableFault> {
    let mut room = Room { left };
    read_cff(alloc, table, is_cff2, PARTS, &mut room)
}

/// Whether boxes are these rows of left, bottom, right and top.
fn are_boxes(boxes: &[GlyphBox], rows: &[[i32; 4]]) -> bool {
    if boxes.len() != rows.len() {
        return false;
    }
    let mut is_equal = true;
    for (found, row) in boxes.iter().zip(rows) {
        let [left, bottom, right, top] = *row;
        if found.left != left
            || found.bottom != bottom
            || found.right != right
            || found.top != top
        {
            is_equal = false;
        }
    }
    is_equal
}

/// Whether the glyphs of a table have these boxes.
fn has_boxes(rt: &impl Abort, alloc: Global, table: &[u8], is_cff2: bool, rows: &[[i32; 4]]) {
    match read(alloc, table, is_cff2, 10_000) {
        Ok(glyphs) => {
            assert_eq!(rt; glyphs.count, rows.len());
            assert!(rt; are_boxes(glyphs.boxes.as_slice(), rows));
        }
        Err(fault) => assert!(rt; false, "{fault:?}"),
    }
}

/// Whether the glyphs of a table have these names.
fn has_names(rt: &impl Abort, alloc: Global, table: &[u8], names: &[&str]) {
    match read(alloc, table, false, 10_000) {
        Ok(glyphs) => {
            assert_eq!(rt; glyphs.names.len(), names.len());
            for (row, name) in glyphs.names.iter().zip(names) {
                assert_eq!(rt; row.name(), *name);
            }
        }
        Err(fault) => assert!(rt; false, "{fault:?}"),
    }
}

/// Whether a table is refused with a fault.
fn is_refused(alloc: Global, table: &[u8], left: usize, fault: TableFault) -> bool {
    match read(alloc, table, false, left) {
        Ok(_glyphs) => false,
        Err(other) => other == fault,
    }
}

#[test]
fn the_worked_example_is_read(rt: HostRuntime) {
    let alloc = rt.alloc();
    has_boxes(&rt, alloc, &EXAMPLE, false, &[[0; 4]; 2]);
    has_names(&rt, alloc, &EXAMPLE, &[".notdef", "space"]);
}

#[test]
fn operators_draw(rt: HostRuntime) {
    let alloc = rt.alloc();
    has_boxes(
        &rt,
        alloc,
        &ALL,
        false,
        &[
            [0, 0, 0, 0],
            [100, 0, 500, 700],
            [20, 500, 90, 600],
            [100, 0, 500, 850],
            [0, 0, 603, 353],
            [10, 10, 90, 50],
            [10, -20, 40, 20],
            [1, 2, 490, 414],
            [-587, 2, 13, 56],
            [1, -1001, 2, -1],
            [333, -44, 333, -44],
            [0, 0, 30, 40],
            [-31131, 1131, -1131, 31131],
        ],
    );
    has_names(
        &rt,
        alloc,
        &ALL,
        &[
            ".notdef",
            "A",
            "acute",
            "Aacute",
            "flexes",
            "subrs",
            "hints",
            "curves",
            "odd",
            "fractions",
            "lone",
            "nomove",
            "Zcustom",
        ],
    );
}

#[test]
fn blends_leave_defaults(rt: HostRuntime) {
    let rows = [
        [100, 200, 160, 220],
        [-60, 20, 40, 60],
        [10, 20, 19, 32],
        [0, 0, 0, 0],
    ];
    has_boxes(&rt, rt.alloc(), &BLEND, true, &rows);
}

#[test]
fn font_dicts_are_chosen(rt: HostRuntime) {
    let alloc = rt.alloc();
    has_boxes(
        &rt,
        alloc,
        &CID,
        false,
        &[[0, 0, 0, 0], [59, -13, 483, 557], [109, -50, 905, 794]],
    );
    has_names(&rt, alloc, &CID, &[]);
}

#[test]
fn refusals_have_their_causes(rt: HostRuntime) {
    let alloc = rt.alloc();
    let mut table = EXAMPLE;
    assert!(rt; is_refused(alloc, &table[..3], 10_000, TableFault::Short(0)));
    assert!(rt; is_refused(alloc, &table[..146], 10_000, TableFault::Short(102)));
    assert!(rt; is_refused(alloc, &table, 46, TableFault::TooLarge));
    table[101] = 2;
    assert!(rt; is_refused(alloc, &table, 10_000, TableFault::Kind(101)));
    table[0] = 2;
    assert!(rt; is_refused(alloc, &table, 10_000, TableFault::Kind(0)));
    let mut deep = ALL;
    deep[470] = 32;
    deep[471] = 10;
    assert!(rt; is_refused(alloc, &deep, 10_000, TableFault::TooLarge));
}

/// Whether the charset of n glyphs has these string numbers.
fn has_sids(rt: &impl Abort, alloc: Global, table: &[u8], at: usize, count: usize, sids: &[u32]) {
    match read_charset(alloc, table, at, count.min(65_535)) {
        Ok(found) => assert_eq!(rt; found.as_slice(), sids),
        Err(fault) => assert!(rt; false, "{fault:?}"),
    }
}

#[test]
fn charsets_are_read(rt: HostRuntime) {
    let alloc = rt.alloc();
    let table = [
        9, 9, 9, 0, 1, 135, 0, 5, 1, 0, 7, 2, 0, 99, 200, 2, 0, 7, 0, 2, 1, 0, 255, 255,
    ];
    has_sids(&rt, alloc, &table, 0, 3, &[0, 1, 2]);
    has_sids(&rt, alloc, &table, 1, 3, &[0, 1, 229]);
    has_sids(&rt, alloc, &table, 2, 3, &[0, 1, 231]);
    has_sids(&rt, alloc, &table, 3, 3, &[0, 391, 5]);
    has_sids(&rt, alloc, &table, 8, 6, &[0, 7, 8, 9, 99, 100]);
    has_sids(&rt, alloc, &table, 15, 5, &[0, 7, 8, 9, 256]);
}

/// Whether the FDSelect of n glyphs has these indices.
fn has_selects(
    rt: &impl Abort,
    alloc: Global,
    table: &[u8],
    at: usize,
    count: usize,
    dicts: &[u16],
) {
    match read_selects(alloc, table, at, count) {
        Ok(found) => assert_eq!(rt; found.as_slice(), dicts),
        Err(fault) => assert!(rt; false, "{fault:?}"),
    }
}

#[test]
fn selects_are_read(rt: HostRuntime) {
    let alloc = rt.alloc();
    let table = [
        0, 4, 0, 2, 3, 0, 2, 0, 0, 7, 0, 2, 1, 0, 5, 4, 0, 0, 0, 1, 0, 0, 0, 0, 1, 2, 0, 0, 0, 3,
    ];
    has_selects(&rt, alloc, &table, 0, 3, &[4, 0, 2]);
    has_selects(&rt, alloc, &table, 4, 5, &[7, 7, 1, 1, 1]);
    has_selects(&rt, alloc, &table, 15, 3, &[258, 258, 258]);
    assert!(rt; matches!(read_selects(alloc, &table, 1, 3), Err(TableFault::Short(6))));
    assert!(rt; matches!(read_selects(alloc, &table, 3, 3), Err(TableFault::Kind(3))));
}
