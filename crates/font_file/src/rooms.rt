//! How many rows a font may have.
ghost use Rattle.std.specs.Prelude.{◌≡◌, ◌≤◌};
ghost use Rattle.font_file.specs.Rooms.{counted_bytes, outline_room};

use font_bytes::Room;

/// The room for the characters and variants of cmap, in rows.
pub(crate) const CHARACTER_ROOM: Room = Room { left: 1_310_720 };

/// The room for each of GDEF, GSUB and GPOS, in rows.
pub(crate) const LAYOUT_ROOM: Room = Room { left: 4_194_304 };

/// The bytes of a table of outlines that count.
fn counted_bytes(bytes: usize) -> usize
    ensures counted { result ≡ counted_bytes bytes }
    ensures within { result ≤ 4294967296 }
{
    if bytes < 4_294_967_296 {
        bytes
    } else {
        4_294_967_296
    }
}

/// The room for the steps of charstrings where the boxes of all glyphs are read, in rows.
pub(crate) fn outline_room(table: &[u8]) -> Room
    ensures { result.left ≡ outline_room table.now }
{
    Room {
        left: 1_048_576 + 16 * counted_bytes(table.len()),
    }
}
