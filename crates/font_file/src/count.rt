//! How many fonts a file has.
ghost use Rattle.std.specs.Prelude.{◌≡◌};
ghost use Rattle.font_file.specs.Count.{font_count};

use font_bytes::font_fault::in_table;
use font_bytes::{FontFault, directory};

/// How many fonts a file has: as many as the header of a collection says (OpenType, chapter 4, font collections), one in
/// any other font file.
///
/// # Errors
///
/// `Short` where the file has less than 12 bytes, `Kind` where it begins as no font does.
pub fn font_count(bytes: &[u8]) -> Result<usize, FontFault>
    ensures { result ≡ font_count bytes.now }
{
    in_table(None, directory::font_count(bytes))
}
