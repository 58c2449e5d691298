//! The header of GSUB and GPOS (OpenType, versions 1.0 and 1.1).
ghost use Rattle.std.specs.Prelude.{◌≡◌, ◌≤◌, length};
ghost use Rattle.font_lists.specs.Header.{header_of, layout_header, list_count, variations_offset};

use font_bytes::fault::TableFault;
use font_bytes::words::{long, need, word};

/// The offsets of the lists of a layout table, null ones being 0, and how many features and lookups there are.
#[derive(Clone, Copy)]
pub struct LayoutHeader {
    pub scripts: usize,
    pub features: usize,
    pub lookups: usize,
    pub variations: usize,
    pub feature_count: usize,
    pub lookup_count: usize,
}

/// How many elements a list has that begins with its count, none where its offset is null.
fn list_count(table: &[u8], at: usize) -> Result<usize, TableFault>
    ensures { result ≡ list_count table.now at }
{
    if at == 0 {
        return Ok(0);
    }
    need(table, at, 2)?;
    Ok(usize::from(word(table, at)))
}

/// The offset of feature variations, null in version 1.0.
fn variations_offset(table: &[u8]) -> Result<usize, TableFault>
    requires { 4 ≤ length table.now }
    ensures { result ≡ variations_offset table.now }
{
    if word(table, 2) < 1 {
        return Ok(0);
    }
    need(table, 10, 4)?;
    Ok(long(table, 10) as usize)
}

/// The header of a table of major version 1.
pub fn layout_header(table: &[u8]) -> Result<LayoutHeader, TableFault>
    ensures { result ≡ layout_header table.now }
{
    need(table, 0, 10)?;
    if word(table, 0) != 1 {
        return Err(TableFault::Kind(0));
    }
    let variations = variations_offset(table)?;
    let features = usize::from(word(table, 6));
    let lookups = usize::from(word(table, 8));
    let feature_count = list_count(table, features)?;
    let lookup_count = list_count(table, lookups)?;
    Ok(LayoutHeader {
        scripts: usize::from(word(table, 4)),
        features,
        lookups,
        variations,
        feature_count,
        lookup_count,
    })
}
