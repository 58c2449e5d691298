//! The fonts of a file and the tables of a font (OpenType, chapter 4, table directory).
ghost use Rattle.std.specs.Prelude.{◌≡◌, ◌≤◌, ◌<◌, ◌+◌, ◌*◌, length, IfOk, IfErr, Ok, Err, find, ◌==◌};
ghost use Rattle.std.specs.Option.{option_map, option_copied};
ghost use Rattle.font_bytes.specs.Records.{records};
ghost use Rattle.font_bytes.specs.Directory.{table_record, is_font_version, font_count, font_start, directory, table_bytes, table_of};

use crate::fault::TableFault;
use crate::words::{long, need, word};

/// `ttcf`
const COLLECTION: u32 = 0x74746366;
/// 1.0: outlines of TrueType
const TRUETYPE: u32 = 0x00010000;
/// `true`
const APPLE: u32 = 0x74727565;
/// `OTTO`: outlines of CFF
const CFF: u32 = 0x4f54544f;

/// A record of the table directory.
#[derive(Clone, Copy, PartialEq, Eq, Debug)]
pub struct TableRecord {
    pub tag: u32,
    pub offset: usize,
    pub length: usize,
}

/// Whether a table directory of this version is known: outlines of TrueType or CFF.
fn is_font_version(version: u32) -> bool
    ensures { result ≡ is_font_version version }
{
    version == TRUETYPE || version == APPLE || version == CFF
}

/// How many fonts a file has.
pub fn font_count(bytes: &[u8]) -> Result<usize, TableFault>
    ensures { result ≡ font_count bytes.now }
{
    need(bytes, 0, 12)?;
    let version = long(bytes, 0);
    if version == COLLECTION {
        return Ok(long(bytes, 8) as usize);
    }
    if is_font_version(version) {
        Ok(1)
    } else {
        Err(TableFault::Kind(0))
    }
}

/// The offset of the table directory of a font: 0 in a file of one font.
pub fn font_start(bytes: &[u8], index: usize) -> Result<usize, TableFault>
    ensures { result ≡ font_start bytes.now index }
{
    need(bytes, 0, 12)?;
    if long(bytes, 0) != COLLECTION {
        return if index == 0 {
            Ok(0)
        } else {
            Err(TableFault::Index)
        };
    }
    let count = long(bytes, 8) as usize;
    need(bytes, 12, 4 * count)?;
    if index < count {
        Ok(long(bytes, 12 + 4 * index) as usize)
    } else {
        Err(TableFault::Index)
    }
}

/// The offset of the table directory of a font, whose header and records are within the bytes, and the number of records.
pub fn table_directory(bytes: &[u8], index: usize) -> Result<(usize, usize), TableFault>
    ensures value { result ≡ directory bytes.now index }
    ensures within { IfOk result (λ d. d.0 + 12 + 16 * d.1 ≤ length bytes.now) }
{
    let start = font_start(bytes, index)?;
    need(bytes, start, 12)?;
    if !is_font_version(long(bytes, start)) {
        return Err(TableFault::Kind(start));
    }
    let count = usize::from(word(bytes, start + 4));
    need(bytes, start + 12, 16 * count)?;
    Ok((start, count))
}

/// The record of a table at an offset.
pub fn table_record(bytes: &[u8], at: usize) -> TableRecord
    requires { at + 16 ≤ length bytes.now }
    ensures { result ≡ table_record bytes.now at }
{
    TableRecord {
        tag: long(bytes, at),
        offset: long(bytes, at + 8) as usize,
        length: long(bytes, at + 12) as usize,
    }
}

/// The first of some records with a tag.
#[tactic(auto, using(crate::proofs::Recorded::records_more, crate::proofs::Recorded::records_none))]
fn find_record(bytes: &[u8], at: usize, count: usize, tag: u32) -> Option<TableRecord>
    requires { at + 16 * count ≤ length bytes.now }
    ensures { result ≡ find (λ r. r.tag == tag) (records (table_record bytes.now) 16 at count) }
{
    for index in 0..count {
        let record = table_record(bytes, at + 16 * index);
        if record.tag == tag {
            return Some(record);
        }
    }
    None
}

/// The bytes of a table.
fn table_bytes(bytes: &[u8], table: TableRecord) -> Result<&[u8], TableFault>
    ensures ok { IfOk result (λ t. table_bytes bytes.entry.now table ≡ Ok t.now) }
    ensures refused { IfErr result (λ e. table_bytes bytes.entry.now table ≡ Err e) }
{
    need(bytes, table.offset, table.length)?;
    Ok(&bytes[table.offset..table.offset + table.length])
}

/// The bytes of the table with a tag of a font, none where the font has no such table.
pub fn font_table(bytes: &[u8], index: usize, tag: u32) -> Result<Option<&[u8]>, TableFault>
    ensures ok { IfOk result (λ o. table_of bytes.entry.now index tag ≡ Ok (option_copied o)) }
    ensures refused { IfErr result (λ e. table_of bytes.entry.now index tag ≡ Err e) }
{
    let (start, count) = table_directory(bytes, index)?;
    match find_record(bytes, start + 12, count, tag) {
        None => Ok(None),
        Some(record) => {
            let table = table_bytes(bytes, record)?;
            Ok(Some(table))
        }
    }
}
