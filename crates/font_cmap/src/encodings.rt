//! The choice among the subtables of cmap.
ghost use Rattle.std.specs.Prelude.{◌≡◌, ◌≢◌, ◌≤◌, ◌+◌, ◌*◌, length, IfOk, IfErr, Ok, Err};
ghost use Rattle.font_cmap.specs.Encodings.{encoding_record, find_subtable, unicode_subtable, best_subtable, chosen_subtable, record_count};

use font_bytes::fault::TableFault;
use font_bytes::words::{long, need, word};

/// An encoding record: the platform, the encoding of the platform, and the offset of their subtable.
#[derive(Clone, Copy, PartialEq, Eq, Debug)]
pub struct EncodingRecord {
    pub platform: u16,
    pub encoding: u16,
    pub offset: usize,
}

/// What the numbers of a subtable are.
#[derive(Clone, Copy, PartialEq, Eq, Debug)]
pub enum Encoding {
    /// Characters, of which U+F000 to F0FF stand for U+0000 to 00FF too.
    Symbol,
    /// Characters.
    Unicode,
    /// Codes of the character set Mac Roman.
    Roman,
}

/// The encoding record at an offset.
fn encoding_record(table: &[u8], at: usize) -> EncodingRecord
    requires { at + 8 ≤ length table.now }
    ensures { result ≡ encoding_record table.now at }
{
    EncodingRecord {
        platform: word(table, at),
        encoding: word(table, at + 2),
        offset: long(table, at + 4) as usize,
    }
}

/// The offset of the first subtable of a platform's encoding.
#[tactic(auto, unfolding(crate::specs::Encodings::find_subtable), using(font_bytes::proofs::Recorded::records_more, font_bytes::proofs::Recorded::records_none))]
pub fn find_subtable(table: &[u8], count: usize, platform: u16, encoding: u16) -> Option<usize>
    requires { 4 + 8 * count ≤ length table.now }
    ensures { result ≡ find_subtable table.now count platform encoding }
{
    for index in 0..count {
        let found = encoding_record(table, 4 + 8 * index);
        if found.platform == platform && found.encoding == encoding && found.offset != 0 {
            return Some(found.offset);
        }
    }
    None
}

/// The offset of the best subtable of Unicode: Windows before the platform Unicode, all characters before those of 16 bits.
#[tactic(auto, unfolding(crate::specs::Encodings::unicode_subtable))]
fn unicode_subtable(table: &[u8], count: usize) -> Option<usize>
    requires { 4 + 8 * count ≤ length table.now }
    ensures { result ≡ unicode_subtable table.now count }
{
    let last = find_subtable(table, count, 0, 0);
    let by_unicode = find_subtable(table, count, 0, 3).or(find_subtable(table, count, 0, 2).or(
        find_subtable(table, count, 0, 1).or(last),
    ));
    let short = find_subtable(table, count, 3, 1).or(by_unicode);
    let by_unicode = find_subtable(table, count, 0, 6).or(find_subtable(table, count, 0, 4).or(
        short,
    ));
    find_subtable(table, count, 3, 10).or(by_unicode)
}

/// The best subtable: the symbol one, else the best one of Unicode, else the one of Mac Roman.
#[tactic(auto, unfolding(crate::specs::Encodings::best_subtable))]
fn best_subtable(table: &[u8], count: usize) -> Option<(Encoding, usize)>
    requires { 4 + 8 * count ≤ length table.now }
    ensures { result ≡ best_subtable table.now count }
{
    if let Some(at) = find_subtable(table, count, 3, 0) {
        return Some((Encoding::Symbol, at));
    }
    if let Some(at) = unicode_subtable(table, count) {
        return Some((Encoding::Unicode, at));
    }
    match find_subtable(table, count, 1, 0) {
        Some(at) => Some((Encoding::Roman, at)),
        None => None,
    }
}

/// The number of encoding records, which are within the table.
#[tactic(auto, unfolding(crate::specs::Encodings::record_count))]
pub fn record_count(table: &[u8]) -> Result<usize, TableFault>
    ensures value { result ≡ record_count table.now }
    ensures within { IfOk result (λ n. 4 + 8 * n ≤ length table.now) }
{
    need(table, 0, 4)?;
    let count = usize::from(word(table, 2));
    need(table, 4, 8 * count)?;
    Ok(count)
}

/// The subtable of cmap that gives characters their glyphs, none where no subtable has a known encoding.
#[tactic(auto, unfolding(crate::specs::Encodings::chosen_subtable))]
pub fn chosen_subtable(table: &[u8]) -> Result<Option<(Encoding, usize)>, TableFault>
    ensures { result ≡ chosen_subtable table.now }
{
    let count = record_count(table)?;
    Ok(best_subtable(table, count))
}
