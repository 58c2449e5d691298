//! The header of the table, and what it leads to (TN 5176, 6 to 10; OpenType, chapter CFF2).
ghost use Rattle.std.specs.Prelude.{◌≡◌, ◌≤◌, IfOk, Ok, Err};
ghost use Rattle.font_cff.specs.Header.{cff1_of, cff2_of, with_glyphs, cff_of};

use crate::dict::{Dict, read_dict};
use font_bytes::fault::TableFault;
use font_bytes::words::{byte, need, word};
use font_charstrings::index::{Index, Span, index_end, no_objects, object, read_index};

/// A table: its top DICT, String INDEX, global subroutines and CharStrings INDEX.
#[derive(Clone, Copy, PartialEq, Eq, Debug)]
pub struct Cff {
    pub is_cff2: bool,
    pub top: Dict,
    pub strings: Index,
    pub global: Index,
    pub glyphs: Index,
}

/// With the CharStrings INDEX, of at most 65,535 glyphs.
#[tactic(auto, unfolding(crate::specs::Header::with_glyphs))]
fn with_glyphs(
    table: &[u8],
    is_cff2: bool,
    top: Dict,
    strings: Index,
    global: Index,
) -> Result<Cff, TableFault>
    ensures value { result ≡ with_glyphs table.now is_cff2 top strings global }
    ensures few { IfOk result (λ c. c.glyphs.count ≤ 65535) }
{
    if top.charstrings == 0 {
        return Err(TableFault::Missing);
    }
    let glyphs = read_index(table, top.charstrings as usize, is_cff2)?;
    if glyphs.count > 65535 {
        return Err(TableFault::TooLarge);
    }
    Ok(Cff {
        is_cff2,
        top,
        strings,
        global,
        glyphs,
    })
}

/// The table `CFF `: header, Name INDEX, Top DICT INDEX, String INDEX, Global Subr INDEX.
#[tactic(auto, unfolding(crate::specs::Header::cff1_of))]
fn read_cff1(table: &[u8]) -> Result<Cff, TableFault>
    ensures value { result ≡ cff1_of table.now }
    ensures few { IfOk result (λ c. c.glyphs.count ≤ 65535) }
{
    need(table, 0, 4)?;
    if byte(table, 0) != 1 {
        return Err(TableFault::Kind(0));
    }
    let tops_at = index_end(table, usize::from(byte(table, 2)), false)?;
    let tops = read_index(table, tops_at, false)?;
    let strings_at = index_end(table, tops_at, false)?;
    let strings = read_index(table, strings_at, false)?;
    let global_at = index_end(table, strings_at, false)?;
    let global = read_index(table, global_at, false)?;
    let top_span = object(table, tops, 0)?;
    let top = read_dict(table, top_span)?;
    with_glyphs(table, false, top, strings, global)
}

/// The table CFF2: header, Top DICT, Global Subr INDEX.
#[tactic(auto, unfolding(crate::specs::Header::cff2_of))]
fn read_cff2(table: &[u8]) -> Result<Cff, TableFault>
    ensures value { result ≡ cff2_of table.now }
    ensures few { IfOk result (λ c. c.glyphs.count ≤ 65535) }
{
    need(table, 0, 5)?;
    if byte(table, 0) != 2 {
        return Err(TableFault::Kind(0));
    }
    let at = usize::from(byte(table, 2));
    let length = usize::from(word(table, 3));
    let global = read_index(table, at + length, true)?;
    let top = read_dict(
        table,
        Span {
            at,
            end: at + length,
        },
    )?;
    with_glyphs(table, true, top, no_objects(), global)
}

/// The table `CFF ` or CFF2.
pub fn read_header(table: &[u8], is_cff2: bool) -> Result<Cff, TableFault>
    ensures value { result ≡ cff_of table.now is_cff2 }
    ensures few { IfOk result (λ c. c.glyphs.count ≤ 65535) }
{
    if is_cff2 {
        return read_cff2(table);
    }
    read_cff1(table)
}
