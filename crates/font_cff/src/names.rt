//! The names of glyphs (TN 5176, 10 and 13).
ghost use Rattle.std.specs.Prelude.{◌≡◌, ◌≢◌, ◌≤◌, ◌<◌, ◌+◌, ◌*◌, ◌-◌, length, string_bytes, IfOk, IfErr, OnOk, Ok, Err};
ghost use Rattle.font_bytes.specs.declared.fault.TableFault.{TableFault};
ghost use Rattle.font_common.specs.Offsets.{after};
ghost use Rattle.font_cff.specs.Names.{name_bytes, text_of, name_rows, names_from, names_of};

use font_bytes::fault::TableFault;
use font_bytes::room::Room;
use font_charstrings::index::{Index, object};
use font_strings::standard_string;
use layout_face::parts::NameRow;
use std::alloc::Global;

/// The bytes of the string with a number: a standard string, or one of the String INDEX.
#[tactic(auto, unfolding(crate::specs::Names::name_bytes))]
fn name_bytes<'a>(table: &'a [u8], strings: Index, sid: u32) -> Result<&'a [u8], TableFault>
    ensures ok { IfOk result (λ b. name_bytes table.entry.now strings sid ≡ Ok b.now) }
    ensures refused { IfErr result (λ e. name_bytes table.entry.now strings sid ≡ Err e) }
{
    if sid < 391 {
        return Ok(standard_string(sid as usize));
    }
    let span = object(table, strings, sid as usize - 391)?;
    Ok(&table[span.at..span.end])
}

/// The text of bytes, each of which is a character (ISO 8859-1).
fn text_of(alloc: Global, bytes: &[u8]) -> Result<String, TableFault>
    ensures ok { IfOk result (λ t. string_bytes t ≡ text_of bytes.now) }
    ensures refused { IfErr result (λ e. e ≡ TableFault.OutOfMemory) }
{
    let mut text = String::new(alloc);
    for byte in bytes {
        text.push(char::from(*byte))?;
    }
    Ok(text)
}

/// Appends the name of a glyph unless it is empty; its bytes take room.
#[tactic(auto, unfolding(crate::specs::Names::name_rows))]
fn push_name(
    alloc: Global,
    table: &[u8],
    strings: Index,
    glyph: u16,
    sid: u32,
    rows: &mut Vec<NameRow>,
    room: &mut Room,
) -> Result<(), TableFault>
    ensures ok { OnOk result (after rows.old.items (name_rows table.now strings room.old.left glyph sid)
        ≡ Ok (rows.new.items, room.new.left)) }
    ensures refused { IfErr result (λ e. e ≢ TableFault.OutOfMemory
        → name_rows table.now strings room.old.left glyph sid ≡ Err e) }
{
    let bytes = name_bytes(table, strings, sid)?;
    room.take(bytes.len())?;
    if bytes.is_empty() {
        return Ok(());
    }
    let name = text_of(alloc, bytes)?;
    rows.push(NameRow::new(glyph, name))?;
    Ok(())
}

/// The names of glyphs by their string numbers.
pub fn read_names(
    alloc: Global,
    table: &[u8],
    strings: Index,
    sids: &[u32],
    room: &mut Room,
) -> Result<Vec<NameRow>, TableFault>
    ensures ok { IfOk result (λ v. names_of table.now strings room.old.left sids.now ≡ Ok (v.items, room.new.left)) }
    ensures refused { IfErr result (λ e. e ≢ TableFault.OutOfMemory
        → names_of table.now strings room.old.left sids.now ≡ Err e) }
{
    let mut rows = Vec::new(alloc);
    if sids.len() > 65536 {
        return Err(TableFault::TooLarge);
    }
    for glyph in 0..sids.len() {
        push_name(
            alloc,
            table,
            strings,
            glyph as u16,
            sids[glyph],
            &mut rows,
            room,
        )?;
    }
    Ok(rows)
}
