//! Reads the names of glyphs.
ghost use Rattle.std.specs.Prelude.{◌≡◌, ◌≢◌, ◌≤◌, ◌<◌, ◌+◌, ◌*◌, ◌++◌, length, min, IfOk, IfErr, OnOk, Ok, Err};
ghost use Rattle.font_bytes.specs.Words.{word};
ghost use Rattle.font_names.specs.Strings.{macintosh_strings, string_in, string_starts};
ghost use Rattle.font_names.specs.Names.{name_row, name_rows, standard_rows, indexed_name, indexed_rows, indexed_names, names_at};

use crate::macintosh::macintosh_strings;
use crate::strings::{latin_text, string_in, string_starts};
use buffer_rows::SortedRows;
use font_bytes::fault::TableFault;
use font_bytes::words::{long, need, word};
use layout_face::parts::NameRow;
use std::alloc::Global;

/// The number of standard names.
const STANDARD: u32 = 258;

/// How many other names there can be.
const OTHERS: u32 = 65278;

/// Appends the row of a glyph, where its name isn't empty.
fn push_name(
    alloc: Global,
    rows: &mut Vec<NameRow>,
    glyph: u16,
    name: &[u8],
) -> Result<(), TableFault>
    ensures ok { OnOk result (rows.new.items ≡ rows.old.items ++ name_row glyph name.now) }
    ensures refused { IfErr result (λ e. e ≡ TableFault.OutOfMemory) }
{
    if name.is_empty() {
        return Ok(());
    }
    let text = latin_text(alloc, name)?;
    rows.push(NameRow::new(glyph, text))?;
    Ok(())
}

/// Version 1.0: the standard names of as many glyphs.
#[tactic(auto, using(crate::proofs::Rows::name_pushed, crate::proofs::Rows::name_rows_rise), unfolding(crate::specs::Names::standard_rows))]
fn standard_rows(alloc: Global, count: u16) -> Result<SortedRows<NameRow>, TableFault>
    ensures ok { IfOk result (λ v. v ≡ standard_rows count) }
    ensures refused { IfErr result (λ e. e ≡ TableFault.OutOfMemory) }
{
    let names = macintosh_strings();
    let starts = string_starts(alloc, names, 0, STANDARD)?;
    let mut rows = Vec::new(alloc);
    for glyph in 0..count.min(258) {
        push_name(
            alloc,
            &mut rows,
            glyph,
            string_in(names, &starts, usize::from(glyph)),
        )?;
    }
    Ok(SortedRows::new(rows))
}

/// Appends the row of a glyph by the index of its name: below 258 a standard one, else one of the strings of the table.
fn push_indexed(
    alloc: Global,
    rows: &mut Vec<NameRow>,
    glyph: u16,
    post: &[u8],
    starts: &[usize],
    standard: &[usize],
) -> Result<(), TableFault>
    requires { 36 + 2 * glyph ≤ length post.now }
    ensures ok { OnOk result (rows.new.items
        ≡ rows.old.items ++ name_row glyph (indexed_name post.now starts.now standard.now (word post.now (34 + 2 * glyph)))) }
    ensures refused { IfErr result (λ e. e ≡ TableFault.OutOfMemory) }
{
    let index = word(post, 34 + 2 * usize::from(glyph));
    if index < 258 {
        let name = string_in(macintosh_strings(), standard, usize::from(index));
        push_name(alloc, rows, glyph, name)
    } else {
        let name = string_in(post, starts, usize::from(index - 258));
        push_name(alloc, rows, glyph, name)
    }
}

/// Version 2.0: the names of n glyphs by their indices, of which the table has as many.
#[tactic(auto, using(crate::proofs::Rows::name_pushed, crate::proofs::Rows::name_rows_rise), unfolding(crate::specs::Names::indexed_rows))]
fn indexed_rows(
    alloc: Global,
    post: &[u8],
    glyphs: u16,
    count: u16,
) -> Result<SortedRows<NameRow>, TableFault>
    requires few { count ≤ glyphs }
    requires within { 34 + 2 * glyphs ≤ length post.now }
    ensures ok { IfOk result (λ v. v ≡ indexed_rows post.now glyphs count) }
    ensures refused { IfErr result (λ e. e ≡ TableFault.OutOfMemory) }
{
    let standard = string_starts(alloc, macintosh_strings(), 0, STANDARD)?;
    let starts = string_starts(alloc, post, 34 + 2 * usize::from(glyphs), OTHERS)?;
    let mut rows = Vec::with_capacity(alloc, usize::from(count))?;
    for glyph in 0..count {
        push_indexed(alloc, &mut rows, glyph, post, &starts, &standard)?;
    }
    Ok(SortedRows::new(rows))
}

/// Version 2.0: numberOfGlyphs and the indices of names.
#[tactic(auto, unfolding(crate::specs::Names::indexed_names))]
fn read_indexed(alloc: Global, post: &[u8], count: u16) -> Result<SortedRows<NameRow>, TableFault>
    ensures ok { IfOk result (λ v. indexed_names post.now count ≡ Ok v) }
    ensures refused { IfErr result (λ e. e ≢ TableFault.OutOfMemory
        → indexed_names post.now count ≡ Err e) }
{
    need(post, 32, 2)?;
    let glyphs = word(post, 32);
    need(post, 34, 2 * usize::from(glyphs))?;
    indexed_rows(alloc, post, glyphs, count.min(glyphs))
}

/// Reads the names of n glyphs: of version 1.0 the standard ones, of version 2.0 those of the table; none of the other
/// versions. A glyph whose name is empty has no row.
#[tactic(auto, unfolding(crate::specs::Names::names_at))]
pub fn read_names(alloc: Global, post: &[u8], count: u16) -> Result<SortedRows<NameRow>, TableFault>
    ensures ok { IfOk result (λ v. names_at post.now count ≡ Ok v) }
    ensures refused { IfErr result (λ e. e ≢ TableFault.OutOfMemory
        → names_at post.now count ≡ Err e) }
{
    need(post, 0, 32)?;
    match long(post, 0) {
        0x0001_0000 => {
            let rows = standard_rows(alloc, count)?;
            Ok(rows)
        }
        0x0002_0000 => read_indexed(alloc, post, count),
        _ => Ok(SortedRows::new(Vec::new(alloc))),
    }
}
