//! The characters of the encodings symbol and Mac Roman.
ghost use Rattle.std.specs.Prelude.{◌≡◌, ◌≢◌, ◌≤◌, ◌+◌, ◌++◌, length, true, IfOk, IfErr, OnOk, Ok, Err};
ghost use Rattle.std.specs.List.{flat_map};
ghost use Rattle.buffer_rows.specs.Keys.{numbers_rise, row_of};
ghost use Rattle.font_cmap.specs.Rows.{IsArray, rows_in, glyph_of_row};
ghost use Rattle.font_cmap.specs.Encoded.{row_glyph, symbol_glyph, symbol_rows, roman_row, roman_rows, encoded_rows};

use crate::encodings::Encoding;
use crate::ranges::RangeArray;
use crate::roman::upper_codes;
use crate::rows::{push_ranges, push_row};
use buffer_rows::PagedRows;
use font_bytes::fault::TableFault;
use layout_face::parts::CharacterRow;
use std::alloc::Global;

/// The private characters that stand for those below U+0100 begin here.
const PRIVATE: u32 = 0xf000;

/// The glyph of a number by its row, 0 where it has none.
pub fn row_glyph(rows: &PagedRows<CharacterRow>, number: u32) -> u16
    ensures { result ≡ row_glyph rows.now number }
{
    match rows.get(number) {
        Some(row) => row.glyph,
        None => 0,
    }
}

/// The glyph of a character below U+0100 in a symbol font: its own one, else that of the private character for it.
fn symbol_glyph(rows: &PagedRows<CharacterRow>, number: u32) -> u16
    requires { number ≤ 255 }
    ensures { result ≡ symbol_glyph (row_glyph rows.now) number }
{
    let own = row_glyph(rows, number);
    if own == 0 {
        row_glyph(rows, PRIVATE + number)
    } else {
        own
    }
}

/// Appends the rows of the characters below U+0100 of a symbol font.
#[tactic(auto, using(crate::proofs::Steps::low_pushed, crate::proofs::Steps::rows_end))]
fn push_low(low: &mut Vec<CharacterRow>, rows: &PagedRows<CharacterRow>) -> Result<(), TableFault>
    ensures ok { OnOk result (low.new.items ≡ low.old.items ++ rows_in (symbol_glyph (row_glyph rows.now)) 0 256) }
    ensures refused { IfErr result (λ e. e ≡ TableFault.OutOfMemory) }
{
    for number in 0..256 {
        push_row(low, number, symbol_glyph(rows, number))?;
    }
    Ok(())
}

/// The rows of a symbol font: a character below U+0100 that has no glyph has that of the private character for it.
#[tactic(auto, unfolding(crate::specs::Encoded::symbol_rows))]
fn symbol_rows(
    alloc: Global,
    table: &[u8],
    ranges: RangeArray,
    rows: &PagedRows<CharacterRow>,
) -> Result<Vec<CharacterRow>, TableFault>
    requires { IsArray (length table.now) ranges }
    ensures ok { IfOk result (λ v. v.items ≡ symbol_rows table.now ranges rows.now) }
    ensures refused { IfErr result (λ e. e ≡ TableFault.OutOfMemory) }
{
    let mut all = Vec::new(alloc);
    push_low(&mut all, rows)?;
    push_ranges(&mut all, table, ranges, 256)?;
    Ok(all)
}

/// Appends the rows of the codes below 128, which are their characters.
#[tactic(auto, using(crate::proofs::Steps::low_pushed, crate::proofs::Steps::rows_end))]
fn push_ascii(all: &mut Vec<CharacterRow>, rows: &PagedRows<CharacterRow>) -> Result<(), TableFault>
    ensures ok { OnOk result (all.new.items ≡ all.old.items ++ rows_in (row_glyph rows.now) 0 128) }
    ensures refused { IfErr result (λ e. e ≡ TableFault.OutOfMemory) }
{
    for code in 0..128 {
        push_row(all, code, row_glyph(rows, code))?;
    }
    Ok(())
}

/// Appends the row of a character by the glyph of its code.
fn push_pair(
    all: &mut Vec<CharacterRow>,
    rows: &PagedRows<CharacterRow>,
    pair: (u16, u8),
) -> Result<(), TableFault>
    ensures ok { OnOk result (all.new.items ≡ all.old.items ++ roman_row rows.now pair) }
    ensures refused { IfErr result (λ e. e ≡ TableFault.OutOfMemory) }
{
    let (character, code) = pair;
    push_row(all, u32::from(character), row_glyph(rows, u32::from(code)))
}

/// Appends the rows of characters by the glyphs of their codes.
fn push_pairs(
    all: &mut Vec<CharacterRow>,
    rows: &PagedRows<CharacterRow>,
    pairs: &[(u16, u8)],
) -> Result<(), TableFault>
    ensures ok { OnOk result (all.new.items ≡ all.old.items ++ flat_map (roman_row rows.now) pairs.now) }
    ensures refused { IfErr result (λ e. e ≡ TableFault.OutOfMemory) }
{
    for pair in pairs {
        push_pair(all, rows, *pair)?;
    }
    Ok(())
}

/// The rows of a font of Mac Roman, whose numbers are codes.
#[tactic(auto, unfolding(crate::specs::Encoded::roman_rows))]
fn roman_rows(
    alloc: Global,
    rows: &PagedRows<CharacterRow>,
) -> Result<Vec<CharacterRow>, TableFault>
    ensures ok { IfOk result (λ v. v.items ≡ roman_rows rows.now) }
    ensures refused { IfErr result (λ e. e ≡ TableFault.OutOfMemory) }
{
    let mut all = Vec::new(alloc);
    push_ascii(&mut all, rows)?;
    push_pairs(&mut all, rows, upper_codes())?;
    Ok(all)
}

/// The rows of characters, by the rows of a subtable of an encoding.
#[tactic(auto, using(crate::proofs::Rising::symbol_rises, crate::proofs::Rising::roman_rises))]
pub fn encoded_rows(
    alloc: Global,
    table: &[u8],
    encoding: Encoding,
    ranges: RangeArray,
    rows: PagedRows<CharacterRow>,
) -> Result<PagedRows<CharacterRow>, TableFault>
    requires array { IsArray (length table.now) ranges }
    requires rising { numbers_rise (λ r. r.character) rows ≡ true }
    ensures ok { IfOk result (λ p. p ≡ encoded_rows table.now ranges encoding rows) }
    ensures refused { IfErr result (λ e. e ≡ TableFault.OutOfMemory) }
{
    match encoding {
        Encoding::Unicode => Ok(rows),
        Encoding::Symbol => {
            let all = symbol_rows(alloc, table, ranges, &rows)?;
            paged(alloc, all)
        }
        Encoding::Roman => {
            let all = roman_rows(alloc, &rows)?;
            paged(alloc, all)
        }
    }
}

/// Rows that are found by their characters.
pub fn paged(alloc: Global, rows: Vec<CharacterRow>) -> Result<PagedRows<CharacterRow>, TableFault>
    requires { numbers_rise (λ r. r.character) rows.items ≡ true }
    ensures ok { IfOk result (λ p. p ≡ rows.items) }
    ensures refused { IfErr result (λ e. e ≡ TableFault.OutOfMemory) }
{
    let rows = PagedRows::new(alloc, rows)?;
    Ok(rows)
}
