//! The glyphs of characters with a variation selector after them (OpenType, chapter 5, cmap, format 14).
ghost use Rattle.std.specs.Prelude.{◌≡◌, ◌≢◌, ◌≤◌, ◌<◌, ◌+◌, ◌-◌, ◌*◌, ◌^◌, ◌++◌, length, IfOk, IfErr, OnOk, Ok, Err};
ghost use Rattle.std.specs.List.{flat_map};
ghost use Rattle.font_bytes.specs.Records.{records};
ghost use Rattle.font_bytes.specs.Words.{triple};
ghost use Rattle.buffer_rows.specs.KeyOrder.{key_order};
ghost use Rattle.font_cmap.specs.Encoded.{row_glyph};
ghost use Rattle.font_cmap.specs.Variations.{variation_row, variants_in, range_size, range_rows, ranges_size, mapping_row, itself, after, usual_at, mappings_at, selector_at, selectors_in, selectors_at, variation_key, sorted_variations, variations_at};

use crate::encoded::row_glyph;
use crate::encodings::{find_subtable, record_count};
use buffer_rows::{PagedRows, SortedRows};
use font_bytes::fault::TableFault;
use font_bytes::room::Room;
use font_bytes::words::{byte, long, need, word};
use font_common::first_rows;
use layout_face::parts::{CharacterRow, VariationRow};
use std::alloc::Global;

/// The uint24 at an offset.
#[tactic(auto, unfolding(font_bytes::specs::Words::triple))]
fn number_at(table: &[u8], at: usize) -> u32
    requires { at + 3 ≤ length table.now }
    ensures value { result ≡ triple table.now at }
    ensures few { result < 2 ^ 24 }
{
    u32::from(byte(table, at)) * 65536 + u32::from(word(table, at + 1))
}

/// Appends the row of a character and a selector, where both are characters and the glyph isn't 0.
#[tactic(auto, unfolding(crate::specs::Variations::variation_row))]
fn push_variation(
    rows: &mut Vec<VariationRow>,
    number: u32,
    selector: u32,
    glyph: u16,
) -> Result<(), TableFault>
    ensures ok { OnOk result (rows.new.items ≡ rows.old.items ++ variation_row selector number glyph) }
    ensures refused { IfErr result (λ e. e ≡ TableFault.OutOfMemory) }
{
    if glyph == 0 {
        return Ok(());
    }
    let Some(character) = char::from_u32(number) else {
        return Ok(());
    };
    let Some(selector) = char::from_u32(selector) else {
        return Ok(());
    };
    rows.push(VariationRow {
        character,
        selector,
        glyph,
    })?;
    Ok(())
}

/// Appends the rows of some characters that keep their usual glyph, from one on.
#[tactic(auto, using(crate::proofs::Varied::variant_pushed, crate::proofs::Varied::variants_end))]
fn push_usual(
    rows: &mut Vec<VariationRow>,
    usual: &PagedRows<CharacterRow>,
    selector: u32,
    first: u32,
    count: u32,
) -> Result<(), TableFault>
    requires { first + count ≤ 16777472 }
    ensures ok { OnOk result (rows.new.items ≡ rows.old.items ++ variants_in (row_glyph usual.now) selector first count) }
    ensures refused { IfErr result (λ e. e ≡ TableFault.OutOfMemory) }
{
    for offset in 0..count {
        let number = first + offset;
        push_variation(rows, number, selector, row_glyph(usual, number))?;
    }
    Ok(())
}

/// How many characters the Unicode range at an offset has.
fn range_size(table: &[u8], at: usize) -> usize
    requires { at + 4 ≤ length table.now }
    ensures value { result ≡ range_size table.now at }
    ensures few { result ≤ 256 }
{
    usize::from(byte(table, at + 3)) + 1
}

/// Appends the rows of the Unicode range at an offset, whose characters keep their usual glyph.
fn push_range(
    rows: &mut Vec<VariationRow>,
    table: &[u8],
    usual: &PagedRows<CharacterRow>,
    selector: u32,
    at: usize,
) -> Result<(), TableFault>
    requires { at + 4 ≤ length table.now }
    ensures ok { OnOk result (rows.new.items ≡ rows.old.items ++ range_rows table.now (row_glyph usual.now) selector at) }
    ensures refused { IfErr result (λ e. e ≡ TableFault.OutOfMemory) }
{
    push_usual(
        rows,
        usual,
        selector,
        number_at(table, at),
        range_size(table, at) as u32,
    )
}

/// How many characters some Unicode ranges have.
#[tactic(auto, using(font_bytes::proofs::Recorded::records_more, font_bytes::proofs::Recorded::records_end))]
fn ranges_size(table: &[u8], at: usize, count: usize) -> usize
    requires within { at + 4 * count ≤ length table.now }
    requires few { count < 2 ^ 32 }
    ensures { result ≡ ranges_size table.now (records itself 4 at count) }
{
    let mut size = 0;
    for index in 0..count {
        size += range_size(table, at + 4 * index);
    }
    size
}

/// Appends the rows of some Unicode ranges.
#[tactic(auto, using(font_bytes::proofs::Recorded::records_more, font_bytes::proofs::Recorded::records_end))]
fn push_ranges(
    rows: &mut Vec<VariationRow>,
    table: &[u8],
    usual: &PagedRows<CharacterRow>,
    selector: u32,
    at: usize,
    count: usize,
) -> Result<(), TableFault>
    requires { at + 4 * count ≤ length table.now }
    ensures ok { OnOk result (rows.new.items
        ≡ rows.old.items ++ flat_map (range_rows table.now (row_glyph usual.now) selector) (records itself 4 at count)) }
    ensures refused { IfErr result (λ e. e ≡ TableFault.OutOfMemory) }
{
    for index in 0..count {
        push_range(rows, table, usual, selector, at + 4 * index)?;
    }
    Ok(())
}

/// Appends the row of the mapping at an offset.
fn push_mapping(
    rows: &mut Vec<VariationRow>,
    table: &[u8],
    selector: u32,
    at: usize,
) -> Result<(), TableFault>
    requires { at + 5 ≤ length table.now }
    ensures ok { OnOk result (rows.new.items ≡ rows.old.items ++ mapping_row table.now selector at) }
    ensures refused { IfErr result (λ e. e ≡ TableFault.OutOfMemory) }
{
    push_variation(rows, number_at(table, at), selector, word(table, at + 3))
}

/// Appends the rows of some mappings.
#[tactic(auto, using(font_bytes::proofs::Recorded::records_more, font_bytes::proofs::Recorded::records_end))]
fn push_mappings(
    rows: &mut Vec<VariationRow>,
    table: &[u8],
    selector: u32,
    at: usize,
    count: usize,
) -> Result<(), TableFault>
    requires { at + 5 * count ≤ length table.now }
    ensures ok { OnOk result (rows.new.items
        ≡ rows.old.items ++ flat_map (mapping_row table.now selector) (records itself 5 at count)) }
    ensures refused { IfErr result (λ e. e ≡ TableFault.OutOfMemory) }
{
    for index in 0..count {
        push_mapping(rows, table, selector, at + 5 * index)?;
    }
    Ok(())
}

/// Appends the rows of the table of Unicode ranges (DefaultUVS) at an offset from a base, none at a null offset. Each
/// character of a range takes a row of room.
#[tactic(auto, unfolding(crate::specs::Variations::usual_at))]
fn read_usual(
    rows: &mut Vec<VariationRow>,
    table: &[u8],
    usual: &PagedRows<CharacterRow>,
    selector: u32,
    base: usize,
    offset: u32,
    room: &mut Room,
) -> Result<(), TableFault>
    requires { base ≤ length table.now }
    ensures ok { OnOk result (after rows.old.items (usual_at table.now (row_glyph usual.now) selector base offset room.old.left) ≡ Ok (rows.new.items, room.new.left)) }
    ensures refused { IfErr result (λ e. e ≢ TableFault.OutOfMemory
        → usual_at table.now (row_glyph usual.now) selector base offset room.old.left ≡ Err e) }
{
    if offset == 0 {
        return Ok(());
    }
    let at = base + offset as usize;
    need(table, at, 4)?;
    let count = long(table, at) as usize;
    need(table, at + 4, 4 * count)?;
    room.take(ranges_size(table, at + 4, count))?;
    push_ranges(rows, table, usual, selector, at + 4, count)
}

/// Appends the rows of the table of mappings (NonDefaultUVS) at an offset from a base, none at a null offset. Each mapping
/// takes a row of room.
#[tactic(auto, unfolding(crate::specs::Variations::mappings_at))]
fn read_mapped(
    rows: &mut Vec<VariationRow>,
    table: &[u8],
    selector: u32,
    base: usize,
    offset: u32,
    room: &mut Room,
) -> Result<(), TableFault>
    requires { base ≤ length table.now }
    ensures ok { OnOk result (after rows.old.items (mappings_at table.now selector base offset room.old.left) ≡ Ok (rows.new.items, room.new.left)) }
    ensures refused { IfErr result (λ e. e ≢ TableFault.OutOfMemory
        → mappings_at table.now selector base offset room.old.left ≡ Err e) }
{
    if offset == 0 {
        return Ok(());
    }
    let at = base + offset as usize;
    need(table, at, 4)?;
    let count = long(table, at) as usize;
    need(table, at + 4, 5 * count)?;
    room.take(count)?;
    push_mappings(rows, table, selector, at + 4, count)
}

/// Appends the rows of the variation selector record at an offset.
#[tactic(auto, unfolding(crate::specs::Variations::selector_at), using(crate::proofs::Varied::joined, crate::proofs::Varied::first_refused, crate::proofs::Varied::second_refused))]
fn read_selector(
    rows: &mut Vec<VariationRow>,
    table: &[u8],
    usual: &PagedRows<CharacterRow>,
    base: usize,
    at: usize,
    room: &mut Room,
) -> Result<(), TableFault>
    requires base { base ≤ length table.now }
    requires record_within { at + 11 ≤ length table.now }
    ensures ok { OnOk result (after rows.old.items (selector_at table.now (row_glyph usual.now) base room.old.left at) ≡ Ok (rows.new.items, room.new.left)) }
    ensures refused { IfErr result (λ e. e ≢ TableFault.OutOfMemory
        → selector_at table.now (row_glyph usual.now) base room.old.left at ≡ Err e) }
{
    let selector = number_at(table, at);
    let default = long(table, at + 3);
    read_usual(rows, table, usual, selector, base, default, room)?;
    read_mapped(rows, table, selector, base, long(table, at + 7), room)
}

/// Reads the rows of some variation selector records.
#[tactic(auto, using(font_bytes::proofs::Recorded::records_more, font_bytes::proofs::Recorded::records_end))]
fn read_selectors(
    alloc: Global,
    table: &[u8],
    usual: &PagedRows<CharacterRow>,
    base: usize,
    count: usize,
    room: &mut Room,
) -> Result<Vec<VariationRow>, TableFault>
    requires { base + 10 + 11 * count ≤ length table.now }
    ensures ok { IfOk result (λ v.
        selectors_in table.now (row_glyph usual.now) base room.old.left (records itself 11 (base + 10) count) ≡ Ok (v.items, room.new.left)) }
    ensures refused { IfErr result (λ e. e ≢ TableFault.OutOfMemory
        → selectors_in table.now (row_glyph usual.now) base room.old.left (records itself 11 (base + 10) count) ≡ Err e) }
{
    let mut rows = Vec::new(alloc);
    for index in 0..count {
        read_selector(&mut rows, table, usual, base, base + 10 + 11 * index, room)?;
    }
    Ok(rows)
}

/// Reads the rows of the subtable of variation selectors at an offset, in its order; none of another format. Each record
/// takes a row of room.
#[tactic(auto, unfolding(crate::specs::Variations::selectors_at))]
fn read_subtable(
    alloc: Global,
    table: &[u8],
    usual: &PagedRows<CharacterRow>,
    at: usize,
    room: &mut Room,
) -> Result<Vec<VariationRow>, TableFault>
    ensures ok { IfOk result (λ v. selectors_at table.now (row_glyph usual.now) at room.old.left ≡ Ok (v.items, room.new.left)) }
    ensures refused { IfErr result (λ e. e ≢ TableFault.OutOfMemory
        → selectors_at table.now (row_glyph usual.now) at room.old.left ≡ Err e) }
{
    need(table, at, 10)?;
    if word(table, at) != 14 {
        return Ok(Vec::new(alloc));
    }
    let count = long(table, at + 6) as usize;
    need(table, at + 10, 11 * count)?;
    room.take(count)?;
    read_selectors(alloc, table, usual, at, count, room)
}

/// The number by which variations are ordered: the character, then the selector.
fn variation_key(row: &VariationRow) -> u64
    ensures { result ≡ variation_key row.now }
{
    u64::from(u32::from(row.character)) * 0x110000 + u64::from(u32::from(row.selector))
}

/// Sorts variations by character and selector; those of one key keep their order.
fn sort_variations(rows: &mut Vec<VariationRow>) -> Result<(), TableFault>
    ensures ok { OnOk result (rows.new.items ≡ key_order variation_key rows.old.items) }
    ensures refused { IfErr result (λ e. e ≡ TableFault.OutOfMemory) }
{
    rows.sort_by_key(|row| variation_key(row))?;
    Ok(())
}

/// Variations by character and selector, of each pair the first.
#[tactic(auto, unfolding(crate::specs::Variations::sorted_variations))]
fn sorted_variations(
    alloc: Global,
    rows: Vec<VariationRow>,
) -> Result<SortedRows<VariationRow>, TableFault>
    ensures ok { IfOk result (λ v. v ≡ sorted_variations rows.items) }
    ensures refused { IfErr result (λ e. e ≡ TableFault.OutOfMemory) }
{
    let mut rows = rows;
    sort_variations(&mut rows)?;
    first_rows(alloc, rows)
}

/// Reads the glyphs of characters with a variation selector after them, by the first subtable of variation sequences; each
/// character that keeps its usual glyph has that one, where it has one. Of sequences that are repeated the first stays.
#[tactic(auto, unfolding(crate::specs::Variations::variations_at))]
pub fn read_variations(
    alloc: Global,
    table: &[u8],
    usual: &PagedRows<CharacterRow>,
    room: &mut Room,
) -> Result<SortedRows<VariationRow>, TableFault>
    ensures ok { IfOk result (λ v. variations_at room.old.left table.now usual.now ≡ Ok (v, room.new.left)) }
    ensures refused { IfErr result (λ e. e ≢ TableFault.OutOfMemory
        → variations_at room.old.left table.now usual.now ≡ Err e) }
{
    let count = record_count(table)?;
    let Some(at) = find_subtable(table, count, 0, 5) else {
        return Ok(SortedRows::new(Vec::new(alloc)));
    };
    let rows = read_subtable(alloc, table, usual, at, room)?;
    sorted_variations(alloc, rows)
}
