//! The calls that make and end tables and fonts, and shape texts, as `include/kuspveli.h` declares them.
//!
//! The calls for tables and for a font have one form, since their handles are two types.
ghost use Rattle.std.specs.Prelude.{◌≡◌, ◌≢◌, ◌↔◌, Err, IfNone, IfSome, IsTrue, None, Some, length, map};
ghost use Rattle.buffer_core.specs.Sides.{all_glyphs, empty_buffer};
ghost use Rattle.c_text.specs.Written.{info_of, with_front};
ghost use Rattle.c_text.specs.Formats.{are_swapped, is_font, is_tables};
ghost use Rattle.c_text.specs.Numbers.{count_of, parts_without};
ghost use Rattle.font_file.specs.Count.{font_count};
ghost use Rattle.shell_fonts.specs.Fonts.{AreLibraryTables, font_of};
ghost use Rattle.shell_readers.specs.Input.{IsInput, font_in};
ghost use Rattle.shell_readers.specs.Tables.{AreLawfulTables};
ghost use Rattle.c_text.specs.Fonts.{AreGlyphsOf, HasLibraryTables, HasRead, HasReadFile, HasReadFileOver, HasReadOver, HasReadTables, HasSegmentOf, IsFaultOf, IsFaultOfFile, IsNumberOf, glyphs_of, positions_of, segment_in, textless, without_text};

use c_text::font::Font;
use c_text::formats::{are_swapped, is_font, is_tables};
use c_text::handle::{Handle, TablesHandle};
use c_text::input::Tables;
use c_text::numbers::{
    NO_FONT, NO_TABLES, OK, OTHER_FORMAT, OUT_OF_MEMORY, fault_number, parts_without,
};
use c_text::types::{kus_glyph_info_t, kus_glyph_position_t, kus_text_t};
use font_file::font_count;
use std::alloc::Global;

/// Reads tables, which must be lawful, and keeps them; tables that were there are let go. JSON that says that it is a font
/// is refused before it is read. On a fault the handle stays as it was.
#[tactic(auto, using(crate::proofs::Results::number_of_fault, crate::proofs::Results::tables_were_read, crate::proofs::Results::other_format, crate::proofs::Results::own_format))]
#[unsafe(no_mangle)]
pub extern "C" fn kus_tables_create(alloc: Global, tables: &mut TablesHandle, json: &[u8]) -> u32
    ensures read { result ≡ 0 → HasReadTables json.now tables.new.value }
    ensures refused { result ≢ 0 → result ≢ 1 → result ≢ 19 → IsNumberOf (λ e. AreLawfulTables json.now (Err e)) result }
    ensures other_format { (result ≡ 19) ↔ IsTrue (is_font json.now) }
    ensures kept { result ≢ 0 → tables.new.value ≡ tables.old.value }
{
    if is_font(json) {
        return OTHER_FORMAT;
    }
    let read = match Tables::read(alloc, json) {
        Ok(read) => read,
        Err(fault) => return fault_number(fault),
    };
    let Ok(read) = Box::new(alloc, read) else {
        return OUT_OF_MEMORY;
    };
    tables.put(alloc, read);
    OK
}

/// Makes the tables that are inside the library; tables that were there are let go. On a fault the handle stays as it was.
#[tactic(auto, using(crate::proofs::Results::number_of_fault, crate::proofs::Results::library_tables_were_read))]
#[unsafe(no_mangle)]
pub extern "C" fn kus_tables_create_default(alloc: Global, tables: &mut TablesHandle) -> u32
    ensures read { result ≡ 0 → HasLibraryTables tables.new.value }
    ensures refused { result ≢ 0 → result ≢ 1 → IsNumberOf (λ e. AreLibraryTables (Err e)) result }
    ensures kept { result ≢ 0 → tables.new.value ≡ tables.old.value }
{
    let read = match Tables::library(alloc) {
        Ok(read) => read,
        Err(fault) => return fault_number(fault),
    };
    let Ok(read) = Box::new(alloc, read) else {
        return OUT_OF_MEMORY;
    };
    tables.put(alloc, read);
    OK
}

/// Another handle of tables; tables that the other handle had are let go. On a fault both handles stay as they were.
#[unsafe(no_mangle)]
pub extern "C" fn kus_tables_reference(
    alloc: Global,
    tables: &mut TablesHandle,
    other: &mut TablesHandle,
) -> u32
    ensures no_tables { IfNone tables.old.value (result ≡ 17) }
    ensures shared { result ≡ 0 → other.new.value ≡ tables.old.value }
    ensures refused { result ≢ 0 → IfSome tables.old.value (λ _. result ≡ 1) }
    ensures same { tables.new.value ≡ tables.old.value }
    ensures kept { result ≢ 0 → other.new.value ≡ other.old.value }
{
    let Some(first) = tables.take(alloc) else {
        return NO_TABLES;
    };
    let another = first.another();
    tables.put(alloc, first);
    let Ok(another) = another else {
        return OUT_OF_MEMORY;
    };
    let Ok(another) = Box::new(alloc, another) else {
        return OUT_OF_MEMORY;
    };
    other.put(alloc, another);
    OK
}

/// Drops the tables, if there are any; fonts that were made over them keep them.
#[unsafe(no_mangle)]
pub extern "C" fn kus_tables_destroy(alloc: Global, tables: &mut TablesHandle)
    ensures { tables.new.value ≡ None }
{
    let last = tables.take(alloc);
    drop(last);
}

/// Reads a font over tables, which it shares; a font that was there is dropped. JSON that says that it is tables is refused
/// before it is read. On a fault the handles stay as they were.
#[tactic(auto, using(crate::proofs::Results::number_of_fault, crate::proofs::Results::font_was_read_over, crate::proofs::Results::other_format, crate::proofs::Results::own_format))]
#[unsafe(no_mangle)]
pub extern "C" fn kus_font_create_with_tables(
    alloc: Global,
    font: &mut Handle,
    tables: &mut TablesHandle,
    json: &[u8],
) -> u32
    ensures no_tables { IfNone tables.old.value (result ≡ 17) }
    ensures read { result ≡ 0 → HasReadOver tables.old.value json.now font.new.value }
    ensures refused { result ≢ 0 → result ≢ 1 → result ≢ 19
        → IfSome tables.old.value (λ _. IsNumberOf (λ e. font_in json.now ≡ Err e) result) }
    ensures other_format { IfSome tables.old.value (λ _. (result ≡ 19) ↔ IsTrue (is_tables json.now)) }
    ensures same { tables.new.value ≡ tables.old.value }
    ensures kept { result ≢ 0 → font.new.value ≡ font.old.value }
{
    let Some(shared) = tables.take(alloc) else {
        return NO_TABLES;
    };
    if is_tables(json) {
        tables.put(alloc, shared);
        return OTHER_FORMAT;
    }
    let read = Font::read_over(alloc, &shared, json);
    tables.put(alloc, shared);
    let read = match read {
        Ok(read) => read,
        Err(fault) => return fault_number(fault),
    };
    font.put(alloc, read);
    OK
}

/// Reads tables and a font, and keeps them; a font that was there is dropped. JSON that says that it is the other of both is
/// refused before it is read. On a fault the handle stays as it was.
#[tactic(auto, using(crate::proofs::Results::number_of_fault, crate::proofs::Results::other_format, crate::proofs::Results::own_format))]
#[unsafe(no_mangle)]
pub extern "C" fn kus_font_create(
    alloc: Global,
    font: &mut Handle,
    tables: &[u8],
    json: &[u8],
) -> u32
    ensures read { result ≡ 0 → HasRead tables.now json.now font.new.value }
    ensures refused { result ≢ 0 → result ≢ 1 → result ≢ 19
        → IsNumberOf (λ e. IsInput tables.now json.now (Err e)) result }
    ensures other_format { (result ≡ 19) ↔ IsTrue (are_swapped tables.now json.now) }
    ensures kept { result ≢ 0 → font.new.value ≡ font.old.value }
{
    if are_swapped(tables, json) {
        return OTHER_FORMAT;
    }
    let read = match Font::read(alloc, tables, json) {
        Ok(read) => read,
        Err(fault) => return fault_number(fault),
    };
    font.put(alloc, read);
    OK
}

/// Reads the font with an index of a font file over tables, which it shares; a font that was there is dropped. `flags` says
/// what is not read: 1 the boxes of glyphs, 2 their names. On a fault the handles stay as they were.
#[tactic(auto, using(crate::proofs::Results::number_of_fault, crate::proofs::Results::file_was_read_over))]
#[unsafe(no_mangle)]
pub extern "C" fn kus_font_create_from_bytes_over(
    alloc: Global,
    font: &mut Handle,
    tables: &mut TablesHandle,
    bytes: &[u8],
    index: usize,
    flags: u32,
) -> u32
    ensures no_tables { IfNone tables.old.value (result ≡ 17) }
    ensures read { result ≡ 0 → HasReadFileOver tables.old.value (parts_without flags) bytes.now index font.new.value }
    ensures refused { result ≢ 0 → result ≢ 1
        → IfSome tables.old.value (λ _. IsNumberOf (λ e. font_of (parts_without flags) bytes.now index ≡ Err e) result) }
    ensures same { tables.new.value ≡ tables.old.value }
    ensures kept { result ≢ 0 → font.new.value ≡ font.old.value }
{
    let Some(shared) = tables.take(alloc) else {
        return NO_TABLES;
    };
    let read = Font::read_file_over(alloc, &shared, bytes, index, parts_without(flags));
    tables.put(alloc, shared);
    let read = match read {
        Ok(read) => read,
        Err(fault) => return fault_number(fault),
    };
    font.put(alloc, read);
    OK
}

/// Reads the font with an index of a font file over tables of its own, those that are inside the library; a font that was
/// there is dropped. `flags` says what is not read: 1 the boxes of glyphs, 2 their names. On a fault the handle stays as it
/// was.
#[tactic(auto, using(crate::proofs::Results::number_of_fault, crate::proofs::Results::file_was_read))]
#[unsafe(no_mangle)]
pub extern "C" fn kus_font_create_from_bytes_alone(
    alloc: Global,
    font: &mut Handle,
    bytes: &[u8],
    index: usize,
    flags: u32,
) -> u32
    ensures read { result ≡ 0 → HasReadFile (parts_without flags) bytes.now index font.new.value }
    ensures refused { result ≢ 0 → result ≢ 1 → IsNumberOf (IsFaultOfFile (parts_without flags) bytes.now index) result }
    ensures kept { result ≢ 0 → font.new.value ≡ font.old.value }
{
    let read = match Font::read_file(alloc, bytes, index, parts_without(flags)) {
        Ok(read) => read,
        Err(fault) => return fault_number(fault),
    };
    font.put(alloc, read);
    OK
}

/// How many fonts a file has: as many as a collection says, 1 in any other font file; 0 where the bytes are no font file.
#[unsafe(no_mangle)]
pub extern "C" fn kus_count_fonts(bytes: &[u8]) -> usize
    ensures { result ≡ count_of (font_count bytes.now) }
{
    match font_count(bytes) {
        Ok(count) => count,
        Err(_) => 0,
    }
}

/// Another handle of a font, which shares what was read, in the same scale and with the same replacements; a font that the
/// other handle had is dropped. On a fault both handles stay as they were.
#[unsafe(no_mangle)]
pub extern "C" fn kus_font_reference(alloc: Global, font: &mut Handle, other: &mut Handle) -> u32
    ensures no_font { IfNone font.old.value (result ≡ 16) }
    ensures shared { result ≡ 0 → IfSome font.old.value (λ f. other.new.value ≡ Some (without_text f)) }
    ensures refused { result ≢ 0 → IfSome font.old.value (λ _. result ≡ 1) }
    ensures same { font.new.value ≡ font.old.value }
    ensures kept { result ≢ 0 → other.new.value ≡ other.old.value }
{
    let Some(first) = font.take(alloc) else {
        return NO_FONT;
    };
    let another = first.another(alloc);
    font.put(alloc, first);
    let Ok(another) = another else {
        return OUT_OF_MEMORY;
    };
    other.put(alloc, another);
    OK
}

/// Drops the font, if there is one.
#[unsafe(no_mangle)]
pub extern "C" fn kus_font_destroy(alloc: Global, font: &mut Handle)
    ensures { font.new.value ≡ None }
{
    let last = font.take(alloc);
    drop(last);
}

/// Shapes a text, and writes its glyphs and their positions, as many as there is room for, and how many there are; on a
/// fault there are none.
#[tactic(auto, using(crate::proofs::Results::number_of_fault, crate::proofs::Results::no_infos, crate::proofs::Results::no_positions))]
#[unsafe(no_mangle)]
pub extern "C" fn kus_shape(
    alloc: Global,
    font: &mut Handle,
    text: &kus_text_t<'_>,
    infos: &mut [kus_glyph_info_t],
    positions: &mut [kus_glyph_position_t],
    count: &mut usize,
) -> u32
    ensures no_font { IfNone font.old.value (result ≡ 16) }
    ensures shaped { result ≡ 0 → IfSome font.new.value (λ f. AreGlyphsOf f.input f.replacements text.now f.glyphs) }
    ensures segment { result ≡ 0 → HasSegmentOf text.now (segment_in font.new.value) }
    ensures refused { result ≢ 0 → result ≢ 1
        → IfSome font.old.value (λ f. IsNumberOf (IsFaultOf f.input f.replacements text.now) result) }
    ensures none { result ≢ 0 → glyphs_of font.new.value ≡ empty_buffer }
    ensures rest { textless font.new.value ≡ textless font.old.value }
    ensures count { count.new ≡ length (all_glyphs (glyphs_of font.new.value)) }
    ensures infos { infos.new ≡ with_front (map info_of (all_glyphs (glyphs_of font.new.value))) infos.old }
    ensures positions { positions.new ≡ with_front (positions_of font.new.value) positions.old }
{
    *count = 0;
    let Some(mut kept) = font.take(alloc) else {
        return NO_FONT;
    };
    let shaped = kept.shape(alloc, text);
    *count = kept.write_glyphs(infos, positions);
    font.put(alloc, kept);
    match shaped {
        Ok(()) => OK,
        Err(fault) => fault_number(fault),
    }
}

/// Writes the glyphs of the last text and their positions, as many as there is room for; answers how many there are.
#[tactic(auto, using(crate::proofs::Results::no_infos, crate::proofs::Results::no_positions))]
#[unsafe(no_mangle)]
pub extern "C" fn kus_get_glyphs(
    alloc: Global,
    font: &mut Handle,
    infos: &mut [kus_glyph_info_t],
    positions: &mut [kus_glyph_position_t],
) -> usize
    ensures same { font.new.value ≡ font.old.value }
    ensures count { result ≡ length (all_glyphs (glyphs_of font.old.value)) }
    ensures infos { infos.new ≡ with_front (map info_of (all_glyphs (glyphs_of font.old.value))) infos.old }
    ensures positions { positions.new ≡ with_front (positions_of font.old.value) positions.old }
{
    let Some(shown) = font.take(alloc) else {
        return 0;
    };
    let count = shown.write_glyphs(infos, positions);
    font.put(alloc, shown);
    count
}

/// Frees room that the glyphs of the last text don't need, as that of longer texts before it; the glyphs stay.
#[unsafe(no_mangle)]
pub extern "C" fn kus_font_shrink(alloc: Global, font: &mut Handle)
    ensures { font.new.value ≡ font.old.value }
{
    let Some(mut kept) = font.take(alloc) else {
        return;
    };
    kept.shrink_to_fit();
    font.put(alloc, kept);
}
