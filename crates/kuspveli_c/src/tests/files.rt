//! With ample memory fonts are read from the bytes of font files, and JSON of the other format is refused.
use super::{answered, close, close_tables, is_shaped, text_of};
use crate::calls::{
    kus_count_fonts, kus_font_create, kus_font_create_from_bytes_alone,
    kus_font_create_from_bytes_over, kus_font_create_with_tables, kus_tables_create,
    kus_tables_create_default, kus_tables_destroy,
};
use crate::faults::kus_describe_fault;
use c_text::handle::{Handle, TablesHandle};
use std::alloc::{AllocError, Global};
use std::test::Fail;

/// A font file of the tables cmap (format 4), head, hhea, hmtx and maxp: `a` and `b` are the glyphs 1 and 2, 500 and 600
/// units wide. hb-shape prints `1=0+500|2=1+600` of it for `ab`.
pub(super) const FILE: &[u8] = b"\
    \x00\x01\x00\x00\x00\x05\x00@\x00\x02\x00\x10cmap\x00\x00\x00\x00\x00\x00\x00\x5c\x00\x00\
    \x00,head\x00\x00\x00\x00\x00\x00\x00\x88\x00\x00\x006hhea\x00\x00\x00\x00\x00\x00\x00\xc0\
    \x00\x00\x00$hmtx\x00\x00\x00\x00\x00\x00\x00\xe4\x00\x00\x00\x0cmaxp\x00\x00\x00\x00\x00\
    \x00\x00\xf0\x00\x00\x00\x06\x00\x00\x00\x01\x00\x03\x00\x01\x00\x00\x00\x0c\x00\x04\x00 \
    \x00\x00\x00\x04\x00\x04\x00\x01\x00\x00\x00b\xff\xff\x00\x00\x00a\xff\xff\xff\xa0\x00\x01\
    \x00\x00\x00\x00\x00\x01\x00\x00\x00\x01\x00\x00\x00\x00\x00\x00_\x0f<\xf5\x00\x00\x03\xe8\
    \x00\x00\x00\x00\x00\x00\x00\x00\x00\x00\x00\x00\x00\x00\x00\x00\x00\x00\x00\x00\x00\x00\x00\
    \x00\x00\x00\x00\x08\x00\x02\x00\x00\x00\x00\x00\x00\x00\x01\x00\x00\x03 \xff8\x00\x00\x02X\
    \x00\x00\x00\x00\x00\x00\x00\x01\x00\x00\x00\x00\x00\x00\x00\x00\x00\x00\x00\x00\x00\x00\x00\
    \x03\x01\x90\x00\x00\x01\xf4\x00\x00\x02X\x00\x00\x00\x00P\x00\x00\x03\x00\x00";

/// The header of a collection of three fonts, none of which is there.
const COLLECTION: &[u8] = b"ttcf\x00\x01\x00\x00\x00\x00\x00\x03";

fn file_is_read(alloc: Global, font: &mut Handle) -> Result<bool, AllocError> {
    let read = kus_font_create_from_bytes_alone(alloc, font, FILE, 0, 0);
    let past = kus_font_create_from_bytes_alone(alloc, font, FILE, 1, 0);
    let short = kus_font_create_from_bytes_alone(alloc, font, b"\x00\x01\x00\x00", 0, 0);
    let other = kus_font_create_from_bytes_alone(alloc, font, b"{\"upem\":1000}", 0, 0);
    let two = [(1, 0, 500), (2, 1, 600)];
    let shaped = is_shaped(alloc, font, &text_of(b"ab", 0, &[]), 0, &two);
    Ok(
        answered(read)? == 0
            && answered(past)? == 23
            && answered(short)? == 20
            && answered(other)? == 21
            && shaped?,
    )
}

#[test]
fn fonts_are_read_from_files(rt: HostRuntime) -> Result<(), Fail> {
    let mut font = Handle::empty(rt.alloc());
    let holds = file_is_read(rt.alloc(), &mut font);
    close(font);
    assert!(rt; holds?);
    Ok(())
}

fn file_is_read_over(
    alloc: Global,
    tables: &mut TablesHandle,
    font: &mut Handle,
) -> Result<bool, AllocError> {
    let none = kus_font_create_from_bytes_over(alloc, font, tables, FILE, 0, 0);
    let own = kus_tables_create_default(alloc, tables);
    let read = kus_font_create_from_bytes_over(alloc, font, tables, FILE, 0, 3);
    let past = kus_font_create_from_bytes_over(alloc, font, tables, FILE, 1, 3);
    kus_tables_destroy(alloc, tables);
    let two = [(2, 1, 600), (1, 0, 500)];
    let shaped = is_shaped(alloc, font, &text_of(b"ab", 5, &[]), 0, &two);
    Ok(
        none == 17
            && answered(own)? == 0
            && answered(read)? == 0
            && answered(past)? == 23
            && shaped?,
    )
}

#[test]
fn files_share_tables(rt: HostRuntime) -> Result<(), Fail> {
    let mut tables = TablesHandle::empty(rt.alloc());
    let mut font = Handle::empty(rt.alloc());
    let holds = file_is_read_over(rt.alloc(), &mut tables, &mut font);
    close_tables(tables);
    close(font);
    assert!(rt; holds?);
    Ok(())
}

#[test]
fn files_have_their_numbers_of_fonts(rt: HostRuntime) -> Result<(), Fail> {
    assert_eq!(rt; kus_count_fonts(FILE), 1);
    assert_eq!(rt; kus_count_fonts(COLLECTION), 3);
    assert_eq!(rt; kus_count_fonts(b"{\"upem\":1000}"), 0);
    assert_eq!(rt; kus_count_fonts(b""), 0);
    Ok(())
}

/// Whether the text of the fault of a font of a file is as wanted.
fn is_described(
    alloc: Global,
    bytes: &[u8],
    index: usize,
    want: &[u8],
) -> Result<bool, AllocError> {
    let mut text = [0; 64];
    let count = kus_describe_fault(alloc, bytes, index, 0, &mut text);
    let told = text.get(..count).unwrap_or(&[]);
    if told == b"OutOfMemory".as_slice() {
        return Err(AllocError);
    }
    Ok(told == want)
}

/// The list of a file's tables begins at 0 and has at least 12 bytes (OpenType, chapter 4).
#[test]
fn faults_of_files_are_described(rt: HostRuntime) -> Result<(), Fail> {
    let rows: [(&[u8], usize, &[u8]); 4] = [
        (FILE, 0, b""),
        (FILE, 1, b"F4 Index"),
        (&FILE[..8], 0, b"F1 Short at 0"),
        (b"{\"upem\":1000}", 0, b"F2 Kind at 0"),
    ];
    for (bytes, index, want) in rows {
        assert!(rt; is_described(rt.alloc(), bytes, index, want)?);
    }
    Ok(())
}

fn other_formats_have_their_number(
    alloc: Global,
    tables: &mut TablesHandle,
    font: &mut Handle,
) -> Result<bool, AllocError> {
    let a_font: &[u8] = b"{ \"format\" : \"kuspveli-font\",\"upem\":1000}";
    let some_tables: &[u8] = b"\n{\n\"format\":\"kuspveli-tables\"}";
    let swapped = kus_tables_create(alloc, tables, a_font);
    let read = kus_tables_create(alloc, tables, some_tables);
    let no_font = kus_font_create_with_tables(alloc, font, tables, some_tables);
    let first = kus_font_create(alloc, font, a_font, a_font);
    let second = kus_font_create(alloc, font, some_tables, some_tables);
    let right = kus_font_create(alloc, font, some_tables, a_font);
    Ok(
        swapped == 19
            && answered(read)? == 0
            && no_font == 19
            && first == 19
            && second == 19
            && answered(right)? == 0,
    )
}

#[test]
fn other_formats_are_refused(rt: HostRuntime) -> Result<(), Fail> {
    let mut tables = TablesHandle::empty(rt.alloc());
    let mut font = Handle::empty(rt.alloc());
    let holds = other_formats_have_their_number(rt.alloc(), &mut tables, &mut font);
    close_tables(tables);
    close(font);
    assert!(rt; holds?);
    Ok(())
}
