//! The glyph definition table (OpenType, GDEF, versions 1.0 to 1.3).
ghost use Rattle.std.specs.Prelude.{◌≡◌, ◌≢◌, ◌≤◌, ◌+◌, ◌*◌, ◌++◌, [], ◌∷◌, IfOk, IfErr, OnOk, Ok, Err, length};
ghost use Rattle.font_bytes.specs.declared.fault.TableFault.{TableFault};
ghost use Rattle.font_bytes.specs.Words.{long};
ghost use Rattle.font_bytes.specs.Records.{records};
ghost use Rattle.font_lists.specs.Definition.{attachment_classes_at, attachment_rows, coverages_in, definition_at, definition_header, glyph_classes, listed_sets, mark_sets_at, marks_at, sets_offset};

use buffer_rows::SortedRows;
use font_bytes::fault::TableFault;
use font_bytes::room::Room;
use font_bytes::words::{long, need, word};
use font_common::class_definition::{read_class_definition, read_class_rows};
use font_common::offsets::{CoverageReader, TableReader, read_at_offset};
use layout_common::array::Array;
use layout_common::class_definition::ClassDefinition;
use layout_common::coverage::Coverage;
use layout_common::glyph_row::GlyphRow;
use layout_face::parts::GlyphDefinition;
use std::alloc::Global;

/// Reads the glyph classes, none where their offset is null.
fn read_glyph_classes(
    alloc: Global,
    table: &[u8],
    offset: u16,
    room: &mut Room,
) -> Result<Option<ClassDefinition>, TableFault>
    ensures ok { IfOk result (λ v. glyph_classes room.old.left table.now offset ≡ Ok (v, room.new.left)) }
    ensures refused { IfErr result (λ e. e ≢ TableFault.OutOfMemory → glyph_classes room.old.left table.now offset ≡ Err e) }
{
    if offset == 0 {
        return Ok(None);
    }
    let classes = read_class_definition(alloc, table, usize::from(offset), room)?;
    Ok(Some(classes))
}

/// Appends a row whose class a lookup flag can name.
fn push_attachment(rows: &mut Vec<GlyphRow<u16>>, row: GlyphRow<u16>) -> Result<(), TableFault>
    ensures ok { OnOk result (rows.new.items ≡ rows.old.items ++ attachment_rows (row ∷ [])) }
    ensures refused { IfErr result (λ e. e ≡ TableFault.OutOfMemory) }
{
    if row.value <= 255 {
        rows.push(row)?;
    }
    Ok(())
}

/// A copy of the rows whose classes lookup flags can name.
fn attachment_rows(alloc: Global, rows: &[GlyphRow<u16>]) -> Result<Vec<GlyphRow<u16>>, TableFault>
    ensures ok { IfOk result (λ v. v.items ≡ attachment_rows rows.now) }
    ensures refused { IfErr result (λ e. e ≡ TableFault.OutOfMemory) }
{
    let mut kept = Vec::with_capacity(alloc, rows.len())?;
    for row in rows {
        push_attachment(&mut kept, *row)?;
    }
    Ok(kept)
}

/// Of rows whose glyphs rise those whose classes lookup flags can name.
#[tactic(auto, using(crate::proofs::Kept::filter_rises))]
fn keep_attachments(
    alloc: Global,
    rows: SortedRows<GlyphRow<u16>>,
) -> Result<ClassDefinition, TableFault>
    ensures ok { IfOk result (λ c. c ≡ record { rows = attachment_rows rows }) }
    ensures refused { IfErr result (λ e. e ≡ TableFault.OutOfMemory) }
{
    let kept = attachment_rows(alloc, rows.rising_rows())?;
    let classes = ClassDefinition::new(alloc, SortedRows::new(kept))?;
    Ok(classes)
}

/// Attachment classes, of which lookup flags can name those up to 255.
#[derive(Clone, Copy)]
pub struct AttachmentReader;

impl TableReader for AttachmentReader {
    type Value = ClassDefinition;

    ghost value_at = { λ _. attachment_classes_at };

    ghost null_value = { λ _. record { rows = [] } };

    fn read(
        &self,
        alloc: Global,
        bytes: &[u8],
        at: usize,
        room: &mut Room,
    ) -> Result<ClassDefinition, TableFault> {
        let rows = read_class_rows(alloc, bytes, at, room)?;
        keep_attachments(alloc, rows)
    }

    fn null(&self, alloc: Global) -> Result<ClassDefinition, TableFault> {
        Ok(ClassDefinition::empty(alloc))
    }
}

/// Reads coverages at an array of n Offset32, which count from a base.
#[tactic(auto, using(font_bytes::proofs::Recorded::records_more, font_bytes::proofs::Recorded::records_end))]
fn read_coverages(
    alloc: Global,
    table: &[u8],
    base: usize,
    at: usize,
    count: usize,
    room: &mut Room,
) -> Result<Vec<Coverage>, TableFault>
    requires base_within { base ≤ length table.now }
    requires within { at + 4 * count ≤ length table.now }
    ensures ok { IfOk result (λ v. coverages_in room.old.left table.now base (records (long table.now) 4 at count)
        ≡ Ok (v.items, room.new.left)) }
    ensures refused { IfErr result (λ e. e ≢ TableFault.OutOfMemory
        → coverages_in room.old.left table.now base (records (long table.now) 4 at count) ≡ Err e) }
{
    let mut coverages = Vec::with_capacity(alloc, count)?;
    for index in 0..count {
        let offset = long(table, at + 4 * index);
        let coverage = read_at_offset(&CoverageReader, alloc, table, base, offset, room)?;
        coverages.push(coverage)?;
    }
    Ok(coverages)
}

/// Reads the mark glyph sets of format 1.
fn read_listed_sets(
    alloc: Global,
    table: &[u8],
    at: usize,
    room: &mut Room,
) -> Result<Array<Coverage>, TableFault>
    ensures ok { IfOk result (λ v. listed_sets room.old.left table.now at ≡ Ok (v, room.new.left)) }
    ensures refused { IfErr result (λ e. e ≢ TableFault.OutOfMemory → listed_sets room.old.left table.now at ≡ Err e) }
{
    need(table, at, 4)?;
    let count = usize::from(word(table, at + 2));
    need(table, at + 4, 4 * count)?;
    room.take(count)?;
    let coverages = read_coverages(alloc, table, at, at + 4, count, room)?;
    Ok(Array::new(coverages))
}

/// Mark glyph sets, none of an unknown format.
#[derive(Clone, Copy)]
pub struct MarkSetsReader;

impl TableReader for MarkSetsReader {
    type Value = Array<Coverage>;

    ghost value_at = { λ _. mark_sets_at };

    ghost null_value = { λ _. [] };

    fn read(
        &self,
        alloc: Global,
        bytes: &[u8],
        at: usize,
        room: &mut Room,
    ) -> Result<Array<Coverage>, TableFault> {
        need(bytes, at, 2)?;
        if word(bytes, at) == 1 {
            read_listed_sets(alloc, bytes, at, room)
        } else {
            self.null(alloc)
        }
    }

    fn null(&self, alloc: Global) -> Result<Array<Coverage>, TableFault> {
        Ok(Array::new(Vec::new(alloc)))
    }
}

/// The offset of the mark glyph sets, null before version 1.2.
fn sets_offset(table: &[u8]) -> Result<u16, TableFault>
    requires { 12 ≤ length table.now }
    ensures { result ≡ sets_offset table.now }
{
    if word(table, 2) < 2 {
        return Ok(0);
    }
    need(table, 12, 2)?;
    Ok(word(table, 12))
}

/// The offset of the mark glyph sets of a table of major version 1, whose header of twelve bytes is there.
fn definition_header(table: &[u8]) -> Result<u16, TableFault>
    ensures value { result ≡ definition_header table.now }
    ensures within { IfOk result (λ _. 12 ≤ length table.now) }
{
    need(table, 0, 12)?;
    if word(table, 0) == 1 {
        sets_offset(table)
    } else {
        Err(TableFault::Kind(0))
    }
}

/// Reads the attachment classes and the mark glyph sets.
fn read_marks(
    alloc: Global,
    table: &[u8],
    sets_at: u16,
    room: &mut Room,
) -> Result<(ClassDefinition, Array<Coverage>), TableFault>
    requires { 12 ≤ length table.now }
    ensures ok { IfOk result (λ m. marks_at room.old.left table.now sets_at ≡ Ok (m, room.new.left)) }
    ensures refused { IfErr result (λ e. e ≢ TableFault.OutOfMemory
        → marks_at room.old.left table.now sets_at ≡ Err e) }
{
    let attach = read_at_offset(
        &AttachmentReader,
        alloc,
        table,
        0,
        u32::from(word(table, 10)),
        room,
    )?;
    match read_at_offset(&MarkSetsReader, alloc, table, 0, u32::from(sets_at), room) {
        Ok(sets) => Ok((attach, sets)),
        Err(fault) => {
            drop(attach);
            Err(fault)
        }
    }
}

/// Reads GDEF: the classes of glyphs, the attachment classes of marks up to 255, and the mark glyph sets. Attachment points,
/// carets of ligatures and variations are passed over.
pub fn read_gdef(
    alloc: Global,
    table: &[u8],
    room: &mut Room,
) -> Result<GlyphDefinition, TableFault>
    ensures ok { IfOk result (λ d. definition_at room.old.left table.now ≡ Ok (d, room.new.left)) }
    ensures refused { IfErr result (λ e. e ≢ TableFault.OutOfMemory → definition_at room.old.left table.now ≡ Err e) }
{
    let sets_at = definition_header(table)?;
    let classes = read_glyph_classes(alloc, table, word(table, 4), room)?;
    match read_marks(alloc, table, sets_at, room) {
        Ok((attach, sets)) => Ok(GlyphDefinition {
            classes,
            attach,
            sets,
        }),
        Err(fault) => {
            drop(classes);
            Err(fault)
        }
    }
}
