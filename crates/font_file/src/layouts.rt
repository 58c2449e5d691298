//! The glyph definitions, GSUB and GPOS, and the table kern.
ghost use Rattle.std.specs.Prelude.{◌≡◌, ◌≢◌, IfOk, IfErr, Ok, Err, Some, length};
ghost use Rattle.font_bytes.specs.declared.fault.TableFault.{TableFault};
ghost use Rattle.font_bytes.specs.declared.table_names.FontTable.{FontTable};
ghost use Rattle.font_bytes.specs.Results.{and_then};
ghost use Rattle.font_file.specs.Found.{table_in};
ghost use Rattle.font_file.specs.Layouts.{definition_of, with_kern, gpos_in, layouts_in, no_definition, positioning_of, substitution_of, tables_in};

use crate::found::table_in;
use crate::outlines::FontFile;
use crate::rooms::LAYOUT_ROOM;
use font_bytes::{FontFault, FontTable};
use font_kern::with_kerning;
use font_layout::{read_gpos, read_gsub};
use font_lists::read_gdef;
use layout_common::array::Array;
use layout_common::class_definition::ClassDefinition;
use layout_face::parts::{CharacterRow, GlyphDefinition};
use layout_face::positioning::PositioningTable;
use layout_face::substitution::SubstitutionTable;
use std::alloc::Global;

pub(crate) type Layouts = (
    GlyphDefinition,
    (Option<SubstitutionTable>, Option<PositioningTable>),
);

/// Glyph definitions without entries.
fn no_definition(alloc: Global) -> GlyphDefinition
    ensures { result ≡ no_definition }
{
    GlyphDefinition {
        classes: None,
        attach: ClassDefinition::empty(alloc),
        sets: Array::new(Vec::new(alloc)),
    }
}

fn definition_in(alloc: Global, file: FontFile<'_>) -> Result<GlyphDefinition, FontFault>
    ensures ok { IfOk result (λ d. and_then (table_in file.entry.bytes.now file.entry.index FontTable.Gdef) definition_of ≡ Ok d) }
    ensures refused { IfErr result (λ e. e.cause ≢ TableFault.OutOfMemory
        → and_then (table_in file.entry.bytes.now file.entry.index FontTable.Gdef) definition_of ≡ Err e) }
{
    let mut room = LAYOUT_ROOM;
    match table_in(file.bytes, file.index, FontTable::Gdef)? {
        Some(table) => match read_gdef(alloc, table, &mut room) {
            Ok(definition) => Ok(definition),
            Err(cause) => Err(FontFault {
                table: Some(FontTable::Gdef),
                cause,
            }),
        },
        None => Ok(no_definition(alloc)),
    }
}

fn substitution_in(
    alloc: Global,
    file: FontFile<'_>,
    set_count: usize,
) -> Result<Option<SubstitutionTable>, FontFault>
    ensures ok { IfOk result (λ t. and_then (table_in file.entry.bytes.now file.entry.index FontTable.Gsub) (substitution_of set_count) ≡ Ok t) }
    ensures refused { IfErr result (λ e. e.cause ≢ TableFault.OutOfMemory
        → and_then (table_in file.entry.bytes.now file.entry.index FontTable.Gsub) (substitution_of set_count) ≡ Err e) }
{
    let mut room = LAYOUT_ROOM;
    match table_in(file.bytes, file.index, FontTable::Gsub)? {
        Some(table) => match read_gsub(alloc, set_count, table, &mut room) {
            Ok(read) => Ok(Some(read)),
            Err(cause) => Err(FontFault {
                table: Some(FontTable::Gsub),
                cause,
            }),
        },
        None => Ok(None),
    }
}

fn positioning_in(
    alloc: Global,
    file: FontFile<'_>,
    set_count: usize,
) -> Result<Option<PositioningTable>, FontFault>
    ensures ok { IfOk result (λ t. and_then (table_in file.entry.bytes.now file.entry.index FontTable.Gpos) (positioning_of set_count) ≡ Ok t) }
    ensures refused { IfErr result (λ e. e.cause ≢ TableFault.OutOfMemory
        → and_then (table_in file.entry.bytes.now file.entry.index FontTable.Gpos) (positioning_of set_count) ≡ Err e) }
{
    let mut room = LAYOUT_ROOM;
    match table_in(file.bytes, file.index, FontTable::Gpos)? {
        Some(table) => match read_gpos(alloc, set_count, table, &mut room) {
            Ok(read) => Ok(Some(read)),
            Err(cause) => Err(FontFault {
                table: Some(FontTable::Gpos),
                cause,
            }),
        },
        None => Ok(None),
    }
}

/// GPOS of a font, with its table kern.
fn gpos_in(
    alloc: Global,
    file: FontFile<'_>,
    characters: &[CharacterRow],
    set_count: usize,
) -> Result<Option<PositioningTable>, FontFault>
    ensures ok { IfOk result (λ t. gpos_in file.entry.bytes.now file.entry.index characters.now set_count ≡ Ok t) }
    ensures refused { IfErr result (λ e. e.cause ≢ TableFault.OutOfMemory
        → gpos_in file.entry.bytes.now file.entry.index characters.now set_count ≡ Err e) }
{
    let gpos = positioning_in(alloc, file, set_count)?;
    match table_in(file.bytes, file.index, FontTable::Kern) {
        Ok(Some(table)) => with_kern(alloc, table, characters, gpos),
        Ok(None) => Ok(gpos),
        Err(fault) => {
            drop(gpos);
            Err(fault)
        }
    }
}

/// GPOS with a table kern.
fn with_kern(
    alloc: Global,
    table: &[u8],
    characters: &[CharacterRow],
    gpos: Option<PositioningTable>,
) -> Result<Option<PositioningTable>, FontFault>
    ensures ok { IfOk result (λ t. with_kern characters.now gpos (Some table.now) ≡ Ok t) }
    ensures refused { IfErr result (λ e. e.cause ≢ TableFault.OutOfMemory
        → with_kern characters.now gpos (Some table.now) ≡ Err e) }
{
    let mut room = LAYOUT_ROOM;
    match with_kerning(alloc, table, characters, gpos, &mut room) {
        Ok(kerned) => Ok(kerned),
        Err(cause) => Err(FontFault {
            table: Some(FontTable::Kern),
            cause,
        }),
    }
}

/// GSUB and GPOS of a font.
fn tables_in(
    alloc: Global,
    file: FontFile<'_>,
    characters: &[CharacterRow],
    set_count: usize,
) -> Result<(Option<SubstitutionTable>, Option<PositioningTable>), FontFault>
    ensures ok { IfOk result (λ t. tables_in file.entry.bytes.now file.entry.index characters.now set_count ≡ Ok (t.0, t.1)) }
    ensures refused { IfErr result (λ e. e.cause ≢ TableFault.OutOfMemory
        → tables_in file.entry.bytes.now file.entry.index characters.now set_count ≡ Err e) }
{
    let gsub = substitution_in(alloc, file, set_count)?;
    match gpos_in(alloc, file, characters, set_count) {
        Ok(gpos) => Ok((gsub, gpos)),
        Err(fault) => {
            drop(gsub);
            Err(fault)
        }
    }
}

/// The glyph definitions, GSUB and GPOS of a font with characters.
pub(crate) fn layouts_in(
    alloc: Global,
    file: FontFile<'_>,
    characters: &[CharacterRow],
) -> Result<Layouts, FontFault>
    ensures ok { IfOk result (λ l. layouts_in file.entry.bytes.now file.entry.index characters.now ≡ Ok (l.0, (l.1.0, l.1.1))) }
    ensures refused { IfErr result (λ e. e.cause ≢ TableFault.OutOfMemory
        → layouts_in file.entry.bytes.now file.entry.index characters.now ≡ Err e) }
{
    let gdef = definition_in(alloc, file)?;
    let set_count = gdef.sets.len();
    match tables_in(alloc, file, characters, set_count) {
        Ok(tables) => Ok((gdef, tables)),
        Err(fault) => {
            drop(gdef);
            Err(fault)
        }
    }
}
