//! Reads a font.
ghost use Rattle.std.specs.Prelude.{◌≡◌, ◌≢◌, ℕ, IfOk, IfErr, Ok, Err, codes};
ghost use Rattle.serde_json.specs.Find.{get};
ghost use Rattle.serde_json.specs.View.{view};
ghost use Rattle.shell_face_json.specs.Face.{few_sets, glyph_definition, glyph_definition_in, no_definition, character_keys, advance_keys, drawing_keys, layout_keys, face_keys, face_of};

use crate::glyphs::{GLYPH_LIMIT, read_classes_at};
use crate::objects::{object, read_by_key_at, read_in_turn_at, read_optional_at};
use crate::value::FromJson;
use buffer_glyphs::names::hb_glyph_extents_t;
use buffer_rows::{PagedRows, SortedRows};
use layout_common::array::Array;
use layout_common::class_definition::ClassDefinition;
use layout_common::coverage::Coverage;
use layout_common::glyph_row::GlyphRow;
use layout_face::Face;
use layout_face::parts::{CharacterRow, FaceParts, GlyphDefinition, NameRow, VariationRow};
use layout_face::positioning::PositioningTable;
use layout_face::substitution::SubstitutionTable;
use serde_json::Value;
use shell_json::fault::JsonFault;
use shell_json::keys::read_key;
use std::alloc::{AllocError, Global};

/// Reads a font. Unknown keys are skipped. Of several faults it returns the first by the order of the format's keys,
/// then by the order of their rows; of one row's faults wrong shapes come first, then floats, ranges, and the order of
/// rows.
#[tactic(auto, using(crate::proofs::FaceFits::keys_fit))]
pub fn read_face(alloc: Global, value: &Value) -> Result<Face, JsonFault>
    ensures ok { IfOk result (λ f. face_of (view value.now) ≡ Ok f) }
    ensures refused { IfErr result (λ e. e ≢ JsonFault.OutOfMemory
        → face_of (view value.now) ≡ Err e) }
{
    object(value)?;
    Ok(Face::new(read_face_parts(alloc, value)?))
}

fn read_face_parts(alloc: Global, value: &Value) -> Result<FaceParts, JsonFault>
    ensures ok { IfOk result (λ p. face_keys (view value.now) ≡ Ok p) }
    ensures refused { IfErr result (λ e. e ≢ JsonFault.OutOfMemory
        → face_keys (view value.now) ≡ Err e) }
{
    let upem = read_key(value, "upem", 0u16)?;
    let ascender = read_key(value, "ascender", 0i16)?;
    let characters = read_characters(alloc, value)?;
    let advances = read_advances(alloc, value)?;
    let drawing = read_drawing(alloc, value)?;
    let layouts = read_layouts(alloc, value)?;
    Ok(face_parts((upem, ascender), characters, advances, drawing, layouts))
}

/// A font of its fields, in the groups in which they are read.
pub(crate) fn face_parts(
    metrics: (u16, i16),
    characters: Characters,
    advances: Advances,
    drawing: Drawing,
    layouts: Layouts,
) -> FaceParts
    ensures { result ≡ record {
      upem = metrics.0;
      ascender = metrics.1;
      cmap = characters.0;
      variants = characters.1;
      h = advances.0;
      v = advances.1;
      origins = drawing.0;
      extents = drawing.1.0;
      names = drawing.1.1;
      gdef = layouts.0;
      gsub = layouts.1.0;
      gpos = layouts.1.1;
    } }
{
    let (upem, ascender) = metrics;
    let (cmap, variants) = characters;
    let (h, v) = advances;
    let (origins, (extents, names)) = drawing;
    let (gdef, (gsub, gpos)) = layouts;
    FaceParts {
        upem,
        ascender,
        cmap,
        variants,
        h,
        v,
        origins,
        extents,
        names,
        gdef,
        gsub,
        gpos,
    }
}

pub(crate) type Characters = (PagedRows<CharacterRow>, SortedRows<VariationRow>);

/// Reads the glyphs of characters, and those of characters with variation selectors.
fn read_characters(alloc: Global, value: &Value) -> Result<Characters, JsonFault>
    ensures ok { IfOk result (λ p. character_keys (view value.now) ≡ Ok p) }
    ensures refused { IfErr result (λ e. e ≢ JsonFault.OutOfMemory
        → character_keys (view value.now) ≡ Err e) }
{
    let cmap = read_by_key_at(alloc, value, "cmap", GLYPH_LIMIT)?;
    let variants = read_by_key_at(alloc, value, "variants", GLYPH_LIMIT)?;
    Ok((index_characters(alloc, cmap)?, variants))
}

/// The glyphs of characters, with an index of the characters' pages.
pub(crate) fn index_characters(
    alloc: Global,
    rows: SortedRows<CharacterRow>,
) -> Result<PagedRows<CharacterRow>, AllocError>
    ensures { IfOk result (λ paged. paged ≡ rows) }
{
    PagedRows::new(alloc, rows.into_vec())
}

type Rows<V> = SortedRows<GlyphRow<V>>;

pub(crate) type Advances = (Rows<u16>, Rows<u16>);

/// Reads the horizontal and the vertical advances of glyphs.
fn read_advances(alloc: Global, value: &Value) -> Result<Advances, JsonFault>
    ensures ok { IfOk result (λ p. advance_keys (view value.now) ≡ Ok p) }
    ensures refused { IfErr result (λ e. e ≢ JsonFault.OutOfMemory
        → advance_keys (view value.now) ≡ Err e) }
{
    let h = read_by_key_at(alloc, value, "h", GLYPH_LIMIT)?;
    let v = read_by_key_at(alloc, value, "v", GLYPH_LIMIT)?;
    Ok((h, v))
}

pub(crate) type Drawing = (Rows<i16>, (Rows<hb_glyph_extents_t>, SortedRows<NameRow>));

/// Reads the vertical origins, extents and names of glyphs.
fn read_drawing(alloc: Global, value: &Value) -> Result<Drawing, JsonFault>
    ensures ok { IfOk result (λ p. drawing_keys (view value.now) ≡ Ok p) }
    ensures refused { IfErr result (λ e. e ≢ JsonFault.OutOfMemory
        → drawing_keys (view value.now) ≡ Err e) }
{
    let origins = read_by_key_at(alloc, value, "origins", GLYPH_LIMIT)?;
    let extents = read_by_key_at(alloc, value, "extents", GLYPH_LIMIT)?;
    let names = read_by_key_at(alloc, value, "names", GLYPH_LIMIT)?;
    Ok((origins, (extents, names)))
}

pub(crate) type Layouts = (
    GlyphDefinition,
    (Option<SubstitutionTable>, Option<PositioningTable>),
);

/// Reads the glyph definitions, GSUB and GPOS.
fn read_layouts(alloc: Global, value: &Value) -> Result<Layouts, JsonFault>
    ensures ok { IfOk result (λ p. layout_keys (view value.now) ≡ Ok p) }
    ensures refused { IfErr result (λ e. e ≢ JsonFault.OutOfMemory
        → layout_keys (view value.now) ≡ Err e) }
{
    let gdef = read_definition_at(alloc, value)?;
    let set_count = gdef.sets.len();
    let gsub = read_optional_at(alloc, value, "gsub", set_count)?;
    let gpos = read_optional_at(alloc, value, "gpos", set_count)?;
    Ok((gdef, (gsub, gpos)))
}

fn read_definition_at(alloc: Global, value: &Value) -> Result<GlyphDefinition, JsonFault>
    ensures ok { IfOk result (λ g. glyph_definition_in (get (codes "gdef") (view value.now)) ≡ Ok g) }
    ensures refused { IfErr result (λ e. e ≢ JsonFault.OutOfMemory
        → glyph_definition_in (get (codes "gdef") (view value.now)) ≡ Err e) }
{
    match value.get("gdef") {
        Some(value) => read_definition(alloc, value),
        None => Ok(no_definition(alloc)),
    }
}

/// Reads the glyph definitions (GDEF).
pub fn read_definition(alloc: Global, value: &Value) -> Result<GlyphDefinition, JsonFault>
    ensures ok { IfOk result (λ g. glyph_definition (view value.now) ≡ Ok g) }
    ensures refused { IfErr result (λ e. e ≢ JsonFault.OutOfMemory
        → glyph_definition (view value.now) ≡ Err e) }
{
    object(value)?;
    let classes = read_optional_at(alloc, value, "classes", GLYPH_LIMIT)?;
    let attach = read_classes_at(alloc, value, "attach", GLYPH_LIMIT)?;
    let sets = few_sets(read_in_turn_at(alloc, value, "sets", GLYPH_LIMIT)?)?;
    Ok(GlyphDefinition {
        classes,
        attach,
        sets,
    })
}

fn few_sets(sets: Array<Coverage>) -> Result<Array<Coverage>, JsonFault>
    ensures { result ≡ few_sets sets }
{
    if sets.len() <= usize::from(u16::MAX) {
        Ok(sets)
    } else {
        Err(JsonFault::OutOfRange)
    }
}

/// Glyph definitions without entries.
pub fn no_definition(alloc: Global) -> GlyphDefinition
    ensures { result ≡ no_definition }
{
    GlyphDefinition {
        classes: None,
        attach: ClassDefinition::empty(alloc),
        sets: Array::new(Vec::new(alloc)),
    }
}
