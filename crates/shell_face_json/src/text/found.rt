//! What was found of a font's keys, in groups: each function holds few values, since its proof follows what every fault
//! frees.
//!
//! The two tables have functions of one form, since their lookups are types of their own.
ghost use Rattle.std.specs.Prelude.{◌≡◌, [], length, true, unwrap_or, IfOk, Ok, pos};
ghost use Rattle.std.specs.List.{list_all};
ghost use Rattle.std.specs.Option.{option_map, option_map_or};
ghost use Rattle.serde_json.specs.View.{view};
ghost use Rattle.layout_face.specs.LookupIndices.{set_fits};
ghost use Rattle.shell_json.specs.Cell.{u16_value, i16_value};
ghost use Rattle.shell_json.specs.Objects.{read_or};
ghost use Rattle.shell_face_json.specs.Face.{no_definition};

use crate::face::{Advances, Characters, Drawing, Layouts, index_characters};
use crate::lookups::all_sets_fit;
use crate::text::definition::definition_or_none;
use buffer_glyphs::names::hb_glyph_extents_t;
use buffer_rows::{Keyed, SortedRows};
use layout_common::array::Array;
use layout_common::glyph_row::GlyphRow;
use layout_face::parts::{CharacterRow, GlyphDefinition, NameRow, VariationRow};
use layout_face::positioning::{PositioningLookup, PositioningTable};
use layout_face::substitution::{SubstLookup, SubstitutionTable};
use layout_tables::table::ScriptsAndFeatures;
use serde_json::Value;
use shell_json::cell::Cell;
use shell_json::unread::Unread;
use std::alloc::Global;

type FoundRows<A, B> = (Option<SortedRows<A>>, Option<SortedRows<B>>);

type FoundTable<L> = Option<(ScriptsAndFeatures, Array<L>)>;

type FoundCharacters = (
    (Option<Value>, Option<Value>),
    FoundRows<CharacterRow, VariationRow>,
);

type FoundDrawing = (
    FoundRows<GlyphRow<i16>, GlyphRow<hb_glyph_extents_t>>,
    Option<SortedRows<NameRow>>,
);

type FoundLayouts = (
    Option<GlyphDefinition>,
    (FoundTable<SubstLookup>, FoundTable<PositioningLookup>),
);

type FoundGlyphs = (
    FoundRows<GlyphRow<u16>, GlyphRow<u16>>,
    (FoundDrawing, FoundLayouts),
);

/// The groups of a font's fields: the metrics, the characters, the advances, the drawing and the layouts.
pub type Groups = ((u16, i16), Characters, Advances, Drawing, Layouts);

/// The groups of a font's fields by what was found of its keys.
pub fn groups_of(alloc: Global, found: (FoundCharacters, FoundGlyphs)) -> Result<Groups, Unread>
    ensures metrics { IfOk result (λ g. (read_or 0 u16_value (option_map view found.0.0.0) ≡ Ok g.0.0)
        × (read_or (pos 0) i16_value (option_map view found.0.0.1) ≡ Ok g.0.1)) }
    ensures characters { IfOk result (λ g. (g.1.0 ≡ unwrap_or found.0.1.0 []) × (g.1.1 ≡ unwrap_or found.0.1.1 [])) }
    ensures advances { IfOk result (λ g. (g.2.0 ≡ unwrap_or found.1.0.0 []) × (g.2.1 ≡ unwrap_or found.1.0.1 [])) }
    ensures drawing { IfOk result (λ g. (g.3.0 ≡ unwrap_or found.1.1.0.0.0 [])
        × (g.3.1.0 ≡ unwrap_or found.1.1.0.0.1 []) × (g.3.1.1 ≡ unwrap_or found.1.1.0.1 [])) }
    ensures definition { IfOk result (λ g. g.4.0 ≡ unwrap_or found.1.1.1.0 no_definition) }
    ensures substitution { IfOk result (λ g.
        (g.4.1.0 ≡ option_map (λ x. record { inner = x.0; lookups = x.1 }) found.1.1.1.1.0)
        × (option_map_or (λ x. list_all (λ l. set_fits (length g.4.0.sets) l.mark_filtering_set) x.1)
        found.1.1.1.1.0 true ≡ true)) }
    ensures positioning { IfOk result (λ g.
        (g.4.1.1 ≡ option_map (λ x. record { inner = x.0; lookups = x.1 }) found.1.1.1.1.1)
        × (option_map_or (λ x. list_all (λ l. set_fits (length g.4.0.sets) l.mark_filtering_set) x.1)
        found.1.1.1.1.1 true ≡ true)) }
{
    let (characters, glyphs) = found;
    let (metrics, characters) = metrics_and_characters(alloc, characters)?;
    let (advances, drawing, layouts) = glyphs_and_layouts(alloc, glyphs)?;
    Ok((metrics, characters, advances, drawing, layouts))
}

/// The metrics and the characters that were found.
fn metrics_and_characters(
    alloc: Global,
    found: FoundCharacters,
) -> Result<((u16, i16), Characters), Unread>
    ensures metrics { IfOk result (λ g. (read_or 0 u16_value (option_map view found.0.0) ≡ Ok g.0.0)
        × (read_or (pos 0) i16_value (option_map view found.0.1) ≡ Ok g.0.1)) }
    ensures characters { IfOk result (λ g. (g.1.0 ≡ unwrap_or found.1.0 []) × (g.1.1 ≡ unwrap_or found.1.1 [])) }
{
    let (metrics, characters) = found;
    let metrics = read_metrics(&metrics)?;
    let (cmap, variants) = two_or_none(alloc, characters);
    Ok((metrics, (index_characters(alloc, cmap)?, variants)))
}

/// The advances, the drawing and the layouts that were found.
fn glyphs_and_layouts(
    alloc: Global,
    found: FoundGlyphs,
) -> Result<(Advances, Drawing, Layouts), Unread>
    ensures advances { IfOk result (λ g. (g.0.0 ≡ unwrap_or found.0.0 []) × (g.0.1 ≡ unwrap_or found.0.1 [])) }
    ensures drawing { IfOk result (λ g. (g.1.0 ≡ unwrap_or found.1.0.0.0 [])
        × (g.1.1.0 ≡ unwrap_or found.1.0.0.1 []) × (g.1.1.1 ≡ unwrap_or found.1.0.1 [])) }
    ensures definition { IfOk result (λ g. g.2.0 ≡ unwrap_or found.1.1.0 no_definition) }
    ensures substitution { IfOk result (λ g.
        (g.2.1.0 ≡ option_map (λ x. record { inner = x.0; lookups = x.1 }) found.1.1.1.0)
        × (option_map_or (λ x. list_all (λ l. set_fits (length g.2.0.sets) l.mark_filtering_set) x.1)
        found.1.1.1.0 true ≡ true)) }
    ensures positioning { IfOk result (λ g.
        (g.2.1.1 ≡ option_map (λ x. record { inner = x.0; lookups = x.1 }) found.1.1.1.1)
        × (option_map_or (λ x. list_all (λ l. set_fits (length g.2.0.sets) l.mark_filtering_set) x.1)
        found.1.1.1.1 true ≡ true)) }
{
    let (advances, (drawing, layouts)) = found;
    let layouts = found_layouts(alloc, layouts)?;
    let advances = two_or_none(alloc, advances);
    Ok((advances, found_drawing(alloc, drawing), layouts))
}

/// The vertical origins, extents and names that were found.
fn found_drawing(alloc: Global, found: FoundDrawing) -> Drawing
    ensures { (result.0 ≡ unwrap_or found.0.0 []) × (result.1.0 ≡ unwrap_or found.0.1 [])
        × (result.1.1 ≡ unwrap_or found.1 []) }
{
    let (outlines, names) = found;
    let (origins, extents) = two_or_none(alloc, outlines);
    (origins, (extents, rows_or_none(alloc, names)))
}

/// The glyph definitions, GSUB and GPOS that were found.
fn found_layouts(alloc: Global, found: FoundLayouts) -> Result<Layouts, Unread>
    ensures definition { IfOk result (λ g. g.0 ≡ unwrap_or found.0 no_definition) }
    ensures substitution { IfOk result (λ g.
        (g.1.0 ≡ option_map (λ x. record { inner = x.0; lookups = x.1 }) found.1.0)
        × (option_map_or (λ x. list_all (λ l. set_fits (length g.0.sets) l.mark_filtering_set) x.1)
        found.1.0 true ≡ true)) }
    ensures positioning { IfOk result (λ g.
        (g.1.1 ≡ option_map (λ x. record { inner = x.0; lookups = x.1 }) found.1.1)
        × (option_map_or (λ x. list_all (λ l. set_fits (length g.0.sets) l.mark_filtering_set) x.1)
        found.1.1 true ≡ true)) }
{
    let (gdef, (gsub, gpos)) = found;
    let gdef = definition_or_none(alloc, gdef);
    let set_count = gdef.sets.len();
    let gsub = substitution(gsub, set_count)?;
    let gpos = positioning(gpos, set_count)?;
    Ok((gdef, (gsub, gpos)))
}

/// The units per em and the ascender by the values of their keys.
fn read_metrics(found: &(Option<Value>, Option<Value>)) -> Result<(u16, i16), Unread>
    ensures { IfOk result (λ p. (read_or 0 u16_value (option_map view found.now.0) ≡ Ok p.0)
        × (read_or (pos 0) i16_value (option_map view found.now.1) ≡ Ok p.1)) }
{
    let upem = cell_or(&found.0, 0u16)?;
    let ascender = cell_or(&found.1, 0i16)?;
    Ok((upem, ascender))
}

fn cell_or<T: Cell>(value: &Option<Value>, missing: T) -> Result<T, Unread>
    ensures { IfOk result (λ cell. read_or missing T.cell (option_map view value.now) ≡ Ok cell) }
{
    let Some(value) = value else {
        return Ok(missing);
    };
    match T::read(value) {
        Ok(cell) => Ok(cell),
        Err(_) => Err(Unread),
    }
}

/// The rows that were found, none where their key is missing.
fn rows_or_none<R: Keyed>(alloc: Global, found: Option<SortedRows<R>>) -> SortedRows<R>
    ensures { result ≡ unwrap_or found [] }
{
    match found {
        Some(rows) => rows,
        None => SortedRows::new(Vec::new(alloc)),
    }
}

/// The rows that were found of two keys.
fn two_or_none<A: Keyed, B: Keyed>(
    alloc: Global,
    found: (Option<SortedRows<A>>, Option<SortedRows<B>>),
) -> (SortedRows<A>, SortedRows<B>)
    ensures { (result.0 ≡ unwrap_or found.0 []) × (result.1 ≡ unwrap_or found.1 []) }
{
    let (first, second) = found;
    let first = rows_or_none(alloc, first);
    (first, rows_or_none(alloc, second))
}

/// The GSUB table that was found, in a font with `set_count` mark glyph sets.
fn substitution(
    found: FoundTable<SubstLookup>,
    set_count: usize,
) -> Result<Option<SubstitutionTable>, Unread>
    ensures { IfOk result (λ t. (t ≡ option_map (λ x. record { inner = x.0; lookups = x.1 }) found)
        × (option_map_or (λ x. list_all (λ l. set_fits set_count l.mark_filtering_set) x.1) found true ≡ true)) }
{
    let Some((inner, lookups)) = found else {
        return Ok(None);
    };
    if !all_sets_fit(lookups.as_slice(), set_count) {
        return Err(Unread);
    }
    Ok(Some(SubstitutionTable { inner, lookups }))
}

/// The GPOS table that was found, in a font with `set_count` mark glyph sets.
fn positioning(
    found: FoundTable<PositioningLookup>,
    set_count: usize,
) -> Result<Option<PositioningTable>, Unread>
    ensures { IfOk result (λ t. (t ≡ option_map (λ x. record { inner = x.0; lookups = x.1 }) found)
        × (option_map_or (λ x. list_all (λ l. set_fits set_count l.mark_filtering_set) x.1) found true ≡ true)) }
{
    let Some((inner, lookups)) = found else {
        return Ok(None);
    };
    if !all_sets_fit(lookups.as_slice(), set_count) {
        return Err(Unread);
    }
    Ok(Some(PositioningTable { inner, lookups }))
}
