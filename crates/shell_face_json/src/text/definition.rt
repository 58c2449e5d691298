//! Reads the glyph definitions (GDEF) of a font.
//!
//! The keys of an object are a tuple of three with types of their own, so GDEF's are not listed by the function for
//! those of GSUB and GPOS.
ghost use Rattle.std.specs.Prelude.{◌≡◌, codes, unwrap_or, IfOk, Ok};
ghost use Rattle.shell_face_json.specs.Contexts.{no_classes};
ghost use Rattle.shell_face_json.specs.Face.{few_sets, glyph_definition, no_definition};
ghost use Rattle.shell_face_json.specs.Glyphs.{class_definition, glyph_limit};

use crate::face::no_definition;
use crate::glyphs::GLYPH_LIMIT;
use crate::text::rows::{ListTaker, RowTaker};
use crate::text::table::items_or_none;
use json::Reader;
use layout_common::array::Array;
use layout_common::class_definition::ClassDefinition;
use layout_common::coverage::Coverage;
use layout_common::glyph_row::GlyphRow;
use layout_face::parts::GlyphDefinition;
use shell_json::key_takers::{Key, ValueTaker};
use shell_json::members::take_object;
use shell_json::unread::Unread;
use std::alloc::Global;

/// Reads the classes of glyphs.
#[derive(Clone, Copy)]
pub struct ClassTaker;

impl ValueTaker for ClassTaker {
    type Output = ClassDefinition;

    ghost means = { λ _ d classes. class_definition glyph_limit d ≡ Ok classes };

    fn take_value(
        &self,
        alloc: Global,
        reader: &mut Reader<'_>,
        depth: usize,
    ) -> Result<ClassDefinition, Unread> {
        let taker = RowTaker::<GlyphRow<u16>>::new(GLYPH_LIMIT);
        let rows = taker.take_value(alloc, reader, depth)?;
        let classes = ClassDefinition::new(alloc, rows)?;
        Ok(classes)
    }
}

/// Reads the glyph definitions of a font.
#[derive(Clone, Copy)]
pub struct DefinitionTaker;

impl ValueTaker for DefinitionTaker {
    type Output = GlyphDefinition;

    ghost means = { λ _ d definition. glyph_definition d ≡ Ok definition };

    fn take_value(
        &self,
        alloc: Global,
        reader: &mut Reader<'_>,
        depth: usize,
    ) -> Result<GlyphDefinition, Unread> {
        let keys = definition_keys();
        let mut found = (None, (None, None));
        take_object(alloc, reader, depth, &keys, &mut found)?;
        let (classes, (attach, sets)) = found;
        let attach = classes_or_none(alloc, attach);
        let sets = few_sets(items_or_none(alloc, sets))?;
        Ok(GlyphDefinition {
            classes,
            attach,
            sets,
        })
    }
}

type DefinitionKeys = (Key<ClassTaker>, (Key<ClassTaker>, Key<ListTaker<Coverage>>));

fn definition_keys() -> DefinitionKeys
    ensures names { (result.0.name.now ≡ codes "classes") × (result.1.0.name.now ≡ codes "attach")
        × (result.1.1.name.now ≡ codes "sets") }
    ensures limit { result.1.1.taker.limit ≡ glyph_limit }
{
    let classes = Key {
        name: "classes",
        taker: ClassTaker,
    };
    let attach = Key {
        name: "attach",
        taker: ClassTaker,
    };
    let sets = Key {
        name: "sets",
        taker: ListTaker::new(GLYPH_LIMIT),
    };
    (classes, (attach, sets))
}

fn classes_or_none(alloc: Global, found: Option<ClassDefinition>) -> ClassDefinition
    ensures { result ≡ unwrap_or found no_classes }
{
    match found {
        Some(classes) => classes,
        None => ClassDefinition::empty(alloc),
    }
}

fn few_sets(sets: Array<Coverage>) -> Result<Array<Coverage>, Unread>
    ensures { IfOk result (λ few. few_sets sets ≡ Ok few) }
{
    if sets.len() > usize::from(u16::MAX) {
        return Err(Unread);
    }
    Ok(sets)
}

/// The glyph definitions that were found, without entries where the key is missing.
pub fn definition_or_none(alloc: Global, found: Option<GlyphDefinition>) -> GlyphDefinition
    ensures { result ≡ unwrap_or found no_definition }
{
    match found {
        Some(definition) => definition,
        None => no_definition(alloc),
    }
}
