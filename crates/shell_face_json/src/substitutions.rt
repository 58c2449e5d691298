//! Reads the GSUB subtables.
ghost use Rattle.std.specs.Prelude.{◌≡◌, ◌≢◌, IfOk, IfErr, Ok, Err, [], ◌∷◌};
ghost use Rattle.serde_json.specs.View.{view, items_view};
ghost use Rattle.layout_tables.specs.Layout.{LigatureTable, LigatureSetTable};
ghost use Rattle.shell_json.specs.Cell.{and_then};
ghost use Rattle.shell_face_json.specs.Substitutions.{single, sequence_row, multiple, alternate, ligature, is_ligature, ligatures, ligature_set, ligature_subst, reverse};

use crate::lists::read_list;
use crate::rising::{read_by_key, read_rising};
use crate::rows::read_row;
use crate::value::FromJson;
use layout_common::array::Array;
use layout_tables::ligature::{Ligature, LigatureSet, LigatureSubst};
use layout_tables::reverse::ReverseChainSubst;
use layout_tables::sequence::{AlternateSubst, MultipleSubst, SequenceRow};
use layout_tables::single_subst::SingleSubst;
use serde_json::Value;
use shell_json::fault::JsonFault;
use shell_json::items::list;
use std::alloc::Global;
use std::marker::Model;

impl FromJson for SingleSubst {
    ghost font_value = { single };

    fn from_json(alloc: Global, value: &Value, limit: usize) -> Result<SingleSubst, JsonFault> {
        let rows = read_by_key(alloc, list(value)?, limit)?;
        Ok(SingleSubst { rows })
    }
}

impl FromJson for SequenceRow {
    ghost font_value = { sequence_row };

    fn from_json(alloc: Global, value: &Value, limit: usize) -> Result<SequenceRow, JsonFault> {
        let (glyph, (glyphs, ())) = read_row(alloc, value, limit)?;
        Ok(SequenceRow { glyph, glyphs })
    }
}

impl FromJson for MultipleSubst {
    ghost font_value = { multiple };

    fn from_json(alloc: Global, value: &Value, limit: usize) -> Result<MultipleSubst, JsonFault> {
        let rows = read_by_key(alloc, list(value)?, limit)?;
        Ok(MultipleSubst { rows })
    }
}

impl FromJson for AlternateSubst {
    ghost font_value = { alternate };

    fn from_json(alloc: Global, value: &Value, limit: usize) -> Result<AlternateSubst, JsonFault> {
        let rows = read_by_key(alloc, list(value)?, limit)?;
        Ok(AlternateSubst { rows })
    }
}

impl FromJson for Ligature {
    ghost font_value = { ligature };

    fn from_json(alloc: Global, value: &Value, limit: usize) -> Result<Ligature, JsonFault> {
        let (components, (glyph, ())): (Array<u16>, (u16, ())) = read_row(alloc, value, limit)?;
        Ok(Ligature::new(components.into_vec(), glyph))
    }
}

/// The ligatures of a first glyph: one, or a list of them.
#[derive(Drop)]
struct Ligatures {
    ligatures: Vec<Ligature>,
}

impl Model for Ligatures {
    ghost use Rattle.std.specs.Prelude.{List};
    ghost use Rattle.layout_tables.specs.Layout.{LigatureTable};

    ghost Value = { List LigatureTable };

    ghost view = { λ l. l.ligatures.items };
}

impl FromJson for Ligatures {
    ghost font_value = { ligatures };

    fn from_json(alloc: Global, value: &Value, limit: usize) -> Result<Ligatures, JsonFault> {
        let values = list(value)?;
        let ligatures = if is_ligature(values) {
            read_one(alloc, value, limit)?
        } else {
            read_list(alloc, values, limit)?
        };
        Ok(Ligatures { ligatures })
    }
}

fn read_one(alloc: Global, value: &Value, limit: usize) -> Result<Vec<Ligature>, JsonFault>
    ensures ok { IfOk result (λ v. and_then (ligature limit (view value.now)) (λ l. Ok (l ∷ [])) ≡ Ok v.items) }
    ensures refused { IfErr result (λ e. e ≢ JsonFault.OutOfMemory
        → and_then (ligature limit (view value.now)) (λ l. Ok (l ∷ [])) ≡ Err e) }
{
    let mut ligatures = Vec::new(alloc);
    ligatures.push(Ligature::from_json(alloc, value, limit)?)?;
    Ok(ligatures)
}

#[tactic(auto, using(crate::proofs::Split::no_ligature, crate::proofs::Split::maybe_ligature))]
fn is_ligature(values: &[Value]) -> bool
    ensures { result ≡ is_ligature (items_view values.now) }
{
    if values.len() != 2 {
        return false;
    }
    values[1].is_number()
}

impl FromJson for LigatureSet {
    ghost font_value = { ligature_set };

    fn from_json(alloc: Global, value: &Value, limit: usize) -> Result<LigatureSet, JsonFault> {
        let (first, (ligatures, ())): (u16, (Ligatures, ())) = read_row(alloc, value, limit)?;
        Ok(LigatureSet::new(first, ligatures.ligatures))
    }
}

impl FromJson for LigatureSubst {
    ghost font_value = { ligature_subst };

    fn from_json(alloc: Global, value: &Value, limit: usize) -> Result<LigatureSubst, JsonFault> {
        let sets = read_rising(alloc, list(value)?, limit)?;
        Ok(LigatureSubst::new(sets))
    }
}

impl FromJson for ReverseChainSubst {
    ghost font_value = { reverse };

    fn from_json(
        alloc: Global,
        value: &Value,
        limit: usize,
    ) -> Result<ReverseChainSubst, JsonFault> {
        let (backtrack, (lookahead, (rows, ()))) = read_row(alloc, value, limit)?;
        Ok(ReverseChainSubst {
            backtrack,
            lookahead,
            rows,
        })
    }
}
