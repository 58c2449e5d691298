//! Reads the GSUB and GPOS tables.
//!
//! The taker of a table has the form of the taker of a list (`rows`): each keeps a limit and the type that it reads.
//! The keys of a table are listed apart from GDEF's (`definition`), which have types of their own.
ghost use Rattle.std.specs.Prelude.{◌≡◌, [], length, codes, unwrap_or, IfOk, Ok};
ghost use Rattle.std.specs.Option.{option_map};
ghost use Rattle.serde_json.specs.View.{view, items_view};
ghost use Rattle.shell_json.specs.Items.{list_or_none};
ghost use Rattle.shell_face_json.specs.Lists.{is_object, lookups_of};
ghost use Rattle.shell_face_json.specs.Scripts.{layout_of};
ghost use Rattle.shell_face_json.specs.Text.Table.{layout_in};

use crate::lists::read_in_turn;
use crate::lookups::{Lookup, all_fit};
use crate::rising::read_rising;
use crate::text::rows::ListTaker;
use crate::value::FromJson;
use json::Reader;
use layout_common::array::Array;
use layout_tables::table::{FeatureRecord, ScriptsAndFeatures};
use serde_json::Value;
use shell_json::fault::JsonFault;
use shell_json::items::list;
use shell_json::key_takers::{Key, ValueTaker, Whole};
use shell_json::members::take_object;
use shell_json::unread::Unread;
use std::alloc::Global;
use std::marker::PhantomData;

/// Reads GSUB or GPOS, in which each index of a mark glyph set is below a limit.
#[derive(Drop)]
pub struct TableTaker<L> {
    set_count: usize,
    lookups: PhantomData<L>,
}

impl<L: Lookup> TableTaker<L> {
    /// A reader of a table in a font with that many mark glyph sets.
    pub fn new(set_count: usize) -> TableTaker<L>
        ensures { result.set_count ≡ set_count }
    {
        TableTaker {
            set_count,
            lookups: PhantomData,
        }
    }
}

impl<L: Lookup> ValueTaker for TableTaker<L> {
    type Output = (ScriptsAndFeatures, Array<L>);

    ghost means = { λ taker d table. (is_object d ≡ Ok tt) × (layout_of d ≡ Ok table.0)
        × (lookups_of L.fits (L.font_value taker.set_count) d ≡ Ok table.1) };

    fn take_value(
        &self,
        alloc: Global,
        reader: &mut Reader<'_>,
        depth: usize,
    ) -> Result<(ScriptsAndFeatures, Array<L>), Unread> {
        let keys = table_keys::<L>(self.set_count);
        let mut found = (None, (None, None));
        take_object(alloc, reader, depth, &keys, &mut found)?;
        let (scripts, (features, lookups)) = found;
        let lookups = items_or_none(alloc, lookups);
        let lookup_count = lookups.len();
        if !all_fit(lookups.as_slice(), lookup_count) {
            return Err(Unread);
        }
        match read_layout(alloc, &scripts, &features, lookup_count) {
            Ok(layout) => Ok((layout, lookups)),
            Err(_) => Err(Unread),
        }
    }
}

type TableKeys<L> = (Key<Whole>, (Key<Whole>, Key<ListTaker<L>>));

fn table_keys<L: FromJson>(set_count: usize) -> TableKeys<L>
    ensures names { (result.0.name.now ≡ codes "scripts") × (result.1.0.name.now ≡ codes "features")
        × (result.1.1.name.now ≡ codes "lookups") }
    ensures limit { result.1.1.taker.limit ≡ set_count }
{
    let scripts = Key {
        name: "scripts",
        taker: Whole,
    };
    let features = Key {
        name: "features",
        taker: Whole,
    };
    let lookups = Key {
        name: "lookups",
        taker: ListTaker::new(set_count),
    };
    (scripts, (features, lookups))
}

/// The values that were found, none where their key is missing.
pub(crate) fn items_or_none<P: Drop>(alloc: Global, found: Option<Array<P>>) -> Array<P>
    ensures { result ≡ unwrap_or found [] }
{
    match found {
        Some(items) => items,
        None => Array::new(Vec::new(alloc)),
    }
}

/// Reads the scripts and features of a table with that many lookups.
fn read_layout(
    alloc: Global,
    scripts: &Option<Value>,
    features: &Option<Value>,
    lookup_count: usize,
) -> Result<ScriptsAndFeatures, JsonFault>
    ensures { IfOk result (λ t.
        layout_in (option_map view scripts.now) (option_map view features.now) lookup_count ≡ Ok t) }
{
    let scripts = items(scripts)?;
    let features = items(features)?;
    let scripts = read_rising(alloc, scripts, features.len())?;
    let features: Array<FeatureRecord> = read_in_turn(alloc, features, lookup_count)?;
    Ok(ScriptsAndFeatures::new(scripts, features.into_vec()))
}

fn items(value: &Option<Value>) -> Result<&[Value], JsonFault>
    ensures { IfOk result (λ vs. list_or_none (option_map view value.entry.now) ≡ Ok (items_view vs.now)) }
{
    match value {
        Some(value) => list(value),
        None => Ok(&[]),
    }
}
