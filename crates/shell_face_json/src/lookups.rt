//! Reads the lookups of a layout table.
ghost use Rattle.std.specs.Prelude.{◌≡◌, ◌≢◌, ℕ, Bool, Option, IfOk, IfErr, Ok, Err};
ghost use Rattle.std.specs.List.{list_all};
ghost use Rattle.serde_json.specs.View.{items_view, view};
ghost use Rattle.layout_face.specs.LookupIndices.{positioning_nested_fit, set_fits, substitution_nested_fit};
ghost use Rattle.shell_face_json.specs.Lists.{lookup_in_table, lookups_of, rows_in_turn};

use crate::objects::count_at;
use crate::value::FromJson;
use layout_common::array::Array;
use layout_face::positioning::PositioningLookup;
use layout_face::substitution::SubstLookup;
use serde_json::Value;
use shell_json::fault::JsonFault;
use shell_json::items::list_at;
use std::alloc::Global;

/// A lookup, which may name other lookups of its table.
pub trait Lookup: FromJson {
    ghost fits: { ℕ → Self → Bool };

    ghost set_of: { Self → Option ℕ };

    /// Whether the lookups that it names exist, in a table of `lookup_count` lookups.
    fn fits(&self, lookup_count: usize) -> bool
        ensures { result ≡ fits lookup_count self.now };

    /// The mark glyph set that it names, if it names one.
    fn set(&self) -> Option<u16>
        ensures { result ≡ set_of self.now };
}

impl Lookup for SubstLookup {
    ghost fits = { λ count lookup. substitution_nested_fit count lookup.subtables };

    ghost set_of = { λ lookup. lookup.mark_filtering_set };

    fn fits(&self, lookup_count: usize) -> bool {
        self.nested_fit(lookup_count)
    }

    fn set(&self) -> Option<u16> {
        self.mark_filtering_set
    }
}

impl Lookup for PositioningLookup {
    ghost fits = { λ count lookup. positioning_nested_fit count lookup.subtables };

    ghost set_of = { λ lookup. lookup.mark_filtering_set };

    fn fits(&self, lookup_count: usize) -> bool {
        self.nested_fit(lookup_count)
    }

    fn set(&self) -> Option<u16> {
        self.mark_filtering_set
    }
}

/// Whether the lookups that some lookups name exist, in a table of `lookup_count` lookups.
pub(crate) fn all_fit<L: Lookup>(lookups: &[L], lookup_count: usize) -> bool
    ensures { result ≡ list_all (λ l. L.fits lookup_count l) lookups.now }
{
    lookups.iter().all(|lookup| lookup.fits(lookup_count))
}

/// Whether the mark glyph sets that some lookups name exist, in a font with `set_count` of them.
pub(crate) fn all_sets_fit<L: Lookup>(lookups: &[L], set_count: usize) -> bool
    ensures { result ≡ list_all (λ l. set_fits set_count (L.set_of l)) lookups.now }
{
    lookups
        .iter()
        .all(|lookup| set_fits(lookup.set(), set_count))
}

fn set_fits(set: Option<u16>, set_count: usize) -> bool
    ensures { result ≡ set_fits set_count set }
{
    match set {
        Some(index) => usize::from(index) < set_count,
        None => true,
    }
}

fn read_lookup<L: Lookup>(
    alloc: Global,
    value: &Value,
    set_count: usize,
    lookup_count: usize,
) -> Result<L, JsonFault>
    ensures ok { IfOk result (λ l. lookup_in_table (L.fits lookup_count) (L.font_value set_count) (view value.now) ≡ Ok l) }
    ensures refused { IfErr result (λ e. e ≢ JsonFault.OutOfMemory
        → lookup_in_table (L.fits lookup_count) (L.font_value set_count) (view value.now) ≡ Err e) }
{
    let lookup = L::from_json(alloc, value, set_count)?;
    if lookup.fits(lookup_count) {
        return Ok(lookup);
    }
    Err(JsonFault::OutOfRange)
}

/// Reads the lookups of a table, in a font with `set_count` mark glyph sets; the fault of the first faulty lookup is
/// returned.
pub(crate) fn read_lookups<L: Lookup>(
    alloc: Global,
    table: &Value,
    set_count: usize,
) -> Result<Array<L>, JsonFault>
    ensures ok { IfOk result (λ v. lookups_of L.fits (L.font_value set_count) (view table.now) ≡ Ok v) }
    ensures refused { IfErr result (λ e. e ≢ JsonFault.OutOfMemory
        → lookups_of L.fits (L.font_value set_count) (view table.now) ≡ Err e) }
{
    let count = count_at(table, "lookups");
    read_each(alloc, list_at(table, "lookups")?, set_count, count)
}

fn read_each<L: Lookup>(
    alloc: Global,
    values: &[Value],
    set_count: usize,
    lookup_count: usize,
) -> Result<Array<L>, JsonFault>
    ensures ok { IfOk result (λ v. rows_in_turn (lookup_in_table (L.fits lookup_count) (L.font_value set_count))
        (items_view values.now) ≡ Ok v) }
    ensures refused { IfErr result (λ e. e ≢ JsonFault.OutOfMemory
        → rows_in_turn (lookup_in_table (L.fits lookup_count) (L.font_value set_count)) (items_view values.now) ≡ Err e) }
{
    let mut rows = Vec::new(alloc);
    for value in values {
        rows.push(read_lookup(alloc, value, set_count, lookup_count)?)?;
    }
    Ok(Array::new(rows))
}
