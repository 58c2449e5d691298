//! The lookups of GPOS that kern (OpenType, GPOS lookup types 2 and 7).
ghost use Rattle.std.specs.Prelude.{◌≡◌, ◌≢◌, ◌≤◌, ◌<◌, ◌+◌, ◌*◌, ◌++◌, ◌∷◌, [], IfOk, IfErr, OnOk, Ok, Err, length};
ghost use Rattle.font_bytes.specs.Records.{records};
ghost use Rattle.font_common.specs.Offsets.{after};
ghost use Rattle.layout_common.specs.Coverage.{in_order};
ghost use Rattle.font_kern.specs.Lookups.{pair_lookup, call_rule, context_lookup, lookups_of, kern_lookups, kern_feature};

use crate::kerning::{Kerning, read_kerning};
use crate::subtables::Subtable;
use buffer_common::tag::Tag;
use font_bytes::fault::TableFault;
use font_bytes::room::Room;
use layout_common::array::Array;
use layout_common::coverage::Coverage;
use layout_common::digested::Digested;
use layout_common::flags::IGNORE_MARKS;
use layout_common::subtables::Subtables;
use layout_face::positioning::{PositioningLookup, PositioningSubtables};
use layout_tables::context::{ContextSubtable, SequenceLookupRecord, SequenceRule};
use layout_tables::pair::PairPos;
use layout_tables::table::FeatureRecord;
use std::alloc::{AllocError, Global};

fn pair_subtables(alloc: Global, pairs: PairPos) -> Result<Subtables<PairPos>, AllocError>
    ensures { IfOk result (λ s. s ≡ pairs ∷ []) }
{
    let mut items = Vec::new(alloc);
    items.push(Digested::new(pairs))?;
    Subtables::new(alloc, Array::new(items))
}

fn pair_lookup(alloc: Global, pairs: PairPos) -> Result<PositioningLookup, AllocError>
    ensures { IfOk result (λ l. l ≡ pair_lookup pairs) }
{
    let subtables = pair_subtables(alloc, pairs)?;
    Ok(PositioningLookup::parse(IGNORE_MARKS, None, PositioningSubtables::Pair(subtables)))
}

/// The call of a lookup at the first glyph of the input.
fn calls(alloc: Global, index: u16) -> Result<Vec<SequenceLookupRecord>, AllocError>
    ensures { IfOk result (λ v. v.items ≡ record { sequence_index = 0; lookup_index = index } ∷ []) }
{
    let mut calls = Vec::new(alloc);
    calls.push(SequenceLookupRecord {
        sequence_index: 0,
        lookup_index: index,
    })?;
    Ok(calls)
}

fn one_input(alloc: Global, firsts: Coverage) -> Result<Vec<Coverage>, AllocError>
    ensures { IfOk result (λ v. v.items ≡ firsts ∷ []) }
{
    let mut input = Vec::new(alloc);
    input.push(firsts)?;
    Ok(input)
}

/// The rule of one glyph, at which a lookup is called.
fn call_rule(
    alloc: Global,
    firsts: Coverage,
    index: u16,
) -> Result<SequenceRule<Coverage>, AllocError>
    ensures { IfOk result (λ r. r ≡ call_rule firsts index) }
{
    let input = one_input(alloc, firsts)?;
    let records = calls(alloc, index)?;
    Ok(SequenceRule {
        backtrack: Array::new(Vec::new(alloc)),
        input: Array::new(input),
        lookahead: Array::new(Vec::new(alloc)),
        records: Array::new(records),
    })
}

fn one_rule(alloc: Global, rule: SequenceRule<Coverage>) -> Result<ContextSubtable, AllocError>
    ensures { IfOk result (λ c. c ≡ ContextSubtable.Coverage (rule ∷ [])) }
{
    let mut rules = Vec::new(alloc);
    rules.push(rule)?;
    Ok(ContextSubtable::Coverage(Array::new(rules)))
}

fn context_subtables(
    alloc: Global,
    context: ContextSubtable,
) -> Result<Subtables<ContextSubtable>, AllocError>
    ensures { IfOk result (λ s. s ≡ context ∷ []) }
{
    let mut items = Vec::new(alloc);
    items.push(Digested::new(context))?;
    Subtables::new(alloc, Array::new(items))
}

fn context_lookup(
    alloc: Global,
    firsts: Coverage,
    index: u16,
) -> Result<PositioningLookup, AllocError>
    ensures { IfOk result (λ l. l ≡ context_lookup firsts index) }
{
    let rule = call_rule(alloc, firsts, index)?;
    let context = one_rule(alloc, rule)?;
    let subtables = context_subtables(alloc, context)?;
    Ok(PositioningLookup::parse(IGNORE_MARKS, None, PositioningSubtables::Context(subtables)))
}

/// Appends the two lookups of a subtable.
fn push_lookups(
    alloc: Global,
    lookups: &mut Vec<PositioningLookup>,
    kerning: Kerning,
) -> Result<(), AllocError>
    requires { length lookups.old.items < 65536 }
    ensures added { OnOk result (lookups.new.items
        ≡ lookups.old.items ++ lookups_of (length lookups.old.items) kerning) }
    ensures grown { OnOk result (length lookups.new.items ≡ length lookups.old.items + 2) }
{
    let Kerning { firsts, pairs } = kerning;
    let index = lookups.len() as u16;
    let pairs = pair_lookup(alloc, pairs)?;
    lookups.push(pairs)?;
    let context = context_lookup(alloc, firsts, index)?;
    lookups.push(context)?;
    Ok(())
}

/// Reads the subtables, and appends two lookups for each: the pairs, and a context that calls them at each first glyph.
#[tactic(auto, using(crate::proofs::Appended::subtable_added, crate::proofs::Appended::subtable_refused, crate::proofs::Appended::subtables_added))]
pub fn append_lookups(
    alloc: Global,
    is_backward: bool,
    table: &[u8],
    subtables: &[Subtable],
    lookups: &mut Vec<PositioningLookup>,
    room: &mut Room,
) -> Result<(), TableFault>
    requires { length lookups.old.items + 2 * length subtables.now ≤ 65536 }
    ensures ok { OnOk result (after lookups.old.items (kern_lookups is_backward table.now room.old.left (length lookups.old.items) subtables.now)
        ≡ Ok (lookups.new.items, room.new.left)) }
    ensures refused { IfErr result (λ e. e ≢ TableFault.OutOfMemory
        → after lookups.old.items (kern_lookups is_backward table.now room.old.left (length lookups.old.items) subtables.now) ≡ Err e) }
    ensures grown { OnOk result (length lookups.new.items ≡ length lookups.old.items + 2 * length subtables.now) }
{
    for subtable in subtables {
        let kerning = read_kerning(alloc, is_backward, table, *subtable, room)?;
        push_lookups(alloc, lookups, kerning)?;
    }
    Ok(())
}

/// The feature of the contexts of n subtables whose lookups begin at an index.
#[tactic(auto, using(font_bytes::proofs::Recorded::records_more, font_bytes::proofs::Recorded::records_end))]
pub fn kern_feature(alloc: Global, index: usize, count: usize) -> Result<FeatureRecord, AllocError>
    requires { index + 2 * count ≤ 65536 }
    ensures { IfOk result (λ f. f ≡ kern_feature index count) }
{
    let mut lookups = Vec::with_capacity(alloc, count)?;
    for each in 0..count {
        lookups.push((index + 1 + 2 * each) as u16)?;
    }
    Ok(FeatureRecord::new(Tag::from_bytes(b"kern"), lookups))
}
