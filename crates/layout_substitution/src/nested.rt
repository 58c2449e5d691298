//! Lookups nested in others: a rule of a context applies them at indices of its match (rustybuzz:
//! hb/ot_layout_gsubgpos.rs, `apply_lookup`, `recurse`).
//!
//! Rattle takes no recursion through a trait's method, so the cycle by depth (a subtable, a context's records, the lookup of
//! a record) is written for each of the two tables, here and in `layout_positioning`, and the two repeat each other.
//! Within this file too functions repeat clauses: each one of the cycle calls the next, so each requires what the next
//! requires and refuses as the next refuses.
ghost use Rattle.std.specs.Prelude.{◌≡◌, ◌≢◌, ◌≤◌, ◌<◌, ◌+◌, length, slice_get, IfOk, Some, None};
ghost use Rattle.layout_contexts.specs.Chains.{chain_rule, context_subtable};
ghost use Rattle.layout_contexts.specs.Fitting.{chain_of};
ghost use Rattle.layout_contexts.specs.Inside.{StaysInside};
ghost use Rattle.layout_contexts.specs.Nested.{each_nested, one_record};
ghost use Rattle.layout_contexts.specs.Nesting.{Walking};
ghost use Rattle.layout_contexts.specs.MatchIndices.{AreRising};
ghost use Rattle.layout_contexts.specs.Rules.{chains_of};
ghost use Rattle.layout_match.specs.Applied.{apply_context_of};
ghost use Rattle.buffer_stages.specs.Actions.{first_rule, whole};
ghost use Rattle.buffer_stages.specs.Buffers.{cut_of};
ghost use Rattle.buffer_stages.specs.Performing.{Performs, cut_with};
ghost use Rattle.buffer_stages.specs.Ready.{IsAmongGlyphs, IsAtGlyph};
ghost use Rattle.layout_substitution.specs.Lookups.{first_subtable, nested_actions, nested_act, nested_lookup};

use buffer_core::buffer::hb_buffer_t;
use buffer_glyphs::cause::ShapeCause;
use layout_common::digested::Digested;
use layout_common::subtables::Subtables;
use layout_contexts::{
    ChainRule, begin_record, fails_unflagged, glyph_count, is_tried_at, known_neighbours,
    match_chain, may_follow_at, move_to_match_end, next_context, rule_at, rules_at, settle_match,
};
use layout_face::substitution::{SubstitutionSubtables, SubstitutionTable};
use layout_gsub::apply::apply_first;
use layout_match::{MatchPositions, hb_ot_apply_context_t, next_for_rules};
use layout_tables::context::{ContextSubtable, SequenceLookupRecord};

/// Applies the lookup at an index of the table at the cursor, nested in another: with its own flag, and without a test
/// whether it applies to the glyph there. An index without one does nothing. Lookups may be nested in it `depth` levels
/// deep.
#[cycle(nested)]
pub(crate) fn recurse(
    table: &SubstitutionTable,
    depth: u32,
    index: u16,
    ctx: &mut hb_ot_apply_context_t,
    buffer: &mut hb_buffer_t,
) -> Result<bool, ShapeCause>
    requires at_glyph { IsAtGlyph buffer.old }
    ensures performs { Performs (nested_lookup (nested_actions table.now.lookups depth) (slice_get table.now.lookups index)
        (apply_context_of ctx.old) (cut_with ctx.old.random_state buffer.old)) result ctx.old.random_state
        ctx.new.random_state buffer.old buffer.new }
    ensures context { apply_context_of ctx.new ≡ apply_context_of ctx.old }
{
    let Some(lookup) = table.get_lookup(index) else {
        return Ok(false);
    };
    let lookup_props = ctx.lookup_props;
    ctx.lookup_props = lookup.props();
    let applied = apply_subtables(table, depth, lookup.subtables.inner(), ctx, buffer);
    ctx.lookup_props = lookup_props;
    applied
}

/// Applies the first matching subtable at the cursor. Reverse chaining is not applied from the left.
#[cycle(nested)]
pub(crate) fn apply_subtables(
    table: &SubstitutionTable,
    depth: u32,
    subtables: &SubstitutionSubtables,
    ctx: &mut hb_ot_apply_context_t,
    buffer: &mut hb_buffer_t,
) -> Result<bool, ShapeCause>
    requires at_glyph { IsAtGlyph buffer.old }
    ensures performs { Performs (first_subtable (nested_actions table.now.lookups depth (apply_context_of ctx.old))
        (apply_context_of ctx.old) subtables.now (cut_with ctx.old.random_state buffer.old)) result
        ctx.old.random_state ctx.new.random_state buffer.old buffer.new }
    ensures context { apply_context_of ctx.new ≡ apply_context_of ctx.old }
{
    match subtables {
        SubstitutionSubtables::Single(subtables) => apply_first(subtables, ctx, buffer),
        SubstitutionSubtables::Multiple(subtables) => apply_first(subtables, ctx, buffer),
        SubstitutionSubtables::Alternate(subtables) => apply_first(subtables, ctx, buffer),
        SubstitutionSubtables::Ligature(subtables) => apply_first(subtables, ctx, buffer),
        SubstitutionSubtables::Context(subtables)
        | SubstitutionSubtables::ChainContext(subtables) => {
            apply_contexts(table, depth, subtables, ctx, buffer)
        }
        SubstitutionSubtables::ReverseChainSingle(_) => Ok(false),
    }
}

/// How many contexts there are.
fn context_count(subtables: &Subtables<ContextSubtable>) -> usize
    ensures { result ≡ length subtables.now }
{
    subtables.as_slice().len()
}

/// Applies the first matching context at the cursor. Those that can't act there, at its glyph between the ones beside it,
/// aren't tried.
#[cycle(nested)]
#[tactic(auto, using(buffer_stages::proofs::Lemmas::Performed::passed_first, buffer_stages::proofs::Lemmas::Performed::passed_open, buffer_stages::proofs::Lemmas::Performed::passed_unrefused, buffer_stages::proofs::Lemmas::Performed::passed_numbers))]
fn apply_contexts(
    table: &SubstitutionTable,
    depth: u32,
    subtables: &Subtables<ContextSubtable>,
    ctx: &mut hb_ot_apply_context_t,
    buffer: &mut hb_buffer_t,
) -> Result<bool, ShapeCause>
    requires at_glyph { IsAtGlyph buffer.old }
    ensures performs { Performs (first_rule (context_subtable (nested_actions table.now.lookups depth
        (apply_context_of ctx.old)) (apply_context_of ctx.old)) subtables.now (cut_with ctx.old.random_state buffer.old))
        result ctx.old.random_state ctx.new.random_state buffer.old buffer.new }
    ensures context { apply_context_of ctx.new ≡ apply_context_of ctx.old }
{
    let count = context_count(subtables);
    let beside = known_neighbours(subtables, ctx, buffer);
    let mut k = 0;
    while k < count {
        let next = next_context(subtables, &beside, k, buffer);
        let Some(subtable) = subtables.get(next) else {
            return Ok(false);
        };
        match apply_context(table, depth, subtable, ctx, buffer) {
            Ok(false) => {}
            Ok(true) => return Ok(true),
            Err(cause) => return Err(cause),
        }
        k = next + 1;
    }
    Ok(false)
}

/// Applies a context at the cursor: its first rule that matches, where its rules are tried there. It passes
/// where the set of its glyphs misses the one there.
#[cycle(nested)]
#[tactic(auto, using(buffer_stages::proofs::Lemmas::Glyphs::number_ahead))]
fn apply_context(
    table: &SubstitutionTable,
    depth: u32,
    subtable: &Digested<ContextSubtable>,
    ctx: &mut hb_ot_apply_context_t,
    buffer: &mut hb_buffer_t,
) -> Result<bool, ShapeCause>
    requires at_glyph { IsAtGlyph buffer.old }
    ensures performs { Performs (context_subtable (nested_actions table.now.lookups depth (apply_context_of ctx.old))
        (apply_context_of ctx.old) subtable.now (cut_with ctx.old.random_state buffer.old)) result
        ctx.old.random_state ctx.new.random_state buffer.old buffer.new }
    ensures context { apply_context_of ctx.new ≡ apply_context_of ctx.old }
{
    let info = buffer.cur(0);
    if !subtable.may_have_glyph(info.as_glyph().0) {
        return Ok(false);
    }
    if !is_tried_at(subtable.inner(), info) {
        return Ok(false);
    }
    apply_rules(table, depth, subtable.inner(), ctx, buffer)
}

/// Applies the first matching rule of a context at the cursor. Rules that begin with another glyph are passed over, and so
/// are those whose next item can't be the next glyph (HarfBuzz's fast path: the second item is matched before the rule is
/// walked), unless failed matches are flagged.
#[cycle(nested)]
#[tactic(auto, using(buffer_stages::proofs::Lemmas::Performed::passed_first, buffer_stages::proofs::Lemmas::Performed::passed_open, buffer_stages::proofs::Lemmas::Performed::passed_unrefused, buffer_stages::proofs::Lemmas::Performed::passed_numbers))]
fn apply_rules(
    table: &SubstitutionTable,
    depth: u32,
    subtable: &ContextSubtable,
    ctx: &mut hb_ot_apply_context_t,
    buffer: &mut hb_buffer_t,
) -> Result<bool, ShapeCause>
    requires at_glyph { IsAtGlyph buffer.old }
    ensures performs { Performs (first_rule (chain_rule (nested_actions table.now.lookups depth (apply_context_of
        ctx.old)) (apply_context_of ctx.old)) (chains_of subtable.now) (cut_with ctx.old.random_state buffer.old)) result
        ctx.old.random_state ctx.new.random_state buffer.old buffer.new }
    ensures context { apply_context_of ctx.new ≡ apply_context_of ctx.old }
{
    let (start, end) = rules_at(subtable, buffer.cur(0));
    let next = next_for_rules(ctx, end.saturating_sub(start), buffer);
    for i in start..end {
        if !may_follow_at(subtable, i, &next) {
            continue;
        }
        let rule = rule_at(subtable, i);
        match apply_rule(table, depth, &rule, ctx, buffer) {
            Ok(false) => {}
            Ok(true) => return Ok(true),
            Err(cause) => return Err(cause),
        }
    }
    Ok(false)
}

/// Applies a rule at the cursor: where it matches, its records, and the cursor then moves to the end of the match.
#[cycle(nested)]
fn apply_rule(
    table: &SubstitutionTable,
    depth: u32,
    rule: &ChainRule,
    ctx: &mut hb_ot_apply_context_t,
    buffer: &mut hb_buffer_t,
) -> Result<bool, ShapeCause>
    requires at_glyph { IsAtGlyph buffer.old }
    ensures performs { Performs (chain_rule (nested_actions table.now.lookups depth (apply_context_of ctx.old))
        (apply_context_of ctx.old) (chain_of rule.now) (cut_with ctx.old.random_state buffer.old)) result
        ctx.old.random_state ctx.new.random_state buffer.old buffer.new }
    ensures context { apply_context_of ctx.new ≡ apply_context_of ctx.old }
{
    if fails_unflagged(ctx, rule, buffer) {
        return Ok(false);
    }
    let mut indices = MatchPositions::new();
    let Some(end) = match_chain(ctx, rule, buffer, &mut indices) else {
        return Ok(false);
    };
    match apply_records(table, depth, rule.records, end, &mut indices, ctx, buffer) {
        Ok(at) => move_to_match_end(at, buffer),
        Err(cause) => Err(cause),
    }
}

/// Applies the records of a rule in their order, where lookups may be nested; answers the end of the match afterwards.
#[cycle(nested)]
fn apply_records(
    table: &SubstitutionTable,
    depth: u32,
    records: &[SequenceLookupRecord],
    end: usize,
    indices: &mut MatchPositions,
    ctx: &mut hb_ot_apply_context_t,
    buffer: &mut hb_buffer_t,
) -> Result<usize, ShapeCause>
    requires among_glyphs { IsAmongGlyphs buffer.old }
    requires rising { AreRising 0 (length (whole (cut_of buffer.old)) + 1) indices.old.items }
    requires within { end ≤ length (whole (cut_of buffer.old)) }
    ensures walks { Walking (each_nested (nested_actions table.now.lookups depth (apply_context_of ctx.old)) records.now
        (cut_with ctx.old.random_state buffer.old) indices.old.items end) result indices.new.items ctx.new.random_state
        buffer.old buffer.new }
    ensures inside { IfOk result (λ at. StaysInside (length (whole (cut_of buffer.old)))
        (length (whole (cut_of buffer.new))) indices.old.items indices.new.items end at) }
    ensures context { apply_context_of ctx.new ≡ apply_context_of ctx.old }
{
    if depth == 0 {
        return Ok(end);
    }
    let mut at = end;
    for lookup_record in records {
        match apply_record(table, depth - 1, lookup_record, at, indices, ctx, buffer) {
            Ok(settled) => at = settled,
            Err(cause) => return Err(cause),
        }
    }
    Ok(at)
}

/// Applies a record of a rule: its lookup, at its index of the match; answers the end of the match afterwards.
#[cycle(nested)]
#[tactic(auto, using(layout_contexts::proofs::Lemmas::Nested::begun_open, layout_contexts::proofs::Lemmas::Nested::begun_unrefused, layout_contexts::proofs::Lemmas::Nested::begun_numbers, layout_contexts::proofs::Lemmas::Nested::begun_there))]
fn apply_record(
    table: &SubstitutionTable,
    depth: u32,
    lookup_record: &SequenceLookupRecord,
    end: usize,
    indices: &mut MatchPositions,
    ctx: &mut hb_ot_apply_context_t,
    buffer: &mut hb_buffer_t,
) -> Result<usize, ShapeCause>
    requires among_glyphs { IsAmongGlyphs buffer.old }
    requires rising { AreRising 0 (length (whole (cut_of buffer.old)) + 1) indices.old.items }
    requires within { end ≤ length (whole (cut_of buffer.old)) }
    ensures walks { Walking (one_record (nested_act table.now.lookups depth (apply_context_of ctx.old)) lookup_record.now
        (cut_with ctx.old.random_state buffer.old) indices.old.items end) result indices.new.items ctx.new.random_state
        buffer.old buffer.new }
    ensures inside { IfOk result (λ at. StaysInside (length (whole (cut_of buffer.old)))
        (length (whole (cut_of buffer.new))) indices.old.items indices.new.items end at) }
    ensures context { apply_context_of ctx.new ≡ apply_context_of ctx.old }
{
    let index_in_match = match begin_record(lookup_record, indices, buffer) {
        Ok(Some(index_in_match)) => index_in_match,
        Ok(None) => return Ok(end),
        Err(cause) => return Err(cause),
    };
    let before = glyph_count(buffer);
    match recurse(table, depth, lookup_record.lookup_index, ctx, buffer) {
        Ok(true) => Ok(settle_match(lookup_record, index_in_match, before, end, indices, buffer)),
        Ok(false) => Ok(end),
        Err(cause) => Err(cause),
    }
}
