//! Lookups nested in others: a rule of a context applies them at indices of its match (rustybuzz:
//! hb/ot_layout_gsubgpos.rs, `apply_lookup`, `recurse`).
//!
//! Rattle takes no recursion through a trait's method, so the cycle by depth (a subtable, a context's records, the lookup of
//! a record) is written for each of the two tables, here and in `layout_substitution`, and the two repeat each other.
//! Within this file too functions repeat clauses: each one of the cycle calls the next, so each requires what the next
//! requires and refuses as the next refuses.
ghost use Rattle.std.specs.Prelude.{◌≡◌, ◌≢◌, ◌≤◌, ◌<◌, ◌+◌, length, slice_get, IfOk, OnOk, Some, None, IfErr};
ghost use Rattle.buffer_core.specs.Sides.{items_of};
ghost use Rattle.layout_contexts.specs.Chains.{chain_rule, context_subtable};
ghost use Rattle.layout_contexts.specs.Fitting.{chain_of};
ghost use Rattle.layout_contexts.specs.Inside.{StaysInside};
ghost use Rattle.layout_contexts.specs.Nested.{each_nested, one_record};
ghost use Rattle.layout_contexts.specs.Nesting.{Walking};
ghost use Rattle.layout_contexts.specs.MatchIndices.{AreRising};
ghost use Rattle.layout_contexts.specs.Rules.{chains_of};
ghost use Rattle.layout_gpos.specs.Bases.{AreKept};
ghost use Rattle.layout_match.specs.Applied.{apply_context_of};
ghost use Rattle.buffer_stages.specs.Actions.{first_rule, whole};
ghost use Rattle.buffer_stages.specs.Buffers.{cut_of};
ghost use Rattle.buffer_stages.specs.Performing.{Performs, cut_with};
ghost use Rattle.buffer_stages.specs.Ready.{IsAmongGlyphsInPlace, IsAtGlyphInPlace};
ghost use Rattle.layout_positioning.specs.Lookups.{first_subtable, nested_actions, nested_act, nested_lookup, under_flag};

use crate::cursive_join::CursiveAttachment;
use buffer_core::buffer::hb_buffer_t;
use buffer_glyphs::cause::ShapeCause;
use layout_common::digested::Digested;
use layout_common::subtables::Subtables;
use layout_contexts::{
    ChainRule, begin_record, fails_unflagged, glyph_count, is_tried_at, known_neighbours,
    match_chain, may_follow_at, move_to_match_end, next_context, rule_at, rules_at, settle_match,
};
use layout_face::positioning::{PositioningLookup, PositioningSubtables, PositioningTable};
use layout_gpos::apply::apply_first;
use layout_gpos::bases::LastSearches;
use layout_gpos::mark::MarkToBase;
use layout_gpos::mark_lig::MarkToLigature;
use layout_gpos::mark_mark::MarkToMark;
use layout_gpos::pair::PairAdjustment;
use layout_gpos::single::SingleAdjustment;
use layout_match::{MatchPositions, hb_ot_apply_context_t, next_for_rules};
use layout_tables::context::{ContextSubtable, SequenceLookupRecord};

/// The parameters of a lookup nested in another: its own flag, and all else as the other's.
fn under_flag<'a>(
    lookup: &PositioningLookup,
    ctx: &hb_ot_apply_context_t<'a>,
) -> hb_ot_apply_context_t<'a>
    ensures applied { apply_context_of result ≡ under_flag lookup.now (apply_context_of ctx.now) }
    ensures state { result.random_state ≡ ctx.now.random_state }
{
    let mut nested = *ctx;
    nested.lookup_props = lookup.props();
    nested
}

/// Applies the lookup at an index of the table at the cursor, nested in another: with its own flag, and without a test
/// whether it applies to the glyph there. An index without one does nothing. Lookups may be nested in it `depth` levels
/// deep.
#[cycle(nested)]
#[tactic(auto, using(crate::proofs::Levels::no_lookup, crate::proofs::Levels::lookup_there))]
pub(crate) fn recurse(
    table: &PositioningTable,
    depth: u32,
    index: u16,
    ctx: &hb_ot_apply_context_t,
    last: &mut LastSearches,
    buffer: &mut hb_buffer_t,
) -> Result<bool, ShapeCause>
    requires at_glyph_in_place { IsAtGlyphInPlace buffer.old }
    requires kept { AreKept (apply_context_of ctx.now) (items_of buffer.old) last.old }
    ensures performs { Performs (nested_lookup (nested_actions table.now.lookups depth buffer.old.direction)
        (slice_get table.now.lookups index) buffer.old.direction (apply_context_of ctx.now)
        (cut_with ctx.now.random_state buffer.old)) result ctx.now.random_state ctx.now.random_state buffer.old
        buffer.new }
    ensures kept { OnOk result (AreKept (apply_context_of ctx.now) (items_of buffer.new) last.new) }
    ensures memory { IfErr result (λ e. e ≢ ShapeCause.OutOfMemory) }
{
    let Some(lookup) = table.get_lookup(index) else {
        return Ok(false);
    };
    let nested = under_flag(lookup, ctx);
    apply_subtables(
        table,
        depth,
        lookup.subtables.inner(),
        &nested,
        last,
        buffer,
    )
}

/// Applies the first matching subtable at the cursor.
#[cycle(nested)]
pub(crate) fn apply_subtables(
    table: &PositioningTable,
    depth: u32,
    subtables: &PositioningSubtables,
    ctx: &hb_ot_apply_context_t,
    last: &mut LastSearches,
    buffer: &mut hb_buffer_t,
) -> Result<bool, ShapeCause>
    requires at_glyph_in_place { IsAtGlyphInPlace buffer.old }
    requires kept { AreKept (apply_context_of ctx.now) (items_of buffer.old) last.old }
    ensures performs { Performs (first_subtable (nested_actions table.now.lookups depth buffer.old.direction
        (apply_context_of ctx.now)) buffer.old.direction (apply_context_of ctx.now) subtables.now
        (cut_with ctx.now.random_state buffer.old)) result ctx.now.random_state ctx.now.random_state buffer.old
        buffer.new }
    ensures kept { OnOk result (AreKept (apply_context_of ctx.now) (items_of buffer.new) last.new) }
    ensures memory { IfErr result (λ e. e ≢ ShapeCause.OutOfMemory) }
{
    match subtables {
        PositioningSubtables::Single(subtables) => {
            Ok(apply_first::<SingleAdjustment>(subtables.as_slice(), ctx, last, buffer))
        }
        PositioningSubtables::Pair(subtables) => {
            Ok(apply_first::<PairAdjustment>(subtables.as_slice(), ctx, last, buffer))
        }
        PositioningSubtables::Cursive(subtables) => {
            Ok(apply_first::<CursiveAttachment>(subtables.as_slice(), ctx, last, buffer))
        }
        PositioningSubtables::MarkToBase(subtables) => {
            Ok(apply_first::<MarkToBase>(subtables.as_slice(), ctx, last, buffer))
        }
        PositioningSubtables::MarkToLigature(subtables) => {
            Ok(apply_first::<MarkToLigature>(subtables.as_slice(), ctx, last, buffer))
        }
        PositioningSubtables::MarkToMark(subtables) => {
            Ok(apply_first::<MarkToMark>(subtables.as_slice(), ctx, last, buffer))
        }
        PositioningSubtables::Context(subtables) | PositioningSubtables::ChainContext(subtables) =>
            { apply_contexts(table, depth, subtables, ctx, last, buffer) }
    }
}

/// How many contexts there are.
fn context_count(subtables: &Subtables<ContextSubtable>) -> usize
    ensures { result ≡ length subtables.now }
{
    subtables.as_slice().len()
}

/// Applies the first matching context at the cursor. Those that can't act there, at its glyph between the ones beside it,
/// aren't tried.
#[cycle(nested)]
#[tactic(auto, using(buffer_stages::proofs::Lemmas::Performed::passed_first, layout_gpos::proofs::Lemmas::Passed::passed_closed, buffer_stages::proofs::Lemmas::Performed::passed_unrefused, buffer_stages::proofs::Lemmas::Performed::passed_numbers))]
fn apply_contexts(
    table: &PositioningTable,
    depth: u32,
    subtables: &Subtables<ContextSubtable>,
    ctx: &hb_ot_apply_context_t,
    last: &mut LastSearches,
    buffer: &mut hb_buffer_t,
) -> Result<bool, ShapeCause>
    requires at_glyph_in_place { IsAtGlyphInPlace buffer.old }
    requires kept { AreKept (apply_context_of ctx.now) (items_of buffer.old) last.old }
    ensures performs { Performs (first_rule (context_subtable
        (nested_actions table.now.lookups depth buffer.old.direction (apply_context_of ctx.now)) (apply_context_of ctx.now)) subtables.now
        (cut_with ctx.now.random_state buffer.old))
        result ctx.now.random_state ctx.now.random_state buffer.old buffer.new }
    ensures kept { OnOk result (AreKept (apply_context_of ctx.now) (items_of buffer.new) last.new) }
    ensures memory { IfErr result (λ e. e ≢ ShapeCause.OutOfMemory) }
{
    let count = context_count(subtables);
    let beside = known_neighbours(subtables, ctx, buffer);
    let mut k = 0;
    while k < count {
        let next = next_context(subtables, &beside, k, buffer);
        let Some(subtable) = subtables.get(next) else {
            return Ok(false);
        };
        match apply_context(table, depth, subtable, ctx, last, buffer) {
            Ok(false) => {}
            Ok(true) => return Ok(true),
            Err(cause) => return Err(cause),
        }
        k = next + 1;
    }
    Ok(false)
}

/// Applies a context at the cursor: its first rule that matches, where its rules are tried there. It passes
/// where the set of its glyphs misses the one there.
#[cycle(nested)]
#[tactic(auto, using(buffer_stages::proofs::Lemmas::Glyphs::number_ahead))]
fn apply_context(
    table: &PositioningTable,
    depth: u32,
    subtable: &Digested<ContextSubtable>,
    ctx: &hb_ot_apply_context_t,
    last: &mut LastSearches,
    buffer: &mut hb_buffer_t,
) -> Result<bool, ShapeCause>
    requires at_glyph_in_place { IsAtGlyphInPlace buffer.old }
    requires kept { AreKept (apply_context_of ctx.now) (items_of buffer.old) last.old }
    ensures performs { Performs (context_subtable (nested_actions table.now.lookups depth buffer.old.direction
        (apply_context_of ctx.now)) (apply_context_of ctx.now) subtable.now (cut_with ctx.now.random_state buffer.old)) result
        ctx.now.random_state ctx.now.random_state buffer.old buffer.new }
    ensures kept { OnOk result (AreKept (apply_context_of ctx.now) (items_of buffer.new) last.new) }
    ensures memory { IfErr result (λ e. e ≢ ShapeCause.OutOfMemory) }
{
    let info = buffer.cur(0);
    if !subtable.may_have_glyph(info.as_glyph().0) {
        return Ok(false);
    }
    if !is_tried_at(subtable.inner(), info) {
        return Ok(false);
    }
    apply_rules(table, depth, subtable.inner(), ctx, last, buffer)
}

/// Applies the first matching rule of a context at the cursor. Rules that begin with another glyph are passed over, and so
/// are those whose next item can't be the next glyph (HarfBuzz's fast path: the second item is matched before the rule is
/// walked), unless failed matches are flagged.
#[cycle(nested)]
#[tactic(auto, using(buffer_stages::proofs::Lemmas::Performed::passed_first, layout_gpos::proofs::Lemmas::Passed::passed_closed, buffer_stages::proofs::Lemmas::Performed::passed_unrefused, buffer_stages::proofs::Lemmas::Performed::passed_numbers))]
fn apply_rules(
    table: &PositioningTable,
    depth: u32,
    subtable: &ContextSubtable,
    ctx: &hb_ot_apply_context_t,
    last: &mut LastSearches,
    buffer: &mut hb_buffer_t,
) -> Result<bool, ShapeCause>
    requires at_glyph_in_place { IsAtGlyphInPlace buffer.old }
    requires kept { AreKept (apply_context_of ctx.now) (items_of buffer.old) last.old }
    ensures performs { Performs (first_rule (chain_rule (nested_actions table.now.lookups depth buffer.old.direction
        (apply_context_of ctx.now)) (apply_context_of ctx.now)) (chains_of subtable.now) (cut_with ctx.now.random_state buffer.old))
        result
        ctx.now.random_state ctx.now.random_state buffer.old buffer.new }
    ensures kept { OnOk result (AreKept (apply_context_of ctx.now) (items_of buffer.new) last.new) }
    ensures memory { IfErr result (λ e. e ≢ ShapeCause.OutOfMemory) }
{
    let (start, end) = rules_at(subtable, buffer.cur(0));
    let next = next_for_rules(ctx, end.saturating_sub(start), buffer);
    for i in start..end {
        if !may_follow_at(subtable, i, &next) {
            continue;
        }
        let rule = rule_at(subtable, i);
        match apply_rule(table, depth, &rule, ctx, last, buffer) {
            Ok(false) => {}
            Ok(true) => return Ok(true),
            Err(cause) => return Err(cause),
        }
    }
    Ok(false)
}

/// Applies a rule at the cursor: where it matches, its records, and the cursor then moves to the end of the match.
#[cycle(nested)]
fn apply_rule(
    table: &PositioningTable,
    depth: u32,
    rule: &ChainRule,
    ctx: &hb_ot_apply_context_t,
    last: &mut LastSearches,
    buffer: &mut hb_buffer_t,
) -> Result<bool, ShapeCause>
    requires at_glyph_in_place { IsAtGlyphInPlace buffer.old }
    requires kept { AreKept (apply_context_of ctx.now) (items_of buffer.old) last.old }
    ensures performs { Performs (chain_rule (nested_actions table.now.lookups depth buffer.old.direction (apply_context_of ctx.now))
        (apply_context_of ctx.now) (chain_of rule.now) (cut_with ctx.now.random_state buffer.old)) result
        ctx.now.random_state ctx.now.random_state buffer.old buffer.new }
    ensures kept { OnOk result (AreKept (apply_context_of ctx.now) (items_of buffer.new) last.new) }
    ensures memory { IfErr result (λ e. e ≢ ShapeCause.OutOfMemory) }
{
    if fails_unflagged(ctx, rule, buffer) {
        return Ok(false);
    }
    let mut indices = MatchPositions::new();
    let Some(end) = match_chain(ctx, rule, buffer, &mut indices) else {
        return Ok(false);
    };
    match apply_records(
        table,
        depth,
        rule.records,
        end,
        &mut indices,
        ctx,
        last,
        buffer,
    ) {
        Ok(at) => move_to_match_end(at, buffer),
        Err(cause) => Err(cause),
    }
}

/// Applies the records of a rule in their order, where lookups may be nested; answers the end of the match afterwards.
#[cycle(nested)]
fn apply_records(
    table: &PositioningTable,
    depth: u32,
    records: &[SequenceLookupRecord],
    end: usize,
    indices: &mut MatchPositions,
    ctx: &hb_ot_apply_context_t,
    last: &mut LastSearches,
    buffer: &mut hb_buffer_t,
) -> Result<usize, ShapeCause>
    requires among_glyphs_in_place { IsAmongGlyphsInPlace buffer.old }
    requires kept { AreKept (apply_context_of ctx.now) (items_of buffer.old) last.old }
    requires rising { AreRising 0 (length (whole (cut_of buffer.old)) + 1) indices.old.items }
    requires within { end ≤ length (whole (cut_of buffer.old)) }
    ensures walks { Walking (each_nested (nested_actions table.now.lookups depth buffer.old.direction (apply_context_of ctx.now))
        records.now
        (cut_with ctx.now.random_state buffer.old) indices.old.items end) result indices.new.items ctx.now.random_state
        buffer.old buffer.new }
    ensures inside { IfOk result (λ at. StaysInside (length (whole (cut_of buffer.old)))
        (length (whole (cut_of buffer.new))) indices.old.items indices.new.items end at) }
    ensures kept { OnOk result (AreKept (apply_context_of ctx.now) (items_of buffer.new) last.new) }
    ensures memory { IfErr result (λ e. e ≢ ShapeCause.OutOfMemory) }
{
    if depth == 0 {
        return Ok(end);
    }
    let mut at = end;
    for lookup_record in records {
        match apply_record(
            table,
            depth - 1,
            lookup_record,
            at,
            indices,
            ctx,
            last,
            buffer,
        ) {
            Ok(settled) => at = settled,
            Err(cause) => return Err(cause),
        }
    }
    Ok(at)
}

/// Applies a record of a rule: its lookup, at its index of the match; answers the end of the match afterwards.
#[cycle(nested)]
#[tactic(auto, using(layout_contexts::proofs::Lemmas::Nested::begun_closed, layout_contexts::proofs::Lemmas::Nested::begun_unrefused, layout_contexts::proofs::Lemmas::Nested::begun_numbers, layout_contexts::proofs::Lemmas::Nested::begun_there))]
fn apply_record(
    table: &PositioningTable,
    depth: u32,
    lookup_record: &SequenceLookupRecord,
    end: usize,
    indices: &mut MatchPositions,
    ctx: &hb_ot_apply_context_t,
    last: &mut LastSearches,
    buffer: &mut hb_buffer_t,
) -> Result<usize, ShapeCause>
    requires among_glyphs_in_place { IsAmongGlyphsInPlace buffer.old }
    requires kept { AreKept (apply_context_of ctx.now) (items_of buffer.old) last.old }
    requires rising { AreRising 0 (length (whole (cut_of buffer.old)) + 1) indices.old.items }
    requires within { end ≤ length (whole (cut_of buffer.old)) }
    ensures walks { Walking (one_record (nested_act table.now.lookups depth buffer.old.direction (apply_context_of ctx.now))
        lookup_record.now
        (cut_with ctx.now.random_state buffer.old) indices.old.items end) result indices.new.items ctx.now.random_state
        buffer.old buffer.new }
    ensures inside { IfOk result (λ at. StaysInside (length (whole (cut_of buffer.old)))
        (length (whole (cut_of buffer.new))) indices.old.items indices.new.items end at) }
    ensures kept { OnOk result (AreKept (apply_context_of ctx.now) (items_of buffer.new) last.new) }
    ensures memory { IfErr result (λ e. e ≢ ShapeCause.OutOfMemory) }
{
    let index_in_match = match begin_record(lookup_record, indices, buffer) {
        Ok(Some(index_in_match)) => index_in_match,
        Ok(None) => return Ok(end),
        Err(cause) => return Err(cause),
    };
    let before = glyph_count(buffer);
    match recurse(table, depth, lookup_record.lookup_index, ctx, last, buffer) {
        Ok(true) => Ok(settle_match(lookup_record, index_in_match, before, end, indices, buffer)),
        Ok(false) => Ok(end),
        Err(cause) => Err(cause),
    }
}
