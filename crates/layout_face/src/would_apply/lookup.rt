//! Whether a lookup would apply to glyphs with no context around them (rustybuzz: hb/ot_layout_gsubgpos.rs,
//! `WouldApply`).
ghost use Rattle.std.specs.Prelude.{◌≡◌, ◌==◌};
ghost use Rattle.std.specs.List.{list_any};
ghost use Rattle.layout_common.specs.Classes.{class_of};
ghost use Rattle.layout_common.specs.Coverage.{is_covered};
ghost use Rattle.layout_face.specs.WouldApplyLookups.{any_rule_would, class_rule_would, context_would, counts, coverage_rule_would, fit, glyph_rule_would, is_first_covered, lookup_would};

use crate::substitution::{SubstLookup, SubstitutionSubtables};
use crate::would_apply::{WouldApply, WouldApplyContext};
use layout_common::class_definition::ClassDefinition;
use layout_common::coverage::Coverage;
use layout_common::digested::{Covers, Digested};
use layout_tables::context::{ClassRules, ContextSubtable, SequenceRule};
use layout_tables::item_rule::ItemRule;

/// Whether a rule counts: without context around the glyphs, one that requires glyphs before or after its input
/// doesn't.
fn counts(rule: &SequenceRule<Coverage>, ctx: &WouldApplyContext) -> bool
    ensures { result ≡ counts ctx.now.zero_context rule.now }
{
    !ctx.zero_context
        || (rule.backtrack.as_slice().is_empty() && rule.lookahead.as_slice().is_empty())
}

/// Whether a rule by glyphs or by classes counts.
fn item_rule_counts(rule: &ItemRule, ctx: &WouldApplyContext) -> bool
    ensures { result ≡ counts ctx.now.zero_context rule.now }
{
    !ctx.zero_context || (rule.backtrack().is_empty() && rule.lookahead().is_empty())
}

#[tactic(auto, using(crate::proofs::Fitting::fit_next, crate::proofs::Fitting::fit_uneven, crate::proofs::Fitting::fit_end))]
fn fit_classes(classes: &ClassDefinition, values: &[u16], glyphs: &[u16]) -> bool
    ensures { result ≡ fit (λ class glyph. class_of glyph classes.now == class) values.now glyphs.now }
{
    if values.len() != glyphs.len() {
        return false;
    }
    for k in 0..values.len() {
        if classes.class_of(glyphs[k]) != values[k] {
            return false;
        }
    }
    true
}

#[tactic(auto, using(crate::proofs::Fitting::fit_next, crate::proofs::Fitting::fit_uneven, crate::proofs::Fitting::fit_end))]
fn fit_coverages(sets: &[Coverage], glyphs: &[u16]) -> bool
    ensures { result ≡ fit (λ set glyph. is_covered glyph set) sets.now glyphs.now }
{
    if sets.len() != glyphs.len() {
        return false;
    }
    for k in 0..sets.len() {
        if !sets[k].contains(glyphs[k]) {
            return false;
        }
    }
    true
}

fn glyph_rule_would_apply(rule: &ItemRule, ctx: &WouldApplyContext) -> bool
    ensures { result ≡ glyph_rule_would ctx.now.zero_context ctx.now.glyphs.now rule.now }
{
    item_rule_counts(rule, ctx) && rule.input() == ctx.glyphs
}

fn class_rule_would_apply(rules: &ClassRules, rule: &ItemRule, ctx: &WouldApplyContext) -> bool
    ensures { result ≡ class_rule_would rules.now ctx.now.zero_context ctx.now.glyphs.now rule.now }
{
    item_rule_counts(rule, ctx) && fit_classes(&rules.input, rule.input(), ctx.glyphs)
}

fn coverage_rule_would_apply(rule: &SequenceRule<Coverage>, ctx: &WouldApplyContext) -> bool
    ensures { result ≡ coverage_rule_would ctx.now.zero_context ctx.now.glyphs.now rule.now }
{
    counts(rule, ctx) && fit_coverages(rule.input.as_slice(), ctx.glyphs)
}

fn is_first_covered(set: &Coverage, glyphs: &[u16]) -> bool
    ensures { result ≡ is_first_covered set.now glyphs.now }
{
    match glyphs {
        [first, ..] => set.contains(*first),
        [] => false,
    }
}

fn any_glyph_rule(rules: &[ItemRule], ctx: &WouldApplyContext) -> bool
    ensures { result ≡ list_any (λ r. glyph_rule_would ctx.now.zero_context ctx.now.glyphs.now r) rules.now }
{
    rules.iter().any(|rule| glyph_rule_would_apply(rule, ctx))
}

fn any_class_rule(classes: &ClassRules, rules: &[ItemRule], ctx: &WouldApplyContext) -> bool
    ensures { result
        ≡ list_any (λ r. class_rule_would classes.now ctx.now.zero_context ctx.now.glyphs.now r) rules.now }
{
    rules
        .iter()
        .any(|rule| class_rule_would_apply(classes, rule, ctx))
}

fn any_coverage_rule(rules: &[SequenceRule<Coverage>], ctx: &WouldApplyContext) -> bool
    ensures { result ≡ list_any (λ r. coverage_rule_would ctx.now.zero_context ctx.now.glyphs.now r) rules.now }
{
    rules
        .iter()
        .any(|rule| coverage_rule_would_apply(rule, ctx))
}

fn any_rule_would_apply(subtable: &ContextSubtable, ctx: &WouldApplyContext) -> bool
    ensures { result ≡ any_rule_would subtable.now ctx.now.glyphs.now ctx.now.zero_context }
{
    match subtable {
        ContextSubtable::Glyphs(rules) => any_glyph_rule(rules.as_slice(), ctx),
        ContextSubtable::Classes(classes) => {
            is_first_covered(&classes.first, ctx.glyphs)
                && any_class_rule(classes, classes.rules.as_slice(), ctx)
        }
        ContextSubtable::Coverage(rules) => any_coverage_rule(rules.as_slice(), ctx),
    }
}

/// Whether a context or a chained context would apply to the glyphs where they are all its input: one of its rules
/// requires as many glyphs, and each matches. What the rule's lookups would do doesn't count.
pub fn context_would_apply(subtable: &ContextSubtable, ctx: &WouldApplyContext) -> bool
    ensures { result ≡ context_would subtable.now ctx.now.glyphs.now ctx.now.zero_context }
{
    !ctx.glyphs.is_empty() && any_rule_would_apply(subtable, ctx)
}

fn any_would_apply<S: WouldApply + Covers>(
    subtables: &[Digested<S>],
    ctx: &WouldApplyContext,
) -> bool
    ensures { result ≡ list_any (λ s. S.would s ctx.now.glyphs.now ctx.now.zero_context) subtables.now }
{
    subtables
        .iter()
        .any(|subtable| subtable.inner().would_apply(ctx))
}

fn any_context_would_apply(subtables: &[Digested<ContextSubtable>], ctx: &WouldApplyContext) -> bool
    ensures { result ≡ list_any (λ s. context_would s ctx.now.glyphs.now ctx.now.zero_context) subtables.now }
{
    subtables
        .iter()
        .any(|subtable| context_would_apply(subtable.inner(), ctx))
}

/// Whether a lookup would apply to the glyphs where they are all its input.
pub fn would_apply(lookup: &SubstLookup, ctx: &WouldApplyContext) -> bool
    ensures { result ≡ lookup_would lookup.now.subtables ctx.now.glyphs.now ctx.now.zero_context }
{
    match lookup.subtables.inner() {
        SubstitutionSubtables::Single(subtables) => any_would_apply(subtables.as_slice(), ctx),
        SubstitutionSubtables::Multiple(subtables) => any_would_apply(subtables.as_slice(), ctx),
        SubstitutionSubtables::Alternate(subtables) => any_would_apply(subtables.as_slice(), ctx),
        SubstitutionSubtables::Ligature(subtables) => any_would_apply(subtables.as_slice(), ctx),
        SubstitutionSubtables::Context(subtables)
        | SubstitutionSubtables::ChainContext(subtables) => {
            any_context_would_apply(subtables.as_slice(), ctx)
        }
        SubstitutionSubtables::ReverseChainSingle(subtables) => {
            any_would_apply(subtables.as_slice(), ctx)
        }
    }
}

/// What the rule's lookups would do doesn't count.
impl WouldApply for ContextSubtable {
    ghost would = { context_would };

    fn would_apply(&self, ctx: &WouldApplyContext) -> bool {
        context_would_apply(self, ctx)
    }
}

impl WouldApply for SubstLookup {
    ghost would = { λ l. lookup_would l.subtables };

    fn would_apply(&self, ctx: &WouldApplyContext) -> bool {
        would_apply(self, ctx)
    }
}
