//! The rules of a context subtable, in any of its formats (OpenType, chapter 2, sequence context formats 1 to 3).
ghost use Rattle.std.specs.Prelude.{◌≡◌, ◌<◌, true, false, length, map, slice_get, Some};
ghost use Rattle.buffer_glyphs.specs.Items.{item_of};
ghost use Rattle.layout_contexts.specs.Chains.{class_chain, coverage_chain, glyph_chain};
ghost use Rattle.layout_contexts.specs.Fitting.{chain_of};
ghost use Rattle.layout_contexts.specs.Following.{may_follow};
ghost use Rattle.layout_contexts.specs.Rules.{BeginWithin, chains_of, is_tested_by_next, is_tried_at};

use crate::chain::ChainRule;
use buffer_glyphs::info::hb_glyph_info_t;
use layout_common::coverage::Coverage;
use layout_match::{MatchSequence, NextGlyphs, match_coverage};
use layout_tables::context::{ClassRules, ContextSubtable, SequenceRule};
use layout_tables::item_rule::ItemRule;

/// A rule by glyphs (format 1).
pub fn glyph_rule(rule: &ItemRule) -> ChainRule<'_>
    ensures { chain_of result ≡ glyph_chain rule.now }
{
    let sequences = rule.sequences();
    ChainRule {
        backtrack: MatchSequence::Glyphs(sequences.backtrack),
        input: MatchSequence::Glyphs(sequences.input),
        lookahead: MatchSequence::Glyphs(sequences.lookahead),
        records: sequences.records,
    }
}

/// A rule by classes (format 2).
pub fn class_rule<'a>(rules: &'a ClassRules, rule: &'a ItemRule) -> ChainRule<'a>
    ensures { chain_of result ≡ class_chain rules.now rule.now }
{
    let sequences = rule.sequences();
    ChainRule {
        backtrack: MatchSequence::Classes(&rules.backtrack, sequences.backtrack),
        input: MatchSequence::Classes(&rules.input, sequences.input),
        lookahead: MatchSequence::Classes(&rules.lookahead, sequences.lookahead),
        records: sequences.records,
    }
}

/// A rule by sets of glyphs (format 3).
pub fn coverage_rule(rule: &SequenceRule<Coverage>) -> ChainRule<'_>
    ensures { chain_of result ≡ coverage_chain rule.now }
{
    ChainRule {
        backtrack: MatchSequence::Coverages(rule.backtrack.as_slice()),
        input: MatchSequence::Coverages(rule.input.as_slice()),
        lookahead: MatchSequence::Coverages(rule.lookahead.as_slice()),
        records: rule.records.as_slice(),
    }
}

/// How many rules a subtable has.
fn rule_count(subtable: &ContextSubtable) -> usize
    ensures { result ≡ length (chains_of subtable.now) }
{
    match subtable {
        ContextSubtable::Glyphs(rules) => rules.as_slice().len(),
        ContextSubtable::Classes(rules) => rules.rules.as_slice().len(),
        ContextSubtable::Coverage(rules) => rules.as_slice().len(),
    }
}

/// The rule at an index among those of a subtable, in the order in which they are tried.
pub fn rule_at(subtable: &ContextSubtable, i: usize) -> ChainRule<'_>
    requires { i < length (chains_of subtable.now) }
    ensures { slice_get (chains_of subtable.now) i ≡ Some (chain_of result) }
{
    match subtable {
        ContextSubtable::Glyphs(rules) => glyph_rule(&rules.as_slice()[i]),
        ContextSubtable::Classes(rules) => class_rule(rules, &rules.rules.as_slice()[i]),
        ContextSubtable::Coverage(rules) => coverage_rule(&rules.as_slice()[i]),
    }
}

/// Whether a rule by glyphs, which begins with the glyph at the cursor, may match by the one after it: by the second item
/// of its input, or where that has one item, by the first of its lookahead sequence.
#[tactic(auto, using(crate::proofs::Followed::second_input, crate::proofs::Followed::first_lookahead, crate::proofs::Followed::alone))]
fn glyphs_may_follow(rule: &ItemRule, next: &NextGlyphs) -> bool
    ensures { result ≡ may_follow next.now (glyph_chain rule.now) }
{
    let input = MatchSequence::Glyphs(rule.input());
    if input.len() > 1 {
        return next.input.may_fit(&input, 1);
    }
    let lookahead = MatchSequence::Glyphs(rule.lookahead());
    if lookahead.len() > 0 {
        return next.lookahead.may_fit(&lookahead, 0);
    }
    true
}

/// Whether a rule by classes may match by the glyph after the cursor, as one by glyphs.
#[tactic(auto, using(crate::proofs::Followed::second_input, crate::proofs::Followed::first_lookahead, crate::proofs::Followed::alone))]
fn classes_may_follow(rules: &ClassRules, rule: &ItemRule, next: &NextGlyphs) -> bool
    ensures { result ≡ may_follow next.now (class_chain rules.now rule.now) }
{
    let input = MatchSequence::Classes(&rules.input, rule.input());
    if input.len() > 1 {
        return next.input.may_fit(&input, 1);
    }
    let lookahead = MatchSequence::Classes(&rules.lookahead, rule.lookahead());
    if lookahead.len() > 0 {
        return next.lookahead.may_fit(&lookahead, 0);
    }
    true
}

/// Whether the rule at an index among those of a subtable, which begins with the glyph at the cursor, may match by the
/// one after it: false only where it can't. Of the rule it takes only the sequence with the item that it tests: most rules
/// are passed over by it. A rule by coverages isn't tested, and answered by true.
pub fn may_follow_at(subtable: &ContextSubtable, i: usize, next: &NextGlyphs) -> bool
    requires { i < length (chains_of subtable.now) }
    ensures excluded { result ≡ false → slice_get (map (may_follow next.now) (chains_of subtable.now)) i ≡ Some false }
    ensures tested { is_tested_by_next subtable.now ≡ true
        → slice_get (map (may_follow next.now) (chains_of subtable.now)) i ≡ Some result }
{
    match subtable {
        ContextSubtable::Glyphs(rules) => glyphs_may_follow(&rules.as_slice()[i], next),
        ContextSubtable::Classes(rules) => {
            classes_may_follow(rules, &rules.rules.as_slice()[i], next)
        }
        // A subtable of format 3 has one rule, for which the next glyph isn't looked for.
        ContextSubtable::Coverage(_) => true,
    }
}

/// Whether the rules of a subtable are tried at a glyph: those by classes only where it is covered.
pub fn is_tried_at(subtable: &ContextSubtable, info: &hb_glyph_info_t) -> bool
    ensures { result ≡ is_tried_at subtable.now (item_of info.now) }
{
    match subtable {
        ContextSubtable::Classes(rules) => match_coverage(info, &rules.first),
        ContextSubtable::Glyphs(_) | ContextSubtable::Coverage(_) => true,
    }
}

/// The index from which on, and that before which, all rules of a subtable stand that begin with a glyph, or with its
/// class.
#[tactic(auto, using(crate::proofs::Beginning::all_begin, crate::proofs::Beginning::glyphs_begin, crate::proofs::Beginning::classes_begin))]
pub fn rules_at(subtable: &ContextSubtable, info: &hb_glyph_info_t) -> (usize, usize)
    ensures { BeginWithin (item_of info.now) (chains_of subtable.now) result.0 result.1 }
{
    if info.glyph_id > 65535 {
        return (0, rule_count(subtable));
    }
    let glyph = info.glyph_id as u16;
    match subtable {
        ContextSubtable::Glyphs(rules) => rules.beginning_with(glyph),
        ContextSubtable::Classes(rules) => {
            rules.rules.beginning_with(rules.input.class_of(glyph))
        }
        ContextSubtable::Coverage(rules) => (0, rules.len()),
    }
}
