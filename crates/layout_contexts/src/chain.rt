//! Tries a rule of a context or chained context (rustybuzz: hb/ot_layout_gsubgpos.rs, `apply_context`,
//! `apply_chain_context`).
ghost use Rattle.std.specs.Prelude.{◌≡◌, ◌<◌, ◌≤◌, ◌&&◌, [], None, true, not, drop, length};
ghost use Rattle.buffer_glyphs.specs.Items.{item_of, strip};
ghost use Rattle.buffer_glyphs.specs.PropertyWords.{is_default_ignorable};
ghost use Rattle.layout_match.specs.Applied.{apply_context_of, own_search, own_syllable};
ghost use Rattle.layout_match.specs.Matches.{input_indices};
ghost use Rattle.layout_match.specs.Searches.{is_in_syllable, is_left_out};
ghost use Rattle.layout_match.specs.Sequences.{tests_of};
ghost use Rattle.buffer_stages.specs.Performing.{cut_with};
ghost use Rattle.layout_contexts.specs.Chains.{begins};
ghost use Rattle.layout_contexts.specs.Fitting.{IsInside, IsShort, MatchesOrPasses, Says, chain_of};
ghost use Rattle.layout_contexts.specs.Following.{NeverMatches};

use crate::counts::backtrack_len;
use crate::match_indices::move_indices;
use buffer_core::buffer::hb_buffer_t;
use buffer_glyphs::info::hb_glyph_info_t;
use buffer_glyphs::property_words::_hb_glyph_info_is_default_ignorable;
use buffer_stages::mask::shares_mask;
use layout_match::marking::{mark_attempt, mark_match};
use layout_match::search::is_left_out;
use layout_match::{
    MAX_CONTEXT_LENGTH, MatchPositions, MatchSequence, flags_failures, hb_ot_apply_context_t,
    input_end, match_backtrack, match_input, match_lookahead,
};
use layout_tables::context::SequenceLookupRecord;

/// A rule of a context or a chained context, in any of the formats.
#[derive(Clone, Copy)]
pub struct ChainRule<'a> {
    /// The backtrack sequence, before the input, the nearest first.
    pub backtrack: MatchSequence<'a>,
    /// The input, with its first glyph.
    pub input: MatchSequence<'a>,
    /// The lookahead sequence, after the input.
    pub lookahead: MatchSequence<'a>,
    /// The lookups to apply at indices of the match, in their order.
    pub records: &'a [SequenceLookupRecord],
}

/// The result of matching a rule at the cursor.
enum ChainFit {
    /// Nothing was tried, so that nothing is flagged: the rule's first glyph doesn't match, or it has more glyphs than
    /// `MAX_CONTEXT_LENGTH`.
    NoAttempt,
    /// It doesn't match; `back` glyphs before the cursor and `ahead` from it on were read.
    Fails {
        back: usize,
        ahead: usize,
    },
    /// `back` glyphs before the cursor and `ahead` from it on were matched; the input ends `end` glyphs from it.
    Fits {
        back: usize,
        end: usize,
        ahead: usize,
    },
}

fn behind_first_of<T>(items: &[T]) -> &[T]
    ensures { result.now ≡ drop 1 items.now }
{
    if items.is_empty() {
        return &[];
    }
    &items[1..]
}

/// The sequence after its first glyph.
#[tactic(auto, using(crate::proofs::Fitted::map_behind_first))]
fn behind_first<'a>(sequence: &MatchSequence<'a>) -> MatchSequence<'a>
    ensures { tests_of result ≡ drop 1 (tests_of sequence.now) }
{
    match sequence {
        MatchSequence::Glyphs(glyphs) => MatchSequence::Glyphs(behind_first_of(glyphs)),
        MatchSequence::Classes(classes, values) => {
            MatchSequence::Classes(classes, behind_first_of(values))
        }
        MatchSequence::Coverages(sets) => MatchSequence::Coverages(behind_first_of(sets)),
    }
}

/// Whether the first item of a rule's input matches a glyph.
#[tactic(auto, using(crate::proofs::Fitted::begins_by))]
fn first_matches(rule: &ChainRule, info: &hb_glyph_info_t) -> bool
    ensures { result ≡ begins (chain_of rule.now).input (item_of info.now) }
{
    rule.input.fits(0, info)
}

/// Matches a rule at the cursor.
fn find_chain(ctx: &hb_ot_apply_context_t, rule: &ChainRule, buffer: &hb_buffer_t) -> ChainFit
    requires { 0 < length buffer.now.ahead }
    ensures says { Says result (apply_context_of ctx.now) (chain_of rule.now)
        (input_indices (own_search (apply_context_of ctx.now) (strip buffer.now.ahead)) (drop 1 (tests_of rule.now.input))
        (strip buffer.now.ahead)) (cut_with ctx.now.random_state buffer.now) }
    ensures inside { IsInside result
        (input_indices (own_search (apply_context_of ctx.now) (strip buffer.now.ahead)) (drop 1 (tests_of rule.now.input))
        (strip buffer.now.ahead)) (length buffer.now.behind) (length buffer.now.ahead) }
    ensures short { IsShort result (length (tests_of rule.now.input)) }
{
    if !rule.input.fits(0, buffer.cur(0)) {
        return ChainFit::NoAttempt;
    }
    if rule.input.len() > MAX_CONTEXT_LENGTH {
        return ChainFit::NoAttempt;
    }
    let input = behind_first(&rule.input);
    let end = match input_end(ctx, &input, buffer) {
        Ok(end) => end,
        Err(ahead) => return ChainFit::Fails { back: 0, ahead },
    };
    let ahead = match match_lookahead(ctx, &rule.lookahead, end, buffer) {
        Ok(ahead) => ahead,
        Err(ahead) => return ChainFit::Fails { back: 0, ahead },
    };
    match match_backtrack(ctx, &rule.backtrack, buffer) {
        Ok(back) => ChainFit::Fits { back, end, ahead },
        Err(back) => ChainFit::Fails { back, ahead: 1 },
    }
}

/// Whether a glyph beside the cursor ends each search that it doesn't match: none skips it.
fn ends_searches(ctx: &hb_ot_apply_context_t, info: &hb_glyph_info_t) -> bool
    ensures { result ≡ (not (is_default_ignorable (item_of info.now))
        && not (is_left_out ctx.now.lookup_props ctx.now.face.now.gdef.sets (item_of info.now))) }
{
    !_hb_glyph_info_is_default_ignorable(info) && !is_left_out(ctx.face, ctx.lookup_props, info)
}

/// Whether a glyph is of the syllable of the one at the cursor, or a match may leave that.
fn is_in_own_syllable(
    ctx: &hb_ot_apply_context_t,
    info: &hb_glyph_info_t,
    buffer: &hb_buffer_t,
) -> bool
    requires { 0 < length buffer.now.ahead }
    ensures { result ≡ is_in_syllable (own_syllable (apply_context_of ctx.now) (strip buffer.now.ahead)) (item_of info.now) }
{
    !ctx.per_syllable || info.syllable == buffer.cur(0).syllable
}

/// Whether a rule fails by the glyph before the cursor: it ends the search for the first item of the backtrack sequence,
/// and isn't that item.
fn is_excluded_behind(ctx: &hb_ot_apply_context_t, rule: &ChainRule, buffer: &hb_buffer_t) -> bool
    requires { 0 < length buffer.now.ahead }
    ensures { result ≡ true → NeverMatches (apply_context_of ctx.now) (chain_of rule.now)
        (cut_with ctx.now.random_state buffer.now) }
{
    if rule.backtrack.len() == 0 {
        return false;
    }
    if buffer.out_len() == 0 {
        return true;
    }
    let info = buffer.prev();
    if !ends_searches(ctx, info) {
        return false;
    }
    if !is_in_own_syllable(ctx, info, buffer) {
        return true;
    }
    !rule.backtrack.fits(0, info)
}

/// Whether a rule fails by the glyph after the one at the cursor: it ends the search for the second item of the input, or
/// where that has one item, for the first of the lookahead sequence, and isn't that item.
fn is_excluded_ahead(ctx: &hb_ot_apply_context_t, rule: &ChainRule, buffer: &hb_buffer_t) -> bool
    requires { 0 < length buffer.now.ahead }
    ensures { result ≡ true → NeverMatches (apply_context_of ctx.now) (chain_of rule.now)
        (cut_with ctx.now.random_state buffer.now) }
{
    let inputs = rule.input.len();
    if inputs <= 1 && rule.lookahead.len() == 0 {
        return false;
    }
    if buffer.lookahead_len() < 2 {
        return true;
    }
    let info = buffer.cur(1);
    if !ends_searches(ctx, info) {
        return false;
    }
    if !is_in_own_syllable(ctx, info, buffer) {
        return true;
    }
    if inputs <= 1 {
        return !rule.lookahead.fits(0, info);
    }
    if !shares_mask(ctx.lookup_mask(), info) {
        return true;
    }
    !rule.input.fits(1, info)
}

/// Whether a rule is known to pass at the cursor: it fails there, and its failure leaves no flag. Nothing has to be
/// prepared for such a rule, as the list of its indices, which is cleared before it is filled.
pub fn fails_unflagged(ctx: &hb_ot_apply_context_t, rule: &ChainRule, buffer: &hb_buffer_t) -> bool
    requires { 0 < length buffer.now.ahead }
    ensures { result ≡ true → MatchesOrPasses None (apply_context_of ctx.now) (chain_of rule.now) ctx.now.random_state [] buffer.now
        buffer.now }
{
    if !first_matches(rule, buffer.cur(0)) {
        return true;
    }
    if flags_failures(buffer) {
        return false;
    }
    // Most rules fail by a neighbour, which is looked at without a search.
    if is_excluded_behind(ctx, rule, buffer) {
        return true;
    }
    if is_excluded_ahead(ctx, rule, buffer) {
        return true;
    }
    match find_chain(ctx, rule, buffer) {
        ChainFit::NoAttempt => true,
        ChainFit::Fails { back: _, ahead: _ } => true,
        ChainFit::Fits {
            back: _,
            end: _,
            ahead: _,
        } => false,
    }
}

/// Records the distance from the cursor of each glyph of the input of a rule that matches there.
fn record_input(
    ctx: &hb_ot_apply_context_t,
    rule: &ChainRule,
    buffer: &hb_buffer_t,
    indices: &mut MatchPositions,
)
    requires there { 0 < length buffer.now.ahead }
    requires short { length (tests_of rule.now.input) ≤ 64 }
    ensures { indices.new.items ≡ input_indices (own_search (apply_context_of ctx.now) (strip buffer.now.ahead))
        (drop 1 (tests_of rule.now.input)) (strip buffer.now.ahead) }
{
    let input = behind_first(&rule.input);
    // That it matches, and where it ends, is known.
    let _ = match_input(ctx, &input, buffer, indices);
}

/// Tries a rule at the cursor, and flags what it depends on: where it matches, the matched glyphs as unsafe to break,
/// else the glyphs that were read as unsafe to concat, where that is requested. Where it matches, it records the
/// indices of its input among all glyphs, and answers the index at which the input ends.
pub fn match_chain(
    ctx: &hb_ot_apply_context_t,
    rule: &ChainRule,
    buffer: &mut hb_buffer_t,
    indices: &mut MatchPositions,
) -> Option<usize>
    requires { 0 < length buffer.old.ahead }
    ensures { MatchesOrPasses result (apply_context_of ctx.now) (chain_of rule.now) ctx.now.random_state indices.new.items buffer.old
        buffer.new }
{
    let front = backtrack_len(buffer);
    // Both counts are below 2^59, so that an index ahead counted among all glyphs fits its type.
    let _rest = buffer.lookahead_len();
    match find_chain(ctx, rule, buffer) {
        ChainFit::NoAttempt => None,
        ChainFit::Fails { back, ahead } => {
            mark_attempt(back, ahead, buffer);
            None
        }
        ChainFit::Fits { back, end, ahead } => {
            record_input(ctx, rule, buffer, indices);
            mark_match(back, ahead, buffer);
            move_indices(indices, front);
            Some(front + end)
        }
    }
}
