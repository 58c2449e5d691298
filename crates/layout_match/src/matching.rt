//! Matches of input, backtrack and lookahead sequences (rustybuzz: hb/ot_layout_gsubgpos.rs, `match_input`,
//! `match_backtrack`, `match_lookahead`).
//!
//! The calls have clauses of one form, by two searches and for the two sides of the cursor.
ghost use Rattle.std.specs.Prelude.{◌≡◌, ◌<◌, ◌≤◌, ◌∷◌, [], Some, length, reverse, slice_get, IfOk, IfErr};
ghost use Rattle.std.specs.List.{All};
ghost use Rattle.buffer_glyphs.specs.Items.{strip};
ghost use Rattle.layout_match.specs.Applied.{apply_context_of, context_search, own_search};
ghost use Rattle.layout_match.specs.Searches.{answer, search_of, test_of};
ghost use Rattle.layout_match.specs.Sequences.{tests_of};
ghost use Rattle.layout_match.specs.Matches.{answers_of, backtrack_end, input_end, indices, input_indices, lookahead_end, nearest_from, sequence_end};

use crate::apply_context::hb_ot_apply_context_t;
use crate::search::{GlyphSearch, match_t};
use crate::sequence::MatchSequence;
use arrayvec::ArrayVec;
use buffer_core::buffer::hb_buffer_t;
use buffer_glyphs::info::hb_glyph_info_t;

/// How many glyphs a rule's input may have, its first glyph included.
pub const MAX_CONTEXT_LENGTH: usize = 64;

/// The indices of a match, counted from the cursor.
pub type MatchPositions = ArrayVec<usize, MAX_CONTEXT_LENGTH>;

#[tactic(auto, using(crate::proofs::Lemmas::Nearest::taken_there, crate::proofs::Lemmas::Nearest::refused_there, crate::proofs::Lemmas::Nearest::passed_there, crate::proofs::Lemmas::Nearest::ended_there))]
/// The nearest glyph from an index ahead on that is the k-th of a sequence.
pub(crate) fn nearest_ahead<'a>(
    search: &GlyphSearch<'a>,
    sequence: Option<MatchSequence<'a>>,
    k: usize,
    from: usize,
    buffer: &hb_buffer_t,
) -> Result<usize, usize>
    requires { from ≤ length buffer.now.ahead }
    ensures found { result
        ≡ nearest_from (answer (search_of search.now) (test_of (search_of search.now) sequence.entry k)) from
        (strip buffer.now.ahead) }
    ensures inside { IfOk result (λ at. at < length buffer.now.ahead) }
    ensures read { IfErr result (λ end. end ≤ length buffer.now.ahead) }
{
    let end = buffer.len() - buffer.idx();
    for at in from..end {
        match search.match_(sequence, k, buffer.cur(at)) {
            match_t::MATCH => return Ok(at),
            match_t::NOT_MATCH => return Err(at + 1),
            match_t::SKIP => {}
        }
    }
    Err(end)
}

/// The glyph behind the cursor with `at` glyphs between.
pub(crate) fn behind(buffer: &hb_buffer_t, at: usize) -> &hb_glyph_info_t
    requires { at < length buffer.now.behind }
    ensures { slice_get (reverse buffer.now.behind) at ≡ Some result.now }
{
    let index = buffer.out_len() - 1 - at;
    &buffer.out_info()[index]
}

#[tactic(auto, using(crate::proofs::Lemmas::Nearest::taken_before, crate::proofs::Lemmas::Nearest::refused_before, crate::proofs::Lemmas::Nearest::passed_before, crate::proofs::Lemmas::Nearest::ended_before))]
/// The nearest glyph behind the cursor from an index back on that is the k-th of a sequence.
pub(crate) fn nearest_behind<'a>(
    search: &GlyphSearch<'a>,
    sequence: Option<MatchSequence<'a>>,
    k: usize,
    from: usize,
    buffer: &hb_buffer_t,
) -> Result<usize, usize>
    requires { from ≤ length buffer.now.behind }
    ensures found { result
        ≡ nearest_from (answer (search_of search.now) (test_of (search_of search.now) sequence.entry k)) from
        (reverse (strip buffer.now.behind)) }
    ensures inside { IfOk result (λ at. at < length buffer.now.behind) }
    ensures read { IfErr result (λ end. end ≤ length buffer.now.behind) }
{
    let end = buffer.out_len();
    for at in from..end {
        match search.match_(sequence, k, behind(buffer, at)) {
            match_t::MATCH => return Ok(at),
            match_t::NOT_MATCH => return Err(at + 1),
            match_t::SKIP => {}
        }
    }
    Err(end)
}

#[tactic(auto, using(crate::proofs::Each::one_reached, crate::proofs::Each::one_failed, crate::proofs::Each::all_reached, crate::proofs::Each::noted_first, crate::proofs::Each::noted_one, crate::proofs::Each::noted_all, crate::proofs::Each::all_indices))]
/// Matches the input of a rule: its first glyph is the one at the cursor, and each further glyph the nearest after the
/// one before it that matches the sequence, with only skipped glyphs between. It answers the index after the last
/// glyph, or how far the failed search read: to after the glyph that ended it, or to the end of the text. The indices
/// found are recorded, also before a failure. An input of more than `MAX_CONTEXT_LENGTH` glyphs is not searched for: it
/// fails, and nothing is read or recorded.
pub fn match_input(
    ctx: &hb_ot_apply_context_t,
    sequence: &MatchSequence,
    buffer: &hb_buffer_t,
    match_positions: &mut MatchPositions,
) -> Result<usize, usize>
    requires { 0 < length buffer.now.ahead }
    ensures end { length (tests_of sequence.now) < 64 → result
        ≡ input_end (own_search (apply_context_of ctx.now) (strip buffer.now.ahead)) (tests_of sequence.now)
        (strip buffer.now.ahead) }
    ensures inside { IfOk result (λ end. end ≤ length buffer.now.ahead) }
    ensures read { IfErr result (λ end. end ≤ length buffer.now.ahead) }
    ensures positions { length (tests_of sequence.now) < 64 → match_positions.new.items
        ≡ input_indices (own_search (apply_context_of ctx.now) (strip buffer.now.ahead)) (tests_of sequence.now)
        (strip buffer.now.ahead) }
    ensures long { 64 ≤ length (tests_of sequence.now) → (result ≡ Err 0) × (match_positions.new.items ≡ []) }
    ensures ahead { All (λ q. q < length buffer.now.ahead) match_positions.new.items }
{
    if sequence.len() >= MAX_CONTEXT_LENGTH {
        match_positions.clear();
        return Err(0);
    }
    let search = ctx.own_search(buffer);
    match_from_first(&search, sequence, buffer, match_positions)
}

#[tactic(auto, using(crate::proofs::Each::one_reached, crate::proofs::Each::one_failed, crate::proofs::Each::all_reached, crate::proofs::Each::noted_first, crate::proofs::Each::noted_one, crate::proofs::Each::noted_all, crate::proofs::Each::all_indices))]
fn match_from_first<'a>(
    search: &GlyphSearch<'a>,
    sequence: &MatchSequence<'a>,
    buffer: &hb_buffer_t,
    match_positions: &mut MatchPositions,
) -> Result<usize, usize>
    requires there { 0 < length buffer.now.ahead }
    requires fits { length (tests_of sequence.now) < 64 }
    ensures end { result ≡ sequence_end (answers_of (search_of search.now) (tests_of sequence.now)) 1 (strip buffer.now.ahead) }
    ensures inside { IfOk result (λ end. end ≤ length buffer.now.ahead) }
    ensures read { IfErr result (λ end. end ≤ length buffer.now.ahead) }
    ensures positions { match_positions.new.items
        ≡ 0 ∷ indices (answers_of (search_of search.now) (tests_of sequence.now)) 1 (strip buffer.now.ahead) }
    ensures ahead { All (λ q. q < length buffer.now.ahead) match_positions.new.items }
{
    // The number of glyphs bounds `at + 1`.
    let _end = buffer.len();
    match_positions.clear();
    match_positions.push(0);
    let mut from = 1;
    for k in 0..sequence.len() {
        match nearest_ahead(search, Some(*sequence), k, from, buffer) {
            Ok(at) => {
                match_positions.push(at);
                from = at + 1;
            }
            Err(end) => return Err(end),
        }
    }
    Ok(from)
}

#[tactic(auto, using(crate::proofs::Each::one_reached, crate::proofs::Each::one_failed, crate::proofs::Each::all_reached))]
fn match_ahead<'a>(
    search: &GlyphSearch<'a>,
    sequence: &MatchSequence<'a>,
    start: usize,
    buffer: &hb_buffer_t,
) -> Result<usize, usize>
    requires { start ≤ length buffer.now.ahead }
    ensures end { result
        ≡ sequence_end (answers_of (search_of search.now) (tests_of sequence.now)) start (strip buffer.now.ahead) }
    ensures inside { IfOk result (λ end. end ≤ length buffer.now.ahead) }
    ensures read { IfErr result (λ end. end ≤ length buffer.now.ahead) }
{
    // The number of glyphs bounds `at + 1`.
    let _end = buffer.len();
    let mut from = start;
    for k in 0..sequence.len() {
        match nearest_ahead(search, Some(*sequence), k, from, buffer) {
            Ok(at) => from = at + 1,
            Err(end) => return Err(end),
        }
    }
    Ok(from)
}

#[tactic(auto, using(crate::proofs::Each::one_reached, crate::proofs::Each::one_failed, crate::proofs::Each::all_reached))]
fn match_behind<'a>(
    search: &GlyphSearch<'a>,
    sequence: &MatchSequence<'a>,
    buffer: &hb_buffer_t,
) -> Result<usize, usize>
    ensures end { result
        ≡ sequence_end (answers_of (search_of search.now) (tests_of sequence.now)) 0 (reverse (strip buffer.now.behind)) }
    ensures inside { IfOk result (λ end. end ≤ length buffer.now.behind) }
    ensures read { IfErr result (λ end. end ≤ length buffer.now.behind) }
{
    // The number of glyphs before the cursor bounds `at + 1`.
    let _end = buffer.out_len();
    let mut from = 0;
    for k in 0..sequence.len() {
        match nearest_behind(search, Some(*sequence), k, from, buffer) {
            Ok(at) => from = at + 1,
            Err(end) => return Err(end),
        }
    }
    Ok(from)
}

/// Where a rule's input ends, or how far the failed search read, as `match_input` answers it; no index is recorded.
pub fn input_end(
    ctx: &hb_ot_apply_context_t,
    sequence: &MatchSequence,
    buffer: &hb_buffer_t,
) -> Result<usize, usize>
    requires { 0 < length buffer.now.ahead }
    ensures end { result
        ≡ input_end (own_search (apply_context_of ctx.now) (strip buffer.now.ahead)) (tests_of sequence.now)
        (strip buffer.now.ahead) }
    ensures inside { IfOk result (λ end. end ≤ length buffer.now.ahead) }
    ensures read { IfErr result (λ end. end ≤ length buffer.now.ahead) }
{
    let search = ctx.own_search(buffer);
    match_ahead(&search, sequence, 1, buffer)
}

/// Matches a rule's lookahead sequence after its input, which ends at the index `start`. It answers the index after the
/// last glyph, or how far the failed search read.
pub fn match_lookahead(
    ctx: &hb_ot_apply_context_t,
    sequence: &MatchSequence,
    start: usize,
    buffer: &hb_buffer_t,
) -> Result<usize, usize>
    requires there { 0 < length buffer.now.ahead }
    requires within { start ≤ length buffer.now.ahead }
    ensures end { result
        ≡ lookahead_end (context_search (apply_context_of ctx.now) (strip buffer.now.ahead)) (tests_of sequence.now) start
        (strip buffer.now.ahead) }
    ensures inside { IfOk result (λ end. end ≤ length buffer.now.ahead) }
    ensures read { IfErr result (λ end. end ≤ length buffer.now.ahead) }
{
    let search = ctx.context_search(buffer);
    match_ahead(&search, sequence, start, buffer)
}

/// Matches a rule's backtrack sequence before the cursor, the nearest first. It answers how many glyphs back the last
/// one is, itself included, or how far back the failed search read.
pub fn match_backtrack(
    ctx: &hb_ot_apply_context_t,
    sequence: &MatchSequence,
    buffer: &hb_buffer_t,
) -> Result<usize, usize>
    requires { 0 < length buffer.now.ahead }
    ensures end { result
        ≡ backtrack_end (context_search (apply_context_of ctx.now) (strip buffer.now.ahead)) (tests_of sequence.now)
        (strip buffer.now.behind) }
    ensures inside { IfOk result (λ end. end ≤ length buffer.now.behind) }
    ensures read { IfErr result (λ end. end ≤ length buffer.now.behind) }
{
    let search = ctx.context_search(buffer);
    match_behind(&search, sequence, buffer)
}
