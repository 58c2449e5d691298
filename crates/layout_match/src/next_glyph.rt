//! The next glyph that the search for a rule's items can find, against which rules are held before they are walked
//! (HarfBuzz: hb-ot-layout-gsubgpos.hh, the fast path of `RuleSet::apply` and `ChainRuleSet::apply`).
ghost use Rattle.std.specs.Prelude.{◌≡◌, ◌<◌, true, length, map};
ghost use Rattle.std.specs.Option.{option_copied};
ghost use Rattle.buffer_glyphs.specs.Items.{item_of, strip};
ghost use Rattle.buffer_core.specs.Sides.{flag_requests_of};
ghost use Rattle.layout_match.specs.Applied.{apply_context_of, context_search, own_search, own_syllable};
ghost use Rattle.layout_match.specs.declared.next_glyph.NextGlyph.TheVariants.{Unknown};
ghost use Rattle.layout_match.specs.Next.{Decides, IsAdmitted, IsNext, may_find};
ghost use Rattle.layout_match.specs.Searches.{is_in_syllable, is_left_out, search_of};
ghost use Rattle.layout_match.specs.Sequences.{is_glyph, test_at, tests_of};

use crate::apply_context::hb_ot_apply_context_t;
use crate::search::{GlyphSearch, is_left_out};
use crate::sequence::{MatchSequence, fits_glyph};
use bitflags::Flags;
use buffer_common::constants::BufferFlags;
use buffer_core::buffer::hb_buffer_t;
use buffer_glyphs::info::hb_glyph_info_t;
use buffer_glyphs::property_words::_hb_glyph_info_is_default_ignorable;
use buffer_stages::mask::shares_mask;
use layout_face::Face;

/// What a search finds next, whatever its item's test is. It only saves time: a rule that it excludes would fail.
#[derive(Clone, Copy)]
pub enum NextGlyph {
    /// No glyph: none is left, or the next one lacks the feature bits or the syllable that a match needs.
    Missing,
    /// This glyph, where it passes the test; else none.
    Found(hb_glyph_info_t),
    /// It depends on the test: the next glyph is skipped where it doesn't match. Or failed matches are flagged, and have
    /// to be walked.
    Unknown,
}

impl NextGlyph {
    /// Whether the search may find the k-th glyph of a sequence.
    pub fn may_fit(&self, sequence: &MatchSequence, k: usize) -> bool
        ensures { result ≡ may_find self.now (test_at (tests_of sequence.now) k) }
    {
        match self {
            NextGlyph::Missing => false,
            NextGlyph::Found(info) => sequence.fits(k, info),
            NextGlyph::Unknown => true,
        }
    }

    /// Whether the search may find the first of some glyphs: as `may_fit`, without the choice of a sequence's form.
    pub fn may_begin(&self, glyphs: &[u16]) -> bool
        ensures { result ≡ may_find self.now (test_at (map is_glyph glyphs.now) 0) }
    {
        match self {
            NextGlyph::Missing => false,
            NextGlyph::Found(info) => fits_glyph(info, glyphs, 0),
            NextGlyph::Unknown => true,
        }
    }
}

/// What the searches for a rule's input and for its lookahead find next after the glyph at the cursor.
#[derive(Clone, Copy)]
pub struct NextGlyphs {
    pub input: NextGlyph,
    pub lookahead: NextGlyph,
}

impl<'a> GlyphSearch<'a> {
    /// What the search finds where its next glyph is one that the lookup flag admits.
    #[tactic(auto, using(crate::proofs::Next::decides_unknown, crate::proofs::Next::decides_found, crate::proofs::Next::decides_missing))]
    fn next_at(&self, info: &hb_glyph_info_t) -> NextGlyph
        ensures { Decides result (search_of self.now) (item_of info.now) }
    {
        if self.is_skippable(info) {
            return NextGlyph::Unknown;
        }
        if self.has_mask(info) && self.is_in_syllable(info) {
            return NextGlyph::Found(*info);
        }
        NextGlyph::Missing
    }
}

/// Whether a glyph is of the syllable of the one at the cursor, or a match may leave that.
fn is_in_own_syllable(
    ctx: &hb_ot_apply_context_t,
    info: &hb_glyph_info_t,
    buffer: &hb_buffer_t,
) -> bool
    requires { 0 < length buffer.now.ahead }
    ensures { result ≡ is_in_syllable (own_syllable (apply_context_of ctx.now) (strip buffer.now.ahead)) (item_of info.now) }
{
    !ctx.per_syllable || info.syllable == buffer.cur(0).syllable
}

/// What the search for a rule's input finds where its next glyph is one that the lookup flag admits. A visible glyph is
/// never skipped, so that no search has to be made for it.
#[tactic(auto, using(crate::proofs::Next::input_unseen, crate::proofs::Next::input_visible, crate::proofs::Next::input_elsewhere, crate::proofs::Next::input_unmasked))]
fn input_admitted(
    ctx: &hb_ot_apply_context_t,
    info: &hb_glyph_info_t,
    buffer: &hb_buffer_t,
) -> NextGlyph
    requires { 0 < length buffer.now.ahead }
    ensures { Decides result (own_search (apply_context_of ctx.now) (strip buffer.now.ahead)) (item_of info.now) }
{
    if _hb_glyph_info_is_default_ignorable(info) {
        return ctx.own_search(buffer).next_at(info);
    }
    if !is_in_own_syllable(ctx, info, buffer) {
        return NextGlyph::Missing;
    }
    if !shares_mask(ctx.lookup_mask(), info) {
        return NextGlyph::Missing;
    }
    NextGlyph::Found(*info)
}

/// What the searches for a rule's input and for its lookahead find where the next glyph is one that the lookup flag
/// admits. A visible glyph is never skipped, so that no search has to be made for it.
#[tactic(auto, using(crate::proofs::Next::input_unseen, crate::proofs::Next::input_visible, crate::proofs::Next::input_elsewhere, crate::proofs::Next::input_unmasked, crate::proofs::Next::lookahead_unseen, crate::proofs::Next::lookahead_visible, crate::proofs::Next::lookahead_elsewhere))]
fn next_admitted(
    ctx: &hb_ot_apply_context_t,
    info: &hb_glyph_info_t,
    buffer: &hb_buffer_t,
) -> NextGlyphs
    requires { 0 < length buffer.now.ahead }
    ensures input { Decides result.input (own_search (apply_context_of ctx.now) (strip buffer.now.ahead)) (item_of
        info.now) }
    ensures lookahead { Decides result.lookahead (context_search (apply_context_of ctx.now) (strip buffer.now.ahead))
        (item_of info.now) }
{
    if _hb_glyph_info_is_default_ignorable(info) {
        return NextGlyphs {
            input: ctx.own_search(buffer).next_at(info),
            lookahead: ctx.context_search(buffer).next_at(info),
        };
    }
    if !is_in_own_syllable(ctx, info, buffer) {
        return NextGlyphs {
            input: NextGlyph::Missing,
            lookahead: NextGlyph::Missing,
        };
    }
    if !shares_mask(ctx.lookup_mask(), info) {
        return NextGlyphs {
            input: NextGlyph::Missing,
            lookahead: NextGlyph::Found(*info),
        };
    }
    NextGlyphs {
        input: NextGlyph::Found(*info),
        lookahead: NextGlyph::Found(*info),
    }
}

/// The first glyph after the one at the cursor that a lookup flag admits.
#[tactic(auto, using(crate::proofs::Next::goes_on, crate::proofs::Next::goes_past, crate::proofs::Next::admitted_there, crate::proofs::Next::none_admitted))]
pub(crate) fn first_admitted<'a>(
    face: &Face,
    lookup_props: u32,
    buffer: &'a hb_buffer_t,
) -> Option<&'a hb_glyph_info_t>
    requires { 0 < length buffer.now.ahead }
    ensures { IsAdmitted (option_copied result) lookup_props face.now.gdef.sets 1 (strip buffer.now.ahead) }
{
    for at in 1..buffer.lookahead_len() {
        let info = buffer.cur(at);
        if !is_left_out(face, lookup_props, info) {
            return Some(info);
        }
    }
    None
}

/// Whether failed matches are flagged as unsafe to concat.
pub fn flags_failures(buffer: &hb_buffer_t) -> bool
    ensures { result ≡ (flag_requests_of buffer.now).concat }
{
    buffer
        .flags()
        .contains(BufferFlags::PRODUCE_UNSAFE_TO_CONCAT)
}

/// What the searches for a rule's input and for its lookahead find next after the glyph at the cursor. Where failed
/// matches are flagged, nothing is known.
#[tactic(auto, using(crate::proofs::Next::nothing_told, crate::proofs::Next::found_told, crate::proofs::Next::missing_told))]
pub fn next_glyphs(ctx: &hb_ot_apply_context_t, buffer: &hb_buffer_t) -> NextGlyphs
    requires { 0 < length buffer.now.ahead }
    ensures input { IsNext result.input (own_search (apply_context_of ctx.now) (strip buffer.now.ahead)) 1
        (strip buffer.now.ahead) }
    ensures lookahead { IsNext result.lookahead (context_search (apply_context_of ctx.now) (strip buffer.now.ahead)) 1
        (strip buffer.now.ahead) }
    ensures unflagged { (flag_requests_of buffer.now).concat ≡ true
        → (result.input ≡ Unknown) × (result.lookahead ≡ Unknown) }
{
    if flags_failures(buffer) {
        return NextGlyphs {
            input: NextGlyph::Unknown,
            lookahead: NextGlyph::Unknown,
        };
    }
    match first_admitted(ctx.face, ctx.lookup_props, buffer) {
        Some(info) => next_admitted(ctx, info, buffer),
        None => NextGlyphs {
            input: NextGlyph::Missing,
            lookahead: NextGlyph::Missing,
        },
    }
}

/// What the searches for the items of `count` rules find next after the glyph at the cursor. For one rule alone it isn't
/// looked for: to walk the rule makes the same search.
#[tactic(auto, using(crate::proofs::Next::nothing_told))]
pub fn next_for_rules(ctx: &hb_ot_apply_context_t, count: usize, buffer: &hb_buffer_t) -> NextGlyphs
    requires { 0 < length buffer.now.ahead }
    ensures input { IsNext result.input (own_search (apply_context_of ctx.now) (strip buffer.now.ahead)) 1
        (strip buffer.now.ahead) }
    ensures lookahead { IsNext result.lookahead (context_search (apply_context_of ctx.now) (strip buffer.now.ahead)) 1
        (strip buffer.now.ahead) }
    ensures unflagged { (flag_requests_of buffer.now).concat ≡ true
        → (result.input ≡ Unknown) × (result.lookahead ≡ Unknown) }
{
    if count <= 1 {
        return NextGlyphs {
            input: NextGlyph::Unknown,
            lookahead: NextGlyph::Unknown,
        };
    }
    next_glyphs(ctx, buffer)
}

/// What the search for a rule's input finds next after the glyph at the cursor. Where failed matches are flagged, nothing
/// is known.
#[tactic(auto, using(crate::proofs::Next::nothing_told, crate::proofs::Next::found_told, crate::proofs::Next::missing_told))]
pub fn next_input(ctx: &hb_ot_apply_context_t, buffer: &hb_buffer_t) -> NextGlyph
    requires { 0 < length buffer.now.ahead }
    ensures input { IsNext result (own_search (apply_context_of ctx.now) (strip buffer.now.ahead)) 1
        (strip buffer.now.ahead) }
    ensures unflagged { (flag_requests_of buffer.now).concat ≡ true → result ≡ Unknown }
{
    if flags_failures(buffer) {
        return NextGlyph::Unknown;
    }
    match first_admitted(ctx.face, ctx.lookup_props, buffer) {
        Some(info) => input_admitted(ctx, info, buffer),
        None => NextGlyph::Missing,
    }
}
