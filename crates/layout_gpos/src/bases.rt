//! The search for a base or a ligature, which remembers the last one.
ghost use Rattle.std.specs.Prelude.{ℕ, ◌≡◌, ◌<◌, ◌≤◌, ◌+◌, ◌^◌, Bool, IfErr, IfOk, List, Option, drop, length, reverse};
ghost use Rattle.buffer_core.specs.Sides.{items_of};
ghost use Rattle.buffer_glyphs.specs.Items.{Item, strip};
ghost use Rattle.layout_match.specs.Applied.{ApplyContext, apply_context_of, own_search};
ghost use Rattle.layout_match.specs.Searches.{search_of};
ghost use Rattle.buffer_stages.specs.Buffers.{cut_of};
ghost use Rattle.layout_gpos.specs.Bases.{AreKept, IsKept, any_sought, search_result_from, takes, takes_first};
ghost use Rattle.layout_gpos.specs.Marks.{nearest_before, without_marks};

use crate::search::{glyph_before, is_later_component, is_match, without_marks};
use buffer_core::buffer::hb_buffer_t;
use layout_match::hb_ot_apply_context_t;
use layout_match::search::GlyphSearch;

/// The glyph that a mark is to be attached to.
#[derive(Clone, Copy)]
pub enum Sought {
    /// A glyph that is neither of GDEF class MARK nor a later component of a multiple substitution.
    Base,
    /// A glyph that is not of GDEF class MARK.
    Ligature,
}

impl Sought {
    /// Whether the search takes the glyph with an index before the cursor, the nearest being 0.
    #[tactic(auto, using(crate::proofs::Lemmas::Taken::first_there))]
    fn takes(self, search: &GlyphSearch, buffer: &hb_buffer_t, back: usize) -> bool
        requires { back < length buffer.now.behind }
        ensures { result ≡ takes_first (takes self (search_of search.now)) (drop back (reverse (strip buffer.now.behind))) }
    {
        // The number of glyphs bounds the index of the one before.
        let _end = buffer.out_len();
        let info = glyph_before(buffer, back);
        let fits = is_match(search.match_(None, 0, info));
        match self {
            Sought::Base => fits && !is_later_component(info, buffer, back + 1),
            Sought::Ligature => fits,
        }
    }
}

/// The result of a search, kept for the next one of the same lookup on the same glyphs. It only saves time: it is what
/// the search would find again, since positioning changes no glyph.
#[derive(Clone, Copy)]
pub struct LastSearch {
    /// How many glyphs were before the glyph that searched.
    before: usize,
    /// How far back it found what it sought, the nearest glyph being 0; else how many glyphs it read.
    found: Result<usize, usize>,
}

impl LastSearch {
    /// The search before the first glyph, which found none.
    #[tactic(auto, using(crate::proofs::Kept::kept_first))]
    pub fn new() -> LastSearch
        ensures { (test : Item → Option Item → Bool) (xs : List Item) → IsKept test xs result }
    {
        LastSearch {
            before: 0,
            found: Err(0),
        }
    }
}

/// The last searches of a lookup for bases and for ligatures, those of lookups nested in it included.
#[derive(Clone, Copy)]
pub struct LastSearches {
    /// For a base.
    pub base: LastSearch,
    /// For a ligature.
    pub ligature: LastSearch,
}

impl LastSearches {
    /// The searches before the first glyph, which found none.
    pub fn new() -> LastSearches
        ensures { (a : ApplyContext) (xs : List Item) → AreKept a xs result }
    {
        LastSearches {
            base: LastSearch::new(),
            ligature: LastSearch::new(),
        }
    }
}

/// A result as it is counted from a glyph that is `by` glyphs farther on.
fn farther(found: Result<usize, usize>, by: usize) -> Result<usize, usize>
    requires inside { IfOk found (λ at. at + by < 2 ^ 64) }
    requires read { IfErr found (λ end. end + by < 2 ^ 64) }
    ensures { result ≡ search_result_from by found }
{
    match found {
        Ok(at) => Ok(at + by),
        Err(end) => Err(end + by),
    }
}

/// What is sought before the cursor: the glyphs behind the last search are looked at, and what that one found is not sought
/// again.
#[tactic(auto, using(crate::proofs::Lemmas::Taken::taken_there, crate::proofs::Lemmas::Taken::passed_there))]
fn found_since(
    sought: Sought,
    ctx: &hb_ot_apply_context_t,
    last: LastSearch,
    buffer: &hb_buffer_t,
) -> Result<usize, usize>
    requires there { 0 < length buffer.now.ahead }
    requires since { last.before ≤ length buffer.now.behind }
    requires kept { IsKept (takes sought (own_search (without_marks (apply_context_of ctx.now)) (strip buffer.now.ahead)))
        (items_of buffer.now) last }
    ensures found { result ≡ nearest_before (takes sought) (apply_context_of ctx.now) (cut_of buffer.now) }
    ensures inside { IfOk result (λ at. at < length buffer.now.behind) }
    ensures read { IfErr result (λ end. end ≤ length buffer.now.behind) }
{
    let search = without_marks(ctx).own_search(buffer);
    let more = buffer.out_len() - last.before;
    for at in 0..more {
        if sought.takes(&search, buffer, at) {
            return Ok(at);
        }
    }
    farther(last.found, more)
}

/// The nearest glyph before the cursor that a mark may be attached to; else how many glyphs there are. It continues from the
/// last search, but where the lookup is kept to syllables.
#[tactic(auto, using(crate::proofs::Kept::kept_there, crate::proofs::Kept::kept_now))]
pub fn found_before(
    sought: Sought,
    ctx: &hb_ot_apply_context_t,
    last: &mut LastSearch,
    buffer: &hb_buffer_t,
) -> Result<usize, usize>
    requires there { 0 < length buffer.now.ahead }
    requires kept { IsKept (any_sought sought (apply_context_of ctx.now)) (items_of buffer.now) last.old }
    ensures found { result ≡ nearest_before (takes sought) (apply_context_of ctx.now) (cut_of buffer.now) }
    ensures inside { IfOk result (λ at. at < length buffer.now.behind) }
    ensures read { IfErr result (λ end. end ≤ length buffer.now.behind) }
    ensures kept { IsKept (any_sought sought (apply_context_of ctx.now)) (items_of buffer.now) last.new }
{
    let before = buffer.out_len();
    if ctx.per_syllable || before < last.before {
        return found_since(sought, ctx, LastSearch::new(), buffer);
    }
    let found = found_since(sought, ctx, *last, buffer);
    *last = LastSearch { before, found };
    found
}
