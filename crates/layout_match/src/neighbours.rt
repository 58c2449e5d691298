//! The glyphs beside the cursor, by which an index leaves out subtables that can't act there.
ghost use Rattle.std.specs.Prelude.{◌≡◌, ◌<◌, true, length, reverse};
ghost use Rattle.std.specs.Option.{option_copied};
ghost use Rattle.buffer_glyphs.specs.Items.{item_of, strip};
ghost use Rattle.buffer_core.specs.Sides.{flag_requests_of};
ghost use Rattle.layout_common.specs.declared.neighbours.Neighbour.TheVariants.{Unknown};
ghost use Rattle.layout_match.specs.Applied.{apply_context_of, context_search, own_search};
ghost use Rattle.layout_match.specs.Next.{IsAdmitted, IsBeside, IsKnown};

use crate::apply_context::hb_ot_apply_context_t;
use crate::matching::behind;
use crate::next_glyph::{first_admitted, flags_failures};
use crate::search::is_left_out;
use buffer_core::buffer::hb_buffer_t;
use buffer_glyphs::info::hb_glyph_info_t;
use buffer_glyphs::property_words::_hb_glyph_info_is_default_ignorable;
use layout_common::neighbours::Neighbour;
use layout_face::Face;

/// The nearest glyph before the cursor that a lookup flag admits.
#[tactic(auto, using(crate::proofs::Next::goes_on, crate::proofs::Next::goes_past, crate::proofs::Next::admitted_there, crate::proofs::Beside::none_admitted_behind))]
fn last_admitted<'a>(
    face: &Face,
    lookup_props: u32,
    buffer: &'a hb_buffer_t,
) -> Option<&'a hb_glyph_info_t>
    ensures { IsAdmitted (option_copied result) lookup_props face.now.gdef.sets 0 (strip (reverse buffer.now.behind)) }
{
    for at in 0..buffer.out_len() {
        let info = behind(buffer, at);
        if !is_left_out(face, lookup_props, info) {
            return Some(info);
        }
    }
    None
}

/// What is known of a glyph: no search skips a visible one that its lookup's flag admits.
fn neighbour_of(info: &hb_glyph_info_t) -> Neighbour
    ensures { IsKnown result (item_of info.now) }
{
    if _hb_glyph_info_is_default_ignorable(info) {
        return Neighbour::Unknown;
    }
    if info.glyph_id > 65535 {
        return Neighbour::Unknown;
    }
    Neighbour::Glyph(info.glyph_id as u16)
}

/// What is known of the glyph before the cursor that a search for a backtrack sequence finds first. Where failed matches
/// are flagged, nothing is known.
#[tactic(auto, using(crate::proofs::Beside::nothing_known, crate::proofs::Beside::known_behind, crate::proofs::Beside::missing_behind))]
pub fn neighbour_before(ctx: &hb_ot_apply_context_t, buffer: &hb_buffer_t) -> Neighbour
    requires { 0 < length buffer.now.ahead }
    ensures context { IsBeside result (context_search (apply_context_of ctx.now) (strip buffer.now.ahead)) 0
        (reverse (strip buffer.now.behind)) }
    ensures unflagged { (flag_requests_of buffer.now).concat ≡ true → result ≡ Unknown }
{
    if flags_failures(buffer) {
        return Neighbour::Unknown;
    }
    match last_admitted(ctx.face, ctx.lookup_props, buffer) {
        Some(info) => neighbour_of(info),
        None => Neighbour::Missing,
    }
}

/// What is known of the glyph after the cursor that searches for the rest of an input and for a lookahead sequence find
/// first. Where failed matches are flagged, nothing is known.
#[tactic(auto, using(crate::proofs::Beside::nothing_known, crate::proofs::Beside::known_there, crate::proofs::Beside::missing_there))]
pub fn neighbour_after(ctx: &hb_ot_apply_context_t, buffer: &hb_buffer_t) -> Neighbour
    requires { 0 < length buffer.now.ahead }
    ensures input { IsBeside result (own_search (apply_context_of ctx.now) (strip buffer.now.ahead)) 1
        (strip buffer.now.ahead) }
    ensures lookahead { IsBeside result (context_search (apply_context_of ctx.now) (strip buffer.now.ahead)) 1
        (strip buffer.now.ahead) }
    ensures unflagged { (flag_requests_of buffer.now).concat ≡ true → result ≡ Unknown }
{
    if flags_failures(buffer) {
        return Neighbour::Unknown;
    }
    match first_admitted(ctx.face, ctx.lookup_props, buffer) {
        Some(info) => neighbour_of(info),
        None => Neighbour::Missing,
    }
}
