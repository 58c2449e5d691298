//! The glyphs before the cursor that marks may be attached to.
ghost use Rattle.std.specs.Prelude.{◌≡◌, ◌<◌, ◌≤◌, ◌+◌, IfErr, IfOk, Some, drop, length, reverse, slice_get};
ghost use Rattle.buffer_glyphs.specs.Items.{item_of, strip};
ghost use Rattle.buffer_glyphs.specs.Parts.{first_of};
ghost use Rattle.layout_match.specs.Applied.{apply_context_of};
ghost use Rattle.buffer_stages.specs.Buffers.{cut_of};
ghost use Rattle.layout_gpos.specs.Marks.{among_marks, is_later_component, is_match, item_before, without_marks};

use buffer_core::buffer::hb_buffer_t;
use buffer_glyphs::info::hb_glyph_info_t;
use buffer_glyphs::ligature_words::{
    _hb_glyph_info_get_lig_comp, _hb_glyph_info_get_lig_id, _hb_glyph_info_is_mark,
    _hb_glyph_info_multiplied,
};
use layout_common::flags::{IGNORE_FLAGS, IGNORE_MARKS};
use layout_match::{hb_ot_apply_context_t, match_t, skipping_iterator_t};

/// The parameters of applying one lookup, with glyphs of class MARK skipped instead of its flag.
pub fn without_marks<'a>(ctx: &hb_ot_apply_context_t<'a>) -> hb_ot_apply_context_t<'a>
    ensures applied { apply_context_of result ≡ without_marks (apply_context_of ctx.now) }
    ensures state { result.random_state ≡ ctx.now.random_state }
{
    let mut other = *ctx;
    other.lookup_props = u32::from(IGNORE_MARKS);
    other
}

/// The parameters of applying one lookup, with no class skipped.
pub fn among_marks<'a>(ctx: &hb_ot_apply_context_t<'a>) -> hb_ot_apply_context_t<'a>
    ensures applied { apply_context_of result ≡ among_marks (apply_context_of ctx.now) }
    ensures state { result.random_state ≡ ctx.now.random_state }
{
    let mut other = *ctx;
    other.lookup_props -= other.lookup_props & u32::from(IGNORE_FLAGS);
    other
}

/// The glyph before the cursor at an index, the nearest being 0.
pub fn glyph_before(buffer: &hb_buffer_t, back: usize) -> &hb_glyph_info_t
    requires { back < length buffer.now.behind }
    ensures { slice_get (reverse buffer.now.behind) back ≡ Some result.now }
{
    let index = buffer.out_len() - 1 - back;
    &buffer.out_info()[index]
}

/// The nearest glyph before the cursor that the lookup takes; else how far the search read, one that it neither takes nor
/// passes over included.
#[tactic(auto, using(crate::proofs::Lemmas::Read::read_back))]
pub fn item_before(ctx: &hb_ot_apply_context_t, buffer: &hb_buffer_t) -> Result<usize, usize>
    requires { 0 < length buffer.now.ahead }
    ensures found { result ≡ item_before (apply_context_of ctx.now) (cut_of buffer.now) }
    ensures inside { IfOk result (λ at. at < length buffer.now.behind) }
    ensures read { IfErr result (λ end. end ≤ length buffer.now.behind) }
{
    let mut iter = skipping_iterator_t::new(ctx, buffer, 0, false);
    iter.prev(buffer)
}

/// Whether a glyph is the component of a multiple substitution after the one that the glyph before it is.
fn is_next_component(info: &hb_glyph_info_t, before: &hb_glyph_info_t) -> bool
    ensures { result ≡ is_later_component (Some (item_of before.now)) (item_of info.now) }
{
    let component = _hb_glyph_info_get_lig_comp(info);
    _hb_glyph_info_multiplied(info)
        && _hb_glyph_info_multiplied(before)
        && !_hb_glyph_info_is_mark(before)
        && _hb_glyph_info_get_lig_id(info) == _hb_glyph_info_get_lig_id(before)
        && component > 0
        && _hb_glyph_info_get_lig_comp(before) == component - 1
}

/// Whether a glyph is a later component of a multiple substitution, where the one directly before it has an index before the
/// cursor; it is none where there is no such glyph.
#[tactic(auto, using(crate::proofs::Lemmas::Taken::none_before))]
pub(crate) fn is_later_component(
    info: &hb_glyph_info_t,
    buffer: &hb_buffer_t,
    before: usize,
) -> bool
    requires { before ≤ length buffer.now.behind }
    ensures { result
        ≡ is_later_component (first_of (drop before (reverse (strip buffer.now.behind)))) (item_of info.now) }
{
    if before == buffer.out_len() {
        return false;
    }
    is_next_component(info, glyph_before(buffer, before))
}

pub(crate) fn is_match(answer: match_t) -> bool
    ensures { result ≡ is_match answer }
{
    match answer {
        match_t::MATCH => true,
        match_t::SKIP | match_t::NOT_MATCH => false,
    }
}
