//! The tests of a cut.
ghost use Rattle.std.specs.Prelude.{◌≡◌, ◌≤◌, ◌-◌, ◌==◌, ◌↔◌, IsTrue, codes, drop, length};
ghost use Rattle.std.specs.List.{list_any};
ghost use Rattle.buffer_core.specs.Sides.{state_of};
ghost use Rattle.layout_map.specs.Masks.{mask_at_one};
ghost use Rattle.script_joining.specs.Joining.{is_mongolian};
ghost use Rattle.shape_laws.specs.Breaks.InLine.{MayBeCutAt};
ghost use Rattle.shape_breaks.specs.Cuts.{arabic_may_be_cut, follows_joiner, hangul_may_be_cut, has_safe_glyph, have_alike, is_inside, is_marked_after, is_marked_before, is_of, is_plain_beginning, is_unsafe_of, line_may_be_cut, marks_may_be_cut, may_be_broken, may_be_cut_by, passes_at, thai_may_be_cut};
ghost use Rattle.shape_breaks.specs.Texts.{is_above, text_marks};

use crate::premises::BreakPremises;
use crate::texts::{Occurrences, TextMarks, is_above, is_mark};
use buffer_common::direction::Direction;
use buffer_common::script::{MONGOLIAN, Script};
use buffer_common::tag::{Tag, TagExt};
use buffer_glyphs::info::hb_glyph_info_t;
use buffer_unicode_tables::UnicodeTables;
use buffer_wrappers::glyphs::GlyphBuffer;
use script_categories::hb_ot_script_shaper_t::{
    ARABIC_SHAPER, HANGUL_SHAPER, HEBREW_SHAPER, MYANMAR_ZAWGYI_SHAPER, THAI_SHAPER,
};
use script_dispatch::hb_ot_any_shaper_t;
use script_plan::plan::hb_ot_shape_plan_t;

/// COMBINING GRAPHEME JOINER.
const GRAPHEME_JOINER: char = '\u{34F}';

/// Whether a text may be broken before the character at an index, under a plan for it: the characters that were pushed
/// are `text`, of which `marks` are found (`TextMarks::of_text`). It takes constant time. Where it answers true, and no
/// glyph of the cluster there is unsafe to break (`is_safe_to_break`), the two pieces show the glyphs of the whole
/// (`law_broken_texts_show_both`, which lists what of the pieces isn't tested). It answers false where the shaper finds
/// syllables.
pub fn may_be_broken(
    premises: BreakPremises,
    plan: &hb_ot_shape_plan_t<hb_ot_any_shaper_t>,
    text: &[char],
    marks: TextMarks,
    at: usize,
) -> bool
    ensures { result
        ≡ may_be_broken premises plan.now.shaper plan.now.script_plan.direction plan.now.script_plan.script
        text.now marks at }
{
    is_inside(text, at)
        && (premises.is_lawful && premises.keeps_marks)
        && may_be_cut_by(plan, premises, text, marks, at)
}

/// Whether what is left of a text from an index on may be broken before the character at another one: the second cut of a
/// line that was cut out of a paragraph. `marks` are those of the text. It walks the piece between the two, so that the
/// lines of a paragraph take a walk over its text in all.
pub fn piece_may_be_broken(
    premises: BreakPremises,
    plan: &hb_ot_shape_plan_t<hb_ot_any_shaper_t>,
    tables: &UnicodeTables,
    text: &[char],
    marks: TextMarks,
    from: usize,
    at: usize,
) -> bool
    requires ordered { from ≤ at }
    requires within { at ≤ length text.now }
    requires marks { marks ≡ text_marks tables.now text.now }
    ensures { result
        ≡ may_be_broken premises plan.now.shaper plan.now.script_plan.direction plan.now.script_plan.script
        (drop from text.now) (text_marks tables.now (drop from text.now)) (at - from) }
{
    let piece = TextMarks::of_text(tables, &text[from..at]);
    may_be_broken(
        premises,
        plan,
        &text[from..],
        marks.piece(from, piece),
        at - from,
    )
}

/// Whether a line of a text, from the character at an index to that at another one, may be cut out of it: the text before
/// the line, and what is left of the text after it. `marks` are those of the text. It walks the line alone.
pub fn line_may_be_cut(
    premises: BreakPremises,
    plan: &hb_ot_shape_plan_t<hb_ot_any_shaper_t>,
    tables: &UnicodeTables,
    text: &[char],
    marks: TextMarks,
    from: usize,
    to: usize,
) -> bool
    requires ordered { from ≤ to }
    requires within { to ≤ length text.now }
    requires marks { marks ≡ text_marks tables.now text.now }
    ensures { result
        ≡ line_may_be_cut premises tables.now plan.now.shaper plan.now.script_plan.direction plan.now.script_plan.script
        text.now from to }
{
    (from == 0 || may_be_broken(premises, plan, text, marks, from))
        && (to == text.len() || piece_may_be_broken(premises, plan, tables, text, marks, from, to))
}

/// Whether the plan has no feature that records tiles, which stretch words (OpenType, feature stch).
pub fn has_no_stretching(plan: &hb_ot_shape_plan_t<hb_ot_any_shaper_t>) -> bool
    ensures { result ≡ (mask_at_one (codes "stch") plan.now.script_plan.map == 0) }
{
    plan.script_plan.map.get_1_mask(Tag::from_bytes(b"stch")) == 0
}

/// Whether a result may be cut before a cluster: it has a glyph of it, and none of these has UNSAFE_TO_BREAK. It walks
/// the glyphs: of many cuts, walk glyphs and cuts side by side.
#[tactic(auto, using(crate::proofs::Flags::safe_decides))]
pub fn is_safe_to_break(glyphs: &GlyphBuffer, cluster: u32) -> bool
    ensures { IsTrue result ↔ MayBeCutAt cluster (state_of glyphs.now) }
{
    has_safe_glyph(glyphs.glyph_infos(), cluster)
}

/// Whether there are glyphs of a cluster, and none of these has UNSAFE_TO_BREAK.
fn has_safe_glyph(infos: &[hb_glyph_info_t], cluster: u32) -> bool
    ensures { result ≡ has_safe_glyph cluster infos.now }
{
    has_glyph_of(infos, cluster) && !has_unsafe_glyph_of(infos, cluster)
}

fn has_glyph_of(infos: &[hb_glyph_info_t], cluster: u32) -> bool
    ensures { result ≡ list_any (is_of cluster) infos.now }
{
    infos.iter().any(|info| is_of(info, cluster))
}

fn has_unsafe_glyph_of(infos: &[hb_glyph_info_t], cluster: u32) -> bool
    ensures { result ≡ list_any (is_unsafe_of cluster) infos.now }
{
    infos.iter().any(|info| is_unsafe_of(info, cluster))
}

fn is_of(info: &hb_glyph_info_t, cluster: u32) -> bool
    ensures { result ≡ is_of cluster info.now }
{
    info.cluster == cluster
}

fn is_unsafe_of(info: &hb_glyph_info_t, cluster: u32) -> bool
    ensures { result ≡ is_unsafe_of cluster info.now }
{
    info.cluster == cluster && info.unsafe_to_break()
}

fn may_be_cut_by(
    plan: &hb_ot_shape_plan_t<hb_ot_any_shaper_t>,
    premises: BreakPremises,
    text: &[char],
    marks: TextMarks,
    at: usize,
) -> bool
    ensures { result
        ≡ may_be_cut_by plan.now.shaper premises plan.now.script_plan.direction plan.now.script_plan.script
        text.now marks at }
{
    match plan.shaper {
        hb_ot_any_shaper_t::Default
        | hb_ot_any_shaper_t::Dumber
        | hb_ot_any_shaper_t::Script(HEBREW_SHAPER | MYANMAR_ZAWGYI_SHAPER) => {
            marks_may_be_cut(text, marks, at)
        }
        hb_ot_any_shaper_t::Script(ARABIC_SHAPER) => arabic_may_be_cut(
            premises,
            plan.script_plan.direction,
            plan.script_plan.script,
            text,
            marks,
            at,
        ),
        hb_ot_any_shaper_t::Script(THAI_SHAPER) => thai_may_be_cut(premises, text, marks, at),
        hb_ot_any_shaper_t::Script(HANGUL_SHAPER) => hangul_may_be_cut(text, marks, at),
        hb_ot_any_shaper_t::Script(_) => false,
    }
}

fn is_inside(text: &[char], at: usize) -> bool
    ensures { result ≡ is_inside text.now at }
{
    0 < at && at < text.len()
}

fn have_alike(found: Occurrences, at: usize) -> bool
    ensures { result ≡ have_alike found at }
{
    found.is_nowhere() || (found.is_before(at) && found.is_after(at))
}

/// Whether U+034F is directly before an index, or begins the text where that is 0.
fn follows_joiner(text: &[char], at: usize) -> bool
    ensures { result ≡ follows_joiner text.now at }
{
    match text.get(at.saturating_sub(1)) {
        Some(u) => *u == GRAPHEME_JOINER,
        None => false,
    }
}

fn marks_may_be_cut(text: &[char], marks: TextMarks, at: usize) -> bool
    ensures { result ≡ marks_may_be_cut text.now marks at }
{
    have_alike(marks.marks, at) && !follows_joiner(text, at)
}

fn arabic_may_be_cut(
    premises: BreakPremises,
    direction: Direction,
    script: Option<Script>,
    text: &[char],
    marks: TextMarks,
    at: usize,
) -> bool
    ensures { result ≡ arabic_may_be_cut premises direction script text.now marks at }
{
    (premises.keeps_types && marks_may_be_cut(text, marks, at))
        && (marks.letters.is_from(at)
            && !((direction.is_backward() && direction.is_vertical()) || is_mongolian(script)))
}

fn is_mongolian(script: Option<Script>) -> bool
    ensures { result ≡ is_mongolian script }
{
    match script {
        Some(script) => script == MONGOLIAN,
        None => false,
    }
}

fn thai_may_be_cut(premises: BreakPremises, text: &[char], marks: TextMarks, at: usize) -> bool
    ensures { result ≡ thai_may_be_cut premises text.now marks at }
{
    (premises.keeps_private_marks && begins_plainly(text, at))
        && (!follows_joiner(text, at)
            && ((marks.marks.is_nowhere() && marks.vowels.is_nowhere())
                || (is_marked_before(text, marks, at) && is_marked_after(text, marks, at))))
}

fn begins_plainly(text: &[char], at: usize) -> bool
    ensures { result ≡ passes_at is_plain_beginning text.now at }
{
    match text.get(at) {
        Some(u) => is_plain_beginning(*u),
        None => false,
    }
}

/// Whether a character is a mark, or none that the Thai shaper takes for one.
fn is_plain_beginning(u: char) -> bool
    ensures { result ≡ is_plain_beginning u }
{
    is_mark(u) || !(is_above(u) || matches!(u, '\u{E38}'..='\u{E3A}'))
}

fn is_marked_before(text: &[char], marks: TextMarks, at: usize) -> bool
    ensures { result ≡ is_marked_before text.now marks at }
{
    marks.plain_marks.is_before(at) || (!is_above_at(text, 0) && marks.vowels.is_before(at))
}

fn is_marked_after(text: &[char], marks: TextMarks, at: usize) -> bool
    ensures { result ≡ is_marked_after text.now marks at }
{
    marks.plain_marks.is_after(at) || (!is_above_at(text, at) && marks.vowels.is_after(at))
}

fn is_above_at(text: &[char], at: usize) -> bool
    ensures { result ≡ passes_at is_above text.now at }
{
    match text.get(at) {
        Some(u) => is_above(*u),
        None => false,
    }
}

fn hangul_may_be_cut(text: &[char], marks: TextMarks, at: usize) -> bool
    ensures { result ≡ hangul_may_be_cut text.now marks at }
{
    marks.marks.is_nowhere() && !follows_joiner(text, at)
}
