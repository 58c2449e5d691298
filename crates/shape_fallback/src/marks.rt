//! Positions each mark of a text around the base before it (rustybuzz: hb/ot_shape_fallback.rs).
//!
//! Functions repeat clauses: each requires what the one that it calls requires.
ghost use Rattle.std.specs.Prelude.{◌≡◌, ◌≤◌, ◌<◌, ◌+◌, length, drop, [], ◌∷◌};
ghost use Rattle.std.specs.List.{list_any};
ghost use Rattle.buffer_properties.specs.Characters.{is_mark};
ghost use Rattle.buffer_glyphs.specs.Events.{Break};
ghost use Rattle.buffer_glyphs.specs.Items.{item_of, strip};
ghost use Rattle.buffer_core.specs.Readings.{always};
ghost use Rattle.buffer_core.specs.Sides.{all_glyphs, items_of};
ghost use Rattle.buffer_stages.specs.Ready.{IsDone, IsReady, HoldsGlyphs};
ghost use Rattle.buffer_stages.specs.Stages.{Becomes, Happens};
ghost use Rattle.shape_fallback.specs.Marks.{HasBound, base_events, after_base, components_direction, first_event, is_left_to_right, marks, positioned_marks, script_direction, step, step_of_mark, with_positioned_marks, without_box};
ghost use Rattle.layout_common.specs.Rows.{value_of};
ghost use Rattle.shape_fallback.specs.declared.marks.Before.TheVariants.{Nothing};

use crate::SEVERAL;
use crate::around::{Around, Placing, begun, extents_of, mark_around};
use crate::bases::base_of;
use buffer_common::direction::Direction;
use buffer_common::script::Script;
use buffer_core::buffer::hb_buffer_t;
use buffer_glyphs::info::hb_glyph_info_t;
use buffer_glyphs::position::GlyphPosition;
use buffer_properties::categories::{is_mark, is_nonspacing_mark};
use layout_face::Face;
use layout_offsets::zeroing::zeroed;

/// What is before a mark: nothing, or a base with its state.
#[derive(Clone, Copy)]
pub(crate) enum Before {
    Nothing,
    Boxless,
    Boxed(Around),
}

/// A glyph's position, and what is before the next glyph.
#[derive(Clone, Copy)]
pub(crate) struct Step {
    pub position: GlyphPosition,
    pub before: Before,
}

/// The direction of a ligature's components, by the text's direction and script.
pub fn components_direction(direction: Direction, script: Option<Script>) -> Direction
    ensures { result ≡ components_direction direction script }
{
    if direction.is_horizontal() {
        direction
    } else {
        script_direction(script)
    }
}

fn script_direction(script: Option<Script>) -> Direction
    ensures { result ≡ script_direction script }
{
    match script {
        Some(script) => Direction::from_script(script).unwrap_or(Direction::LeftToRight),
        None => Direction::LeftToRight,
    }
}

/// Positions each mark around the base before it, by its combining class (HarfBuzz:
/// _hb_ot_shape_fallback_mark_position); base and marks are flagged as unsafe to break. With `adjust_offsets`, a mark
/// at a base without extents is shifted back by the advance that it loses. It takes linear time and no memory.
#[tactic(auto, using(crate::proofs::Lemmas::Unmarked::unmarked_done))]
pub fn position_marks(
    face: &Face,
    components: Direction,
    adjust_offsets: bool,
    buffer: &mut hb_buffer_t,
)
    requires glyphs { HoldsGlyphs buffer.old }
    ensures { IsDone (always (with_positioned_marks face.now components adjust_offsets)) buffer.old buffer.new }
{
    // Most texts have no mark, and then no base's extents matter.
    if has_combining_mark(buffer.info_slice()) {
        position_all_marks(face, components, adjust_offsets, buffer);
    }
}

/// Whether one of the characters is a combining mark.
fn has_combining_mark(glyphs: &[hb_glyph_info_t]) -> bool
    ensures { result ≡ list_any (λ g. is_mark (item_of g)) glyphs.now }
{
    if glyphs.len() < SEVERAL {
        return glyphs.iter().any(|glyph| is_mark(glyph));
    }
    let mut any = false;
    for glyph in glyphs {
        any |= is_mark(glyph);
    }
    any
}

#[tactic(auto, using(crate::proofs::Placed::marks_done, crate::proofs::Placed::same_numbers))]
fn position_all_marks(
    face: &Face,
    components: Direction,
    adjust_offsets: bool,
    buffer: &mut hb_buffer_t,
)
    requires glyphs { HoldsGlyphs buffer.old }
    ensures { IsDone (always (with_positioned_marks face.now components adjust_offsets)) buffer.old buffer.new }
{
    mark_bases(buffer);
    let by = Placing {
        direction: buffer.direction(),
        left_to_right: is_left_to_right(components),
        adjust_offsets,
    };
    position_each(face, by, buffer);
}

fn is_left_to_right(direction: Direction) -> bool
    ensures { result ≡ is_left_to_right direction }
{
    matches!(direction, Direction::LeftToRight)
}

/// The number of marks after an index.
#[tactic(auto, using(crate::proofs::Counted::none_passed, crate::proofs::Counted::next_passed, crate::proofs::Counted::all_passed, crate::proofs::Counted::last_passed))]
fn marks_after(glyphs: &[hb_glyph_info_t], at: usize) -> usize
    requires { at < length glyphs.now }
    ensures value { result ≡ marks (drop (at + 1) (strip glyphs.now)) }
    ensures within { at + 1 + result ≤ length glyphs.now }
{
    let mut end = at + 1;
    while end < glyphs.len() && is_mark(&glyphs[end]) {
        end += 1;
    }
    end - (at + 1)
}

#[tactic(auto, using(crate::proofs::Marked::none_marked, crate::proofs::Marked::next_marked, crate::proofs::Marked::all_marked, crate::proofs::Marked::same_count))]
fn mark_bases(buffer: &mut hb_buffer_t)
    requires { IsReady buffer.old }
    ensures { Happens (base_events 0 (items_of buffer.old)) buffer.old buffer.new }
{
    let count = buffer.info_slice().len();
    for at in 0..count {
        mark_base(at, buffer);
    }
}

#[tactic(auto, using(buffer_stages::proofs::Lemmas::Happened::break_happens, buffer_stages::proofs::Lemmas::Happened::end_of_input))]
fn mark_break(start: usize, end: usize, buffer: &mut hb_buffer_t)
    requires ready { IsReady buffer.old }
    requires ordered { start ≤ end }
    requires within { end ≤ length (all_glyphs buffer.old) }
    ensures { Happens (Break start end ∷ []) buffer.old buffer.new }
{
    buffer.unsafe_to_break(Some(start), Some(end));
}

#[tactic(auto, using(crate::proofs::Marked::mark_itself, crate::proofs::Marked::base_alone, crate::proofs::Marked::base_marked))]
fn mark_base(at: usize, buffer: &mut hb_buffer_t)
    requires ready { IsReady buffer.old }
    requires there { at < length (all_glyphs buffer.old) }
    ensures { Happens (first_event at (drop at (items_of buffer.old))) buffer.old buffer.new }
{
    if is_mark(&buffer.info_slice()[at]) {
        return;
    }
    let count = marks_after(buffer.info_slice(), at);
    if count > 0 {
        mark_break(at, at + 1 + count, buffer);
    }
}

fn after_base(
    face: &Face,
    direction: Direction,
    glyph: &hb_glyph_info_t,
    position: GlyphPosition,
) -> Before
    requires { glyph.now.glyph_id ≤ 65535 }
    ensures value { result ≡ after_base face.now direction (item_of glyph.now) position
        (value_of glyph.now.glyph_id face.now.extents) }
    ensures bound { HasBound result }
{
    match extents_of(face, glyph) {
        Some(extents) => Before::Boxed(begun(
            direction,
            position,
            base_of(face, glyph, position, extents),
        )),
        None => Before::Boxless,
    }
}

fn without_box(by: Placing, glyph: &hb_glyph_info_t, position: GlyphPosition) -> GlyphPosition
    ensures { result ≡ without_box by (item_of glyph.now) position }
{
    if is_nonspacing_mark(glyph) {
        zeroed(by.adjust_offsets, position)
    } else {
        position
    }
}

fn step_of_mark(
    face: &Face,
    by: Placing,
    glyph: &hb_glyph_info_t,
    position: GlyphPosition,
    before: Before,
) -> Step
    requires number { glyph.now.glyph_id ≤ 65535 }
    requires bound { HasBound before }
    ensures value { result ≡ step_of_mark face.now by (item_of glyph.now) position before }
    ensures bound { HasBound result.before }
{
    match before {
        Before::Nothing => Step { position, before },
        Before::Boxless => Step {
            position: without_box(by, glyph, position),
            before,
        },
        Before::Boxed(around) => {
            let placed = mark_around(face, by, glyph, position, around);
            Step {
                position: placed.position,
                before: Before::Boxed(placed.around),
            }
        }
    }
}

fn make_step(
    face: &Face,
    by: Placing,
    glyph: &hb_glyph_info_t,
    position: GlyphPosition,
    before: Before,
) -> Step
    requires number { glyph.now.glyph_id ≤ 65535 }
    requires bound { HasBound before }
    ensures value { result ≡ step face.now by (item_of glyph.now) position before }
    ensures bound { HasBound result.before }
{
    if is_mark(glyph) {
        step_of_mark(face, by, glyph, position, before)
    } else {
        Step {
            position,
            before: after_base(face, by.direction, glyph, position),
        }
    }
}

#[tactic(auto, using(crate::proofs::Placed::begins, crate::proofs::Placed::goes_on, crate::proofs::Placed::ends, crate::proofs::Placed::numbers_within))]
fn position_each(face: &Face, by: Placing, buffer: &mut hb_buffer_t)
    requires glyphs { HoldsGlyphs buffer.old }
    ensures { Becomes (items_of buffer.old) (positioned_marks face.now by Nothing (items_of buffer.old)
        buffer.old.positions)
        buffer.old buffer.new }
{
    let count = buffer.info_slice().len();
    let mut before = Before::Nothing;
    for i in 0..count {
        let glyph = buffer.info_slice()[i];
        let step = make_step(face, by, &glyph, buffer.pos_slice()[i], before);
        buffer.pos_slice_mut()[i] = step.position;
        before = step.before;
    }
}
