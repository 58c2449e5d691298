//! Advances as sums, so that the distance between two glyphs is a difference.
ghost use Rattle.std.specs.Prelude.{◌≡◌};
ghost use Rattle.layout_offsets.specs.FollowedLinks.{kinds_tested, kind_tested, has_kind};
ghost use Rattle.layout_offsets.specs.AdvanceSums.{AllFit, Fits, pen_down, pen_after, pen_of, pen_way, with_pen, advance_sums, advances_of_sums};

pub use crate::sums::{minus, plus};
use buffer_glyphs::position::GlyphPosition;
use buffer_glyphs::position::attach_type::{CURSIVE, MARK};

/// The pen's distance from the beginning of the line, in font units modulo 2^32.
#[derive(Clone, Copy)]
pub(crate) struct Pen {
    pub x: i32,
    pub y: i32,
}

pub(crate) const PEN_DOWN: Pen = Pen { x: 0, y: 0 };

pub(crate) fn pen_of(position: GlyphPosition) -> Pen
    ensures { result ≡ pen_of position }
{
    Pen {
        x: position.x_advance,
        y: position.y_advance,
    }
}

pub(crate) fn pen_way(from: Pen, to: Pen) -> Pen
    ensures { result ≡ pen_way from to }
{
    Pen {
        x: minus(to.x, from.x),
        y: minus(to.y, from.y),
    }
}

fn pen_after(pen: Pen, position: GlyphPosition) -> Pen
    ensures { result ≡ pen_after pen position }
{
    Pen {
        x: plus(pen.x, position.x_advance),
        y: plus(pen.y, position.y_advance),
    }
}

fn with_pen(pen: Pen, position: GlyphPosition) -> GlyphPosition
    ensures { result ≡ with_pen pen position }
{
    GlyphPosition {
        x_advance: pen.x,
        y_advance: pen.y,
        ..position
    }
}

pub(crate) fn has_kind(position: GlyphPosition) -> bool
    ensures { result ≡ has_kind position }
{
    position.attach_type == MARK || position.attach_type == CURSIVE
}

/// A position, without a link that is neither a mark's nor a cursive child's.
fn kind_tested(position: GlyphPosition) -> GlyphPosition
    ensures value { result ≡ kind_tested position }
    ensures fits { Fits position }
{
    if has_kind(position) {
        position
    } else {
        GlyphPosition {
            attach_chain: 0,
            ..position
        }
    }
}

/// Replaces each advance by the sum up to it, and clears links of neither kind.
#[tactic(auto, using(crate::proofs::Summing::summing_first, crate::proofs::Summing::summing_next, crate::proofs::Summing::summing_last, crate::proofs::Summing::summing_fits))]
pub(crate) fn sum_up(positions: &mut [GlyphPosition])
    ensures fits { AllFit positions.old }
    ensures value { positions.new ≡ advance_sums (kinds_tested positions.old) }
{
    let mut pen = PEN_DOWN;
    for i in 0..positions.len() {
        let position = kind_tested(positions[i]);
        pen = pen_after(pen, position);
        positions[i] = with_pen(pen, position);
    }
}

/// Replaces each sum by its difference from the one before.
#[tactic(auto, using(crate::proofs::Summing::parting_first, crate::proofs::Summing::parting_next, crate::proofs::Summing::parting_last))]
pub(crate) fn take_apart(positions: &mut [GlyphPosition])
    ensures { positions.new ≡ advances_of_sums positions.old }
{
    let mut pen = PEN_DOWN;
    for i in 0..positions.len() {
        let position = positions[i];
        positions[i] = with_pen(pen_way(pen, pen_of(position)), position);
        pen = pen_of(position);
    }
}
