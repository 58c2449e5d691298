//! Path operators (TN 5177, 4.1 and 4.2).
ghost use Rattle.std.specs.Prelude.{◌≡◌, ◌≤◌, ◌<◌, ◌+◌, ◌*◌, ◌/◌, ◌%◌, length, slice_index, true, false, IfOk, IfErr, Ok, Err};
ghost use Rattle.font_charstrings.specs.Paths.{direction_at, side, sides, lines, flat_curve, cross, flat_curves, corner_curve, spare, corner_curves, hflex, hflex1, flex1, pen_after_move, pen_after_path, pen_after_flex, curve_pairs, curve_line_pairs, line_curve_pairs};

use crate::pen::{Pen, curve_to, level_to, line_to, move_to, upright_to};
use font_bytes::fault::TableFault;

/// Lines to n points of two operands each.
#[tactic(auto, using(crate::proofs::Steps::lines_next, crate::proofs::Steps::lines_none))]
fn lines(pen: Pen, args: &[u32], count: usize) -> Pen
    requires { 2 * count ≤ length args.now }
    ensures { result ≡ lines args.now pen count }
{
    let mut drawn = pen;
    for i in 0..count {
        drawn = line_to(drawn, args[2 * i], args[2 * i + 1]);
    }
    drawn
}

/// A horizontal or a vertical line.
#[tactic(auto, unfolding(crate::specs::Paths::side))]
fn side(pen: Pen, is_horizontal: bool, d: u32) -> Pen
    ensures { result ≡ side pen is_horizontal d }
{
    if is_horizontal {
        return line_to(pen, d, 0);
    }
    line_to(pen, 0, d)
}

/// The direction of what has an index in a row that turns each time.
#[tactic(auto, unfolding(crate::specs::Paths::direction_at))]
fn direction_at(is_horizontal: bool, index: usize) -> bool
    ensures { result ≡ direction_at is_horizontal index }
{
    if index % 2 == 0 {
        return is_horizontal;
    }
    !is_horizontal
}

/// Lines that are horizontal and vertical in turn.
#[tactic(auto, using(crate::proofs::Steps::sides_next, crate::proofs::Steps::sides_none))]
fn sides(pen: Pen, args: &[u32], is_horizontal: bool) -> Pen
    ensures { result ≡ sides args.now is_horizontal pen (length args.now) }
{
    let mut drawn = pen;
    for i in 0..args.len() {
        drawn = side(drawn, direction_at(is_horizontal, i), args[i]);
    }
    drawn
}

/// A curve that begins and ends horizontally or vertically, but for the distance of its first move across.
#[tactic(auto, unfolding(crate::specs::Paths::flat_curve))]
fn flat_curve(pen: Pen, is_horizontal: bool, across: u32, a: u32, b: u32, c: u32, d: u32) -> Pen
    ensures { result ≡ flat_curve pen is_horizontal across a b c d }
{
    if is_horizontal {
        return curve_to(pen, a, across, b, c, d, 0);
    }
    curve_to(pen, across, a, b, c, 0, d)
}

/// The distance of the first move of a curve across: the first of an odd number of operands.
#[tactic(auto, unfolding(crate::specs::Paths::cross))]
fn cross(args: &[u32], index: usize) -> u32
    ensures { result ≡ cross args.now index }
{
    if index == 0 && args.len() % 2 == 1 {
        return args[0];
    }
    0
}

/// Curves that begin and end in one direction (hhcurveto, vvcurveto).
#[tactic(auto, using(crate::proofs::Steps::flat_curves_next, crate::proofs::Steps::flat_curves_none))]
fn flat_curves(pen: Pen, args: &[u32], is_horizontal: bool) -> Pen
    ensures { result ≡ flat_curves args.now is_horizontal pen (length args.now / 4) }
{
    let odd = args.len() % 2;
    let mut drawn = pen;
    for i in 0..args.len() / 4 {
        let at = odd + 4 * i;
        let across = cross(args, i);
        drawn = flat_curve(
            drawn,
            is_horizontal,
            across,
            args[at],
            args[at + 1],
            args[at + 2],
            args[at + 3],
        );
    }
    drawn
}

/// A curve from one direction to the other; the last operand is the distance of its last move across.
#[tactic(auto, unfolding(crate::specs::Paths::corner_curve))]
fn corner_curve(pen: Pen, is_horizontal: bool, a: u32, b: u32, c: u32, d: u32, across: u32) -> Pen
    ensures { result ≡ corner_curve pen is_horizontal a b c d across }
{
    if is_horizontal {
        return curve_to(pen, a, 0, b, c, across, d);
    }
    curve_to(pen, 0, a, b, c, d, across)
}

/// The operand at an index where it is the last one, else 0.
#[tactic(auto, unfolding(crate::specs::Paths::spare))]
fn spare(args: &[u32], at: usize) -> u32
    requires { at < 18446744073709551615 }
    ensures { result ≡ spare args.now at }
{
    if args.len() == at + 1 {
        return args[at];
    }
    0
}

/// Curves that turn each time (hvcurveto, vhcurveto).
#[tactic(auto, using(crate::proofs::Steps::corner_curves_next, crate::proofs::Steps::corner_curves_none))]
fn corner_curves(pen: Pen, args: &[u32], is_horizontal: bool) -> Pen
    ensures { result ≡ corner_curves args.now is_horizontal pen (length args.now / 4) }
{
    let mut drawn = pen;
    for i in 0..args.len() / 4 {
        let at = 4 * i;
        let across = spare(args, at + 4);
        drawn = corner_curve(
            drawn,
            direction_at(is_horizontal, i),
            args[at],
            args[at + 1],
            args[at + 2],
            args[at + 3],
            across,
        );
    }
    drawn
}

/// Seven operands: two curves that end at the height of the first point.
#[tactic(auto, unfolding(crate::specs::Paths::hflex))]
fn hflex(pen: Pen, args: &[u32]) -> Pen
    requires { length args.now ≡ 7 }
    ensures { result ≡ hflex args.now pen }
{
    let joint = curve_to(pen, args[0], 0, args[1], args[2], args[3], 0);
    let off = line_to(joint, args[4], 0);
    let level = level_to(off, args[5], pen.y);
    line_to(level, args[6], 0)
}

/// Nine operands: two curves that end at the height of the first point.
#[tactic(auto, unfolding(crate::specs::Paths::hflex1))]
fn hflex1(pen: Pen, args: &[u32]) -> Pen
    requires { length args.now ≡ 9 }
    ensures { result ≡ hflex1 args.now pen }
{
    let joint = curve_to(pen, args[0], args[1], args[2], args[3], args[4], 0);
    let off = line_to(joint, args[5], 0);
    let next = line_to(off, args[6], args[7]);
    level_to(next, args[8], pen.y)
}

/// Eleven operands: two curves; the last point has a coordinate of the first one, that of the smaller way.
#[tactic(auto, unfolding(crate::specs::Paths::flex1))]
fn flex1(pen: Pen, args: &[u32]) -> Pen
    requires { length args.now ≡ 11 }
    ensures { result ≡ flex1 args.now pen }
{
    let next = lines(pen, args, 5);
    if next.x.abs_diff(pen.x) > next.y.abs_diff(pen.y) {
        return level_to(next, args[10], pen.y);
    }
    upright_to(next, pen.x, args[10])
}

/// The points of rrcurveto: six operands a curve.
#[tactic(auto, unfolding(crate::specs::Paths::curve_pairs))]
fn curve_pairs(count: usize) -> usize
    ensures value { result ≡ curve_pairs count }
    ensures within { 2 * result ≤ count }
{
    count / 6 * 3
}

/// The points of rcurveline: curves, and one more.
#[tactic(auto, unfolding(crate::specs::Paths::curve_line_pairs))]
fn curve_line_pairs(count: usize) -> usize
    ensures value { result ≡ curve_line_pairs count }
    ensures within { 2 * result ≤ count }
{
    if count < 8 {
        return 0;
    }
    (count - 2) / 6 * 3 + 1
}

/// The points of rlinecurve: lines, and three more.
#[tactic(auto, unfolding(crate::specs::Paths::line_curve_pairs))]
fn line_curve_pairs(count: usize) -> usize
    ensures value { result ≡ line_curve_pairs count }
    ensures within { 2 * result ≤ count }
{
    if count < 8 {
        return 0;
    }
    count / 2
}

/// Begins a path: rmoveto, hmoveto, vmoveto, whose operands are the last ones; a width may be before them.
#[tactic(auto, unfolding(crate::specs::Paths::pen_after_move))]
fn pen_after_move(code: u8, at: usize, pen: Pen, args: &[u32]) -> Result<Pen, TableFault>
    ensures { result ≡ pen_after_move code at pen args.now }
{
    let count = args.len();
    if code == 21 && count >= 2 {
        return Ok(move_to(pen, args[count - 2], args[count - 1]));
    }
    if code == 22 && count >= 1 {
        return Ok(move_to(pen, args[count - 1], 0));
    }
    if code == 4 && count >= 1 {
        return Ok(move_to(pen, 0, args[count - 1]));
    }
    Err(TableFault::Kind(at))
}

/// Draws by a path operator of one byte at an offset.
#[tactic(auto, unfolding(crate::specs::Paths::pen_after_path))]
pub fn pen_after_path(code: u8, at: usize, pen: Pen, args: &[u32]) -> Result<Pen, TableFault>
    ensures { result ≡ pen_after_path code at pen args.now }
{
    let count = args.len();
    if code == 5 {
        return Ok(lines(pen, args, count / 2));
    }
    if code == 6 {
        return Ok(sides(pen, args, true));
    }
    if code == 7 {
        return Ok(sides(pen, args, false));
    }
    if code == 8 {
        return Ok(lines(pen, args, curve_pairs(count)));
    }
    if code == 24 {
        return Ok(lines(pen, args, curve_line_pairs(count)));
    }
    if code == 25 {
        return Ok(lines(pen, args, line_curve_pairs(count)));
    }
    if code == 26 {
        return Ok(flat_curves(pen, args, false));
    }
    if code == 27 {
        return Ok(flat_curves(pen, args, true));
    }
    if code == 30 {
        return Ok(corner_curves(pen, args, false));
    }
    if code == 31 {
        return Ok(corner_curves(pen, args, true));
    }
    pen_after_move(code, at, pen, args)
}

/// Draws by a path operator of two bytes at an offset, by the second one.
#[tactic(auto, unfolding(crate::specs::Paths::pen_after_flex))]
pub fn pen_after_flex(code: u8, at: usize, pen: Pen, args: &[u32]) -> Result<Pen, TableFault>
    ensures { result ≡ pen_after_flex code at pen args.now }
{
    let count = args.len();
    if code == 34 && count == 7 {
        return Ok(hflex(pen, args));
    }
    if code == 35 && count == 13 {
        return Ok(lines(pen, args, 6));
    }
    if code == 36 && count == 9 {
        return Ok(hflex1(pen, args));
    }
    if code == 37 && count == 11 {
        return Ok(flex1(pen, args));
    }
    Err(TableFault::Kind(at))
}
