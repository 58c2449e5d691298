//! The current point of a charstring, and the box of its points. Lengths are in units of 1/65536.
ghost use Rattle.std.specs.Prelude.{◌≡◌};
ghost use Rattle.font_charstrings.specs.Pen.{moved_coordinate, with_current_point, open_pen, line_to, move_to, level_to, upright_to, curve_to, new_pen, moved_pen};

/// Coordinate 0.
pub const ORIGIN: u64 = 9223372036854775808;

/// The current point, and the least and the greatest coordinates of the points so far. A coordinate counts from `ORIGIN`.
#[derive(Clone, Copy, PartialEq, Eq, Debug)]
pub struct Pen {
    pub x: u64,
    pub y: u64,
    pub left: u64,
    pub bottom: u64,
    pub right: u64,
    pub top: u64,
    /// Whether a path has begun.
    pub is_open: bool,
}

/// A pen at the origin that has drawn nothing.
#[tactic(auto, unfolding(crate::specs::Pen::new_pen))]
pub fn new_pen() -> Pen
    ensures { result ≡ new_pen }
{
    Pen {
        x: ORIGIN,
        y: ORIGIN,
        left: u64::MAX,
        bottom: u64::MAX,
        right: 0,
        top: 0,
        is_open: false,
    }
}

/// A coordinate that an operand moves: 16.16, two's complement.
#[inline(always)]
#[tactic(auto, unfolding(crate::specs::Pen::moved_coordinate))]
fn moved_coordinate(x: u64, d: u32) -> u64
    ensures { result ≡ moved_coordinate x d }
{
    if d < 0x8000_0000 {
        return x.saturating_add(u64::from(d));
    }
    x.saturating_sub(0x1_0000_0000 - u64::from(d))
}

/// Moves the current point; the box stays.
#[inline(always)]
#[tactic(auto, unfolding(crate::specs::Pen::moved_pen))]
pub fn moved_pen(pen: Pen, dx: u32, dy: u32) -> Pen
    ensures { result ≡ moved_pen pen dx dy }
{
    Pen {
        x: moved_coordinate(pen.x, dx),
        y: moved_coordinate(pen.y, dy),
        left: pen.left,
        bottom: pen.bottom,
        right: pen.right,
        top: pen.top,
        is_open: pen.is_open,
    }
}

/// The box takes in the current point, which a path has now.
#[inline(always)]
#[tactic(auto, unfolding(crate::specs::Pen::with_current_point))]
fn with_current_point(pen: Pen) -> Pen
    ensures { result ≡ with_current_point pen }
{
    Pen {
        x: pen.x,
        y: pen.y,
        left: pen.left.min(pen.x),
        bottom: pen.bottom.min(pen.y),
        right: pen.right.max(pen.x),
        top: pen.top.max(pen.y),
        is_open: true,
    }
}

/// Begins a path at the current point where none has begun.
#[inline(always)]
#[tactic(auto, unfolding(crate::specs::Pen::open_pen))]
fn open_pen(pen: Pen) -> Pen
    ensures { result ≡ open_pen pen }
{
    if pen.is_open {
        return pen;
    }
    with_current_point(pen)
}

/// Begins a path at another point.
#[tactic(auto, unfolding(crate::specs::Pen::move_to))]
pub fn move_to(pen: Pen, dx: u32, dy: u32) -> Pen
    ensures { result ≡ move_to pen dx dy }
{
    with_current_point(moved_pen(pen, dx, dy))
}

/// A line to another point.
#[inline(always)]
#[tactic(auto, unfolding(crate::specs::Pen::line_to))]
pub fn line_to(pen: Pen, dx: u32, dy: u32) -> Pen
    ensures { result ≡ line_to pen dx dy }
{
    with_current_point(moved_pen(open_pen(pen), dx, dy))
}

/// A curve: two points off it, and its end.
#[tactic(auto, unfolding(crate::specs::Pen::curve_to))]
pub fn curve_to(pen: Pen, dxa: u32, dya: u32, dxb: u32, dyb: u32, dxc: u32, dyc: u32) -> Pen
    ensures { result ≡ curve_to pen dxa dya dxb dyb dxc dyc }
{
    let first = line_to(pen, dxa, dya);
    let second = line_to(first, dxb, dyb);
    line_to(second, dxc, dyc)
}

/// A point at a height.
#[tactic(auto, unfolding(crate::specs::Pen::level_to))]
pub fn level_to(pen: Pen, dx: u32, y: u64) -> Pen
    ensures { result ≡ level_to pen dx y }
{
    with_current_point(Pen {
        x: moved_coordinate(pen.x, dx),
        y,
        left: pen.left,
        bottom: pen.bottom,
        right: pen.right,
        top: pen.top,
        is_open: true,
    })
}

/// A point above or below an x coordinate.
#[tactic(auto, unfolding(crate::specs::Pen::upright_to))]
pub fn upright_to(pen: Pen, x: u64, dy: u32) -> Pen
    ensures { result ≡ upright_to pen x dy }
{
    with_current_point(Pen {
        x,
        y: moved_coordinate(pen.y, dy),
        left: pen.left,
        bottom: pen.bottom,
        right: pen.right,
        top: pen.top,
        is_open: true,
    })
}
