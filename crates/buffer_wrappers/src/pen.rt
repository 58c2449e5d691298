//! The pen of a printed run.
ghost use Rattle.std.specs.Prelude.{◌≡◌, ℕ, ◌+◌, ◌^◌, ◌+ℤ◌};
ghost use Rattle.buffer_glyphs.specs.Coordinates.{IsNear};
ghost use Rattle.buffer_wrappers.specs.Pen.{IsWithin, moved_pen, shifted_pen};

use bitflags::Flags;
use buffer_glyphs::flags::SerializeFlags;
use buffer_glyphs::position::GlyphPosition;

/// The position of the pen, in font units.
#[derive(Clone, Copy, Default)]
pub struct Pen {
    pub x: i128,
    pub y: i128,
}

impl Pen {
    /// The pen at a distance from here.
    pub fn shifted(self, x: i32, y: i32) -> Pen
        requires { IsWithin (2 ^ 96) self }
        ensures { result ≡ shifted_pen self x y }
    {
        Pen {
            x: shifted(self.x, x),
            y: shifted(self.y, y),
        }
    }

    /// The pen after a glyph at this position. It doesn't move where the advances are printed.
    pub fn moved(self, flags: SerializeFlags, position: &GlyphPosition) -> Pen
        requires { IsWithin (2 ^ 96) self }
        ensures value { result ≡ moved_pen flags self position.now }
        ensures near { (bound : ℕ) → IsWithin bound self → IsWithin (bound + 2 ^ 31) result }
    {
        if !flags.contains(SerializeFlags::NO_ADVANCES) {
            return self;
        }
        self.shifted(position.x_advance, position.y_advance)
    }
}

/// A coordinate moved by a distance.
fn shifted(coordinate: i128, distance: i32) -> i128
    requires { IsNear (2 ^ 96) coordinate }
    ensures { result ≡ coordinate +ℤ distance }
{
    coordinate + i128::from(distance)
}
