//! The direction and the script by which a text is shaped.
ghost use Rattle.std.specs.Prelude.{◌≡◌};

use buffer_common::direction::Direction;
use buffer_common::script::Script;
use buffer_core::buffer::hb_buffer_t;

/// The direction and the script by which a text is shaped.
#[derive(Clone, Copy)]
pub struct Segment {
    pub direction: Direction,
    pub script: Option<Script>,
}

/// That of no text.
pub const NO_SEGMENT: Segment = Segment {
    direction: Direction::Invalid,
    script: None,
};

/// That of a text that was shaped.
pub fn segment_of(shaped: &hb_buffer_t) -> Segment
    ensures direction { result.direction ≡ shaped.now.direction }
    ensures script { result.script ≡ shaped.now.script }
{
    Segment {
        direction: shaped.direction(),
        script: shaped.script(),
    }
}
