//! C's numbers of why there are no lines or carets.
ghost use Rattle.std.specs.Prelude.{◌≡◌, ◌≢◌, ◌<◌};
ghost use Rattle.c_lines.specs.Numbers.{caret_fault_number, line_fault_number};

use caret_model::CaretFault;
use line_pieces::LineFault;

/// The number of why a text isn't cut into lines: 30 to 32 in the order of the tests, 1 for lack of memory.
pub fn line_fault_number(fault: LineFault) -> u32
    ensures number { result ≡ line_fault_number fault }
    ensures of_fault { 0 < result }
{
    match fault {
        LineFault::OutOfMemory => 1,
        LineFault::TooManyGlyphs => 30,
        LineFault::ClustersOutOfOrder => 31,
        LineFault::InvalidBreaks => 32,
    }
}

/// The number of why a text has no carets.
pub fn caret_fault_number(fault: CaretFault) -> u32
    ensures number { result ≡ caret_fault_number fault }
    ensures of_fault { 0 < result }
{
    match fault {
        CaretFault::OutOfMemory => 1,
        CaretFault::NoSlices => 18,
        CaretFault::TooManyGlyphs => 30,
        CaretFault::InvalidStops => 33,
    }
}
