//! Laws of the properties of every character.
ghost use Rattle.std.specs.Prelude.{◌≡◌};
ghost use Rattle.buffer_properties.specs.Laws.{ContinuationLeaves, LowBitsAreTheCategory};

use crate::normal_mode::MAX_COMBINING_MARKS;

/// The low five bits of a property word are the number of the general category.
#[tactic(auto, using(crate::proofs::Words::low_bits_are_the_category))]
pub fn law_low_bits_are_the_category()
    ensures { LowBitsAreTheCategory }
{}

/// The property word of a text's character without its continuation flag is that of its item.
#[tactic(auto, using(crate::proofs::Words::continuation_leaves))]
pub fn law_continuation_leaves()
    ensures { ContinuationLeaves }
{}

/// The most combining marks of a run that are sorted by their classes.
pub fn most_marks_of_a_run() -> usize
    ensures { result ≡ 32 }
{
    MAX_COMBINING_MARKS
}
