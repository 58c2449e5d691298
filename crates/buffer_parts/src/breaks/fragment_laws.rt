//! Laws of our own, which rustybuzz has not: what stages do to a text, they do to the fragments that it is broken into.
ghost use Rattle.buffer_parts.specs.Breaks.FragmentLaws.{BesideIsDivisible, BesideIsFreelyDivisible, BesideStaysDivided, CrossingIsUnsafe, DividedHasFragments, DividesFreelyInTurn, DividesInTurn, DivisibleInTurn, FreeIsDivisible, FreelyDivisibleInTurn, ItemsAreDivisible, LosslessStagesKeepUnsafe, SameIsDivisible, WantedIsDivisible};

/// A state that is divided at an index has its first glyphs and the others as fragments.
pub fn law_divided_has_fragments()
    ensures { DividedHasFragments }
{}

/// A stage that keeps the parts of a text, and whose events are lossless, keeps what is unsafe to break unsafe.
pub fn law_lossless_stages_keep_unsafe()
    ensures { LosslessStagesKeepUnsafe }
{}

/// A stage that divides texts, and leaves them breakable, divides them with a divisible one after it.
pub fn law_divides_in_turn()
    ensures { DividesInTurn }
{}

/// A stage that divides texts whatever it spends divides them so with another such stage after it.
pub fn law_divides_freely_in_turn()
    ensures { DividesFreelyInTurn }
{}

/// Stages that are divisible whatever they spend are so one after the other.
pub fn law_freely_divisible_in_turn()
    ensures { FreelyDivisibleInTurn }
{}

/// A stage that is divisible whatever it spends is divisible where it only spends.
pub fn law_free_is_divisible()
    ensures { FreeIsDivisible }
{}

/// A stage that reads each text as its fragments, whatever it spends, is divisible whatever it spends.
pub fn law_beside_is_freely_divisible()
    ensures { BesideIsFreelyDivisible }
{}

/// A stage that changes nothing is divisible.
pub fn law_same_is_divisible()
    ensures { SameIsDivisible }
{}

/// A divisible stage is divisible where it is done only by a condition.
pub fn law_wanted_is_divisible()
    ensures { WantedIsDivisible }
{}

/// An event that binds a range across both fragments makes it unsafe to break between them.
pub fn law_crossing_is_unsafe()
    ensures { CrossingIsUnsafe }
{}

/// Divisible stages are divisible one after the other.
pub fn law_divisible_in_turn()
    ensures { DivisibleInTurn }
{}

/// A stage that changes each item by itself is divisible.
pub fn law_items_are_divisible()
    ensures { ItemsAreDivisible }
{}

/// A text stays divided where what is read of it is what is read of its fragments, one beside the other.
pub fn law_beside_stays_divided()
    ensures { BesideStaysDivided }
{}

/// A stage that reads a text as its fragments, one beside the other, is divisible.
pub fn law_beside_is_divisible()
    ensures { BesideIsDivisible }
{}
