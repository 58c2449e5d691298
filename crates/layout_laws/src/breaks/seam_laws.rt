//! Substitution leaves no later component of a multiple substitution without the one before it, where a text may be broken.
ghost use Rattle.layout_laws.specs.Breaks.Seams.{ItemMapsKeepSeams, KeepingIsDivisibleAtSeam, LookupsKeepSeams, NothingKeepsSeams, OwnRandomKeepsSeams, OwnSeamIsApart, SeamStaysInTurn, SubstitutionKeepsSeams, UnnumberedIsOwn};

/// An item that is its own is no later component of the one before it.
pub fn law_own_seam_is_apart()
    ensures { OwnSeamIsApart }
{}

/// An item with an empty ligature word is its own.
pub fn law_unnumbered_is_own()
    ensures { UnnumberedIsOwn }
{}

/// A divisible stage that leaves the first item of each fragment its own is divisible at the seam.
pub fn law_keeping_is_divisible_at_seam()
    ensures { KeepingIsDivisibleAtSeam }
{}

/// A stage that changes each item by itself and keeps its ligature word is divisible at the seam.
pub fn law_item_maps_keep_seams()
    ensures { ItemMapsKeepSeams }
{}

/// A stage that changes nothing is divisible at the seam.
pub fn law_nothing_keeps_seams()
    ensures { NothingKeepsSeams }
{}

/// Stages that are divisible at the seam are so one after the other.
pub fn law_seam_stays_in_turn()
    ensures { SeamStaysInTurn }
{}

/// Lookups of substitution in order are divisible at the seam.
pub fn law_lookups_keep_seams()
    ensures { LookupsKeepSeams }
{}

/// A stage that is divisible at the seam is so with a random state of its own.
pub fn law_own_random_keeps_seams()
    ensures { OwnRandomKeepsSeams }
{}

/// All substitution by a map is divisible at the seam where the pauses are.
pub fn law_substitution_keeps_seams()
    ensures { SubstitutionKeepsSeams }
{}
