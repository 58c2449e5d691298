//! Laws of events, merges and deletions.
ghost use Rattle.buffer_glyphs.specs.Laws.{DeletionIsEvent, FlagsAreHandedOn, KeepsLeast, KeepsNumbers, KeepsOrder, MergeIsJoin, MergeUnites, OriginsAreParts, OriginsKeepLeast, OriginsKeepNumbers, OriginsKeepOrder, SpreadHasNoConcat, SpreadIsEven};

/// Parts in order stay in order through all events, reversed whenever the list is.
#[tactic(auto, using(crate::specs::Lemmas::Parts::keeps_order))]
pub fn law_keeps_order()
    ensures { KeepsOrder }
{}

/// The least number of parts in order stays while an item is left.
pub fn law_keeps_least()
    ensures { KeepsLeast }
{}

/// No event introduces a new part number.
#[tactic(auto, using(crate::specs::Lemmas::Parts::keeps_numbers))]
pub fn law_keeps_numbers()
    ensures { KeepsNumbers }
{}

/// A merge unites the numbers that occur in its range, and no more.
pub fn law_merge_unites()
    ensures { MergeUnites }
{}

/// On numbers in order, a merge of the numbers that occur in a range is the join of the range's parts.
#[tactic(auto, using(crate::specs::Lemmas::Merges::merge_is_join))]
pub fn law_merge_is_join()
    ensures { MergeIsJoin }
{}

/// On numbers in order, at a monotone level, the deletion of a glyph is the event `Delete`.
#[tactic(auto, using(crate::specs::Lemmas::Deletions::deletion_is_event))]
pub fn law_deletion_is_event()
    ensures { DeletionIsEvent }
{}

/// No event introduces a new cluster number, at any level.
#[tactic(auto, using(crate::specs::Lemmas::EventParts::origins_keep_numbers))]
pub fn law_origins_keep_numbers()
    ensures { OriginsKeepNumbers }
{}

/// At a monotone level, on clusters in order, events do to clusters what they do to the parts of the text.
#[tactic(auto, using(crate::specs::Lemmas::EventParts::origins_are_parts))]
pub fn law_origins_are_parts()
    ensures { OriginsAreParts }
{}

/// At a monotone level clusters in order stay in order, reversed whenever the list is.
#[tactic(auto, using(crate::proofs::Least::origins_keep_order))]
pub fn law_origins_keep_order()
    ensures { OriginsKeepOrder }
{}

/// At a monotone level the least of clusters in order stays while a glyph is left.
#[tactic(auto, using(crate::proofs::Least::origins_keep_least))]
pub fn law_origins_keep_least()
    ensures { OriginsKeepLeast }
{}

/// After a `Spread`, neighbours of one cluster have the same glyph flags.
#[tactic(auto, using(crate::specs::Lemmas::EventParts::spread_is_even))]
pub fn law_spread_is_even()
    ensures { SpreadIsEven }
{}

/// After a `Spread`, UNSAFE_TO_CONCAT is set only where it was requested.
#[tactic(auto, using(crate::specs::Lemmas::EventParts::spread_has_no_concat))]
pub fn law_spread_has_no_concat()
    ensures { SpreadHasNoConcat }
{}

/// Where flags of deleted glyphs are handed on, the glyphs that are left change in flags alone.
#[tactic(auto, using(crate::specs::Lemmas::Handed::handed_by_origins))]
pub fn law_flags_are_handed_on()
    ensures { FlagsAreHandedOn }
{}
