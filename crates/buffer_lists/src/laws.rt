//! Laws of deletions, groups and sorts.
ghost use Rattle.buffer_lists.specs.Laws.{DeletesOneItem, DeletionIsEvent, DeletionsAreEvents, EventsArePlain, GroupsAreAll, GroupsAreEvents, SeamParts, SortIsEvent, TurnsGroups};

/// The deletion of a glyph is the event `Delete`.
#[tactic(auto, using(buffer_glyphs::proofs::DeletedOrigins::deletion_after_front))]
pub fn law_list_deletion_is_event()
    ensures { DeletionIsEvent }
{}

/// A deletion changes no other item.
pub fn law_deletes_one_item()
    ensures { DeletesOneItem }
{}

/// The groups of a list, one after another, are the list.
pub fn law_groups_are_all()
    ensures { GroupsAreAll }
{}

/// A reversal of groups gives the groups, the last first, each in its own order.
pub fn law_turns_groups()
    ensures { TurnsGroups }
{}

/// An index is a seam of the order by a key exactly where no key before it is greater than one from it on.
pub fn law_seam_parts()
    ensures { SeamParts }
{}

/// Deletions in place are events, one for each deleted glyph.
#[tactic(auto, using(crate::proofs::Lemmas::DeletedEvents::deletions_are_events))]
pub fn law_deletions_are_events()
    ensures { DeletionsAreEvents }
{}

/// A reversal of groups is a list of events, one for each group and one for the list.
#[tactic(auto, using(crate::proofs::Lemmas::ReversedEvents::groups_are_events))]
pub fn law_groups_are_events()
    ensures { GroupsAreEvents }
{}

/// A sort of a range is one event.
pub fn law_sort_is_event()
    ensures { SortIsEvent }
{}

/// None of these events permutes glyphs without a merge, except a reversal of groups that does not merge them.
pub fn law_events_are_plain()
    ensures { EventsArePlain }
{}
