//! Laws of our own, which rustybuzz has not: parts of reversed groups, of whole texts and of slices.
ghost use Rattle.buffer_parts.specs.TextLaws.{DeletionsUniteTheLast, MergedGroupsAreOne, MergedGroupsMayTurn, OneGroupsMayTurn, PartsFitText, SingleGroupsAreOne, TurnsAddUp, UnturnedKeepsSide};

/// Groups of one cluster each may be reversed, and then the list.
pub fn law_one_groups_may_turn()
    ensures { OneGroupsMayTurn }
{}

/// The clusters of groups that merged are one.
pub fn law_merged_groups_are_one()
    ensures { MergedGroupsAreOne }
{}

/// Groups that merged may be reversed, and then the list.
pub fn law_merged_groups_may_turn()
    ensures { MergedGroupsMayTurn }
{}

/// Groups of single elements are of one cluster each without a merge.
pub fn law_single_groups_are_one()
    ensures { SingleGroupsAreOne }
{}

/// A deletion unites parts exactly where the last item of one is deleted.
pub fn law_deletions_unite_the_last()
    ensures { DeletionsUniteTheLast }
{}

/// Clusters fit the text after events.
pub fn law_parts_fit_text()
    ensures { PartsFitText }
{}

/// Where no event reverses the list, rising clusters rise and falling ones fall afterwards.
#[tactic(auto, using(crate::specs::Lemmas::Turns::unturned_keeps_side))]
pub fn law_unturned_keeps_side()
    ensures { UnturnedKeepsSide }
{}

/// The reversals of two lists of events add up.
#[tactic(auto, using(crate::specs::Lemmas::Turns::turns_add_up))]
pub fn law_turns_add_up()
    ensures { TurnsAddUp }
{}
