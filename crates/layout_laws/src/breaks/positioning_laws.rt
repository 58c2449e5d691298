//! The positioning of a text, from cleared links to followed ones, does to a text what it does to its fragments.
ghost use Rattle.layout_laws.specs.Breaks.PositionEnds.{FollowingIsDivisible, LinksAreFollowedApart};
ghost use Rattle.layout_laws.specs.Breaks.PositionStages.{OwnRandomIsDivisible, PositioningIsDivisible, PositioningStarts, RequestsPauseNoPositioning, UnpausedPositioningIsDivisible};

/// Once links were cleared, a text and its fragments can be positioned.
pub fn law_positioning_starts()
    ensures { PositioningStarts }
{}

/// A stage of positioning that divides texts does so with a random state of its own.
pub fn law_own_random_positions()
    ensures { OwnRandomIsDivisible }
{}

/// The GPOS stages of a map divide texts, where their pauses do.
pub fn law_positioning_is_divisible()
    ensures { PositioningIsDivisible }
{}

/// The links of two texts, one after the other, are followed in each by itself.
pub fn law_links_are_followed_apart()
    ensures { LinksAreFollowedApart }
{}

/// The stage that follows links divides texts.
pub fn law_following_is_divisible()
    ensures { FollowingIsDivisible }
{}

/// No request adds a GPOS pause.
pub fn law_requests_pause_no_positioning()
    ensures { RequestsPauseNoPositioning }
{}

/// The GPOS stages of a compiled map divide texts, where no GPOS pause was requested.
pub fn law_unpaused_positioning_is_divisible()
    ensures { UnpausedPositioningIsDivisible }
{}
