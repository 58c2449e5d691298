//! Ligatures that their members follow: which of their numbers are compared.
ghost use Rattle.layout_laws.specs.Breaks.Members.{FollowersAreMembers, RenumberedFollow};

/// Where members follow their ligature, the marks that a new ligature renumbers are the members after its last component.
pub fn law_followers_are_members()
    ensures { FollowersAreMembers }
{}

/// They follow the new ligature then.
pub fn law_renumbered_follow()
    ensures { RenumberedFollow }
{}
