//! Rules of substitution are local: what they do to a fragment of a text alone, they do in the text, or bind it to what is outside.
ghost use Rattle.layout_laws.specs.Breaks.LookupLaws.{LookupsAreLocal, LookupsAreSteady};
ghost use Rattle.layout_laws.specs.Breaks.RuleLaws.{AlternatesAreLocal, FirstRulesAreLocal, LigaturesAreLocal, MetRulesAreLocal, MultiplesAreLocal, SinglesAreLocal};

/// Single substitution is local.
pub fn law_singles_are_local()
    ensures { SinglesAreLocal }
{}

/// Multiple substitution is local.
pub fn law_multiples_are_local()
    ensures { MultiplesAreLocal }
{}

/// Alternate substitution is local.
pub fn law_alternates_are_local()
    ensures { AlternatesAreLocal }
{}

/// Ligature substitution is local.
pub fn law_ligatures_are_local()
    ensures { LigaturesAreLocal }
{}

/// The first of some local rules is local.
pub fn law_first_rules_are_local()
    ensures { FirstRulesAreLocal }
{}

/// A local rule is local where its lookup meets the item.
pub fn law_met_rules_are_local()
    ensures { MetRulesAreLocal }
{}

/// Each lookup of substitution that is tried from the left is local, of each type, with the lookups nested in it.
pub fn law_lookups_are_local()
    ensures { LookupsAreLocal }
{}

/// Each such lookup leaves fewer items where it acts, and gives no budget back.
pub fn law_lookups_are_steady()
    ensures { LookupsAreSteady }
{}
