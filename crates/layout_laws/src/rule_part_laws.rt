//! Rules in order, nested lookups and a lookup over all glyphs keep the parts of a text.
ghost use Rattle.layout_laws.specs.RuleParts.{LookupsKeepParts, MetRulesKeepParts, NestedKeepParts};

/// A rule that keeps the parts of a text keeps them where it is tried at the items that its lookup meets.
pub fn law_met_rules_keep_parts()
    ensures { MetRulesKeepParts }
{}

/// A rule that keeps the parts of a text keeps them where it is tried at each index, from the left.
pub fn law_lookups_keep_parts()
    ensures { LookupsKeepParts }
{}

/// Lookups nested in a rule keep the parts of a text where each of them does.
pub fn law_nested_keep_parts()
    ensures { NestedKeepParts }
{}
