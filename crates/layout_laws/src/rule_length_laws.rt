//! Rules in order, nested lookups and a lookup over all glyphs depend on no length limit, and count the budget.
ghost use Rattle.layout_laws.specs.RuleLengths.{FirstRulesDependOnNoLength, LookupsDependOnNoLength, MetRulesDependOnNoLength, NestedDependOnNoLength};
ghost use Rattle.layout_laws.specs.RuleBudgets.{FirstRulesCountBudget, LookupsCountBudget, MetRulesCountBudget, NestedCountBudget};

/// The first of some rules depends on no length where each depends on none.
pub fn law_first_rules_depend_on_no_length()
    ensures { FirstRulesDependOnNoLength }
{}

/// A rule that depends on no length depends on none where its lookup meets the item.
pub fn law_met_rules_depend_on_no_length()
    ensures { MetRulesDependOnNoLength }
{}

/// The stage that tries such a rule at each index depends on no length.
pub fn law_lookups_depend_on_no_length()
    ensures { LookupsDependOnNoLength }
{}

/// The lookups of a rule's records depend on no length where the nested ones depend on none.
pub fn law_nested_depend_on_no_length()
    ensures { NestedDependOnNoLength }
{}

/// The first of some rules counts the budget where each does.
pub fn law_first_rules_count_budget()
    ensures { FirstRulesCountBudget }
{}

/// A rule that counts the budget counts it where its lookup meets the item.
pub fn law_met_rules_count_budget()
    ensures { MetRulesCountBudget }
{}

/// The stage that tries such a rule at each index counts the budget.
pub fn law_lookups_count_budget()
    ensures { LookupsCountBudget }
{}

/// The lookups of a rule's records count the budget where the nested ones do.
pub fn law_nested_count_budget()
    ensures { NestedCountBudget }
{}
