//! The lookups of a text depend on no length limit, and count the budget of nested lookups.
ghost use Rattle.layout_laws.specs.Lengths.{PositioningCountsBudget, PositioningDependsOnNoLength, SubstitutionCountsBudget, SubstitutionDependsOnNoLength};
ghost use Rattle.layout_laws.specs.Nesting.{NestsWithinBudget, NothingNestsWithoutBudget};

/// Substitution depends on no limit of length where no pause does.
pub fn law_substitution_depends_on_no_length()
    ensures { SubstitutionDependsOnNoLength }
{}

/// Positioning depends on no limit of length where no pause does.
pub fn law_positioning_depends_on_no_length()
    ensures { PositioningDependsOnNoLength }
{}

/// Substitution only counts the budget of nested lookups down where each pause does.
pub fn law_substitution_counts_budget()
    ensures { SubstitutionCountsBudget }
{}

/// Positioning only counts the budget of nested lookups down where each pause does.
pub fn law_positioning_counts_budget()
    ensures { PositioningCountsBudget }
{}

/// No run nests more lookups than its budget allows.
pub fn law_nests_within_budget()
    ensures { NestsWithinBudget }
{}

/// With no unit of the budget left, a context does what it does where no lookup may be nested.
pub fn law_nothing_nests_without_budget()
    ensures { NothingNestsWithoutBudget }
{}
