//! Laws of our own, which rustybuzz has not: what a pipeline stage reads depends on no length limit, and
//! counts the budget of nested lookups.
ghost use Rattle.buffer_parts.specs.AlikeLaws.{AlikeAreRead, ChainsDependOnNoLength, TwoDependOnNoLength, WantedDependOnNoLength};
ghost use Rattle.buffer_parts.specs.BudgetLaws.{ChainsCountBudget, CountingHasUses, CountingSparesBudget, SparingAlikeAreRead, SparingReadsTheSame, TwoCountBudget, UsedAlikeAreRead, WantedCountBudget};

/// From views that differ in the limit of length alone a stage leads to the same items, positions and events, unless it refuses one.
pub fn law_alike_are_read()
    ensures { AlikeAreRead }
{}

/// A stage after another depends on no length where both depend on none.
pub fn law_two_depend_on_no_length()
    ensures { TwoDependOnNoLength }
{}

/// Stages one after another depend on no length where each depends on none.
pub fn law_chains_depend_on_no_length()
    ensures { ChainsDependOnNoLength }
{}

/// A stage that is done only by a condition depends on no length where the stage depends on none.
pub fn law_wanted_depend_on_no_length()
    ensures { WantedDependOnNoLength }
{}

/// A stage after another counts the budget where both do.
pub fn law_two_count_budget()
    ensures { TwoCountBudget }
{}

/// Stages one after another count the budget where each does.
pub fn law_chains_count_budget()
    ensures { ChainsCountBudget }
{}

/// A stage that is done only by a condition counts the budget where the stage does.
pub fn law_wanted_count_budget()
    ensures { WantedCountBudget }
{}

/// A stage that counts the budget, and leaves some, reads the same at each greater budget.
pub fn law_counting_spares_budget()
    ensures { CountingSparesBudget }
{}

/// A run that leaves some of its budget reads the same with more, and leaves so much more.
pub fn law_sparing_reads_the_same()
    ensures { SparingReadsTheSame }
{}

/// One run that leaves some of its budget shows how many units the reading takes.
pub fn law_counting_has_uses()
    ensures { CountingHasUses }
{}

/// Views that differ in both limits lead to the same where both leave some of the budget.
pub fn law_sparing_alike_are_read()
    ensures { SparingAlikeAreRead }
{}

/// What is read from some budget on is the same of views that differ in both limits.
pub fn law_used_alike_are_read()
    ensures { UsedAlikeAreRead }
{}
