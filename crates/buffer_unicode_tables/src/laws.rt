//! Laws of the tables and of the definitions over them.
ghost use Rattle.std.specs.Prelude.{◌≡◌};
ghost use Rattle.buffer_unicode_tables.specs.ClassOrder.{OrderIsByClasses};
ghost use Rattle.buffer_unicode_tables.specs.Laws.{SplitsKeepExpansion, StepsKeepOrder, EquivalentsHaveOneOrder, PairsKeepOrder};

use crate::depth::MAX_SPLITS;

/// Two lists have the same class order exactly where, for each class, their starters and their elements of that class
/// are the same.
#[tactic(auto, using(crate::proofs::Orders::order_is_by_classes))]
pub fn law_order_is_by_classes()
    ensures { OrderIsByClasses }
{}

/// Under lawful tables a decomposition changes no full expansion.
#[tactic(auto, using(crate::proofs::Steps::splits_keep_expansion))]
pub fn law_splits_keep_expansion()
    ensures { SplitsKeepExpansion }
{}

/// Under lawful tables a step between equivalent texts keeps the class order of the full expansion.
#[tactic(auto, using(crate::proofs::Steps::steps_keep_order))]
pub fn law_steps_keep_order()
    ensures { StepsKeepOrder }
{}

/// Under lawful tables equivalent texts have the same class order when they are fully expanded.
#[tactic(auto, using(crate::proofs::Steps::equivalents_have_one_order))]
pub fn law_equivalents_have_one_order()
    ensures { EquivalentsHaveOneOrder }
{}

/// Under lawful tables a composition keeps the class order of the full expansion.
#[tactic(auto, using(crate::proofs::Steps::pairs_keep_order))]
pub fn law_pairs_keep_order()
    ensures { PairsKeepOrder }
{}

/// The most decompositions of a chain of first halves.
pub fn most_splits_of_a_chain() -> u32
    ensures { result ≡ 8 }
{
    MAX_SPLITS
}
