//! Laws of rules.
ghost use Rattle.buffer_stages.specs.Laws.{RulesAreTriedInOrder};

/// Of rules in order, none is tried after one that acts; the events of those that passed stay.
#[tactic(auto, using(crate::proofs::Lemmas::Orders::rules_in_order))]
pub fn law_rules_are_tried_in_order()
    ensures { RulesAreTriedInOrder }
{}
