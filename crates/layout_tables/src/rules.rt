//! Lists of rules in which those that begin with a glyph or a class are found without a walk over all.
ghost use Rattle.std.specs.Prelude.{◌≡◌, ◌≤◌, ◌<◌, length, true};
ghost use Rattle.std.specs.List.{AllWithin};
ghost use Rattle.std.specs.List.Sorted.{IsNonDecreasingBy};
ghost use Rattle.layout_tables.specs.Rules.{StandWithin, first_number};

use crate::item_rule::ItemRule;
use layout_common::array::Array;
use std::marker::Model;

/// Rules whose items are glyphs or classes, in the order in which they are tried.
#[derive(Debug, Drop)]
pub struct SequenceRules {
    rules: Array<ItemRule>,
    /// Whether the first items of the inputs never fall, as in a font's sets of rules. It only saves time: the rules
    /// that begin with an item are then found by halves.
    rises: bool,
}

impl Model for SequenceRules {
    ghost use Rattle.std.specs.Prelude.{◌≡◌, ℕ, List, true};
    ghost use Rattle.std.specs.List.Sorted.{IsNonDecreasingBy};
    ghost use Rattle.layout_tables.specs.Rules.{first_number};
    ghost use Rattle.layout_tables.specs.declared.context.SequenceRule.{SequenceRule};

    ghost Value = { List (SequenceRule ℕ) };

    ghost view = { λ s. s.rules };

    ghost invariant = { λ s. s.rises ≡ true → IsNonDecreasingBy (λ r. first_number r.input) s.rules };
}

impl SequenceRules {
    /// Of rules in the order in which they are tried.
    pub fn new(rules: Array<ItemRule>) -> SequenceRules
        ensures { result ≡ rules }
    {
        let rises = never_fall(rules.as_slice());
        SequenceRules { rules, rises }
    }

    /// The rules, in the order in which they are tried.
    pub fn as_slice(&self) -> &[ItemRule]
        ensures { result.now ≡ self.now }
    {
        self.rules.as_slice()
    }

    /// How many rules there are.
    pub fn len(&self) -> usize
        ensures { result ≡ length self.now }
    {
        self.rules.len()
    }

    /// The index from which on, and that before which, all rules stand whose input begins with an item: in logarithmic
    /// time the rules of its set, where the first items never fall, else all.
    #[tactic(auto, using(crate::proofs::Begins::all_stand))]
    pub fn beginning_with(&self, item: u16) -> (usize, usize)
        ensures { StandWithin item self.now result.0 result.1 }
    {
        let rules = self.rules.as_slice();
        if !self.rises {
            return (0, rules.len());
        }
        let number = u32::from(item) + 1;
        (first_from(rules, number), first_from(rules, number + 1))
    }
}

/// One more than the first item of a rule's input, 0 where it has none.
fn first_number(rule: &ItemRule) -> u32
    ensures { result ≡ first_number rule.now.input }
{
    match rule.input() {
        [first, ..] => u32::from(*first) + 1,
        [] => 0,
    }
}

/// Whether the first items of the inputs never fall.
fn never_fall(rules: &[ItemRule]) -> bool
    ensures { result ≡ true → IsNonDecreasingBy (λ r. first_number r.input) rules.now }
{
    for i in 1..rules.len() {
        if first_number(&rules[i]) < first_number(&rules[i - 1]) {
            return false;
        }
    }
    true
}

/// The index of the first rule whose number is at least `number`.
fn first_from(rules: &[ItemRule], number: u32) -> usize
    requires { IsNonDecreasingBy (λ r. first_number r.input) rules.now }
    ensures within { result ≤ length rules.now }
    ensures below { AllWithin (λ r. first_number r.input < number) rules.now 0 result }
    ensures rest { AllWithin (λ r. number ≤ first_number r.input) rules.now result (length rules.now) }
{
    rules.partition_point(|rule| first_number(rule) < number)
}
