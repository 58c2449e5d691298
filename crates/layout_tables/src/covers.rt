//! The glyphs at which subtables can act, collected for their sets.
//!
//! Each type of subtable has its impl, by its own definition; most collect their rows and nothing else.
ghost use Rattle.std.specs.Prelude.{ℕ, ◌≡◌, ◌==◌, Some, None, true, false, slice_get};
ghost use Rattle.std.specs.List.{list_any};
ghost use Rattle.std.specs.Option.{option_copied};
ghost use Rattle.layout_tables.specs.Covers.{admits_context, begins_with, covers_context, covers_entry, covers_first_of_pair, covers_sequence, covers_value, first_admits, items_on};

use crate::context::{ContextSubtable, SequenceRule};
use crate::cursive::CursivePos;
use crate::item_rule::ItemRule;
use crate::mark::{MarkBasePos, MarkLigPos};
use crate::pair::{PairPos, PairRow};
use crate::reverse::ReverseChainSubst;
use crate::sequence::{AlternateSubst, MultipleSubst, SequenceRow};
use crate::single_pos::SinglePos;
use crate::single_subst::SingleSubst;
use layout_common::digest::hb_set_digest_ext;
use layout_common::digested::{Covers, collect_each};
use layout_common::neighbours::Side;

// ---- rows and rules

impl Covers for SequenceRow {
    ghost covers = { λ r g. r.glyph == g };

    fn collect<D: hb_set_digest_ext>(&self, digest: &mut D) {
        digest.add(self.glyph);
    }
}

impl Covers for PairRow {
    ghost covers = { λ r g. r.first == g };

    fn collect<D: hb_set_digest_ext>(&self, digest: &mut D) {
        digest.add(self.first);
    }
}

/// By the first item of the input.
impl<I: Covers> Covers for SequenceRule<I> {
    ghost covers = { λ r g. begins_with (λ first. I.covers first g) r.input };

    fn collect<D: hb_set_digest_ext>(&self, digest: &mut D) {
        match self.input.as_slice() {
            [first, ..] => first.collect(digest),
            [] => {}
        }
    }
}

// ---- substitution

impl Covers for SingleSubst {
    ghost covers = { λ s. covers_value s.rows };

    #[tactic(auto, using(layout_common::proofs::Covering::found_any, layout_common::proofs::Covering::mapped_some))]
    fn collect<D: hb_set_digest_ext>(&self, digest: &mut D) {
        collect_each(self.rows.as_slice(), digest);
    }
}

impl Covers for MultipleSubst {
    ghost covers = { λ s. covers_sequence s.rows };

    #[tactic(auto, using(layout_common::proofs::Covering::found_any, layout_common::proofs::Covering::mapped_some))]
    fn collect<D: hb_set_digest_ext>(&self, digest: &mut D) {
        collect_each(self.rows.as_slice(), digest);
    }
}

impl Covers for AlternateSubst {
    ghost covers = { λ s. covers_sequence s.rows };

    #[tactic(auto, using(layout_common::proofs::Covering::found_any, layout_common::proofs::Covering::mapped_some))]
    fn collect<D: hb_set_digest_ext>(&self, digest: &mut D) {
        collect_each(self.rows.as_slice(), digest);
    }
}

impl Covers for ReverseChainSubst {
    ghost covers = { λ s. covers_value s.rows };

    #[tactic(auto, using(layout_common::proofs::Covering::found_any, layout_common::proofs::Covering::mapped_some))]
    fn collect<D: hb_set_digest_ext>(&self, digest: &mut D) {
        collect_each(self.rows.as_slice(), digest);
    }
}

// ---- positioning

impl Covers for SinglePos {
    ghost covers = { λ s. covers_value s.rows };

    #[tactic(auto, using(layout_common::proofs::Covering::found_any, layout_common::proofs::Covering::mapped_some))]
    fn collect<D: hb_set_digest_ext>(&self, digest: &mut D) {
        collect_each(self.rows.as_slice(), digest);
    }
}

impl Covers for PairPos {
    ghost covers = { covers_first_of_pair };

    fn collect<D: hb_set_digest_ext>(&self, digest: &mut D) {
        match self {
            PairPos::Glyphs(pairs) => collect_each(pairs.rows.as_slice(), digest),
            PairPos::Classes(pairs) => Covers::collect(&pairs.coverage, digest),
        }
    }
}

/// Each glyph with anchors, as its coverage has it, also one without an entry.
impl Covers for CursivePos {
    ghost covers = { λ s. covers_entry s.rows };

    #[tactic(auto, using(layout_common::proofs::Covering::found_any, layout_common::proofs::Covering::mapped_some, crate::proofs::Covering::entry_there))]
    fn collect<D: hb_set_digest_ext>(&self, digest: &mut D) {
        collect_each(self.rows.as_slice(), digest);
    }
}

/// The marks: the glyph at the cursor is attached to one before it.
impl Covers for MarkBasePos {
    ghost covers = { λ s. covers_value s.marks };

    #[tactic(auto, using(layout_common::proofs::Covering::found_any, layout_common::proofs::Covering::mapped_some))]
    fn collect<D: hb_set_digest_ext>(&self, digest: &mut D) {
        collect_each(self.marks.as_slice(), digest);
    }
}

/// The marks: the glyph at the cursor is attached to one before it.
impl Covers for MarkLigPos {
    ghost covers = { λ s. covers_value s.marks };

    #[tactic(auto, using(layout_common::proofs::Covering::found_any, layout_common::proofs::Covering::mapped_some))]
    fn collect<D: hb_set_digest_ext>(&self, digest: &mut D) {
        collect_each(self.marks.as_slice(), digest);
    }
}

// ---- contexts

/// The item that a rule requires nearest on a side; none where it requires none there.
#[tactic(auto, using(crate::proofs::Required::second_there, crate::proofs::Required::second_missing))]
fn nearest<I>(rule: &SequenceRule<I>, side: Side) -> Option<&I>
    ensures { option_copied result ≡ slice_get (items_on side rule.now) 0 }
{
    match side {
        Side::Before => rule.backtrack.get(0),
        Side::After => match rule.input.get(1) {
            Some(item) => Some(item),
            None => rule.lookahead.get(0),
        },
    }
}

/// Adds the glyphs of which a rule requires one on a side, where it does; whether it does. What was there stays.
fn collect_nearest<I: Covers, D: hb_set_digest_ext>(
    rule: &SequenceRule<I>,
    side: Side,
    digest: &mut D,
) -> bool
    ensures none { result ≡ true → first_admits I.covers (items_on side rule.now) None ≡ false }
    ensures added { result ≡ true → (g : ℕ) → first_admits I.covers (items_on side rule.now) (Some g) ≡ true
        → D.may_contain digest.new g ≡ true }
    ensures stays { (g : ℕ) → D.may_contain digest.old g ≡ true → D.may_contain digest.new g ≡ true }
{
    match nearest(rule, side) {
        Some(item) => {
            item.collect(digest);
            true
        }
        None => false,
    }
}

/// Adds the glyphs of which one has to stand on a side, where each rule requires one there; whether each does.
fn collect_beside_rules<I: Covers, D: hb_set_digest_ext>(
    rules: &[SequenceRule<I>],
    side: Side,
    digest: &mut D,
) -> bool
    ensures none { result ≡ true → list_any (λ r. first_admits I.covers (items_on side r) None) rules.now ≡ false }
    ensures added { result ≡ true → (g : ℕ)
        → list_any (λ r. first_admits I.covers (items_on side r) (Some g)) rules.now ≡ true
        → D.may_contain digest.new g ≡ true }
{
    for rule in rules {
        if !collect_nearest(rule, side, digest) {
            return false;
        }
    }
    true
}

/// The item that a rule by glyphs requires nearest on a side; none where it requires none there.
#[tactic(auto, using(crate::proofs::Required::second_there, crate::proofs::Required::second_missing))]
fn nearest_glyph(rule: &ItemRule, side: Side) -> Option<&u16>
    ensures { option_copied result ≡ slice_get (items_on side rule.now) 0 }
{
    match side {
        Side::Before => rule.backtrack().get(0),
        Side::After => match rule.input().get(1) {
            Some(item) => Some(item),
            None => rule.lookahead().get(0),
        },
    }
}

/// Adds the glyph that a rule by glyphs requires nearest on a side, where it requires one; whether it does. What was
/// there stays.
fn collect_nearest_glyph<D: hb_set_digest_ext>(rule: &ItemRule, side: Side, digest: &mut D) -> bool
    ensures none { result ≡ true → first_admits (λ glyph g. g == glyph) (items_on side rule.now) None ≡ false }
    ensures added { result ≡ true → (g : ℕ) → first_admits (λ glyph g. g == glyph) (items_on side rule.now) (Some g) ≡ true
        → D.may_contain digest.new g ≡ true }
    ensures stays { (g : ℕ) → D.may_contain digest.old g ≡ true → D.may_contain digest.new g ≡ true }
{
    match nearest_glyph(rule, side) {
        Some(item) => {
            item.collect(digest);
            true
        }
        None => false,
    }
}

/// Adds the glyphs of which one has to stand on a side, where each rule by glyphs requires one there; whether each does.
fn collect_beside_item_rules<D: hb_set_digest_ext>(
    rules: &[ItemRule],
    side: Side,
    digest: &mut D,
) -> bool
    ensures none { result ≡ true
        → list_any (λ r. first_admits (λ glyph g. g == glyph) (items_on side r) None) rules.now ≡ false }
    ensures added { result ≡ true → (g : ℕ)
        → list_any (λ r. first_admits (λ glyph g. g == glyph) (items_on side r) (Some g)) rules.now ≡ true
        → D.may_contain digest.new g ≡ true }
{
    for rule in rules {
        if !collect_nearest_glyph(rule, side, digest) {
            return false;
        }
    }
    true
}

impl Covers for ContextSubtable {
    ghost covers = { covers_context };

    ghost admits = { admits_context };

    fn collect<D: hb_set_digest_ext>(&self, digest: &mut D) {
        match self {
            ContextSubtable::Glyphs(rules) => collect_each(rules.as_slice(), digest),
            ContextSubtable::Classes(rules) => Covers::collect(&rules.first, digest),
            ContextSubtable::Coverage(rules) => collect_each(rules.as_slice(), digest),
        }
    }

    fn collect_beside<D: hb_set_digest_ext>(&self, side: Side, digest: &mut D) -> bool {
        match self {
            ContextSubtable::Glyphs(rules) => {
                collect_beside_item_rules(rules.as_slice(), side, digest)
            }
            ContextSubtable::Classes(_) => false,
            ContextSubtable::Coverage(rules) => collect_beside_rules(
                rules.as_slice(),
                side,
                digest,
            ),
        }
    }
}
