//! The test of canonical equivalence (UAX 15, D70), for lawful tables.
ghost use Rattle.std.specs.Prelude.{◌≡◌, ◌≢◌, ◌++◌, ◌↔◌, IfOk, OnOk, IsTrue, chars};
ghost use Rattle.std.specs.List.{list_all};
ghost use Rattle.buffer_unicode_tables.specs.ClassOrder.{beside_starters};
ghost use Rattle.buffer_unicode_tables.specs.Expansion.{EndWithin, expansion_by_splits};
ghost use Rattle.buffer_unicode_tables.specs.Lawful.{IsLawful};
ghost use Rattle.buffer_unicode_tables.specs.Tables.{class_of, split_of};
ghost use Rattle.buffer_unicode_tables.specs.Tests.{has_same_classes, same_beside_starters, same_text};
ghost use Rattle.buffer_unicode_tables.specs.Texts.{AreEquivalent, full_text};

use crate::texts::MAX_SPLITS;
use buffer_unicode_tables::{CharTablesExt, UnicodeTables, decompose};
use std::alloc::{AllocError, Global};

/// Whether two texts are canonically equivalent (UAX 15, D70): whether their full canonical decompositions have, for each class,
/// the same starters and characters of that class.
#[tactic(auto, using(crate::proofs::Equivalents::same_classes_are_equivalent))]
pub fn are_equivalent(
    alloc: Global,
    tables: &UnicodeTables,
    a: &str,
    b: &str,
) -> Result<bool, AllocError>
    requires { IsLawful tables.now }
    ensures { IfOk result (λ same. IsTrue same ↔ AreEquivalent tables.now (chars a.now) (chars b.now)) }
{
    let first = full_text(alloc, tables, a)?;
    let second = full_text(alloc, tables, b)?;
    has_same_classes(alloc, tables, &first, &second)
}

/// The full canonical decomposition of a text (UAX 15, D68).
fn full_text(alloc: Global, tables: &UnicodeTables, text: &str) -> Result<Vec<char>, AllocError>
    ensures whole { IfOk result (λ v. v.items ≡ full_text tables.now (chars text.now)) }
    ensures shallow { EndWithin (split_of tables.now) 8 }
{
    // Its clause says that chains of first halves end.
    let _ends = decompose(tables, '\0');
    let mut whole = Vec::new(alloc);
    for u in text.chars() {
        expand(tables, MAX_SPLITS, u, &mut whole)?;
    }
    Ok(whole)
}

/// Appends the full canonical decomposition of a character.
#[tactic(auto, using(buffer_unicode_tables::proofs::Chains::expanded_alone, buffer_unicode_tables::proofs::Chains::expanded_at_zero))]
fn expand(
    tables: &UnicodeTables,
    depth: u32,
    u: char,
    whole: &mut Vec<char>,
) -> Result<(), AllocError>
    ensures { OnOk result (whole.new.items ≡ whole.old.items
        ++ expansion_by_splits (split_of tables.now) depth u) }
{
    if depth == 0 {
        whole.push(u)?;
        return Ok(());
    }
    let Some((first, second)) = decompose(tables, u) else {
        whole.push(u)?;
        return Ok(());
    };
    expand(tables, depth - 1, first, whole)?;
    if second == '\0' {
        return Ok(());
    }
    whole.push(second)?;
    Ok(())
}

/// Whether two texts have the same starters, and for each class that occurs the same starters and characters of that class.
fn has_same_classes(
    alloc: Global,
    tables: &UnicodeTables,
    xs: &[char],
    ys: &[char],
) -> Result<bool, AllocError>
    ensures { IfOk result (λ same. same ≡ has_same_classes (class_of tables.now) xs.now ys.now) }
{
    if !same_beside_starters(alloc, tables, xs, ys, 0)? {
        return Ok(false);
    }
    if !same_for_classes(alloc, tables, xs, xs, ys)? {
        return Ok(false);
    }
    same_for_classes(alloc, tables, ys, xs, ys)
}

/// Whether two texts agree in each class that occurs in a third.
fn same_for_classes(
    alloc: Global,
    tables: &UnicodeTables,
    zs: &[char],
    xs: &[char],
    ys: &[char],
) -> Result<bool, AllocError>
    ensures { IfOk result (λ same. same ≡ list_all
        (λ z. same_beside_starters (class_of tables.now) xs.now ys.now (class_of tables.now z)) zs.now) }
{
    for z in zs {
        if !same_beside_starters(alloc, tables, xs, ys, z.modified_combining_class(tables))? {
            return Ok(false);
        }
    }
    Ok(true)
}

fn same_beside_starters(
    alloc: Global,
    tables: &UnicodeTables,
    xs: &[char],
    ys: &[char],
    class: u8,
) -> Result<bool, AllocError>
    ensures { IfOk result (λ same. same ≡ same_beside_starters (class_of tables.now) xs.now ys.now class) }
{
    let first = beside_starters(alloc, tables, xs, class)?;
    let second = beside_starters(alloc, tables, ys, class)?;
    Ok(same_text(&first, &second))
}

/// The starters and the characters of a class, in order.
fn beside_starters(
    alloc: Global,
    tables: &UnicodeTables,
    xs: &[char],
    class: u8,
) -> Result<Vec<char>, AllocError>
    ensures { IfOk result (λ kept. kept.items ≡ beside_starters (class_of tables.now) class xs.now) }
{
    let mut kept = Vec::new(alloc);
    for x in xs {
        let own = x.modified_combining_class(tables);
        if own == 0 || own == class {
            kept.push(*x)?;
        }
    }
    Ok(kept)
}

fn same_text(xs: &[char], ys: &[char]) -> bool
    ensures { result ≡ same_text xs.now ys.now }
{
    xs == ys
}
