//! Stable sort of a range, with merges (rustybuzz: hb/buffer.rs, `sort`).
//!
//! `sort` and `sort_by_indices` have the same clauses: the first one answers at once where the keys stand in order, and
//! leaves the case that takes memory to the second one, so that no branches join in a proof.
ghost use Rattle.std.specs.Prelude.{◌≡◌, ◌+◌, ◌-◌, ◌<◌, ◌≤◌, ◌↔◌, ◌++◌, ℕ, Bool, IsTrue, true, take, drop, length, map, vec_len, IfOk, OnOk, OnErr, slice_range};
ghost use Rattle.std.specs.List.{All};
ghost use Rattle.std.specs.List.Sorted.{IsNonDecreasingBy};
ghost use Rattle.buffer_glyphs.specs.declared.info.hb_glyph_info_t.{hb_glyph_info_t as Glyph};
ghost use Rattle.buffer_glyphs.specs.Items.{clusters};
ghost use Rattle.buffer_glyphs.specs.Order.{IsInOrder, IsOrdered};
ghost use Rattle.buffer_rows.specs.KeyOrder.{key_order};
ghost use Rattle.buffer_lists.specs.Due.{MayBeDue, with_due};
ghost use Rattle.buffer_lists.specs.Sorting.{Gives, SpanMerge, glyph_at, keyed_indices_from, put_in_order, range_merged, range_sorted, range_spanned, span_merged};

use crate::due::{Merges, merge_next, no_merges, settle};
use buffer_glyphs::info::hb_glyph_info_t;
use buffer_glyphs::level::BufferClusterLevel;
use std::alloc::{AllocError, Global};

/// Puts the glyphs from `start` up to before `end` in stable order by the keys that they have, and merges each smallest
/// span that the order permutes: one of more than one glyph, between indices before which all came from before them. A range
/// whose keys stand in order takes no memory. Where memory is short for the sort the slice stays as it was.
pub fn sort<F: Fn(&hb_glyph_info_t) -> u32>(
    alloc: Global,
    glyphs: &mut [hb_glyph_info_t],
    level: BufferClusterLevel,
    in_order: bool,
    start: usize,
    end: usize,
    key: F,
) -> Result<Sorted, AllocError>
    requires callable { F.IsAlwaysCallable key }
    requires ordered { start ≤ end }
    requires within { end ≤ length glyphs.old }
    requires known { in_order ≡ true → IsOrdered (clusters glyphs.old) }
    ensures sorted { (k : Glyph → ℕ) → Gives F.Fn key k →
        OnOk result (glyphs.new ≡ (range_sorted level start end k glyphs.old).glyphs) }
    ensures marked { (k : Glyph → ℕ) → Gives F.Fn key k →
        IfOk result (λ s. s.marked ≡ (range_sorted level start end k glyphs.old).is_marked) }
    ensures order { (falls : Bool) →
        IfOk result (λ s. s.in_order ≡ true → IsInOrder falls (clusters glyphs.old) →
        IsInOrder falls (clusters glyphs.new)) }
    ensures err { OnErr result (glyphs.new ≡ glyphs.old) }
{
    if has_keys_in_order(&glyphs[start..end], &key) {
        return Ok(Sorted {
            marked: false,
            in_order: true,
        });
    }
    sort_by_indices(alloc, glyphs, level, in_order, start, end, key)
}

/// Whether no glyph has a lower key than one before it.
fn has_keys_in_order<F: Fn(&hb_glyph_info_t) -> u32>(glyphs: &[hb_glyph_info_t], key: &F) -> bool
    requires { F.IsAlwaysCallable key.now }
    ensures { (k : Glyph → ℕ) → Gives F.Fn key.now k → result ≡ true → IsNonDecreasingBy k glyphs.now }
{
    let mut last = 0;
    for glyph in glyphs {
        let next = key(glyph);
        if next < last {
            return false;
        }
        last = next;
    }
    true
}

/// Sorts a range by the indices that its glyphs are to have. The merges come first, on the glyphs as they stood, so that
/// where all clusters are known to stand in order they take linear time in all; else each compares all glyphs with its span.
fn sort_by_indices<F: Fn(&hb_glyph_info_t) -> u32>(
    alloc: Global,
    glyphs: &mut [hb_glyph_info_t],
    level: BufferClusterLevel,
    in_order: bool,
    start: usize,
    end: usize,
    key: F,
) -> Result<Sorted, AllocError>
    requires callable { F.IsAlwaysCallable key }
    requires ordered { start ≤ end }
    requires within { end ≤ length glyphs.old }
    requires known { in_order ≡ true → IsOrdered (clusters glyphs.old) }
    ensures sorted { (k : Glyph → ℕ) → Gives F.Fn key k →
        OnOk result (glyphs.new ≡ (range_sorted level start end k glyphs.old).glyphs) }
    ensures marked { (k : Glyph → ℕ) → Gives F.Fn key k →
        IfOk result (λ s. s.marked ≡ (range_sorted level start end k glyphs.old).is_marked) }
    ensures order { (falls : Bool) →
        IfOk result (λ s. s.in_order ≡ true → IsInOrder falls (clusters glyphs.old) →
        IsInOrder falls (clusters glyphs.new)) }
    ensures err { OnErr result (glyphs.new ≡ glyphs.old) }
{
    let mut order = keys_with_indices(alloc, &glyphs[start..end], &key)?;
    sort_indices(&mut order)?;
    let mut copy = glyphs[start..end].to_vec(alloc)?;
    let marked = merge_spans(glyphs, level, in_order, start, &order);
    let range = &mut glyphs[start..end];
    copy.copy_from_slice(range);
    let in_order = put_in_order(range, &copy, &order);
    Ok(Sorted { marked, in_order })
}

/// What a sort did to clusters.
#[derive(Clone, Copy)]
pub struct Sorted {
    /// Whether a merge flagged a glyph.
    pub marked: bool,
    /// Whether each index has the cluster that the merges left there: then clusters that were in order still are.
    pub in_order: bool,
}

/// A glyph's key, and its index in a range.
#[derive(Clone, Copy)]
struct KeyedIndex {
    key: u32,
    index: usize,
}

/// The key and the index of each glyph.
fn keys_with_indices<F: Fn(&hb_glyph_info_t) -> u32>(
    alloc: Global,
    glyphs: &[hb_glyph_info_t],
    key: &F,
) -> Result<Vec<KeyedIndex>, AllocError>
    requires { F.IsAlwaysCallable key.now }
    ensures keys { (k : Glyph → ℕ) → Gives F.Fn key.now k → IfOk result (λ v. v.items ≡ keyed_indices_from k 0 glyphs.now) }
    ensures within { IfOk result (λ v. All (λ e. e.index < length glyphs.now) v.items) }
    ensures len { IfOk result (λ v. vec_len v ≡ length glyphs.now) }
{
    let mut indices = Vec::new(alloc);
    for (index, glyph) in glyphs.iter().enumerate() {
        let keyed = KeyedIndex {
            key: key(glyph),
            index,
        };
        indices.push(keyed)?;
    }
    Ok(indices)
}

/// Sorts indices by their keys; those of one key keep their order.
fn sort_indices(indices: &mut Vec<KeyedIndex>) -> Result<(), AllocError>
    ensures sorted { OnOk result (indices.new.items ≡ key_order (λ e. e.key) indices.old.items) }
    ensures len { OnOk result (vec_len indices.new ≡ vec_len indices.old) }
{
    indices.sort_by_key(|keyed| keyed.key)?;
    Ok(())
}

/// Merges the glyphs from `start` up to before `end` where there are several.
#[tactic(auto, using(crate::proofs::Meant::due_later))]
fn merge_span(
    glyphs: &mut [hb_glyph_info_t],
    level: BufferClusterLevel,
    in_order: bool,
    start: usize,
    end: usize,
    merges: Merges,
) -> Merges
    requires ordered { start ≤ end }
    requires within { end ≤ length glyphs.old }
    requires known { in_order ≡ true → IsOrdered (clusters (with_due merges.due glyphs.old)) }
    requires due { MayBeDue level start merges.due glyphs.old }
    ensures merged { record { glyphs = with_due result.due glyphs.new; is_marked = result.marked }
        ≡ span_merged level start end (record { glyphs = with_due merges.due glyphs.old; is_marked = merges.marked }) }
    ensures due { MayBeDue level end result.due glyphs.new }
{
    if end - start < 2 {
        return merges;
    }
    merge_next(glyphs, level, in_order, start, end, merges)
}

/// Merges the spans of a range that begins at `start`; answers whether a glyph was flagged.
fn merge_spans(
    glyphs: &mut [hb_glyph_info_t],
    level: BufferClusterLevel,
    in_order: bool,
    start: usize,
    order: &[KeyedIndex],
) -> bool
    requires within { start + length order.now ≤ length glyphs.old }
    requires known { in_order ≡ true → IsOrdered (clusters glyphs.old) }
    ensures merged { record { glyphs = glyphs.new; is_marked = result }
        ≡ range_spanned level start order.now glyphs.old }
    ensures direction { (falls : Bool) → IsInOrder falls (clusters glyphs.old) → IsInOrder falls (clusters glyphs.new) }
{
    let mut merges = no_merges(glyphs, level, in_order);
    let mut begin = 0;
    let mut reach = 0;
    for index in 0..order.len() {
        reach = reach.max(order[index].index);
        if index < reach {
            continue;
        }
        let end = index + 1;
        merges = merge_span(glyphs, level, in_order, start + begin, start + end, merges);
        begin = end;
    }
    settle(glyphs, merges.due);
    merges.marked
}

/// Permutes a range: each index takes the glyph from the index that the order gives; answers whether each index has the
/// cluster that it had.
fn put_in_order(
    range: &mut [hb_glyph_info_t],
    copy: &[hb_glyph_info_t],
    order: &[KeyedIndex],
) -> bool
    requires long { length order.now ≡ length range.old }
    requires within { All (λ e. e.index < length copy.now) order.now }
    ensures put { range.new ≡ map (λ e. glyph_at copy.now e.index) order.now }
    ensures same { IsTrue result ↔ (clusters range.new ≡ clusters range.old) }
{
    let mut same = true;
    for index in 0..order.len() {
        let glyph = copy[order[index].index];
        same &= range[index].cluster == glyph.cluster;
        range[index] = glyph;
    }
    same
}
