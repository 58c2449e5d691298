//! Carets inside of clusters.
ghost use Rattle.std.specs.Prelude.{◌≡◌, ◌≤◌, ◌<◌, ◌+◌, ◌-ℤ◌, ◌++◌, ◌↔◌, IfOk, IsTrue, OnOk, length, slice_get, Some};
ghost use Rattle.std.specs.Int.RustNames.{unsigned_abs};
ghost use Rattle.std.specs.List.Sorted.{IsNonDecreasing};
ghost use Rattle.caret_model.specs.Stops.{AreStops, carets_between, distance_of, divided_caret, given_caret, given_carets, in_text_order, inner_carets, moved_towards, own_carets, position_within, steps_length, stops_between, with_stops};
ghost use Rattle.caret_model.specs.Parted.{IsStart};

use crate::carets::Caret;
use crate::ligatures::run_carets;
use font_carets::{LigatureCarets, SortedRows};
use kuspveli::GlyphInfo;
use kuspveli::hb_shape::SourceSlice;
use std::alloc::{AllocError, Global};

/// Whether stops rise from after byte 0, and none is past the end of the text.
pub(crate) fn are_stops(end: usize, stops: &[usize]) -> bool
    ensures { IsTrue result ↔ AreStops end 0 stops.now }
{
    let mut last = 0;
    for stop in stops {
        if !is_stop(end, last, *stop) {
            return false;
        }
        last = *stop;
    }
    true
}

/// Whether a stop is after the last one, and not past the end of the text.
fn is_stop(end: usize, last: usize, stop: usize) -> bool
    ensures { IsTrue result ↔ (last < stop × stop ≤ end) }
{
    last < stop && stop <= end
}

/// The carets of a line, which come from left to right, in the order of the text, with those at stops inside of clusters, by
/// ligatures of a font and the glyphs and runs of the line.
#[tactic(auto, using(crate::proofs::Stopped::none_stopped, crate::proofs::Stopped::first_stopped, crate::proofs::Stopped::next_stopped, crate::proofs::Stopped::all_stopped))]
pub(crate) fn with_stops(
    alloc: Global,
    carets: &[Caret],
    backward: bool,
    ligatures: &SortedRows<LigatureCarets>,
    glyphs: &[GlyphInfo],
    slices: &[SourceSlice],
    stops: &[usize],
) -> Result<Vec<Caret>, AllocError>
    requires { IsNonDecreasing stops.now }
    ensures { IfOk result (λ found. found.items ≡ with_stops backward
        (own_carets ligatures.now glyphs.now slices.now backward) stops.now (in_text_order backward carets.now)) }
{
    let mut found = Vec::new(alloc);
    if carets.is_empty() {
        return Ok(found);
    }
    let mut last = text_item(carets, backward, 0);
    found.push(last)?;
    for i in 1..carets.len() {
        let next = text_item(carets, backward, i);
        let own = run_carets(ligatures, glyphs, text_slice(slices, backward, i - 1));
        push_inner(&mut found, (last, next), backward, own, stops)?;
        found.push(next)?;
        last = next;
    }
    Ok(found)
}

/// An item by its index in the order of the text.
#[tactic(auto, using(crate::proofs::TextOrder::forward_item, crate::proofs::TextOrder::backward_item))]
fn text_item<T: Copy>(items: &[T], backward: bool, i: usize) -> T
    requires { i < length items.now }
    ensures { slice_get (in_text_order backward items.now) i ≡ Some result }
{
    if backward {
        return items[items.len() - 1 - i];
    }
    items[i]
}

/// A run by its index in the order of the text, none past the last one.
#[tactic(auto, using(crate::proofs::TextOrder::none_past))]
fn text_slice(slices: &[SourceSlice], backward: bool, i: usize) -> Option<SourceSlice>
    ensures { result ≡ slice_get (in_text_order backward slices.now) i }
{
    if i >= slices.len() {
        return None;
    }
    Some(text_item(slices, backward, i))
}

/// Appends the carets at the stops between two carets of the text, by the coordinates that the font gives from left to right.
fn push_inner(
    found: &mut Vec<Caret>,
    ends: (Caret, Caret),
    backward: bool,
    own: &[i16],
    stops: &[usize],
) -> Result<(), AllocError>
    requires { IsNonDecreasing stops.now }
    ensures { OnOk result (found.new.items ≡ found.old.items
        ++ inner_carets backward own.now ends.0 ends.1 (stops_between stops.now ends.0.byte ends.1.byte)) }
{
    let between = stops_between(stops, ends.0.byte, ends.1.byte);
    if own.len() == between.len() {
        push_given(found, ends, backward, own, between)
    } else {
        push_divided(found, ends.0, ends.1, between)
    }
}

/// The stops between two bytes.
fn stops_between(stops: &[usize], first: usize, last: usize) -> &[usize]
    requires { IsNonDecreasing stops.now }
    ensures { result.now ≡ stops_between stops.entry.now first last }
{
    if last <= first {
        return &[];
    }
    let from = first_from(stops, first + 1);
    let to = first_from(stops, last);
    if to <= from {
        return &[];
    }
    &stops[from..to]
}

/// The index of the first stop at a byte or after it.
fn first_from(stops: &[usize], byte: usize) -> usize
    requires { IsNonDecreasing stops.now }
    ensures { IsStart stops.now byte result }
{
    stops.partition_point(|stop| *stop < byte)
}

/// Appends the carets at all these stops, which are between two carets.
fn push_divided(
    found: &mut Vec<Caret>,
    first: Caret,
    last: Caret,
    stops: &[usize],
) -> Result<(), AllocError>
    ensures { OnOk result (found.new.items ≡ found.old.items ++ carets_between first last stops.now) }
{
    // a list of 2^64 - 1 is in no memory
    let Some(steps) = stops.len().checked_add(1) else {
        return Err(AllocError);
    };
    for k in 0..stops.len() {
        found.push(divided_caret(first, last, steps, k + 1, stops[k]))?;
    }
    Ok(())
}

/// The caret at a stop that is one of some steps from a caret to the next one.
fn divided_caret(first: Caret, last: Caret, steps: usize, step: usize, stop: usize) -> Caret
    requires some { 0 < steps }
    requires within { step ≤ steps }
    ensures { result ≡ divided_caret first last steps step stop }
{
    let distance = last.position.abs_diff(first.position);
    let by = steps_length(distance, steps as u64, step as u64);
    Caret {
        byte: stop,
        position: moved_towards(first.position, last.position, by),
    }
}

/// Appends the carets at all these stops, which are between two carets of the text, by as many coordinates.
fn push_given(
    found: &mut Vec<Caret>,
    ends: (Caret, Caret),
    backward: bool,
    own: &[i16],
    stops: &[usize],
) -> Result<(), AllocError>
    requires { length own.now ≡ length stops.now }
    ensures { OnOk result (found.new.items ≡ found.old.items
        ++ given_carets backward ends.0 ends.1 stops.now (in_text_order backward own.now)) }
{
    for k in 0..stops.len() {
        let coordinate = coordinate_at(own, backward, k);
        found.push(given_caret(backward, ends, coordinate, stops[k]))?;
    }
    Ok(())
}

/// A coordinate by its index in the order of the text.
#[tactic(auto, using(crate::proofs::TextOrder::forward_item, crate::proofs::TextOrder::backward_item))]
fn coordinate_at(own: &[i16], backward: bool, i: usize) -> i16
    requires { i < length own.now }
    ensures { slice_get (in_text_order backward own.now) i ≡ Some result }
{
    if backward {
        return own[own.len() - 1 - i];
    }
    own[i]
}

/// The caret at a stop between two carets of the text, by a coordinate from the left one of them.
fn given_caret(backward: bool, ends: (Caret, Caret), coordinate: i16, stop: usize) -> Caret
    ensures { result ≡ given_caret backward ends.0 ends.1 coordinate stop }
{
    let (first, last) = (ends.0.position, ends.1.position);
    let position = if backward {
        position_within(last, first, coordinate)
    } else {
        position_within(first, last, coordinate)
    };
    Caret {
        byte: stop,
        position,
    }
}

/// A position that is so far from one edge of a cluster, up to the other edge.
fn position_within(left: i64, right: i64, coordinate: i16) -> i64
    ensures { result ≡ position_within left right coordinate }
{
    let by = distance_of(coordinate).min(right.abs_diff(left));
    moved_towards(left, right, by)
}

/// How far a coordinate is from the left edge of a cluster.
fn distance_of(coordinate: i16) -> u64
    ensures { result ≡ distance_of coordinate }
{
    if coordinate < 0 {
        return 0;
    }
    u64::from(coordinate.unsigned_abs())
}

/// How far some of the steps lead that divide a distance evenly.
#[tactic(auto, using(crate::proofs::Divided::steps_within, crate::proofs::Divided::even_within))]
fn steps_length(distance: u64, steps: u64, step: u64) -> u64
    requires some { 0 < steps }
    requires within { step ≤ steps }
    ensures length { result ≡ steps_length distance steps step }
    ensures within { result ≤ distance }
{
    distance / steps * step + step.min(distance % steps)
}

/// A position that is moved towards another one, which is no nearer.
fn moved_towards(from: i64, to: i64, by: u64) -> i64
    requires { by ≤ unsigned_abs (to -ℤ from) }
    ensures { result ≡ moved_towards from to by }
{
    if to < from {
        return (i128::from(from) - i128::from(by)) as i64;
    }
    (i128::from(from) + i128::from(by)) as i64
}
