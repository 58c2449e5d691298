//! Carets near bytes and positions, on lists of carets.
ghost use Rattle.std.specs.Prelude.{◌≡◌, ◌<◌, IfSome, length, slice_get};
ghost use Rattle.std.specs.List.{IsFirstBest};
ghost use Rattle.caret_model.specs.Moves.{IsClosest, distance, index_at, is_nearer};
ghost use Rattle.caret_model.specs.Closer.{is_closer, is_past};

use crate::carets::Caret;

/// The caret at an index, if there is one.
pub(crate) fn get(carets: &[Caret], i: usize) -> Option<Caret>
    ensures { result ≡ slice_get carets.now i }
{
    carets.get(i).copied()
}

/// The index of the caret at a byte.
pub(crate) fn index_at(carets: &[Caret], byte: usize) -> Option<usize>
    ensures index { result ≡ index_at carets.now byte }
    ensures within { IfSome result (λ i. i < length carets.now) }
{
    carets.iter().position(|caret| caret.byte == byte)
}

/// The first caret after a byte in the order of the text, or where `back` the last one before it.
pub(crate) fn closest(carets: &[Caret], byte: usize, back: bool) -> Option<Caret>
    ensures { IsClosest back byte carets.now result }
{
    let mut best = None;
    for caret in carets {
        if is_closer(back, byte, best, *caret) {
            best = Some(*caret);
        }
    }
    best
}

/// Whether a caret is past a byte, and the best one so far is past it.
fn is_closer(back: bool, byte: usize, best: Option<Caret>, caret: Caret) -> bool
    ensures { result ≡ is_closer back byte best caret }
{
    match best {
        None => is_past(back, byte, caret.byte),
        Some(old) => is_past(back, byte, caret.byte) && is_past(back, caret.byte, old.byte),
    }
}

/// Whether a byte is after another one, or where `back` before it.
fn is_past(back: bool, byte: usize, other: usize) -> bool
    ensures { result ≡ is_past back byte other }
{
    if back { other < byte } else { byte < other }
}

/// The index of the nearest caret to a position, of several the first.
pub(crate) fn nearest(carets: &[Caret], position: i64) -> usize
    requires { 0 < length carets.now }
    ensures { IsFirstBest (is_nearer position) carets.now (length carets.now) result }
{
    let mut best = 0;
    for i in 1..carets.len() {
        if distance(position, carets[i]) < distance(position, carets[best]) {
            best = i;
        }
    }
    best
}

/// How far a caret is from a position.
fn distance(position: i64, caret: Caret) -> u64
    ensures { result ≡ distance position caret }
{
    caret.position.abs_diff(position)
}
