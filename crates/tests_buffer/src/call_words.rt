//! The calls of a buffer as words, so that lines of text can list them: a name and arguments, with spaces between. The end
//! of a range that is not given is a hyphen.

use crate::call::Call;
use buffer_common::constants::BufferFlags;
use buffer_glyphs::level::BufferClusterLevel;

/// The numbers of glyphs that replace others.
static NUMBERS: [u32; 10] = [0, 1, 2, 3, 4, 5, 6, 7, 8, 9];

/// An argument, 0 where it is no number.
fn number(words: &str, at: usize) -> u32 {
    end(words, at)
        .and_then(|found| u32::try_from(found).ok())
        .unwrap_or(0)
}

fn index(words: &str, at: usize) -> usize {
    end(words, at).unwrap_or(0)
}

/// An end of a range, none where it is no number.
fn end(words: &str, at: usize) -> Option<usize> {
    words.split_whitespace().nth(at)?.parse().ok()
}

fn level(words: &str) -> BufferClusterLevel {
    match words {
        "0" => BufferClusterLevel::MonotoneGraphemes,
        "1" => BufferClusterLevel::MonotoneCharacters,
        "2" => BufferClusterLevel::Characters,
        _ => BufferClusterLevel::Graphemes,
    }
}

/// That many numbers, from the first one on.
fn numbers(first: usize, count: usize) -> &'static [u32] {
    NUMBERS
        .get(first..first.saturating_add(count))
        .unwrap_or(&[])
}

/// A character and its cluster.
fn added(words: &str) -> Option<Call> {
    let (character, cluster) = words.split_once(' ')?;
    Some(Call::Add(character.chars().next()?, cluster.parse().ok()?))
}

/// The call of words, none where no call has the name.
pub fn call_of(words: &'static str) -> Option<Call> {
    let (name, words) = words.split_once(' ').unwrap_or((words, ""));
    setting(name, words)
        .or_else(|| on_range(name, words))
        .or_else(|| on_list(name, words))
        .or_else(|| on_output(name, words))
        .or_else(|| writing(name, words))
}

/// Calls that set something, or move the cursor.
fn setting(name: &str, words: &str) -> Option<Call> {
    Some(match name {
        "request" => Call::Ask(BufferFlags(number(words, 0))),
        "level" => Call::Level(level(words)),
        "limit" => Call::Limit(index(words, 0)),
        "clear" => Call::Clear,
        "shrink" => Call::Shrink,
        "reset-masks" => Call::ResetMasks(number(words, 0)),
        "set-masks" => Call::SetMasks(
            number(words, 0),
            number(words, 1),
            number(words, 2),
            number(words, 3),
        ),
        "next" => Call::Next,
        "next-many" => Call::NextMany(index(words, 0)),
        "move-to" => Call::MoveTo(index(words, 0)),
        _ => return None,
    })
}

/// Calls on a range of the input.
fn on_range(name: &str, words: &str) -> Option<Call> {
    let (start, end) = (end(words, 0), end(words, 1));
    Some(match name {
        "merge" => Call::Merge(start?, end?),
        "merge-grapheme" => Call::MergeGrapheme(start?, end?),
        "break" => Call::UnsafeToBreak(start, end),
        "break-strictly" => Call::StrictBreak(start, end),
        "break-across" => Call::BreakAcross(start, end),
        "concat" => Call::Concat(start, end),
        "concat-across" => Call::ConcatAcross(start, end),
        "tatweel" => Call::Tatweel(start, end),
        _ => return None,
    })
}

/// Calls with no output open.
fn on_list(name: &str, words: &'static str) -> Option<Call> {
    Some(match name {
        "open" => Call::Open,
        "add" => return added(words),
        "push" => Call::Push(words),
        "set-len" => Call::SetLen(index(words, 0)),
        "sort" => Call::Sort(index(words, 0), index(words, 1)),
        "delete-in-place" => Call::DeleteInPlace(number(words, 0)),
        "reset-clusters" => Call::ResetClusters,
        "reverse" => Call::Reverse,
        "reverse-clusters" => Call::ReverseClusters,
        "reverse-merged" => Call::ReverseMerged,
        "reverse-range" => Call::ReverseRange(index(words, 0), index(words, 1)),
        "spread" => Call::Spread,
        _ => return None,
    })
}

/// Calls with an output open.
fn on_output(name: &str, words: &str) -> Option<Call> {
    Some(match name {
        "sync" => Call::Sync,
        "output" => Call::Output(number(words, 0)),
        "put" => Call::Put(number(words, 0)),
        "replace" => Call::Replace(number(words, 0)),
        "replace-many" => {
            Call::ReplaceMany(index(words, 0), numbers(index(words, 1), index(words, 2)))
        }
        "skip" => Call::Skip,
        "delete" => Call::Delete,
        "merge-output" => Call::MergeOut(index(words, 0), index(words, 1)),
        "merge-output-grapheme" => Call::MergeOutGrapheme(index(words, 0), index(words, 1)),
        "rotate" => Call::Rotate(index(words, 0), index(words, 1), index(words, 2)),
        _ => return None,
    })
}

/// Calls that write a glyph.
fn writing(name: &str, words: &str) -> Option<Call> {
    Some(match name {
        "recast" => Call::Recast(number(words, 0), number(words, 1)),
        "write-cluster" => Call::WriteCluster(index(words, 0), number(words, 1)),
        "write-current" => Call::WriteCurrent(number(words, 0)),
        "write-current-mask" => Call::WriteCurrentMask(number(words, 0)),
        "write-first" => Call::WriteFirst(number(words, 0)),
        "write-last" => Call::WriteLast(number(words, 0)),
        _ => return None,
    })
}
