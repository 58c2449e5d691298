//! The characters around a text that count, as UTF-8.
ghost use Rattle.std.specs.Prelude.{◌≡◌, ◌≤◌, ◌<◌, ◌^◌, ◌+◌, drop, length, reverse, string_bytes, take, IfOk};
ghost use Rattle.std.specs.Str.{chars};
ghost use Rattle.c_characters.specs.Characters.{characters_from, characters_of, scalars_of, scalars_from};

use crate::characters::Encoding;
use std::alloc::{AllocError, Global};

/// How many characters on each side of a text count.
const CONTEXT: usize = 5;

/// The units of a text that are left from one of them on.
#[derive(Clone, Copy)]
pub struct Left<'a> {
    /// The index of the first one.
    pub at: usize,
    pub bytes: &'a [u8],
}

/// The first five characters of a text.
#[tactic(auto, using(crate::proofs::Around::first_of))]
pub fn first_characters(
    alloc: Global,
    encoding: Encoding,
    bytes: &[u8],
) -> Result<String, AllocError>
    ensures { IfOk result (λ s. take 5 (chars (string_bytes s)) ≡ take 5 (scalars_of encoding bytes.now)) }
{
    let all = Left { at: 0, bytes };
    characters_at(alloc, encoding, all)
}

/// The last five characters of a text.
#[tactic(auto, using(crate::proofs::Around::last_of))]
pub fn last_characters(
    alloc: Global,
    encoding: Encoding,
    bytes: &[u8],
) -> Result<String, AllocError>
    ensures { IfOk result (λ s. take 5 (reverse (chars (string_bytes s)))
        ≡ take 5 (reverse (scalars_of encoding bytes.now))) }
{
    let count = count_characters(encoding, bytes);
    let last = skip_characters(encoding, bytes, count.saturating_sub(CONTEXT));
    characters_at(alloc, encoding, last)
}

/// How many characters a text has.
#[tactic(auto, using(crate::proofs::Around::count_step, crate::proofs::Around::count_end))]
fn count_characters(encoding: Encoding, bytes: &[u8]) -> usize
    ensures { result ≡ length (characters_of encoding bytes.now) }
{
    let mut count = 0;
    let mut at = 0;
    let mut rest = bytes;
    'characters: while let Some(first) = encoding.first(at, rest) {
        count += 1;
        at = first.after;
        rest = first.rest;
    }
    count
}

/// What is left of a text without its first characters.
#[tactic(auto, using(crate::proofs::Around::skip_step, crate::proofs::Around::skip_all, crate::proofs::Around::skip_end))]
fn skip_characters(encoding: Encoding, bytes: &[u8], skipped: usize) -> Left<'_>
    ensures left { characters_from encoding result.at result.bytes.now ≡ drop skipped (characters_of encoding bytes.now) }
    ensures within { result.at + length result.bytes.now ≤ length bytes.now }
{
    let mut count = skipped;
    let mut at = 0;
    let mut rest = bytes;
    'characters: while let Some(first) = encoding.first(at, rest) {
        if count == 0 {
            return Left { at, bytes: rest };
        }
        count -= 1;
        at = first.after;
        rest = first.rest;
    }
    Left { at, bytes: rest }
}

/// The first five characters from a unit on.
#[tactic(auto, using(crate::proofs::Around::pushed_none, crate::proofs::Around::push_step, crate::proofs::Around::pushed_all, crate::proofs::Around::pushed_end))]
fn characters_at(alloc: Global, encoding: Encoding, left: Left<'_>) -> Result<String, AllocError>
    requires { left.at + length left.bytes.now < 2 ^ 64 }
    ensures { IfOk result (λ s. chars (string_bytes s) ≡ take 5 (scalars_from encoding left.entry.at left.entry.bytes.now)) }
{
    let mut string = String::new(alloc);
    let mut count = CONTEXT;
    let mut at = left.at;
    let mut rest = left.bytes;
    'characters: while let Some(first) = encoding.first(at, rest) {
        if count == 0 {
            return Ok(string);
        }
        string.push(first.character)?;
        count -= 1;
        at = first.after;
        rest = first.rest;
    }
    Ok(string)
}
