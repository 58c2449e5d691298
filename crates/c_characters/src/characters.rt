//! Characters of code units, one after another.
ghost use Rattle.std.specs.Prelude.{true, ◌≡◌, ◌≤◌, ◌<◌, ◌+◌, ◌^◌, ◌∷◌, [], length, IfSome, MatchOption};
ghost use Rattle.std.specs.Char.Utf16.{is_high_surrogate, is_low_surrogate, surrogate_pair_char, utf16_chars};
ghost use Rattle.c_characters.specs.Characters.{IsLone, characters_from, clustered_characters, encoding_around, scalar_or_replacement, utf16_from, utf32_from};
ghost use Rattle.c_characters.specs.Units.{units_16, units_32};

use crate::units::{split_unit_16, split_unit_32};

/// How the characters of a text that is not in UTF-8 are passed.
#[derive(Clone, Copy)]
pub enum Encoding {
    /// In UTF-16; a cluster is the index of a unit.
    Utf16,
    /// In UTF-32; a cluster is the index of a unit.
    Utf32,
    /// Each as a unit of 32 bits, and the number of its cluster as the next one.
    Characters,
}

/// The first character of a text, and what comes after it.
#[derive(Clone, Copy)]
pub struct First<'a> {
    pub character: char,
    pub cluster: usize,
    /// The index of the next unit.
    pub after: usize,
    pub rest: &'a [u8],
}

impl Encoding {
    /// That of the texts around a text in this encoding.
    pub fn around(self) -> Encoding
        ensures { result ≡ encoding_around self }
    {
        match self {
            Encoding::Utf16 => Encoding::Utf16,
            Encoding::Utf32 | Encoding::Characters => Encoding::Utf32,
        }
    }

    /// The first character of the bytes whose first unit has an index, none where there is none.
    pub fn first(self, at: usize, bytes: &[u8]) -> Option<First<'_>>
        requires { at + length bytes.now < 2 ^ 64 }
        ensures first { MatchOption result (characters_from self at bytes.now ≡ [])
            (λ f. characters_from self at bytes.now
            ≡ (record { character = f.character; cluster = f.cluster }) ∷ characters_from self f.after f.rest.now) }
        ensures shorter { IfSome result (λ f. length f.rest.now < length bytes.now) }
        ensures within { IfSome result (λ f. f.after + length f.rest.now ≤ at + length bytes.now) }
    {
        match self {
            Encoding::Utf16 => first_utf16(at, bytes),
            Encoding::Utf32 => first_utf32(at, bytes),
            Encoding::Characters => first_clustered(at, bytes),
        }
    }
}

fn is_high_surrogate(unit: u16) -> bool
    ensures { result ≡ is_high_surrogate unit }
{
    0xD800 <= unit && unit < 0xDC00
}

fn is_low_surrogate(unit: u16) -> bool
    ensures { result ≡ is_low_surrogate unit }
{
    0xDC00 <= unit && unit < 0xE000
}

/// The scalar value of a unit, else U+FFFD.
fn scalar_or_replacement(unit: u32) -> char
    ensures { result ≡ scalar_or_replacement unit }
{
    match char::from_u32(unit) {
        Some(c) => c,
        None => char::REPLACEMENT_CHARACTER,
    }
}

/// The character of a surrogate pair (Unicode, 3.9 D91, table 3-5).
#[tactic(auto, using(crate::proofs::Utf16::pair_is_scalar))]
fn pair_character(high: u16, low: u16) -> char
    requires high { is_high_surrogate high ≡ true }
    requires low { is_low_surrogate low ≡ true }
    ensures { result ≡ surrogate_pair_char high low }
{
    scalar_or_replacement(pair_code(high, low))
}

fn pair_code(high: u16, low: u16) -> u32
    ensures { result ≡ surrogate_pair_char high low }
{
    0x1_0000
        + u32::from(high).saturating_sub(0xD800) * 0x400
        + u32::from(low).saturating_sub(0xDC00)
}

/// The low surrogate that a unit makes a pair with, and the bytes after it; none where the unit is in no pair.
#[tactic(auto, using(crate::proofs::Utf16::last_is_lone, crate::proofs::Utf16::not_high_is_lone, crate::proofs::Utf16::not_low_is_lone))]
fn partner(unit: u16, rest: &[u8]) -> Option<(u16, &[u8])>
    ensures pair { MatchOption result (IsLone unit (units_16 rest.now))
        (λ cut. (units_16 rest.now ≡ cut.0 ∷ units_16 cut.1.now)) }
    ensures high { IfSome result (λ cut. is_high_surrogate unit ≡ true) }
    ensures low { IfSome result (λ cut. is_low_surrogate cut.0 ≡ true) }
    ensures shorter { IfSome result (λ cut. length cut.1.now < length rest.now) }
{
    if !is_high_surrogate(unit) {
        return None;
    }
    let (low, after) = split_unit_16(rest)?;
    if !is_low_surrogate(low) {
        return None;
    }
    Some((low, after))
}

/// The first character of UTF-16.
#[tactic(auto, using(crate::proofs::Utf16::no_characters, crate::proofs::Utf16::pair_step, crate::proofs::Utf16::lone_step))]
fn first_utf16(at: usize, bytes: &[u8]) -> Option<First<'_>>
    requires { at + length bytes.now < 2 ^ 64 }
    ensures first { MatchOption result (utf16_from at (utf16_chars (units_16 bytes.now)) ≡ [])
        (λ f. utf16_from at (utf16_chars (units_16 bytes.now))
        ≡ (record { character = f.character; cluster = f.cluster }) ∷ utf16_from f.after (utf16_chars (units_16 f.rest.now))) }
    ensures shorter { IfSome result (λ f. length f.rest.now < length bytes.now) }
    ensures within { IfSome result (λ f. f.after + length f.rest.now ≤ at + length bytes.now) }
{
    let (unit, rest) = split_unit_16(bytes)?;
    match partner(unit, rest) {
        Some((low, after)) => Some(First {
            character: pair_character(unit, low),
            cluster: at,
            after: at + 2,
            rest: after,
        }),
        None => Some(First {
            character: scalar_or_replacement(u32::from(unit)),
            cluster: at,
            after: at + 1,
            rest,
        }),
    }
}

/// The first character of UTF-32.
#[tactic(auto, using(crate::proofs::Utf32::no_characters, crate::proofs::Utf32::character_step))]
fn first_utf32(at: usize, bytes: &[u8]) -> Option<First<'_>>
    requires { at + length bytes.now < 2 ^ 64 }
    ensures first { MatchOption result (utf32_from at (units_32 bytes.now) ≡ [])
        (λ f. utf32_from at (units_32 bytes.now)
        ≡ (record { character = f.character; cluster = f.cluster }) ∷ utf32_from f.after (units_32 f.rest.now)) }
    ensures shorter { IfSome result (λ f. length f.rest.now < length bytes.now) }
    ensures within { IfSome result (λ f. f.after + length f.rest.now ≤ at + length bytes.now) }
{
    let (unit, rest) = split_unit_32(bytes)?;
    Some(First {
        character: scalar_or_replacement(unit),
        cluster: at,
        after: at + 1,
        rest,
    })
}

/// The first character that has its cluster's number after it.
#[tactic(auto, using(crate::proofs::Utf32::no_pairs, crate::proofs::Utf32::half_a_pair, crate::proofs::Utf32::clustered_step))]
fn first_clustered(at: usize, bytes: &[u8]) -> Option<First<'_>>
    requires { at + length bytes.now < 2 ^ 64 }
    ensures first { MatchOption result (clustered_characters (units_32 bytes.now) ≡ [])
        (λ f. clustered_characters (units_32 bytes.now)
        ≡ (record { character = f.character; cluster = f.cluster }) ∷ clustered_characters (units_32 f.rest.now)) }
    ensures shorter { IfSome result (λ f. length f.rest.now < length bytes.now) }
    ensures within { IfSome result (λ f. f.after + length f.rest.now ≤ at + length bytes.now) }
{
    let (unit, after) = split_unit_32(bytes)?;
    let (cluster, rest) = split_unit_32(after)?;
    Some(First {
        character: scalar_or_replacement(unit),
        cluster: cluster as usize,
        after: at + 1,
        rest,
    })
}
