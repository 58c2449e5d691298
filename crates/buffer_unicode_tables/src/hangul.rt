//! Hangul syllables, which compose and decompose by arithmetic (The Unicode Standard, section 3.12; rustybuzz:
//! hb/unicode.rs, `compose_hangul`, `decompose_hangul`).
ghost use Rattle.std.specs.Prelude.{◌≡◌, ◌<◌, ◌+◌, ◌^◌};
ghost use Rattle.buffer_unicode_tables.specs.Hangul.{is_among, hangul_split, hangul_pair, HangulPairsAreSplits};

/// The first Hangul syllable.
pub const S_BASE: u32 = 0xAC00;

/// The first leading consonant.
pub const L_BASE: u32 = 0x1100;

/// The first vowel.
pub const V_BASE: u32 = 0x1161;
/// One before the first trailing consonant: it means no trailing consonant.
pub const T_BASE: u32 = 0x11A7;

/// How many leading consonants there are.
pub const L_COUNT: u32 = 19;

/// How many vowels there are.
pub const V_COUNT: u32 = 21;

/// How many trailing consonants there are, none included.
pub const T_COUNT: u32 = 28;

/// How many syllables a leading consonant has.
pub const N_COUNT: u32 = V_COUNT * T_COUNT;

/// How many Hangul syllables there are.
pub const S_COUNT: u32 = L_COUNT * N_COUNT;

/// Composes a syllable of a leading consonant and a vowel, or of such a syllable and a trailing consonant.
#[tactic(auto, unfolding(crate::specs::Hangul::hangul_pair))]
pub fn compose_hangul(a: char, b: char) -> Option<char>
    ensures { result ≡ hangul_pair a b }
{
    let (first, second) = (a as u32, b as u32);
    if is_among(L_BASE, L_COUNT, first) && is_among(V_BASE, V_COUNT, second) {
        let index = (first - L_BASE) * N_COUNT + (second - V_BASE) * T_COUNT;
        return Some(below_surrogates(S_BASE + index));
    }
    if is_among(S_BASE, S_COUNT, first)
        && (first - S_BASE) % T_COUNT == 0
        && is_among(T_BASE + 1, T_COUNT - 1, second)
    {
        return Some(below_surrogates(first + (second - T_BASE)));
    }
    None
}

/// Decomposes a syllable into two halves: a syllable without a trailing consonant and that consonant, or a leading
/// consonant and a vowel.
#[tactic(auto, unfolding(crate::specs::Hangul::hangul_split))]
pub fn decompose_hangul(ab: char) -> Option<(char, char)>
    ensures { result ≡ hangul_split ab }
{
    let syllable = ab as u32;
    if !is_among(S_BASE, S_COUNT, syllable) {
        return None;
    }
    let index = syllable - S_BASE;
    let trailing = index % T_COUNT;
    if trailing == 0 {
        let leading = below_surrogates(L_BASE + index / N_COUNT);
        let vowel = below_surrogates(V_BASE + index % N_COUNT / T_COUNT);
        return Some((leading, vowel));
    }
    Some((
        below_surrogates(syllable - trailing),
        below_surrogates(T_BASE + trailing),
    ))
}

fn is_among(base: u32, count: u32, c: u32) -> bool
    requires { base + count < 2 ^ 32 }
    ensures { result ≡ is_among base count c }
{
    base <= c && c < base + count
}

pub(crate) fn below_surrogates(code: u32) -> char
    requires { code < 0xD800 }
    ensures { result ≡ code }
{
    char::from_u32(code).unwrap()
}

/// A syllable is the composite of exactly the two halves of its decomposition.

#[tactic(auto, using(crate::proofs::Syllables::hangul_pairs_are_splits))]
pub fn law_hangul_pairs_are_splits()
    ensures { HangulPairsAreSplits }
{}
