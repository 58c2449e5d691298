//! The classes of Hangul jamo and syllables (The Unicode Standard, section 3.12; rustybuzz: hb/ot_shaper_hangul.rs).
ghost use Rattle.std.specs.Prelude.{◌≡◌};
ghost use Rattle.script_hangul.specs.Jamo.{is_leading, is_syllable, is_tone, is_trailing, is_vowel, letters_of, whole_of};

use buffer_unicode_tables::{compose_hangul, decompose_hangul};

/// The jamo of a syllable.
#[derive(Clone, Copy)]
pub enum Letters {
    Two(char, char),
    Three(char, char, char),
}

/// Whether it is a leading consonant.
pub fn is_leading(u: char) -> bool
    ensures { result ≡ is_leading u }
{
    matches!(u, '\u{1100}'..='\u{115F}' | '\u{A960}'..='\u{A97C}')
}

/// Whether it is a vowel.
pub fn is_vowel(u: char) -> bool
    ensures { result ≡ is_vowel u }
{
    matches!(u, '\u{1160}'..='\u{11A7}' | '\u{D7B0}'..='\u{D7C6}')
}

/// Whether it is a trailing consonant.
pub fn is_trailing(u: char) -> bool
    ensures { result ≡ is_trailing u }
{
    matches!(u, '\u{11A8}'..='\u{11FF}' | '\u{D7CB}'..='\u{D7FB}')
}

/// Whether it is a precomposed syllable.
pub fn is_syllable(u: char) -> bool
    ensures { result ≡ is_syllable u }
{
    matches!(u, '\u{AC00}'..='\u{D7A3}')
}

/// Whether it is a tone mark.
pub fn is_tone(u: char) -> bool
    ensures { result ≡ is_tone u }
{
    matches!(u, '\u{302E}' | '\u{302F}')
}

/// The syllable of a leading consonant, a vowel and an optional trailing consonant, where they compose (The Unicode
/// Standard, 3.12.2).
pub(crate) fn whole_of(l: char, v: char, t: Option<char>) -> Option<char>
    ensures { result ≡ whole_of l v t }
{
    let syllable = compose_hangul(l, v)?;
    match t {
        Some(t) => compose_hangul(syllable, t),
        None => Some(syllable),
    }
}

/// The jamo of a syllable, none for another character (The Unicode Standard, 3.12.3).
pub fn letters_of(syllable: char) -> Option<Letters>
    ensures { result ≡ letters_of syllable }
{
    let (first, last) = decompose_hangul(syllable)?;
    Some(match decompose_hangul(first) {
        None => Letters::Two(first, last),
        Some((leading, vowel)) => Letters::Three(leading, vowel, last),
    })
}
