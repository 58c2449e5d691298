//! The choice of what is done with a jamo, a syllable or a tone mark, by the next characters and the font
//! (rustybuzz: hb/ot_shaper_hangul.rs).
ghost use Rattle.std.specs.Prelude.{◌≡◌, ◌||◌};
ghost use Rattle.script_hangul.specs.Jamo.{is_leading, is_syllable};
ghost use Rattle.script_hangul.specs.Actions.{action_on, before_trailing, has_letters, joining_action, leading_action, letters_action, split_action, syllable_action, trailing_of};

use crate::jamo::{Letters, is_leading, is_syllable, is_trailing, is_vowel, letters_of, whole_of};
use buffer_unicode_tables::compose_hangul;
use layout_face::Face;

/// The action on the next characters of a text.
#[derive(Clone, Copy)]
pub enum Action {
    /// Keeps the first character; the flag says whether a tone mark may follow it as a syllable.
    Keep(bool),
    /// Keeps that many jamo apart, as one syllable.
    Apart(usize),
    /// Composes that many characters to a syllable.
    Compose(usize, char),
    /// Decomposes a syllable into its jamo; the flag says whether the trailing consonant after it joins them.
    Split(Letters, bool),
}

/// The action on a character, by the next two characters where there are any.
pub fn action_on(face: &Face, u: char, second: Option<char>, third: Option<char>) -> Action
    ensures { result ≡ action_on face.now u second third }
{
    if is_leading(u) {
        return leading_action(face, u, second, trailing_of(third));
    }
    if is_syllable(u) {
        return syllable_action(face, u, trailing_of(second));
    }
    Action::Keep(false)
}

/// Whether a character is a leading consonant or a syllable: any other is kept.
pub(crate) fn begins_syllable(u: char) -> bool
    ensures { result ≡ (is_leading u || is_syllable u) }
{
    is_leading(u) || is_syllable(u)
}

/// The character, if it is a trailing consonant.
fn trailing_of(u: Option<char>) -> Option<char>
    ensures { result ≡ trailing_of u }
{
    match u {
        Some(u) => { if is_trailing(u) { Some(u) } else { None } }
        None => None,
    }
}

/// The action on a leading consonant.
fn leading_action(face: &Face, l: char, second: Option<char>, t: Option<char>) -> Action
    ensures { result ≡ leading_action face.now l second t }
{
    match second {
        Some(v) => {
            if is_vowel(v) {
                letters_action(face, whole_of(l, v, t), if t.is_some() { 3 } else { 2 })
            } else {
                Action::Keep(false)
            }
        }
        None => Action::Keep(false),
    }
}

/// The action on that many jamo, which may compose to a syllable.
fn letters_action(face: &Face, whole: Option<char>, count: usize) -> Action
    ensures { result ≡ letters_action face.now whole count }
{
    match whole {
        Some(u) => {
            if face.has_glyph(u) {
                Action::Compose(count, u)
            } else {
                Action::Apart(count)
            }
        }
        None => Action::Apart(count),
    }
}

/// The action on a syllable, which a trailing consonant may follow.
fn syllable_action(face: &Face, u: char, trailing: Option<char>) -> Action
    ensures { result ≡ syllable_action face.now u trailing }
{
    match trailing {
        Some(t) => joining_action(face, u, compose_hangul(u, t)),
        None => {
            if face.has_glyph(u) {
                Action::Keep(true)
            } else {
                split_action(face, u, false)
            }
        }
    }
}

/// The action on a syllable and a trailing consonant after it, which may compose.
fn joining_action(face: &Face, u: char, whole: Option<char>) -> Action
    ensures { result ≡ joining_action face.now u whole }
{
    match whole {
        Some(whole) => {
            if face.has_glyph(whole) {
                Action::Compose(2, whole)
            } else {
                before_trailing(face, u)
            }
        }
        None => before_trailing(face, u),
    }
}

/// The action on a syllable before a trailing consonant that it doesn't compose with.
fn before_trailing(face: &Face, u: char) -> Action
    ensures { result ≡ before_trailing face.now u }
{
    if !face.has_glyph(u) {
        return split_action(face, u, false);
    }
    match letters_of(u) {
        Some(Letters::Two(_, _)) => split_action(face, u, true),
        Some(Letters::Three(_, _, _)) | None => Action::Keep(true),
    }
}

/// Decomposes a syllable where the font has all its jamo.
fn split_action(face: &Face, u: char, joins: bool) -> Action
    ensures { result ≡ split_action face.now u joins }
{
    match letters_of(u) {
        Some(letters) => {
            if has_letters(face, letters) {
                Action::Split(letters, joins)
            } else {
                Action::Keep(face.has_glyph(u))
            }
        }
        None => Action::Keep(face.has_glyph(u)),
    }
}

fn has_letters(face: &Face, letters: Letters) -> bool
    ensures { result ≡ has_letters face.now letters }
{
    match letters {
        Letters::Two(l, v) => face.has_glyph(l) && face.has_glyph(v),
        Letters::Three(l, v, t) => face.has_glyph(l) && face.has_glyph(v) && face.has_glyph(t),
    }
}
