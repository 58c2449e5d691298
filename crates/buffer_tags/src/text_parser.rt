//! A parser of short ASCII texts (rustybuzz: hb/text_parser.rs).
ghost use Rattle.std.specs.Prelude.{◌≡◌, ◌≢◌, ◌==◌, ℕ, ◌<◌, ◌≤◌, ◌∷◌, ◌++◌, List, true, false, drop, length, slice_get, slice_index, Some, None, IfSome, IfNone};
ghost use Rattle.std.specs.List.{prefix_len};
ghost use Rattle.std.specs.Char.{is_ascii_whitespace, is_ascii_digit, is_ascii_alphabetic};
ghost use Rattle.buffer_tags.specs.TextParser.{after_spaces, is_quote, is_tag_byte, tag_in, decimal_value, natural_in, integer_in, bool_of_word, bool_in};

use buffer_common::tag::Tag;
use std::marker::Model;

/// Parses a text from its start, byte by byte. A call that finds nothing leaves the text as it was.
#[derive(Drop)]
pub struct TextParser<'a> {
    rest: &'a [u8],
}

impl<'a> Model for TextParser<'a> {
    ghost Value = { List ℕ };

    ghost view = { λ parser. parser.rest.now };
}

impl<'a> TextParser<'a> {
    /// A parser at the start of a text.
    pub fn new(text: &'a str) -> TextParser<'a>
        ensures { result ≡ text.now }
    {
        TextParser {
            rest: text.as_bytes(),
        }
    }

    /// Whether the whole text was parsed.
    pub fn at_end(&self) -> bool
        ensures { result ≡ (length self.now == 0) }
    {
        self.rest.is_empty()
    }

    /// The next byte, none at the end.
    pub fn curr_byte(&self) -> Option<u8>
        ensures { result ≡ slice_get self.now 0 }
    {
        self.rest.first().copied()
    }

    /// Moves on by `count` bytes, or to the end.
    pub fn advance(&mut self, count: usize)
        ensures { self.new ≡ drop count self.old }
    {
        self.rest = self.rest.get(count..).unwrap_or(&[]);
    }

    /// Moves past the given byte, if it is the next; else None.
    pub fn consume_byte(&mut self, byte: u8) -> Option<()>
        ensures found { IfSome result (λ _. self.old ≡ byte ∷ self.new) }
        ensures absent { IfNone result (slice_get self.old 0 ≢ Some byte) }
        ensures kept { IfNone result (self.new ≡ self.old) }
    {
        let (first, rest) = self.rest.split_first()?;
        if *first != byte {
            return None;
        }
        self.rest = rest;
        Some(())
    }

    /// The longest run of bytes that pass the test.
    pub fn consume_bytes<F: Fn(u8) -> bool>(&mut self, test: F) -> &'a [u8]
        requires { F.IsAlwaysCallable test }
        ensures whole { self.old ≡ result.now ++ self.new }
        ensures taken { (k : ℕ) → k < length result.now → F.post test (slice_index result.now k) true }
        ensures stops { IfSome (slice_get self.new 0) (λ byte. F.post test byte false) }
    {
        let len = self
            .rest
            .iter()
            .position(|byte| !test(*byte))
            .unwrap_or(self.rest.len());
        let (run, rest) = self.rest.split_at(len);
        self.rest = rest;
        run
    }

    /// Moves on to the first byte that is no ASCII white space.
    pub fn skip_spaces(&mut self)
        ensures { self.new ≡ after_spaces self.old }
    {
        self.advance(spaces_len(self.rest));
    }

    /// A single or double quote.
    pub fn consume_quote(&mut self) -> Option<u8>
        ensures found { IfSome result (λ quote. (is_quote quote ≡ true) × (self.old ≡ quote ∷ self.new)) }
        ensures absent { IfNone result (IfSome (slice_get self.old 0) (λ byte. is_quote byte ≡ false)) }
        ensures kept { IfNone result (self.new ≡ self.old) }
    {
        let (first, rest) = self.rest.split_first()?;
        if !matches!(*first, b'\'' | b'"') {
            return None;
        }
        self.rest = rest;
        Some(*first)
    }

    /// A tag of one to four letters, digits and underscores, the longest run of them.
    pub fn consume_tag(&mut self) -> Option<Tag>
        ensures found { IfSome result (λ tag. tag_in self.old ≡ Some (tag, self.new)) }
        ensures absent { IfNone result (tag_in self.old ≡ None) }
        ensures kept { IfNone result (self.new ≡ self.old) }
    {
        let len = tag_len(self.rest);
        if len == 0 || len > 4 {
            return None;
        }
        let (name, rest) = self.rest.split_at(len);
        self.rest = rest;
        Some(Tag::from_bytes_lossy(name))
    }

    /// A number with an optional sign, as `-12`, that fits an `i32`.
    pub fn consume_i32(&mut self) -> Option<i32>
        ensures found { IfSome result (λ value. integer_in self.old ≡ Some (value, self.new)) }
        ensures absent { IfNone result (integer_in self.old ≡ None) }
        ensures kept { IfNone result (self.new ≡ self.old) }
    {
        let (value, rest) = integer_at(self.rest)?;
        self.rest = rest;
        Some(value)
    }

    /// A number without a sign that fits a `u32`.
    pub fn consume_u32(&mut self) -> Option<u32>
        ensures found { IfSome result (λ value. natural_in u32.MAX self.old ≡ Some (value, self.new)) }
        ensures absent { IfNone result (natural_in u32.MAX self.old ≡ None) }
        ensures kept { IfNone result (self.new ≡ self.old) }
    {
        let (value, rest) = natural_at(self.rest, u32::MAX)?;
        self.rest = rest;
        Some(value)
    }

    /// The word `on` or `off` in any case, after white space.
    pub fn consume_bool(&mut self) -> Option<bool>
        ensures found { IfSome result (λ value. bool_in self.old ≡ Some (value, self.new)) }
        ensures absent { IfNone result (bool_in self.old ≡ None) }
        ensures kept { IfNone result (self.new ≡ self.old) }
    {
        let text = self.rest.get(spaces_len(self.rest)..).unwrap_or(&[]);
        let (word, rest) = text.split_at(letters_len(text));
        let value = bool_word(word)?;
        self.rest = rest;
        Some(value)
    }
}

fn spaces_len(text: &[u8]) -> usize
    ensures { result ≡ prefix_len is_ascii_whitespace text.now }
{
    text.iter()
        .take_while(|byte| byte.is_ascii_whitespace())
        .count()
}

fn digits_len(text: &[u8]) -> usize
    ensures value { result ≡ prefix_len is_ascii_digit text.now }
    ensures within { result ≤ length text.now }
{
    text.iter().take_while(|byte| byte.is_ascii_digit()).count()
}

fn letters_len(text: &[u8]) -> usize
    ensures value { result ≡ prefix_len is_ascii_alphabetic text.now }
    ensures within { result ≤ length text.now }
{
    text.iter()
        .take_while(|byte| byte.is_ascii_alphabetic())
        .count()
}

fn tag_len(text: &[u8]) -> usize
    ensures value { result ≡ prefix_len is_tag_byte text.now }
    ensures within { result ≤ length text.now }
{
    text.iter()
        .take_while(|byte| byte.is_ascii_alphanumeric() || **byte == b'_')
        .count()
}

fn decimal(digits: &[u8], most: u32) -> Option<u32>
    ensures within { IfSome result (λ value. value ≤ most) }
    ensures value { IfSome result (λ value. decimal_value digits.now ≡ value) }
    ensures above { IfNone result (most < decimal_value digits.now) }
{
    let mut value: u64 = 0;
    for digit in digits {
        value = 10 * value + u64::from(digit.saturating_sub(b'0'));
        if value > u64::from(most) {
            return None;
        }
    }
    Some(value as u32)
}

fn natural_at(text: &[u8], most: u32) -> Option<(u32, &[u8])>
    ensures found { IfSome result (λ found. natural_in most text.now ≡ Some (found.0, found.1.now)) }
    ensures within { IfSome result (λ found. found.0 ≤ most) }
    ensures absent { IfNone result (natural_in most text.now ≡ None) }
{
    let len = digits_len(text);
    if len == 0 {
        return None;
    }
    let (digits, rest) = text.split_at(len);
    let value = decimal(digits, most)?;
    Some((value, rest))
}

fn integer_at(text: &[u8]) -> Option<(i32, &[u8])>
    ensures found { IfSome result (λ found. integer_in text.now ≡ Some (found.0, found.1.now)) }
    ensures absent { IfNone result (integer_in text.now ≡ None) }
{
    match text {
        [] => None,
        [b'-', digits @ ..] => {
            let (value, rest) = natural_at(digits, 1 << 31)?;
            Some((-(value as i64) as i32, rest))
        }
        [b'+', digits @ ..] => {
            let (value, rest) = natural_at(digits, i32::MAX as u32)?;
            Some((value as i32, rest))
        }
        digits => {
            let (value, rest) = natural_at(digits, i32::MAX as u32)?;
            Some((value as i32, rest))
        }
    }
}

fn bool_word(word: &[u8]) -> Option<bool>
    ensures { result ≡ bool_of_word word.now }
{
    match word {
        [b'o' | b'O', b'n' | b'N'] => Some(true),
        [b'o' | b'O', b'f' | b'F', b'f' | b'F'] => Some(false),
        _ => None,
    }
}
