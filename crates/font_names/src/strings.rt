//! Pascal strings: a byte that counts the bytes of the string after it.
ghost use Rattle.std.specs.Prelude.{◌≡◌, ◌≤◌, ◌<◌, ◌+◌, ◌-◌, ◌^◌, ◌++◌, length, true, IfOk, IfErr, OnOk};
ghost use Rattle.std.specs.List.{flat_map};
ghost use Rattle.std.specs.Prelude.{string_bytes};
ghost use Rattle.std.specs.Str.{IsAscii};
ghost use Rattle.font_bytes.specs.Words.{byte};
ghost use Rattle.font_names.specs.Strings.{has_string, string_at, string_starts, string_in, latin_text};

use font_bytes::fault::TableFault;
use font_bytes::words::{byte, fits};
use std::alloc::Global;

/// Whether a string that begins at an offset ends within the bytes.
#[tactic(auto, unfolding(crate::specs::Strings::has_string))]
fn has_string(bytes: &[u8], at: usize) -> bool
    ensures value { result ≡ has_string bytes.now at }
    ensures within { result ≡ true → at + 1 + byte bytes.now at ≤ length bytes.now }
{
    fits(bytes, at, 1) && fits(bytes, at + 1, usize::from(byte(bytes, at)))
}

/// The string that begins at an offset, empty where it doesn't end within the bytes.
fn string_at(bytes: &[u8], at: usize) -> &[u8]
    ensures { result.now ≡ string_at bytes.entry.now at }
{
    if has_string(bytes, at) {
        &bytes[at + 1..at + 1 + usize::from(bytes[at])]
    } else {
        &[]
    }
}

/// Where strings begin that follow one another from an offset on, n at most, up to the first that doesn't end within
/// the bytes.
#[tactic(auto, using(crate::proofs::Starts::starts_none, crate::proofs::Starts::starts_more, crate::proofs::Starts::starts_end))]
pub fn string_starts(
    alloc: Global,
    bytes: &[u8],
    from: usize,
    count: u32,
) -> Result<Vec<usize>, TableFault>
    ensures ok { IfOk result (λ v. v.items ≡ string_starts bytes.now from count) }
    ensures refused { IfErr result (λ e. e ≡ TableFault.OutOfMemory) }
{
    let mut starts = Vec::new(alloc);
    let mut at = from;
    for index in 0..count {
        if !has_string(bytes, at) {
            return Ok(starts);
        }
        starts.push(at)?;
        at = at + 1 + usize::from(byte(bytes, at));
    }
    Ok(starts)
}

/// The string with an index by the offsets of strings, empty past the last one.
pub fn string_in<'a>(bytes: &'a [u8], starts: &[usize], index: usize) -> &'a [u8]
    ensures { result.now ≡ string_in bytes.entry.now starts.now index }
{
    match starts.get(index).copied() {
        Some(at) => string_at(bytes, at),
        None => &[],
    }
}

/// The text of bytes of ISO 8859-1, character by character.
fn decoded_text(alloc: Global, bytes: &[u8]) -> Result<String, TableFault>
    ensures ok { IfOk result (λ s. string_bytes s ≡ latin_text bytes.now) }
    ensures refused { IfErr result (λ e. e ≡ TableFault.OutOfMemory) }
{
    let mut text = String::with_capacity(alloc, bytes.len())?;
    for byte in bytes {
        text.push(char::from(*byte))?;
    }
    Ok(text)
}

/// The text of bytes of ASCII, which are UTF-8 as they are: no test of it is made again, in fonts of thousands of names.
#[tactic(auto, using(crate::proofs::Latin::plain, crate::proofs::Latin::ascii_is_utf8))]
fn ascii_text(alloc: Global, bytes: &[u8]) -> Result<String, TableFault>
    requires { IsAscii bytes.now }
    ensures ok { IfOk result (λ s. string_bytes s ≡ latin_text bytes.now) }
    ensures refused { IfErr result (λ e. e ≡ TableFault.OutOfMemory) }
{
    let text = unsafe { str::from_utf8_unchecked(bytes) };
    let text = String::from_str(alloc, text)?;
    Ok(text)
}

/// A text of characters of ISO 8859-1, a byte each.
pub fn latin_text(alloc: Global, bytes: &[u8]) -> Result<String, TableFault>
    ensures ok { IfOk result (λ s. string_bytes s ≡ latin_text bytes.now) }
    ensures refused { IfErr result (λ e. e ≡ TableFault.OutOfMemory) }
{
    if bytes.is_ascii() {
        return ascii_text(alloc, bytes);
    }
    decoded_text(alloc, bytes)
}
