//! Numbers at offsets of bytes, the more significant byte first (OpenType, chapter 1, data types).
ghost use Rattle.std.specs.Prelude.{◌≡◌, ◌≤◌, ◌+◌, ◌↔◌, IsTrue, OnOk, length, drop};
ghost use Rattle.font_bytes.specs.Words.{fits, need, byte, word, word_at, triple, long, long_at, signed_word};

use crate::fault::TableFault;
use byteorder::{BigEndian, ByteOrder};

/// Whether the bytes have `count` bytes from an offset on.
pub fn fits(bytes: &[u8], at: usize, count: usize) -> bool
    ensures value { result ≡ fits bytes.now at count }
    ensures within { IsTrue result ↔ (at + count ≤ length bytes.now) }
{
    at <= bytes.len() && count <= bytes.len() - at
}

/// Ok where the bytes have `count` bytes from an offset on.
pub fn need(bytes: &[u8], at: usize, count: usize) -> Result<(), TableFault>
    ensures value { result ≡ need bytes.now at count }
    ensures within { OnOk result (at + count ≤ length bytes.now) }
{
    if fits(bytes, at, count) {
        Ok(())
    } else {
        Err(TableFault::Short(at))
    }
}

/// The bytes from an offset on.
fn rest(bytes: &[u8], at: usize) -> &[u8]
    requires { at ≤ length bytes.now }
    ensures { result.now ≡ drop at bytes.entry.now }
{
    &bytes[at..]
}

/// The uint16 at an offset that has two bytes.
#[tactic(auto, using(crate::proofs::Numbers::word_of_rest))]
pub fn word(bytes: &[u8], at: usize) -> u16
    requires { at + 2 ≤ length bytes.now }
    ensures { result ≡ word bytes.now at }
{
    BigEndian::read_u16(rest(bytes, at))
}

/// The uint16 at an offset, none where the bytes end before it does.
pub fn word_at(bytes: &[u8], at: usize) -> Option<u16>
    ensures { result ≡ word_at bytes.now at }
{
    if fits(bytes, at, 2) {
        Some(word(bytes, at))
    } else {
        None
    }
}

/// The uint8 at an offset that has a byte.
pub fn byte(bytes: &[u8], at: usize) -> u8
    requires { at + 1 ≤ length bytes.now }
    ensures { result ≡ byte bytes.now at }
{
    bytes[at]
}

/// The uint24 at an offset that has three bytes.
#[tactic(auto, unfolding(crate::specs::Words::triple))]
pub fn triple(bytes: &[u8], at: usize) -> u32
    requires { at + 3 ≤ length bytes.now }
    ensures { result ≡ triple bytes.now at }
{
    u32::from(byte(bytes, at)) * 65536 + u32::from(word(bytes, at + 1))
}

/// The int16 at an offset that has two bytes: two's complement.
#[tactic(auto, unfolding(crate::specs::Words::signed_word))]
pub fn signed_word(bytes: &[u8], at: usize) -> i16
    requires { at + 2 ≤ length bytes.now }
    ensures { result ≡ signed_word bytes.now at }
{
    word(bytes, at).cast_signed()
}

/// The uint32 at an offset that has four bytes.
#[tactic(auto, using(crate::proofs::Numbers::long_of_rest))]
pub fn long(bytes: &[u8], at: usize) -> u32
    requires { at + 4 ≤ length bytes.now }
    ensures { result ≡ long bytes.now at }
{
    BigEndian::read_u32(rest(bytes, at))
}

/// The uint32 at an offset, none where the bytes end before it does.
pub fn long_at(bytes: &[u8], at: usize) -> Option<u32>
    ensures { result ≡ long_at bytes.now at }
{
    if fits(bytes, at, 4) {
        Some(long(bytes, at))
    } else {
        None
    }
}
