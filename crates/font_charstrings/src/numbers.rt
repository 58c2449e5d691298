//! Numbers of charstrings (TN 5177, 3.2): 16.16, two's complement.
ghost use Rattle.std.specs.Prelude.{◌≡◌, ◌≤◌, ◌<◌, ◌+◌, ◌*◌, length, IfOk, Ok, Err};
ghost use Rattle.font_charstrings.specs.Numbers.{is_number, number, subr_index, subr_bias};

use font_bytes::fault::TableFault;
use font_bytes::words::{byte, long, need, word};

/// Whether a byte begins a number.
pub fn is_number(code: u8) -> bool
    ensures { result ≡ is_number code }
{
    code >= 32 || code == 28
}

/// The number that begins with a byte at an offset, and how many bytes it has.
#[tactic(auto, unfolding(crate::specs::Numbers::number))]
pub fn number(table: &[u8], at: usize, code: u8) -> Result<(u32, usize), TableFault>
    ensures value { result ≡ number table.now at code }
    ensures within { IfOk result (λ n. at + n.1 ≤ length table.now) }
{
    if code >= 32 && code <= 246 {
        need(table, at, 1)?;
        return Ok(((u32::from(code) + 65397) % 65536 * 65536, 1));
    }
    if code >= 247 && code <= 250 {
        need(table, at, 2)?;
        let low = u32::from(byte(table, at + 1));
        return Ok((((u32::from(code) - 247) * 256 + low + 108) * 65536, 2));
    }
    if code >= 251 && code <= 254 {
        need(table, at, 2)?;
        let low = u32::from(byte(table, at + 1));
        return Ok((
            (65536 - ((u32::from(code) - 251) * 256 + low + 108)) * 65536,
            2,
        ));
    }
    if code == 28 {
        need(table, at, 3)?;
        return Ok((u32::from(word(table, at + 1)) * 65536, 3));
    }
    need(table, at, 5)?;
    Ok((long(table, at + 1), 5))
}

/// What is added to the number of a subroutine.
pub fn subr_bias(count: u32) -> usize
    ensures value { result ≡ subr_bias count }
    ensures small { result ≤ 32768 }
{
    if count < 1240 {
        return 107;
    }
    if count < 33900 {
        return 1131;
    }
    32768
}

/// The index of the subroutine that an operand names.
#[tactic(auto, unfolding(crate::specs::Numbers::subr_index))]
pub fn subr_index(operand: u32, count: u32) -> usize
    ensures { result ≡ subr_index operand count }
{
    (operand as usize / 65536 + subr_bias(count)) % 65536
}
