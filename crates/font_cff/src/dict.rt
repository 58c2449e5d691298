//! DICT: operators, each after its operands (TN 5176, 4; OpenType, chapter CFF2).
ghost use Rattle.std.specs.Prelude.{◌≡◌, ◌≤◌, ◌<◌, ◌+◌, ◌*◌, ◌-◌, length, IfOk, Ok, Err};
ghost use Rattle.font_cff.specs.Dict.{no_values, is_dict_number, dict_number, with_value, with_operand, after_operator, begun_real, ends_real, real_step, dict_step, dict_runs, dict_of, start_of};

use font_bytes::fault::TableFault;
use font_bytes::words::{byte, long, need, word};
use font_charstrings::index::Span;

/// The values of a DICT that lead to charstrings and names, 0 where it lacks one.
#[derive(Clone, Copy, PartialEq, Eq, Debug)]
pub struct Dict {
    pub charset: u32,
    pub charstrings: u32,
    pub private_size: u32,
    pub private_at: u32,
    pub subrs: u32,
    /// FDArray
    pub fonts: u32,
    /// FDSelect
    pub selects: u32,
    pub store: u32,
    pub vsindex: u32,
    /// Whether it has ROS: the font is CID-keyed.
    pub is_cid: bool,
}

/// A DICT that is read: its values so far, the next byte, the last two operands, and whether a real number continues.
#[derive(Clone, Copy, PartialEq, Eq, Debug)]
pub struct DictState {
    pub dict: Dict,
    pub at: usize,
    pub last: u32,
    pub before: u32,
    pub is_real: bool,
}

/// A DICT without values.
#[tactic(auto, unfolding(crate::specs::Dict::no_values))]
fn no_values() -> Dict
    ensures { result ≡ no_values }
{
    Dict {
        charset: 0,
        charstrings: 0,
        private_size: 0,
        private_at: 0,
        subrs: 0,
        fonts: 0,
        selects: 0,
        store: 0,
        vsindex: 0,
        is_cid: false,
    }
}

/// Whether a byte begins a whole number.
#[tactic(auto, unfolding(crate::specs::Dict::is_dict_number))]
fn is_dict_number(code: u8) -> bool
    ensures { result ≡ is_dict_number code }
{
    code >= 32 && code <= 254 || code == 28 || code == 29
}

/// The whole number that begins with a byte at an offset, as 32 bits in two's complement, and how many bytes it has.
#[tactic(auto, unfolding(crate::specs::Dict::dict_number))]
fn dict_number(table: &[u8], at: usize, code: u8) -> Result<(u32, usize), TableFault>
    requires { at + 1 ≤ length table.now }
    ensures value { result ≡ dict_number table.now at code }
    ensures within { IfOk result (λ n. at + n.1 ≤ length table.now) }
{
    if code >= 32 && code <= 246 {
        return Ok((((u64::from(code) + 4294967157) % 4294967296) as u32, 1));
    }
    if code >= 247 && code <= 250 {
        need(table, at, 2)?;
        return Ok((
            (u32::from(code) - 247) * 256 + u32::from(byte(table, at + 1)) + 108,
            2,
        ));
    }
    if code >= 251 && code <= 254 {
        need(table, at, 2)?;
        let low = u32::from(byte(table, at + 1));
        return Ok((0xffff_ffff - ((u32::from(code) - 251) * 256 + low + 107), 2));
    }
    if code == 28 {
        need(table, at, 3)?;
        let bits = u32::from(word(table, at + 1));
        if bits < 32768 {
            return Ok((bits, 3));
        }
        return Ok((bits + 4294901760, 3));
    }
    need(table, at, 5)?;
    Ok((long(table, at + 1), 5))
}

/// A DICT with the value of one more operator; of two bytes it is 256 and the second one.
#[tactic(auto, unfolding(crate::specs::Dict::with_value))]
fn with_value(dict: Dict, operator: u16, before: u32, last: u32) -> Dict
    ensures { result ≡ with_value dict operator before last }
{
    if operator == 15 {
        return Dict {
            charset: last,
            ..dict
        };
    }
    if operator == 17 {
        return Dict {
            charstrings: last,
            ..dict
        };
    }
    if operator == 18 {
        return Dict {
            private_size: before,
            private_at: last,
            ..dict
        };
    }
    if operator == 19 {
        return Dict {
            subrs: last,
            ..dict
        };
    }
    if operator == 22 {
        return Dict {
            vsindex: last,
            ..dict
        };
    }
    if operator == 24 {
        return Dict {
            store: last,
            ..dict
        };
    }
    if operator == 286 {
        return Dict {
            is_cid: true,
            ..dict
        };
    }
    if operator == 292 {
        return Dict {
            fonts: last,
            ..dict
        };
    }
    if operator == 293 {
        return Dict {
            selects: last,
            ..dict
        };
    }
    dict
}

/// After an operand.
#[tactic(auto, unfolding(crate::specs::Dict::with_operand))]
fn with_operand(state: DictState, operand: u32, count: usize) -> DictState
    requires { state.at + count < 18446744073709551616 }
    ensures { result ≡ with_operand state operand count }
{
    DictState {
        dict: state.dict,
        at: state.at + count,
        last: operand,
        before: state.last,
        is_real: false,
    }
}

/// After an operator.
#[tactic(auto, unfolding(crate::specs::Dict::after_operator))]
fn after_operator(state: DictState, operator: u16, count: usize) -> DictState
    requires { state.at + count < 18446744073709551616 }
    ensures { result ≡ after_operator state operator count }
{
    DictState {
        dict: with_value(state.dict, operator, state.before, state.last),
        at: state.at + count,
        last: 0,
        before: 0,
        is_real: false,
    }
}

/// Within a real number, whose value isn't read.
#[tactic(auto, unfolding(crate::specs::Dict::begun_real))]
fn begun_real(state: DictState) -> DictState
    requires { state.at + 1 < 18446744073709551616 }
    ensures { result ≡ begun_real state }
{
    DictState {
        dict: state.dict,
        at: state.at + 1,
        last: 0,
        before: state.last,
        is_real: true,
    }
}

/// Whether a byte of a real number has the nibble that ends it.
#[tactic(auto, unfolding(crate::specs::Dict::ends_real))]
fn ends_real(code: u8) -> bool
    ensures { result ≡ ends_real code }
{
    code / 16 == 15 || code % 16 == 15
}

/// After a byte of a real number.
#[tactic(auto, unfolding(crate::specs::Dict::real_step))]
fn real_step(state: DictState, code: u8) -> DictState
    requires { state.at + 1 < 18446744073709551616 }
    ensures { result ≡ real_step state code }
{
    DictState {
        dict: state.dict,
        at: state.at + 1,
        last: state.last,
        before: state.before,
        is_real: !ends_real(code),
    }
}

/// Reads an operand, an operator or a byte of a real number.
#[tactic(auto, unfolding(crate::specs::Dict::dict_step))]
fn dict_step(table: &[u8], state: DictState) -> Result<DictState, TableFault>
    ensures { result ≡ dict_step table.now state }
{
    need(table, state.at, 1)?;
    let code = byte(table, state.at);
    if state.is_real {
        return Ok(real_step(state, code));
    }
    if is_dict_number(code) {
        let (operand, count) = dict_number(table, state.at, code)?;
        return Ok(with_operand(state, operand, count));
    }
    if code == 30 {
        return Ok(begun_real(state));
    }
    if code == 12 {
        need(table, state.at, 2)?;
        let second = byte(table, state.at + 1);
        return Ok(after_operator(state, 256 + u16::from(second), 2));
    }
    if code <= 24 {
        return Ok(after_operator(state, u16::from(code), 1));
    }
    Err(TableFault::Kind(state.at))
}

/// Before the first byte.
#[tactic(auto, unfolding(crate::specs::Dict::start_of))]
fn start_of(at: usize) -> DictState
    ensures { result ≡ start_of at }
{
    DictState {
        dict: no_values(),
        at,
        last: 0,
        before: 0,
        is_real: false,
    }
}

/// The DICT in some bytes.
#[tactic(auto, using(crate::proofs::Dicts::dict_next, crate::proofs::Dicts::dict_full, crate::proofs::Dicts::dict_end), unfolding(crate::specs::Dict::dict_of))]
pub fn read_dict(table: &[u8], span: Span) -> Result<Dict, TableFault>
    ensures { result ≡ dict_of table.now span }
{
    let mut state = start_of(span.at);
    for index in 0..span.end.saturating_sub(span.at) {
        if state.at >= span.end {
            return Ok(state.dict);
        }
        state = dict_step(table, state)?;
    }
    Ok(state.dict)
}
