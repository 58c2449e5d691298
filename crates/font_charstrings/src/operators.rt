//! Operators of charstrings (TN 5177, 4; OpenType, chapter CFF2) but for calls.
ghost use Rattle.std.specs.Prelude.{◌≡◌, ◌≢◌, ◌≤◌, ◌<◌, ◌+◌, ◌*◌, ◌-◌, length, IfOk, IfErr, Ok, Err};
ghost use Rattle.font_bytes.specs.declared.fault.TableFault.{TableFault};
ghost use Rattle.font_charstrings.specs.Operators.{after_bytes, with_pen, with_stems, with_regions, top_operand, number_pushed, path_drawn, flex_drawn, stems_of, stems_hinted, mask_bytes, mask_passed, magnitude, is_negative, has_same_sign, quotient_bits, after_div, after_blend, regions_at, regions_chosen, after_escape};

use crate::numbers::number;
use crate::paths::{pen_after_flex, pen_after_path};
use crate::pen::Pen;
use font_bytes::fault::TableFault;
use font_bytes::words::{byte, long, need, word};

/// The greatest number of operands (CFF2; CFF itself has 48, and readers don't count).
const MOST_OPERANDS: usize = 513;

/// A charstring that is run: its pen, its next byte and where it ends, the stem hints so far, the regions of a blend.
#[derive(Clone, Copy, PartialEq, Eq, Debug)]
pub struct Run {
    pub pen: Pen,
    pub at: usize,
    pub end: usize,
    pub stems: u16,
    pub regions: u16,
    pub is_done: bool,
}

/// Some bytes further on.
#[inline(always)]
#[tactic(auto, unfolding(crate::specs::Operators::after_bytes))]
pub fn after_bytes(run: Run, count: usize) -> Run
    requires { run.at + count < 18446744073709551616 }
    ensures { result ≡ after_bytes run count }
{
    Run {
        pen: run.pen,
        at: run.at + count,
        end: run.end,
        stems: run.stems,
        regions: run.regions,
        is_done: run.is_done,
    }
}

/// With another pen.
#[inline(always)]
#[tactic(auto, unfolding(crate::specs::Operators::with_pen))]
fn with_pen(run: Run, pen: Pen) -> Run
    ensures { result ≡ with_pen run pen }
{
    Run {
        pen,
        at: run.at,
        end: run.end,
        stems: run.stems,
        regions: run.regions,
        is_done: run.is_done,
    }
}

/// With another number of stem hints.
#[tactic(auto, unfolding(crate::specs::Operators::with_stems))]
fn with_stems(run: Run, stems: u16) -> Run
    ensures { result ≡ with_stems run stems }
{
    Run {
        pen: run.pen,
        at: run.at,
        end: run.end,
        stems,
        regions: run.regions,
        is_done: run.is_done,
    }
}

/// With another number of regions.
#[tactic(auto, unfolding(crate::specs::Operators::with_regions))]
fn with_regions(run: Run, regions: u16) -> Run
    ensures { result ≡ with_regions run regions }
{
    Run {
        pen: run.pen,
        at: run.at,
        end: run.end,
        stems: run.stems,
        regions,
        is_done: run.is_done,
    }
}

/// Takes the topmost operand for the operator at an offset.
#[tactic(auto, unfolding(crate::specs::Operators::top_operand))]
pub fn pop_operand(stack: &mut Vec<u32>, at: usize) -> Result<u32, TableFault>
    ensures ok { IfOk result (λ v. top_operand at stack.old.items ≡ Ok (v, stack.new.items)) }
    ensures refused { IfErr result (λ e. top_operand at stack.old.items ≡ Err e) }
{
    match stack.pop() {
        Some(operand) => Ok(operand),
        None => Err(TableFault::Kind(at)),
    }
}

/// Pushes the number that begins with a byte.
#[tactic(auto, unfolding(crate::specs::Operators::number_pushed))]
pub fn push_number(
    table: &[u8],
    run: Run,
    code: u8,
    stack: &mut Vec<u32>,
) -> Result<Run, TableFault>
    ensures ok { IfOk result (λ r. number_pushed table.now run code stack.old.items ≡ Ok (r, stack.new.items)) }
    ensures refused { IfErr result (λ e. e ≢ TableFault.OutOfMemory
        → number_pushed table.now run code stack.old.items ≡ Err e) }
{
    let (operand, length) = number(table, run.at, code)?;
    if stack.len() >= MOST_OPERANDS {
        return Err(TableFault::TooLarge);
    }
    stack.push(operand)?;
    Ok(after_bytes(run, length))
}

/// Draws by a path operator of one byte.
#[tactic(auto, unfolding(crate::specs::Operators::path_drawn))]
pub fn draw_path(run: Run, code: u8, stack: &mut Vec<u32>) -> Result<Run, TableFault>
    requires { run.at + 1 < 18446744073709551616 }
    ensures ok { IfOk result (λ r. path_drawn run code stack.old.items ≡ Ok (r, stack.new.items)) }
    ensures refused { IfErr result (λ e. path_drawn run code stack.old.items ≡ Err e) }
{
    let pen = pen_after_path(code, run.at, run.pen, stack.as_slice())?;
    stack.clear();
    Ok(with_pen(after_bytes(run, 1), pen))
}

/// Draws by a path operator of two bytes, by the second one.
#[tactic(auto, unfolding(crate::specs::Operators::flex_drawn))]
fn draw_flex(run: Run, code: u8, stack: &mut Vec<u32>) -> Result<Run, TableFault>
    requires { run.at + 2 < 18446744073709551616 }
    ensures ok { IfOk result (λ r. flex_drawn run code stack.old.items ≡ Ok (r, stack.new.items)) }
    ensures refused { IfErr result (λ e. flex_drawn run code stack.old.items ≡ Err e) }
{
    let pen = pen_after_flex(code, run.at, run.pen, stack.as_slice())?;
    stack.clear();
    Ok(with_pen(after_bytes(run, 2), pen))
}

/// The number of stem hints with those of some operands.
#[tactic(auto, unfolding(crate::specs::Operators::stems_of))]
fn stems_of(stems: u16, operands: usize) -> Result<u16, TableFault>
    requires { operands < 9223372036854775808 }
    ensures { result ≡ stems_of stems operands }
{
    let all = usize::from(stems) + operands / 2;
    if all > 65535 {
        return Err(TableFault::TooLarge);
    }
    Ok(all as u16)
}

/// Counts stem hints: hstem, vstem, hstemhm, vstemhm.
#[tactic(auto, unfolding(crate::specs::Operators::stems_hinted))]
pub fn hint_stems(run: Run, stack: &mut Vec<u32>) -> Result<Run, TableFault>
    requires { run.at + 1 < 18446744073709551616 }
    ensures ok { IfOk result (λ r. stems_hinted run stack.old.items ≡ Ok (r, stack.new.items)) }
    ensures refused { IfErr result (λ e. stems_hinted run stack.old.items ≡ Err e) }
{
    let stems = stems_of(run.stems, stack.len())?;
    stack.clear();
    Ok(with_stems(after_bytes(run, 1), stems))
}

/// The bytes of a mask with a bit for each stem hint.
#[tactic(auto, unfolding(crate::specs::Operators::mask_bytes))]
fn mask_bytes(stems: u16) -> usize
    ensures value { result ≡ mask_bytes stems }
    ensures small { result ≤ 8192 }
{
    usize::from(stems).div_ceil(8)
}

/// Passes over a mask, before which the last stem hints may stand: hintmask, cntrmask.
#[tactic(auto, unfolding(crate::specs::Operators::mask_passed))]
pub fn pass_mask(table: &[u8], run: Run, stack: &mut Vec<u32>) -> Result<Run, TableFault>
    requires { run.at + 1 ≤ length table.now }
    ensures ok { IfOk result (λ r. mask_passed table.now run stack.old.items ≡ Ok (r, stack.new.items)) }
    ensures refused { IfErr result (λ e. mask_passed table.now run stack.old.items ≡ Err e) }
{
    let stems = stems_of(run.stems, stack.len())?;
    let length = mask_bytes(stems);
    need(table, run.at + 1, length)?;
    stack.clear();
    Ok(with_stems(after_bytes(run, 1 + length), stems))
}

/// The absolute value of an operand.
#[tactic(auto, unfolding(crate::specs::Operators::magnitude))]
fn magnitude(operand: u32) -> u64
    ensures value { result ≡ magnitude operand }
    ensures small { result ≤ 2147483648 }
    ensures some { 0 < operand → 0 < result }
{
    if operand < 0x8000_0000 {
        return u64::from(operand);
    }
    0x1_0000_0000 - u64::from(operand)
}

/// Whether an operand is below 0.
#[tactic(auto, unfolding(crate::specs::Operators::is_negative))]
fn is_negative(operand: u32) -> bool
    ensures { result ≡ is_negative operand }
{
    operand >= 0x8000_0000
}

/// Whether two operands are both below 0 or both not.
#[tactic(auto, unfolding(crate::specs::Operators::has_same_sign))]
fn has_same_sign(a: u32, b: u32) -> bool
    ensures { result ≡ has_same_sign a b }
{
    if is_negative(a) {
        return is_negative(b);
    }
    !is_negative(b)
}

/// The quotient of two operands, to the nearest one, within 31 bits.
#[tactic(auto, unfolding(crate::specs::Operators::quotient_bits))]
fn quotient_bits(dividend: u32, divisor: u32) -> u32
    requires { 0 < divisor }
    ensures { result ≡ quotient_bits dividend divisor }
{
    let size = magnitude(divisor);
    let quotient = ((magnitude(dividend) * 65536 + size / 2) / size).min(0x7fff_ffff);
    if has_same_sign(dividend, divisor) || quotient == 0 {
        return quotient as u32;
    }
    (0x1_0000_0000 - quotient) as u32
}

/// Replaces two operands by their quotient: div.
#[tactic(auto, unfolding(crate::specs::Operators::after_div))]
fn divide(run: Run, stack: &mut Vec<u32>) -> Result<Run, TableFault>
    requires { run.at + 2 < 18446744073709551616 }
    ensures ok { IfOk result (λ r. after_div run stack.old.items ≡ Ok (r, stack.new.items)) }
    ensures refused { IfErr result (λ e. e ≢ TableFault.OutOfMemory → after_div run stack.old.items ≡ Err e) }
{
    let divisor = pop_operand(stack, run.at)?;
    let dividend = pop_operand(stack, run.at)?;
    if divisor == 0 {
        return Err(TableFault::Kind(run.at));
    }
    stack.push(quotient_bits(dividend, divisor))?;
    Ok(after_bytes(run, 2))
}

/// Leaves the values of the default instance: blend.
#[tactic(auto, unfolding(crate::specs::Operators::after_blend))]
pub fn blend(run: Run, stack: &mut Vec<u32>) -> Result<Run, TableFault>
    requires { run.at + 1 < 18446744073709551616 }
    ensures ok { IfOk result (λ r. after_blend run stack.old.items ≡ Ok (r, stack.new.items)) }
    ensures refused { IfErr result (λ e. after_blend run stack.old.items ≡ Err e) }
{
    let count = pop_operand(stack, run.at)? as usize / 65536;
    let deltas = count * usize::from(run.regions);
    if count + deltas > stack.len() {
        return Err(TableFault::Kind(run.at));
    }
    stack.truncate(stack.len() - deltas);
    Ok(after_bytes(run, 1))
}

/// The number of regions of the item variation data with an index, of the store at an offset.
#[tactic(auto, unfolding(crate::specs::Operators::regions_at))]
pub fn regions_at(table: &[u8], store: u32, index: usize) -> Result<u16, TableFault>
    ensures { result ≡ regions_at table.now store index }
{
    let at = store as usize + 2;
    need(table, at, 8)?;
    if index >= usize::from(word(table, at + 6)) {
        return Err(TableFault::Kind(at));
    }
    let entry = at + 8 + 4 * index;
    need(table, entry, 4)?;
    let data = at + long(table, entry) as usize;
    need(table, data, 6)?;
    Ok(word(table, data + 4))
}

/// Chooses the item variation data: vsindex.
#[tactic(auto, unfolding(crate::specs::Operators::regions_chosen))]
pub fn choose_regions(
    table: &[u8],
    store: u32,
    run: Run,
    stack: &mut Vec<u32>,
) -> Result<Run, TableFault>
    requires { run.at + 1 < 18446744073709551616 }
    ensures ok { IfOk result (λ r. regions_chosen table.now store run stack.old.items ≡ Ok (r, stack.new.items)) }
    ensures refused { IfErr result (λ e. regions_chosen table.now store run stack.old.items ≡ Err e) }
{
    let index = pop_operand(stack, run.at)? as usize / 65536;
    let regions = regions_at(table, store, index)?;
    Ok(with_regions(after_bytes(run, 1), regions))
}

/// An operator of two bytes: dotsection, which does nothing, div, and the flexes.
#[tactic(auto, unfolding(crate::specs::Operators::after_escape))]
pub fn escape(table: &[u8], run: Run, stack: &mut Vec<u32>) -> Result<Run, TableFault>
    requires { run.at + 1 ≤ length table.now }
    ensures ok { IfOk result (λ r. after_escape table.now run stack.old.items ≡ Ok (r, stack.new.items)) }
    ensures refused { IfErr result (λ e. e ≢ TableFault.OutOfMemory
        → after_escape table.now run stack.old.items ≡ Err e) }
{
    need(table, run.at + 1, 1)?;
    let code = byte(table, run.at + 1);
    if code == 0 {
        return Ok(after_bytes(run, 2));
    }
    if code == 12 {
        return divide(run, stack);
    }
    draw_flex(run, code, stack)
}
