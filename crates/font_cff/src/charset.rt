//! Charsets: the number of the string that names each glyph (TN 5176, 13).
ghost use Rattle.std.specs.Prelude.{◌≡◌, ◌≢◌, ◌≤◌, ◌<◌, ◌+◌, ◌*◌, ◌-◌, ◌++◌, length, min, IfOk, IfErr, OnOk, Ok, Err};
ghost use Rattle.font_bytes.specs.declared.fault.TableFault.{TableFault};
ghost use Rattle.font_cff.specs.Fonts.{numbers};
ghost use Rattle.font_cff.specs.Charset.{listed_sids, left_width, left_of, range_length, range_sids, all_range_sids, expert_sids, subset_sids, charset_of};

use font_bytes::fault::TableFault;
use font_bytes::words::{byte, need, word};
use font_strings::{expert_sid, subset_sid};
use std::alloc::Global;

/// Appends n string numbers from one on.
#[tactic(auto, using(crate::proofs::Lists::sid_pushed))]
fn push_sids(sids: &mut Vec<u32>, first: u16, count: usize) -> Result<(), TableFault>
    requires { count ≤ 65536 }
    ensures ok { OnOk result (sids.new.items ≡ sids.old.items ++ numbers first count) }
    ensures refused { IfErr result (λ e. e ≡ TableFault.OutOfMemory) }
{
    for index in 0..count {
        sids.push(u32::from(first) + index as u32)?;
    }
    Ok(())
}

/// The string numbers from 0 on: the charset ISOAdobe.
fn read_iso_adobe(alloc: Global, count: usize) -> Result<Vec<u32>, TableFault>
    ensures ok { IfOk result (λ v. v.items ≡ numbers 0 (min count 229)) }
    ensures refused { IfErr result (λ e. e ≡ TableFault.OutOfMemory) }
{
    let mut sids = Vec::new(alloc);
    push_sids(&mut sids, 0, count.min(229))?;
    Ok(sids)
}

/// The charset Expert.
#[tactic(auto, using(crate::proofs::Lists::expert_next))]
fn read_expert(alloc: Global, count: usize) -> Result<Vec<u32>, TableFault>
    ensures ok { IfOk result (λ v. v.items ≡ expert_sids (min count 166)) }
    ensures refused { IfErr result (λ e. e ≡ TableFault.OutOfMemory) }
{
    let mut sids = Vec::new(alloc);
    for glyph in 0..count.min(166) {
        sids.push(u32::from(expert_sid(glyph)))?;
    }
    Ok(sids)
}

/// The charset ExpertSubset.
#[tactic(auto, using(crate::proofs::Lists::subset_next))]
fn read_subset(alloc: Global, count: usize) -> Result<Vec<u32>, TableFault>
    ensures ok { IfOk result (λ v. v.items ≡ subset_sids (min count 87)) }
    ensures refused { IfErr result (λ e. e ≡ TableFault.OutOfMemory) }
{
    let mut sids = Vec::new(alloc);
    for glyph in 0..count.min(87) {
        sids.push(u32::from(subset_sid(glyph)))?;
    }
    Ok(sids)
}

/// Format 0: a string number for each glyph but the first, which is .notdef.
#[tactic(auto, using(font_bytes::proofs::Recorded::records_more, font_bytes::proofs::Recorded::records_end))]
fn read_listed(alloc: Global, table: &[u8], at: usize, count: usize) -> Result<Vec<u32>, TableFault>
    requires { count ≤ 65535 }
    ensures ok { IfOk result (λ v. listed_sids table.now at count ≡ Ok v.items) }
    ensures refused { IfErr result (λ e. e ≢ TableFault.OutOfMemory → listed_sids table.now at count ≡ Err e) }
{
    need(table, at, 2 * count)?;
    let mut sids = Vec::with_capacity(alloc, count + 1)?;
    sids.push(0)?;
    for index in 0..count {
        sids.push(u32::from(word(table, at + 2 * index)))?;
    }
    Ok(sids)
}

/// The width of nLeft.
fn left_width(is_wide: bool) -> usize
    ensures value { result ≡ left_width is_wide }
    ensures small { result ≤ 2 }
{
    if is_wide {
        return 2;
    }
    1
}

/// nLeft: how many string numbers follow the first one of a range.
fn left_of(table: &[u8], is_wide: bool, at: usize) -> usize
    requires { at + left_width is_wide ≤ length table.now }
    ensures value { result ≡ left_of table.now is_wide at }
    ensures small { result ≤ 65535 }
{
    if is_wide {
        return usize::from(word(table, at));
    }
    usize::from(byte(table, at))
}

/// Formats 1 and 2: ranges of string numbers.
#[tactic(auto, using(crate::proofs::Charsets::ranges_next, crate::proofs::Charsets::ranges_full, crate::proofs::Charsets::ranges_short, crate::proofs::Charsets::ranges_over))]
fn read_ranges(
    alloc: Global,
    table: &[u8],
    at: usize,
    is_wide: bool,
    count: usize,
) -> Result<Vec<u32>, TableFault>
    requires { count ≤ 65535 }
    ensures ok { IfOk result (λ v. all_range_sids table.now is_wide at count ≡ Ok v.items) }
    ensures refused { IfErr result (λ e. e ≢ TableFault.OutOfMemory → all_range_sids table.now is_wide at count ≡ Err e) }
{
    let mut sids = Vec::new(alloc);
    sids.push(0)?;
    let mut at = at;
    let mut left = count;
    for index in 0..count {
        if left == 0 {
            return Ok(sids);
        }
        need(table, at, 2 + left_width(is_wide))?;
        let run = (left_of(table, is_wide, at + 2) + 1).min(left);
        push_sids(&mut sids, word(table, at), run)?;
        left -= run;
        at += 2 + left_width(is_wide);
    }
    Ok(sids)
}

/// The string number of each glyph, by the charset at an offset; offsets 0, 1 and 2 are the predefined charsets.
pub fn read_charset(
    alloc: Global,
    table: &[u8],
    at: usize,
    count: usize,
) -> Result<Vec<u32>, TableFault>
    requires { count ≤ 65535 }
    ensures ok { IfOk result (λ v. charset_of table.now at count ≡ Ok v.items) }
    ensures refused { IfErr result (λ e. e ≢ TableFault.OutOfMemory → charset_of table.now at count ≡ Err e) }
{
    if at == 0 {
        return read_iso_adobe(alloc, count);
    }
    if at == 1 {
        return read_expert(alloc, count);
    }
    if at == 2 {
        return read_subset(alloc, count);
    }
    need(table, at, 1)?;
    let named = count.saturating_sub(1);
    match byte(table, at) {
        0 => read_listed(alloc, table, at + 1, named),
        1 => read_ranges(alloc, table, at + 1, false, named),
        2 => read_ranges(alloc, table, at + 1, true, named),
        _ => Err(TableFault::Kind(at)),
    }
}
