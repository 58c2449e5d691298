//! Forms as lists of numbers, and texts of numbered characters.
ghost use Rattle.std.specs.Prelude.{◌≡◌, false, OnOk};

use buffer_core::buffer::hb_buffer_t;
use std::alloc::Global;
use std::test::Fail;

/// Lists with commas between, of numbers with plus signs between.
pub(crate) fn lists(alloc: Global, text: &str) -> Result<Vec<Vec<u32>>, Fail> {
    let mut found = Vec::new(alloc);
    for list in text.split_terminator(',') {
        found.push(numbers(alloc, list)?)?;
    }
    Ok(found)
}

fn numbers(alloc: Global, list: &str) -> Result<Vec<u32>, Fail> {
    let mut found = Vec::new(alloc);
    for number in list.split('+') {
        found.push(number.parse::<u32>()?)?;
    }
    Ok(found)
}

/// Adds characters, each with its index as its number and its cluster.
pub(crate) fn add_characters(buffer: &mut hb_buffer_t, count: usize) -> Result<(), Fail>
    requires { buffer.old.is_open ≡ false }
    ensures { OnOk result (buffer.new.is_open ≡ false) }
{
    for i in 0..count {
        let number = u32::try_from(i)?;
        let c = char::from_u32(number).unwrap_or('\u{FFFD}');
        if !buffer.add(c, number)? {
            return Err("too long".into());
        }
    }
    Ok(())
}
