//! Fonts that are refused.
use crate::rows::first_wrong;
use shell_json::fault::JsonFault;
use std::alloc::{AllocError, Global};

/// The name of the fault for which a font is refused; none where it is read.
fn fault_of(alloc: Global, text: &str) -> Result<&'static str, AllocError> {
    match first_wrong(alloc, text, "") {
        Ok(_) => Ok("none"),
        Err(JsonFault::OutOfMemory) => Err(AllocError),
        Err(fault) => Ok(fault.name()),
    }
}

/// Whether the font of a line is refused for the fault that precedes it.
pub(crate) fn is_refused(alloc: Global, line: &str) -> Result<bool, AllocError> {
    match line.split_once(": ") {
        Some((fault, text)) => Ok(fault_of(alloc, text)? == fault),
        None => Ok(false),
    }
}

fn many_sets(alloc: Global, count: u32) -> Result<String, AllocError> {
    let mut text = String::from_str(alloc, r#"{"gdef":{"sets":["#)?;
    for set in 0..count {
        text.push_str(if set == 0 { "[]" } else { ",[]" })?;
    }
    text.push_str("]}}")?;
    Ok(text)
}

fn fault_of_sets(alloc: Global, count: u32) -> Result<&'static str, AllocError> {
    let text = many_sets(alloc, count)?;
    fault_of(alloc, &text)
}

/// Whether no more sets are taken than have indices: 65535 is that of none.
pub(crate) fn too_many_sets_are_refused(alloc: Global) -> Result<bool, AllocError> {
    Ok(fault_of_sets(alloc, 65_535)? == "none" && fault_of_sets(alloc, 65_536)? == "U2 OutOfRange")
}
