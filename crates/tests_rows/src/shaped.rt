//! What a run prints of the text of a row.

use crate::fault::RowFault;
use crate::options::options_of;
use crate::settings::Settings;
use crate::text::text_of;
use shell_readers::fault::RunFault;
use shell_readers::options::Options;
use shell_run::running::run;
use std::alloc::Global;

/// What a run prints of a text; one that is refused prints its fault after what it wrote.
pub(crate) fn printed(
    settings: &Settings,
    font: &str,
    options: &str,
    text: &str,
) -> Result<String, RowFault> {
    let alloc = settings.alloc;
    let text = text_of(alloc, text)?;
    let options = options_of(alloc, &settings.options, options)?;
    let bytes = printed_bytes(alloc, options, &settings.tables, font, &text)?;
    match String::from_utf8(bytes) {
        Ok(printed) => Ok(printed),
        Err(_) => Err(RowFault::Row("what is printed is not UTF-8")),
    }
}

fn printed_bytes(
    alloc: Global,
    options: Options,
    tables: &str,
    font: &str,
    text: &[u8],
) -> Result<Vec<u8>, RowFault> {
    let (mut tables, mut font, mut text) = (tables.as_bytes(), font.as_bytes(), text);
    let mut out = Vec::new(alloc);
    let answer = run(alloc, options, &mut tables, &mut font, &mut text, &mut out);
    with_fault(alloc, out, answer)
}

/// Appends the line of a run's fault.
fn with_fault(
    alloc: Global,
    mut printed: Vec<u8>,
    answer: Result<(), RunFault>,
) -> Result<Vec<u8>, RowFault> {
    match answer {
        Ok(()) => Ok(printed),
        Err(RunFault::OutOfMemory | RunFault::Write) => Err(RowFault::OutOfMemory),
        Err(fault) => {
            let line = format!(in alloc; "! {fault}\n")?;
            printed.extend_from_slice(line.as_bytes())?;
            Ok(printed)
        }
    }
}
