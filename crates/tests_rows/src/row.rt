//! Rows: what a run has to print of a text.

use crate::fault::RowFault;
use crate::settings::Settings;
use crate::shaped::printed;
use std::alloc::{AllocError, Global};

/// A field of a row.
pub(crate) fn field(row: &str, at: usize) -> &str {
    row.split(';').nth(at).unwrap_or("").trim()
}

/// What is wanted: the fields of a row after its text.
fn wanted_of(row: &str) -> Result<&str, RowFault> {
    match row.splitn(5, ';').nth(4) {
        Some(wanted) => Ok(wanted.trim()),
        None => Err(RowFault::Row("too few fields")),
    }
}

/// What the run of a row prints, where that isn't what the row wants.
pub(crate) fn printed_beside(settings: &Settings, row: &str) -> Result<Option<String>, RowFault> {
    let wanted = wanted_of(row)?;
    let font = settings.font(field(row, 1))?;
    let options = field(row, 2);
    let line = printed(settings, &font, options, field(row, 3))?;
    let is_followed = match wanted.strip_prefix("= ") {
        Some(texts) => print_alike(settings, &font, options, &line, texts)?,
        None => is_wanted(settings.alloc, &line, wanted)?,
    };
    Ok(if is_followed { None } else { Some(line) })
}

/// Whether these are the wanted lines.
fn is_wanted(alloc: Global, line: &str, wanted: &str) -> Result<bool, AllocError> {
    if wanted == "no output" {
        return Ok(line.is_empty());
    }
    let lines = wanted.replace(alloc, ";", "\n")?;
    Ok(line.strip_suffix('\n') == Some(lines.as_str()))
}

/// Whether each of these texts prints the same glyphs.
fn print_alike(
    settings: &Settings,
    font: &str,
    options: &str,
    line: &str,
    texts: &str,
) -> Result<bool, RowFault> {
    for text in texts.split(" = ") {
        if printed(settings, font, options, text)?.as_str() != line {
            return Ok(false);
        }
    }
    Ok(!line.starts_with('!') && line != "\n")
}
