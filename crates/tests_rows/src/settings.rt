//! What rows are shaped with.

use crate::fault::RowFault;
use std::alloc::Global;
use std::mem;

/// What the rows after it are shaped with, by the lines of a file.
#[derive(Drop)]
pub(crate) struct Settings {
    pub(crate) alloc: Global,
    /// Names and their texts, a line for each.
    names: String,
    pub(crate) tables: String,
    pub(crate) options: String,
    /// What stands before the font of each row.
    font: String,
}

impl Settings {
    pub(crate) fn new(alloc: Global) -> Settings {
        Settings {
            alloc,
            names: String::new(alloc),
            tables: String::new(alloc),
            options: String::new(alloc),
            font: String::new(alloc),
        }
    }

    /// Takes a line, unless it is a row.
    pub(crate) fn is_setting(&mut self, line: &str) -> Result<bool, RowFault> {
        let Some(line) = line.strip_prefix('@') else {
            return Ok(line.is_empty() || line.starts_with('#'));
        };
        let (kind, rest) = line.split_once(' ').unwrap_or((line, ""));
        self.take(kind, rest)?;
        Ok(true)
    }

    fn take(&mut self, kind: &str, rest: &str) -> Result<(), RowFault> {
        if kind == "name" {
            return self.take_name(rest);
        }
        let text = self.filled("", rest)?;
        match kind {
            "tables" => drop(mem::replace(&mut self.tables, text)),
            "options" => drop(mem::replace(&mut self.options, text)),
            "font" => drop(mem::replace(&mut self.font, text)),
            _ => return Err(RowFault::UnknownSetting),
        }
        Ok(())
    }

    /// Takes a name and its text.
    fn take_name(&mut self, line: &str) -> Result<(), RowFault> {
        self.names.push_str(line)?;
        self.names.push('\n')?;
        Ok(())
    }

    /// The font of a row.
    pub(crate) fn font(&self, text: &str) -> Result<String, RowFault> {
        self.filled(&self.font, text)
    }

    /// Two texts, with the texts of the second one's names, which stand between two `$`.
    fn filled(&self, before: &str, text: &str) -> Result<String, RowFault> {
        let mut filled = String::from_str(self.alloc, before)?;
        let mut is_name = false;
        for part in text.split('$') {
            filled.push_str(if is_name { self.named(part)? } else { part })?;
            is_name = !is_name;
        }
        Ok(filled)
    }

    /// The text of a name.
    fn named(&self, name: &str) -> Result<&str, RowFault> {
        for line in self.names.lines() {
            if let Some((found, text)) = line.split_once(' ') {
                if found == name {
                    return Ok(text);
                }
            }
        }
        Err(RowFault::Row("an unknown name"))
    }
}
