//! The tables, font and settings of a stream as they stand.

use crate::breaks::keep_premises;
use crate::counts::Outcome;
use crate::font::{Font, font_of_bytes, font_of_json};
use crate::trial::Trial;
use font_file::FontFault;
use shell_readers::fault::RunFault;
use shell_readers::options::Options;
use shell_readers::tables::{TextTables, read_lawful_tables};
use shell_words::parse_options;
use std::alloc::Global;
use std::mem;

/// What the texts of the stream are shaped by.
#[derive(Drop)]
pub(crate) struct Session {
    alloc: Global,
    /// The tables, `None` where they are unlawful.
    tables: Option<Box<TextTables>>,
    /// The last font, `None` where its bytes are refused.
    font: Option<Box<Font>>,
    options: Option<Options>,
}

impl Session {
    pub(crate) fn new(alloc: Global) -> Session {
        Session {
            alloc,
            tables: None,
            font: None,
            options: None,
        }
    }

    /// Takes TABLES for the fonts after it; texts before the next font are passed over.
    pub(crate) fn take_tables(&mut self, json: &str) -> Result<(), RunFault> {
        let tables = read_tables(self.alloc, json)?;
        drop(mem::replace(&mut self.tables, tables));
        drop(self.font.take());
        Ok(())
    }

    /// Takes a font for the texts after it: its number of glyphs, and FONT.
    pub(crate) fn take_font(&mut self, line: &str) -> Result<(), RunFault> {
        let font = font_of_json(self.alloc, line)?;
        drop(self.font.replace(font));
        Ok(())
    }

    /// Takes the bytes of a font file for the texts after it. Where these are refused, it gives their fault, and texts are
    /// passed over.
    pub(crate) fn take_font_bytes(&mut self, line: &str) -> Result<Option<FontFault>, RunFault> {
        match font_of_bytes(self.alloc, line)? {
            Ok(font) => {
                drop(self.font.replace(font));
                Ok(None)
            }
            Err(fault) => {
                drop(self.font.take());
                Ok(Some(fault))
            }
        }
    }

    /// Takes words of hb_shape, whose settings the texts after them have.
    pub(crate) fn take_words(&mut self, line: &str) -> Result<(), RunFault> {
        self.options = Some(read_words(self.alloc, line)?);
        Ok(())
    }

    /// Whether lawful tables stand, and keep the premises of safe breaks.
    pub(crate) fn keeps_premises(&self) -> bool {
        match &self.tables {
            Some(tables) => keep_premises(&tables.characters),
            None => false,
        }
    }

    /// Tests a text, where lawful tables, a font, and settings stand before it.
    pub(crate) fn test(&self, text: &str) -> Result<Outcome, RunFault> {
        let (Some(tables), Some(font), Some(options)) = (&self.tables, &self.font, &self.options)
        else {
            return Ok(Outcome::PassedOver);
        };
        test(self.alloc, tables, font, options, text)
    }
}

/// The tables of JSON; `None` where they are unlawful.
fn read_tables(alloc: Global, json: &str) -> Result<Option<Box<TextTables>>, RunFault> {
    match read_lawful_tables(alloc, json.as_bytes()) {
        Ok(tables) => Ok(Some(Box::new(alloc, tables)?)),
        Err(RunFault::Unlawful) => Ok(None),
        Err(fault) => Err(fault),
    }
}

fn read_words(alloc: Global, line: &str) -> Result<Options, RunFault> {
    let words: Vec<&str> = line.split(' ').collect(alloc)?;
    Ok(parse_options(alloc, &words)?.options)
}

fn test(
    alloc: Global,
    tables: &TextTables,
    font: &Font,
    options: &Options,
    text: &str,
) -> Result<Outcome, RunFault> {
    let trial = Trial {
        alloc,
        tables,
        font,
        options,
        text,
    };
    Ok(Outcome::Tested(trial.tested()?))
}
