//! The options of rows.
//!
//! `tests_run` (`memory`) has `plain_options` too: of the crates of tests none names another one, and the program makes its
//! options of words alone.

use crate::fault::RowFault;
use buffer_common::constants::BufferFlags;
use buffer_common::direction::Direction;
use buffer_common::language::Language;
use buffer_glyphs::flags::SerializeFlags;
use buffer_glyphs::level::BufferClusterLevel;
use shell_readers::options::Options;
use std::alloc::Global;

const NUMBERS: SerializeFlags = SerializeFlags(4);

/// The options without any, but that glyphs are printed by their numbers.
fn plain_options(alloc: Global) -> Options {
    Options {
        direction: Direction::Invalid,
        script: None,
        language: None,
        features: Vec::new(alloc),
        cluster_level: BufferClusterLevel::MonotoneGraphemes,
        buffer_flags: BufferFlags(0),
        flags: NUMBERS,
        slices: false,
        lines: false,
        keep_going: false,
    }
}

/// The options of words, with spaces between.
pub(crate) fn options_of(alloc: Global, words: &str, more: &str) -> Result<Options, RowFault> {
    let mut options = plain_options(alloc);
    for word in words.split_whitespace() {
        take_word(alloc, &mut options, word)?;
    }
    for word in more.split_whitespace() {
        take_word(alloc, &mut options, word)?;
    }
    Ok(options)
}

fn take_word(alloc: Global, options: &mut Options, word: &str) -> Result<(), RowFault> {
    match word {
        "slices" => options.slices = true,
        "lines" => options.lines = true,
        "keep-going" => options.keep_going = true,
        word => return take_value(alloc, options, word),
    }
    Ok(())
}

fn take_value(alloc: Global, options: &mut Options, word: &str) -> Result<(), RowFault> {
    let Some((name, value)) = word.split_once('=') else {
        return Err(RowFault::Row("an unknown option"));
    };
    match name {
        "script" => options.script = Some(parsed(value.parse())?),
        "direction" => options.direction = parsed(value.parse())?,
        "feature" => options.features.push(parsed(value.parse())?)?,
        "language" => options.language = Some(language_of(alloc, value)?),
        "level" => options.cluster_level = level_of(value)?,
        "buffer" => options.buffer_flags = BufferFlags(parsed(value.parse())?),
        "print" => options.flags = SerializeFlags(parsed(value.parse())?),
        _ => return Err(RowFault::Row("an unknown option")),
    }
    Ok(())
}

/// A value that was parsed.
fn parsed<T: Drop, E: Drop>(value: Result<T, E>) -> Result<T, RowFault> {
    match value {
        Ok(value) => Ok(value),
        Err(_) => Err(RowFault::Row("a value that an option can't have")),
    }
}

fn language_of(alloc: Global, name: &str) -> Result<Language, RowFault> {
    match Language::from_str(alloc, name) {
        Ok(language) => Ok(language),
        Err(_) => Err(RowFault::Row("no language")),
    }
}

fn level_of(number: &str) -> Result<BufferClusterLevel, RowFault> {
    match number {
        "0" => Ok(BufferClusterLevel::MonotoneGraphemes),
        "1" => Ok(BufferClusterLevel::MonotoneCharacters),
        "2" => Ok(BufferClusterLevel::Characters),
        "3" => Ok(BufferClusterLevel::Graphemes),
        _ => Err(RowFault::Row("no cluster level")),
    }
}
