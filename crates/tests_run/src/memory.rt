//! Runs over memory, and rows of tests.
//!
//! `tests_rows` (`options`) has `plain_options` too: of the crates of tests none names another one, and the program makes
//! its options of words alone.
use buffer_common::constants::BufferFlags;
use buffer_common::direction::Direction;
use buffer_glyphs::flags::SerializeFlags;
use buffer_glyphs::level::BufferClusterLevel;
use shell_readers::fault::RunFault;
use shell_readers::options::Options;
use shell_run::running::run;
use std::alloc::{AllocError, Global};

const NUMBERS: SerializeFlags = SerializeFlags(4);

/// The options without any, but that glyphs are printed by their numbers.
pub(crate) fn plain_options(alloc: Global) -> Options {
    Options {
        direction: Direction::Invalid,
        script: None,
        language: None,
        features: Vec::new(alloc),
        cluster_level: BufferClusterLevel::MonotoneGraphemes,
        buffer_flags: BufferFlags(0),
        flags: NUMBERS,
        slices: false,
        lines: false,
        keep_going: false,
    }
}

/// The output of a run over memory, and its result. A run fails for want of memory also where the output can't grow.
pub(crate) fn ran(
    alloc: Global,
    options: Options,
    tables: &str,
    font: &str,
    text: &[u8],
) -> Result<(Result<(), RunFault>, Vec<u8>), AllocError> {
    let mut tables = tables.as_bytes();
    let mut font = font.as_bytes();
    let mut text = text;
    let mut out = Vec::new(alloc);
    match run(alloc, options, &mut tables, &mut font, &mut text, &mut out) {
        Err(RunFault::OutOfMemory | RunFault::Write) => Err(AllocError),
        answer => Ok((answer, out)),
    }
}

/// A field of a row.
pub(crate) fn field(row: &str, separator: char, at: usize) -> &str {
    row.split(separator).nth(at).unwrap_or("").trim()
}
