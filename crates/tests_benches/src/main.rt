//! Measures what calls of the buffer and look-ups in tables cost; the time per glyph or look-up is printed on standard
//! error.
#![tactic(auto)]

mod buffer;
mod tables;

use std::io;
use std::process::ExitCode;

fn main(rt: HostRuntime) -> io::Result<ExitCode> {
    buffer::run(&rt)?;
    tables::run(&rt)?;
    Ok(ExitCode::SUCCESS)
}
