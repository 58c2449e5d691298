//! hb_shape [options] TABLES FONT TEXT: shapes a text in a font and prints its glyphs with their positions.
#![tactic(auto)]

use shell_readers::fault::RunFault;
use shell_run::files::SystemFiles;
use shell_run::program::{Ending, end, run_program};
use std::process::ExitCode;
use std::{env, io};

fn main(rt: HostRuntime) -> ExitCode {
    ExitCode::from(ran(&rt).status())
}

/// Runs the program over its command-line words, the system's files and its streams.
fn ran(rt: &HostRuntime) -> Ending {
    let mut err = rt.stderr();
    let words = match words_of(rt) {
        Ok(words) => words,
        Err(fault) => return end(Err(fault), &mut err),
    };
    let mut files = SystemFiles { rt };
    let mut out = io::writer(rt);
    run_program(rt.alloc(), &words, &mut files, &mut out, &mut err)
}

/// The command-line words. One that is not UTF-8 is refused like any word that the program doesn't know.
fn words_of(rt: &HostRuntime) -> Result<Vec<String>, RunFault> {
    match env::args(rt) {
        Ok(words) => Ok(words.collect(rt.alloc())?),
        Err(error) if error.kind() == io::ErrorKind::OutOfMemory => Err(RunFault::OutOfMemory),
        Err(_error) => Err(RunFault::Words),
    }
}
