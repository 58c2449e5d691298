//! kuspveli [options] FONT [TEXT]: shapes a text in a font file and prints its glyphs with their positions.
#![tactic(auto)]

use shell_font_run::fault::{end, fault_of_run};
use shell_font_run::program::run_font_program;
use shell_readers::fault::RunFault;
use shell_run::files::SystemFiles;
use shell_run::program::Ending;
use std::process::ExitCode;
use std::{env, io};

fn main(rt: HostRuntime) -> ExitCode {
    ExitCode::from(ran(&rt).status())
}

/// Runs the program over its command-line words, the system's files and its streams.
fn ran(rt: &HostRuntime) -> Ending {
    let mut err = rt.stderr();
    let words = match words_of(rt) {
        Ok(words) => words,
        Err(cause) => return end("", fault_of_run(cause), &mut err),
    };
    let mut files = SystemFiles { rt };
    let mut out = io::writer(rt);
    run_font_program(rt.alloc(), &words, &mut files, &mut out, &mut err)
}

/// The command-line words. One that is not UTF-8 is refused like any word that the program doesn't know.
fn words_of(rt: &HostRuntime) -> Result<Vec<String>, RunFault> {
    match env::args(rt) {
        Ok(words) => Ok(words.collect(rt.alloc())?),
        Err(error) if error.kind() == io::ErrorKind::OutOfMemory => Err(RunFault::OutOfMemory),
        Err(_error) => Err(RunFault::Words),
    }
}
