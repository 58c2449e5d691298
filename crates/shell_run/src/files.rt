//! Opens the files of a run by their names, and standard input.
ghost use Rattle.std.specs.Prelude.{◌≡◌, ℕ, List, [], ◌∷◌, Option, None, OnOk, OnErr, IfOk, IfErr, IfSome, is_some, string_bytes};
ghost use Rattle.shell_run.specs.Program.{Asks, EndsAtMissing, HasBytes, Opening, Source, all_opened, sources_of, text_source};
ghost use Rattle.shell_run.specs.Program.Source.{File as FileSource, Input};

use shell_readers::fault::RunFault;
use shell_words::CommandLine;
use std::fs::File;
use std::io;
use std::io::{Read, Stdin};

/// Files, which are opened by their names, and standard input.
pub trait Files<F: Read> {
    // The sources asked for so far, each with whether it could be opened, where they are known.
    ghost asked: { Self → Option (List Opening) } = { λ _. None };

    // The bytes of a source, where they are known.
    ghost bytes: { Self → Source → Option (List ℕ) } = { λ _ _. None };

    /// The file of a name, `None` where it can't be opened.
    fn open(&mut self, name: &str) -> Option<F>
        ensures asks { Asks (asked self.old) (asked self.new) ((FileSource name.now, is_some result) ∷ []) }
        ensures given { IfSome result (λ file. HasBytes (bytes self.old (FileSource name.now)) (F.remaining file)) }
        ensures stays { (source : Source) → bytes self.new source ≡ bytes self.old source };

    /// Standard input, `None` where it can't be opened.
    fn input(&mut self) -> Option<F>
        ensures asks { Asks (asked self.old) (asked self.new) ((Input, is_some result) ∷ []) }
        ensures given { IfSome result (λ file. HasBytes (bytes self.old Input) (F.remaining file)) }
        ensures stays { (source : Source) → bytes self.new source ≡ bytes self.old source };
}

/// The files of the system.
#[derive(Drop)]
pub struct SystemFiles<'a> {
    pub rt: &'a HostRuntime,
}

/// An open file of the system, or its standard input.
#[derive(Drop)]
pub enum SystemFile {
    File(File),
    Input(Stdin),
}

impl Read for SystemFile {
    fn read(&mut self, buf: &mut [u8]) -> io::Result<usize> {
        match self {
            SystemFile::File(file) => file.read(buf),
            SystemFile::Input(input) => input.read(buf),
        }
    }
}

impl Files<SystemFile> for SystemFiles<'_> {
    fn open(&mut self, name: &str) -> Option<SystemFile> {
        match File::open(self.rt, name) {
            Ok(file) => Some(SystemFile::File(file)),
            Err(_) => None,
        }
    }

    fn input(&mut self) -> Option<SystemFile> {
        Some(SystemFile::Input(self.rt.stdin()))
    }
}

/// The open files of a run: tables, font and text.
#[derive(Drop)]
pub(crate) struct OpenFiles<F> {
    pub(crate) tables: F,
    pub(crate) font: F,
    pub(crate) text: F,
}

/// The text by its name, `-` for standard input.
fn open_text<F: Read, O: Files<F>>(files: &mut O, name: &str) -> Option<F>
    ensures asks { Asks (O.asked files.old) (O.asked files.new) ((text_source name.now, is_some result) ∷ []) }
    ensures given { IfSome result (λ file. HasBytes (O.bytes files.old (text_source name.now)) (F.remaining file)) }
{
    if name == "-" {
        files.input()
    } else {
        files.open(name)
    }
}

/// Opens tables, font and text, in this order; the first that can't be opened is the fault, and none is asked for after it.
#[tactic(auto, using(crate::proofs::Openings::asked_all, crate::proofs::Openings::first_missing, crate::proofs::Openings::second_missing, crate::proofs::Openings::third_missing, crate::proofs::Openings::same_bytes))]
pub(crate) fn open_files<F: Read + Drop, O: Files<F>>(
    files: &mut O,
    line: &CommandLine,
) -> Result<OpenFiles<F>, RunFault>
    ensures all { OnOk result (Asks (O.asked files.old) (O.asked files.new) (all_opened (sources_of line.now))) }
    ensures tables { IfOk result (λ opened. HasBytes (O.bytes files.old (FileSource (string_bytes line.now.tables))) (F.remaining opened.tables)) }
    ensures font { IfOk result (λ opened. HasBytes (O.bytes files.old (FileSource (string_bytes line.now.font))) (F.remaining opened.font)) }
    ensures text { IfOk result (λ opened. HasBytes (O.bytes files.old (text_source (string_bytes line.now.text))) (F.remaining opened.text)) }
    ensures front { OnErr result ((openings : List Opening) × Asks (O.asked files.old) (O.asked files.new) openings × EndsAtMissing (sources_of line.now) openings) }
    ensures fault { IfErr result (λ e. e ≡ RunFault.Read) }
{
    let Some(tables) = files.open(&line.tables) else {
        return Err(RunFault::Read);
    };
    let Some(font) = files.open(&line.font) else {
        return Err(RunFault::Read);
    };
    let Some(text) = open_text(files, &line.text) else {
        return Err(RunFault::Read);
    };
    Ok(OpenFiles { tables, font, text })
}
