//! The program: its statuses, what it writes to each stream, and the order in which it reads its files.
use crate::memory::field;
use shell_readers::fault::RunFault;
use shell_run::files::Files;
use shell_run::program::run_program;
use std::alloc::{AllocError, Global};
use std::test::Fail;

static FONT: &str = r#"{"upem":1000,"cmap":[[97,1],[98,2]],"h":[[1,500],[2,600]]}"#;

static TABLES: &str = r#"{"languages":[["de",["DEU "]],["ro",["MOL ","ROM "]]]}"#;

/// Its language system for Romanian has a localized form of `a`, and not the ligature feature of the default system.
static LOCAL: &str = r#"{"cmap":[[97,1],[98,2]],"h":[[1,500],[2,600],[3,510],[4,610]],
  "gsub":{"scripts":[["DFLT",{"features":[0]},[["ROM ",{"features":[1]}]]]],"features":[["liga",[0]],["locl",[1]]],
  "lookups":[{"type":"single","subtables":[[[2,4]]]},{"type":"single","subtables":[[[1,3]]]}]}}"#;

// Files in memory, one of which may be missing, and standard input. It records the names that were opened, each with
// a comma.
#[derive(Drop)]
struct MemoryFiles<'a> {
    missing: &'a str,
    asked: String,
}

impl Files<&'static [u8]> for MemoryFiles<'_> {
    fn open(&mut self, name: &str) -> Option<&'static [u8]> {
        self.asked.push_str(name).ok()?;
        self.asked.push_str(",").ok()?;
        if name == self.missing {
            return None;
        }
        match name {
            "tables" => Some(b"{}".as_slice()),
            "font" => Some(FONT.as_bytes()),
            "text" => Some(b"ab\n".as_slice()),
            "languages" => Some(TABLES.as_bytes()),
            "local" => Some(LOCAL.as_bytes()),
            "broken" => Some(b"\xFF".as_slice()),
            "lines" => Some(b"ab\n\nb\n".as_slice()),
            "some" => Some(b"a\n\xFFb\nb".as_slice()),
            "-" => Some(b"a".as_slice()),
            _ => None,
        }
    }

    fn input(&mut self) -> Option<&'static [u8]> {
        self.asked.push_str("(input),").ok()?;
        if self.missing == "(input)" {
            return None;
        }
        Some(b"ba\n".as_slice())
    }
}

/// The command line of words after the program's name.
fn words_of(alloc: Global, line: &str) -> Result<Vec<String>, AllocError> {
    let mut words = Vec::new(alloc);
    words.push(String::from_str(alloc, "hb_shape")?)?;
    for word in line.split(' ') {
        words.push(String::from_str(alloc, word)?)?;
    }
    Ok(words)
}

// Each row has its name, the command-line words after the program's, the missing file, the status, the written lines,
// with commas between, the line of the fault, and the opened files, each with a comma. `-` is standard input as the
// text, and else a name. Files are opened in their order, and the first that is missing ends the program. The fault
// of the tables precedes that of the font, and that the text's.
static ROWS: &str = "# name; words; missing; status; lines; fault; files
a line; --no-glyph-names tables font text; ; 0; 1=0+500|2=1+600; ; tables,font,text,
a line backward; --direction=r tables font text; ; 0; gid2=1+600|gid1=0+500; ; tables,font,text,
a line of a language; --language=ro languages local text; ; 0; gid3=0+510|gid2=1+600; ; languages,local,text,
a file too few; tables font; ; 2; ; hb_shape: words;
help; --help; ; 2; ; hb_shape: words;
no tables; tables font text; tables; 6; ; hb_shape: Read; tables,
no font; tables font text; font; 6; ; hb_shape: Read; tables,font,
no text; tables broken text; text; 6; ; hb_shape: Read; tables,broken,text,
tables before the font; broken broken broken; ; 3; ; hb_shape: J1 NotJson; broken,broken,broken,
the font before the text; tables text broken; ; 3; ; hb_shape: J1 NotJson; tables,text,broken,
a text that is not UTF-8; tables font broken; ; 4; ; hb_shape: NotUtf8; tables,font,broken,
a script; --script=deva tables font text; ; 0; gid1=0+500|gid2=1+600; ; tables,font,text,
the input as text; tables font -; ; 0; gid2=0+600|gid1=1+500; ; tables,font,(input),
no input; tables font -; (input); 6; ; hb_shape: Read; tables,font,(input),
the input is no table; - font text; -; 6; ; hb_shape: Read; -,
lines; --lines tables font lines; ; 0; gid1=0+500|gid2=1+600,,gid2=0+600; ; tables,font,lines,
lines of the input; --lines tables font -; ; 0; gid2=0+600|gid1=1+500; ; tables,font,(input),
a line refused; --lines tables font some; ; 4; ; hb_shape: NotUtf8 line 2; tables,font,some,
a line named; --lines --keep-going tables font some; ; 4; gid1=0+500,! NotUtf8,gid2=0+600; hb_shape: NotUtf8 line 2; tables,font,some,
keep-going without lines; --keep-going tables font some; ; 2; ; hb_shape: words;
lines with slices; --lines --slices tables font text; ; 2; ; hb_shape: words;";

/// Whether these bytes are lines, each with its line feed, given separated by commas; nothing where there is none.
fn are_lines(bytes: &[u8], lines: &str) -> bool {
    if lines.is_empty() {
        return bytes.is_empty();
    }
    let Some(bytes) = bytes.strip_suffix(b"\n") else {
        return false;
    };
    bytes
        .split(|byte| *byte == b'\n')
        .eq(lines.split(',').map(|line| line.as_bytes()))
}

/// More bytes than a row's line, its fault or its files have, so that recording them asks for no memory.
const ROOM: usize = 64;

/// Whether the program with these words ends as a row says.
fn ends_as(alloc: Global, words: &[String], row: &str) -> Result<bool, AllocError> {
    let mut files = MemoryFiles {
        missing: field(row, ';', 2),
        asked: String::with_capacity(alloc, ROOM)?,
    };
    let mut written = Vec::with_capacity(alloc, ROOM)?;
    let mut reported = Vec::with_capacity(alloc, ROOM)?;
    let ending = run_program(alloc, words, &mut files, &mut written, &mut reported);
    if ending.fault == Some(RunFault::OutOfMemory) {
        return Err(AllocError);
    }
    Ok(
        field(row, ';', 3).parse() == Ok(ending.status())
            && ending.is_reported
            && are_lines(&written, field(row, ';', 4))
            && are_lines(&reported, field(row, ';', 5))
            && files.asked.as_str() == field(row, ';', 6),
    )
}

fn is_followed(alloc: Global, row: &str) -> Result<bool, AllocError> {
    let words = words_of(alloc, field(row, ';', 1))?;
    ends_as(alloc, &words, row)
}

#[test]
fn statuses_lines_and_files(rt: HostRuntime) -> Result<(), Fail> {
    for row in ROWS.lines() {
        let is_followed = row.starts_with('#') || is_followed(rt.alloc(), row)?;
        assert!(rt; is_followed, "{row}");
    }
    Ok(())
}
