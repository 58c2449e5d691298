//! Readers and writers that give and take a byte a call, or fail.
use crate::memory::plain_options;
use shell_readers::fault::RunFault;
use shell_run::running::run;
use std::alloc::{AllocError, Global};
use std::io;
use std::io::{ErrorKind, Read, Write};
use std::test::Fail;

/// Four glyphs and their widths.
static FONT: &str = r#"{"upem":1000,"ascender":800,"cmap":[[97,1],[98,2],[102,3],[105,4]],
  "h":[[1,500],[2,600],[3,300],[4,250]]}"#;

// Gives one byte per call and then the end, which it counts.
#[derive(Drop)]
struct ByteReader<'a> {
    rest: &'a [u8],
    ends: u32,
}

impl Read for ByteReader<'_> {
    fn read(&mut self, buf: &mut [u8]) -> io::Result<usize> {
        match (self.rest, buf) {
            ([first, rest @ ..], [space, ..]) => {
                *space = *first;
                self.rest = rest;
                Ok(1)
            }
            _ => {
                self.ends = self.ends.saturating_add(1);
                Ok(0)
            }
        }
    }
}

#[derive(Drop)]
struct FailingReader;

impl Read for FailingReader {
    fn read(&mut self, _buf: &mut [u8]) -> io::Result<usize> {
        Err(io::Error::from(ErrorKind::Other))
    }
}

// Gives one byte per call, and no end.
#[derive(Drop)]
struct EndlessReader;

impl Read for EndlessReader {
    fn read(&mut self, buf: &mut [u8]) -> io::Result<usize> {
        match buf {
            [space, ..] => {
                *space = b' ';
                Ok(1)
            }
            _ => Ok(0),
        }
    }
}

// Takes a number of bytes, one per call.
#[derive(Drop)]
pub(crate) struct ByteWriter {
    pub(crate) taken: Vec<u8>,
    room: usize,
}

impl ByteWriter {
    pub(crate) fn new(alloc: Global, room: usize) -> Result<ByteWriter, AllocError> {
        let taken = Vec::with_capacity(alloc, room)?;
        Ok(ByteWriter { taken, room })
    }
}

impl Write for ByteWriter {
    fn write(&mut self, buf: &[u8]) -> io::Result<usize> {
        match buf {
            [first, ..] if self.taken.len() < self.room => {
                self.taken.push(*first)?;
                Ok(1)
            }
            _ => Ok(0),
        }
    }

    fn flush(&mut self) -> io::Result<()> {
        Ok(())
    }
}

/// The result of a run, unless memory was refused.
pub(crate) fn with_memory(
    answer: Result<(), RunFault>,
) -> Result<Result<(), RunFault>, AllocError> {
    match answer {
        Err(RunFault::OutOfMemory) => Err(AllocError),
        answer => Ok(answer),
    }
}

fn reader(bytes: &[u8]) -> ByteReader<'_> {
    ByteReader {
        rest: bytes,
        ends: 0,
    }
}

// The output of a run with room for that many bytes, and its result; each reader is read to its end once.
fn ran_by_bytes(alloc: Global, room: usize) -> Result<(Result<(), RunFault>, Vec<u8>), Fail> {
    let options = plain_options(alloc);
    let (mut tables, mut font, mut text) = (reader(b"{}"), reader(FONT.as_bytes()), reader(b"ab"));
    let mut out = ByteWriter::new(alloc, room)?;
    let answer = run(alloc, options, &mut tables, &mut font, &mut text, &mut out);
    let answer = with_memory(answer)?;
    if (tables.ends, font.ends, text.ends) != (1, 1, 1) {
        return Err("an end that is asked for twice, or not at all".into());
    }
    Ok((answer, out.taken))
}

#[test]
fn lines_are_written_byte_by_byte(rt: HostRuntime) -> Result<(), Fail> {
    for (room, answer, written) in [
        (16, Ok(()), "1=0+500|2=1+600\n"),
        (15, Err(RunFault::Write), "1=0+500|2=1+600"),
        (7, Err(RunFault::Write), "1=0+500"),
        (0, Err(RunFault::Write), ""),
    ] {
        let (got, taken) = ran_by_bytes(rt.alloc(), room)?;
        assert!(rt; got == answer && taken.as_slice() == written.as_bytes());
    }
    Ok(())
}

// The results of a text, and of tables, that can't be read.
fn failed_reads(alloc: Global) -> Result<[Result<(), RunFault>; 2], Fail> {
    let mut out = Vec::new(alloc);
    let asked = plain_options(alloc);
    let (mut tables, mut font, mut text) = (b"{".as_slice(), b"{".as_slice(), FailingReader);
    let of_text = run(alloc, asked, &mut tables, &mut font, &mut text, &mut out);
    let asked = plain_options(alloc);
    let (mut tables, mut text) = (FailingReader, b"a".as_slice());
    let of_tables = run(alloc, asked, &mut tables, &mut font, &mut text, &mut out);
    Ok([with_memory(of_text)?, with_memory(of_tables)?])
}

#[test]
fn failed_reads_come_first(rt: HostRuntime) -> Result<(), Fail> {
    assert_eq!(rt; failed_reads(rt.alloc())?, [Err(RunFault::Read); 2]);
    Ok(())
}

// The result of tables without an end, and what is written.
fn ran_endlessly(alloc: Global) -> Result<(Result<(), RunFault>, Vec<u8>), AllocError> {
    let mut out = Vec::new(alloc);
    let asked = plain_options(alloc);
    let (mut tables, mut font, mut text) = (EndlessReader, FONT.as_bytes(), b"ab".as_slice());
    let answer = run(alloc, asked, &mut tables, &mut font, &mut text, &mut out);
    Ok((with_memory(answer)?, out))
}

#[test]
fn reads_without_an_end_are_limited(rt: HostRuntime) -> Result<(), Fail> {
    let (answer, out) = ran_endlessly(rt.alloc())?;
    assert!(rt; answer == Err(RunFault::ReadLimit) && out.is_empty());
    Ok(())
}
