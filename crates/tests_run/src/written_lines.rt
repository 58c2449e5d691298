//! Texts of several lines, each of which is a text of its own, with writes that fail.
use crate::memory::plain_options;
use crate::streams::{ByteWriter, with_memory};
use buffer_glyphs::flags::SerializeFlags;
use shell_readers::fault::{LineFault, RunFault};
use shell_readers::options::Options;
use shell_run::running::run;
use std::alloc::{AllocError, Global};
use std::test::Fail;

static FONT: &str = r#"{"cmap":[[97,1]],"h":[[1,500]]}"#;

/// Glyphs are printed by their numbers and with extents.
const EXTENTS: SerializeFlags = SerializeFlags(12);

/// Lines of five glyphs, which are printed in more than two parts of 65,536 bytes.
const COUNT: usize = 1600;

static LINE: &str =
    "1=0+500<0,0,0,0>|1=1+500<0,0,0,0>|1=2+500<0,0,0,0>|1=3+500<0,0,0,0>|1=4+500<0,0,0,0>\n";

fn many_lines(alloc: Global) -> Result<Vec<u8>, AllocError> {
    let mut text = Vec::with_capacity(alloc, 6 * COUNT)?;
    for _ in 0..COUNT {
        text.extend_from_slice(b"aaaaa\n")?;
    }
    Ok(text)
}

// The result of a run over a text of lines, and what it writes with room for a number of bytes.
fn ran_with_room(
    alloc: Global,
    keep_going: bool,
    text: &[u8],
    room: usize,
) -> Result<(Result<(), RunFault>, Vec<u8>), AllocError> {
    let mut out = ByteWriter::new(alloc, room)?;
    let options = Options {
        flags: EXTENTS,
        lines: true,
        keep_going,
        ..plain_options(alloc)
    };
    let (mut tables, mut font, mut text) = (b"{}".as_slice(), FONT.as_bytes(), text);
    let answer = run(alloc, options, &mut tables, &mut font, &mut text, &mut out);
    Ok((with_memory(answer)?, out.taken))
}

fn is_front(written: &[u8], room: usize) -> bool {
    written.len() == room
        && written
            .chunks(LINE.len())
            .all(|part| LINE.as_bytes().starts_with(part))
}

// A write that fails after one part, after two, and in the first; and one that has room for all.
#[test]
fn writes_that_fail_leave_a_front(rt: HostRuntime) -> Result<(), Fail> {
    let text = many_lines(rt.alloc())?;
    let whole = COUNT * LINE.len();
    for keep_going in [true, false] {
        for (room, answer) in [
            (whole, Ok(())),
            (whole - 1, Err(RunFault::Write)),
            (132_000, Err(RunFault::Write)),
            (70_000, Err(RunFault::Write)),
            (17, Err(RunFault::Write)),
            (0, Err(RunFault::Write)),
        ] {
            let (got, written) = ran_with_room(rt.alloc(), keep_going, &text, room)?;
            assert!(rt;
                got == answer && is_front(&written, room),
                "{keep_going} {room}"
            );
        }
    }
    Ok(())
}

// A line's fault has the status and the name of the same fault of a whole text.
#[test]
fn faults_of_lines_are_named(rt: HostRuntime) -> Result<(), Fail> {
    let fault = RunFault::Line(3, LineFault::NotUtf8);
    assert!(rt; fault.status() == 4 && fault.name() == "NotUtf8");
    let message = fault.to_string(rt.alloc())?;
    assert!(rt; message.as_str() == "NotUtf8 line 3");
    Ok(())
}
