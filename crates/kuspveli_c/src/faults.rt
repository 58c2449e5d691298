//! The call that describes why a font of a font file isn't read, as `include/kuspveli.h` declares it.
ghost use Rattle.std.specs.Prelude.{◌≡◌, ◌≢◌, [], Err, List, MatchOption, codes};
ghost use Rattle.c_text.specs.Numbers.{parts_without};
ghost use Rattle.font_bytes.specs.Fault.{message_of};
ghost use Rattle.font_file.specs.Face.{face_in};
ghost use Rattle.kuspveli_c.specs.Faults.{Describes, HasWritten, IsWritten, fault_text};

use c_text::numbers::parts_without;
use c_text::written::write_front;
use font_bytes::fault::TableFault;
use font_file::{FontFault, read_font};
use std::alloc::Global;

/// Describes why the font with an index of a font file isn't read: the fault's name, and after it the table and the offset
/// that are at fault, where it has them. The file is read once more. Writes as many bytes as there is room for; answers how
/// many there are, 0 where the font is read.
#[tactic(auto, using(crate::proofs::Told::nothing_told, crate::proofs::Told::fault_told))]
#[unsafe(no_mangle)]
pub extern "C" fn kus_describe_fault(
    alloc: Global,
    bytes: &[u8],
    index: usize,
    flags: u32,
    text: &mut [u8],
) -> usize
    ensures { Describes (parts_without flags) bytes.now index text.old text.new result }
{
    let Some(fault) = fault_of(alloc, bytes, index, flags) else {
        return 0;
    };
    match fault.cause {
        TableFault::OutOfMemory => write_text("OutOfMemory", text),
        _ => write_fault(alloc, fault, text),
    }
}

/// Why the font with an index of a font file isn't read; none where it is.
#[tactic(auto, using(crate::proofs::Told::read_without_fault))]
fn fault_of(alloc: Global, bytes: &[u8], index: usize, flags: u32) -> Option<FontFault>
    ensures { MatchOption result (fault_text (face_in (parts_without flags) bytes.now index) ≡ [])
        (λ e. e.cause ≢ TableFault.OutOfMemory → face_in (parts_without flags) bytes.now index ≡ Err e) }
{
    match read_font(alloc, bytes, index, parts_without(flags)) {
        Ok(face) => {
            drop(face);
            None
        }
        Err(fault) => Some(fault),
    }
}

/// Writes a fault's text, or that of want of memory where there is none for it.
fn write_fault(alloc: Global, fault: FontFault, text: &mut [u8]) -> usize
    ensures { HasWritten (message_of fault) text.old text.new result }
{
    let Ok(told) = format!(in alloc; "{fault}") else {
        return write_text("OutOfMemory", text);
    };
    write_text(&told, text)
}

/// Writes as many bytes of a text as there is room for; answers how many there are.
fn write_text(told: &str, text: &mut [u8]) -> usize
    ensures { IsWritten told.now text.old text.new result }
{
    let bytes = told.as_bytes();
    write_front(bytes, text);
    bytes.len()
}
