//! The header and the sections of tables in binary form.
ghost use Rattle.std.specs.Prelude.{◌≡◌, ◌≢◌, ◌≤◌, ◌<◌, ◌+◌, ◌*◌, ℕ, List, IfOk, IfErr, OnErr, OnOk, true, false, Ok, Err, length};
ghost use Rattle.font_bytes.specs.Words.{fits};
ghost use Rattle.shell_tables_bytes.specs.Sections.{record_count, section, section_start};

use crate::fault::BinaryFault;
use font_bytes::words::{fits, long};
use std::alloc::Global;

/// How many bytes the header has.
pub const HEADER: usize = 160;

/// How many bytes the header has for a section.
const SECTION: usize = 8;

/// Reads the records of one kind.
pub(crate) trait RecordReader: Copy {
    type Row: Drop;

    ghost means: { List ℕ → ℕ → Self.Row };

    ghost width: { ℕ };

    /// How many bytes a record has.
    fn width(self) -> u8
        ensures { result ≡ width };

    /// The record at an offset.
    fn read(self, bytes: &[u8], at: usize) -> Self::Row
        requires { at + width ≤ length bytes.now }
        ensures { result ≡ means bytes.now at };
}

/// Where the records of a section are, of a width, and how many it has.
#[derive(Clone, Copy)]
pub(crate) struct Section {
    pub start: usize,
    pub count: u32,
}

/// Where the records of a section are, which have one width.
#[tactic(auto, using(crate::proofs::Widths::all_fit))]
pub(crate) fn section_of(bytes: &[u8], number: usize, width: u8) -> Result<Section, BinaryFault>
    requires header { HEADER ≤ length bytes.now }
    requires inside { number < 19 }
    ensures start { IfOk result (λ s. s.start ≡ section_start bytes.now number) }
    ensures count { IfOk result (λ s. s.count ≡ record_count bytes.now number) }
    ensures within { IfOk result (λ s. s.start + width * s.count ≤ length bytes.now) }
    ensures inside { OnOk result
        (fits bytes.now (section_start bytes.now number) (width * record_count bytes.now number) ≡ true) }
    ensures refused { OnErr result
        (fits bytes.now (section_start bytes.now number) (width * record_count bytes.now number) ≡ false) }
    ensures short { IfErr result (λ e. e ≡ BinaryFault.Short) }
{
    let start = long(bytes, SECTION * number) as usize;
    let count = long(bytes, SECTION * number + 4);
    if fits(bytes, start, width as usize * count as usize) {
        Ok(Section { start, count })
    } else {
        Err(BinaryFault::Short)
    }
}

/// The records of a section.
#[tactic(auto, using(font_bytes::proofs::Recorded::records_more, font_bytes::proofs::Recorded::records_end, crate::proofs::Widths::one_fits, crate::proofs::Widths::all_fit))]
pub(crate) fn read_section<T: RecordReader>(
    alloc: Global,
    bytes: &[u8],
    number: usize,
    reader: T,
) -> Result<Vec<T::Row>, BinaryFault>
    requires header { HEADER ≤ length bytes.now }
    requires inside { number < 19 }
    ensures ok { IfOk result (λ v. section T.means T.width number bytes.now ≡ Ok v.items) }
    ensures refused { IfErr result (λ e. e ≢ BinaryFault.OutOfMemory
        → section T.means T.width number bytes.now ≡ Err e) }
{
    let width = reader.width();
    let section = section_of(bytes, number, width)?;
    let mut rows = Vec::with_capacity(alloc, section.count as usize)?;
    for index in 0..section.count {
        let at = section.start + width as usize * index as usize;
        rows.push(reader.read(bytes, at))?;
    }
    Ok(rows)
}
