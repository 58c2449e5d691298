//! Arrays of glyphs.
ghost use Rattle.std.specs.Prelude.{◌≡◌, ◌≢◌, ◌≤◌, ◌<◌, ◌+◌, ◌*◌, ◌-◌, ◌++◌, IfOk, IfErr, Ok, Err, length};
ghost use Rattle.font_bytes.specs.Words.{word};
ghost use Rattle.font_bytes.specs.Records.{records};
ghost use Rattle.font_substitution.specs.Glyphs.{glyph_list, counted_glyphs};

use font_bytes::fault::TableFault;
use font_bytes::room::Room;
use font_bytes::words::{need, word};
use std::alloc::Global;

/// Reads n glyphs from an offset on. A glyph takes a row of room.
#[tactic(auto, using(font_bytes::proofs::Recorded::records_more, font_bytes::proofs::Recorded::records_end))]
pub(crate) fn read_glyph_list(
    alloc: Global,
    table: &[u8],
    at: usize,
    count: usize,
    room: &mut Room,
) -> Result<Vec<u16>, TableFault>
    requires { count < 65536 }
    ensures ok { IfOk result (λ v. glyph_list room.old.left table.now at count ≡ Ok (v.items, room.new.left)) }
    ensures refused { IfErr result (λ e. e ≢ TableFault.OutOfMemory
        → glyph_list room.old.left table.now at count ≡ Err e) }
{
    need(table, at, 2 * count)?;
    room.take(count)?;
    let mut glyphs = Vec::with_capacity(alloc, count)?;
    for index in 0..count {
        glyphs.push(word(table, at + 2 * index))?;
    }
    Ok(glyphs)
}

/// Reads a count and that many glyphs.
pub(crate) fn read_counted_glyphs(
    alloc: Global,
    table: &[u8],
    at: usize,
    room: &mut Room,
) -> Result<Vec<u16>, TableFault>
    ensures ok { IfOk result (λ v. counted_glyphs room.old.left table.now at ≡ Ok (v.items, room.new.left)) }
    ensures refused { IfErr result (λ e. e ≢ TableFault.OutOfMemory
        → counted_glyphs room.old.left table.now at ≡ Err e) }
{
    need(table, at, 2)?;
    read_glyph_list(alloc, table, at + 2, usize::from(word(table, at)), room)
}
