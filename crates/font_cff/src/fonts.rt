//! Font DICTs and private DICTs (TN 5176, 15 to 18; OpenType, chapter CFF2).
ghost use Rattle.std.specs.Prelude.{◌≡◌, ◌≢◌, ◌≤◌, ◌<◌, ◌+◌, ◌*◌, ◌-◌, length, IfOk, IfErr, Ok, Err};
ghost use Rattle.font_bytes.specs.declared.fault.TableFault.{TableFault};
ghost use Rattle.font_common.specs.Offsets.{tables_in};
ghost use Rattle.font_cff.specs.Fonts.{default_regions, local_subrs, private_of, font_private, numbers, privates_of};

use crate::dict::{Dict, read_dict};
use crate::header::Cff;
use font_bytes::fault::TableFault;
use font_bytes::room::Room;
use font_bytes::words::need;
use font_charstrings::index::{Index, Span, no_objects, object, read_index};
use font_charstrings::operators::regions_at;
use std::alloc::Global;

/// What the glyphs of a font DICT share: its subroutines, and the regions of a blend.
#[derive(Clone, Copy, PartialEq, Eq, Debug)]
pub struct Private {
    pub local: Index,
    pub regions: u16,
}

/// The number of regions of item variation data, 0 without a variation store.
fn default_regions(table: &[u8], store: u32, index: usize) -> Result<u16, TableFault>
    ensures { result ≡ default_regions table.now store index }
{
    if store == 0 {
        return Ok(0);
    }
    regions_at(table, store, index)
}

/// The subroutines of the private DICT at an offset.
fn local_subrs(table: &[u8], at: u32, subrs: u32, is_cff2: bool) -> Result<Index, TableFault>
    ensures { result ≡ local_subrs table.now at subrs is_cff2 }
{
    if subrs == 0 {
        return Ok(no_objects());
    }
    read_index(table, at as usize + subrs as usize, is_cff2)
}

/// The private DICT that a DICT names; its bytes take room.
#[tactic(auto, unfolding(crate::specs::Fonts::private_of))]
fn read_private(table: &[u8], cff: Cff, dict: Dict, room: &mut Room) -> Result<Private, TableFault>
    ensures ok { IfOk result (λ p. private_of table.now cff dict room.old.left ≡ Ok (p, room.new.left)) }
    ensures refused { IfErr result (λ e. private_of table.now cff dict room.old.left ≡ Err e) }
{
    let at = dict.private_at as usize;
    let size = dict.private_size as usize;
    need(table, at, size)?;
    room.take(size)?;
    let private = read_dict(table, Span { at, end: at + size })?;
    let local = local_subrs(table, dict.private_at, private.subrs, cff.is_cff2)?;
    let regions = default_regions(table, cff.top.store, private.vsindex as usize)?;
    Ok(Private { local, regions })
}

/// The private DICT of the font DICT with an index; the bytes of both, and one more, take room.
#[tactic(auto, unfolding(crate::specs::Fonts::font_private))]
fn read_font(
    table: &[u8],
    cff: Cff,
    dicts: Index,
    index: usize,
    room: &mut Room,
) -> Result<Private, TableFault>
    ensures ok { IfOk result (λ p. font_private table.now cff dicts room.old.left index ≡ Ok (p, room.new.left)) }
    ensures refused { IfErr result (λ e. font_private table.now cff dicts room.old.left index ≡ Err e) }
{
    let span = object(table, dicts, index)?;
    room.take(1)?;
    room.take(span.end.saturating_sub(span.at))?;
    let dict = read_dict(table, span)?;
    read_private(table, cff, dict, room)
}

/// The private DICTs of the font DICTs of an INDEX.
#[tactic(auto, using(crate::proofs::Lists::numbers_next, crate::proofs::Lists::numbers_end))]
fn read_fonts(
    alloc: Global,
    table: &[u8],
    cff: Cff,
    dicts: Index,
    room: &mut Room,
) -> Result<Vec<Private>, TableFault>
    ensures ok { IfOk result (λ v. tables_in (font_private table.now cff dicts) room.old.left (numbers 0 dicts.count)
        ≡ Ok (v.items, room.new.left)) }
    ensures refused { IfErr result (λ e. e ≢ TableFault.OutOfMemory
        → tables_in (font_private table.now cff dicts) room.old.left (numbers 0 dicts.count) ≡ Err e) }
{
    let mut privates = Vec::new(alloc);
    for index in 0..dicts.count as usize {
        let private = read_font(table, cff, dicts, index, room)?;
        privates.push(private)?;
    }
    Ok(privates)
}

/// The private DICTs of a table: of the font DICTs, or of the top DICT where it has no FDArray.
#[tactic(auto, unfolding(crate::specs::Fonts::privates_of))]
pub fn read_privates(
    alloc: Global,
    table: &[u8],
    cff: Cff,
    room: &mut Room,
) -> Result<Vec<Private>, TableFault>
    ensures ok { IfOk result (λ v. privates_of table.now cff room.old.left ≡ Ok (v.items, room.new.left)) }
    ensures refused { IfErr result (λ e. e ≢ TableFault.OutOfMemory → privates_of table.now cff room.old.left ≡ Err e) }
{
    if cff.top.fonts != 0 {
        let dicts = read_index(table, cff.top.fonts as usize, cff.is_cff2)?;
        return read_fonts(alloc, table, cff, dicts, room);
    }
    let private = read_private(table, cff, cff.top, room)?;
    let mut privates = Vec::new(alloc);
    privates.push(private)?;
    Ok(privates)
}
