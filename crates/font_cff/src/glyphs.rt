//! All glyphs of a table.
ghost use Rattle.std.specs.Prelude.{◌≡◌, ◌≢◌, ◌≤◌, ◌<◌, ◌+◌, ◌*◌, ◌-◌, length, IfOk, IfErr, Ok, Err};
ghost use Rattle.font_bytes.specs.declared.fault.TableFault.{TableFault};
ghost use Rattle.font_common.specs.Offsets.{tables_in};
ghost use Rattle.font_cff.specs.Fonts.{numbers};
ghost use Rattle.font_cff.specs.Outlines.{glyph_box};
ghost use Rattle.font_cff.specs.Glyphs.{value, font_selects, font_sids, outlines_of, boxes_of, wanted_boxes, wanted_names, glyphs_of, cff_at};

use crate::charset::read_charset;
use crate::fonts::read_privates;
use crate::header::{Cff, read_header};
use crate::names::read_names;
use crate::outlines::{Outlines, Work, glyph_box};
use crate::selects::read_selects;
use font_bytes::fault::TableFault;
use font_bytes::room::Room;
use font_metrics::GlyphBox;
use layout_face::parts::NameRow;
use std::alloc::Global;

/// What is read of a table.
#[derive(Clone, Copy, PartialEq, Eq, Debug)]
pub struct CffParts {
    /// Boxes are read.
    pub boxes: bool,
    /// Names are read.
    pub names: bool,
}

/// The glyphs of a table.
#[derive(Debug, Drop)]
pub struct CffGlyphs {
    /// The number of glyphs.
    pub count: usize,
    /// The box of each glyph, none where they aren't read.
    pub boxes: Vec<GlyphBox>,
    /// The names of glyphs, none where they aren't read or the font is CID-keyed.
    pub names: Vec<NameRow>,
}

/// The index of the private DICT of each glyph, none where the table has no FDSelect.
fn font_selects(alloc: Global, table: &[u8], cff: Cff) -> Result<Vec<u16>, TableFault>
    ensures ok { IfOk result (λ v. font_selects table.now cff ≡ Ok v.items) }
    ensures refused { IfErr result (λ e. e ≢ TableFault.OutOfMemory → font_selects table.now cff ≡ Err e) }
{
    if cff.top.selects == 0 || cff.top.fonts == 0 {
        return Ok(Vec::new(alloc));
    }
    read_selects(
        alloc,
        table,
        cff.top.selects as usize,
        cff.glyphs.count as usize,
    )
}

/// The string number of each glyph, none in CFF2 and in a CID-keyed font.
fn font_sids(alloc: Global, table: &[u8], cff: Cff) -> Result<Vec<u32>, TableFault>
    requires { cff.glyphs.count ≤ 65535 }
    ensures ok { IfOk result (λ v. font_sids table.now cff ≡ Ok v.items) }
    ensures refused { IfErr result (λ e. e ≢ TableFault.OutOfMemory → font_sids table.now cff ≡ Err e) }
{
    if cff.is_cff2 || cff.top.is_cid {
        return Ok(Vec::new(alloc));
    }
    read_charset(
        alloc,
        table,
        cff.top.charset as usize,
        cff.glyphs.count as usize,
    )
}

/// What the outlines share.
#[tactic(auto, unfolding(crate::specs::Glyphs::outlines_of))]
fn read_outlines(
    alloc: Global,
    table: &[u8],
    is_cff2: bool,
    room: &mut Room,
) -> Result<Outlines, TableFault>
    ensures ok { IfOk result (λ o. outlines_of table.now is_cff2 room.old.left
        ≡ Ok ((o.cff, o.privates.items, o.selects.items, o.sids.items), room.new.left)) }
    ensures refused { IfErr result (λ e. e ≢ TableFault.OutOfMemory → outlines_of table.now is_cff2 room.old.left ≡ Err e) }
{
    let cff = read_header(table, is_cff2)?;
    let privates = read_privates(alloc, table, cff, room)?;
    let selects = font_selects(alloc, table, cff)?;
    let sids = font_sids(alloc, table, cff)?;
    Ok(Outlines {
        cff,
        privates,
        selects,
        sids,
    })
}

/// The boxes of n glyphs.
#[tactic(auto, using(crate::proofs::Lists::numbers_next, crate::proofs::Lists::numbers_end), unfolding(crate::specs::Glyphs::boxes_of))]
fn read_boxes(
    alloc: Global,
    table: &[u8],
    outlines: &Outlines,
    count: usize,
    room: &mut Room,
) -> Result<Vec<GlyphBox>, TableFault>
    ensures ok { IfOk result (λ v. boxes_of table.now outlines.now.cff outlines.now.privates.items outlines.now.selects.items outlines.now.sids.items room.old.left count
        ≡ Ok (v.items, room.new.left)) }
    ensures refused { IfErr result (λ e. e ≢ TableFault.OutOfMemory
        → boxes_of table.now outlines.now.cff outlines.now.privates.items outlines.now.selects.items outlines.now.sids.items room.old.left count ≡ Err e) }
{
    let mut work = Work {
        stack: Vec::new(alloc),
        calls: Vec::new(alloc),
    };
    let mut boxes = Vec::new(alloc);
    for glyph in 0..count {
        let found = glyph_box(table, outlines, glyph, &mut work, room)?;
        boxes.push(found)?;
    }
    Ok(boxes)
}

/// The boxes, where they are wanted.
fn wanted_boxes(
    alloc: Global,
    table: &[u8],
    outlines: &Outlines,
    parts: CffParts,
    room: &mut Room,
) -> Result<Vec<GlyphBox>, TableFault>
    ensures ok { IfOk result (λ v. wanted_boxes table.now outlines.now.cff outlines.now.privates.items outlines.now.selects.items outlines.now.sids.items parts room.old.left
        ≡ Ok (v.items, room.new.left)) }
    ensures refused { IfErr result (λ e. e ≢ TableFault.OutOfMemory
        → wanted_boxes table.now outlines.now.cff outlines.now.privates.items outlines.now.selects.items outlines.now.sids.items parts room.old.left ≡ Err e) }
{
    if parts.boxes {
        return read_boxes(
            alloc,
            table,
            outlines,
            outlines.cff.glyphs.count as usize,
            room,
        );
    }
    Ok(Vec::new(alloc))
}

/// The names, where they are wanted.
fn wanted_names(
    alloc: Global,
    table: &[u8],
    outlines: &Outlines,
    parts: CffParts,
    room: &mut Room,
) -> Result<Vec<NameRow>, TableFault>
    ensures ok { IfOk result (λ v. wanted_names table.now outlines.now.cff outlines.now.sids.items parts room.old.left
        ≡ Ok (v.items, room.new.left)) }
    ensures refused { IfErr result (λ e. e ≢ TableFault.OutOfMemory
        → wanted_names table.now outlines.now.cff outlines.now.sids.items parts room.old.left ≡ Err e) }
{
    if parts.names {
        return read_names(
            alloc,
            table,
            outlines.cff.strings,
            outlines.sids.as_slice(),
            room,
        );
    }
    Ok(Vec::new(alloc))
}

/// The glyphs by what their outlines share.
#[tactic(auto, unfolding(crate::specs::Glyphs::glyphs_of))]
fn read_glyphs(
    alloc: Global,
    table: &[u8],
    outlines: &Outlines,
    parts: CffParts,
    room: &mut Room,
) -> Result<CffGlyphs, TableFault>
    ensures ok { IfOk result (λ g. glyphs_of table.now outlines.now.cff outlines.now.privates.items outlines.now.selects.items outlines.now.sids.items parts room.old.left
        ≡ Ok (value g.count g.boxes.items g.names.items, room.new.left)) }
    ensures refused { IfErr result (λ e. e ≢ TableFault.OutOfMemory
        → glyphs_of table.now outlines.now.cff outlines.now.privates.items outlines.now.selects.items outlines.now.sids.items parts room.old.left ≡ Err e) }
{
    let boxes = wanted_boxes(alloc, table, outlines, parts, room)?;
    let names = wanted_names(alloc, table, outlines, parts, room)?;
    Ok(CffGlyphs {
        count: outlines.cff.glyphs.count as usize,
        boxes,
        names,
    })
}

/// Reads the glyphs of the table `CFF ` (`is_cff2`: CFF2, at the default instance), and of their boxes and names what is
/// wanted. A step of a charstring, a glyph that is drawn, a byte of a name and a byte of a font DICT or private DICT take
/// a row of room.
#[tactic(auto, unfolding(crate::specs::Glyphs::cff_at))]
pub fn read_cff(
    alloc: Global,
    table: &[u8],
    is_cff2: bool,
    parts: CffParts,
    room: &mut Room,
) -> Result<CffGlyphs, TableFault>
    ensures ok { IfOk result (λ g. cff_at table.now is_cff2 parts room.old.left
        ≡ Ok (value g.count g.boxes.items g.names.items, room.new.left)) }
    ensures refused { IfErr result (λ e. e ≢ TableFault.OutOfMemory → cff_at table.now is_cff2 parts room.old.left ≡ Err e) }
{
    let outlines = read_outlines(alloc, table, is_cff2, room)?;
    read_glyphs(alloc, table, &outlines, parts, room)
}
