//! The control box of a glyph's outline (TN 5177).
ghost use Rattle.std.specs.Prelude.{◌≡◌, ◌≢◌, ◌≤◌, ◌<◌, ◌+◌, ◌*◌, ◌-◌, length, IfOk, IfErr, Ok, Err};
ghost use Rattle.font_bytes.specs.declared.fault.TableFault.{TableFault};
ghost use Rattle.font_charstrings.specs.Machine.{state};
ghost use Rattle.font_cff.specs.Outlines.{whole, box_of, start_run, start_pen, accent_of, first_glyph, glyph_in_room, component, dict_index, private_at, context_of, charstring_run, part_pen, composed_pen, glyph_pen, glyph_box};

use crate::fonts::Private;
use crate::header::Cff;
use font_bytes::fault::TableFault;
use font_bytes::room::Room;
use font_charstrings::index::{Span, object};
use font_charstrings::machine::{Context, run_steps};
use font_charstrings::operators::Run;
use font_charstrings::pen::{ORIGIN, Pen, moved_pen, new_pen};
use font_metrics::GlyphBox;
use font_strings::standard_code;

/// What the outlines of a table share: its private DICTs, the index of the private DICT of each glyph (none where all have
/// the first one), and the string numbers of the glyphs.
#[derive(Debug, Drop)]
pub struct Outlines {
    pub cff: Cff,
    pub privates: Vec<Private>,
    pub selects: Vec<u16>,
    pub sids: Vec<u32>,
}

/// What is reused from glyph to glyph: operands and calls.
#[derive(Debug, Drop)]
pub struct Work {
    pub stack: Vec<u32>,
    pub calls: Vec<Span>,
}

/// The nearest whole number of font units, of two the one farther from 0, within 31 bits.
#[tactic(auto, unfolding(crate::specs::Outlines::whole))]
fn whole(coordinate: u64) -> i32
    ensures { result ≡ whole coordinate }
{
    if coordinate >= ORIGIN {
        let units = ((coordinate - ORIGIN + 32768) / 65536).min(0x7fff_ffff);
        return units as i32;
    }
    let units = ((ORIGIN - coordinate + 32768) / 65536).min(0x7fff_ffff);
    -(units as i32)
}

/// The box of what a pen has drawn.
#[tactic(auto, unfolding(crate::specs::Outlines::box_of))]
fn box_of(pen: Pen) -> GlyphBox
    ensures { result ≡ box_of pen }
{
    if pen.right < pen.left {
        return GlyphBox {
            left: 0,
            bottom: 0,
            right: 0,
            top: 0,
        };
    }
    GlyphBox {
        left: whole(pen.left),
        bottom: whole(pen.bottom),
        right: whole(pen.right),
        top: whole(pen.top),
    }
}

/// A charstring before its first byte.
#[tactic(auto, unfolding(crate::specs::Outlines::start_run))]
fn start_run(span: Span, pen: Pen, regions: u16) -> Run
    ensures { result ≡ start_run span pen regions }
{
    Run {
        pen,
        at: span.at,
        end: span.end,
        stems: 0,
        regions,
        is_done: false,
    }
}

/// A pen with the box of another one, from the origin moved by two operands on.
#[tactic(auto, unfolding(crate::specs::Outlines::start_pen))]
fn start_pen(pen: Pen, dx: u32, dy: u32) -> Pen
    ensures { result ≡ start_pen pen dx dy }
{
    let fresh = Pen {
        x: ORIGIN,
        y: ORIGIN,
        left: pen.left,
        bottom: pen.bottom,
        right: pen.right,
        top: pen.top,
        is_open: false,
    };
    moved_pen(fresh, dx, dy)
}

/// The operands of endchar that compose a glyph: where the accent is, and the codes of base and accent.
#[derive(Clone, Copy, PartialEq, Eq, Debug)]
pub struct Accent {
    pub dx: u32,
    pub dy: u32,
    pub base: u32,
    pub accent: u32,
}

/// The last four operands.
#[tactic(auto, unfolding(crate::specs::Outlines::accent_of))]
fn accent_of(stack: &[u32]) -> Accent
    requires { 4 ≤ length stack.now }
    ensures { result ≡ accent_of stack.now }
{
    let count = stack.len();
    Accent {
        dx: stack[count - 4],
        dy: stack[count - 3],
        base: stack[count - 2],
        accent: stack[count - 1],
    }
}

/// The first glyph with a string number.
#[tactic(auto, unfolding(crate::specs::Outlines::first_glyph))]
fn find_sid(sids: &[u32], sid: u32) -> Option<usize>
    ensures { result ≡ first_glyph sids.now sid }
{
    sids.iter().position(|s| *s == sid)
}

/// A glyph that was found, whose number takes room.
fn take_found(glyph: Option<usize>, at: usize, room: &mut Room) -> Result<usize, TableFault>
    ensures ok { IfOk result (λ g. glyph_in_room at room.old.left glyph ≡ Ok (g, room.new.left)) }
    ensures refused { IfErr result (λ e. glyph_in_room at room.old.left glyph ≡ Err e) }
{
    match glyph {
        Some(number) => {
            room.take(number)?;
            Ok(number)
        }
        None => Err(TableFault::Kind(at)),
    }
}

/// The glyph that the charset gives the character with a code of the standard encoding. As many glyphs as were looked at
/// take room.
#[tactic(auto, unfolding(crate::specs::Outlines::component))]
fn find_component(
    sids: &[u32],
    operand: u32,
    at: usize,
    room: &mut Room,
) -> Result<usize, TableFault>
    ensures ok { IfOk result (λ g. component sids.now operand at room.old.left ≡ Ok (g, room.new.left)) }
    ensures refused { IfErr result (λ e. component sids.now operand at room.old.left ≡ Err e) }
{
    let code = operand / 65536;
    if code > 255 {
        return Err(TableFault::Kind(at));
    }
    let sid = u32::from(standard_code(code as u8));
    take_found(find_sid(sids, sid), at, room)
}

/// The index of a glyph's private DICT.
#[tactic(auto, unfolding(crate::specs::Outlines::dict_index))]
fn dict_index(selects: &[u16], glyph: usize, at: usize) -> Result<usize, TableFault>
    ensures { result ≡ dict_index selects.now glyph at }
{
    if selects.is_empty() {
        return Ok(0);
    }
    if glyph < selects.len() {
        return Ok(usize::from(selects[glyph]));
    }
    Err(TableFault::Kind(at))
}

/// The private DICT with an index.
fn private_at(privates: &[Private], index: usize, at: usize) -> Result<Private, TableFault>
    ensures { result ≡ private_at privates.now index at }
{
    match privates.get(index) {
        Some(private) => Ok(*private),
        None => Err(TableFault::Kind(at)),
    }
}

/// What the charstrings of a private DICT share.
#[tactic(auto, unfolding(crate::specs::Outlines::context_of))]
fn context_of(cff: Cff, private: Private) -> Context
    ensures { result ≡ context_of cff private }
{
    Context {
        global: cff.global,
        local: private.local,
        store: cff.top.store,
    }
}

/// Runs the charstring of a glyph; the operands that it leaves are those of an accent. The glyph takes a row of room.
#[tactic(auto, unfolding(crate::specs::Outlines::charstring_run))]
fn run_charstring(
    table: &[u8],
    outlines: &Outlines,
    glyph: usize,
    pen: Pen,
    work: &mut Work,
    room: &mut Room,
) -> Result<Pen, TableFault>
    ensures ok { IfOk result (λ p. charstring_run table.now outlines.now.cff outlines.now.privates.items outlines.now.selects.items room.old.left glyph pen
        ≡ Ok ((p, work.new.stack.items), room.new.left)) }
    ensures refused { IfErr result (λ e. e ≢ TableFault.OutOfMemory
        → charstring_run table.now outlines.now.cff outlines.now.privates.items outlines.now.selects.items room.old.left glyph pen ≡ Err e) }
{
    let cff = outlines.cff;
    let index = dict_index(outlines.selects.as_slice(), glyph, cff.top.selects as usize)?;
    let private = private_at(outlines.privates.as_slice(), index, cff.top.fonts as usize)?;
    let span = object(table, cff.glyphs, glyph)?;
    room.take(1)?;
    work.stack.clear();
    work.calls.clear();
    let start = start_run(span, pen, private.regions);
    let run = run_steps(
        table,
        context_of(cff, private),
        start,
        &mut work.stack,
        &mut work.calls,
        room,
    )?;
    Ok(run.pen)
}

/// Draws a part of a composed glyph, which isn't composed itself.
#[tactic(auto, unfolding(crate::specs::Outlines::part_pen))]
fn draw_part(
    table: &[u8],
    outlines: &Outlines,
    glyph: usize,
    pen: Pen,
    work: &mut Work,
    room: &mut Room,
) -> Result<Pen, TableFault>
    ensures ok { IfOk result (λ p. part_pen table.now outlines.now.cff outlines.now.privates.items outlines.now.selects.items room.old.left glyph pen
        ≡ Ok (p, room.new.left)) }
    ensures refused { IfErr result (λ e. e ≢ TableFault.OutOfMemory
        → part_pen table.now outlines.now.cff outlines.now.privates.items outlines.now.selects.items room.old.left glyph pen ≡ Err e) }
{
    let drawn = run_charstring(table, outlines, glyph, pen, work, room)?;
    if work.stack.len() >= 4 {
        return Err(TableFault::Kind(outlines.cff.glyphs.offsets as usize));
    }
    Ok(drawn)
}

/// Draws base and accent.
#[tactic(auto, unfolding(crate::specs::Outlines::composed_pen))]
fn compose(
    table: &[u8],
    outlines: &Outlines,
    accent: Accent,
    pen: Pen,
    work: &mut Work,
    room: &mut Room,
) -> Result<Pen, TableFault>
    ensures ok { IfOk result (λ p. composed_pen table.now outlines.now.cff outlines.now.privates.items outlines.now.selects.items outlines.now.sids.items room.old.left accent pen
        ≡ Ok (p, room.new.left)) }
    ensures refused { IfErr result (λ e. e ≢ TableFault.OutOfMemory
        → composed_pen table.now outlines.now.cff outlines.now.privates.items outlines.now.selects.items outlines.now.sids.items room.old.left accent pen ≡ Err e) }
{
    let at = outlines.cff.glyphs.offsets as usize;
    let base = find_component(outlines.sids.as_slice(), accent.base, at, room)?;
    let with_base = draw_part(table, outlines, base, start_pen(pen, 0, 0), work, room)?;
    let mark = find_component(outlines.sids.as_slice(), accent.accent, at, room)?;
    draw_part(
        table,
        outlines,
        mark,
        start_pen(with_base, accent.dx, accent.dy),
        work,
        room,
    )
}

/// Draws a glyph.
#[tactic(auto, unfolding(crate::specs::Outlines::glyph_pen))]
fn draw_glyph(
    table: &[u8],
    outlines: &Outlines,
    glyph: usize,
    work: &mut Work,
    room: &mut Room,
) -> Result<Pen, TableFault>
    ensures ok { IfOk result (λ p. glyph_pen table.now outlines.now.cff outlines.now.privates.items outlines.now.selects.items outlines.now.sids.items room.old.left glyph
        ≡ Ok (p, room.new.left)) }
    ensures refused { IfErr result (λ e. e ≢ TableFault.OutOfMemory
        → glyph_pen table.now outlines.now.cff outlines.now.privates.items outlines.now.selects.items outlines.now.sids.items room.old.left glyph ≡ Err e) }
{
    let pen = run_charstring(table, outlines, glyph, new_pen(), work, room)?;
    if work.stack.len() < 4 {
        return Ok(pen);
    }
    let accent = accent_of(work.stack.as_slice());
    compose(table, outlines, accent, pen, work, room)
}

/// The box of a glyph.
#[tactic(auto, unfolding(crate::specs::Outlines::glyph_box))]
pub fn glyph_box(
    table: &[u8],
    outlines: &Outlines,
    glyph: usize,
    work: &mut Work,
    room: &mut Room,
) -> Result<GlyphBox, TableFault>
    ensures ok { IfOk result (λ b. glyph_box table.now outlines.now.cff outlines.now.privates.items outlines.now.selects.items outlines.now.sids.items room.old.left glyph
        ≡ Ok (b, room.new.left)) }
    ensures refused { IfErr result (λ e. e ≢ TableFault.OutOfMemory
        → glyph_box table.now outlines.now.cff outlines.now.privates.items outlines.now.selects.items outlines.now.sids.items room.old.left glyph ≡ Err e) }
{
    let pen = draw_glyph(table, outlines, glyph, work, room)?;
    Ok(box_of(pen))
}
