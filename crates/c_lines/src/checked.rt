//! Lines that keep a text's glyphs only where the law of safe breaks speaks of both of their ends
//! (`shape_breaks::laws::law_broken_texts_show_both`).
ghost use Rattle.std.specs.Prelude.{◌≡◌, ◌≢◌, ◌≤◌, ◌+◌, if◌then◌else◌, IfErr, IfOk, OnErr, OnOk, drop, length, map};
ghost use Rattle.buffer_wrappers.specs.Wrappers.{IsText};
ghost use Rattle.c_lines.specs.Checked.{AreChecked, AreCheckedIn, character_of, line_between, checked_line, first_from, premises_numbered, without_glyphs};
ghost use Rattle.c_text.specs.Texts.{text_fault};
ghost use Rattle.shape_breaks.specs.Cuts.{AreTested, line_may_be_cut};
ghost use Rattle.shape_breaks.specs.Texts.{text_marks};

use crate::types::kus_line_t;
use buffer_core::buffer::hb_buffer_t;
use buffer_glyphs::info::hb_glyph_info_t;
use buffer_tags::feature::Feature;
use buffer_unicode_tables::UnicodeTables;
use c_text::font::Font;
use c_text::input::Input;
use c_text::plan::plan_for;
use c_text::texts::{features_of, put_text};
use c_text::types::kus_text_t;
use shape_breaks::{BreakPremises, TextMarks, line_may_be_cut};
use shape_pipeline::ShapePlan;
use shell_readers::fault::RunFault;
use std::alloc::{AllocError, Global};

const LAWFUL: u32 = 1;

const MARKS: u32 = 2;

const TYPES: u32 = 4;

const PRIVATE_MARKS: u32 = 8;

/// The premises that a font and its tables keep, as C passes them.
#[tactic(auto, using(crate::proofs::Checking::tested_of_font))]
pub fn tested_premises(font: &Font) -> u32
    ensures { AreTested font.now.input.tables.characters font.now.input.face (premises_numbered result) }
{
    let input = font.input();
    premises_number(BreakPremises::of_font(input.data().tables, input.face()))
}

#[tactic(auto, using(crate::proofs::Checking::numbered_back))]
fn premises_number(premises: BreakPremises) -> u32
    ensures { premises_numbered result ≡ premises }
{
    bit(premises.is_lawful, LAWFUL)
        | bit(premises.keeps_marks, MARKS)
        | bit(premises.keeps_types, TYPES)
        | bit(premises.keeps_private_marks, PRIVATE_MARKS)
}

fn bit(is_set: bool, value: u32) -> u32
    ensures { result ≡ (if is_set then value else 0) }
{
    if is_set { value } else { 0 }
}

fn premises_numbered(number: u32) -> BreakPremises
    ensures { result ≡ premises_numbered number }
{
    BreakPremises {
        is_lawful: number & LAWFUL != 0,
        keeps_marks: number & MARKS != 0,
        keeps_types: number & TYPES != 0,
        keeps_private_marks: number & PRIVATE_MARKS != 0,
    }
}

/// Leaves glyphs of their own only to those lines of a text whose ends the law speaks of, under premises.
#[tactic(auto, using(crate::proofs::Checking::guessed_is_text, crate::proofs::Checking::lines_checked))]
pub fn check_lines(
    alloc: Global,
    font: &Font,
    premises: u32,
    text: &kus_text_t<'_>,
    lines: &mut [kus_line_t],
) -> Result<(), RunFault>
    ensures checked { OnOk result (AreChecked font.now.input (premises_numbered premises) text.now lines.old lines.new) }
    ensures refused { IfErr result (λ e. e ≢ RunFault.OutOfMemory → text_fault text.now ≡ Some e) }
    ensures kept { OnErr result (lines.new ≡ lines.old) }
{
    let mut buffer = hb_buffer_t::new(alloc);
    put_text(alloc, text, &mut buffer)?;
    buffer.guess_segment_properties();
    let features = features_of(alloc, text)?;
    let premises = premises_numbered(premises);
    check_in(alloc, font.input(), premises, &features, &buffer, lines)?;
    Ok(())
}

/// The same of lines of a text in its buffer, whose direction and script are guessed.
#[tactic(auto, using(crate::proofs::Checking::characters_are))]
fn check_in(
    alloc: Global,
    input: &Input,
    premises: BreakPremises,
    features: &[Feature],
    buffer: &hb_buffer_t,
    lines: &mut [kus_line_t],
) -> Result<(), AllocError>
    requires { IsText buffer.now }
    ensures checked { OnOk result (AreCheckedIn input.now premises features.now buffer.now lines.old lines.new) }
    ensures kept { OnErr result (lines.new ≡ lines.old) }
{
    let text = characters_of(alloc, buffer.info_slice())?;
    let plan = plan_for(alloc, input, features, buffer)?;
    let tables = input.data().tables;
    check_each(premises, &plan, tables, buffer.info_slice(), &text, lines);
    Ok(())
}

/// The characters of a text's glyphs.
fn characters_of(alloc: Global, infos: &[hb_glyph_info_t]) -> Result<Vec<char>, AllocError>
    ensures { IfOk result (λ text. text.items ≡ map character_of infos.now) }
{
    infos.iter().map(character_of).collect(alloc)
}

fn character_of(info: &hb_glyph_info_t) -> char
    ensures { result ≡ character_of info.now }
{
    match char::from_u32(info.glyph_id) {
        Some(u) => u,
        None => '\u{FFFD}',
    }
}

fn check_each(
    premises: BreakPremises,
    plan: &ShapePlan,
    tables: &UnicodeTables,
    infos: &[hb_glyph_info_t],
    text: &[char],
    lines: &mut [kus_line_t],
)
    requires { text.now ≡ map (λ (g : _). g.glyph_id) infos.now }
    ensures { lines.new ≡ map (checked_line premises tables.now plan.now infos.now) lines.old }
{
    let marks = TextMarks::of_text(tables, text);
    let mut unit = 0;
    let mut index = 0;
    for k in 0..lines.len() {
        let line = lines[k];
        let from = first_from(infos, unit, index, line.start);
        let to = first_from(infos, line.start, from, line.end);
        lines[k] = checked(premises, plan, tables, text, marks, line, from, to);
        unit = line.end;
        index = to;
    }
}

/// A line of the characters between two indices, which keeps its glyphs where both of its ends may be cut.
fn checked(
    premises: BreakPremises,
    plan: &ShapePlan,
    tables: &UnicodeTables,
    text: &[char],
    marks: TextMarks,
    line: kus_line_t,
    from: usize,
    to: usize,
) -> kus_line_t
    requires from { from ≤ length text.now }
    requires to { to ≤ length text.now }
    requires marks { marks ≡ text_marks tables.now text.now }
    ensures { result ≡ line_between premises tables.now plan.now text.now from to line }
{
    if line.is_own && !may_be_kept(premises, plan, tables, text, marks, from, to) {
        return without_glyphs(line);
    }
    line
}

/// Whether both ends of a line between two indices may be cut; one that ends before it begins has no such ends.
fn may_be_kept(
    premises: BreakPremises,
    plan: &ShapePlan,
    tables: &UnicodeTables,
    text: &[char],
    marks: TextMarks,
    from: usize,
    to: usize,
) -> bool
    requires from { from ≤ length text.now }
    requires to { to ≤ length text.now }
    requires marks { marks ≡ text_marks tables.now text.now }
    ensures { result
        ≡ line_may_be_cut premises tables.now plan.now.shaper plan.now.script_plan.direction plan.now.script_plan.script
        text.now from to }
{
    from <= to && line_may_be_cut(premises, plan, tables, text, marks, from, to)
}

/// The same line, which has to be shaped again.
fn without_glyphs(line: kus_line_t) -> kus_line_t
    ensures { result ≡ without_glyphs line }
{
    kus_line_t {
        first_glyph: 0,
        end_glyph: 0,
        is_own: false,
        ..line
    }
}

/// The index of the first character that is not before a unit, where that of another unit is known. Lines in the order of a
/// text take one walk over it in all.
#[tactic(auto, using(crate::proofs::Checking::first_goes, crate::proofs::Checking::first_stops, crate::proofs::Checking::first_ends))]
fn first_from(infos: &[hb_glyph_info_t], known: usize, index: usize, unit: usize) -> usize
    requires { index ≡ first_from known infos.now }
    ensures is { result ≡ first_from unit infos.now }
    ensures within { result ≤ length infos.now }
{
    let begin = walk_start(infos, known, index, unit);
    for k in begin..infos.len() {
        if (infos[k].cluster as usize) >= unit {
            return k;
        }
    }
    infos.len()
}

/// Where the walk to the first character that is not before a unit begins: all characters before it are before the unit.
#[tactic(auto, using(crate::proofs::Checking::first_later, crate::proofs::Checking::first_within))]
fn walk_start(infos: &[hb_glyph_info_t], known: usize, index: usize, unit: usize) -> usize
    requires { index ≡ first_from known infos.now }
    ensures is { first_from unit infos.now ≡ result + first_from unit (drop result infos.now) }
    ensures within { result ≤ length infos.now }
{
    if known <= unit { index } else { 0 }
}
