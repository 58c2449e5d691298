//! The bytes of syllables that a machine finds.
use crate::buffers::{buffer_of, has_glyphs, limit};
use crate::rows::part;
use crate::spans::SingleGlyphs;
use buffer_glyphs::cause::ShapeCause;
use script_categories::hb_ot_script_shaper_t::UNIVERSAL_SHAPER;
use script_categories::{Accept, Step, SyllableMachine, SyllableMachines, SyllableTable};
use script_syllabic::spans::find_syllables;
use script_syllabic::syllables::setup_syllables;
use std::alloc::Global;
use std::test::Fail;

/// A step: a state, a category and the next state.
fn step(text: &str) -> Result<Step, Fail> {
    let mut words = text.split_whitespace();
    let state = words.next().ok_or("no state")?.parse::<u32>()?;
    let name = words.next().ok_or("no category")?;
    let next = words.next().ok_or("no next state")?.parse::<u32>()?;
    Ok(Step {
        state,
        category: UNIVERSAL_SHAPER
            .category_number(name)
            .ok_or("no category of that name")?,
        next,
    })
}

/// An accepting state and its kind.
fn accepting(text: &str) -> Result<Accept, Fail> {
    let mut words = text.split_whitespace();
    let state = words.next().ok_or("no state")?.parse::<u32>()?;
    let name = words.next().ok_or("no kind")?;
    Ok(Accept {
        state,
        kind: UNIVERSAL_SHAPER
            .kind_number(name)
            .ok_or("no kind of that name")?,
    })
}

fn machine_of(alloc: Global, row: &str) -> Result<SyllableMachine, Fail> {
    let mut machine = SyllableMachine::new(alloc);
    machine.states = part(row, 1).parse::<u32>()?;
    for text in part(row, 2).split_terminator(',') {
        machine.next.push(step(text)?)?;
    }
    for text in part(row, 3).split_terminator(',') {
        machine.accept.push(accepting(text)?)?;
    }
    Ok(machine)
}

fn table(alloc: Global, row: &str) -> Result<SyllableTable, Fail> {
    let universal = machine_of(alloc, row)?;
    let machines = SyllableMachines {
        indic: SyllableMachine::new(alloc),
        khmer: SyllableMachine::new(alloc),
        myanmar: SyllableMachine::new(alloc),
        universal,
    };
    match SyllableTable::new(machines) {
        Ok(table) => Ok(table),
        Err(_) => Err("no machine")?,
    }
}

fn agrees_with(alloc: Global, table: &SyllableTable, row: &str) -> Result<bool, Fail> {
    let mut buffer = buffer_of(alloc, UNIVERSAL_SHAPER, "", part(row, 4))?;
    limit(16_384, &mut buffer);
    find_syllables(alloc, table, &mut buffer)?;
    Ok(has_glyphs(UNIVERSAL_SHAPER, "s", part(row, 5), &buffer))
}

pub(crate) fn agrees(alloc: Global, row: &str) -> Result<bool, Fail> {
    let table = table(alloc, row)?;
    agrees_with(alloc, &table, row)
}

/// Whether a kind that the shaper doesn't have is refused as such.
fn is_unknown_kind(alloc: Global, kind: u8) -> Result<bool, Fail> {
    let mut buffer = buffer_of(alloc, UNIVERSAL_SHAPER, "", "U+61@0 p=7")?;
    let spans = SingleGlyphs { kind };
    match setup_syllables(alloc, &spans, UNIVERSAL_SHAPER, &mut buffer) {
        Ok(()) => Ok(false),
        Err(ShapeCause::UnknownSyllableKind) => Ok(true),
        Err(cause) => Err(cause)?,
    }
}

#[test]
fn refuses_an_unknown_kind(rt: HostRuntime) -> Result<(), Fail> {
    assert!(rt; is_unknown_kind(rt.alloc(), 15)?);
    Ok(())
}

// A name has the categories of the glyphs.
pub(crate) static ROWS: &str = "
# name; states; steps; accepting states; glyphs; their syllables
N; 2; 0 O 1, 0 CGJ 1, 0 R 1, 1 O 0, 1 N 1; ; 1@0 c=N p=7; * s=1.non
CGJ CGJ; 2; 0 CGJ 1, 0 VPre 1; ; 1@0 c=CGJ p=108, 2@1 c=CGJ p=108; *, *
CGJ; 3; 0 CGJ 1, 1 VPre 2, 2 CGJ 1, 2 ZWNJ 1, 2 R 1, 2 VPre 1; ; 1@0 c=CGJ p=108; *
B; 3; 0 B 2, 0 CGJ 2, 0 VPre 1, 1 B 2, 1 CGJ 2, 1 ZWNJ 1, 2 ZWNJ 0; 1 standard; 1@0 c=B p=7; * s=1.non
VPre; 3; 0 CGJ 1, 0 ZWNJ 2, 0 VPre 1, 1 CGJ 2, 1 VPre 2, 2 CGJ 2, 2 ZWNJ 1; 1 broken; 1@0 c=VPre p=12; * s=1.broken
CGJ VPre; 4; 0 ZWNJ 2, 0 VPre 2, 1 CGJ 2, 2 CGJ 3, 2 ZWNJ 2, 3 ZWNJ 1; 1 non; 1@0 c=CGJ p=108, 2@1 c=VPre p=12;
  *, * s=1.non
N N CGJ; 2; 0 ZWNJ 1, 0 R 1, 1 O 1, 1 CGJ 1, 1 ZWNJ 1, 1 R 1; 1 hieroglyph; 1@0 c=N p=7, 2@1 c=N p=7, 3@2 c=CGJ p=108;
  * s=1.non, * s=2.non, * s=2.non
N CGJ CGJ CGJ; 2; 0 N 1, 0 CGJ 1, 1 N 1, 1 CGJ 1; 1 standard;
  1@0 c=N p=7, 2@1 c=CGJ p=108, 3@2 c=CGJ p=108, 4@3 c=CGJ p=108;
  * s=1.standard, * s=1.standard, * s=1.standard, * s=1.standard
B B; 4; 0 B 2, 0 CGJ 2, 0 VPre 3, 1 CGJ 2, 2 ZWNJ 1, 2 VPre 1, 3 B 2, 3 CGJ 1, 3 ZWNJ 2; 1 hieroglyph, 3 symbol;
  1@0 c=B p=7, 2@1 c=B p=7; * s=1.non, * s=2.non
H ZWNJ CGJ H; 3; 0 H 2, 0 VBlw 2, 1 CGJ 1, 1 ZWNJ 1, 2 H 1, 2 ZWNJ 1, 2 VBlw 2; ;
  1@0 c=H p=12, 2@1 c=ZWNJ p=545, 3@2 c=CGJ p=108, 4@3 c=H p=12; * s=1.non, * s=1.non, * s=1.non, * s=2.non
VPre VPre; 5; 0 CGJ 4, 0 ZWNJ 2, 1 CGJ 2, 2 CGJ 1, 2 ZWNJ 4, 3 CGJ 1, 3 VPre 1, 4 CGJ 4, 4 ZWNJ 4, 4 VPre 3;
  2 virama, 4 hieroglyph; 1@0 c=VPre p=12, 2@1 c=VPre p=12; * s=1.non, * s=2.non
ZWNJ ZWNJ ZWNJ CGJ CGJ; 2; 0 CGJ 1, 0 VBlw 1, 1 CGJ 1, 1 ZWNJ 1; 1 virama;
  1@0 c=ZWNJ p=545, 2@1 c=ZWNJ p=545, 3@2 c=ZWNJ p=545, 4@3 c=CGJ p=108, 5@4 c=CGJ p=108;
  * s=1.non, * s=2.non, * s=3.non, * s=3.non, * s=3.non
VPre ZWNJ CGJ VPre VPre; 3; 0 ZWNJ 1, 0 VPre 1, 1 ZWNJ 1, 2 CGJ 2, 2 ZWNJ 1, 2 VPre 1; 2 number_joiner;
  1@0 c=VPre p=12, 2@1 c=ZWNJ p=545, 3@2 c=CGJ p=108, 4@3 c=VPre p=12, 5@4 c=VPre p=12;
  * s=1.non, * s=1.non, * s=1.non, * s=2.non, * s=3.non
VBlw ZWNJ B N; 3; 0 B 1, 0 N 2, 0 CGJ 1, 0 ZWNJ 1, 0 VBlw 2, 1 B 2, 1 CGJ 2, 1 ZWNJ 2, 2 B 1, 2 N 1, 2 VBlw 2; 2 broken;
  1@0 c=VBlw p=12, 2@1 c=ZWNJ p=545, 3@2 c=B p=7, 4@3 c=N p=7; * s=1.broken, * s=2.broken, * s=2.broken, * s=3.broken
O VBlw ZWNJ VPre VPre; 5; 0 CGJ 2, 1 O 4, 1 VPre 2, 2 ZWNJ 4, 3 CGJ 3, 3 ZWNJ 2, 3 VBlw 1, 4 O 3, 4 ZWNJ 4, 4 VPre 3;
  1 sakot, 4 sakot; 1@0 p=7, 2@1 c=VBlw p=12, 3@2 c=ZWNJ p=545, 4@3 c=VPre p=12, 5@4 c=VPre p=12;
  * s=1.non, * s=2.non, * s=2.non, * s=3.non, * s=4.non
B B O B VBlw; 5; 0 O 2, 0 ZWNJ 2, 0 VBlw 3, 1 B 4, 1 ZWNJ 3, 2 B 3, 2 VBlw 3, 3 CGJ 2, 3 VBlw 3, 4 O 4, 4 ZWNJ 1;
  2 symbol, 3 non, 4 standard; 1@0 c=B p=7, 2@1 c=B p=7, 3@2 p=7, 4@3 c=B p=7, 5@4 c=VBlw p=12;
  * s=1.non, * s=2.non, * s=3.non, * s=3.non, * s=3.non";
