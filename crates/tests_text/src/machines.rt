//! Syllables by machines, and machines that are refused.
mod cases;

use buffer_unicode_tables::TablesFault;
use script_categories::hb_ot_script_shaper_t::{
    self, HEBREW_SHAPER, INDIC_SHAPER, KHMER_SHAPER, MYANMAR_SHAPER, UNIVERSAL_SHAPER,
};
use script_categories::{
    Accept, Step, SyllableMachine, SyllableMachines, SyllableSpans, SyllableTable, machine_shaper,
};
use std::alloc::Global;
use std::test::Fail;

/// A field of a case.
fn part(case: &str, at: usize) -> &str {
    case.split('|').nth(at).unwrap_or("")
}

fn step(shaper: hb_ot_script_shaper_t, words: &[&str]) -> Option<Step> {
    let [state, category, next] = words else {
        return None;
    };
    Some(Step {
        state: state.parse::<u32>().ok()?,
        category: shaper.category_number(category)?,
        next: next.parse::<u32>().ok()?,
    })
}

fn steps(alloc: Global, shaper: hb_ot_script_shaper_t, text: &str) -> Result<Vec<Step>, Fail> {
    let mut steps = Vec::new(alloc);
    let words: Vec<&str> = text.split_whitespace().collect(alloc)?;
    for row in words.chunks(3) {
        steps.push(step(shaper, row).ok_or("no step")?)?;
    }
    Ok(steps)
}

/// A number and a kind, by its name, or by its number where it is none of the shaper's.
fn kind(shaper: hb_ot_script_shaper_t, words: &[&str]) -> Option<(u32, u8)> {
    let [number, name] = words else {
        return None;
    };
    let kind = match shaper.kind_number(name) {
        Some(kind) => kind,
        None => name.parse::<u8>().ok()?,
    };
    Some((number.parse::<u32>().ok()?, kind))
}

fn kinds(alloc: Global, shaper: hb_ot_script_shaper_t, text: &str) -> Result<Vec<(u32, u8)>, Fail> {
    let mut kinds = Vec::new(alloc);
    let words: Vec<&str> = text.split_whitespace().collect(alloc)?;
    for row in words.chunks(2) {
        kinds.push(kind(shaper, row).ok_or("no kind")?)?;
    }
    Ok(kinds)
}

fn accept((state, kind): (u32, u8)) -> Accept {
    Accept { state, kind }
}

fn accepting(
    alloc: Global,
    shaper: hb_ot_script_shaper_t,
    text: &str,
) -> Result<Vec<Accept>, Fail> {
    let kinds = kinds(alloc, shaper, text)?;
    Ok(kinds.iter().map(|kind| accept(*kind)).collect(alloc)?)
}

/// The machine of one shaper, the others without states.
fn machines(
    alloc: Global,
    shaper: hb_ot_script_shaper_t,
    machine: SyllableMachine,
) -> SyllableMachines {
    let mut machines = SyllableMachines {
        indic: SyllableMachine::new(alloc),
        khmer: SyllableMachine::new(alloc),
        myanmar: SyllableMachine::new(alloc),
        universal: SyllableMachine::new(alloc),
    };
    match shaper {
        INDIC_SHAPER => machines.indic = machine,
        KHMER_SHAPER => machines.khmer = machine,
        MYANMAR_SHAPER => machines.myanmar = machine,
        _ => machines.universal = machine,
    }
    machines
}

fn shaper_of(case: &str) -> Result<hb_ot_script_shaper_t, Fail> {
    Ok(machine_shaper(part(case, 0)).ok_or("no shaper")?)
}

fn machines_of(
    alloc: Global,
    shaper: hb_ot_script_shaper_t,
    case: &str,
) -> Result<SyllableMachines, Fail> {
    let states = part(case, 1).parse::<u32>()?;
    let next = steps(alloc, shaper, part(case, 2))?;
    let accept = accepting(alloc, shaper, part(case, 3))?;
    let machine = SyllableMachine {
        states,
        next,
        accept,
    };
    Ok(machines(alloc, shaper, machine))
}

fn categories(alloc: Global, shaper: hb_ot_script_shaper_t, text: &str) -> Result<Vec<u8>, Fail> {
    let mut categories = Vec::new(alloc);
    for word in text.split_whitespace() {
        categories.push(shaper.category_number(word).ok_or("no category")?)?;
    }
    Ok(categories)
}

/// Where each syllable ends, with its kind.
fn spans(
    alloc: Global,
    table: &SyllableTable,
    shaper: hb_ot_script_shaper_t,
    categories: &[u8],
) -> Result<Vec<(u32, u8)>, Fail> {
    let mut spans = Vec::new(alloc);
    let mut start = 0;
    for _ in 0..categories.len() {
        if start < categories.len() {
            let (end, kind) = table.next(shaper, categories, start);
            spans.push((u32::try_from(end).unwrap_or(u32::MAX), kind))?;
            start = end;
        }
    }
    Ok(spans)
}

fn spans_of(
    alloc: Global,
    shaper: hb_ot_script_shaper_t,
    case: &str,
) -> Result<Vec<(u32, u8)>, Fail> {
    let categories = categories(alloc, shaper, part(case, 4))?;
    let table = SyllableTable::new(machines_of(alloc, shaper, case)?)?;
    spans(alloc, &table, shaper, &categories)
}

fn agrees(alloc: Global, case: &str) -> Result<bool, Fail> {
    let shaper = shaper_of(case)?;
    let wanted = kinds(alloc, shaper, part(case, 5))?;
    let found = spans_of(alloc, shaper, case)?;
    Ok(found.as_slice() == wanted.as_slice())
}

fn fault_named(name: &str) -> Option<TablesFault> {
    match name {
        "OutOfRange" => Some(TablesFault::OutOfRange),
        "OutOfOrder" => Some(TablesFault::OutOfOrder),
        _ => None,
    }
}

fn is_refused(alloc: Global, case: &str) -> Result<bool, Fail> {
    let shaper = shaper_of(case)?;
    let machines = machines_of(alloc, shaper, case)?;
    let fault = SyllableTable::new(machines).err();
    Ok(fault.is_some() && fault == fault_named(part(case, 4)))
}

/// The cases, one on each line.
pub(crate) fn rows() -> &'static str {
    cases::cases()
}

/// Whether a machine finds the syllables of a case, or is refused as it says.
pub(crate) fn is_so(alloc: Global, row: &str) -> Result<bool, Fail> {
    let (question, case) = row.split_once('|').ok_or("no case")?;
    match question {
        "spans" => agrees(alloc, case),
        _ => is_refused(alloc, case),
    }
}

fn next_syllables(table: &SyllableTable, categories: &[u8; 2]) -> [(usize, u8); 2] {
    [
        table.next(HEBREW_SHAPER, categories, 0),
        table.next(UNIVERSAL_SHAPER, categories, 1),
    ]
}

#[test]
fn no_machine(rt: HostRuntime) -> Result<(), Fail> {
    let machine = SyllableMachine::new(rt.alloc());
    let table = SyllableTable::new(machines(rt.alloc(), KHMER_SHAPER, machine))?;
    let found = next_syllables(&table, &[1, 1]);
    assert_eq!(rt; found, [(1, 0), (2, 9)]);
    Ok(())
}
