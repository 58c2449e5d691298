//! The tables of rows: what a call makes of each row is as the row says.
//!
//! The list of tables has the form of that of `tests_text` (`rows`): each names the modules of its own crate.
use crate::indic::{font_rows, fonts, rows as orders};
use crate::normalizing::{indic as indic_texts, lists};
use crate::rows::{is_row, rows_of};
use crate::{bytes, joining, marks, positions, stages, syllables, thai};
use script_categories::hb_ot_script_shaper_t::{ARABIC_SHAPER, HEBREW_SHAPER};
use std::alloc::Global;
use std::process::Abort;
use std::test::Fail;

/// The tables, by what is tested.
#[derive(Clone, Copy)]
enum Table {
    ArabicMarks,
    HebrewMarks,
    Joining,
    Thai,
    Syllables,
    SyllableBytes,
    BeforeForms,
    AfterForms,
    Fonts,
    Normalizing,
    IndicNormalizing,
    Links,
    Stages,
}

fn tables() -> [(Table, &'static str); 15] {
    [
        (Table::ArabicMarks, marks::ARABIC),
        (Table::HebrewMarks, marks::HEBREW),
        (Table::Joining, joining::ROWS),
        (Table::Thai, thai::ROWS),
        (Table::Syllables, syllables::ROWS),
        (Table::SyllableBytes, bytes::ROWS),
        (Table::BeforeForms, orders::before_forms::ROWS),
        (Table::BeforeForms, orders::several_before_forms::ROWS),
        (Table::AfterForms, orders::after_forms::ROWS),
        (Table::AfterForms, orders::several_after_forms::ROWS),
        (Table::Fonts, font_rows::ROWS),
        (Table::Normalizing, lists::ROWS),
        (Table::IndicNormalizing, indic_texts::ROWS),
        (Table::Links, positions::ROWS),
        (Table::Stages, stages::ROWS),
    ]
}

fn agrees(alloc: Global, table: Table, row: &str) -> Result<bool, Fail> {
    match table {
        Table::ArabicMarks => marks::agrees(alloc, ARABIC_SHAPER, row),
        Table::HebrewMarks => marks::agrees(alloc, HEBREW_SHAPER, row),
        Table::Joining => joining::agrees(alloc, row),
        Table::Thai => thai::agrees(alloc, row),
        Table::Syllables => syllables::agrees(alloc, row),
        Table::SyllableBytes => bytes::agrees(alloc, row),
        Table::BeforeForms => orders::agrees_initially(alloc, row),
        Table::AfterForms => orders::agrees_finally(alloc, row),
        Table::Fonts => fonts::agrees(alloc, row),
        Table::Normalizing => lists::agrees(alloc, row),
        Table::IndicNormalizing => indic_texts::agrees(alloc, row),
        Table::Links => Ok(positions::is_drawn(alloc, row)?),
        Table::Stages => stages::agrees(alloc, row),
    }
}

fn rows_agree(rt: &impl Abort, alloc: Global, table: Table, rows: &str) -> Result<(), Fail> {
    let rows = rows_of(alloc, rows)?;
    for row in rows.lines() {
        let agrees = !is_row(row) || agrees(alloc, table, row)?;
        assert!(rt; agrees, "{row}");
    }
    Ok(())
}

#[test]
fn tables_agree(rt: HostRuntime) -> Result<(), Fail> {
    for (table, rows) in tables() {
        rows_agree(&rt, rt.alloc(), table, rows)?;
    }
    Ok(())
}
