//! Tables and fonts that keep what the law asks, and those that fail one premise.
//!
//! Cases are data: each is written whole, however alike two are.
use crate::data::{FONT, ReadTables, face_of};
use buffer_unicode_tables::UnicodeTables;
use shape_breaks::BreakPremises;
use shell_default_tables::default_tables;
use std::alloc::Global;
use std::test::Fail;

/// Tables and a font, and which of them keep marks, joining types and marks in private forms.
#[derive(Clone, Copy)]
struct Case<'a> {
    tables: &'a str,
    font: &'a str,
    kept: [bool; 3],
}

// A decomposition and a mark; a decomposition that begins with a mark; one with U+034F; a mirror image that is a mark;
// U+034F for a mark in vertical text; U+034F with a class; a mirror image that doesn't join; a joining letter with a
// class; a variation selector that joins; a private form that is U+034F; and a font with a variant of U+034F.
static CASES: &[Case<'static>; 11] = &[
    Case {
        tables: "{\"splits\":[[225,97,769]],\"pairs\":[[97,769,225]],\"classes\":[[769,230]]}",
        font: FONT,
        kept: [true, true, true],
    },
    Case {
        tables: "{\"splits\":[[225,769,97]]}",
        font: FONT,
        kept: [false, true, true],
    },
    Case {
        tables: "{\"splits\":[[225,97,847]]}",
        font: FONT,
        kept: [false, true, true],
    },
    Case {
        tables: "{\"mirrored\":[[40,769]]}",
        font: FONT,
        kept: [false, false, true],
    },
    Case {
        tables: "{\"vertical\":[[769,847]]}",
        font: FONT,
        kept: [false, true, true],
    },
    Case {
        tables: "{\"classes\":[[847,1]]}",
        font: FONT,
        kept: [false, true, true],
    },
    Case {
        tables: "{\"joining\":[[1576,\"D\"]],\"mirrored\":[[1576,97]]}",
        font: FONT,
        kept: [true, false, true],
    },
    Case {
        tables: "{\"joining\":[[1576,\"D\"]],\"classes\":[[1576,7]]}",
        font: FONT,
        kept: [true, false, true],
    },
    Case {
        tables: "{\"joining\":[[65024,\"D\"]]}",
        font: FONT,
        kept: [true, false, true],
    },
    Case {
        tables: "{\"thai\":[[3597,\"RD\",847,63642]]}",
        font: FONT,
        kept: [true, true, false],
    },
    Case {
        tables: "{}",
        font: "{\"cmap\":[[97,1]],\"variants\":[[847,65024,1]]}",
        kept: [false, true, true],
    },
];

fn premises_of(alloc: Global, tables: &UnicodeTables, font: &str) -> Result<BreakPremises, Fail> {
    let face = face_of(alloc, font)?;
    Ok(BreakPremises::of_font(tables, &face))
}

fn kept(premises: BreakPremises) -> [bool; 3] {
    [
        premises.keeps_marks,
        premises.keeps_types,
        premises.keeps_private_marks,
    ]
}

#[test]
fn tables_that_fail_one_premise(rt: HostRuntime) -> Result<(), Fail> {
    for case in CASES {
        let tables = ReadTables::from_text(rt.alloc(), case.tables)?;
        let premises = premises_of(rt.alloc(), tables.characters(), case.font)?;
        assert!(rt; kept(premises) == case.kept, "{}", case.tables);
    }
    Ok(())
}

#[test]
fn tables_that_ship(rt: HostRuntime) -> Result<(), Fail> {
    match default_tables(rt.alloc()) {
        Ok(tables) => {
            let premises = premises_of(rt.alloc(), &tables.characters, FONT)?;
            assert!(rt;
                premises.is_lawful && kept(premises) == [true, true, true],
                "kept"
            );
        }
        Err(_) => assert!(rt; false, "tables"),
    }
    Ok(())
}
