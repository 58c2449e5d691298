//! Cuts of texts by each shaper.
use crate::data::{FONT, ReadTables, face_of};
use buffer_common::direction::Direction;
use buffer_common::script::Script;
use buffer_common::tag::{Tag, TagExt};
use layout_face::Face;
use script_dispatch::hb_ot_any_shaper_t;
use script_plan::plan::hb_ot_shape_plan_t;
use shape_breaks::{BreakPremises, TextMarks, may_be_broken};
use std::alloc::{AllocError, Global};
use std::test::Fail;

/// Joining letters, without which no text of Arabic has any.
static TABLES: &str = "{\"joining\":[[1576,\"D\"],[1585,\"R\"]]}";

/// A text of a script, and the indices before which it may be broken.
#[derive(Clone, Copy)]
struct Case<'a> {
    script: &'a [u8; 4],
    text: &'a [char],
    breaks: &'a [usize],
}

// Letters alone. Marks after the first character of both pieces of two cuts; a mark before all cuts, a mark after them;
// U+034F. Arabic letters, letters before a mark, which shows none to a context; Mongolian. Hangul, with a tone mark too.
// Thai, with SARA AM in both pieces and in one, and U+0E3B, which the shaper takes for a mark above. Devanagari.
static CASES: &[Case<'static>; 13] = &[
    Case {
        script: b"Latn",
        text: &['a', 'b', 'c'],
        breaks: &[1, 2],
    },
    Case {
        script: b"Latn",
        text: &['e', '\u{301}', ' ', 'a', '\u{302}'],
        breaks: &[2, 3],
    },
    Case {
        script: b"Latn",
        text: &['e', '\u{301}', 'a', 'b'],
        breaks: &[],
    },
    Case {
        script: b"Latn",
        text: &['a', 'b', 'e', '\u{301}'],
        breaks: &[],
    },
    Case {
        script: b"Latn",
        text: &['e', '\u{301}', '\u{34F}', 'a', '\u{302}'],
        breaks: &[2],
    },
    Case {
        script: b"Arab",
        text: &['\u{631}', '\u{628}'],
        breaks: &[1],
    },
    Case {
        script: b"Mong",
        text: &['\u{1820}', '\u{1821}'],
        breaks: &[],
    },
    Case {
        script: b"Hang",
        text: &['\u{AC00}', '\u{B098}'],
        breaks: &[1],
    },
    Case {
        script: b"Hang",
        text: &['\u{AC00}', '\u{302E}', '\u{B098}'],
        breaks: &[],
    },
    Case {
        script: b"Thai",
        text: &['\u{E01}', '\u{E33}', '\u{E02}', '\u{E33}'],
        breaks: &[2],
    },
    Case {
        script: b"Thai",
        text: &['\u{E01}', '\u{E33}', '\u{E02}'],
        breaks: &[],
    },
    Case {
        script: b"Thai",
        text: &['\u{E01}', '\u{E3B}', '\u{E02}'],
        breaks: &[2],
    },
    Case {
        script: b"Deva",
        text: &['\u{915}', '\u{916}'],
        breaks: &[],
    },
];

fn plan_of(
    alloc: Global,
    face: &Face,
    tables: &ReadTables,
    script: &[u8; 4],
) -> Result<hb_ot_shape_plan_t<hb_ot_any_shaper_t>, AllocError> {
    hb_ot_shape_plan_t::new(
        alloc,
        face,
        tables.data(),
        Direction::LeftToRight,
        Some(Script(Tag::from_bytes(script))),
        None,
        &[],
    )
}

fn is_wanted(case: Case<'_>, at: usize) -> bool {
    case.breaks.iter().any(|wanted| *wanted == at)
}

/// Whether each index of a case is as wanted.
fn passes(alloc: Global, case: Case<'_>) -> Result<bool, Fail> {
    let tables = ReadTables::from_text(alloc, TABLES)?;
    let face = face_of(alloc, FONT)?;
    let premises = BreakPremises::of_font(tables.characters(), &face);
    let plan = plan_of(alloc, &face, &tables, case.script)?;
    let marks = TextMarks::of_text(tables.characters(), case.text);
    for at in 0..case.text.len() + 1 {
        if may_be_broken(premises, &plan, case.text, marks, at) != is_wanted(case, at) {
            return Ok(false);
        }
    }
    Ok(true)
}

#[test]
fn texts_by_shaper(rt: HostRuntime) -> Result<(), Fail> {
    for case in CASES {
        let passed = passes(rt.alloc(), *case)?;
        assert!(rt; passed, "{:?}", case.breaks);
    }
    Ok(())
}
