//! Look-ups of records in sorted rows, by numbers and by pairs.
use buffer_rows::{Keyed, Numbered, PagedRows, SortedRows, is_rising};
use std::alloc::Global;
use std::process::Abort;
use std::test::Fail;

#[derive(Clone, Copy)]
struct Advance {
    glyph: u16,
    width: u16,
}

impl Keyed for Advance {
    type Key = u16;

    ghost key_of = { λ a. a.glyph };

    fn key(&self) -> u16 {
        self.glyph
    }
}

#[derive(Clone, Copy)]
struct Kern {
    first: u16,
    second: u16,
    width: i16,
}

impl Keyed for Kern {
    type Key = (u16, u16);

    ghost key_of = { λ k. (k.first, k.second) };

    fn key(&self) -> (u16, u16) {
        (self.first, self.second)
    }
}

fn advance_of(glyph: u16) -> Advance {
    Advance { glyph, width: 7 }
}

fn advances(alloc: Global) -> Result<SortedRows<Advance>, Fail> {
    let mut rows = Vec::new(alloc);
    for glyph in [3, 5, 9, 65535] {
        rows.push(advance_of(glyph))?;
    }
    if !is_rising(&rows) {
        return Err("not rising".into());
    }
    Ok(SortedRows::new(rows))
}

fn kerns(alloc: Global) -> Result<SortedRows<Kern>, Fail> {
    let mut rows = Vec::new(alloc);
    for (first, second, width) in [(1, 9, -5), (2, 1, 6)] {
        rows.push(Kern {
            first,
            second,
            width,
        })?;
    }
    if !is_rising(&rows) {
        return Err("not rising".into());
    }
    Ok(SortedRows::new(rows))
}

static ADVANCES: &[(u16, Option<u16>)] = &[
    (3, Some(7)),
    (4, None),
    (9, Some(7)),
    (65535, Some(7)),
    (0, None),
];

fn have_widths(rt: &impl Abort, table: &SortedRows<Advance>) {
    for (glyph, width) in ADVANCES {
        assert!(rt; table.get(*glyph).map(|row| row.width) == *width);
    }
    assert_eq!(rt; table.as_slice().len(), 4);
}

#[test]
fn numbers(rt: HostRuntime) -> Result<(), Fail> {
    let table = advances(rt.alloc())?;
    have_widths(&rt, &table);
    Ok(())
}

static KERNS: &[((u16, u16), Option<i16>)] = &[
    ((1, 9), Some(-5)),
    ((2, 1), Some(6)),
    ((2, 9), None),
    ((9, 1), None),
];

fn have_kerns(rt: &impl Abort, table: &SortedRows<Kern>) {
    for (key, width) in KERNS {
        assert!(rt; table.get(*key).map(|row| row.width) == *width);
    }
}

#[test]
fn pairs(rt: HostRuntime) -> Result<(), Fail> {
    let table = kerns(rt.alloc())?;
    have_kerns(&rt, &table);
    Ok(())
}

#[test]
fn equal_and_falling_keys(rt: HostRuntime) {
    assert!(rt; !is_rising(&[advance_of(1), advance_of(1)]));
    assert!(rt; !is_rising(&[advance_of(2), advance_of(3), advance_of(1)]));
}

#[derive(Clone, Copy)]
struct Letter {
    character: u32,
}

impl Keyed for Letter {
    type Key = u32;

    ghost key_of = { λ l. l.character };

    fn key(&self) -> u32 {
        self.character
    }
}

impl Numbered for Letter {
    ghost number_of = { λ l. l.character };

    fn number(&self) -> u32 {
        self.character
    }
}

/// One character of each of a number of pages of 128.
fn letters(alloc: Global, count: u32) -> Result<PagedRows<Letter>, Fail> {
    let mut rows = Vec::new(alloc);
    for page in 0..count {
        rows.push(Letter {
            character: letter_of(page),
        })?;
    }
    if !is_rising(&rows) {
        return Err("not rising".into());
    }
    Ok(PagedRows::new(alloc, rows)?)
}

fn letter_of(page: u32) -> u32 {
    page.wrapping_mul(128).wrapping_add(page % 100)
}

/// Whether each page's character is found, and the one after it is not.
fn are_found(table: &PagedRows<Letter>, count: u32) -> bool {
    for page in 0..count {
        let character = letter_of(page);
        if table.get(character).is_none() || table.get(character.wrapping_add(1)).is_some() {
            return false;
        }
    }
    true
}

fn has_pages(alloc: Global, count: u32) -> Result<bool, Fail> {
    let table = letters(alloc, count)?;
    Ok(are_found(&table, count) && table.get(letter_of(count)).is_none())
}

// The index has room for 1,024 pages; records after those are found by binary search.
#[test]
fn pages(rt: HostRuntime) -> Result<(), Fail> {
    for count in [0, 1, 1024, 1025, 1100] {
        let are_found = has_pages(rt.alloc(), count)?;
        assert!(rt; are_found, "{count}");
    }
    Ok(())
}
