//! Looks a million characters up in a table of some 5,000 characters, spread like those of Unicode's tables: running
//! text, characters at random, and text that the table lacks, by binary search and by pages. Then the same in tables of
//! the size of a large font's, by binary search.
//!
//! Its records have the form of those in `tests_text`, where the look-ups themselves are tested.
ghost use Rattle.std.specs.Prelude.{◌≡◌, IfOk};
ghost use Rattle.buffer_rows.specs.Keys.{numbers_rise};

mod fonts;

use buffer_rows::{Keyed, Numbered, PagedRows, SortedRows, is_rising};
use fonts::ask_font;
use std::alloc::{AllocError, Global};
use std::io;
use std::time::Instant;

const COUNT: u32 = 1_000_000;

/// A character with a class.
#[derive(Clone, Copy)]
struct Class {
    character: u32,
    class: u8,
}

impl Keyed for Class {
    type Key = u32;

    ghost key_of = { λ r. r.character };

    fn key(&self) -> u32 {
        self.character
    }
}

impl Numbered for Class {
    ghost number_of = { λ r. r.character };

    fn number(&self) -> u32 {
        self.character
    }
}

/// The first character of a range, how many of its characters have a row, and how far apart they are.
const RANGES: [(u32, u32, u32); 16] = [
    (0xC0, 180, 2),
    (0x300, 112, 1),
    (0x483, 20, 6),
    (0x600, 300, 1),
    (0x900, 800, 1),
    (0xE31, 60, 3),
    (0x1000, 160, 1),
    (0x1780, 120, 1),
    (0x1B00, 200, 1),
    (0x1DC0, 64, 1),
    (0x1E00, 500, 1),
    (0x2000, 300, 7),
    (0xA600, 800, 2),
    (0xFB00, 300, 1),
    (0x11000, 800, 2),
    (0x1D100, 300, 3),
];

fn rows(alloc: Global) -> Result<Vec<Class>, AllocError> {
    let mut rows = Vec::new(alloc);
    for (first, count, apart) in RANGES {
        for index in 0..count {
            rows.push(Class {
                character: first.wrapping_add(index.wrapping_mul(apart)),
                class: (index % 255) as u8,
            })?;
        }
    }
    Ok(rows)
}

/// Characters of a text, one after another from a number on.
#[derive(Clone, Copy)]
enum Text {
    Running,
    Random,
    Latin,
}

fn character(text: Text, rows: &[Class], index: u32) -> u32 {
    let mixed = index.wrapping_mul(2654435761) >> 8;
    match text {
        Text::Running => 0x900 + mixed % 128,
        Text::Latin => 0x20 + mixed % 95,
        Text::Random => match rows.get(mixed as usize % rows.len().max(1)) {
            Some(row) => row.character,
            None => 0,
        },
    }
}

fn characters(alloc: Global, text: Text, rows: &[Class]) -> Result<Vec<u32>, AllocError> {
    let mut characters = Vec::new(alloc);
    for index in 0..COUNT {
        characters.push(character(text, rows, index))?;
    }
    Ok(characters)
}

fn found_by_halves(table: &SortedRows<Class>, text: &[u32]) -> usize {
    text.iter()
        .filter(|character| table.get(**character).is_some())
        .count()
}

fn found_by_pages(table: &PagedRows<Class>, text: &[u32]) -> usize {
    text.iter()
        .filter(|character| table.get(**character).is_some())
        .count()
}

fn print_time(rt: &HostRuntime, name: &str, start: Instant, found: usize) -> io::Result<()> {
    let picoseconds = start.elapsed(rt)?.as_nanos() / (COUNT / 1000) as u128;
    println!(rt; "{name}: {found} found")?;
    eprintln!(rt; "{name}: {picoseconds} ps a look-up")
}

/// Looks up a text's characters, by binary search and by pages.
fn compare(
    rt: &HostRuntime,
    name: &str,
    text: Text,
    halves: &SortedRows<Class>,
    pages: &PagedRows<Class>,
) -> io::Result<()> {
    let text = characters(rt.alloc(), text, halves.as_slice())?;
    let start = Instant::now(rt)?;
    let found = found_by_halves(halves, &text);
    print_time(rt, name, start, found)?;
    let start = Instant::now(rt)?;
    let found = found_by_pages(pages, &text);
    print_time(rt, name, start, found)
}

fn compare_texts(
    rt: &HostRuntime,
    halves: &SortedRows<Class>,
    pages: &PagedRows<Class>,
) -> io::Result<()> {
    compare(rt, "running", Text::Running, halves, pages)?;
    compare(rt, "random", Text::Random, halves, pages)?;
    compare(rt, "latin", Text::Latin, halves, pages)
}

fn ask_characters(rt: &HostRuntime) -> io::Result<()> {
    let halves = rows(rt.alloc())?;
    if !is_rising(&halves) {
        return Ok(());
    }
    ask_both(rt, &SortedRows::new(halves))
}

fn ask_both(rt: &HostRuntime, halves: &SortedRows<Class>) -> io::Result<()> {
    let pages = rows(rt.alloc())?;
    if !is_rising(&pages) {
        return Ok(());
    }
    let pages = PagedRows::new(rt.alloc(), pages)?;
    compare_texts(rt, halves, &pages)
}

pub(crate) fn run(rt: &HostRuntime) -> io::Result<()> {
    ask_characters(rt)?;
    ask_font(rt)
}
