//! The subtables of the table `kern` (OpenType, chapter kern, version 0; Apple's version 1.0).
ghost use Rattle.std.specs.Prelude.{◌≡◌, ◌≢◌, ◌+◌, ◌≤◌, ◌<◌, ◌^◌, ◌++◌, ◌==◌, if◌then◌else◌, IfOk, IfErr, OnOk, Ok, Err, length};
ghost use Rattle.font_bytes.specs.Words.{word};
ghost use Rattle.font_kern.specs.Subtables.{apple_directory, opentype_directory, directory_at, header_size, length_at, format_at, coverage_bits_at, kerns_line, subtable_taken, subtables_at};

use font_bytes::fault::TableFault;
use font_bytes::room::Room;
use font_bytes::words::{byte, long, need, word};
use std::alloc::{AllocError, Global};

/// How much room a subtable takes beside what it holds.
const SUBTABLE_ROWS: usize = 64;
/// Apple's bits of a coverage: vertical, cross-stream, a variation.
const APPLE_BITS: u8 = 0xe0;
/// OpenType's bits of a coverage: horizontal, minimum, cross-stream.
const BITS: u8 = 7;

const HORIZONTAL: u8 = 1;

/// The form of the table, where its subtables begin, and how many there are.
#[derive(Clone, Copy, PartialEq, Eq, Debug)]
pub struct Directory {
    /// Version 1.0, which has another header for the table and for each subtable.
    pub is_apple: bool,
    pub at: usize,
    pub count: usize,
}

/// A subtable that kerns horizontal lines.
#[derive(Clone, Copy, PartialEq, Eq, Debug, Drop)]
pub struct Subtable {
    /// The offset of what follows its header in the table.
    pub body: usize,
    /// How many bytes the header has.
    pub header: usize,
    /// Whether it is of format 2, and not of format 0.
    pub by_classes: bool,
}

fn apple_directory(table: &[u8]) -> Result<Directory, TableFault>
    ensures { result ≡ apple_directory table.now }
{
    need(table, 0, 8)?;
    Ok(Directory {
        is_apple: true,
        at: 8,
        count: long(table, 4) as usize,
    })
}

/// The form of the table and its number of subtables.
pub fn read_directory(table: &[u8]) -> Result<Directory, TableFault>
    ensures { result ≡ directory_at table.now }
{
    need(table, 0, 4)?;
    let version = word(table, 0);
    if version == 1 {
        return apple_directory(table);
    }
    Ok(Directory {
        is_apple: false,
        at: 4,
        count: opentype_count(table, version),
    })
}

fn opentype_count(table: &[u8], version: u16) -> usize
    requires { 4 ≤ length table.now }
    ensures { result ≡ (if version == 0 then word table.now 2 else 0) }
{
    if version == 0 {
        usize::from(word(table, 2))
    } else {
        0
    }
}

/// How many bytes the header of a subtable has.
fn header_size(is_apple: bool) -> usize
    ensures { result ≡ header_size is_apple }
{
    if is_apple { 8 } else { 6 }
}

/// How far the next subtable is from this one.
fn length_at(is_apple: bool, table: &[u8], at: usize) -> usize
    requires { at + 6 ≤ length table.now }
    ensures value { result ≡ length_at is_apple table.now at }
    ensures small { result < 2 ^ 32 }
{
    if is_apple {
        long(table, at) as usize
    } else {
        usize::from(word(table, at + 2))
    }
}

fn format_at(is_apple: bool, table: &[u8], at: usize) -> u8
    requires { at + 6 ≤ length table.now }
    ensures { result ≡ format_at is_apple table.now at }
{
    if is_apple {
        byte(table, at + 5)
    } else {
        byte(table, at + 4)
    }
}

fn coverage_bits_at(is_apple: bool, table: &[u8], at: usize) -> u8
    requires { at + 6 ≤ length table.now }
    ensures { result ≡ coverage_bits_at is_apple table.now at }
{
    if is_apple {
        byte(table, at + 4)
    } else {
        byte(table, at + 5)
    }
}

/// Whether the bits of a coverage are those of a subtable that kerns horizontal lines.
fn kerns_line(is_apple: bool, bits: u8) -> bool
    ensures { result ≡ kerns_line is_apple bits }
{
    if is_apple {
        bits & APPLE_BITS == 0
    } else {
        bits & BITS == HORIZONTAL
    }
}

/// Appends the subtable at an offset, if it is one that kerns horizontal lines, of format 0 or 2.
fn push_taken(
    found: &mut Vec<Subtable>,
    is_apple: bool,
    table: &[u8],
    at: usize,
) -> Result<(), AllocError>
    requires { at + 6 ≤ length table.now }
    ensures { OnOk result (found.new.items ≡ found.old.items ++ subtable_taken is_apple table.now at) }
{
    let format = format_at(is_apple, table, at);
    if (format == 0 || format == 2) && kerns_line(is_apple, coverage_bits_at(is_apple, table, at)) {
        found.push(Subtable {
            body: at + header_size(is_apple),
            header: header_size(is_apple),
            by_classes: format == 2,
        })?;
    }
    Ok(())
}

/// Reads the headers of subtables, and keeps those that kern horizontal lines.
#[tactic(auto, using(crate::proofs::Headers::subtables_end, crate::proofs::Headers::subtable_done, crate::proofs::Headers::subtable_no_room, crate::proofs::Headers::subtable_short))]
pub fn read_subtables(
    alloc: Global,
    table: &[u8],
    room: &mut Room,
) -> Result<Vec<Subtable>, TableFault>
    ensures ok { IfOk result (λ v. subtables_at room.old.left table.now ≡ Ok (v.items, room.new.left)) }
    ensures refused { IfErr result (λ e. e ≢ TableFault.OutOfMemory
        → subtables_at room.old.left table.now ≡ Err e) }
{
    let directory = read_directory(table)?;
    let mut found = Vec::new(alloc);
    let mut at = directory.at;
    for _index in 0..directory.count {
        room.take(SUBTABLE_ROWS)?;
        need(table, at, header_size(directory.is_apple))?;
        push_taken(&mut found, directory.is_apple, table, at)?;
        at += length_at(directory.is_apple, table, at);
    }
    Ok(found)
}
