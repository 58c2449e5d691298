//! C's numbers of settings, of faults and of what else a call answers.
ghost use Rattle.std.specs.Prelude.{◌≡◌, ◌≢◌, ◌<◌};
ghost use Rattle.c_text.specs.Numbers.{direction_number, direction_numbered, encoding_numbered, fault_number, font_fault_number, level_numbered, parts_without, requests_numbered, script_number, script_numbered};

use buffer_common::constants::BufferFlags;
use buffer_common::direction::Direction;
use buffer_common::script::Script;
use buffer_common::tag::Tag;
use buffer_glyphs::cause::ShapeCause;
use buffer_glyphs::level::BufferClusterLevel;
use c_characters::characters::Encoding;
use font_bytes::fault::TableFault;
use font_bytes::font_fault::FontFault;
use font_file::FontParts;
use shell_json::fault::JsonFault;
use shell_readers::fault::RunFault;

/// The status of a call that did what it was asked for.
pub const OK: u32 = 0;

pub const OUT_OF_MEMORY: u32 = 1;

pub const NOT_UTF8: u32 = 10;

/// The status where a handle has no font.
pub const NO_FONT: u32 = 16;

/// The status where a handle has no tables.
pub const NO_TABLES: u32 = 17;

/// The status where glyphs don't fit the text whose slices are wanted.
pub const NO_SLICES: u32 = 18;

/// The status where a font was passed as tables, or tables as a font.
pub const OTHER_FORMAT: u32 = 19;

/// The status where what a font was read to is shared with other handles, and so can't be changed.
pub const SHARED_FONT: u32 = 26;

/// The status where a font has no advance of a glyph that is given one, and of a number that no glyph has.
pub const NO_GLYPH: u32 = 27;

/// The status where an advance is more than 65535.
pub const ADVANCE_RANGE: u32 = 28;

/// The status where a number that is given a glyph is no character.
pub const NO_CHARACTER: u32 = 29;

/// The number that stands for no glyph (`HB_CODEPOINT_INVALID`).
pub const CODEPOINT_INVALID: u32 = 0xFFFF_FFFF;

/// The bits of a text's flags that name an encoding. HarfBuzz's buffer flags have none of them.
pub const UTF16: u32 = 0x1_0000;

pub const UTF32: u32 = 0x2_0000;

pub const CHARACTERS: u32 = 0x4_0000;

/// The direction of a number, `Invalid` for one that no direction has.
pub fn direction_numbered(number: u32) -> Direction
    ensures { result ≡ direction_numbered number }
{
    match number {
        4 => Direction::LeftToRight,
        5 => Direction::RightToLeft,
        6 => Direction::TopToBottom,
        7 => Direction::BottomToTop,
        _ => Direction::Invalid,
    }
}

/// The script of a number, which is an ISO 15924 tag in any case; none for 0.
pub fn script_numbered(number: u32) -> Option<Script>
    ensures { result ≡ script_numbered number }
{
    Script::from_iso15924_tag(Tag(number))
}

/// The number of a direction, 0 for `Invalid`.
pub fn direction_number(direction: Direction) -> u32
    ensures { result ≡ direction_number direction }
{
    match direction {
        Direction::Invalid => 0,
        Direction::LeftToRight => 4,
        Direction::RightToLeft => 5,
        Direction::TopToBottom => 6,
        Direction::BottomToTop => 7,
    }
}

/// The number of a script, which is its ISO 15924 tag; 0 for none.
pub fn script_number(script: Option<Script>) -> u32
    ensures { result ≡ script_number script }
{
    match script {
        Some(script) => script.tag().0,
        None => 0,
    }
}

/// The cluster level of a number, the default for one that no level has.
pub fn level_numbered(number: u32) -> BufferClusterLevel
    ensures { result ≡ level_numbered number }
{
    match number {
        1 => BufferClusterLevel::MonotoneCharacters,
        2 => BufferClusterLevel::Characters,
        3 => BufferClusterLevel::Graphemes,
        _ => BufferClusterLevel::MonotoneGraphemes,
    }
}

/// How the characters of a text with flags are passed, by the least of the bits 16 to 18 that is set: in UTF-16, in UTF-32,
/// or each with its cluster; none: in UTF-8.
pub fn encoding_numbered(flags: u32) -> Option<Encoding>
    ensures { result ≡ encoding_numbered flags }
{
    if flags & UTF16 != 0 {
        return Some(Encoding::Utf16);
    }
    if flags & UTF32 != 0 {
        return Some(Encoding::Utf32);
    }
    if flags & CHARACTERS != 0 {
        return Some(Encoding::Characters);
    }
    None
}

/// The requests among a text's flags.
pub fn requests_numbered(flags: u32) -> BufferFlags
    ensures { result ≡ requests_numbered flags }
{
    BufferFlags(flags & 0xFFF8_FFFF)
}

/// The number of a fault.
pub fn fault_number(fault: RunFault) -> u32
    ensures number { result ≡ fault_number fault }
    ensures of_fault { 0 < result }
    ensures of_reader { result ≢ 19 }
{
    match fault {
        RunFault::OutOfMemory
        | RunFault::Json(JsonFault::OutOfMemory)
        | RunFault::Shape(ShapeCause::OutOfMemory) => 1,
        RunFault::Json(JsonFault::NotJson) => 2,
        RunFault::Json(JsonFault::WrongShape) => 3,
        RunFault::Json(JsonFault::FloatNumber) => 4,
        RunFault::Json(JsonFault::UnknownName) => 5,
        RunFault::Json(JsonFault::OutOfOrder) => 6,
        RunFault::Json(JsonFault::OutOfRange) => 7,
        RunFault::Json(JsonFault::SplitDepth) => 8,
        RunFault::Unlawful => 9,
        RunFault::NotUtf8 => 10,
        RunFault::Shape(ShapeCause::TooLong) => 12,
        RunFault::Shape(ShapeCause::StretchRange) => 13,
        RunFault::Shape(ShapeCause::UnknownSyllableKind) => 14,
        RunFault::Font(fault) => font_fault_number(fault),
        RunFault::Words
        | RunFault::Read
        | RunFault::ReadLimit
        | RunFault::Line(_, _)
        | RunFault::Write => 15,
    }
}

/// The number of a fault of a font file: 20 to 25 in the order of the causes, 1 for lack of memory.
fn font_fault_number(fault: FontFault) -> u32
    ensures number { result ≡ font_fault_number fault.cause }
    ensures of_fault { 0 < result }
    ensures of_reader { result ≢ 19 }
{
    match fault.cause {
        TableFault::OutOfMemory => 1,
        TableFault::Short(_) => 20,
        TableFault::Kind(_) => 21,
        TableFault::Order(_) => 22,
        TableFault::Index => 23,
        TableFault::Missing => 24,
        TableFault::TooLarge => 25,
    }
}

/// The parts of a font that are read without those of numbers: 1 for the boxes of glyphs, 2 for their names.
pub fn parts_without(number: u32) -> FontParts
    ensures { result ≡ parts_without number }
{
    FontParts {
        extents: number & 1 == 0,
        names: number & 2 == 0,
    }
}
