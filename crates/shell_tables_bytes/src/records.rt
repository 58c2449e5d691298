//! The records of the sections. A character is a uint24, any other number a uint8.
ghost use Rattle.std.specs.Prelude.{◌≡◌};

use crate::sections::RecordReader;
use font_bytes::words::{byte, triple, word};
use script_categories::{Accept, Step};

/// Reads two characters: mirror images, vertical forms, the first and the last one of a range.
#[derive(Clone, Copy)]
pub(crate) struct TwoCharacters;

impl RecordReader for TwoCharacters {
    ghost use Rattle.shell_tables_bytes.specs.Records.{two_characters};

    type Row = [u32; 2];

    ghost means = { two_characters };

    ghost width = { 6 };

    fn width(self) -> u8 {
        6
    }

    fn read(self, bytes: &[u8], at: usize) -> [u32; 2] {
        [triple(bytes, at), triple(bytes, at + 3)]
    }
}

/// Reads three characters: one and its two halves, two and their composite.
#[derive(Clone, Copy)]
pub(crate) struct ThreeCharacters;

impl RecordReader for ThreeCharacters {
    ghost use Rattle.shell_tables_bytes.specs.Records.{three_characters};

    type Row = [u32; 3];

    ghost means = { three_characters };

    ghost width = { 9 };

    fn width(self) -> u8 {
        9
    }

    fn read(self, bytes: &[u8], at: usize) -> [u32; 3] {
        [
            triple(bytes, at),
            triple(bytes, at + 3),
            triple(bytes, at + 6),
        ]
    }
}

/// Reads a character, its Indic syllabic category and its position.
#[derive(Clone, Copy)]
pub(crate) struct IndicRecords;

impl RecordReader for IndicRecords {
    ghost use Rattle.shell_tables_bytes.specs.Records.{indic_record};

    type Row = [u32; 3];

    ghost means = { indic_record };

    ghost width = { 5 };

    fn width(self) -> u8 {
        5
    }

    fn read(self, bytes: &[u8], at: usize) -> [u32; 3] {
        [
            triple(bytes, at),
            u32::from(byte(bytes, at + 3)),
            u32::from(byte(bytes, at + 4)),
        ]
    }
}

/// Reads a Thai character, an action, and the two characters that replace it by the action.
#[derive(Clone, Copy)]
pub(crate) struct ThaiRecords;

impl RecordReader for ThaiRecords {
    ghost use Rattle.shell_tables_bytes.specs.Records.{thai_record};

    type Row = [u32; 4];

    ghost means = { thai_record };

    ghost width = { 10 };

    fn width(self) -> u8 {
        10
    }

    fn read(self, bytes: &[u8], at: usize) -> [u32; 4] {
        [
            triple(bytes, at),
            u32::from(byte(bytes, at + 3)),
            triple(bytes, at + 4),
            triple(bytes, at + 7),
        ]
    }
}

/// Characters in turn that have one number: a class, a joining type, a category.
#[derive(Clone, Copy, Drop)]
pub(crate) struct Run {
    pub plane: u8,
    /// The first one's number within the plane.
    pub first: u16,
    pub count: u16,
    pub number: u8,
}

/// Reads runs of characters.
#[derive(Clone, Copy)]
pub(crate) struct Runs;

impl RecordReader for Runs {
    ghost use Rattle.shell_tables_bytes.specs.Records.{run_record};

    type Row = Run;

    ghost means = { run_record };

    ghost width = { 6 };

    fn width(self) -> u8 {
        6
    }

    fn read(self, bytes: &[u8], at: usize) -> Run {
        Run {
            plane: byte(bytes, at),
            first: word(bytes, at + 1),
            count: word(bytes, at + 3),
            number: byte(bytes, at + 5),
        }
    }
}

/// Reads transitions of a machine: a state, a category, the next state.
#[derive(Clone, Copy)]
pub(crate) struct Steps;

impl RecordReader for Steps {
    ghost use Rattle.shell_tables_bytes.specs.Records.{step_record};

    type Row = Step;

    ghost means = { step_record };

    ghost width = { 3 };

    fn width(self) -> u8 {
        3
    }

    fn read(self, bytes: &[u8], at: usize) -> Step {
        Step {
            state: u32::from(byte(bytes, at)),
            category: byte(bytes, at + 1),
            next: u32::from(byte(bytes, at + 2)),
        }
    }
}

/// Reads accepting states with the kinds of syllables that end in them.
#[derive(Clone, Copy)]
pub(crate) struct Accepts;

impl RecordReader for Accepts {
    ghost use Rattle.shell_tables_bytes.specs.Records.{accept_record};

    type Row = Accept;

    ghost means = { accept_record };

    ghost width = { 2 };

    fn width(self) -> u8 {
        2
    }

    fn read(self, bytes: &[u8], at: usize) -> Accept {
        Accept {
            state: u32::from(byte(bytes, at)),
            kind: byte(bytes, at + 1),
        }
    }
}
