//! The syllables that the given machines find.
ghost use Rattle.std.specs.Prelude.{◌≡◌, ◌<◌, ◌≤◌, IfOk, IfErr, IfSome, OnOk, None, Some, length};
ghost use Rattle.std.specs.Option.{option_and_then};
ghost use Rattle.script_categories.specs.LongestMatch.{longest_syllable};
ghost use Rattle.script_categories.specs.Machines.{machine_of, machines_fault, machines_in};
ghost use Rattle.script_categories.specs.Sound.{AreRising};

use crate::faults::machines_fault;
use crate::hb_ot_script_shaper_t::{
    self, INDIC_SHAPER, KHMER_SHAPER, MYANMAR_SHAPER, UNIVERSAL_SHAPER,
};
use crate::machine::SyllableMachines;
use crate::row_guesses::RowGuesses;
use crate::scan::{FoundSyllable, longest_syllable};
use crate::spans::SyllableSpans;
use buffer_unicode::TablesFault;
use std::marker::Model;

/// The machines of all shapers, with checked states and kinds.
#[derive(Drop)]
pub struct SyllableTable {
    machines: SyllableMachines,
    /// Where the rows of each machine stand; of no meaning for what is found.
    guesses: MachineGuesses,
}

/// Where the rows of the machines stand.
#[derive(Clone, Copy)]
struct MachineGuesses {
    indic: RowGuesses,
    khmer: RowGuesses,
    myanmar: RowGuesses,
    universal: RowGuesses,
}

impl MachineGuesses {
    fn of_machines(machines: &SyllableMachines) -> MachineGuesses {
        MachineGuesses {
            indic: RowGuesses::of_machine(&machines.indic),
            khmer: RowGuesses::of_machine(&machines.khmer),
            myanmar: RowGuesses::of_machine(&machines.myanmar),
            universal: RowGuesses::of_machine(&machines.universal),
        }
    }
}

impl Model for SyllableTable {
    ghost use Rattle.script_categories.specs.Inside.{IsSound};
    ghost use Rattle.script_categories.specs.Machines.{Machines, machines_in};

    ghost Value = { Machines };

    ghost view = { λ t. machines_in t.machines };

    ghost invariant = { IsSound };
}

impl SyllableTable {
    /// Makes a table of machines, or returns the first fault of a row: a state that the machine lacks or a kind that
    /// the shaper lacks (`OutOfRange`), else a key that is not greater than the previous one (`OutOfOrder`). The
    /// machines are checked in the order of the shapers' names, and the transitions of a machine before its accepting
    /// states.
    pub fn new(machines: SyllableMachines) -> Result<SyllableTable, TablesFault>
        ensures table { IfOk result (λ t. t ≡ machines_in machines) }
        ensures sound { OnOk result (machines_fault (machines_in machines) ≡ None) }
        ensures refused { IfErr result (λ e. machines_fault (machines_in machines) ≡ Some e) }
    {
        match machines_fault(&machines) {
            None => Ok(SyllableTable {
                guesses: MachineGuesses::of_machines(&machines),
                machines,
            }),
            Some(fault) => Err(fault),
        }
    }

    /// Makes a table of machines whose rows rise by their keys, and whose states and kinds were checked.
    pub fn of_machines(machines: SyllableMachines) -> SyllableTable
        requires { AreRising (machines_in machines) }
        ensures { result ≡ machines_in machines }
    {
        SyllableTable {
            guesses: MachineGuesses::of_machines(&machines),
            machines,
        }
    }

    fn found(&self, shaper: hb_ot_script_shaper_t, categories: &[u8]) -> Option<FoundSyllable>
        ensures found { result ≡ option_and_then (λ m. longest_syllable m categories.now) (machine_of self.now shaper) }
        ensures within { IfSome result (λ f. (0 < f.length) × (f.length ≤ length categories.now)) }
    {
        match shaper {
            INDIC_SHAPER => longest_syllable(&self.machines.indic, &self.guesses.indic, categories),
            KHMER_SHAPER => longest_syllable(&self.machines.khmer, &self.guesses.khmer, categories),
            MYANMAR_SHAPER => longest_syllable(
                &self.machines.myanmar,
                &self.guesses.myanmar,
                categories,
            ),
            UNIVERSAL_SHAPER => longest_syllable(
                &self.machines.universal,
                &self.guesses.universal,
                categories,
            ),
            _ => None,
        }
    }
}

impl SyllableSpans for SyllableTable {
    ghost use Rattle.script_categories.specs.LongestMatch.{syllable_at};
    ghost use Rattle.script_categories.specs.Spans.{ends_after_start, ends_inside};

    ghost span_of = { syllable_at };

    fn next(&self, shaper: hb_ot_script_shaper_t, categories: &[u8], start: usize) -> (usize, u8) {
        match self.found(shaper, &categories[start..]) {
            Some(found) => (start + found.length, found.kind),
            None => (start + 1, shaper.non_cluster_kind()),
        }
    }

    ghost ends_after_start = { ends_after_start };

    ghost ends_inside = { ends_inside };
}
