//! Where the rows of a machine stand, so that a walk finds each of them at once.
use crate::machine::SyllableMachine;

/// How many states have guesses; the rows of states after them are searched for.
const STATES: usize = 160;

/// Where the rows of a state stand.
#[derive(Clone, Copy)]
struct StateRows {
    /// The index of the state's first transition among those of the machine.
    first_step: u16,
    /// The index of the state among the accepting ones; where it isn't one, that at which it would be inserted.
    accept: u16,
    /// A bit for each of the first 64 categories by which the state has a transition.
    categories: u64,
}

/// Guesses where the rows of a machine stand. They only save time: who takes one looks at the row, and searches where
/// the guess is wrong, so that no answer depends on them.
#[derive(Clone, Copy)]
pub(crate) struct RowGuesses {
    states: [StateRows; STATES],
}

impl RowGuesses {
    /// Guesses of no machine.
    pub(crate) fn none() -> RowGuesses {
        RowGuesses {
            states: [StateRows {
                first_step: 0,
                accept: 0,
                categories: 0,
            }; STATES],
        }
    }

    /// Where the rows of a machine stand.
    pub(crate) fn of_machine(machine: &SyllableMachine) -> RowGuesses {
        let mut guesses = RowGuesses::none();
        for state in 0..STATES {
            let rows = &mut guesses.states[state];
            rows.first_step = guess(
                machine
                    .next
                    .partition_point(|step| (step.state as usize) < state),
            );
            rows.accept = guess(
                machine
                    .accept
                    .partition_point(|accept| (accept.state as usize) < state),
            );
        }
        for step in machine.next.iter() {
            if let Some(rows) = guesses.states.get_mut(step.state as usize) {
                rows.categories |= 1u64 << (step.category % 64);
            }
        }
        guesses
    }

    /// The index at which the transition from a state by a category stands, or would stand.
    pub(crate) fn step_index(&self, state: u32, category: u8) -> usize {
        match self.states.get(state as usize) {
            Some(rows) => {
                let lower = rows.categories & !(u64::MAX << (category % 64));
                rows.first_step as usize + lower.count_ones() as usize
            }
            None => 0,
        }
    }

    /// The index at which a state stands among the accepting states, or would stand.
    pub(crate) fn accept_index(&self, state: u32) -> usize {
        match self.states.get(state as usize) {
            Some(rows) => rows.accept as usize,
            None => 0,
        }
    }
}

/// An index as a guess, a wrong one where it doesn't fit.
fn guess(index: usize) -> u16 {
    u16::try_from(index).unwrap_or(u16::MAX)
}
