//! State machines that read the categories of characters.
use buffer_unicode::DoublyKeyed;
use std::alloc::Global;

/// A transition: in a state a category leads to another state.
#[derive(Clone, Copy)]
pub struct Step {
    pub state: u32,
    pub category: u8,
    pub next: u32,
}

impl DoublyKeyed for Step {
    ghost high = { λ r. r.state };

    ghost low = { λ r. r.category };

    fn high(&self) -> u32 {
        self.state
    }

    fn low(&self) -> u32 {
        self.category as u32
    }
}

/// An accepting state, with the kind of syllable that ends in it.
#[derive(Clone, Copy)]
pub struct Accept {
    pub state: u32,
    pub kind: u8,
}

impl DoublyKeyed for Accept {
    ghost high = { λ _. 0 };

    ghost low = { λ r. r.state };

    fn high(&self) -> u32 {
        0
    }

    fn low(&self) -> u32 {
        self.state
    }
}

/// The rows of a machine, whose initial state is 0.
#[derive(Drop)]
pub struct SyllableMachine {
    /// The number of states.
    pub states: u32,
    /// The transitions, sorted by state and category.
    pub next: Vec<Step>,
    /// The accepting states, sorted by state.
    pub accept: Vec<Accept>,
}

impl SyllableMachine {
    ghost use Rattle.std.specs.Prelude.{◌≡◌, []};

    /// A machine without states.
    pub fn new(alloc: Global) -> SyllableMachine
        ensures states { result.states ≡ 0 }
        ensures next { result.next.items ≡ [] }
        ensures accept { result.accept.items ≡ [] }
    {
        SyllableMachine {
            states: 0,
            next: Vec::new(alloc),
            accept: Vec::new(alloc),
        }
    }
}

/// The machines of the shapers that find syllables.
#[derive(Drop)]
pub struct SyllableMachines {
    pub indic: SyllableMachine,
    pub khmer: SyllableMachine,
    pub myanmar: SyllableMachine,
    pub universal: SyllableMachine,
}
