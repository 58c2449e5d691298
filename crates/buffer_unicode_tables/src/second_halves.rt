//! Which second halves pairs have, so that most pairs of characters need not be searched for (of this project).
ghost use Rattle.std.specs.Prelude.{◌≡◌, ◌<◌, ◌%◌, IfOk, vec_len};
ghost use Rattle.buffer_unicode_tables.specs.SecondHalves.{HaveSeconds, has_slot};

use buffer_unicode::Pair;
use std::alloc::{AllocError, Global};

/// How many slots there are: a character has that of its ten low bits.
const SLOTS: usize = 1024;

/// Slots for characters, of which those are marked that a second half of a pair has. They only save time: a pair whose
/// second half has another slot has no composite.
#[derive(Drop)]
pub(crate) struct SecondHalves {
    slots: Vec<bool>,
}

impl SecondHalves {
    /// The slots of the second halves of pairs. They take a kilobyte.
    pub(crate) fn new(alloc: Global, pairs: &[Pair]) -> Result<SecondHalves, AllocError>
        ensures { IfOk result (λ s. HaveSeconds s.slots.items pairs.now) }
    {
        let mut slots = Vec::new(alloc);
        slots.resize(SLOTS, false)?;
        mark_seconds(pairs, &mut slots);
        Ok(SecondHalves { slots })
    }

    /// Whether a second half has the slot of a character.
    #[tactic(auto, using(crate::proofs::Seconds::slot_read, crate::proofs::Seconds::slot_past))]
    pub(crate) fn may_be_second(&self, b: char) -> bool
        ensures { result ≡ has_slot self.now.slots.items b }
    {
        let at = slot_of(b);
        if at < self.slots.len() {
            return self.slots[at];
        }
        false
    }
}

/// The slot of a character.
fn slot_of(c: char) -> usize
    ensures value { result ≡ c % 1024 }
    ensures within { result < 1024 }
{
    (c as u32 % 1024) as usize
}

/// Marks the slots of the second halves of pairs.
#[tactic(auto, using(crate::proofs::Seconds::none_marked, crate::proofs::Seconds::one_marked, crate::proofs::Seconds::all_marked))]
fn mark_seconds(pairs: &[Pair], slots: &mut Vec<bool>)
    requires { vec_len slots.old ≡ 1024 }
    ensures { HaveSeconds slots.new.items pairs.now }
{
    for pair in pairs {
        slots[slot_of(pair.second)] = true;
    }
}
