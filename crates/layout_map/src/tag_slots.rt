//! Where features of a map may stand, by their tags (of this project).
ghost use Rattle.std.specs.Prelude.{◌≡◌, ◌≢◌, ◌≤◌, ◌<◌, ◌%◌, None, false, length};
ghost use Rattle.layout_map.specs.TagSlots.{HaveSlots, has_slot};

use crate::chosen_feature::feature_map_t;

/// How many slots tags share: that of a tag is its number modulo this.
const SLOTS: usize = 61;

/// Slots of tags. They only save time: the feature of a tag whose slot is free isn't searched for, and others are first
/// looked for where the slot says.
#[derive(Drop)]
pub(crate) struct TagSlots {
    /// One more than the index of a feature whose tag has the slot, as far as that fits; 0 where none has it.
    slots: [u8; SLOTS],
}

impl TagSlots {
    /// The slots of features. They take no memory.
    pub(crate) fn new(features: &[feature_map_t]) -> TagSlots
        ensures { HaveSlots result.slots features.now }
    {
        let mut slots = [0; SLOTS];
        fill_slots(features, &mut slots);
        TagSlots { slots }
    }

    /// A guess at the index of the feature of a tag, none where no feature has its slot.
    #[tactic(auto, using(crate::proofs::Slotted::free_slot))]
    pub(crate) fn guess(&self, tag: u32) -> Option<usize>
        ensures { result ≡ None → has_slot self.now.slots tag ≡ false }
    {
        let slot = self.slots[slot_of(tag)];
        if slot == 0 {
            return None;
        }
        Some(usize::from(slot - 1))
    }
}

/// The slot of a tag.
fn slot_of(tag: u32) -> usize
    ensures value { result ≡ tag % 61 }
    ensures within { result < 61 }
{
    tag as usize % SLOTS
}

/// The entry of a slot for a feature at an index.
fn entry_of(index: usize) -> u8
    ensures { result ≢ 0 }
{
    index.min(254) as u8 + 1
}

/// Fills the slots of features.
#[tactic(auto, using(crate::proofs::Slotted::none_slotted, crate::proofs::Slotted::one_slotted, crate::proofs::Slotted::all_slotted))]
fn fill_slots(features: &[feature_map_t], slots: &mut [u8; SLOTS])
    ensures { HaveSlots slots.new features.now }
{
    for i in 0..features.len() {
        slots[slot_of(features[i].tag.0)] = entry_of(i);
    }
}
