// Where a memory keeps something.
ghost use Rattle.std.specs.Prelude.{◌≡◌, ◌<◌, MatchOption};
ghost use Rattle.memory.specs.Limits.{slot_index, all_slots};
ghost use Rattle.memory.specs.Meaning.{InPlace};

use super::limits::{SLOTS, in_place};

/// A slot, by its bed and its number there.
#[derive(Clone, Copy)]
pub(crate) struct Place {
    bed: u32,
    slot: u32,
    ghost in_place: { InPlace bed slot },
}

impl Place {
    /// The place, if there is such a bed and slot.
    pub(crate) fn new(bed: u32, slot: u32) -> Option<Place>
        ensures { MatchOption result (InPlace bed slot → ⊥) (λ p. (p.bed ≡ bed) × (p.slot ≡ slot)) }
    {
        // No `then`: its closure would have to be told that there is such a place.
        if in_place(bed, slot) {
            Some(Place { bed, slot })
        } else {
            None
        }
    }

    // The slots of all beds stand one after another, those of bed 0 first.
    pub(crate) fn index(self) -> usize
        ensures value { result ≡ slot_index self.bed self.slot }
        ensures within { result < all_slots }
    {
        (SLOTS * self.bed + self.slot) as usize
    }
}
