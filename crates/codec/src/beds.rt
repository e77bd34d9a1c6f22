// The size of a group.
ghost use Rattle.std.specs.Prelude.{◌≡◌, ◌≤◌, MatchOption};
ghost use Rattle.codec.specs.Limits.{max_beds};

use super::limits::MAX_BEDS;

/// How many beds a group has: 1 to 8. A bed is one laser cutter of the group, numbered from 0.
#[derive(Clone, Copy)]
pub struct Beds {
    count: u8,
    ghost some: { 1 ≤ count },
    ghost most: { count ≤ max_beds },
}

impl Beds {
    /// A group of so many beds, if there is one.
    // `new` and no `TryFrom`, here and for every type with bounds: there is one way to be out of them, and an error would say no more.
    pub fn new(count: u32) -> Option<Beds>
        ensures { MatchOption result (1 ≤ count → count ≤ max_beds → ⊥) (λ b. b.count ≡ count) }
    {
        if count >= 1 && count <= u32::from(MAX_BEDS) {
            Some(Beds { count: count as u8 })
        } else {
            None
        }
    }

    pub fn count(self) -> u8
        ensures { result ≡ self.count }
    {
        self.count
    }
}
