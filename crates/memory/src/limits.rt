// The limits of a memory. specs/Limits.antt has the same numbers for the contracts.
ghost use Rattle.std.specs.Prelude.{Decides};
ghost use Rattle.memory.specs.Meaning.{InPlace, Within};

use codec::limits::{MAX_BATCH_BYTES, MAX_BEDS};

/// The slots of a bed: one for each round.
pub const SLOTS: u32 = 32;
/// The slots of all beds.
pub const ALL_SLOTS: usize = 256;

/// Whether there is such a bed and slot.
pub fn in_place(bed: u32, slot: u32) -> bool
    ensures { Decides result (InPlace bed slot) }
{
    bed < u32::from(MAX_BEDS) && slot < SLOTS
}

/// Whether so many bytes may be kept there.
pub fn within(bed: u32, slot: u32, len: usize) -> bool
    ensures { Decides result (Within bed slot len) }
{
    in_place(bed, slot) && len >= 1 && len <= MAX_BATCH_BYTES
}
