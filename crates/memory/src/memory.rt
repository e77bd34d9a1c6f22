// The memory of the beds, by what its slots hold.
ghost use Rattle.std.specs.Prelude.{◌≡◌, ℕ, List, Some, Option};
ghost use Rattle.memory.specs.Meaning.{Bounded, KeepAnswer, Keeps, Reads, Tears};

use super::refusal::MemoryRefusal;

// What a full slot answers to a keep.
pub(crate) fn keep_again(held: &[u8], bytes: &[u8]) -> Result<(), MemoryRefusal>
    ensures { KeepAnswer (Some held.now) bytes.now result }
{
    if held == bytes {
        Ok(())
    } else {
        Err(MemoryRefusal::Differs)
    }
}

/// A memory. `holds` is what it means: for each bed and slot, nothing or 1 to 65 bytes.
// The calls take plain numbers, any of them: what is out of range is refused.
pub trait Memory {
    ghost holds: { Self → ℕ → ℕ → Option (List ℕ) };

    // Nothing is held outside the limits.
    ghost bounded: { (m : Self) → Bounded (holds m) };

    // The number that the memory names for itself: so many cells past its bytes a torn keep is whole for sure.
    ghost named: { ℕ };

    const NAMED: usize;

    // The ghost number is the constant. A method says so, since the check ties no ghost constant to one of a type with a lifetime.
    fn named_cells() -> usize
        ensures { result ≡ named };

    /// Puts bytes into an empty slot; the same bytes again are accepted.
    fn keep(&mut self, bed: u32, slot: u32, bytes: &[u8]) -> Result<(), MemoryRefusal>
        ensures { Keeps (holds self.old) bed slot bytes.now result (holds self.new) };

    /// What the slot holds.
    fn read(&self, bed: u32, slot: u32) -> Result<Option<&[u8]>, MemoryRefusal>
        ensures { Reads (holds self.now) bed slot result };

    /// A keep during which power fails after `at` finished cells; the cell then under way holds `junk`.
    fn torn_keep(&mut self, bed: u32, slot: u32, bytes: &[u8], at: u32, junk: u8)
        ensures { Tears named (holds self.old) bed slot bytes.now at (holds self.new) };
}
