// The table memory: a plain table, for beds whose memory never tears.
ghost use Rattle.std.specs.Prelude.{◌≡◌, ℕ, ◌+◌, ◌<◌, ◌≤◌, length, Some, None, slice_index_or};
ghost use Rattle.memory.specs.Limits.{all_slots};
ghost use Rattle.memory.specs.Meaning.{behind, Tears};
ghost use Rattle.codec.specs.Value.{shown};
ghost use Rattle.memory.specs.Table.{table_holds, table_named, table_bounded};

use super::keep::Keep;
use super::limits::ALL_SLOTS;
use super::memory::{Memory, keep_again};
use super::place::Place;
use super::refusal::MemoryRefusal;
use codec::value::Value;

/// A table of 8 beds and 32 slots.
#[derive(Drop)]
pub struct Table {
    // In one row, as on a chip, so that one index serves both. What lies in an array of arrays is not reached where it has ghost fields.
    slots: [Option<Value>; ALL_SLOTS],
}

impl Table {
    /// A table that holds nothing.
    pub fn new() -> Table
        ensures { (bed slot : ℕ) → table_holds result.slots bed slot ≡ None }
    {
        Table {
            slots: [None; ALL_SLOTS],
        }
    }

    // What the slot at a place holds.
    fn held(&self, place: Place) -> Option<&[u8]>
        ensures { behind result ≡ table_holds self.now.slots place.bed place.slot }
    {
        self.slots[place.index()].as_ref().map(Value::as_slice)
    }
}

impl Memory for Table {
    ghost holds = { λ t. table_holds t.slots };

    ghost bounded = { λ t. table_bounded t.slots };

    ghost named = { table_named };

    const NAMED: usize = 0;

    fn named_cells() -> usize
        ensures { result ≡ table_named }
    {
        Self::NAMED
    }

    fn keep(&mut self, bed: u32, slot: u32, bytes: &[u8]) -> Result<(), MemoryRefusal> {
        let Keep { place, bytes } = Keep::new(bed, slot, bytes).ok_or(MemoryRefusal::Limits)?;
        match self.held(place) {
            Some(old) => keep_again(old, bytes),
            None => {
                self.slots[place.index()] = Value::new(bytes);
                Ok(())
            }
        }
    }

    fn read(&self, bed: u32, slot: u32) -> Result<Option<&[u8]>, MemoryRefusal> {
        let place = Place::new(bed, slot).ok_or(MemoryRefusal::Limits)?;
        Ok(self.held(place))
    }

    fn torn_keep(&mut self, bed: u32, slot: u32, bytes: &[u8], at: u32, _junk: u8)
        ensures torn { Tears table_named (table_holds self.old.slots) bed slot bytes.now at (table_holds self.new.slots) }
        ensures early { at < length bytes.now → self.new ≡ self.old }
    {
        if (at as usize) < bytes.len() + Self::NAMED {
            return;
        }
        if let Some(Keep { place, bytes }) = Keep::new(bed, slot, bytes)
            && self.held(place).is_none()
        {
            self.slots[place.index()] = Value::new(bytes);
        }
    }
}
