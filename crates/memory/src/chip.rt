// The chip memory, over cells that are lent to it.
//
// | cells of a slot | what they hold                          |
// |-----------------|-----------------------------------------|
// | 0               | the length; 0 counts as 1, above 65 as 65 |
// | 1 to 65         | the bytes                               |
// | 66              | the mark: A5 if the slot is full        |
//
// The slot of bed b and slot s begins at cell 67 × (32 × b + s). A keep writes the length, the bytes and last the mark, so
// a slot whose keep was broken off is empty.
ghost use Rattle.std.specs.Prelude.{◌≡◌, ℕ, ◌+◌, ◌*◌, ◌<◌, ◌≤◌, List, length, if◌then◌else◌, None, Ok, Err, nat_lt, slice_set};
ghost use Rattle.memory.specs.Meaning.{InPlace, Within, behind, KeepAnswer, Keeps, Tears};
ghost use Rattle.memory.specs.Chip.{chip_cells, slot_cells, chip_named, start, slot_holds, chip_holds, keep_place, keep_cell, written, keep_cells, torn_cells, Blank};
ghost use Rattle.memory.specs.ChipBounds.{chip_bounded};
ghost use Rattle.memory.specs.Keep.{place_start, keep_start, keep_bytes};
ghost use Rattle.memory.specs.declared.refusal.MemoryRefusal.TheVariants.{Cells};

use super::keep::Keep;
use super::memory::{Memory, keep_again};
use super::place::Place;
use super::refusal::MemoryRefusal;
use codec::limits::MAX_BATCH_BYTES;

/// The cells of a chip.
pub const CELLS: usize = 17_152;

const SLOT_CELLS: usize = 67;

const MARK_PLACE: usize = 66;

const MARK: u8 = 0xA5;

// A keep writes so many cells beside its bytes: the length and the mark.
const OWN_CELLS: usize = 2;

/// A memory in cells that somebody else owns.
#[derive(Drop)]
pub struct Chip<'a> {
    cells: &'a mut [u8],
    ghost big: { chip_cells ≤ length cells.now },
}

impl<'a> Chip<'a> {
    /// Whether there are enough cells for a chip.
    pub fn check(cells: &[u8]) -> Result<(), MemoryRefusal>
        ensures { result ≡ (if nat_lt (length cells.now) chip_cells then Err Cells else Ok tt) }
    {
        if cells.len() < CELLS {
            Err(MemoryRefusal::Cells)
        } else {
            Ok(())
        }
    }

    /// A chip in cells that `check` found to be enough. What they hold is what it holds.
    pub fn new(cells: &'a mut [u8]) -> Chip<'a>
        requires { chip_cells ≤ length cells.old }
        ensures same { result.cells.now ≡ cells.old }
        ensures blank { Blank cells.old → (bed slot : ℕ) → chip_holds result.cells.now bed slot ≡ None }
    {
        Chip { cells }
    }
}

// The first cell of a slot.
fn slot_start(place: Place) -> usize
    ensures value { result ≡ place_start place }
    ensures within { result + slot_cells ≤ chip_cells }
{
    SLOT_CELLS * place.index()
}

// What cell `i` of a keep is to hold.
fn keep_cell(keep: &Keep, i: usize) -> u8
    ensures { result ≡ keep_cell (keep_bytes keep.now) i }
{
    if i == 0 {
        keep.bytes.len() as u8
    } else {
        keep.bytes.get(i - 1).copied().unwrap_or(MARK)
    }
}

// Where in its slot cell `i` of a keep of so many bytes lies.
fn keep_place(len: usize, i: usize) -> usize
    ensures { result ≡ keep_place len i }
{
    if i <= len { i } else { MARK_PLACE }
}

// How many cells a keep writes.
fn cell_count(keep: &Keep) -> usize
    ensures { result ≡ length (keep_bytes keep.now) + chip_named }
{
    keep.bytes.len() + OWN_CELLS
}

impl Chip<'_> {
    // What the slot at a place holds.
    fn held(&self, place: Place) -> Option<&[u8]>
        ensures { behind result ≡ slot_holds self.now.cells.now (place_start place) }
    {
        let p = slot_start(place);
        if self.cells[p + MARK_PLACE] != MARK {
            return None;
        }
        let len = usize::from(self.cells[p]).clamp(1, MAX_BATCH_BYTES);
        Some(&self.cells[p + 1..p + 1 + len])
    }

    // Writes into cell `i` of a keep.
    fn write_cell(&mut self, keep: &Keep, i: usize, cell: u8)
        ensures { self.new.cells.now ≡ slice_set self.old.cells.now (keep_start keep.now + keep_place (length (keep_bytes keep.now)) i) cell }
    {
        let p = slot_start(keep.place);
        self.cells[p + keep_place(keep.bytes.len(), i)] = cell;
    }

    // Writes the first `count` cells of a keep one by one, in their order: power can fail between any two.
    fn write_cells(&mut self, keep: &Keep, count: usize)
        ensures { self.new.cells.now ≡ written self.old.cells.now (keep_start keep.now) (keep_bytes keep.now) count }
    {
        for i in 0..count {
            self.write_cell(keep, i, keep_cell(keep, i));
        }
    }

    // A keep, in place.
    fn write(&mut self, keep: &Keep) -> Result<(), MemoryRefusal>
        ensures keeps { Keeps (chip_holds self.old.cells.now) keep.now.place.bed keep.now.place.slot (keep_bytes keep.now) result (chip_holds self.new.cells.now) }
        ensures cells { self.new.cells.now ≡ keep_cells self.old.cells.now (keep_start keep.now) (keep_bytes keep.now) }
    {
        match self.held(keep.place) {
            Some(old) => keep_again(old, keep.bytes),
            None => {
                self.write_cells(keep, cell_count(keep));
                Ok(())
            }
        }
    }

    // A torn keep, in place.
    fn tear(&mut self, keep: &Keep, at: usize, junk: u8)
        ensures tears { Tears chip_named (chip_holds self.old.cells.now) keep.now.place.bed keep.now.place.slot (keep_bytes keep.now) at (chip_holds self.new.cells.now) }
        ensures cells { self.new.cells.now ≡ torn_cells self.old.cells.now (keep_start keep.now) (keep_bytes keep.now) at junk }
    {
        if self.held(keep.place).is_some() {
            return;
        }
        let count = cell_count(keep);
        if at >= count {
            self.write_cells(keep, count);
        } else {
            self.write_cells(keep, at);
            self.write_cell(keep, at, junk);
        }
    }
}

impl Memory for Chip<'_> {
    ghost holds = { λ c. chip_holds c.cells.now };

    ghost bounded = { λ c. chip_bounded c.cells.now c.big };

    ghost named = { chip_named };

    const NAMED: usize = OWN_CELLS;

    fn named_cells() -> usize
        ensures { result ≡ chip_named }
    {
        Self::NAMED
    }

    fn keep(&mut self, bed: u32, slot: u32, bytes: &[u8]) -> Result<(), MemoryRefusal>
        ensures keeps { Keeps (chip_holds self.old.cells.now) bed slot bytes.now result (chip_holds self.new.cells.now) }
        ensures cells { Within bed slot (length bytes.now) → self.new.cells.now ≡ keep_cells self.old.cells.now (start bed slot) bytes.now }
        ensures outside { (Within bed slot (length bytes.now) → ⊥) → self.new.cells.now ≡ self.old.cells.now }
    {
        let keep = Keep::new(bed, slot, bytes).ok_or(MemoryRefusal::Limits)?;
        self.write(&keep)
    }

    fn read(&self, bed: u32, slot: u32) -> Result<Option<&[u8]>, MemoryRefusal> {
        let place = Place::new(bed, slot).ok_or(MemoryRefusal::Limits)?;
        Ok(self.held(place))
    }

    fn torn_keep(&mut self, bed: u32, slot: u32, bytes: &[u8], at: u32, junk: u8)
        ensures tears { Tears chip_named (chip_holds self.old.cells.now) bed slot bytes.now at (chip_holds self.new.cells.now) }
        ensures cells { Within bed slot (length bytes.now) → self.new.cells.now ≡ torn_cells self.old.cells.now (start bed slot) bytes.now at junk }
        ensures outside { (Within bed slot (length bytes.now) → ⊥) → self.new.cells.now ≡ self.old.cells.now }
    {
        if let Some(keep) = Keep::new(bed, slot, bytes) {
            self.tear(&keep, at as usize, junk);
        }
    }
}
