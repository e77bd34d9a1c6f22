// An image of a chip memory, and what its slots hold.
ghost use Rattle.std.specs.Prelude.{◌≡◌, Some};
ghost use Rattle.codec.specs.Chain.{map_ok};
ghost use Rattle.inspect.specs.Answer.{Prints};
ghost use Rattle.inspect.specs.Image.{file_of, slot_text, memory_text, image_text};

use super::answer::{parts_text, refusal_text};
use super::fault::LineFault;
use codec::beds::Beds;
use codec::limits::MAX_BEDS;
use codec::reader::Reader;
use memory::chip::Chip;
use memory::limits::SLOTS;
use memory::memory::Memory;
use std::alloc::{AllocError, Global};

/// The name of the file in a line `c N FILE`: what follows the number of beds and a space.
pub fn image_file(line: &[u8]) -> Result<&[u8], LineFault>
    ensures { map_ok (λ x. x.now) result ≡ file_of line.now }
{
    match line {
        [_, _, _, _, name @ ..] if !name.is_empty() => Ok(name),
        _ => Err(LineFault::NoFile),
    }
}

fn slot_text(
    heap: Global,
    bed: u32,
    slot: u32,
    bytes: &[u8],
    beds: Beds,
) -> Result<String, AllocError>
    ensures { Prints result (slot_text beds.count bed slot (Some bytes.now)) }
{
    let length = bytes.len();
    let mut text = format!(in heap; "bed {bed} slot {slot} bytes {length}\n")?;
    text.push_str(parts_text(heap, &mut Reader::batch(bytes, beds), length)?.as_str())?;
    Ok(text)
}

/// What the slots of a memory hold, for a group of so many beds, and how many are empty.
#[tactic(auto, using(crate::proofs::ImageSteps::bed_steps))]
pub fn memory_text<M: Memory>(heap: Global, memory: &M, beds: Beds) -> Result<String, AllocError>
    ensures { Prints result (memory_text beds.count (M.holds memory.now)) }
{
    let mut text = String::new(heap);
    let mut empty = 0u32;
    for bed in 0..u32::from(MAX_BEDS) {
        for slot in 0..SLOTS {
            match memory.read(bed, slot).unwrap() {
                Some(bytes) => text.push_str(slot_text(heap, bed, slot, bytes, beds)?.as_str())?,
                None => empty += 1,
            }
        }
    }
    text.push_str(format!(in heap; "empty {empty}\n")?.as_str())?;
    Ok(text)
}

/// The answer to the line of this number about an image.
pub fn image_text(
    heap: Global,
    number: usize,
    cells: &mut [u8],
    beds: Beds,
) -> Result<String, AllocError>
    ensures { Prints result (image_text number beds.count cells.old) }
{
    if Chip::check(cells).is_err() {
        return refusal_text(heap, number, LineFault::FewCells(cells.len()));
    }
    memory_text(heap, &Chip::new(cells), beds)
}
