// What a keep is to do.
ghost use Rattle.std.specs.Prelude.{◌≡◌, length, MatchOption};
ghost use Rattle.memory.specs.Meaning.{Within};

use super::limits::within;
use super::place::Place;

/// Bytes, and the place where they are to be kept.
// The bytes are lent, so that none are copied before their slot is looked at.
#[derive(Drop)]
pub(crate) struct Keep<'a> {
    pub(crate) place: Place,
    pub(crate) bytes: &'a [u8],
    ghost within: { Within place.bed place.slot (length bytes.now) },
}

impl<'a> Keep<'a> {
    /// The keep of these bytes there, if it is within the limits.
    pub(crate) fn new(bed: u32, slot: u32, bytes: &'a [u8]) -> Option<Keep<'a>>
        ensures { MatchOption result (Within bed slot (length bytes.now) → ⊥) (λ k. (k.place.bed ≡ bed) × (k.place.slot ≡ slot) × (k.bytes.now ≡ bytes.now)) }
    {
        if !within(bed, slot, bytes.len()) {
            return None;
        }
        let place = Place::new(bed, slot)?;
        Some(Keep { place, bytes })
    }
}
