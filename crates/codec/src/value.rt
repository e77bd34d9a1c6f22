// What a slot of a memory and a proposal at a service hold.
ghost use Rattle.std.specs.Prelude.{◌≤◌, length};
ghost use Rattle.codec.specs.Limits.{max_batch_bytes};

use super::batch::batch_form;
use super::beds::Beds;
use super::fixed_vec::FixedVec;
use super::limits::MAX_BATCH_BYTES;
use super::refusal::WriteRefusal;
use super::ticket::Ticket;

/// 1 to 65 bytes, as many as a batch has.
#[derive(Clone, Copy)]
pub struct Value {
    bytes: FixedVec<u8, MAX_BATCH_BYTES>,
    ghost some: { 1 ≤ length bytes.items },
    ghost most: { length bytes.items ≤ max_batch_bytes },
}

impl Value {
    ghost use Rattle.std.specs.Prelude.{◌≡◌, ◌≤◌, length, MatchOption};
    ghost use Rattle.codec.specs.Limits.{max_batch_bytes};
    ghost use Rattle.codec.specs.Value.{value_bytes, BatchValue};

    /// A copy of the bytes, if there are 1 to 65 of them.
    pub fn new(bytes: &[u8]) -> Option<Value>
        ensures { MatchOption result (1 ≤ length bytes.now → length bytes.now ≤ max_batch_bytes → ⊥) (λ v. value_bytes v ≡ bytes.now) }
    {
        if bytes.is_empty() {
            return None;
        }
        let bytes = FixedVec::try_from(bytes).ok()?;
        Some(Value { bytes })
    }

    /// The batch of the tickets, for a group of so many beds.
    #[tactic(auto, using(crate::proofs::ListWrites::batch_some, crate::proofs::ListWrites::batch_short))]
    pub fn of_batch(tickets: &[Ticket], beds: Beds) -> Result<Value, WriteRefusal>
        ensures { BatchValue beds.count tickets.now result }
    {
        let bytes = batch_form(tickets, beds).ok_or(WriteRefusal::NoForm)?;
        Ok(Value { bytes })
    }

    pub fn as_slice(&self) -> &[u8]
        ensures { result.now ≡ value_bytes self.now }
    {
        self.bytes.as_slice()
    }
}
