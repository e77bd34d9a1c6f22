// The decision service of a group, by what stands at it.
ghost use Rattle.std.specs.Prelude.{◌≡◌};
ghost use Rattle.decision.specs.Meaning.{Board, Bounded, Puts, Polls};

use super::refusal::DecisionRefusal;
use codec::beds::Beds;
use codec::value::Value;

/// What a put answers: whether the proposal was recorded, or the bed had one in that round.
// Two names and no bool, since the calls after a put would not show which of the two `true` is.
#[derive(Clone, Copy)]
pub enum PutAnswer {
    Taken,
    Had,
}

/// A decision service. `board` is what it means: the proposals by bed and round, and the decisions by round.
// The calls take plain numbers, any of them: what is out of range is refused.
pub trait DecisionService {
    ghost board: { Self → Board };

    // What stands is within the limits.
    ghost bounded: { (s : Self) → Bounded (board s) };

    /// How many beds its group has.
    fn beds(&self) -> Beds
        ensures { result.count ≡ (board self.now).beds };

    /// Records a bed's proposal in a round, unless it has one.
    fn put(&mut self, bed: u32, round: u32, bytes: &[u8]) -> Result<PutAnswer, DecisionRefusal>
        ensures { Puts (board self.old) bed round bytes.now result (board self.new) };

    /// The decision of a round.
    fn poll(&mut self, round: u32) -> Result<Value, DecisionRefusal>
        ensures { Polls (board self.old) round result (board self.new) };
}
