// The majority service: a round is decided in the first poll with more than half the beds' proposals.
use super::ballots::Ballots;
use super::refusal::DecisionRefusal;
use super::round::Round;
use super::service::{DecisionService, PutAnswer};
use codec::beds::Beds;
use codec::value::Value;

/// A service that decides for the lowest bed once more than half have proposed.
#[derive(Drop)]
pub struct Majority {
    ballots: Ballots,
}

impl Majority {
    ghost use Rattle.std.specs.Prelude.{◌≡◌, ◌≤◌, MatchResult};
    ghost use Rattle.codec.specs.Limits.{max_beds};
    ghost use Rattle.decision.specs.Meaning.{New};
    ghost use Rattle.decision.specs.Ballots.{board_of};
    ghost use Rattle.decision.specs.declared.refusal.DecisionRefusal.TheVariants.{Size};

    /// A service with no proposal and no decision, for a group of so many beds.
    pub fn new(beds: u32) -> Result<Majority, DecisionRefusal>
        ensures { MatchResult result (λ s. New beds (board_of s.ballots)) (λ e. (e ≡ Size) × (1 ≤ beds → beds ≤ max_beds → ⊥)) }
    {
        let ballots = Ballots::new(beds)?;
        Ok(Majority { ballots })
    }
}

impl DecisionService for Majority {
    ghost use Rattle.std.specs.Prelude.{◌≡◌, ℕ, ◌<◌};
    ghost use Rattle.decision.specs.Limits.{round_count};
    ghost use Rattle.decision.specs.Meaning.{Puts, Polls};
    ghost use Rattle.decision.specs.Ballots.{board_of, board_bounded, MajorityPoll};

    ghost board = { λ s. board_of s.ballots };

    ghost bounded = { λ s. board_bounded s.ballots };

    fn beds(&self) -> Beds {
        self.ballots.beds()
    }

    fn put(&mut self, bed: u32, round: u32, bytes: &[u8]) -> Result<PutAnswer, DecisionRefusal>
        ensures puts { Puts (board_of self.old.ballots) bed round bytes.now result (board_of self.new.ballots) }
        ensures later { (k : ℕ) → (board_of self.new.ballots).decision k ≡ (board_of self.old.ballots).decision k }
    {
        let round = Round::new(round).ok_or(DecisionRefusal::Limits)?;
        self.ballots.propose(bed, round, bytes)
    }

    fn poll(&mut self, round: u32) -> Result<Value, DecisionRefusal>
        ensures polls { Polls (board_of self.old.ballots) round result (board_of self.new.ballots) }
        ensures lowest { round < round_count → MajorityPoll (board_of self.old.ballots) round (board_of self.new.ballots) }
    {
        let round = Round::new(round).ok_or(DecisionRefusal::Limits)?;
        if let Some(value) = self.ballots.decision(round) {
            return Ok(value);
        }
        if !self.ballots.enough(round) {
            return Err(DecisionRefusal::Undecided);
        }
        if let Some(value) = self.ballots.lowest(round) {
            self.ballots.decide(round, value);
        }
        self.ballots
            .decision(round)
            .ok_or(DecisionRefusal::Undecided)
    }
}
