// The first-comer service: the first put of a round decides it.
ghost use Rattle.std.specs.Prelude.{◌≡◌, ℕ, true, is_some};
ghost use Rattle.decision.specs.Ballots.{board_of};

use super::ballots::Ballots;
use super::refusal::DecisionRefusal;
use super::round::Round;
use super::service::{DecisionService, PutAnswer};
use codec::beds::Beds;
use codec::value::Value;

/// A service that decides for the first proposal of each round.
#[derive(Drop)]
pub struct FirstComer {
    ballots: Ballots,
    // A round with a proposal is decided.
    ghost decided: { (bed round : ℕ) → is_some ((board_of ballots).proposal bed round) ≡ true → is_some ((board_of ballots).decision round) ≡ true },
}

impl FirstComer {
    ghost use Rattle.std.specs.Prelude.{◌≤◌, MatchResult};
    ghost use Rattle.codec.specs.Limits.{max_beds};
    ghost use Rattle.decision.specs.Meaning.{New};
    ghost use Rattle.decision.specs.declared.refusal.DecisionRefusal.TheVariants.{Size};

    /// A service with no proposal and no decision, for a group of so many beds.
    pub fn new(beds: u32) -> Result<FirstComer, DecisionRefusal>
        ensures { MatchResult result (λ s. New beds (board_of s.ballots)) (λ e. (e ≡ Size) × (1 ≤ beds → beds ≤ max_beds → ⊥)) }
    {
        let ballots = Ballots::new(beds)?;
        Ok(FirstComer { ballots })
    }
}

impl DecisionService for FirstComer {
    ghost use Rattle.std.specs.Prelude.{OnOk};
    ghost use Rattle.decision.specs.Meaning.{Puts, Polls};
    ghost use Rattle.decision.specs.Ballots.{board_bounded, or_else};

    ghost board = { λ s. board_of s.ballots };

    ghost bounded = { λ s. board_bounded s.ballots };

    fn beds(&self) -> Beds {
        self.ballots.beds()
    }

    fn put(&mut self, bed: u32, round: u32, bytes: &[u8]) -> Result<PutAnswer, DecisionRefusal>
        ensures puts { Puts (board_of self.old.ballots) bed round bytes.now result (board_of self.new.ballots) }
        ensures first { OnOk result ((board_of self.new.ballots).decision round ≡ or_else ((board_of self.old.ballots).decision round) ((board_of self.new.ballots).proposal bed round)) }
    {
        let round = Round::new(round).ok_or(DecisionRefusal::Limits)?;
        let answer = self.ballots.propose(bed, round, bytes)?;
        if self.ballots.decision(round).is_none() {
            if let Some(value) = self.ballots.proposal(bed, round) {
                self.ballots.decide(round, value);
            }
        }
        Ok(answer)
    }

    fn poll(&mut self, round: u32) -> Result<Value, DecisionRefusal>
        ensures polls { Polls (board_of self.old.ballots) round result (board_of self.new.ballots) }
        ensures same { self.new ≡ self.old }
    {
        let round = Round::new(round).ok_or(DecisionRefusal::Limits)?;
        self.ballots
            .decision(round)
            .ok_or(DecisionRefusal::Undecided)
    }
}
