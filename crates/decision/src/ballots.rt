// The proposals and decisions of a service, in a fixed table.
ghost use Rattle.std.specs.Prelude.{◌≡◌, ◌≤◌, length, is_some, count_by};
ghost use Rattle.codec.specs.Limits.{max_beds};

use super::limits::{ALL_DECISIONS, ALL_PROPOSALS};
use super::refusal::DecisionRefusal;
use super::round::Round;
use super::service::PutAnswer;
use codec::beds::Beds;
use codec::limits::{MAX_BATCH_BYTES, MAX_BEDS};
use codec::value::Value;

/// What stands in one round: for each bed a proposal or none, and a decision or none.
#[derive(Clone, Copy)]
struct Tally {
    proposals: [Option<Value>; MAX_BEDS as usize],
    decision: Option<Value>,
}

/// What a service holds.
#[derive(Drop)]
pub(crate) struct Ballots {
    beds: Beds,
    rounds: [Tally; ALL_DECISIONS],
}

impl Tally {
    ghost use Rattle.std.specs.Prelude.{◌≡◌, ◌≢◌, ℕ, ◌<◌, take, is_some, Some, None, count_by, slice_index_or};
    ghost use Rattle.codec.specs.Limits.{max_beds};
    ghost use Rattle.decision.specs.Ballots.{IsLowest};

    // That there is such a bed is a clause here and below: whoever calls has tested it, and a type for it would be taken apart at once.
    fn proposal(&self, bed: usize) -> Option<Value>
        requires { bed < max_beds }
        ensures { result ≡ slice_index_or self.now.proposals bed None }
    {
        self.proposals[bed]
    }

    fn propose(&mut self, bed: usize, value: Value)
        requires { bed < max_beds }
        ensures here { slice_index_or self.new.proposals bed None ≡ Some value }
        ensures others { (k : ℕ) → (k ≢ bed) → slice_index_or self.new.proposals k None ≡ slice_index_or self.old.proposals k None }
        ensures decision { self.new.decision ≡ self.old.decision }
    {
        self.proposals[bed] = Some(value);
    }

    // How many beds have a proposal.
    fn proposers(&self, beds: Beds) -> usize
        ensures { result ≡ count_by is_some (take beds.count self.now.proposals) }
    {
        count_proposals(&self.proposals[..usize::from(beds.count())])
    }

    // The proposal of the lowest bed that has one.
    fn lowest(&self, beds: Beds) -> Option<Value>
        ensures { IsLowest self.now.proposals beds.count result }
    {
        let beds = usize::from(beds.count());
        self.proposals
            .iter()
            .take(beds)
            .find_map(|proposal| *proposal)
    }
}

// How many places of a row hold a proposal. It is a function of its own, since only a list known to be short can be summed.
fn count_proposals(row: &[Option<Value>]) -> usize
    requires { length row.now ≤ max_beds }
    ensures { result ≡ count_by is_some row.now }
{
    row.iter()
        .map(|proposal| match proposal {
            Some(_) => 1,
            None => 0,
        })
        .sum()
}

impl Ballots {
    ghost use Rattle.std.specs.Prelude.{◌≡◌, ℕ, ◌<◌, ◌≤◌, Some, Decides, MatchResult, OnErr, ◌≢◌};
    ghost use Rattle.codec.specs.Limits.{max_beds};
    ghost use Rattle.codec.specs.Value.{value_bytes, shown};
    ghost use Rattle.decision.specs.Meaning.{Enough, New};
    ghost use Rattle.decision.specs.Ballots.{tally_at, board_of, Proposes, lowest_below};
    ghost use Rattle.decision.specs.declared.refusal.DecisionRefusal.TheVariants.{Size};

    /// No proposal and no decision, for a group of so many beds.
    pub(crate) fn new(beds: u32) -> Result<Ballots, DecisionRefusal>
        ensures { MatchResult result (λ b. New beds (board_of b)) (λ e. (e ≡ Size) × (1 ≤ beds → beds ≤ max_beds → ⊥)) }
    {
        let beds = Beds::new(beds).ok_or(DecisionRefusal::Size)?;
        let empty = Tally {
            proposals: [None; MAX_BEDS as usize],
            decision: None,
        };
        let rounds = [empty; ALL_DECISIONS];
        // There is room for all proposals, and no more.
        prove_eq!(rounds.len() * empty.proposals.len(), ALL_PROPOSALS);
        Ok(Ballots { beds, rounds })
    }

    pub(crate) fn beds(&self) -> Beds
        ensures { result.count ≡ (board_of self.now).beds }
    {
        self.beds
    }

    // What stands in a round.
    fn tally(&self, round: Round) -> &Tally
        ensures { result.now ≡ tally_at self.now.rounds round.number }
    {
        &self.rounds[round.index()]
    }

    /// The decision of a round, if there is one.
    pub(crate) fn decision(&self, round: Round) -> Option<Value>
        ensures { shown result ≡ (board_of self.now).decision round.number }
    {
        self.tally(round).decision
    }

    /// The proposal of a bed in a round, if it has one.
    pub(crate) fn proposal(&self, bed: u32, round: Round) -> Option<Value>
        requires { bed < (board_of self.now).beds }
        ensures { shown result ≡ (board_of self.now).proposal bed round.number }
    {
        self.tally(round).proposal(bed as usize)
    }

    /// Records a proposal where there is none, and leaves the decisions alone.
    pub(crate) fn propose(
        &mut self,
        bed: u32,
        round: Round,
        bytes: &[u8],
    ) -> Result<PutAnswer, DecisionRefusal>
        ensures proposes { Proposes (board_of self.old) bed round.number bytes.now result (board_of self.new) }
        ensures refused { OnErr result (self.new ≡ self.old) }
    {
        if bed >= u32::from(self.beds.count())
            || bytes.is_empty()
            || bytes.len() > MAX_BATCH_BYTES
        {
            return Err(DecisionRefusal::Limits);
        }
        if self.proposal(bed, round).is_some() {
            return Ok(PutAnswer::Had);
        }
        let value = Value::new(bytes).ok_or(DecisionRefusal::Limits)?;
        self.rounds[round.index()].propose(bed as usize, value);
        Ok(PutAnswer::Taken)
    }

    /// Records the decision of a round, and leaves all else alone.
    pub(crate) fn decide(&mut self, round: Round, value: Value)
        ensures here { (board_of self.new).decision round.number ≡ Some (value_bytes value) }
        ensures others { (k : ℕ) → (k ≢ round.number) → (board_of self.new).decision k ≡ (board_of self.old).decision k }
        ensures beds { (board_of self.new).beds ≡ (board_of self.old).beds }
        ensures proposals { (bed k : ℕ) → (board_of self.new).proposal bed k ≡ (board_of self.old).proposal bed k }
    {
        self.rounds[round.index()].decision = Some(value);
    }

    /// Whether enough beds have a proposal in a round: more than half.
    pub(crate) fn enough(&self, round: Round) -> bool
        ensures { Decides result (Enough (board_of self.now) round.number) }
    {
        2 * self.tally(round).proposers(self.beds) > usize::from(self.beds.count())
    }

    /// The proposal of the lowest bed that has one in a round.
    pub(crate) fn lowest(&self, round: Round) -> Option<Value>
        ensures { shown result ≡ lowest_below (board_of self.now) round.number (board_of self.now).beds }
    {
        self.tally(round).lowest(self.beds)
    }
}
