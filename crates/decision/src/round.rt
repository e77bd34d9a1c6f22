// The rounds of a group.
ghost use Rattle.std.specs.Prelude.{◌≡◌, ◌<◌, MatchOption};
ghost use Rattle.decision.specs.Limits.{round_count};

use super::limits::ROUNDS;

/// A round: 0 to 31.
#[derive(Clone, Copy)]
pub(crate) struct Round {
    number: u32,
    ghost below: { number < round_count },
}

impl Round {
    /// The round of this number, if there is one.
    pub(crate) fn new(number: u32) -> Option<Round>
        ensures { MatchOption result (number < round_count → ⊥) (λ r. r.number ≡ number) }
    {
        // No `then`: its closure would have to be told that the number is in its range.
        if number < ROUNDS {
            Some(Round { number })
        } else {
            None
        }
    }

    pub(crate) fn index(self) -> usize
        ensures value { result ≡ self.number }
        ensures within { result < round_count }
    {
        self.number as usize
    }
}
