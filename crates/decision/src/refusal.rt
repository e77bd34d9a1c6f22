// Why a decision service refuses.
ghost use Rattle.std.specs.Prelude.{◌≡◌};
ghost use Rattle.decision.specs.Refusal.{refusal_number};

/// Why a decision service refuses. The numbers are those of the documents.
#[derive(Clone, Copy)]
pub enum DecisionRefusal {
    /// A service for other than 1 to 8 beds.
    Size = 1,
    /// There is no decision in this round.
    Undecided = 14,
    /// No such bed or round, or a length outside 1 to 65.
    Limits = 17,
}

impl DecisionRefusal {
    pub fn number(self) -> u8
        ensures { result ≡ refusal_number self }
    {
        self as u8
    }
}
