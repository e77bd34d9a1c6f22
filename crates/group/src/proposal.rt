// What a bed proposes for its round, and the round that it collects for.
use codec::value::Value;

/// The round that a bed's call is about, and where its record stands.
// That the place is within the group stands in clauses: only the table that gave the place knows its size.
#[derive(Clone, Copy)]
pub(crate) struct Turn {
    pub(crate) index: usize,
    pub(crate) round: u32,
}

/// The batch that a bed is to keep and to put for its round.
#[derive(Clone, Copy)]
pub(crate) struct Proposal {
    pub(crate) turn: Turn,
    pub(crate) batch: Value,
}

/// Whether a start has passed a round, or has come to its end.
// Two names and no bool, since `true` would not show which.
#[derive(Clone, Copy)]
pub(crate) enum Replayed {
    Round,
    End,
}
