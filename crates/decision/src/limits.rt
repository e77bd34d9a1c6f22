// The limits of a decision service. specs/Limits.antt has the same numbers for the contracts.

/// The rounds of a group.
pub const ROUNDS: u32 = 32;
/// The most decisions: one for each round.
pub const ALL_DECISIONS: usize = 32;
/// The most proposals: one for each bed and round.
pub const ALL_PROPOSALS: usize = 256;
