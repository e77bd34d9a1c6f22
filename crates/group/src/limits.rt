// The limits of a group. specs/Limits.antt has the same numbers for the contracts.
use codec::limits::PACKET_TICKETS;

/// The most tickets that wait with a bed: one packet tells of them all.
pub const SET_TICKETS: usize = PACKET_TICKETS;
/// The most tickets of a queue: eight in each of 32 rounds.
pub const QUEUE_TICKETS: usize = 256;
