// What the calls that change nothing answer.
use super::bed::Phase;

/// How a bed stands; all zeros if it is off.
// Zeros and no `Option`: an off bed is empty and in no round, and the phase beside them tells it from one that just started.
#[derive(Clone, Copy)]
pub struct State {
    pub phase: Phase,
    pub round: u8,
    /// How many tickets wait.
    pub waiting: u8,
    /// How many tickets are in the queue.
    pub queued: u16,
}

/// Where the ticket of a receipt stands at the bed that took it.
#[derive(Clone, Copy)]
pub enum Standing {
    /// At this place of the queue, counted from 0.
    Queued(u16),
    Waiting,
    Unknown,
}
