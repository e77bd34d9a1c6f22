// The decision service: what makes beds agree on one batch a round.
#![tactic(auto)]

mod ballots;
pub mod first_comer;
pub mod laws;
pub mod limits;
pub mod majority;
pub mod refusal;
mod round;
pub mod service;
