// What a bed keeps over a power failure: for each bed and slot, nothing or 1 to 65 bytes.
#![tactic(auto)]

pub mod chip;
mod keep;
pub mod limits;
pub mod memory;
mod place;
pub mod refusal;
pub mod table;
