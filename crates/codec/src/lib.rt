// Bytes to tickets and back: numbers, tickets, batches and packets, read and written.
#![tactic(auto)]

pub mod batch;
pub mod beds;
pub mod fixed_vec;
pub mod laws;
pub mod limits;
pub mod number;
pub mod packet;
pub mod reader;
pub mod refusal;
pub mod report;
pub mod ticket;
pub mod ticket_list;
pub mod tickets;
pub mod value;
pub mod whole;
mod write;
