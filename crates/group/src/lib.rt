// A group of beds that read one queue: what stands in it, what each call is to do, and the law that every run obeys.
#![tactic(auto)]

pub mod bed;
pub mod call;
pub mod law;
pub mod limits;
mod proposal;
pub mod question;
pub mod queue;
mod receipt;
pub mod refusal;
mod row;
pub mod table;
pub mod waiting_set;
