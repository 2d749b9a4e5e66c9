//! Queues of callers: who waits in which, and who is taken next.
#![tactic(auto)]

mod caller;
mod fifos;
mod laws;

pub use fifos::Fifos;
pub use laws::{queues_law, standing_law};
