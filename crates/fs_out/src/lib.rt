//! Outbound connections: where the application `socket` has a controller dialed, and what is told to it.
#![tactic(auto)]

mod dialing;
mod fault;
mod greetings;
mod laws;
mod target;
#[cfg(test)]
mod tests;

pub use dialing::dial;
pub use fault::TargetFault;
pub use greetings::greeting;
pub use laws::read_back;
pub use target::Target;
