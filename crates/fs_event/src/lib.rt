//! Events: what a switch tells of itself, and the texts that a connection is sent of it.
#![tactic(auto)]

mod event;
mod laws;
mod place;
mod ring;
mod texts;

pub use event::Event;
pub use laws::{read_back, released_law};
pub use ring::Ring;
pub use texts::{EventText, frame, plain};
