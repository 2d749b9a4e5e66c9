//! The play of one connection over the channel machine, and its conversation beside others over a book.
#![tactic(auto)]

mod closing;
mod connection;
mod conversation;
mod conversing;
mod end;
mod ending;
mod entering;
mod file;
mod handing;
mod laws;
mod owner;
mod playing;
mod round;
mod rounds;
mod sending;
mod settling;
mod standing;
mod stop;
mod unsent;
mod welcoming;
mod wire;
mod working;

pub use connection::play;
pub use conversing::converse;
pub use end::End;
pub use laws::{
    closes_at_its_end, ends_as_it_parted, ends_for_a_cause, enters_commands_once,
    hands_out_its_frames, plays_a_run, refuses_only_when_full,
};
pub use welcoming::welcome;
