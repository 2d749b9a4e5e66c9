//! One channel: the record of a leg of a call, each single change of it, what it runs next and when, and its headers.
#![tactic(auto)]

mod action;
mod assignment;
mod bridging;
mod chan;
mod changes;
mod controlling;
mod due;
mod exports;
mod headers;
mod left;
mod moment;
mod peer;
mod profile;
mod queueing;
mod shared;
mod target;
mod turn;
mod wait;
mod work;

pub use action::{Action, Actions, ActionsIter};
pub use assignment::Assignment;
pub use chan::Chan;
pub use due::Due;
pub use left::ActionsLeft;
pub use moment::moment_after;
pub use peer::{Direction, Peer};
pub use profile::SharedProfile;
pub use shared::SharedVars;
pub use target::{Target3, any_target_in, target_in};
pub use turn::Turn;
pub use wait::Wait;
pub use work::due_law;
