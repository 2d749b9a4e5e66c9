//! Bridges between channels: those that stand, what a channel does that outlives its bridge, and what a hangup drags
//! along.
#![tactic(auto)]

mod after;
mod bridges;
mod closure;
mod laws;
mod leaving;
mod lines;
mod order;
mod parted;
mod row;

pub use after::{After, after_bridge};
pub use bridges::Bridges;
pub use closure::Closure;
pub use laws::{
    bridges_law, closure_law, endings_law, leavers_law, leaving_law, parting_law, rounds_law,
};
pub use leaving::{LeavingClosure, closure_of_hangup};
pub use lines::Lines;
pub use row::{BridgeKind, Row};
