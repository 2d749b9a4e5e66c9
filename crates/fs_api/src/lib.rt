//! The api commands of the event socket, as their texts are read.
#![tactic(auto)]

mod api;
mod originate;
mod reading;
mod side;
mod transfers;
mod usages;
mod words;

pub use api::Api;
pub use reading::echoed;
pub use side::Side;
pub use usages::{Which, usage};
