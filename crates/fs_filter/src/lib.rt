//! What a connection asked to be told: the events that it subscribed, and its filters over their headers.
#![tactic(auto)]

mod asked;
mod chunks;
mod filters;
mod key;
mod laws;
mod shared;
mod sieve;
mod subclasses;
mod subs;

pub use laws::subscriptions_are_sets;
pub use shared::SharedSubs;
pub use sieve::Sieve;
pub use subs::Subs;
