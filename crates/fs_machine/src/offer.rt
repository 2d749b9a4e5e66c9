//! What is submitted to a switch.

use crate::entry::Entry;
use crate::loading::NewPlan;
use crate::routes::Plan;

/// What is submitted to a switch: an entry, the work of a slot whose route was planned beside it, or a load that was
/// read and built beside it.
#[derive(Drop)]
pub enum Offer {
    /// An entry that notes no load.
    Entry(Entry),
    /// The channel in a slot does what it has to do by itself, at a moment in microseconds, by this plan.
    Route {
        moment: u64,
        slot: u16,
        plan: Plan,
    },
    /// A load is noted for the job of a number, at a moment in microseconds.
    Load {
        moment: u64,
        job: u64,
        load: NewPlan,
    },
}
