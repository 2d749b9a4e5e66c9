//! Conditions on the time of day and the date, and tasks that wait for their moments.
//!
//! The conditions are those of FreeSWITCH's time of day routing, and the tasks those that `sched_api`, `sched_hangup`
//! and `sched_del` of its module mod_commands add and delete.
#![tactic(auto)]

mod civil;
mod laws;
mod ranges;
mod reading;
mod shown;
mod task;
mod tasks;
mod times;

pub use civil::fields;
pub use laws::{calendar_law, tasks_law};
pub use ranges::Ranges;
pub use shown::{Fields, TimeField};
pub use task::{Task, What};
pub use tasks::Tasks;
pub use times::{Time, Times};
