//! Dialplans, and which actions a call gets from them.
//!
//! A dialplan is built once: each pattern of a configuration is compiled in order, or the first one that is refused is
//! named. A hunt goes through the extensions of a context and gives the actions of those that are taken.
#![tactic(auto)]

mod build;
mod conditions;
mod extensions;
mod fault;
mod fields;
mod groups;
mod hunt;
mod inline;
mod pattern;
mod plan;
mod tested;

pub use fault::PlanFault;
pub use hunt::Hunt;
pub use pattern::Pattern;
pub use plan::Dialplan;
