//! A state under a ticket lock, whose journal says in which order its callers came.
#![tactic(auto)]

mod book;
mod calls;
mod meeting;
mod pass;
mod rule;
mod start;
mod tenure;
#[cfg(test)]
mod tests;
mod turned;
mod view;

pub use book::Book;
pub use pass::Pass;
pub use turned::{Ask, Receipt, Turned};
