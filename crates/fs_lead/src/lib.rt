//! What is known of the values in which a pattern finds something.
//!
//! Most patterns of a dialplan begin with `^` and characters that stand for themselves, and find nothing in a value
//! that begins otherwise. The lead of a pattern is worked out of its text once, and spares a search in each value that
//! it tells of.
#![tactic(auto)]

mod lead;
mod shared;
mod tree;

pub use lead::Lead;
