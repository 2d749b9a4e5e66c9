//! The desk at which cases are answered, a line of the input each.
#![tactic(auto)]

mod answer;
mod desk;
mod table;
mod taking;
mod words;

pub use answer::{Answer, is_line_end};
pub use desk::{Desk, answer_line};
pub use table::Table;
pub use words::{cut, length_of, number_of, slot_of};
