//! Which bytes spell which document, told apart from the reading, and the laws that join the two.
#![tactic(auto)]

mod document;
mod markup;

pub use document::{one_document, one_element, one_fault, within_limits, wrong_element};
pub use markup::{one_attribute, one_markup, one_value, wrong_markup};
