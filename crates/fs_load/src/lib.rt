//! The commands of a load, over a link that makes them as they are read.
#![tactic(auto)]

mod call_link;
mod commands;
mod document;
mod texts;

pub use call_link::CallLink;
pub use document::load_document;
