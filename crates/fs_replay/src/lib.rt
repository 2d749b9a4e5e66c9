//! The text of a journal: how it is written, and how it is read back.
#![tactic(auto)]

mod acts;
mod fault;
mod laws;
mod loads;
mod reader;
mod reading;
#[cfg(test)]
mod tests;
mod writing;

pub use fault::JournalFault;
pub use laws::journal_law;
pub use reading::read_journal;
pub use writing::write_journal;
