//! Command blocks out of the pieces of a byte stream.
//!
//! A client of FreeSWITCH's event socket sends each command as a block of lines that ends with an empty line, behind
//! which stands a body where a header line declares one. What is read from its connection goes into a [`Blocks`], in
//! whatever pieces it comes, and the blocks come out one by one, as slices of that buffer.
#![tactic(auto)]

mod block;
mod blocks;
mod fault;
mod front;
mod header;
mod laws;
mod length;
mod next;
mod scan;
mod span;

pub use block::Block;
pub use blocks::Blocks;
pub use fault::Fault;
pub use header::BlockHeaders;
pub use laws::{faults_stay, however_cut, one_reading};
pub use next::Next;
