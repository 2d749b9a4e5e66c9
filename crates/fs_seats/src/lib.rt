//! Tables of fixed seats, and what is drafted over them.
//!
//! A table has as many seats as it was made with, and each is empty or holds one thing. A draft over a table is a
//! sheet of writes: it is read as the table would be with them, and moved into the table without memory.
#![tactic(auto)]

mod boxed;
mod numbered;
mod overlay;
mod rows;
mod seats;
mod sheet;
mod table;

pub use boxed::Boxed;
pub use numbered::{Numbered, Rows};
pub use overlay::Overlay;
pub use seats::Seats;
pub use sheet::{Sheet, Write};
pub use table::Table;
