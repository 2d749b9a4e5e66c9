//! The tests of the book, with the states that they take turns at.

mod notes;
mod tally;
mod threads;
