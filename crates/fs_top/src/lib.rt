//! The program: it runs the words of the command line over files and a link, or serves whoever connects, and has a
//! status.
#![tactic(auto)]

mod accepting;
mod asked;
mod beside;
mod came;
mod conns;
mod counted;
mod course;
mod desk;
mod dialing;
mod documents;
mod ending;
mod gathering;
mod lanes;
mod laning;
mod lines;
mod muster;
mod outcome;
mod program;
mod rest;
mod serving;
mod slots;
mod turning;

pub use conns::Conn;
pub use program::{Status, run};
pub use serving::{Served, is_serve, serve, serve_with};
