//! What the applications of a dialplan are asked to do, as their names and arguments are read.
#![tactic(auto)]

mod application;
mod reading;

pub use application::Application;
