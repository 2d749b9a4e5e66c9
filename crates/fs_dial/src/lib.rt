//! Dial strings: `{pairs}[pairs]ENDPOINT,[pairs]ENDPOINT|ENDPOINT`, the legs of an origination with the variables that
//! they are to have.
//!
//! Every reader takes the bytes that are left, and answers what it read with the rest, or the first fault. Nothing is
//! copied but the value of a pair without its quotes and backslashes.
#![tactic(auto)]

mod bracket;
mod dial_string;
mod fault;
mod guard;
mod laws;
mod leg;
mod pair;
mod reading;

pub use dial_string::{DialString, parse};
pub use fault::{DialFault, DialKind};
pub use laws::{each_part_stands, one_dial_string, one_value};
pub use leg::{Group, Groups, Leg};
pub use pair::{RawPair, RawPairs};
