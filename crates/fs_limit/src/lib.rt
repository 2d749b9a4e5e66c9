//! Limits: which channels hold which keys, and whether one more may hold one.
//!
//! They are those of the application `limit` and the api command `limit_usage`, as FreeSWITCH's module mod_hash counts.
#![tactic(auto)]

mod hold;
mod laws;
mod limits;

pub use laws::limits_law;
pub use limits::Limits;
