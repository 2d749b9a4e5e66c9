//! One turn of a session: the channel in a slot, or the least due job, does the one thing that it has to do, or a
//! controller is dialed for the channel, or a dialplan is loaded anew for a job.
#![tactic(auto)]

mod actor;
mod awaiting;
mod loading;
mod standing;
mod talked;
mod talking;
mod worked;
mod working;

pub use actor::Actor;
pub use loading::load_once;
pub use talked::Talked;
pub use talking::talk_once;
pub use worked::Worked;
pub use working::work_once;
