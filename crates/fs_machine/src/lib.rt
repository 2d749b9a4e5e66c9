//! The channel machine: what each entry of the journal does to the switch.
#![tactic(auto)]

mod acts;
mod answer;
mod api;
mod applications;
mod attempts;
mod bridging;
mod call;
mod channels;
mod commands;
mod connections;
mod controlling;
mod dialing;
mod due;
mod dumping;
mod entry;
mod globals;
mod hangups;
mod jobs;
mod joining;
mod journal;
mod laws;
mod leaving;
mod loading;
mod machine;
mod messages;
mod note;
mod offer;
mod originations;
mod owing;
mod questions;
mod queueing;
mod refusal;
mod refused;
mod reloading;
mod replies;
mod reply;
mod routes;
mod routing;
mod shutdown;
mod standing;
mod subscribing;
mod taking_over;
mod terms;
mod texts;
mod touches;
mod turned;
mod work;

pub use answer::Answer;
pub use due::DueActor;
pub use entry::{Act, Closing, Entry};
pub use journal::Journal;
pub use laws::{
    arrivals_are_numbered, bridges_are_counted, bridges_are_told, carries_each_connection,
    concerns_each_connection, ends_are_recorded, events_are_named, hands_out_what_it_gives,
    identifiers_differ, owes_to_its_jobs, partners_agree, runs_are_sound, stays_stopped,
    takers_are_due, winners_can_join,
};
pub use loading::NewPlan;
pub use machine::{Change, Machine};
pub use note::LoadNote;
pub use offer::Offer;
pub use questions::InForce;
pub use refusal::{Refusal, RouteRefusal};
pub use reply::Reply;
pub use routes::{Plan, Snapshot};
pub use standing::Standing;
