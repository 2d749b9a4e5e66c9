//! The state of a switch, each single change of it, and drafts of changes.
//!
//! A draft borrows the state and says what is to change; it is read as the state would be. What it comes to is moved
//! into the state without memory.
#![tactic(auto)]

mod answers;
mod blank;
mod bridging;
mod conn;
mod counts;
mod delta;
mod draft;
mod drawn;
mod ending;
mod event;
mod gift;
mod groups;
mod hangups;
mod job;
mod leaving;
mod lines;
mod losses;
mod mail;
mod moves;
mod moving;
mod outbox;
mod outboxes;
mod post;
mod posting;
mod posts;
mod queues;
mod seen;
mod switch;
mod telling;

pub use blank::Blank;
pub use conn::{Conn, Control, Parting, Phase};
pub use counts::Counts;
pub use delta::{Delta, OutboxChange};
pub use draft::Draft;
pub use drawn::Drawn;
pub use event::{Detail, Event, Events, QueueAction};
pub use gift::{Gifts, Given};
pub use job::{Asker, Background, Job, JobWork};
pub use losses::{Loss, Losses};
pub use moving::Moving;
pub use outbox::{Outbox, Waiting};
pub use outboxes::Outboxes;
pub use posts::Posts;
pub use queues::queues_law;
pub use seen::Seen;
pub use switch::Core;
