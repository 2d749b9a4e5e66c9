//! What an entry changes.
use crate::conn::Conn;
use crate::drawn::Drawn;
use crate::event::Events;
use crate::gift::Gifts;
use crate::job::Job;
use crate::losses::Losses;
use crate::posts::Posts;
use fs_bridge::Bridges;
use fs_chan::Chan;
use fs_doc::Config;
use fs_event::EventText;
use fs_orig::Orig;
use fs_seats::{Boxed, Numbered, Sheet};
use fs_vars::Vars;
use std::sync::Arc;

/// What an entry does to the frames that wait.
#[derive(Clone, Copy, Debug, PartialEq, Eq)]
pub enum OutboxChange {
    /// They stay as they are.
    Unchanged,
    /// The first frame of the connection at this seat is taken.
    Taken { seat: usize },
    /// All frames of the connection at this seat are dropped.
    Cleared { seat: usize },
}

/// What an entry changes. A contract sees its fields.
pub struct Delta {
    /// The configuration whose contexts come into force, if one does.
    pub in_force: Option<Arc<Config>>,
    /// How often contexts came into force.
    pub reloads: u64,
    /// The globals, where they change.
    pub globals: Option<Boxed<Vars>>,
    /// The channels that change, by their slots.
    pub channels: Sheet<Boxed<Chan>>,
    /// The bridges, where they change.
    pub bridges: Option<Bridges>,
    /// The originations that change, by their seats.
    pub origs: Sheet<Numbered<Orig>>,
    /// The jobs that change, by their seats.
    pub jobs: Sheet<Numbered<Job>>,
    /// The connections that change, by their seats.
    pub conns: Sheet<Numbered<Conn>>,
    /// What becomes of the frames that wait.
    pub outbox: OutboxChange,
    /// The last numbers that were drawn.
    pub drawn: Drawn,
    /// The moment of the entry, in microseconds.
    pub moment: u64,
    /// The place of the entry by which the switch came to its end, once one did.
    pub stopping: Option<u64>,
    /// What connections have lost, where that changes.
    pub losses: Option<Losses>,
    /// What happens in it.
    pub news: Events,
    /// The reply to its command, or what is sent first to a connection that comes.
    pub replies: Gifts,
    /// What it posts of its events.
    pub posted: Posts,
    /// Replies that were owed.
    pub late: Gifts,
    /// Notices to connections that are ending.
    pub notices: Gifts,
    /// No change: where the texts of events are formed, kept for its room.
    pub text: EventText,
}

impl Delta {
    ghost use Rattle.std.specs.Prelude.{◌≡◌, ◌-◌, ◌^◌, min, true};
    ghost use Rattle.fs_state.specs.Outboxes.{all_of, frames_given, GivesNothing};

    /// How many frames are given, as far as 64 bits go.
    pub(crate) fn frames_given(&self) -> usize
        ensures { result ≡ min (frames_given (all_of self.now)) (2 ^ 64 - 1) }
    {
        let behind = self.late.frames().saturating_add(self.notices.frames());
        let posted = self.posted.frames().saturating_add(behind);
        self.replies.frames().saturating_add(posted)
    }

    /// Whether nothing is given.
    pub(crate) fn gives_nothing(&self) -> bool
        ensures { result ≡ true → GivesNothing self.now }
    {
        self.replies.is_empty()
            && self.posted.is_empty()
            && self.late.is_empty()
            && self.notices.is_empty()
    }
}

impl Drop for Delta {
    fn drop(self) {
        let Delta {
            in_force: _in_force,
            reloads: _reloads,
            globals: _globals,
            channels: _channels,
            bridges: _bridges,
            origs: _origs,
            jobs: _jobs,
            conns: _conns,
            outbox: _outbox,
            drawn: _drawn,
            moment: _moment,
            stopping: _stopping,
            losses: _losses,
            news: _news,
            replies: _replies,
            posted: _posted,
            late: _late,
            notices: _notices,
            text: _text,
        } = self;
    }
}
