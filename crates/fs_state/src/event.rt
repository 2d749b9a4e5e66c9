//! What happens in an entry.
ghost use Rattle.std.specs.Prelude.{◌≡◌, [], ◌∷◌, ◌++◌, OnOk, OnErr};

use crate::job::Background;
use fs_bridge::Row;
use fs_chan::Action;
use fs_text::{Cause, EventName, Memory, Txt};
use std::alloc::Global;
use std::marker::Model;

/// Something that happened in an entry, told in short: what the entry leaves says the rest.
pub struct Event {
    /// Which event it is.
    pub name: EventName,
    /// The slot of the channel that it tells of, if it tells of one, which is the caller's where it tells of a bridge.
    pub subject: Option<u16>,
    /// What it tells beside the channel.
    pub detail: Detail,
}

impl Drop for Event {
    fn drop(self) {
        let Event {
            name: _name,
            subject: _subject,
            detail: _detail,
        } = self;
    }
}

/// What an event tells beside its channel.
#[derive(Drop)]
pub enum Detail {
    /// Nothing.
    Plain,
    /// The application that begins or is over.
    Application(Action),
    /// The bridge that begins.
    Bridge(Row),
    /// The bridge that has ended, and of what.
    Unbridge(Row, Cause),
    /// Why the channel is hung up.
    Hangup(Cause),
    /// How the call was: why the channel was hung up, and its variables.
    Report,
    /// The job in the background that has ended, and its answer.
    Job(Background, Txt),
    /// That the switch comes to its end.
    Shutdown,
    /// What happened to the channel in the queue of this name.
    Queue(Txt, QueueAction),
}

/// What happens to a caller in a queue.
#[derive(Clone, Copy, Debug, PartialEq, Eq)]
pub enum QueueAction {
    /// It comes to wait there.
    Push,
    /// It is taken.
    CallerPop,
    /// It leaves before it is taken.
    Abort,
}

impl QueueAction {
    ghost use Rattle.fs_state.specs.Posting.{action_name};

    /// Its name, as mod_fifo tells it.
    #[tactic(auto, unfolding(crate::specs::Posting::action_name))]
    pub fn name(self) -> &'static [u8]
        ensures { result.now ≡ action_name self }
    {
        match self {
            QueueAction::Push => b"push",
            QueueAction::CallerPop => b"caller_pop",
            QueueAction::Abort => b"abort",
        }
    }
}

impl Detail {
    ghost use Rattle.std.specs.Prelude.{Option};
    ghost use Rattle.fs_state.specs.Counts.{hangup_in};
    ghost use Rattle.fs_state.specs.Posting.{body_in, subclass_in};

    /// Its subclass, which only a `CUSTOM` event has: that of queues, or nothing.
    #[tactic(auto, unfolding(crate::specs::Posting::fifo_subclass))]
    pub fn subclass(&self) -> &'static [u8]
        ensures { result.now ≡ subclass_in self.now }
    {
        match self {
            Detail::Queue(..) => b"fifo::info",
            _ => &[],
        }
    }

    /// The text that stands behind the headers: the answer of a job, or nothing.
    pub fn body(&self) -> &[u8]
        ensures { result.now ≡ body_in self.now }
    {
        match self {
            Detail::Job(_, answer) => answer.as_bytes(),
            _ => &[],
        }
    }

    /// Why a channel was hung up, where that is told.
    pub fn hangup(&self) -> Option<Cause>
        ensures { result ≡ hangup_in self.now }
    {
        match self {
            Detail::Hangup(cause) => Some(*cause),
            _ => None,
        }
    }
}

/// The events of an entry, in order. A contract sees them as that list.
#[derive(Drop)]
pub struct Events {
    events: Vec<Event>,
}

impl Model for Events {
    ghost use Rattle.std.specs.Prelude.{List};
    ghost use Rattle.fs_state.specs.declared.event.Event.{Event};

    ghost Value = { List Event };

    ghost view = { λ e. e.events.items };
}

impl Events {
    /// No events.
    pub fn new(alloc: Global) -> Events
        ensures { result ≡ [] }
    {
        Events {
            events: Vec::new(alloc),
        }
    }

    /// One more happened.
    pub fn push(&mut self, event: Event) -> Result<(), Memory>
        ensures ok { OnOk result (self.new ≡ self.old ++ event ∷ []) }
        ensures err { OnErr result (self.new ≡ self.old) }
    {
        self.events.push(event)?;
        Ok(())
    }

    /// None are left.
    pub(crate) fn clear(&mut self)
        ensures { self.new ≡ [] }
    {
        self.events.clear();
    }

    /// The events, in order.
    pub fn as_slice(&self) -> &[Event]
        ensures { result.now ≡ self.now }
    {
        self.events.as_slice()
    }
}
