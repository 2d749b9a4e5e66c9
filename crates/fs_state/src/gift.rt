//! What an entry gives to connections.
ghost use Rattle.std.specs.Prelude.{◌≡◌, ◌-◌, ◌^◌, min, true, [], ◌∷◌, ◌++◌, OnOk, OnErr};
ghost use Rattle.fs_state.specs.Outboxes.{frames_given};
ghost use Rattle.fs_state.specs.Switch.{gift_of};
ghost use Rattle.fs_state.specs.Waiting as spec;

use crate::outbox::{Outbox, Waiting};
use fs_text::{Memory, Txt};
use std::alloc::Global;
use std::marker::Model;

/// What an entry gives to a connection.
#[derive(Drop)]
pub struct Given {
    /// The number of the connection.
    pub conn: u64,
    /// What is to wait for it, in order.
    pub waiting: Outbox,
}

impl Given {
    /// Takes out what is to wait.
    pub(crate) fn take_waiting(&mut self) -> Outbox
        ensures { result ≡ self.old.waiting }
    {
        self.waiting.take_all()
    }
}

/// The frames that an entry gives beside its events, in order. A contract sees them by their connections.
#[derive(Drop)]
pub struct Gifts {
    pub(crate) gifts: Vec<Given>,
}

impl Model for Gifts {
    ghost use Rattle.std.specs.Prelude.{[], List};
    ghost use Rattle.fs_state.specs.Frames.{Gift};

    ghost Value = { List Gift };

    ghost use Rattle.fs_state.specs.Waiting.{gifts_in, AreReplies};

    ghost view = { λ g. gifts_in [] g.gifts.items };

    ghost invariant = { λ g. AreReplies g.gifts.items };
}

impl Gifts {
    /// Nothing.
    pub fn new(alloc: Global) -> Gifts
        ensures { result ≡ [] }
    {
        Gifts {
            gifts: Vec::new(alloc),
        }
    }

    /// A frame that is no event is given to a connection, too.
    pub fn push(&mut self, conn: u32, text: Txt) -> Result<(), Memory>
        ensures ok { OnOk result (self.new ≡ self.old ++ gift_of conn text ∷ []) }
        ensures err { OnErr result (self.new ≡ self.old) }
    {
        self.push_to(u64::from(conn), text)
    }

    /// The same, to the connection of a number.
    pub(crate) fn push_to(&mut self, conn: u64, text: Txt) -> Result<(), Memory>
        ensures ok { OnOk result (self.new ≡ self.old ++ gift_of conn text ∷ []) }
        ensures err { OnErr result (self.new ≡ self.old) }
    {
        let mut waiting = Outbox::new(*self.gifts.allocator());
        waiting.push(Waiting::Reply(text))?;
        self.gifts.push(Given { conn, waiting })?;
        Ok(())
    }

    /// Whether there is nothing.
    pub(crate) fn is_empty(&self) -> bool
        ensures { result ≡ true → self.now ≡ [] }
    {
        self.gifts.is_empty()
    }

    /// How many frames are given, as far as 64 bits go.
    pub fn frames(&self) -> usize
        ensures { result ≡ min (frames_given self.now) (2 ^ 64 - 1) }
    {
        frames_of(&self.gifts)
    }
}

/// How many frames are given, as far as 64 bits go.
pub(crate) fn frames_of(all: &[Given]) -> usize
    ensures { result ≡ min (spec.waiting_given all.now) (2 ^ 64 - 1) }
{
    let mut count: usize = 0;
    for given in all {
        count = count.saturating_add(given.waiting.len());
    }
    count
}
