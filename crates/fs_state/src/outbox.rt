//! What waits for a connection.
ghost use Rattle.std.specs.Prelude.{◌≡◌, ◌+◌, ◌<◌, ◌^◌, [], ◌∷◌, ◌++◌, length, drop, slice_get, OnOk, OnErr};
ghost use Rattle.std.specs.Option.{option_copied};
ghost use Rattle.fs_state.specs.Waiting as spec;

use fs_text::{Memory, Txt};
use std::alloc::Global;
use std::collections::LinkedList;
use std::marker::Model;
use std::mem;

/// What waits for a connection: a frame, or the event of which one tells.
#[derive(Drop)]
pub enum Waiting {
    /// A reply, a notice, or another frame that is never lost.
    Reply(Txt),
    /// The number of an event, which is lost where too many wait.
    Event(u64),
}

impl Waiting {
    /// Whether it is an event.
    pub fn is_event(&self) -> bool
        ensures { result ≡ spec.is_number self.now }
    {
        match self {
            Waiting::Reply(_) => false,
            Waiting::Event(_) => true,
        }
    }
}

/// What waits for a connection, in order. It is known how many events are among that. A contract sees the list.
#[derive(Drop)]
pub struct Outbox {
    waiting: LinkedList<Waiting>,
    events: usize,
}

impl Model for Outbox {
    ghost use Rattle.std.specs.Prelude.{◌≡◌, List};
    ghost use Rattle.fs_state.specs.declared.outbox.Waiting.{Waiting};

    ghost Value = { List Waiting };

    ghost use Rattle.fs_state.specs.Waiting.{numbers_in};

    ghost view = { λ b. b.waiting };

    ghost invariant = { λ b. b.events ≡ numbers_in b.waiting };
}

impl Outbox {
    /// Nothing waits.
    pub fn new(alloc: Global) -> Outbox
        ensures { result ≡ [] }
    {
        Outbox {
            waiting: LinkedList::new(alloc),
            events: 0,
        }
    }

    /// How much waits.
    pub fn len(&self) -> usize
        ensures { result ≡ length self.now }
    {
        self.waiting.len()
    }

    /// How many events are among that.
    pub fn events(&self) -> usize
        ensures { result ≡ spec.numbers_in self.now }
    {
        self.events
    }

    /// What waits first.
    pub fn first(&self) -> Option<&Waiting>
        ensures { option_copied result ≡ slice_get self.now 0 }
    {
        self.waiting.front()
    }

    /// Puts something behind all else.
    pub fn push(&mut self, waiting: Waiting) -> Result<(), Memory>
        ensures ok { OnOk result (self.new ≡ self.old ++ waiting ∷ []) }
        ensures err { OnErr result (self.new ≡ self.old) }
    {
        // Fewer than 2^63 wait, so the count of the events among them fits.
        let _len = self.waiting.len();
        let is_event = waiting.is_event();
        self.waiting.push_back(waiting)?;
        self.events += usize::from(is_event);
        Ok(())
    }

    /// Takes out what waits first, if there is anything.
    pub fn take_first(&mut self) -> Option<Waiting>
        ensures first { result ≡ slice_get self.old 0 }
        ensures left { self.new ≡ drop 1 self.old }
    {
        let first = self.waiting.pop_front()?;
        self.events -= usize::from(first.is_event());
        Some(first)
    }

    /// Takes all out, to be put elsewhere.
    pub fn take_all(&mut self) -> Outbox
        ensures result { result ≡ self.old }
        ensures none { self.new ≡ [] }
    {
        let none = Outbox::new(*self.waiting.allocator());
        mem::replace(self, none)
    }

    /// Puts what waits elsewhere behind all this, without memory.
    pub fn append(&mut self, others: Outbox)
        requires { length self.old + length others < 2 ^ 63 }
        ensures { self.new ≡ self.old ++ others }
    {
        let Outbox { waiting, events } = others;
        let mut waiting = waiting;
        self.waiting.append(&mut waiting).unwrap();
        self.events += events;
    }
}
