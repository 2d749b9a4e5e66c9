//! What an entry posts of its events, once it is known who takes them.
ghost use Rattle.std.specs.Prelude.{◌≡◌, ◌-◌, ◌^◌, min, true, length};
ghost use Rattle.fs_state.specs.Posted as spec;
ghost use Rattle.fs_state.specs.Waiting.{waiting_given, no_posts, AreCounted, AreNumbered};

use crate::gift::{Given, frames_of};
use crate::post::Post;
use std::alloc::Global;
use std::marker::Model;
use std::mem;

/// What an entry posts: its events with their numbers, each with how many are to read it, and for each connection that
/// is posted any the numbers of those. A contract sees both.
#[derive(Drop)]
pub struct Posts {
    pub(crate) events: Vec<Post>,
    pub(crate) lists: Vec<Given>,
}

impl Model for Posts {
    ghost use Rattle.fs_state.specs.Waiting.{Posted, AreCounted};

    ghost Value = { Posted };

    ghost use Rattle.fs_state.specs.Posted.{events_of};

    ghost view = { λ p. record { events = events_of p.events.items; lists = p.lists.items } };

    ghost invariant = { λ p. AreCounted (events_of p.events.items) p.lists.items };
}

impl Posts {
    /// Nothing is posted.
    pub(crate) fn none(alloc: Global) -> Posts
        ensures { result ≡ no_posts }
    {
        Posts {
            events: Vec::new(alloc),
            lists: Vec::new(alloc),
        }
    }

    /// These events, and for each connection the numbers of its own.
    pub(crate) fn of(events: Vec<Post>, lists: Vec<Given>) -> Posts
        requires { AreCounted (spec.events_of events.items) lists.items }
        ensures { result ≡ record { events = spec.events_of events.items; lists = lists.items } }
    {
        Posts { events, lists }
    }

    /// How many events there are.
    pub fn count(&self) -> usize
        ensures { result ≡ length self.now.events }
    {
        self.events.len()
    }

    /// Whether nothing is posted.
    pub(crate) fn is_empty(&self) -> bool
        ensures { result ≡ true → self.now ≡ no_posts }
    {
        self.events.is_empty() && self.lists.is_empty()
    }

    /// How many frames are given, as far as 64 bits go.
    pub fn frames(&self) -> usize
        ensures { result ≡ min (waiting_given self.now.lists) (2 ^ 64 - 1) }
    {
        frames_of(&self.lists)
    }

    /// Whether their numbers follow upon so many, as far as so many more events go.
    pub(crate) fn are_behind(&self, before: u64, more: usize) -> bool
        ensures { result ≡ true → AreNumbered before more self.now.events }
    {
        let last = before.saturating_add(more as u64);
        match (self.events.first(), self.events.last()) {
            (Some(lowest), Some(highest)) => before < lowest.number && highest.number <= last,
            _ => true,
        }
    }

    /// Takes all out.
    pub(crate) fn take(&mut self) -> Posts
        ensures result { result ≡ self.old }
        ensures none { self.new ≡ no_posts }
    {
        let none = Posts::none(*self.lists.allocator());
        mem::replace(self, none)
    }
}
