//! How many events and hangups there were.
ghost use Rattle.std.specs.Prelude.{◌≡◌, ◌≤◌, IfOk};
ghost use Rattle.fs_state.specs.Counts as spec;
ghost use Rattle.fs_text.specs.EventName.{event_number};
ghost use Rattle.fs_text.specs.Cause.{cause_number};

use crate::event::Event;
use fs_text::{Cause, EventName, Memory};
use std::alloc::Global;
use std::marker::Model;

/// How many events there were of each name, and channels that were hung up with each cause, by their numbers.
#[derive(Drop)]
pub struct Counts {
    all: u64,
    events: Vec<u64>,
    hangups: Vec<u64>,
}

impl Model for Counts {
    ghost use Rattle.std.specs.Prelude.{◌≡◌};
    ghost use Rattle.fs_state.specs.Counts.{Tallies};

    ghost Value = { Tallies };

    ghost view = { λ c. record { all = c.all; events = c.events.items; hangups = c.hangups.items } };
}

/// One more than the greatest number of an event name, and of a cause.
const EVENTS: usize = 16;

const CAUSES: usize = 606;

impl Counts {
    /// Nothing was counted.
    pub fn new(alloc: Global) -> Result<Counts, Memory>
        ensures { IfOk result (λ counts. counts ≡ spec.no_tallies) }
    {
        Ok(Counts {
            all: 0,
            events: zeros(alloc, EVENTS)?,
            hangups: zeros(alloc, CAUSES)?,
        })
    }

    /// How many events there were; at 2^64 - 1 the count stands still.
    pub fn all(&self) -> u64
        ensures { result ≡ self.now.all }
    {
        self.all
    }

    /// How many events of a name there were; at 2^64 - 1 the count stands still.
    pub fn events(&self, name: EventName) -> u64
        ensures { result ≡ spec.counted_at self.now.events (event_number name) }
    {
        counted_at(&self.events, name.number())
    }

    /// How many channels were hung up with a cause; at 2^64 - 1 the count stands still.
    pub fn hangups(&self, cause: Cause) -> u64
        ensures { result ≡ spec.counted_at self.now.hangups (cause_number cause) }
    {
        counted_at(&self.hangups, cause.number())
    }

    /// One more event.
    pub fn count(&mut self, event: &Event)
        ensures counted { self.new ≡ spec.with_event_counted event.now self.old }
        ensures more { self.old.all ≤ self.new.all }
    {
        self.all = self.all.saturating_add(1);
        count_at(&mut self.events, event.name.number());
        if let Some(cause) = event.detail.hangup() {
            count_at(&mut self.hangups, cause.number());
        }
    }

    /// So many events more.
    pub fn count_all(&mut self, events: &[Event])
        ensures counted { self.new ≡ spec.with_events_counted events.now self.old }
        ensures more { self.old.all ≤ self.new.all }
    {
        for event in events {
            self.count(event);
        }
    }
}

/// So many zeros.
#[tactic(auto, unfolding(crate::specs::Counts::zeros))]
fn zeros(alloc: Global, count: usize) -> Result<Vec<u64>, Memory>
    ensures { IfOk result (λ zeros. zeros.items ≡ spec.zeros count) }
{
    let mut zeros = Vec::new(alloc);
    for _seat in 0..count {
        zeros.push(0)?;
    }
    Ok(zeros)
}

/// The count at a number.
fn counted_at(counts: &[u64], number: u16) -> u64
    ensures { result ≡ spec.counted_at counts.now number }
{
    match counts.get(usize::from(number)) {
        Some(count) => *count,
        None => 0,
    }
}

/// Raises the count at a number.
fn count_at(counts: &mut Vec<u64>, number: u16)
    ensures { counts.new.items ≡ spec.raised_at number counts.old.items }
{
    if let Some(count) = counts.get_mut(usize::from(number)) {
        *count = count.saturating_add(1);
    }
}
