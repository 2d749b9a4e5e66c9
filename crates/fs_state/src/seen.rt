//! A switch as it is seen at a moment, of which nothing changes.
ghost use Rattle.std.specs.Prelude.{◌≡◌, ◌≤◌, is_some, length};
ghost use Rattle.std.specs.Option.{option_copied};
ghost use Rattle.fs_seats.specs.Seats.{IsEmptyFrom};
ghost use Rattle.fs_state.specs.Switch as spec;

use crate::conn::Conn;
use crate::job::Job;
use crate::switch::Core;
use fs_chan::Chan;
use fs_orig::Orig;
use fs_seats::{Numbered, Table};
use std::marker::Model;

/// A switch that is kept, as it stands at a moment. A contract sees it as that switch.
#[derive(Drop)]
pub struct Seen<'a> {
    core: &'a Core,
    moment: u64,
}

impl<'a> Model for Seen<'a> {
    ghost use Rattle.fs_state.specs.Switch.{Switch};

    ghost Value = { Switch };

    ghost view = { λ s. record s.core.now.switch { moment = s.moment } };
}

impl<'a> Seen<'a> {
    /// A switch as it stands at a moment; one before the last entry's counts as that one.
    pub fn of(core: &'a Core, now: u64) -> Seen<'a>
        ensures { result ≡ spec.at_moment now core.entry.now.switch }
    {
        let moment = core.moment.max(now);
        Seen { core, moment }
    }

    /// The moment, in microseconds.
    pub fn moment(&self) -> u64
        ensures { result ≡ self.now.moment }
    {
        self.moment
    }

    /// Whether the switch comes to its end.
    pub fn is_stopping(&self) -> bool
        ensures { result ≡ is_some self.now.stopping }
    {
        let core = self.core;
        core.stopping.is_some()
    }

    /// The channel in a slot.
    pub fn chan(&self, slot: u16) -> Option<&Chan>
        ensures { option_copied result ≡ spec.chan_at self.now slot }
    {
        let core = self.core;
        core.chan(slot)
    }

    /// How many slots are filled, at most: from this one on there is no channel.
    pub fn filled_slots(&self) -> u16
        ensures within { result ≤ length self.now.channels }
        ensures empty { IsEmptyFrom result self.now.channels }
    {
        let core = self.core;
        core.filled_slots()
    }

    /// The origination of a number.
    pub fn orig(&self, number: u64) -> Option<&Orig>
        ensures { option_copied result ≡ spec.orig_of self.now number }
    {
        let core = self.core;
        core.orig(number)
    }

    /// The job of a number.
    pub fn job(&self, number: u64) -> Option<&Job>
        ensures { option_copied result ≡ spec.job_of self.now number }
    {
        let core = self.core;
        core.job(number)
    }

    /// What stands at a seat for a job; past the last one stands nothing.
    pub fn job_at(&self, seat: usize) -> Option<&Numbered<Job>>
        ensures { option_copied result ≡ spec.job_at self.now seat }
    {
        let core = self.core;
        core.job_at(seat)
    }

    /// How many seats for jobs are filled, at most: from this one on there is no job.
    pub fn filled_jobs(&self) -> usize
        ensures within { result ≤ length self.now.jobs }
        ensures empty { IsEmptyFrom result self.now.jobs }
    {
        let core = self.core;
        core.filled_jobs()
    }

    /// The connection of a number.
    pub fn conn(&self, number: u32) -> Option<&Conn>
        ensures { option_copied result ≡ spec.conn_of self.now number }
    {
        let core = self.core;
        core.conn(number)
    }

    /// How many frames wait for the connection of a number.
    pub fn waiting(&self, number: u32) -> usize
        ensures { result ≡ length (spec.waiting_for self.now number) }
    {
        let core = self.core;
        core.waiting(number)
    }

    /// Whether each seat for a connection is taken.
    pub fn is_full_of_conns(&self) -> bool
        ensures { result ≡ spec.is_full_of_conns self.now }
    {
        let core = self.core;
        core.conns.least_free(0).is_none()
    }

    /// How many connections there may be.
    pub fn conn_seats(&self) -> usize
        ensures { result ≡ length self.now.conns }
    {
        let core = self.core;
        core.conn_seats()
    }
}
