//! The state of a switch between two entries.
ghost use Rattle.std.specs.Arc.{arc_value};
ghost use Rattle.std.specs.Prelude.{◌≡◌, ◌≤◌, ◌+◌, ◌-◌, ◌^◌, min, false, length, IfOk, OnOk, OnErr, unwrap_or};
ghost use Rattle.std.specs.Option.{option_copied};
ghost use Rattle.fs_text.specs.CoreId as core_id;
ghost use Rattle.fs_seats.specs.Seats.{no_seats, IsEmptyFrom};
ghost use Rattle.fs_event.specs.Rings.{no_events};
ghost use Rattle.fs_state.specs.Outboxes.{nothing_waits};
ghost use Rattle.fs_state.specs.Switch as spec;
ghost use Rattle.fs_state.specs.Drafts.{after, rest_of, Fits, events_posted};
ghost use Rattle.fs_state.specs.Waiting.{gifts_of_posts, AreHeld, AreNoMore};

use crate::blank::Blank;
use crate::conn::Conn;
use crate::counts::Counts;
use crate::delta::{Delta, OutboxChange};
use crate::drawn::Drawn;
use crate::job::Job;
use crate::losses::Losses;
use crate::outboxes::Outboxes;
use fs_bridge::Bridges;
use fs_chan::Chan;
use fs_doc::{Config, Settings};
use fs_event::Ring;
use fs_orig::Orig;
use fs_seats::{Boxed, Numbered, Overlay, Rows, Seats, Table};
use fs_text::{Memory, Txt};
use fs_vars::Vars;
use std::alloc::Global;
use std::marker::Model;
use std::sync::Arc;

/// How many originations there may be: one for each job and each slot.
const ORIGS: usize = 1_280;
/// How many jobs there may be.
const JOBS: usize = 1_024;
/// What the largest entry costs but that of a load.
const LARGEST_COST: u64 = 65_600;
/// What the largest entry of a load costs.
const LARGEST_LOAD: u64 = 1_048_641;

/// The state of a switch between two entries. A contract sees it as the record of what is there, and beside that the
/// ring of the events that wait for connections.
pub struct Core {
    pub(crate) alloc: Global,
    // What it started from: its settings never change.
    pub(crate) config: Arc<Config>,
    // What has the contexts in force, and how often others came into force.
    pub(crate) in_force: Arc<Config>,
    pub(crate) reloads: u64,
    // The identifier of the switch, which each event tells.
    pub(crate) uuid: Txt,
    pub(crate) globals: Boxed<Vars>,
    pub(crate) channels: Seats<Boxed<Chan>>,
    pub(crate) bridges: Bridges,
    pub(crate) origs: Seats<Numbered<Orig>>,
    pub(crate) jobs: Seats<Numbered<Job>>,
    pub(crate) conns: Seats<Numbered<Conn>>,
    pub(crate) outboxes: Outboxes,
    pub(crate) drawn: Drawn,
    pub(crate) moment: u64,
    pub(crate) entries: u64,
    pub(crate) cost: u64,
    pub(crate) stopping: Option<u64>,
    pub(crate) counts: Counts,
    pub(crate) losses: Losses,
}

impl Drop for Core {
    fn drop(self) {
        let Core {
            alloc: _alloc,
            config: _config,
            in_force: _in_force,
            reloads: _reloads,
            uuid: _uuid,
            globals: _globals,
            channels: _channels,
            bridges: _bridges,
            origs: _origs,
            jobs: _jobs,
            conns: _conns,
            outboxes: _outboxes,
            drawn: _drawn,
            moment: _moment,
            entries: _entries,
            cost: _cost,
            stopping: _stopping,
            counts: _counts,
            losses: _losses,
        } = self;
    }
}

impl Model for Core {
    ghost use Rattle.std.specs.Arc.{arc_value};
    ghost use Rattle.std.specs.Prelude.{◌≡◌, ◌+◌, ◌<◌, ◌^◌, [], length};
    ghost use Rattle.fs_text.specs.CoreId as core_id;
    ghost use Rattle.fs_event.specs.Rings.{AreBelow};
    ghost use Rattle.fs_state.specs.Switch.{Kept};

    ghost Value = { Kept };

    ghost view = { λ c. record {
      switch = record {
        settings = (arc_value c.config).settings;
        contexts = (arc_value c.in_force).contexts;
        reloads = c.reloads;
        globals = c.globals;
        channels = c.channels;
        bridges = c.bridges;
        origs = c.origs;
        jobs = c.jobs;
        conns = c.conns;
        outboxes = c.outboxes.frames;
        drawn = c.drawn;
        moment = c.moment;
        entries = c.entries;
        cost = c.cost;
        stopping = c.stopping;
        counts = c.counts;
        losses = c.losses;
        news = [];
        replies = [];
        posted = [];
        late = [];
        notices = [];
      };
      ring = c.outboxes.ring;
    } };

    ghost invariant = { λ c. (length c.channels < 2 ^ 16) ×
        (c.uuid ≡ core_id.uuid (arc_value c.config).settings.core_uuid 0)
        × AreBelow (c.counts.all + 1) c.outboxes.ring.pairs };
}

impl Core {
    /// A switch to which nothing has happened.
    #[tactic(auto, using(crate::proofs::SlotLemmas::no_seats_length))]
    pub fn new(alloc: Global, config: Arc<Config>) -> Result<Core, Memory>
        ensures { IfOk result (λ core. core ≡ record { switch = spec.empty (arc_value config); ring = no_events }) }
    {
        config.within();
        let settings = config.settings();
        let slots = usize::from(settings.max_sessions) + 1;
        let conns = usize::from(settings.max_connections);
        let in_force = config.clone()?;
        let counts = Counts::new(alloc)?;
        let uuid = settings.core_uuid.uuid(alloc, 0)?;
        let globals = Boxed::of(alloc, config.globals().copy()?)?;
        let (channels, origs, jobs) = call_tables(alloc, slots)?;
        let (conns, outboxes) = conn_tables(alloc, conns)?;
        Ok(Core {
            alloc,
            config,
            in_force,
            reloads: 0,
            uuid,
            globals,
            channels,
            bridges: Bridges::new(alloc),
            origs,
            jobs,
            conns,
            outboxes,
            drawn: Drawn::none(),
            moment: 0,
            entries: 0,
            cost: 0,
            stopping: None,
            counts,
            losses: Losses::new(alloc),
        })
    }

    /// Sets room aside for the events that an entry posts. Nothing else changes.
    pub fn make_room(&mut self, delta: &Delta) -> Result<(), Memory>
        ensures room { OnOk result (events_posted delta.now ≤ self.new.ring.spare) }
        ensures same { OnOk result
            (self.new ≡ record self.old { ring = record self.old.ring { spare = self.new.ring.spare } }) }
        ensures err { OnErr result (self.new ≡ self.old) }
    {
        let Ok(more) = u32::try_from(delta.posted.count()) else {
            return Err(Memory);
        };
        self.outboxes.make_room(more)
    }

    /// For how many more events room is set aside.
    pub fn spare(&self) -> u64
        ensures { result ≡ self.now.ring.spare }
    {
        self.outboxes.spare()
    }

    /// The events that wait for connections, each once, with how many are still to read it. What waits is replies and
    /// numbers of these events; with their texts it comes to the outboxes, and no other event is held.
    pub fn ring(&self) -> &Ring<Txt>
        ensures ring { result.now ≡ self.now.ring }
        ensures held { AreHeld self.now.switch.outboxes self.now.ring.pairs }
    {
        self.outboxes.ring()
    }

    /// Does what an entry changes, at its cost. It takes no memory, and leaves a blank for the next draft.
    #[tactic(auto, using(fs_seats::proofs::SeatLemmas::written_length))]
    pub fn apply(&mut self, mut delta: Boxed<Delta>, cost: u64) -> Blank
        requires fits { Fits self.old.switch delta }
        requires room { events_posted delta ≤ self.old.ring.spare }
        ensures switch { self.new.switch ≡ spec.after_entry cost (after self.old.switch delta) }
        ensures spare { self.old.ring.spare ≤ self.new.ring.spare + events_posted delta }
    {
        self.take(&mut delta);
        self.outboxes.deliver(&self.conns, &mut delta);
        self.counts.count_all(delta.news.as_slice());
        delta.news.clear();
        self.entries = self.entries.saturating_add(1);
        self.cost = self.cost.saturating_add(cost);
        Blank::of(delta)
    }

    /// Where memory is taken.
    pub fn alloc(&self) -> Global {
        self.alloc
    }

    /// The settings of the switch.
    pub fn settings(&self) -> &Settings
        ensures { result.now ≡ self.now.switch.settings }
    {
        self.config.settings()
    }

    /// The configuration of which the contexts are in force. Its settings and globals are those of its document.
    pub fn in_force(&self) -> &Arc<Config>
        ensures { (arc_value result.now).contexts ≡ self.now.switch.contexts }
    {
        &self.in_force
    }

    /// How often other contexts came into force.
    pub fn reloads(&self) -> u64
        ensures { result ≡ self.now.switch.reloads }
    {
        self.reloads
    }

    /// The identifier of the switch, as events tell it.
    pub(crate) fn uuid(&self) -> &[u8]
        ensures { result.now ≡ core_id.uuid self.now.switch.settings.core_uuid 0 }
    {
        self.uuid.as_bytes()
    }

    /// The moment of the last entry, in microseconds.
    pub fn moment(&self) -> u64
        ensures { result ≡ self.now.switch.moment }
    {
        self.moment
    }

    /// What its entries so far cost.
    pub fn cost(&self) -> u64
        ensures { result ≡ self.now.switch.cost }
    {
        self.cost
    }

    /// Whether an entry of this cost would pass the limit of its journal.
    pub(crate) fn passes_limit(&self, cost: u64) -> bool
        ensures exact { result ≡ spec.passes_limit cost self.now.switch }
        ensures free { result ≡ false
            → self.now.switch.cost + cost ≤ min self.now.switch.settings.journal_limit (2 ^ 64 - 1) }
    {
        let limit = self.settings().journal_limit;
        limit < cost || self.cost > limit - cost
    }

    /// Whether its journal is full: the largest entry but that of a load, of 65,600, would pass the limit.
    pub fn is_full(&self) -> bool
        ensures exact { result ≡ spec.is_full self.now.switch }
        ensures free { result ≡ false → spec.HasRoomWithin self.now.switch.settings.journal_limit self.now.switch }
    {
        self.passes_limit(LARGEST_COST)
    }

    /// Whether its journal is full for a load: the largest entry of one, of 1,048,641, would pass the limit.
    pub fn is_full_for_load(&self) -> bool
        ensures exact { result ≡ spec.is_full_for_load self.now.switch }
        ensures free { result ≡ false → spec.HasRoomWithin self.now.switch.settings.journal_limit self.now.switch }
    {
        self.passes_limit(LARGEST_LOAD)
    }

    /// The place of the entry by which it came to its end, once one did.
    pub fn stopping(&self) -> Option<u64>
        ensures { result ≡ self.now.switch.stopping }
    {
        self.stopping
    }

    /// How many slots there are, with slot 0.
    pub fn slots(&self) -> u16
        ensures { result ≡ length self.now.switch.channels }
    {
        self.channels.len() as u16
    }

    /// The channel in a slot.
    pub fn chan(&self, slot: u16) -> Option<&Chan>
        ensures { option_copied result ≡ spec.chan_at self.now.switch slot }
    {
        Some(self.channels.get(usize::from(slot))?)
    }

    /// The channel in a slot once these changes are made.
    pub fn chan_after<'a>(&'a self, delta: &'a Delta, slot: u16) -> Option<&'a Chan>
        ensures { option_copied result ≡ spec.chan_at (after self.now.switch delta.now) slot }
    {
        let channels = Overlay::of(&self.channels, &delta.channels);
        Some(channels.lend(usize::from(slot))?)
    }

    /// The variables of the whole switch.
    pub fn globals(&self) -> &Vars
        ensures { result.now ≡ self.now.switch.globals }
    {
        &self.globals
    }

    /// The variables of the whole switch once these changes are made.
    pub fn globals_after<'a>(&'a self, delta: &'a Delta) -> &'a Vars
        ensures { result.now ≡ (after self.now.switch delta.now).globals }
    {
        match &delta.globals {
            Some(globals) => globals,
            None => &self.globals,
        }
    }

    /// How many slots are filled, at most: from this one on there is no channel.
    pub fn filled_slots(&self) -> u16
        ensures within { result ≤ length self.now.switch.channels }
        ensures empty { IsEmptyFrom result self.now.switch.channels }
    {
        self.channels.filled() as u16
    }

    /// The origination of a number.
    pub fn orig(&self, number: u64) -> Option<&Orig>
        ensures { option_copied result ≡ spec.orig_of self.now.switch number }
    {
        self.origs.row(number)
    }

    /// The job of a number.
    pub fn job(&self, number: u64) -> Option<&Job>
        ensures { option_copied result ≡ spec.job_of self.now.switch number }
    {
        self.jobs.row(number)
    }

    /// What stands at a seat for a job; past the last one stands nothing.
    pub fn job_at(&self, seat: usize) -> Option<&Numbered<Job>>
        ensures { option_copied result ≡ spec.job_at self.now.switch seat }
    {
        self.jobs.get(seat)
    }

    /// How many seats for jobs are filled, at most: from this one on there is no job.
    pub fn filled_jobs(&self) -> usize
        ensures within { result ≤ length self.now.switch.jobs }
        ensures empty { IsEmptyFrom result self.now.switch.jobs }
    {
        self.jobs.filled()
    }

    /// How many connections there may be.
    pub fn conn_seats(&self) -> usize
        ensures { result ≡ length self.now.switch.conns }
    {
        self.conns.len()
    }

    /// What stands at a seat for a connection; past the last one stands nothing.
    pub fn conn_at(&self, seat: usize) -> Option<&Numbered<Conn>>
        ensures { option_copied result ≡ spec.conn_at self.now.switch seat }
    {
        self.conns.get(seat)
    }

    /// The connection of a number.
    pub fn conn(&self, number: u32) -> Option<&Conn>
        ensures { option_copied result ≡ spec.conn_of self.now.switch number }
    {
        self.conns.row(u64::from(number))
    }

    /// How many frames wait for the connection of a number.
    pub fn waiting(&self, number: u32) -> usize
        ensures { result ≡ length (spec.waiting_for self.now.switch number) }
    {
        match self.conns.seat_of(u64::from(number)) {
            Some(seat) => self.outboxes.len(seat),
            None => 0,
        }
    }

    /// How many events each connection did not get that it wanted.
    pub fn losses(&self) -> &Losses
        ensures { result.now ≡ self.now.switch.losses }
    {
        &self.losses
    }

    /// How many events there were of each name, and channels that were hung up with each cause.
    pub fn counts(&self) -> &Counts
        ensures { result.now ≡ self.now.switch.counts }
    {
        &self.counts
    }

    /// Makes the changes of what is there, without memory. What happens, and what is given, is left in them.
    #[tactic(auto, using(fs_seats::proofs::SeatLemmas::written_length))]
    fn take(&mut self, delta: &mut Delta)
        ensures core { record self.new.switch {
          news = delta.old.news;
          replies = delta.old.replies;
          posted = gifts_of_posts delta.old.posted;
          late = delta.old.late;
          notices = delta.old.notices;
        }
            ≡ after self.old.switch delta.old }
        ensures ring { AreNoMore self.old.ring self.new.ring }
        ensures left { delta.new ≡ rest_of delta.old }
    {
        put_in(&mut self.in_force, delta.in_force.take());
        self.reloads = delta.reloads;
        put_in(&mut self.globals, delta.globals.take());
        delta.channels.move_into(&mut self.channels);
        put_in(&mut self.bridges, delta.bridges.take());
        delta.origs.move_into(&mut self.origs);
        delta.jobs.move_into(&mut self.jobs);
        delta.conns.move_into(&mut self.conns);
        self.outboxes.change(delta.outbox);
        delta.outbox = OutboxChange::Unchanged;
        self.drawn = delta.drawn;
        self.moment = delta.moment;
        self.stopping = delta.stopping;
        put_in(&mut self.losses, delta.losses.take());
    }
}

/// There is something else, where it changes.
fn put_in<T: Drop>(kept: &mut T, changed: Option<T>)
    ensures { kept.new ≡ unwrap_or changed kept.old }
{
    if let Some(changed) = changed {
        *kept = changed;
    }
}

/// What calls are made of: channels, originations and jobs.
type CallTables = (
    Seats<Boxed<Chan>>,
    Seats<Numbered<Orig>>,
    Seats<Numbered<Job>>,
);

/// Tables for calls, with nothing in them.
fn call_tables(alloc: Global, slots: usize) -> Result<CallTables, Memory>
    ensures { IfOk result (λ tables. tables ≡ (no_seats slots, no_seats 1280, no_seats 1024)) }
{
    let channels = Seats::empty(alloc, slots)?;
    let origs = Seats::empty(alloc, ORIGS)?;
    let jobs = Seats::empty(alloc, JOBS)?;
    Ok((channels, origs, jobs))
}

/// Tables for connections and what waits for them, with nothing in them.
fn conn_tables(alloc: Global, count: usize) -> Result<(Seats<Numbered<Conn>>, Outboxes), Memory>
    ensures { IfOk result (λ tables. tables ≡ (no_seats count, nothing_waits count)) }
{
    let conns = Seats::empty(alloc, count)?;
    let outboxes = Outboxes::new(alloc, count)?;
    Ok((conns, outboxes))
}
