//! A draft: a switch that is kept, and what is to change of it.
ghost use Rattle.std.specs.Prelude.{◌≡◌, ◌≢◌, ◌≤◌, true, Option, Some, None, length, slice_get, MatchOption, IfOk};
ghost use Rattle.std.specs.Arc.{arc_value};
ghost use Rattle.std.specs.Option.{option_copied};
ghost use Rattle.fs_seats.specs.Overlays.{over};
ghost use Rattle.fs_seats.specs.Seats.{IsEmptyFrom};
ghost use Rattle.fs_chan.specs.declared.chan.Chan.{Chan};
ghost use Rattle.fs_seats.specs.Rows as rows;
ghost use Rattle.fs_state.specs.declared.delta.OutboxChange.TheVariants as change;
ghost use Rattle.fs_state.specs.Drawn as numbers;
ghost use Rattle.fs_state.specs.Switch as spec;
ghost use Rattle.fs_bridge.specs.Bridges.{BridgeRows, has_number_left};
ghost use Rattle.fs_state.specs.Drafts.{Brings, after, drafted, chan_in, with_chan_in, chan_taken_back};
ghost use Rattle.std.specs.Prelude.{◌-◌, ◌^◌, ◌<◌};
ghost use Rattle.fs_state.specs.Drafts.{with_bridges_in, Fits};
ghost use Rattle.fs_state.specs.Waiting.{AreNumbered};

use crate::blank::Blank;
use crate::conn::Conn;
use crate::delta::{Delta, OutboxChange};
use crate::drawn::Drawn;
use crate::event::Event;
use crate::job::Job;
use crate::losses::Losses;
use crate::switch::Core;
use fs_bridge::{BridgeKind, Bridges, Row};
use fs_chan::Chan;
use fs_doc::{Config, Settings};
use fs_orig::Orig;
use fs_seats::{Boxed, Numbered, Overlay, Rows, Table};
use fs_text::{Memory, Txt};
use fs_vars::Vars;
use std::alloc::Global;
use std::marker::Model;
use std::sync::Arc;

/// A switch that is kept, and what is to change of it. A contract sees both.
///
/// Where memory is wanting a draft may have part of a change: it is to be dropped then.
#[derive(Drop)]
pub struct Draft<'a> {
    pub(crate) core: &'a Core,
    pub(crate) delta: Boxed<Delta>,
}

impl<'a> Model for Draft<'a> {
    ghost use Rattle.std.specs.Prelude.{◌<◌, ◌^◌, length};
    ghost use Rattle.fs_state.specs.Drafts.{Drafted};

    ghost Value = { Drafted };

    ghost view = { λ d. record { base = d.core.now.switch; delta = d.delta } };

    ghost invariant = { λ d. length d.core.now.switch.channels < 2 ^ 16 };
}

impl<'a> Draft<'a> {
    /// A switch of which nothing is to change. What is to change is noted on a blank.
    pub fn new(core: &'a Core, blank: Blank) -> Draft<'a>
        ensures base { result.base ≡ core.entry.now.switch }
        ensures drafted { drafted result ≡ core.entry.now.switch }
        ensures outbox { result.delta.outbox ≡ change.Unchanged }
    {
        let mut delta = blank.into_delta();
        delta.reloads = core.reloads;
        delta.drawn = core.drawn;
        delta.moment = core.moment;
        delta.stopping = core.stopping;
        Draft { core, delta }
    }

    /// Where memory is taken.
    pub fn alloc(&self) -> Global {
        let core = self.core;
        core.alloc
    }

    /// The settings of the switch.
    pub fn settings(&self) -> &Settings
        ensures { result.now ≡ (drafted self.now).settings }
    {
        let core = self.core;
        core.settings()
    }

    // ---- the tables, as they are to be

    /// The channels by their slots.
    fn channels(&self) -> Overlay<'_, Boxed<Chan>>
        ensures table { result ≡ over self.now.base.channels self.now.delta.channels }
        ensures few { length self.now.base.channels < 2 ^ 16 }
    {
        let core = self.core;
        Overlay::of(&core.channels, &self.delta.channels)
    }

    /// The originations by their seats.
    fn origs(&self) -> Overlay<'_, Numbered<Orig>>
        ensures { result ≡ over self.now.base.origs self.now.delta.origs }
    {
        let core = self.core;
        Overlay::of(&core.origs, &self.delta.origs)
    }

    /// The jobs by their seats.
    fn jobs(&self) -> Overlay<'_, Numbered<Job>>
        ensures { result ≡ over self.now.base.jobs self.now.delta.jobs }
    {
        let core = self.core;
        Overlay::of(&core.jobs, &self.delta.jobs)
    }

    /// The connections by their seats.
    pub(crate) fn conns(&self) -> Overlay<'_, Numbered<Conn>>
        ensures { result ≡ over self.now.base.conns self.now.delta.conns }
    {
        let core = self.core;
        Overlay::of(&core.conns, &self.delta.conns)
    }

    // ---- the entry in hand

    /// The place of the entry in hand: how many entries there were before it.
    pub fn place(&self) -> u64
        ensures { result ≡ (drafted self.now).entries }
    {
        let core = self.core;
        core.entries
    }

    /// What the entries before the one in hand cost.
    pub fn cost(&self) -> u64
        ensures { result ≡ (drafted self.now).cost }
    {
        let core = self.core;
        core.cost
    }

    /// Whether an entry of this cost would pass the limit of the journal.
    pub fn passes_limit(&self, cost: u64) -> bool
        ensures { result ≡ spec.passes_limit cost (drafted self.now) }
    {
        let core = self.core;
        core.passes_limit(cost)
    }

    /// The moment of the entry in hand, in microseconds.
    pub fn moment(&self) -> u64
        ensures { result ≡ (drafted self.now).moment }
    {
        self.delta.moment
    }

    /// The clock comes to a moment; it never goes back.
    pub fn advance(&mut self, now: u64)
        ensures base { self.new.base ≡ self.old.base }
        ensures advanced { drafted self.new ≡ spec.at_moment now (drafted self.old) }
        ensures outbox { self.new.delta.outbox ≡ self.old.delta.outbox }
    {
        self.delta.moment = self.delta.moment.max(now);
    }

    /// The switch comes to its end by the entry in hand.
    pub(crate) fn stop(&mut self)
        ensures base { self.new.base ≡ self.old.base }
        ensures stopped { drafted self.new ≡ spec.stopped (drafted self.old) }
    {
        self.delta.stopping = Some(self.place());
    }

    /// Something happens.
    pub fn tell(&mut self, event: Event) -> Result<(), Memory>
        ensures { Brings result self.old self.new (spec.with_event event (drafted self.old)) }
    {
        self.delta.news.push(event)
    }

    /// The connection of a number gets a frame at once, before the events of the entry: the reply to its command.
    pub fn give_now(&mut self, conn: u32, frame: Txt) -> Result<(), Memory>
        ensures { Brings result self.old self.new (spec.with_frame_now conn frame (drafted self.old)) }
    {
        self.delta.replies.push(conn, frame)
    }

    /// It gets a reply that was owed, behind the events of the entry.
    pub fn give_late(&mut self, conn: u32, frame: Txt) -> Result<(), Memory>
        ensures { Brings result self.old self.new (spec.with_late_reply conn frame (drafted self.old)) }
    {
        self.delta.late.push(conn, frame)
    }

    /// It gets a notice, behind all else.
    pub fn give_notice_to(&mut self, conn: u64, frame: Txt) -> Result<(), Memory>
        ensures { Brings result self.old self.new (spec.with_notice conn frame (drafted self.old)) }
    {
        self.delta.notices.push_to(conn, frame)
    }

    /// Gives a connection a notice, behind all else.
    pub fn give_notice(&mut self, conn: u32, frame: Txt) -> Result<(), Memory>
        ensures { Brings result self.old self.new (spec.with_notice conn frame (drafted self.old)) }
    {
        self.delta.notices.push(conn, frame)
    }

    // ---- the numbers that are drawn

    /// The number that the next origination gets.
    pub fn next_orig(&self) -> u64
        ensures { result ≡ spec.next_orig_number (drafted self.now) }
    {
        self.delta.drawn.with_orig().origs
    }

    /// The number that the next job gets.
    pub fn next_job(&self) -> u64
        ensures { result ≡ spec.next_job_number (drafted self.now) }
    {
        self.delta.drawn.with_job().jobs
    }

    /// Draws an identifier of the switch, whose number is the next.
    pub fn draw_identifier(&mut self) -> Result<Txt, Memory>
        ensures identifier { IfOk result (λ text. text ≡ spec.identifier_of (drafted self.new)) }
        ensures draft { Brings result self.old self.new (spec.with_next_identifier (drafted self.old)) }
    {
        self.delta.drawn = self.delta.drawn.with_identifier();
        let core = self.core;
        let core_id = core.settings().core_uuid;
        core_id.uuid(core.alloc, self.delta.drawn.identifiers)
    }

    // ---- what is in force

    /// The contexts of another configuration come into force.
    pub fn reload(&mut self, config: Arc<Config>) -> Result<(), Memory>
        ensures { Brings result self.old self.new (spec.reloaded (arc_value config) (drafted self.old)) }
    {
        let Some(reloads) = self.delta.reloads.checked_add(1) else {
            return Err(Memory);
        };
        self.delta.reloads = reloads;
        self.delta.in_force = Some(config);
        Ok(())
    }

    // ---- globals

    /// The globals.
    pub fn globals(&self) -> &Vars
        ensures { result.now ≡ (drafted self.now).globals }
    {
        let core = self.core;
        match &self.delta.globals {
            Some(globals) => globals,
            None => &core.globals,
        }
    }

    /// There are other globals.
    pub fn set_globals(&mut self, globals: Vars) -> Result<(), Memory>
        ensures { Brings result self.old self.new (record (drafted self.old) { globals = globals }) }
    {
        self.delta.globals = Some(Boxed::of(self.alloc(), globals)?);
        Ok(())
    }

    // ---- channels

    /// The channel in a slot.
    pub fn chan(&self, slot: u16) -> Option<&Chan>
        ensures { option_copied result ≡ spec.chan_at (drafted self.now) slot }
    {
        Some(self.channels().lend(usize::from(slot))?)
    }

    /// Puts a channel into a slot, or empties it.
    pub fn put_chan(&mut self, slot: u16, chan: Option<Boxed<Chan>>) -> Result<(), Memory>
        ensures { Brings result self.old self.new (spec.with_chan slot chan (drafted self.old)) }
    {
        let core = self.core;
        self.delta
            .channels
            .put_over(&core.channels, usize::from(slot), chan)
    }

    /// Takes a channel back that was put into a slot last, so that it can be put there changed.
    pub fn take_chan(&mut self, slot: u16) -> Option<Boxed<Chan>>
        ensures base { self.new.base ≡ self.old.base }
        ensures answer { result ≡ chan_taken_back self.old slot }
        ensures taken { MatchOption result (drafted self.new ≡ drafted self.old)
            (λ chan. chan_in self.old slot ≡ Some chan) }
        ensures put { (chan : Option Chan) → with_chan_in self.new slot chan ≡ with_chan_in self.old slot chan }
    {
        let core = self.core;
        self.delta
            .channels
            .take_back(&core.channels, usize::from(slot))
    }

    /// How many slots are filled, at most: from this one on there is no channel.
    #[tactic(auto, using(fs_seats::proofs::SeatLemmas::written_length))]
    pub fn filled_slots(&self) -> u16
        ensures within { result ≤ length (drafted self.now).channels }
        ensures empty { IsEmptyFrom result (drafted self.now).channels }
    {
        self.channels().filled() as u16
    }

    /// How many slots there are, with slot 0.
    #[tactic(auto, using(fs_seats::proofs::SeatLemmas::written_length))]
    pub fn slots(&self) -> u16
        ensures { result ≡ length (drafted self.now).channels }
    {
        self.channels().len() as u16
    }

    /// The least free slot from one on.
    #[tactic(auto, using(fs_seats::proofs::SeatLemmas::written_length))]
    pub fn free_slot(&self, from: u16) -> Option<u16>
        ensures { result ≡ spec.free_slot from (drafted self.now) }
    {
        let slot = self.channels().least_free(usize::from(from))?;
        Some(slot as u16)
    }

    /// The least slot whose channel is live and has this identifier.
    #[tactic(auto, using(fs_seats::proofs::SeatLemmas::first_rules, crate::proofs::SlotLemmas::first_of_all))]
    pub fn slot_named(&self, uuid: &[u8]) -> Option<u16>
        ensures { result ≡ spec.slot_named uuid.now (drafted self.now) }
    {
        for slot in 0..self.slots() {
            if self.is_live_as(slot, uuid) {
                return Some(slot);
            }
        }
        None
    }

    /// Whether there is a channel in a slot, it is live, and it has this identifier.
    fn is_live_as(&self, slot: u16, uuid: &[u8]) -> bool
        ensures { result ≡ spec.is_live_as uuid.now (spec.chan_at (drafted self.now) slot) }
    {
        match self.chan(slot) {
            Some(chan) => chan.is_live() && chan.uuid.as_bytes() == uuid,
            None => false,
        }
    }

    /// Whether the channel in some slot has this identifier, live or not.
    #[tactic(auto, using(fs_seats::proofs::SeatLemmas::filled_rules))]
    pub fn is_held(&self, uuid: &[u8]) -> bool
        ensures { result ≡ spec.is_held uuid.now (drafted self.now) }
    {
        for slot in 0..self.filled_slots() {
            if self.is_called(slot, uuid) {
                return true;
            }
        }
        false
    }

    /// Whether there is a channel in a slot, and it has this identifier.
    fn is_called(&self, slot: u16, uuid: &[u8]) -> bool
        ensures { result ≡ spec.is_called uuid.now (spec.chan_at (drafted self.now) slot) }
    {
        match self.chan(slot) {
            Some(chan) => chan.uuid.as_bytes() == uuid,
            None => false,
        }
    }

    // ---- bridges

    /// The bridge that a slot is a leg of.
    pub fn bridge_at(&self, slot: u16) -> Option<Row>
        ensures { result ≡ spec.bridge_at (drafted self.now) slot }
    {
        let core = self.core;
        match &self.delta.bridges {
            Some(bridges) => bridges.part_of(slot),
            None => core.bridges.part_of(slot),
        }
    }

    /// Whether there is a number for one more bridge.
    pub(crate) fn has_bridge_number_left(&self) -> bool
        ensures { result ≡ has_number_left (drafted self.now).bridges }
    {
        let core = self.core;
        match &self.delta.bridges {
            Some(bridges) => bridges.has_number_left(),
            None => core.bridges.has_number_left(),
        }
    }

    /// Begins a bridge between two slots, whose number is the next.
    pub(crate) fn add_bridge(
        &mut self,
        kind: BridgeKind,
        caller: u16,
        answerer: u16,
    ) -> Result<u64, Memory>
        requires apart { caller ≢ answerer }
        requires caller { spec.bridge_at (drafted self.old) caller ≡ None }
        requires answerer { spec.bridge_at (drafted self.old) answerer ≡ None }
        requires left { has_number_left (drafted self.old).bridges ≡ true }
        ensures number { IfOk result (λ number. number ≡ spec.next_bridge_number (drafted self.old)) }
        ensures draft { Brings result self.old self.new (spec.with_bridge caller answerer kind (drafted self.old)) }
    {
        let mut bridges = self.own_bridges()?;
        let number = bridges.join(caller, answerer, kind)?;
        self.put_bridges(bridges);
        Ok(number)
    }

    /// Ends the bridge of a number.
    pub(crate) fn drop_bridge(&mut self, number: u64) -> Result<(), Memory>
        ensures { Brings result self.old self.new (spec.without_bridge number (drafted self.old)) }
    {
        let mut bridges = self.own_bridges()?;
        let _row = bridges.unbridge(number);
        self.put_bridges(bridges);
        Ok(())
    }

    /// The bridges, to be changed and put there again: those that were put there last are taken back, the kept ones
    /// copied.
    fn own_bridges(&mut self) -> Result<Bridges, Memory>
        ensures base { self.new.base ≡ self.old.base }
        ensures own { IfOk result (λ own. own ≡ (drafted self.old).bridges) }
        ensures put { (bridges : BridgeRows) → with_bridges_in self.new bridges ≡ with_bridges_in self.old bridges }
    {
        let core = self.core;
        match self.delta.bridges.take() {
            Some(bridges) => Ok(bridges),
            None => core.bridges.copy(),
        }
    }

    /// There are other bridges.
    fn put_bridges(&mut self, bridges: Bridges)
        ensures base { self.new.base ≡ self.old.base }
        ensures put { drafted self.new ≡ with_bridges_in self.old bridges }
    {
        self.delta.bridges = Some(bridges);
    }

    // ---- originations

    /// The origination of a number.
    pub fn orig(&self, number: u64) -> Option<&Orig>
        ensures { option_copied result ≡ spec.orig_of (drafted self.now) number }
    {
        self.origs().lend_row(number)
    }

    /// Puts an origination in the place of the one of this number.
    pub fn set_orig(&mut self, number: u64, orig: Orig) -> Result<(), Memory>
        ensures { Brings result self.old self.new (spec.with_orig number orig (drafted self.old)) }
    {
        let core = self.core;
        self.delta.origs.set_row(&core.origs, number, orig)
    }

    /// Begins an origination, whose number is the next.
    pub fn add_orig(&mut self, orig: Orig) -> Result<u64, Memory>
        ensures number { IfOk result (λ number. number ≡ spec.next_orig_number (drafted self.old)) }
        ensures draft { Brings result self.old self.new (spec.with_new_orig orig (drafted self.old)) }
    {
        let core = self.core;
        self.delta.drawn = self.delta.drawn.with_orig();
        let number = self.delta.drawn.origs;
        self.delta.origs.add_row(&core.origs, number, orig)?;
        Ok(number)
    }

    /// Ends the origination of a number.
    pub fn drop_orig(&mut self, number: u64) -> Result<(), Memory>
        ensures { Brings result self.old self.new (spec.without_orig number (drafted self.old)) }
    {
        let core = self.core;
        self.delta.origs.drop_row(&core.origs, number)
    }

    /// Ends all originations.
    #[tactic(auto, using(fs_seats::proofs::SeatLemmas::written_length))]
    pub(crate) fn drop_origs(&mut self) -> Result<(), Memory>
        ensures { Brings result self.old self.new (spec.without_origs (drafted self.old)) }
    {
        let core = self.core;
        self.delta.origs.clear_over(&core.origs)
    }

    // ---- jobs

    /// The job of a number.
    pub fn job(&self, number: u64) -> Option<&Job>
        ensures { option_copied result ≡ spec.job_of (drafted self.now) number }
    {
        self.jobs().lend_row(number)
    }

    /// Begins a job, whose number is the next.
    pub fn add_job(&mut self, job: Job) -> Result<u64, Memory>
        ensures number { IfOk result (λ number. number ≡ spec.next_job_number (drafted self.old)) }
        ensures draft { Brings result self.old self.new (spec.with_new_job job (drafted self.old)) }
    {
        let core = self.core;
        self.delta.drawn = self.delta.drawn.with_job();
        let number = self.delta.drawn.jobs;
        self.delta.jobs.add_row(&core.jobs, number, job)?;
        Ok(number)
    }

    /// A job goes on under the number that it had.
    pub fn put_job(&mut self, number: u64, job: Job) -> Result<(), Memory>
        ensures { Brings result self.old self.new (spec.with_job number job (drafted self.old)) }
    {
        let core = self.core;
        self.delta.jobs.add_row(&core.jobs, number, job)
    }

    /// Ends the job of a number.
    pub fn drop_job(&mut self, number: u64) -> Result<(), Memory>
        ensures { Brings result self.old self.new (spec.without_job number (drafted self.old)) }
    {
        let core = self.core;
        self.delta.jobs.drop_row(&core.jobs, number)
    }

    /// Ends all jobs.
    #[tactic(auto, using(fs_seats::proofs::SeatLemmas::written_length))]
    pub(crate) fn drop_jobs(&mut self) -> Result<(), Memory>
        ensures { Brings result self.old self.new (spec.without_jobs (drafted self.old)) }
    {
        let core = self.core;
        self.delta.jobs.clear_over(&core.jobs)
    }

    /// Whether each seat for a job is taken.
    pub fn is_full_of_jobs(&self) -> bool
        ensures { result ≡ spec.is_full_of_jobs (drafted self.now) }
    {
        self.jobs().least_free(0).is_none()
    }

    /// What stands at a seat for a job; past the last one stands nothing.
    pub fn job_at(&self, seat: usize) -> Option<&Numbered<Job>>
        ensures { option_copied result ≡ spec.job_at (drafted self.now) seat }
    {
        self.jobs().lend(seat)
    }

    /// How many seats for jobs are filled, at most: from this one on there is no job.
    pub fn filled_jobs(&self) -> usize
        ensures within { result ≤ length (drafted self.now).jobs }
        ensures empty { IsEmptyFrom result (drafted self.now).jobs }
    {
        self.jobs().filled()
    }

    // ---- connections

    /// The connection of a number.
    pub fn conn(&self, number: u32) -> Option<&Conn>
        ensures { option_copied result ≡ spec.conn_of (drafted self.now) number }
    {
        self.conns().lend_row(u64::from(number))
    }

    /// What stands at a seat for a connection.
    pub fn conn_at(&self, seat: usize) -> Option<&Numbered<Conn>>
        ensures { option_copied result ≡ spec.conn_at (drafted self.now) seat }
    {
        self.conns().lend(seat)
    }

    /// How many seats for connections are filled, at most: from this one on there is no connection.
    pub fn filled_conns(&self) -> usize
        ensures within { result ≤ length (drafted self.now).conns }
        ensures empty { IsEmptyFrom result (drafted self.now).conns }
    {
        self.conns().filled()
    }

    /// Whether each seat for a connection is taken.
    pub fn is_full_of_conns(&self) -> bool
        ensures { result ≡ spec.is_full_of_conns (drafted self.now) }
    {
        self.conns().least_free(0).is_none()
    }

    /// The number of the connection that comes next.
    pub fn coming_conn(&self) -> u32
        ensures { result ≡ (numbers.with_conn (drafted self.now).drawn).conns }
    {
        self.delta.drawn.with_conn().conns
    }

    /// Puts a connection at a seat.
    pub fn put_conn_at(&mut self, seat: usize, row: Numbered<Conn>) -> Result<(), Memory>
        ensures { Brings result self.old self.new (spec.with_conn_at seat row (drafted self.old)) }
    {
        let core = self.core;
        self.delta.conns.put_over(&core.conns, seat, Some(row))
    }

    /// Puts a connection in the place of the one of this number.
    pub fn set_conn(&mut self, number: u32, conn: Conn) -> Result<(), Memory>
        ensures { Brings result self.old self.new (spec.with_conn number conn (drafted self.old)) }
    {
        let core = self.core;
        self.delta
            .conns
            .set_row(&core.conns, u64::from(number), conn)
    }

    /// Opens a connection, whose number is the next.
    pub fn add_conn(&mut self, conn: Conn) -> Result<u32, Memory>
        ensures number { IfOk result (λ number. number ≡ (numbers.with_conn (drafted self.old).drawn).conns) }
        ensures draft { Brings result self.old self.new (spec.with_new_conn conn (drafted self.old)) }
    {
        let core = self.core;
        self.delta.drawn = self.delta.drawn.with_conn();
        let number = self.delta.drawn.conns;
        self.delta
            .conns
            .add_row(&core.conns, u64::from(number), conn)?;
        Ok(number)
    }

    /// How many connections there may be.
    pub fn conn_seats(&self) -> usize
        ensures { result ≡ length (drafted self.now).conns }
    {
        self.conns().len()
    }

    // ---- frames that wait; a draft changes one outbox at most

    /// How many frames wait for the connection of a number.
    pub fn waiting(&self, number: u32) -> usize
        requires { self.now.delta.outbox ≡ change.Unchanged }
        ensures { result ≡ length (spec.waiting_for (drafted self.now) number) }
    {
        let core = self.core;
        match self.conns().seat_of(u64::from(number)) {
            Some(seat) => core.outboxes.len(seat),
            None => 0,
        }
    }

    /// The frame that waits first for the connection of a number.
    pub fn first_frame(&self, number: u32) -> Option<&Txt>
        requires { self.now.delta.outbox ≡ change.Unchanged }
        ensures { option_copied result ≡ slice_get (spec.waiting_for (drafted self.now) number) 0 }
    {
        let core = self.core;
        let seat = self.conns().seat_of(u64::from(number))?;
        core.outboxes.first(seat)
    }

    /// The frame that waits first for the connection of a number is taken, if there is one.
    pub fn take_frame(&mut self, number: u32)
        requires { self.old.delta.outbox ≡ change.Unchanged }
        ensures base { self.new.base ≡ self.old.base }
        ensures taken { drafted self.new ≡ spec.with_frame_taken number (drafted self.old) }
    {
        if let Some(seat) = self.conns().seat_of(u64::from(number)) {
            self.delta.outbox = OutboxChange::Taken { seat };
        }
    }

    /// The connection of a number is gone, and with it the frames that wait for it.
    pub fn drop_conn(&mut self, number: u32) -> Result<(), Memory>
        requires { self.old.delta.outbox ≡ change.Unchanged }
        ensures { Brings result self.old self.new (spec.without_conn number (drafted self.old)) }
    {
        let core = self.core;
        if let Some(seat) = self.conns().seat_of(u64::from(number)) {
            self.delta.outbox = OutboxChange::Cleared { seat };
        }
        self.delta.conns.drop_row(&core.conns, u64::from(number))
    }

    // ---- the end

    /// What is to change. It is refused, as for want of memory, where outboxes might come to have 2^63 frames, or the
    /// numbers of events are not those that follow.
    #[tactic(auto, using(crate::proofs::OutboxLemmas::room_counted, crate::proofs::OutboxLemmas::room_after))]
    pub fn finish(self) -> Result<Boxed<Delta>, Memory>
        ensures delta { IfOk result (λ delta. after self.entry.base delta ≡ drafted self.entry) }
        ensures fits { IfOk result (λ delta. Fits self.entry.base delta) }
    {
        let core = self.core;
        if !core.outboxes.have_room(self.delta.frames_given()) || !self.has_numbers() {
            return Err(Memory);
        }
        Ok(self.delta)
    }

    /// Whether the events that are posted have numbers that follow upon those of all events before.
    fn has_numbers(&self) -> bool
        ensures { result ≡ true → AreNumbered self.now.base.counts.all (length self.now.delta.news)
            self.now.delta.posted.events }
    {
        let core = self.core;
        let delta = &self.delta;
        let more = delta.news.as_slice().len();
        delta.posted.are_behind(core.counts.all(), more)
    }
}
