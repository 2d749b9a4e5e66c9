//! What is asked of a machine, and of a draft.

ghost use Rattle.std.specs.Arc.{arc_value};
ghost use Rattle.std.specs.Prelude.{◌≡◌, ◌<◌, ℕ, length, is_some, IfOk};
ghost use Rattle.fs_state.specs.Drafts.{drafted};
ghost use Rattle.fs_state.specs.Switch.{chan_at, waiting_for, at_moment};
ghost use Rattle.fs_machine.specs.declared.due.DueActor.TheVariants as actor;
ghost use Rattle.fs_machine.specs.Connections as connections;
ghost use Rattle.std.specs.Option.{option_copied};
ghost use Rattle.fs_machine.specs.Controlling.{dial_at};
ghost use Rattle.fs_machine.specs.Due as due;
ghost use Rattle.fs_machine.specs.Events.{happened, events_of, CountsAll, CountsEvents, CountsHangups};
ghost use Rattle.fs_machine.specs.Questions as spec;
ghost use Rattle.fs_machine.specs.Runs.{state_of};
ghost use Rattle.fs_machine.specs.Loading as loading;
ghost use Rattle.fs_machine.specs.Step.{reads, refused_as_full, refused_as_full_for_load};

use crate::connections::phase_of;
use crate::due::{DueActor, due_among_all, due_among_jobs, due_in_slot, waits_for_load};
use crate::machine::{Machine, full_journal};
use crate::refusal::Refusal;
use crate::refused::reads;
use fs_doc::Config;
use fs_plan::Dialplan;
use fs_state::{Core, Counts, Draft, Parting, Phase, Seen};
use fs_text::{Memory, Txt};
use std::sync::Arc;

/// A configuration whose contexts are in force, and the dialplan that was built of them.
pub struct InForce {
    pub config: Arc<Config>,
    pub dialplan: Arc<Dialplan>,
}

impl Drop for InForce {
    fn drop(self) {
        let InForce {
            config: _config,
            dialplan: _dialplan,
        } = self;
    }
}

impl Machine {
    /// The least slot, or else the least job, that has something to do by itself at a moment, or the next moment at
    /// which one has.
    ///
    /// A moment before the last entry's counts as that one.
    #[tactic(auto, unfolding(crate::specs::Due::next_due))]
    pub fn next_due(&self, now: u64) -> DueActor
        ensures exact { result ≡ due.next_due now (state_of self.now) }
        ensures to_come { (moment : ℕ) → result ≡ actor.Later moment → now < moment }
    {
        due_among_all(&self.seen_at(now))
    }

    /// The least job that has something to do at a moment, or the next moment at which one has.
    #[tactic(auto, unfolding(crate::specs::Due::next_job))]
    pub fn next_job(&self, now: u64) -> DueActor
        ensures { result ≡ due.next_job now (state_of self.now) }
    {
        due_among_jobs(&self.seen_at(now))
    }

    /// Whether the channel in a slot has something to do at a moment, or the next moment at which it has.
    #[tactic(auto, unfolding(crate::specs::Due::next_slot))]
    pub fn next_slot(&self, slot: u16, now: u64) -> DueActor
        ensures { result ≡ due.next_slot slot now (state_of self.now) }
    {
        due_in_slot(&self.seen_at(now), slot)
    }

    /// The state as it stands at a moment.
    fn seen_at(&self, now: u64) -> Seen<'_>
        ensures { result ≡ at_moment now (state_of self.now) }
    {
        Seen::of(&self.core, now)
    }

    /// The text that names the controller for whom the channel in a slot waits, if it waits for one.
    pub fn dial_text(&self, slot: u16) -> Option<&Txt>
        ensures { option_copied result ≡ dial_at (state_of self.now) slot }
    {
        self.core.chan(slot)?.dial_text()
    }

    /// Whether a slot holds a channel.
    pub fn holds(&self, slot: u16) -> bool
        ensures { result ≡ is_some (chan_at (state_of self.now) slot) }
    {
        self.core.chan(slot).is_some()
    }

    /// How many slots hold a channel.
    pub fn live(&self) -> u16
        ensures { result ≡ spec.live (state_of self.now) }
    {
        held_among(&self.core)
    }

    /// The moment of the last entry, in microseconds.
    pub fn moment(&self) -> u64
        ensures { result ≡ (state_of self.now).moment }
    {
        self.core.moment()
    }

    /// What its entries so far cost.
    pub fn cost(&self) -> u64
        ensures { result ≡ (state_of self.now).cost }
    {
        self.core.cost()
    }

    /// The place in the journal of the entry that comes next.
    pub fn place(&self) -> u64
        ensures { result ≡ length self.now.journal }
    {
        self.journal().entries().len() as u64
    }

    /// The most that its entries may cost.
    pub fn limit(&self) -> u64
        ensures { result ≡ self.now.config.settings.journal_limit }
    {
        self.config.settings().journal_limit
    }

    /// Why each entry is refused, where the journal is full.
    pub fn full(&self) -> Option<Refusal>
        ensures { result ≡ refused_as_full (state_of self.now) }
    {
        if !self.core.is_full() {
            return None;
        }
        Some(full_journal(&self.core))
    }

    /// Why a load is refused, where the journal has no room for one.
    pub fn full_for_load(&self) -> Option<Refusal>
        ensures { result ≡ refused_as_full_for_load (state_of self.now) }
    {
        if !self.core.is_full_for_load() {
            return None;
        }
        Some(full_journal(&self.core))
    }

    /// Whether the job of a number is there, and waits for a load.
    pub fn waits_for_load(&self, job: u64) -> bool
        ensures { result ≡ loading.waits_for_load job (state_of self.now) }
    {
        waits_for_load(&Seen::of(&self.core, self.core.moment()), job)
    }

    /// What is in force. Whoever has it while another dialplan comes into force drops it then, and the switch does not.
    pub fn in_force(&self) -> Result<InForce, Memory>
        ensures { IfOk result (λ found.
            ((arc_value found.config).contexts ≡ (state_of self.now).contexts)
            × (arc_value found.dialplan ≡ (state_of self.now).contexts)) }
    {
        Ok(InForce {
            config: self.core.in_force().clone()?,
            dialplan: self.dialplan.clone()?,
        })
    }

    /// Whether the switch comes to its end.
    pub fn stopping(&self) -> bool
        ensures { result ≡ is_some (state_of self.now).stopping }
    {
        self.core.stopping().is_some()
    }

    /// How many events there were of each name, and channels that were hung up with each cause.
    #[tactic(auto, using(crate::proofs::EventLemmas::count_laws))]
    pub fn counts(&self) -> &Counts
        ensures state { result.now ≡ (state_of self.now).counts }
        ensures all { CountsAll result.now (events_of (happened self.now)) }
        ensures events { CountsEvents result.now (events_of (happened self.now)) }
        ensures hangups { CountsHangups result.now (events_of (happened self.now)) }
    {
        self.core.counts()
    }

    /// Where a connection stands; one that is not there is closed.
    pub fn phase(&self, conn: u32) -> Phase
        ensures { result ≡ connections.phase_at (state_of self.now) conn }
    {
        phase_of(self.core.conn(conn))
    }

    /// Whether a connection reads commands.
    pub fn reads(&self, conn: u32) -> bool
        ensures { result ≡ reads (connections.phase_at (state_of self.now) conn) }
    {
        reads(self.phase(conn))
    }

    /// Why a connection reads no further command.
    pub fn parting(&self, conn: u32) -> Option<Parting>
        ensures { result ≡ spec.parting_at (state_of self.now) conn }
    {
        self.core.conn(conn)?.parting
    }

    /// Whether a connection is still owed the reply to a command.
    pub fn owes(&self, conn: u32) -> bool
        ensures { result ≡ spec.owes (state_of self.now) conn }
    {
        match self.core.conn(conn) {
            Some(there) => there.owed.is_some(),
            None => false,
        }
    }

    /// How many events a connection did not get that it wanted, because too many waited for it; also of one that is
    /// gone.
    pub fn lost(&self, conn: u32) -> u64
        ensures { result ≡ spec.lost (state_of self.now) conn }
    {
        self.core.losses().of(conn)
    }

    /// How many frames wait for a connection.
    pub fn waiting(&self, conn: u32) -> usize
        ensures { result ≡ length (waiting_for (state_of self.now) conn) }
    {
        self.core.waiting(conn)
    }
}

/// The place of the command to which a connection is still owed the reply.
pub(crate) fn owed_to(draft: &Draft<'_>, conn: u32) -> Option<u64>
    ensures { result ≡ spec.owed_to (drafted draft.now) conn }
{
    draft.conn(conn)?.owed
}

// How many slots hold a channel.
#[tactic(auto, using(crate::proofs::CountLemmas::count_rules))]
fn held_among(core: &Core) -> u16
    ensures { result ≡ spec.live core.now.switch }
{
    let mut count = 0;
    for slot in 0..core.slots() {
        if core.chan(slot).is_some() {
            count += 1;
        }
    }
    count
}
