//! A load that was read and built beside the switch is entered.

ghost use Rattle.std.specs.Prelude.{◌≡◌, [], ◌∷◌, ◌++◌, None, Some, IfOk, IfErr, OnOk};
ghost use Rattle.fs_state.specs.Switch.{HasRoomWithin};
ghost use Rattle.fs_machine.specs.Entries.{cost_with};
ghost use Rattle.fs_machine.specs.Loading as spec;
ghost use Rattle.fs_machine.specs.declared.note.LoadNote.{LoadNote};
ghost use Rattle.fs_machine.specs.Runs.{state_of, IsSame, Changes, HasRoomFor};
ghost use Rattle.fs_machine.specs.Step.{step, refusal_of, IsRefusedFor};

use crate::controlling::part_left;
use crate::entry::{Act, Entry};
use crate::loading::NewPlan;
use crate::machine::{Change, Machine, full_journal};
use crate::refusal::Refusal;
use crate::refused::refused_load;
use crate::reloading::note_load;
use crate::reply::Reply;
use fs_state::{Blank, Core, Draft, Seen};

impl Machine {
    /// Notes a load for the job of a number at a moment, in microseconds: its document comes into force, unless it is
    /// refused, and the job ends with the answer.
    pub fn apply_load(&mut self, now: u64, job: u64, load: NewPlan) -> Result<Reply, Refusal>
        requires { spec.IsLoad load }
        ensures refused { IfErr result (λ r. IsSame self.old self.new) }
        ensures cause { IfErr result (IsRefusedFor (state_of self.old) (spec.load_at now job load.note)) }
        ensures config { self.new.config ≡ self.old.config }
        ensures journal { OnOk result (self.new.journal ≡ self.old.journal ++ spec.load_at now job load.note ∷ []) }
        ensures reply { IfOk result
            (λ reply. reply ≡ (step (state_of self.old) (spec.load_at now job load.note)).reply) }
        ensures defined { OnOk result (refusal_of (state_of self.old) (spec.load_at now job load.note) ≡ None) }
        ensures free { OnOk result (HasRoomWithin self.old.config.settings.journal_limit (state_of self.old)) }
        ensures cost { OnOk result
            ((state_of self.new).cost ≡ cost_with (spec.load_at now job load.note).act (state_of self.old)) }
    {
        let change = self.prepare_load(now, job, load)?;
        Ok(self.apply(change))
    }

    // Judges a load, and prepares what it changes.
    fn prepare_load(&mut self, now: u64, job: u64, load: NewPlan) -> Result<Change, Refusal>
        requires { spec.IsLoad load }
        ensures same { IsSame self.old self.new }
        ensures refused { IfErr result (IsRefusedFor (state_of self.old) (spec.load_at now job load.note)) }
        ensures free { OnOk result (HasRoomWithin self.old.config.settings.journal_limit (state_of self.old)) }
        ensures prepared { IfOk result (Changes (state_of self.old) (spec.load_at now job load.note)) }
        ensures room { IfOk result (λ change. HasRoomFor self.new change.delta) }
    {
        self.journal.make_room()?;
        let blank = self.take_blank()?;
        let change = prepare_loaded(&self.core, blank, now, job, load)?;
        self.core.make_room(&change.delta)?;
        Ok(change)
    }
}

// Judges a load over a state: whether it is refused, and why.
#[tactic(auto, unfolding(crate::specs::Step::refusal_of))]
fn judge_load(core: &Core, now: u64, job: u64) -> Result<(), Refusal>
    ensures refused { IfErr result (λ refusal. (note : LoadNote) →
        refusal_of core.now.switch (spec.load_at now job note) ≡ Some refusal) }
    ensures free { OnOk result (HasRoomWithin core.now.switch.settings.journal_limit core.now.switch) }
    ensures defined { OnOk result ((note : LoadNote) → refusal_of core.now.switch (spec.load_at now job note) ≡ None) }
{
    if core.is_full_for_load() {
        return Err(full_journal(core));
    }
    match refused_load(&Seen::of(core, now), job) {
        Some(refusal) => Err(refusal),
        None => Ok(()),
    }
}

// Judges a load over a state, and prepares what it changes.
#[tactic(auto, unfolding(crate::specs::Step::step))]
fn prepare_loaded(
    core: &Core,
    blank: Blank,
    now: u64,
    job: u64,
    load: NewPlan,
) -> Result<Change, Refusal>
    requires { spec.IsLoad load }
    ensures refused { IfErr result (IsRefusedFor core.now.switch (spec.load_at now job load.note)) }
    ensures free { OnOk result (HasRoomWithin core.now.switch.settings.journal_limit core.now.switch) }
    ensures prepared { IfOk result (Changes core.now.switch (spec.load_at now job load.note)) }
{
    judge_load(core, now, job)?;
    let (note, built, fault) = load.into_parts();
    let mut draft = Draft::new(core, blank);
    draft.advance(now);
    let dialplan = note_load(&mut draft, job, &note, built, fault)?;
    part_left(&mut draft)?;
    draft.post()?;
    let delta = draft.finish()?;
    Ok(Change {
        entry: Entry {
            moment: now,
            act: Act::Loaded { job, note },
        },
        delta,
        reply: Reply::Worked,
        dialplan,
    })
}
