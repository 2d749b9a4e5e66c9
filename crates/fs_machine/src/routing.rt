//! Channels are routed by plans that were made beside the switch.

ghost use Rattle.std.specs.Prelude.{◌≡◌, ◌↔◌, [], ◌∷◌, ◌++◌, None, Some, false};
ghost use Rattle.std.specs.Prelude.{IfOk, IfErr, OnOk, MatchOption, IsTrue};
ghost use Rattle.fs_state.specs.Switch.{HasRoomWithin, at_moment};
ghost use Rattle.fs_machine.specs.Entries.{cost_with};
ghost use Rattle.fs_machine.specs.Routes as spec;
ghost use Rattle.fs_machine.specs.Runs.{state_of, IsSame, Changes, HasRoomFor};
ghost use Rattle.fs_machine.specs.Step.{step, refusal_of, IsRefusedFor};

use crate::controlling::part_left;
use crate::entry::{Act, Entry};
use crate::machine::{Change, Machine, judge};
use crate::refusal::{Refusal, RouteRefusal};
use crate::reply::Reply;
use crate::routes::{Plan, Snapshot};
use crate::touches::to_route;
use crate::work::{wall_of, work_by};
use fs_plan::Hunt;
use fs_state::{Blank, Core, Draft};
use fs_text::Memory;

impl Machine {
    /// What a route of the channel in a slot rests on at a moment, in microseconds. None where it is not to be routed,
    /// or was routed 70 times.
    pub fn snapshot(&self, now: u64, slot: u16) -> Result<Option<Snapshot>, Memory>
        ensures { IfOk result (λ seen. MatchOption seen (spec.is_routable slot (state_of self.now) ≡ false)
            (spec.Shows self.now now slot)) }
    {
        let Some(chan) = to_route(self.core.chan(slot)) else {
            return Ok(None);
        };
        if !chan.may_route() {
            return Ok(None);
        }
        Ok(Some(Snapshot {
            uuid: chan.uuid.copy()?,
            touched: self.touches.of(slot),
            reloads: self.core.reloads(),
            wall: wall_at(&self.core, now),
            dialplan: self.dialplan.clone()?,
            profile: chan.profile.copy()?,
            vars: chan.vars.copy()?,
            globals: self.core.globals().copy()?,
        }))
    }

    /// Enters the work of a slot at a moment, in microseconds, by a plan that was made for its channel. Where what the
    /// plan rests on is not what stands there any more, or other contexts came into force, or another minute, nothing
    /// changes, and no memory is taken.
    pub fn apply_route(&mut self, now: u64, slot: u16, plan: Plan) -> Result<Reply, RouteRefusal>
        requires { spec.Suits self.old.config self.old.journal plan }
        ensures refused { IfErr result (λ refusal. IsSame self.old self.new) }
        ensures cause { IfErr result (spec.IsRouteRefusal self.old now slot plan) }
        ensures current { OnOk result (spec.IsCurrent now slot plan (state_of self.old)) }
        ensures config { self.new.config ≡ self.old.config }
        ensures journal { OnOk result (self.new.journal ≡ self.old.journal ++ spec.work_at now slot ∷ []) }
        ensures reply { IfOk result (λ reply. reply ≡ (step (state_of self.old) (spec.work_at now slot)).reply) }
        ensures defined { OnOk result (refusal_of (state_of self.old) (spec.work_at now slot) ≡ None) }
        ensures free { OnOk result (HasRoomWithin self.old.config.settings.journal_limit (state_of self.old)) }
        ensures cost { OnOk result
            ((state_of self.new).cost ≡ cost_with (spec.work_at now slot).act (state_of self.old)) }
    {
        if !self.is_current(now, slot, &plan.seen) {
            return Err(RouteRefusal::Again {
                touched: self.touches.of(slot),
                reloads: self.core.reloads(),
                wall: wall_at(&self.core, now),
            });
        }
        match self.prepare_route(now, slot, plan) {
            Ok(change) => Ok(self.apply(change)),
            Err(refusal) => Err(RouteRefusal::Step(refusal)),
        }
    }

    // Whether what was seen is what stands there, with the contexts that are in force and the minute of a moment.
    fn is_current(&self, now: u64, slot: u16, seen: &Snapshot) -> bool
        ensures { IsTrue result ↔ spec.IsCurrentBy now slot seen.now (state_of self.now) }
    {
        is_current(&self.core, now, slot, seen)
    }

    // Judges the work of a slot, and prepares what it changes by a plan.
    fn prepare_route(&mut self, now: u64, slot: u16, plan: Plan) -> Result<Change, Refusal>
        requires suits { spec.Suits self.old.config self.old.journal plan }
        requires current { spec.IsCurrent now slot plan (state_of self.old) }
        ensures same { IsSame self.old self.new }
        ensures refused { IfErr result (IsRefusedFor (state_of self.old) (spec.work_at now slot)) }
        ensures free { OnOk result (HasRoomWithin self.old.config.settings.journal_limit (state_of self.old)) }
        ensures prepared { IfOk result (Changes (state_of self.old) (spec.work_at now slot)) }
        ensures room { IfOk result (λ change. HasRoomFor self.new change.delta) }
    {
        self.journal.make_room()?;
        let blank = self.take_blank()?;
        let change = prepare_hunted(&self.core, blank, now, slot, plan.into_hunt())?;
        self.core.make_room(&change.delta)?;
        Ok(change)
    }
}

// The minute of a state at a moment, which does not go back.
fn wall_at(core: &Core, now: u64) -> i64
    ensures { result ≡ spec.wall_at now core.now.switch }
{
    wall_of(core.moment().max(now))
}

// Whether what was seen is what stands in a state, with the contexts that are in force and the minute of a moment.
fn is_current(core: &Core, now: u64, slot: u16, seen: &Snapshot) -> bool
    ensures { IsTrue result ↔ spec.IsCurrentBy now slot seen.now core.now.switch }
{
    if seen.reloads != core.reloads() {
        return false;
    }
    if seen.wall != wall_at(core, now) {
        return false;
    }
    is_there(core, slot, seen)
}

// Whether what was seen is what the route of the channel in a slot rests on.
fn is_there(core: &Core, slot: u16, seen: &Snapshot) -> bool
    ensures { IsTrue result ↔ (spec.basis_at slot core.now.switch ≡ Some (spec.shown seen.now)) }
{
    let Some(chan) = to_route(core.chan(slot)) else {
        return false;
    };
    let alike = seen.shows(chan);
    alike && core.globals().is_same(&seen.globals)
}

// Judges the work of a slot over a state, and prepares what it changes by what a hunt has given.
#[tactic(auto, unfolding(crate::specs::Step::step))]
fn prepare_hunted(
    core: &Core,
    blank: Blank,
    now: u64,
    slot: u16,
    hunt: Hunt,
) -> Result<Change, Refusal>
    requires { spec.IsHunted slot hunt (at_moment now core.now.switch) }
    ensures refused { IfErr result (IsRefusedFor core.now.switch (spec.work_at now slot)) }
    ensures free { OnOk result (HasRoomWithin core.now.switch.settings.journal_limit core.now.switch) }
    ensures prepared { IfOk result (Changes core.now.switch (spec.work_at now slot)) }
{
    let entry = Entry {
        moment: now,
        act: Act::Work { slot },
    };
    judge(core, &entry)?;
    let mut draft = Draft::new(core, blank);
    draft.advance(now);
    work_by(&mut draft, slot, hunt)?;
    part_left(&mut draft)?;
    draft.post()?;
    let delta = draft.finish()?;
    Ok(Change {
        entry,
        delta,
        reply: Reply::Worked,
        dialplan: None,
    })
}
