//! How an actor stands, as a look finds it.

ghost use Rattle.std.specs.Prelude.{◌≡◌, true, IfOk};
ghost use Rattle.std.specs.Option.{option_copied};
ghost use Rattle.fs_machine.specs.Runs.{state_of};
ghost use Rattle.fs_session.specs.declared.standing.Standing.TheVariants.{Due};
ghost use Rattle.fs_session.specs.Working as spec;

use crate::actor::Actor;
use fs_book::Ask;
use fs_machine::{DueActor, Machine, Refusal, Snapshot};
use fs_text::{Memory, Txt};

/// How an actor stands at a moment.
#[derive(Drop)]
pub(crate) enum Standing {
    /// The journal is full, and so every entry is refused.
    Full(Refusal),
    /// The switch has come to its end, and nothing of the actor is left.
    Over,
    /// Its channel waits for the controller that this text names.
    Seeks(Txt),
    /// The channel in this slot is to be routed at once, and this is what its route rests on.
    Routes { slot: u16, seen: Snapshot },
    /// This is to be done, at once or later.
    Due(DueActor),
}

/// The question how an actor stands at a moment. It is not answered where there is no memory.
#[derive(Clone, Copy, Debug)]
pub(crate) struct StandingOf {
    pub(crate) actor: Actor,
    pub(crate) now: u64,
}

impl Ask<Machine> for StandingOf {
    ghost use Rattle.fs_session.specs.Working.{TellsActor};

    type Answer = Result<Standing, Memory>;

    ghost tells = { TellsActor };

    fn ask(&self, state: &Machine) -> Result<Standing, Memory> {
        state.sound();
        if let Some(refusal) = state.full() {
            return Ok(Standing::Full(refusal));
        }
        if is_over(self.actor, state) {
            return Ok(Standing::Over);
        }
        match sought_by(self.actor, state) {
            Some(text) => Ok(Standing::Seeks(text.copy()?)),
            None => due_standing(self.actor, self.now, state),
        }
    }
}

// Whether the switch has come to its end, and nothing of the actor is left. No job is left once it has.
#[tactic(auto, using(crate::proofs::WorkLemmas::no_jobs))]
fn is_over(actor: Actor, state: &Machine) -> bool
    ensures { result ≡ spec.is_over actor (state_of state.now) }
{
    state.sound();
    match actor {
        Actor::Slot(slot) => state.stopping() && !state.holds(slot),
        Actor::Jobs => state.stopping(),
    }
}

// The text that names the controller for whom the actor's channel waits, if it waits for one.
fn sought_by(actor: Actor, state: &Machine) -> Option<&Txt>
    ensures { option_copied result ≡ spec.sought_by actor (state_of state.now) }
{
    match actor {
        Actor::Slot(slot) => state.dial_text(slot),
        Actor::Jobs => None,
    }
}

// What the actor has to do, seen at a moment, where its channel waits for no controller.
fn due_standing(actor: Actor, now: u64, state: &Machine) -> Result<Standing, Memory>
    ensures stands { IfOk result (λ how. spec.plain how ≡ Due (spec.due_of actor now (state_of state.now))) }
    ensures routes { IfOk result (spec.IsOfDialplan state.now.config state.now.journal) }
{
    let due = due_at(actor, now, state);
    if let DueActor::Slot(slot) = due {
        if let Some(seen) = state.snapshot(now, slot)? {
            return Ok(Standing::Routes { slot, seen });
        }
    }
    Ok(Standing::Due(due))
}

// What the actor has to do, seen at a moment.
fn due_at(actor: Actor, now: u64, state: &Machine) -> DueActor
    ensures { result ≡ spec.due_of actor now (state_of state.now) }
{
    match actor {
        Actor::Slot(slot) => state.next_slot(slot, now),
        Actor::Jobs => state.next_job(now),
    }
}
