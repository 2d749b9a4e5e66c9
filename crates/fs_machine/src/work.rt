//! What a channel does by itself, state by state.

ghost use Rattle.std.specs.Prelude.{◌≡◌, ◌/◌, pos, true, Some, IfSome, IfOk, OnOk};
ghost use Rattle.fs_chan.specs.Changes as changes;
ghost use Rattle.fs_chan.specs.Changes.{may_route};
ghost use Rattle.fs_chan.specs.declared.wait.Wait.TheVariants.{Legs};
ghost use Rattle.fs_state.specs.Drafts.{drafted, Brings};
ghost use Rattle.fs_state.specs.Switch.{chan_at};
ghost use Rattle.fs_state.specs.Moves.{after_move};
ghost use Rattle.fs_machine.specs.Routes.{IsHunted};
ghost use Rattle.fs_machine.specs.Work as spec;

use crate::applications::run_next;
use crate::attempts::{Attempt, Party, judge_attempt};
use crate::queueing::take_caller;
use fs_chan::{Actions, Chan, Direction, Wait};
use fs_plan::{Dialplan, Hunt};
use fs_ports::NoGate;
use fs_seats::Boxed;
use fs_state::Draft;
use fs_text::{Cause, Memory, State};
use fs_vars::{Refused, Scope, Vars};

/// A minute, in microseconds.
const MINUTE: u64 = 60_000_000;

/// Does what the channel in a slot has to do by itself.
#[tactic(auto, unfolding(crate::specs::Work::after_work))]
pub(crate) fn work(draft: &mut Draft<'_>, dialplan: &Dialplan, slot: u16) -> Result<(), Memory>
    requires dialplan { dialplan.now ≡ (drafted draft.old).contexts }
    ensures { Brings result draft.old draft.new (spec.after_work slot (drafted draft.old)) }
{
    let Some(chan) = draft.chan(slot) else {
        return Ok(());
    };
    match (chan.state, &chan.wait) {
        (State::CsNew, _) => draft.begin(slot),
        (State::CsInit, _) => {
            let first = first_state(chan.direction);
            draft.enter(slot, first)
        }
        (State::CsRouting, _) => route(draft, dialplan, slot),
        (State::CsExecute | State::CsPark, Wait::Sleep { .. }) => draft.complete(slot),
        (State::CsExecute | State::CsPark, Wait::Ready | Wait::Parked | Wait::Socket { .. }) =>
            run_next(draft, slot),
        (State::CsExecute | State::CsPark, Wait::FifoOut { name }) => {
            let name = name.copy()?;
            take_caller(draft, slot, &name, true)
        }
        (State::CsExecute | State::CsPark, Wait::Legs { orig }) => {
            let orig = *orig;
            judge_dialed(draft, slot, orig)
        }
        (State::CsHangup, _) => draft.report(slot),
        (State::CsReporting, _) => draft.destroy(slot),
        _ => Ok(()),
    }
}

// Does what the verdict on the origination says that the channel in a slot waits for.
fn judge_dialed(draft: &mut Draft<'_>, slot: u16, orig: u64) -> Result<(), Memory>
    ensures { Brings result draft.old draft.new (spec.after_wait (Legs orig) slot (drafted draft.old)) }
{
    let party = Party::Slot { slot };
    judge_attempt(draft, &Attempt { orig, party })
}

// An inbound channel is routed, an outbound one waits to be answered.
fn first_state(direction: Direction) -> State
    ensures { result ≡ spec.first_state direction }
{
    match direction {
        Direction::Inbound => State::CsRouting,
        Direction::Outbound => State::CsConsumeMedia,
    }
}

// Routes a channel, unless it was routed too often.
fn route(draft: &mut Draft<'_>, dialplan: &Dialplan, slot: u16) -> Result<(), Memory>
    requires dialplan { dialplan.now ≡ (drafted draft.old).contexts }
    ensures { Brings result draft.old draft.new (spec.after_routing slot (drafted draft.old)) }
{
    let Some(chan) = draft.chan(slot) else {
        return Ok(());
    };
    if !chan.may_route() {
        return draft.hang_up(slot, Cause::ExchangeRoutingError);
    }
    let xml = has_xml(chan);
    match hunt_for(draft, dialplan, chan)? {
        Some(hunt) => take_hunt(draft, slot, xml, hunt),
        None => draft.hang_up(slot, too_long_cause(xml)),
    }
}

/// Does what the channel in a slot has to do by itself that is to be routed, by what a hunt for it has given.
pub(crate) fn work_by(draft: &mut Draft<'_>, slot: u16, hunt: Hunt) -> Result<(), Memory>
    requires { IsHunted slot hunt (drafted draft.old) }
    ensures { Brings result draft.old draft.new (spec.after_work slot (drafted draft.old)) }
{
    route_by(draft, slot, hunt)
}

// Routes a channel by what a hunt for it has given, unless it was routed too often.
fn route_by(draft: &mut Draft<'_>, slot: u16, hunt: Hunt) -> Result<(), Memory>
    requires { IfSome (chan_at (drafted draft.old) slot) (λ c. spec.found_for c (drafted draft.old) ≡ Some hunt) }
    ensures { Brings result draft.old draft.new (spec.after_routing slot (drafted draft.old)) }
{
    let Some(chan) = draft.chan(slot) else {
        return Ok(());
    };
    if !chan.may_route() {
        return draft.hang_up(slot, Cause::ExchangeRoutingError);
    }
    let xml = has_xml(chan);
    take_hunt(draft, slot, xml, hunt)
}

// Why a channel is hung up for which a text is too long: one with the dialplan of the documents, or another.
fn too_long_cause(xml: bool) -> Cause
    ensures { result ≡ spec.too_long_cause xml }
{
    if xml {
        Cause::NormalTemporaryFailure
    } else {
        Cause::NoRouteDestination
    }
}

// Whether a channel has the dialplan that the documents have.
fn has_xml(chan: &Chan) -> bool
    ensures { result ≡ spec.has_xml chan.now }
{
    chan.profile.dialplan.as_bytes() == b"XML".as_slice()
}

// What the dialplan gives a channel, unless a text is too long.
fn hunt_for(draft: &Draft<'_>, dialplan: &Dialplan, chan: &Chan) -> Result<Option<Hunt>, Memory>
    requires dialplan { dialplan.now ≡ (drafted draft.now).contexts }
    ensures { IfOk result (λ found. found ≡ spec.found_for chan.now (drafted draft.now)) }
{
    let vars = &*chan.vars;
    let profile = &*chan.profile;
    let scope = Scope {
        vars,
        profile,
        globals: draft.globals(),
    };
    let context = profile.context.as_bytes();
    let wall = wall_of(draft.moment());
    match dialplan.hunt(draft.alloc(), &scope, context, wall, &mut NoGate) {
        Ok(hunt) => Ok(Some(hunt)),
        Err(Refused::TooLong { .. }) => Ok(None),
        Err(Refused::Memory) => Err(Memory),
    }
}

/// The minute of a moment, in microseconds.
pub(crate) fn wall_of(moment: u64) -> i64
    ensures { result ≡ pos (moment / 60000000) }
{
    (moment / MINUTE) as i64
}

// Takes over what the hunt gave: the actions are to be run; without any, or in another dialplan, there is no route.
fn take_hunt(draft: &mut Draft<'_>, slot: u16, xml: bool, hunt: Hunt) -> Result<(), Memory>
    requires may { IfSome (chan_at (drafted draft.old) slot) (λ c. may_route c ≡ true) }
    ensures { Brings result draft.old draft.new (spec.after_hunt xml hunt slot (drafted draft.old)) }
{
    let (actions, vars, globals) = hunt.into_parts();
    draft.set_globals(globals)?;
    if xml && !actions.is_empty() {
        return take_actions(draft, slot, vars, actions);
    }
    take_variables(draft, slot, vars)?;
    draft.hang_up(slot, Cause::NoRouteDestination)
}

// Routes the channel in a slot once more: these actions are to be run, with these variables.
fn take_actions(
    draft: &mut Draft<'_>,
    slot: u16,
    vars: Vars,
    actions: Actions,
) -> Result<(), Memory>
    requires may { IfSome (chan_at (drafted draft.old) slot) (λ c. may_route c ≡ true) }
    ensures { Brings result draft.old draft.new (after_move (changes.routed vars actions) slot (drafted draft.old)) }
{
    let Some(mut moving) = draft.take_up(slot)? else {
        return Ok(());
    };
    route_chan(&mut moving.chan, vars, actions)?;
    draft.put_back(moving)
}

// Gives the channel in a slot these variables.
fn take_variables(draft: &mut Draft<'_>, slot: u16, vars: Vars) -> Result<(), Memory>
    ensures { Brings result draft.old draft.new (after_move (spec.with_variables vars) slot (drafted draft.old)) }
{
    let Some(mut moving) = draft.take_up(slot)? else {
        return Ok(());
    };
    moving.chan.vars.put(vars)?;
    draft.put_back(moving)
}

// Routes a channel once more.
fn route_chan(chan: &mut Chan, vars: Vars, actions: Actions) -> Result<(), Memory>
    requires may { may_route chan.old ≡ true }
    ensures { OnOk result (chan.new ≡ changes.routed vars actions chan.old) }
{
    chan.route(vars, actions)?;
    Ok(())
}
