//! What applications do, and how a channel runs what is next.

ghost use Rattle.std.specs.Prelude.{◌≡◌, true, Some, IfOk};
ghost use Rattle.fs_vars.specs.Pairs.{Pairs};
ghost use Rattle.fs_vars.specs.Expansion.{expanded};
ghost use Rattle.fs_state.specs.Drafts.{drafted, Brings};
ghost use Rattle.fs_state.specs.Moves.{after_move, after_answer, after_completion};
ghost use Rattle.fs_chan.specs.Work.{after_next};
ghost use Rattle.fs_app.specs.Applications.{IsShortApplication};
ghost use Rattle.fs_machine.specs.Applications as spec;

use crate::channels::{ChanChange, change_chan};
use crate::controlling::seek_controller;
use crate::dialing::dial_bridge;
use crate::queueing::{answer_queue, enter_queue};
use fs_app::Application;
use fs_chan::{Action, Assignment, Chan};
use fs_state::Draft;
use fs_text::{Cause, Memory, State, Txt, offset_of};
use fs_vars::{Refused, Scope, expand};

/// The most bytes of an argument.
const LONGEST_ARGUMENT: usize = 65_536;

/// Runs what a channel is to run next, which is used up; a channel that has nothing to run is hung up.
#[tactic(auto, unfolding(crate::specs::Applications::after_running))]
pub(crate) fn run_next(draft: &mut Draft<'_>, slot: u16) -> Result<(), Memory>
    ensures { Brings result draft.old draft.new (spec.after_running slot (drafted draft.old)) }
{
    let Some(chan) = draft.chan(slot) else {
        return Ok(());
    };
    let Some(action) = chan.next_action() else {
        return draft.hang_up(slot, Cause::NormalClearing);
    };
    let argument = argument_in(draft, chan, &action.argument)?;
    let application = action.application.copy()?;
    execute_within(draft, slot, application, argument)
}

/// Expands an argument over what a channel knows, unless it gets too long. One that stands as it is written is shared.
#[tactic(auto, unfolding(fs_vars::specs::Scopes::known_in))]
pub(crate) fn argument_in(draft: &Draft<'_>, chan: &Chan, text: &Txt) -> Result<Option<Txt>, Memory>
    ensures { IfOk result (λ found. found ≡ spec.argument_in chan.now (drafted draft.now) text.now) }
{
    if is_plain(text.as_bytes()) {
        return Ok(Some(text.copy()?));
    }
    let scope = Scope {
        vars: &*chan.vars,
        profile: &*chan.profile,
        globals: draft.globals(),
    };
    match expand(draft.alloc(), &scope, text.as_bytes()) {
        Ok(argument) => Ok(Some(argument)),
        Err(Refused::TooLong { .. }) => Ok(None),
        Err(Refused::Memory) => Err(Memory),
    }
}

// Whether an argument has nothing to expand, and is not too long.
#[tactic(auto, using(crate::proofs::ArgumentLemmas::plain_stands))]
fn is_plain(text: &[u8]) -> bool
    ensures { result ≡ true
        → (known : Pairs) → spec.unless_too_long (expanded known text.now) ≡ Some text.now }
{
    text.len() <= LONGEST_ARGUMENT && offset_of(b'$', text) == text.len()
}

// Runs what a channel is to run next, which is used up, unless its argument is too long.
fn execute_within(
    draft: &mut Draft<'_>,
    slot: u16,
    application: Txt,
    argument: Option<Txt>,
) -> Result<(), Memory>
    ensures { Brings result draft.old draft.new
        (spec.executed_within application argument slot (after_move after_next slot (drafted draft.old))) }
{
    match argument {
        Some(argument) => execute(draft, slot, application, argument),
        None => {
            change_chan(draft, slot, ChanChange::Pass)?;
            draft.hang_up(slot, Cause::NormalTemporaryFailure)
        }
    }
}

// Begins an application that a channel is to run next, and applies its effect.
fn execute(draft: &mut Draft<'_>, slot: u16, application: Txt, argument: Txt) -> Result<(), Memory>
    ensures { Brings result draft.old draft.new
        (spec.after_execution application argument slot (after_move after_next slot (drafted draft.old))) }
{
    let asked = Application::of(draft.alloc(), application.as_bytes(), argument.as_bytes())?;
    draft.begin_next(
        slot,
        Action {
            application,
            argument,
        },
    )?;
    apply_effect(draft, slot, &asked)
}

// Applies the effect of an application in a slot.
fn apply_effect(draft: &mut Draft<'_>, slot: u16, asked: &Application) -> Result<(), Memory>
    requires { IsShortApplication asked.now }
    ensures { Brings result draft.old draft.new (spec.after_effect asked.now slot (drafted draft.old)) }
{
    match asked {
        Application::Answer => answer(draft, slot),
        Application::Assign { how, argument } => assign(draft, slot, *how, argument),
        Application::Eval => draft.complete(slot),
        Application::Sleep { milliseconds } => sleep(draft, slot, *milliseconds),
        Application::Hangup { cause } => draft.hang_up(slot, *cause),
        Application::Bridge { dial } => dial_bridge(draft, slot, dial),
        Application::Park => park(draft, slot),
        Application::Transfer { to } => draft.transfer(slot, to.copy()?),
        Application::FifoIn { name } => enter_queue(draft, slot, name),
        Application::FifoOut { name, waits } => answer_queue(draft, slot, name, *waits),
        Application::Socket { target } => seek_controller(draft, slot, target),
        Application::Unknown => draft.hang_up(slot, Cause::DestinationOutOfOrder),
    }
}

// Answers a channel, which goes on at once.
fn answer(draft: &mut Draft<'_>, slot: u16) -> Result<(), Memory>
    ensures { Brings result draft.old draft.new (after_completion slot (after_answer slot (drafted draft.old))) }
{
    draft.answer(slot)?;
    draft.complete(slot)
}

// Sets a global, or sets a variable or takes it out, where no limit is passed; the channel goes on at once.
fn assign(draft: &mut Draft<'_>, slot: u16, how: Assignment, argument: &Txt) -> Result<(), Memory>
    ensures { Brings result draft.old draft.new
        (after_completion slot (spec.after_assignment how argument.now slot (drafted draft.old))) }
{
    match how {
        Assignment::SetGlobal => {
            let mut globals = draft.globals().copy()?;
            how.apply(draft.alloc(), argument.as_bytes(), &mut globals)?;
            draft.set_globals(globals)?;
        }
        _ => change_chan(draft, slot, ChanChange::Assign { how, argument })?,
    }
    draft.complete(slot)
}

// Lets a channel sleep, unless the time is none.
fn sleep(draft: &mut Draft<'_>, slot: u16, milliseconds: u64) -> Result<(), Memory>
    ensures { Brings result draft.old draft.new (spec.after_sleep milliseconds slot (drafted draft.old)) }
{
    if milliseconds == 0 {
        return draft.complete(slot);
    }
    let now = draft.moment();
    change_chan(draft, slot, ChanChange::Sleep { now, milliseconds })
}

// Parks a channel, unless it is parked.
fn park(draft: &mut Draft<'_>, slot: u16) -> Result<(), Memory>
    ensures { Brings result draft.old draft.new (spec.after_park slot (drafted draft.old)) }
{
    match state_at(draft, slot) {
        None => Ok(()),
        Some(State::CsPark) => draft.complete(slot),
        Some(_) => draft.park(slot),
    }
}

// The state of the channel in a slot.
fn state_at(draft: &Draft<'_>, slot: u16) -> Option<State>
    ensures { result ≡ spec.state_at slot (drafted draft.now) }
{
    Some(draft.chan(slot)?.state)
}
