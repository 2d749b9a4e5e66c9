//! How a channel begins to dial a bridge.

ghost use Rattle.std.specs.Prelude.{◌≡◌, Ok, IfOk};
ghost use Rattle.fs_dial.specs.DialStrings.{dial_of};
ghost use Rattle.fs_state.specs.Drafts.{drafted, Brings};
ghost use Rattle.fs_machine.specs.Dialing as spec;

use crate::attempts::{DEFAULT_TIMEOUT, begin_orig, first_group};
use crate::bridging::{dial_group, fail_bridge};
use crate::channels::{ChanChange, change_chan};
use fs_dial::{DialKind, DialString, parse};
use fs_orig::{LegPlans, Owner, braces_timeout, seconds_of};
use fs_state::Draft;
use fs_text::{Cause, Memory, Txt};
use fs_vars::Vars;
use std::alloc::Global;

/// Lets the channel in a slot dial the legs of a dial string; a fault in it is a failed bridge.
#[tactic(auto, unfolding(crate::specs::Dialing::after_dialing))]
pub(crate) fn dial_bridge(draft: &mut Draft<'_>, slot: u16, text: &Txt) -> Result<(), Memory>
    ensures { Brings result draft.old draft.new (spec.after_dialing text.now slot (drafted draft.old)) }
{
    match parse(draft.alloc(), text.as_bytes()) {
        Ok(dial) => dial_legs(draft, slot, &dial),
        Err(fault) if fault.kind == DialKind::Memory => Err(Memory),
        Err(_fault) => fail_bridge(draft, slot, Cause::InvalidNumberFormat),
    }
}

// Tries the legs of a dial string that has no fault; the channel owns the origination, and waits for the verdict.
fn dial_legs(draft: &mut Draft<'_>, slot: u16, dial: &DialString<'_>) -> Result<(), Memory>
    ensures { Brings result draft.old draft.new (spec.bridge_dialed (Ok (dial_of dial.now)) slot (drafted draft.old)) }
{
    let alloc = draft.alloc();
    let Some(chan) = draft.chan(slot) else {
        return Ok(());
    };
    let timeout = bridge_timeout(alloc, dial, &chan.vars)?;
    let groups = LegPlans::of(alloc, dial)?;
    let orig = draft.next_orig();
    let legs = dial_group(draft, slot, first_group(&groups), orig)?;
    begin_orig(draft, Owner::Slot(slot), groups, legs, timeout)?;
    change_chan(draft, slot, ChanChange::AwaitLegs { orig })
}

// How many seconds a bridge has: as the braces say it, or else the variables, or else a minute.
fn bridge_timeout(alloc: Global, dial: &DialString<'_>, vars: &Vars) -> Result<u64, Memory>
    ensures { IfOk result (λ seconds. seconds ≡ spec.bridge_timeout (dial_of dial.now) vars.now) }
{
    let seconds = match braces_timeout(alloc, dial)? {
        Some(seconds) => Some(seconds),
        None => call_timeout(vars),
    };
    Ok(seconds.unwrap_or(DEFAULT_TIMEOUT))
}

// How many seconds a bridge has as the variables say it.
fn call_timeout(vars: &Vars) -> Option<u64>
    ensures { result ≡ spec.call_timeout vars.now }
{
    seconds_of(vars.get(b"call_timeout")?.as_bytes())
}
