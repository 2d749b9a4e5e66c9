//! Bridges that channels dial: how the legs are made for one, and what it does once a leg has won or all have failed.

ghost use Rattle.std.specs.Prelude.{◌≡◌, ◌<◌, ◌^◌, length, IfOk};
ghost use Rattle.std.specs.List.{list_any};
ghost use Rattle.std.specs.Option.{option_copied};
ghost use Rattle.fs_chan.specs.Exports.{names_of};
ghost use Rattle.fs_state.specs.Drafts.{drafted, Brings};
ghost use Rattle.fs_state.specs.Switch.{chan_at};
ghost use Rattle.fs_machine.specs.Bridging as spec;
ghost use Rattle.fs_machine.specs.Originations.{GroupComesTo};

use crate::channels::{ChanChange, change_chan};
use crate::originations::make_group;
use fs_bridge::BridgeKind;
use fs_chan::Chan;
use fs_orig::{Caller, LegGroup, LegPlan, OrigLegs};
use fs_state::Draft;
use fs_text::{Cause, Memory, Txt, read_u64};
use fs_vars::Vars;

// ---- the legs that a channel dials

/// Makes the legs of a group that the channel in a slot dials: each has the variables that the channel exports, and
/// its caller id.
pub(crate) fn dial_group(
    draft: &mut Draft<'_>,
    slot: u16,
    plans: &[LegPlan],
    orig: u64,
) -> Result<OrigLegs, Memory>
    requires { length plans.now < 2 ^ 32 }
    ensures base { draft.new.base ≡ draft.old.base }
    ensures made { IfOk result
        (GroupComesTo (spec.group_dialed (chan_at (drafted draft.old) slot) plans.now orig (drafted draft.old))
        (drafted draft.new)) }
{
    let alloc = draft.alloc();
    let Some(chan) = draft.chan(slot) else {
        return Ok(OrigLegs::new(alloc));
    };
    let caller = caller_of(chan)?;
    let exported = chan.exported_pairs(alloc)?;
    let group = LegGroup::behind(alloc, &exported, plans)?;
    make_group(draft, group.as_slice(), &caller, orig)
}

// Who calls: as the profile of the channel has it.
fn caller_of(chan: &Chan) -> Result<Caller, Memory>
    ensures { IfOk result (λ caller. caller ≡ spec.caller_of chan.now) }
{
    Ok(Caller {
        name: chan.profile.caller_id_name.copy()?,
        number: chan.profile.caller_id_number.copy()?,
    })
}

// ---- a failed bridge

/// Tells the channel in a slot that its bridge has failed: it goes on, or hangs up with the cause.
#[tactic(auto, unfolding(crate::specs::Bridging::after_bridge_failure))]
pub(crate) fn fail_bridge(draft: &mut Draft<'_>, slot: u16, cause: Cause) -> Result<(), Memory>
    ensures { Brings result draft.old draft.new (spec.after_bridge_failure cause slot (drafted draft.old)) }
{
    let Some(chan) = draft.chan(slot) else {
        return Ok(());
    };
    let onward = goes_on(cause, &chan.vars);
    dispose(draft, slot, cause.name().as_bytes())?;
    go_on_or_hang_up(draft, slot, onward, cause)
}

// Lets a channel go on, or hangs it up with the cause.
fn go_on_or_hang_up(
    draft: &mut Draft<'_>,
    slot: u16,
    onward: bool,
    cause: Cause,
) -> Result<(), Memory>
    ensures { Brings result draft.old draft.new (spec.after_going_on onward cause slot (drafted draft.old)) }
{
    if onward {
        draft.complete(slot)
    } else {
        draft.hang_up(slot, cause)
    }
}

// Tells the channel in a slot what came of its origination.
fn dispose(draft: &mut Draft<'_>, slot: u16, text: &[u8]) -> Result<(), Memory>
    ensures { Brings result draft.old draft.new (spec.disposed text.now slot (drafted draft.old)) }
{
    let Some(mut chan) = draft.own_chan(slot)? else {
        return Ok(());
    };
    chan.tell_disposition(text)?;
    draft.put_chan(slot, Some(chan))
}

// Whether a channel goes on behind a bridge that failed of a cause.
fn goes_on(cause: Cause, vars: &Vars) -> bool
    ensures { result ≡ spec.goes_on cause vars.now }
{
    is_passed_over(cause) || lets_go_on(cause, vars.get(b"continue_on_fail"))
}

// Whether the channel goes on in any case.
fn is_passed_over(cause: Cause) -> bool
    ensures { result ≡ spec.is_passed_over cause }
{
    matches!(
        cause,
        Cause::NoAnswer | Cause::NoUserResponse | Cause::OriginatorCancel
    )
}

// Whether a value is `true`, or a list with the cause.
fn lets_go_on(cause: Cause, value: Option<&Txt>) -> bool
    ensures { result ≡ spec.lets_go_on cause (option_copied value.entry) }
{
    match value {
        Some(value) => {
            value.as_bytes() == b"true".as_slice() || lists_cause(cause, value.as_bytes())
        }
        None => false,
    }
}

// Whether a word of a comma list names the cause, or is its number.
fn lists_cause(cause: Cause, list: &[u8]) -> bool
    ensures { result ≡ list_any (spec.says_cause cause) (names_of list.now) }
{
    list.split(|byte| *byte == b',')
        .any(|word| says_cause(cause, word))
}

// Whether a word names a cause, or is its number.
fn says_cause(cause: Cause, word: &[u8]) -> bool
    ensures { result ≡ spec.says_cause cause word.now }
{
    word == cause.name().as_bytes() || read_u64(word) == Some(u64::from(cause.number()))
}

// ---- a bridge that is won

/// Joins the channel in a slot to the leg that has won; it is answered first, where it was not.
#[tactic(auto, unfolding(crate::specs::Bridging::after_bridge_win))]
pub(crate) fn win_bridge(draft: &mut Draft<'_>, slot: u16, leg: u16) -> Result<(), Memory>
    ensures { Brings result draft.old draft.new (spec.after_bridge_win slot leg (drafted draft.old)) }
{
    draft.answer(slot)?;
    dispose(draft, slot, b"SUCCESS")?;
    join_to_leg(draft, slot, leg)
}

// Joins the channel in a slot to a leg, which comes into the media of their bridge, where they can be joined.
fn join_to_leg(draft: &mut Draft<'_>, slot: u16, leg: u16) -> Result<(), Memory>
    ensures { Brings result draft.old draft.new (spec.joined_to_leg slot leg (drafted draft.old)) }
{
    if !draft.can_join(slot, leg) {
        return Ok(());
    }
    draft.join(BridgeKind::Dial, slot, leg)?;
    change_chan(draft, leg, ChanChange::EnterMedia)
}
