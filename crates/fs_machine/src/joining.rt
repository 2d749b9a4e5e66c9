//! How a command joins two channels.

ghost use Rattle.std.specs.Prelude.{◌≡◌, None, Some, IfOk};
ghost use Rattle.std.specs.Option.{option_copied};
ghost use Rattle.fs_state.specs.Drafts.{drafted, Brings};
ghost use Rattle.fs_state.specs.Moves.{with_changed_chan};
ghost use Rattle.fs_state.specs.Switch.{chan_at};
ghost use Rattle.fs_chan.specs.Bridging.{at_leisure};
ghost use Rattle.fs_machine.specs.Done.{ComesTo};
ghost use Rattle.fs_machine.specs.Joining as spec;
ghost use Rattle.fs_machine.specs.Texts as texts;

use crate::channels::awaited_at;
use crate::texts::{made_text, says};
use fs_bridge::BridgeKind;
use fs_state::{Draft, QueueAction};
use fs_text::{Memory, State, Txt};
use std::alloc::Global;

/// Joins the live channels of two identifiers, and replies whether it did.
#[tactic(auto, unfolding(crate::specs::Joining::uuid_bridge_done))]
pub(crate) fn bridge_channels(
    draft: &mut Draft<'_>,
    uuid: &Txt,
    other: &Txt,
) -> Result<Option<Txt>, Memory>
    ensures base { draft.new.base ≡ draft.old.base }
    ensures done { IfOk result
        (ComesTo (spec.uuid_bridge_done uuid.now other.now (drafted draft.old)) (drafted draft.new)) }
{
    let one = draft.slot_named(uuid.as_bytes());
    let two = draft.slot_named(other.as_bytes());
    bridge_found(draft, one, two, other)
}

// Joins the channels in two slots, if there are such.
fn bridge_found(
    draft: &mut Draft<'_>,
    one: Option<u16>,
    two: Option<u16>,
    other: &Txt,
) -> Result<Option<Txt>, Memory>
    ensures base { draft.new.base ≡ draft.old.base }
    ensures done { IfOk result
        (ComesTo (spec.bridge_done_at one two other.now (drafted draft.old)) (drafted draft.new)) }
{
    let Some(a) = one else {
        return no_channel(draft.alloc());
    };
    let Some(b) = two else {
        return no_channel(draft.alloc());
    };
    bridge_slots(draft, a, b, other)
}

/// Answers that there is no such channel.
#[tactic(auto, unfolding(crate::specs::Texts::no_channel))]
pub(crate) fn no_channel(alloc: Global) -> Result<Option<Txt>, Memory>
    ensures { IfOk result (λ said. said ≡ Some texts.no_channel) }
{
    says(alloc, b"-ERR No such channel!\n")
}

// Joins the channels in two slots, unless something stands in the way.
fn bridge_slots(draft: &mut Draft<'_>, a: u16, b: u16, other: &Txt) -> Result<Option<Txt>, Memory>
    ensures base { draft.new.base ≡ draft.old.base }
    ensures done { IfOk result
        (ComesTo (spec.bridged_unless (spec.in_the_way a b (drafted draft.old)) a b other.now (drafted draft.old))
        (drafted draft.new)) }
{
    match in_the_way(draft, a, b) {
        Some(reply) => says(draft.alloc(), reply),
        None => {
            let both = both_slots(draft.alloc(), a, b)?;
            depart(draft, &both)?;
            join_both(draft, a, b, other)
        }
    }
}

// ---- what stands in the way

// Why the channels in two slots cannot be joined.
fn in_the_way(draft: &Draft<'_>, a: u16, b: u16) -> Option<&'static [u8]>
    ensures { option_copied result ≡ spec.in_the_way a b (drafted draft.now) }
{
    if a == b {
        Some(b"-ERR Same channel!\n")
    } else if !(is_ready(draft, a) && is_ready(draft, b)) {
        Some(b"-ERR Channel not ready!\n")
    } else if !(is_answered(draft, a) && is_answered(draft, b)) {
        Some(b"-ERR Channel not answered!\n")
    } else {
        None
    }
}

/// Whether the channel in a slot has begun, and is no leg of an origination that is not yet decided.
pub(crate) fn is_ready(draft: &Draft<'_>, slot: u16) -> bool
    ensures { result ≡ spec.is_ready (chan_at (drafted draft.now) slot) }
{
    match draft.chan(slot) {
        Some(chan) => !is_early(chan.state) && chan.leg_of.is_none(),
        None => false,
    }
}

fn is_early(state: State) -> bool
    ensures { result ≡ spec.is_early state }
{
    matches!(state, State::CsNew | State::CsInit)
}

// Whether the channel in a slot is answered.
fn is_answered(draft: &Draft<'_>, slot: u16) -> bool
    ensures { result ≡ spec.is_answered (chan_at (drafted draft.now) slot) }
{
    match draft.chan(slot) {
        Some(chan) => chan.answered.is_some(),
        None => false,
    }
}

// ---- leaving

/// Lets the channels in these slots, which differ, leave all that they were in, unless they die of that.
///
/// First the legs that they dialed are hung up, with all whom that drags along; then their bridges end, with what comes
/// of that; and then each of them gives up what it dialed and its queue, and runs and waits for nothing.
pub(crate) fn depart(draft: &mut Draft<'_>, slots: &[u16]) -> Result<(), Memory>
    ensures { Brings result draft.old draft.new (spec.after_departures slots.now (drafted draft.old)) }
{
    draft.leave_others(slots)?;
    bid_farewells(draft, slots)
}

// Lets the channels in these slots bid farewell, one after another.
fn bid_farewells(draft: &mut Draft<'_>, slots: &[u16]) -> Result<(), Memory>
    ensures { Brings result draft.old draft.new (spec.after_farewells slots.now (drafted draft.old)) }
{
    for slot in slots {
        bid_farewell(draft, *slot)?;
    }
    Ok(())
}

// Gives up what the channel in a slot dialed and waits for, and tells of the queue in which it waited.
fn bid_farewell(draft: &mut Draft<'_>, slot: u16) -> Result<(), Memory>
    ensures { Brings result draft.old draft.new (spec.after_farewell slot (drafted draft.old)) }
{
    let queue = draft.queue_at(slot)?;
    leave(draft, slot)?;
    tell_queue_left(draft, slot, queue)
}

// Gives up what the channel in a slot dialed; it runs and waits for nothing.
fn leave(draft: &mut Draft<'_>, slot: u16) -> Result<(), Memory>
    ensures { Brings result draft.old draft.new (spec.after_leaving slot (drafted draft.old)) }
{
    let awaited = awaited_at(draft, slot);
    draft.give_up_orig(slot, awaited)?;
    set_at_leisure(draft, slot)
}

// The channel in a slot runs and waits for nothing.
fn set_at_leisure(draft: &mut Draft<'_>, slot: u16) -> Result<(), Memory>
    ensures { Brings result draft.old draft.new (with_changed_chan at_leisure slot (drafted draft.old)) }
{
    let Some(mut chan) = draft.own_chan(slot)? else {
        return Ok(());
    };
    chan.leave_all();
    draft.put_chan(slot, Some(chan))
}

// The channel in a slot has left a queue, if it waited in one, and tells so, unless it is dead.
fn tell_queue_left(draft: &mut Draft<'_>, slot: u16, queue: Option<Txt>) -> Result<(), Memory>
    ensures { Brings result draft.old draft.new (spec.queue_left queue slot (drafted draft.old)) }
{
    match queue {
        Some(name) if draft.lives(slot) => draft.tell_queue(slot, name, QueueAction::Abort),
        _ => Ok(()),
    }
}

/// Two slots, the lesser one first.
pub(crate) fn both_slots(alloc: Global, a: u16, b: u16) -> Result<Vec<u16>, Memory>
    ensures { IfOk result (λ slots. slots.items ≡ spec.both_slots a b) }
{
    let pair = if a < b { [a, b] } else { [b, a] };
    Ok(Vec::from_slice(alloc, &pair)?)
}

// ---- joining

// Joins two channels that have left, unless one died of that.
fn join_both(draft: &mut Draft<'_>, a: u16, b: u16, other: &Txt) -> Result<Option<Txt>, Memory>
    ensures base { draft.new.base ≡ draft.old.base }
    ensures done { IfOk result
        (ComesTo (spec.joined_done a b other.now (drafted draft.old)) (drafted draft.new)) }
{
    let alloc = draft.alloc();
    if !(draft.lives(a) && draft.lives(b)) {
        return no_channel(alloc);
    }
    let reply = made_text(alloc, other.as_bytes())?;
    draft.join(BridgeKind::Joined, a, b)?;
    bring_into_media(draft, a, b)?;
    Ok(Some(reply))
}

// Brings two channels into the media of their bridge, in the order of their slots.
fn bring_into_media(draft: &mut Draft<'_>, a: u16, b: u16) -> Result<(), Memory>
    ensures { Brings result draft.old draft.new (spec.both_in_media a b (drafted draft.old)) }
{
    if a < b {
        draft.enter(a, State::CsExchangeMedia)?;
        draft.enter(b, State::CsExchangeMedia)
    } else {
        draft.enter(b, State::CsExchangeMedia)?;
        draft.enter(a, State::CsExchangeMedia)
    }
}
