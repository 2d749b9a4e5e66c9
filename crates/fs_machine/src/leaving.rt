//! How a command sends channels elsewhere, which leave what they were in.

ghost use Rattle.std.specs.Prelude.{◌≡◌, option_map, IfOk};
ghost use Rattle.fs_state.specs.Drafts.{drafted, Brings};
ghost use Rattle.fs_machine.specs.Done.{ComesTo};
ghost use Rattle.fs_machine.specs.Leaving as spec;

use crate::joining::{both_slots, depart, is_ready, no_channel};
use crate::texts::says;
use fs_api::Side;
use fs_chan::Target3;
use fs_state::Draft;
use fs_text::{Memory, Txt};

/// What becomes of channels that are sent elsewhere.
#[derive(Drop)]
pub(crate) enum Onward {
    /// They park.
    Park,
    /// They are routed anew.
    Transfer(Target3),
}

/// Sends the live channel of an identifier elsewhere, the other leg of its bridge, or both; they leave what they were
/// in.
#[tactic(auto, unfolding(crate::specs::Leaving::sent_done))]
pub(crate) fn send_channel(
    draft: &mut Draft<'_>,
    uuid: &Txt,
    side: Side,
    onward: Onward,
) -> Result<Option<Txt>, Memory>
    requires { spec.IsShortOnward onward }
    ensures base { draft.new.base ≡ draft.old.base }
    ensures done { IfOk result
        (ComesTo (spec.sent_done (spec.moved_on onward) side uuid.now (drafted draft.old)) (drafted draft.new)) }
{
    let found = draft.slot_named(uuid.as_bytes());
    send_found(draft, found, side, onward)
}

// Sends those that the one in a slot means, if there is one and it is ready.
#[tactic(auto, unfolding(crate::specs::Texts::not_ready))]
fn send_found(
    draft: &mut Draft<'_>,
    found: Option<u16>,
    side: Side,
    onward: Onward,
) -> Result<Option<Txt>, Memory>
    requires { spec.IsShortOnward onward }
    ensures base { draft.new.base ≡ draft.old.base }
    ensures done { IfOk result
        (ComesTo (spec.sent_at (spec.moved_on onward) side found (drafted draft.old)) (drafted draft.new)) }
{
    let Some(slot) = found else {
        return no_channel(draft.alloc());
    };
    if !is_ready(draft, slot) {
        return says(draft.alloc(), b"-ERR Channel not ready!\n");
    }
    let legs = legs_meant(draft, side, slot)?;
    send_legs(draft, legs, &onward)
}

// Which legs are meant by the one in a slot, in order of slots; none where it has no other leg that is one of them.
fn legs_meant(draft: &Draft<'_>, side: Side, slot: u16) -> Result<Option<Vec<u16>>, Memory>
    ensures { IfOk result (λ legs. option_map (λ l. l.items) legs
        ≡ spec.legs_meant side slot (spec.peer_at (drafted draft.now) slot)) }
{
    let alloc = draft.alloc();
    match (side, peer_of(draft, slot)) {
        (Side::This, _) => Ok(Some(Vec::from_slice(alloc, &[slot])?)),
        (Side::Both, Some(peer)) => Ok(Some(both_slots(alloc, slot, peer)?)),
        (Side::Other, Some(peer)) => Ok(Some(Vec::from_slice(alloc, &[peer])?)),
        (Side::Both | Side::Other, None) => Ok(None),
    }
}

// The slot of the other leg of the bridge of the channel in a slot.
fn peer_of(draft: &Draft<'_>, slot: u16) -> Option<u16>
    ensures { result ≡ spec.peer_at (drafted draft.now) slot }
{
    let peer = draft.chan(slot)?.peer.as_ref()?;
    Some(peer.slot)
}

// Sends these legs, if there are such and they are ready.
#[tactic(auto, unfolding(crate::specs::Texts::ok, crate::specs::Texts::not_bridged, crate::specs::Texts::not_ready))]
fn send_legs(
    draft: &mut Draft<'_>,
    legs: Option<Vec<u16>>,
    onward: &Onward,
) -> Result<Option<Txt>, Memory>
    requires { spec.IsShortOnward onward.now }
    ensures base { draft.new.base ≡ draft.old.base }
    ensures done { IfOk result
        (ComesTo (spec.legs_sent (spec.moved_on onward.now) (option_map (λ l. l.items) legs) (drafted draft.old))
        (drafted draft.new)) }
{
    let alloc = draft.alloc();
    let Some(legs) = legs else {
        return says(alloc, b"-ERR Channel not bridged!\n");
    };
    if !are_ready(draft, &legs) {
        return says(alloc, b"-ERR Channel not ready!\n");
    }
    depart(draft, &legs)?;
    arrive_all(draft, &legs, onward)?;
    says(alloc, b"+OK\n")
}

// Whether the channels in these slots are ready.
fn are_ready(draft: &Draft<'_>, slots: &[u16]) -> bool
    ensures { result ≡ spec.are_ready (drafted draft.now) slots.now }
{
    slots.iter().all(|slot| is_ready(draft, *slot))
}

// Lets those in these slots arrive, one after another.
fn arrive_all(draft: &mut Draft<'_>, slots: &[u16], onward: &Onward) -> Result<(), Memory>
    requires { spec.IsShortOnward onward.now }
    ensures { Brings result draft.old draft.new
        (spec.after_arrivals (spec.moved_on onward.now) slots.now (drafted draft.old)) }
{
    for slot in slots {
        arrive(draft, *slot, onward)?;
    }
    Ok(())
}

// Lets the one in a slot arrive, unless it died of its leaving.
fn arrive(draft: &mut Draft<'_>, slot: u16, onward: &Onward) -> Result<(), Memory>
    requires { spec.IsShortOnward onward.now }
    ensures { Brings result draft.old draft.new
        (spec.after_arrival (spec.moved_on onward.now) slot (drafted draft.old)) }
{
    if !draft.lives(slot) {
        return Ok(());
    }
    match onward {
        Onward::Park => draft.park(slot),
        Onward::Transfer(to) => draft.transfer(slot, to.copy()?),
    }
}
