//! Controllers: how one is dialed for a channel, how it takes hold of that, and what the end of either makes of the
//! other.

ghost use Rattle.std.specs.Prelude.{◌≡◌, IfOk};
ghost use Rattle.std.specs.Option.{option_copied};
ghost use Rattle.fs_chan.specs.Controlling.{let_go};
ghost use Rattle.fs_seats.specs.Seats.{held_in};
ghost use Rattle.fs_state.specs.Drafts.{drafted, Brings};
ghost use Rattle.fs_state.specs.declared.conn.Parting.TheVariants.{ChannelLeft};
ghost use Rattle.fs_state.specs.Switch.{chan_at};
ghost use Rattle.fs_machine.specs.Connections as connections;
ghost use Rattle.fs_out.specs.Targets.{target_of};
ghost use Rattle.fs_machine.specs.Controlling as spec;

use crate::channels::{ChanChange, change_chan};
use fs_chan::{Action, Chan, Wait};
use fs_cmd::notice_of;
use fs_filter::SharedSubs;
use fs_out::{Target, TargetFault, greeting};
use fs_seats::{Boxed, Numbered};
use fs_state::{Conn, Control, Detail, Draft, Event, Parting, Phase};
use fs_text::{EventName, Memory, Txt};
use std::alloc::Global;

// ---- how a controller is dialed

/// Lets a channel wait for the controller that a text names. Where it names none, or a connection holds the channel,
/// that goes on.
pub(crate) fn seek_controller(draft: &mut Draft<'_>, slot: u16, text: &Txt) -> Result<(), Memory>
    ensures { Brings result draft.old draft.new (spec.after_socket text.now slot (drafted draft.old)) }
{
    if may_dial(draft, slot, text)? {
        change_chan(draft, slot, ChanChange::AwaitDial { text })
    } else {
        draft.complete(slot)
    }
}

// Whether the channel in a slot may have the controller dialed that a text names.
fn may_dial(draft: &Draft<'_>, slot: u16, text: &Txt) -> Result<bool, Memory>
    ensures { IfOk result (λ may. may ≡ spec.may_dial text.now (chan_at (drafted draft.now) slot)) }
{
    let Some(chan) = draft.chan(slot) else {
        return Ok(false);
    };
    let is_free = chan.socket.is_none();
    Ok(names_target(draft.alloc(), text)? && is_free)
}

// Whether a text names a controller.
fn names_target(alloc: Global, text: &Txt) -> Result<bool, Memory>
    ensures { IfOk result (λ names. names ≡ spec.names_target text.now) }
{
    match Target::of(alloc, text.as_bytes()) {
        Ok(_target) => Ok(true),
        Err(TargetFault::Memory) => Err(Memory),
        Err(_) => Ok(false),
    }
}

/// Whether a text names a controller that may command all that there is.
pub(crate) fn names_all(alloc: Global, text: &Txt) -> Result<bool, Memory>
    ensures { IfOk result (λ all. all ≡ spec.names_all text.now) }
{
    match Target::of(alloc, text.as_bytes()) {
        Ok(target) => Ok(target.full),
        Err(TargetFault::Memory) => Err(Memory),
        Err(_) => Ok(false),
    }
}

// ---- how it takes hold

/// A controller was dialed for the channel in a slot, which waited for one. Where there is a link to it, and a seat for
/// its connection, it takes hold of the channel, by the connection of the number that is told; else the channel goes
/// on.
pub(crate) fn end_dial(
    draft: &mut Draft<'_>,
    slot: u16,
    linked: bool,
) -> Result<Option<u32>, Memory>
    ensures base { draft.new.base ≡ draft.old.base }
    ensures number { IfOk result (λ number. number ≡ spec.held_through linked slot (drafted draft.old)) }
    ensures state { Brings result draft.old draft.new (spec.after_dial linked slot (drafted draft.old)) }
{
    let Some(dialed) = dialed_for(draft, slot)? else {
        return Ok(None);
    };
    if linked && !draft.is_full_of_conns() {
        let number = draft.coming_conn();
        take_hold(draft, slot, dialed)?;
        Ok(Some(number))
    } else {
        draft.complete(slot)?;
        Ok(None)
    }
}

// A controller takes hold of the channel in a slot, for which a text was dialed.
fn take_hold(draft: &mut Draft<'_>, slot: u16, dialed: Txt) -> Result<(), Memory>
    ensures { Brings result draft.old draft.new
        (spec.taken_hold (chan_at (drafted draft.old) slot) dialed slot (drafted draft.old)) }
{
    let Some(mut chan) = draft.copy_chan(slot)? else {
        return Ok(());
    };
    let number = draft.add_conn(controller(slot, &chan, dialed)?)?;
    chan.hold(number);
    draft.put_chan(slot, Some(chan))
}

// The text that names the controller for whom the channel in a slot waits, if it waits for one.
fn dialed_for(draft: &Draft<'_>, slot: u16) -> Result<Option<Txt>, Memory>
    ensures { IfOk result (λ text. text ≡ spec.dial_at (drafted draft.now) slot) }
{
    let Some(chan) = draft.chan(slot) else {
        return Ok(None);
    };
    match chan.dial_text() {
        Some(text) => Ok(Some(text.copy()?)),
        None => Ok(None),
    }
}

// The connection that commands the channel in a slot, for which a text was dialed.
fn controller(slot: u16, chan: &Chan, dialed: Txt) -> Result<Conn, Memory>
    ensures { IfOk result (λ conn. conn ≡ spec.controller slot chan.now dialed) }
{
    let uuid = chan.uuid.copy()?;
    Ok(Conn {
        phase: Phase::Ready,
        owed: None,
        parting: None,
        control: Some(Control { slot, uuid, dialed }),
        subs: SharedSubs::nothing(),
    })
}

// ---- a connection ends

/// A connection lets the channel go that it controls, if it controls one and holds it: that goes on.
pub(crate) fn let_channel_go(draft: &mut Draft<'_>, conn: u32) -> Result<(), Memory>
    ensures { Brings result draft.old draft.new (spec.after_letting_go conn (drafted draft.old)) }
{
    let slot = controlled_slot(draft, conn);
    let_go_in(draft, conn, slot)
}

/// The channel in a slot is let go by a connection, if it is one and that holds it.
pub(crate) fn let_go_in(draft: &mut Draft<'_>, conn: u32, slot: Option<u16>) -> Result<(), Memory>
    ensures { Brings result draft.old draft.new (spec.let_go_in conn slot (drafted draft.old)) }
{
    match slot {
        Some(slot) => let_go(draft, conn, slot),
        None => Ok(()),
    }
}

/// The slot of the channel that a connection controls, if it controls one.
pub(crate) fn controlled_slot(draft: &Draft<'_>, conn: u32) -> Option<u16>
    ensures { result ≡ spec.slot_controlled_by conn (drafted draft.now) }
{
    match &draft.conn(conn)?.control {
        Some(control) => Some(control.slot),
        None => None,
    }
}

// The channel in a slot is let go by a connection, if that holds it.
fn let_go(draft: &mut Draft<'_>, conn: u32, slot: u16) -> Result<(), Memory>
    ensures { Brings result draft.old draft.new
        (spec.let_go_from conn slot (chan_at (drafted draft.old) slot) (drafted draft.old)) }
{
    let Some(mut chan) = draft.copy_chan(slot)? else {
        return Ok(());
    };
    if !chan.is_held_by(conn) {
        return Ok(());
    }
    let complete = completed_by(&mut chan);
    chan.let_go();
    draft.put_chan(slot, Some(chan))?;
    tell_completion(draft, slot, complete)
}

// What a channel ran that waits for the end of its connection, if it ran anything; it runs that no more.
fn completed_by(chan: &mut Chan) -> Option<Action>
    ensures action { result ≡ spec.completed_by chan.old.wait chan.old.running }
    ensures chan { let_go chan.new ≡ let_go chan.old }
{
    match &chan.wait {
        Wait::Socket { .. } => chan.running.take(),
        _ => None,
    }
}

// Tells that what the channel in a slot ran is complete, if it ran anything.
fn tell_completion(draft: &mut Draft<'_>, slot: u16, complete: Option<Action>) -> Result<(), Memory>
    ensures { Brings result draft.old draft.new (spec.with_completion_of complete slot (drafted draft.old)) }
{
    let Some(action) = complete else {
        return Ok(());
    };
    draft.tell(Event {
        name: EventName::ChannelExecuteComplete,
        subject: Some(slot),
        detail: Detail::Application(action),
    })
}

// ---- a channel leaves

/// Each connection parts whose channel has left it, with the notice.
#[tactic(auto, using(crate::proofs::LeavingLemmas::left_rules))]
pub(crate) fn part_left(draft: &mut Draft<'_>) -> Result<(), Memory>
    ensures { Brings result draft.old draft.new (spec.after_leavings (drafted draft.old)) }
{
    for seat in 0..draft.filled_conns() {
        part_at(draft, seat)?;
    }
    Ok(())
}

// So does the one that stands at a seat, if one does.
fn part_at(draft: &mut Draft<'_>, seat: usize) -> Result<(), Memory>
    ensures { Brings result draft.old draft.new
        (spec.left_at seat (held_in (drafted draft.old).conns seat) (drafted draft.old)) }
{
    let Some(row) = draft.conn_at(seat) else {
        return Ok(());
    };
    if !is_left(draft, row) {
        return Ok(());
    }
    let number = row.number;
    let notice = farewell(draft.alloc(), row.held.control.as_ref())?;
    let held = parted(&row.held)?;
    draft.put_conn_at(seat, Numbered { number, held })?;
    draft.give_notice_to(number, notice)
}

// Whether a connection commands a channel that it does not hold any more.
fn is_left(draft: &Draft<'_>, row: &Numbered<Conn>) -> bool
    ensures { result ≡ spec.is_left (drafted draft.now) row.now }
{
    match (row.held.phase, &row.held.control) {
        (Phase::Ready, Some(control)) => !holds(draft, row.number, control.slot),
        _ => false,
    }
}

// Whether the connection of a number holds the channel in a slot.
fn holds(draft: &Draft<'_>, number: u64, slot: u16) -> bool
    ensures { result ≡ spec.is_held number (chan_at (drafted draft.now) slot) }
{
    match draft.chan(slot) {
        Some(chan) => chan.socket.map(u64::from) == Some(number),
        None => false,
    }
}

// A connection whose channel has left it.
fn parted(conn: &Conn) -> Result<Conn, Memory>
    ensures { IfOk result (λ parted. parted ≡ connections.parted ChannelLeft conn.now) }
{
    Ok(Conn {
        phase: Phase::Ending,
        owed: conn.owed,
        parting: Some(Parting::ChannelLeft),
        control: conn.copy_control()?,
        subs: SharedSubs::nothing(),
    })
}

/// The notice of a connection, which names the channel that it controls.
pub(crate) fn farewell(alloc: Global, control: Option<&Control>) -> Result<Txt, Memory>
    ensures { IfOk result (λ notice. notice ≡ spec.farewell (option_copied control.entry)) }
{
    match control {
        Some(control) => notice_of(alloc, Some(control.uuid.as_bytes())),
        None => notice_of(alloc, None),
    }
}

/// What a controller is told of a channel, by the text for which it was dialed.
pub(crate) fn greeting_by(
    alloc: Global,
    dialed: &Txt,
    chan: Option<&Chan>,
) -> Result<Option<Txt>, Memory>
    ensures { IfOk result
        (λ text. text ≡ spec.greeting_in (target_of dialed.now) (option_copied chan.entry)) }
{
    match (Target::of(alloc, dialed.as_bytes()), chan) {
        (Err(TargetFault::Memory), _) => Err(Memory),
        (Ok(target), Some(chan)) => Ok(Some(greeting(alloc, chan, &target)?)),
        _ => Ok(None),
    }
}
