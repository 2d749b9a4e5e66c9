//! Messages that clients send to channels.

ghost use Rattle.std.specs.Prelude.{◌≡◌, None, IfOk};
ghost use Rattle.std.specs.Option.{option_copied};
ghost use Rattle.fs_cmd.specs.Commands.{message_read};
ghost use Rattle.fs_cmd.specs.Frames.{invalid_session};
ghost use Rattle.fs_state.specs.Drafts.{drafted, Brings};
ghost use Rattle.fs_state.specs.Switch.{chan_at};
ghost use Rattle.fs_machine.specs.Commands as spec;

use crate::replies::give_reply;
use fs_chan::Action;
use fs_cmd::{Message, invalid_session};
use fs_state::Draft;
use fs_text::{Memory, Txt};
use std::alloc::Global;

/// Does a message to the live channel of an identifier.
pub(crate) fn send_message(
    draft: &mut Draft<'_>,
    conn: u32,
    uuid: Option<&[u8]>,
    message: Message<'_>,
) -> Result<(), Memory>
    ensures { Brings result draft.old draft.new
        (spec.message_sent conn (option_copied uuid.entry) (message_read message.entry) (drafted draft.old)) }
{
    match uuid {
        Some(uuid) => send_to(draft, conn, uuid, message),
        None => send_to_own(draft, conn, message),
    }
}

// Does a message to the channel that a connection controls.
fn send_to_own(draft: &mut Draft<'_>, conn: u32, message: Message<'_>) -> Result<(), Memory>
    ensures { Brings result draft.old draft.new
        (spec.message_sent conn None (message_read message.entry) (drafted draft.old)) }
{
    let own = controlled_uuid(draft, conn)?;
    send_to_named(draft, conn, own.as_ref(), message)
}

// Does a message to the live channel of an identifier, if one is named.
fn send_to_named(
    draft: &mut Draft<'_>,
    conn: u32,
    uuid: Option<&Txt>,
    message: Message<'_>,
) -> Result<(), Memory>
    ensures { Brings result draft.old draft.new
        (spec.message_done_to conn (option_copied uuid.entry) (message_read message.entry) (drafted draft.old)) }
{
    match uuid {
        Some(uuid) => send_to(draft, conn, uuid.as_bytes(), message),
        None => refuse_session(draft, conn, b""),
    }
}

// The identifier of the channel that a connection controls, if it controls one.
fn controlled_uuid(draft: &Draft<'_>, conn: u32) -> Result<Option<Txt>, Memory>
    ensures { IfOk result (λ uuid. uuid ≡ spec.controlled_uuid (spec.control_at (drafted draft.now) conn)) }
{
    let Some(there) = draft.conn(conn) else {
        return Ok(None);
    };
    match &there.control {
        Some(control) => Ok(Some(control.uuid.copy()?)),
        None => Ok(None),
    }
}

// Does a message to the live channel of an identifier, if there is one.
fn send_to(
    draft: &mut Draft<'_>,
    conn: u32,
    uuid: &[u8],
    message: Message<'_>,
) -> Result<(), Memory>
    ensures { Brings result draft.old draft.new
        (spec.message_done_for conn uuid.now (message_read message.entry) (drafted draft.old)) }
{
    match draft.slot_named(uuid) {
        Some(slot) => do_message(draft, conn, uuid, slot, message),
        None => refuse_session(draft, conn, uuid),
    }
}

// Replies that no live channel has an identifier.
fn refuse_session(draft: &mut Draft<'_>, conn: u32, uuid: &[u8]) -> Result<(), Memory>
    ensures { Brings result draft.old draft.new
        (spec.with_reply conn (invalid_session uuid.now) (drafted draft.old)) }
{
    let text = invalid_session(draft.alloc(), uuid)?;
    give_reply(draft, conn, text.as_bytes())
}

// Does a message to the channel in a slot.
#[tactic(auto, unfolding(fs_cmd::specs::Frames::message_taken, fs_cmd::specs::Frames::invalid_call))]
fn do_message(
    draft: &mut Draft<'_>,
    conn: u32,
    uuid: &[u8],
    slot: u16,
    message: Message<'_>,
) -> Result<(), Memory>
    ensures { Brings result draft.old draft.new
        (spec.message_done conn uuid.now (message_read message.entry) slot (drafted draft.old)) }
{
    match message {
        Message::Execute {
            application,
            argument,
        } => {
            let action = action_of(draft.alloc(), application, argument)?;
            queue(draft, conn, uuid, slot, action)
        }
        Message::Hangup { cause } => {
            draft.hang_up(slot, cause)?;
            give_reply(draft, conn, b"+OK")
        }
        Message::BadCall => give_reply(draft, conn, b"-ERR invalid call-command"),
    }
}

// An application with its argument.
fn action_of(alloc: Global, application: &[u8], argument: &[u8]) -> Result<Action, Memory>
    ensures { IfOk result
        (λ action. action ≡ record { application = application.now; argument = argument.now }) }
{
    Ok(Action {
        application: Txt::of(alloc, application)?,
        argument: Txt::of(alloc, argument)?,
    })
}

// The channel in a slot is to run an application behind what was sent to it before, if there is room for it.
#[tactic(auto, unfolding(fs_cmd::specs::Frames::message_taken, fs_cmd::specs::Frames::messages_full))]
fn queue(
    draft: &mut Draft<'_>,
    conn: u32,
    uuid: &[u8],
    slot: u16,
    action: Action,
) -> Result<(), Memory>
    ensures { Brings result draft.old draft.new
        (spec.queued_on conn uuid.now action slot (chan_at (drafted draft.old) slot) (drafted draft.old)) }
{
    let Some(mut chan) = draft.copy_chan(slot)? else {
        return refuse_session(draft, conn, uuid);
    };
    if !chan.take_message(draft.alloc(), action)? {
        return give_reply(draft, conn, b"-ERR message queue full");
    }
    draft.put_chan(slot, Some(chan))?;
    give_reply(draft, conn, b"+OK")
}
