//! How a channel comes to wait in a queue, and how one takes a caller out of it.

ghost use Rattle.fs_state.specs.Drafts.{drafted, Brings};
ghost use Rattle.fs_machine.specs.Queueing as spec;

use crate::channels::{ChanChange, change_chan};
use crate::joining::is_ready;
use fs_bridge::BridgeKind;
use fs_state::{Draft, QueueAction};
use fs_text::{Memory, Txt};

/// Answers a channel, which waits in the queue of a name then.
pub(crate) fn enter_queue(draft: &mut Draft<'_>, slot: u16, name: &Txt) -> Result<(), Memory>
    ensures { Brings result draft.old draft.new (spec.after_fifo_in name.now slot (drafted draft.old)) }
{
    draft.answer(slot)?;
    let place = draft.place();
    change_chan(draft, slot, ChanChange::Queue { name, place })?;
    draft.tell_queue(slot, name.copy()?, QueueAction::Push)
}

/// Answers a channel, which takes the first caller of the queue of a name then.
pub(crate) fn answer_queue(
    draft: &mut Draft<'_>,
    slot: u16,
    name: &Txt,
    waits: bool,
) -> Result<(), Memory>
    ensures { Brings result draft.old draft.new (spec.after_fifo_out waits name.now slot (drafted draft.old)) }
{
    draft.answer(slot)?;
    take_caller(draft, slot, name, waits)
}

/// Joins the first caller of a queue and a channel that takes it. Where there is none that waits for one, or goes on.
pub(crate) fn take_caller(
    draft: &mut Draft<'_>,
    slot: u16,
    name: &Txt,
    waits: bool,
) -> Result<(), Memory>
    ensures { Brings result draft.old draft.new (spec.after_taking waits name.now slot (drafted draft.old)) }
{
    match draft.first_caller(name.as_bytes()) {
        Some(caller) => take(draft, slot, caller, name),
        None if waits => change_chan(draft, slot, ChanChange::AwaitCaller { name }),
        None => draft.complete(slot),
    }
}

// Joins a caller and the channel in a slot that takes it out of a queue. Neither is a leg of an origination.
fn take(draft: &mut Draft<'_>, slot: u16, caller: u16, name: &Txt) -> Result<(), Memory>
    ensures { Brings result draft.old draft.new (spec.after_take name.now caller slot (drafted draft.old)) }
{
    if !(is_ready(draft, caller) && is_ready(draft, slot)) {
        return Ok(());
    }
    draft.tell_queue(caller, name.copy()?, QueueAction::CallerPop)?;
    draft.join(BridgeKind::Fifo, caller, slot)
}
