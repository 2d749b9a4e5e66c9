//! Changes of the channel in a slot, each with what it tells of the channel's state.

ghost use Rattle.std.specs.Prelude.{◌≡◌, OnOk};
ghost use Rattle.std.specs.Option.{option_and_then};
ghost use Rattle.fs_chan.specs.Bridging.{awaited_by};
ghost use Rattle.fs_state.specs.Drafts.{drafted, Brings};
ghost use Rattle.fs_state.specs.Moves.{after_move};
ghost use Rattle.fs_state.specs.Switch.{chan_at};
ghost use Rattle.fs_machine.specs.Channels as spec;

use crate::originations::win_by;
use fs_chan::{Assignment, Chan};
use fs_orig::Winner;
use fs_state::Draft;
use fs_text::{Memory, Txt};
use std::alloc::Global;

/// A change of one channel.
#[derive(Clone, Copy)]
pub(crate) enum ChanChange<'a> {
    /// What it is to run next is used up.
    Pass,
    /// A variable is set or taken out, where no limit is passed.
    Assign { how: Assignment, argument: &'a Txt },
    /// It sleeps from a moment on.
    Sleep { now: u64, milliseconds: u64 },
    /// It waits for the verdict on the origination of this number, which it owns.
    AwaitLegs { orig: u64 },
    /// It waits in the queue of a name, and came by the entry at a place.
    Queue { name: &'a Txt, place: u64 },
    /// It waits for a caller in the queue of a name.
    AwaitCaller { name: &'a Txt },
    /// It waits until the controller that a text names was dialed.
    AwaitDial { text: &'a Txt },
    /// It is a leg that has won, and no leg any more: it is in the media of its bridge.
    EnterMedia,
    /// It is a leg that has won, and no leg any more: it has one thing to run, or is to be routed.
    Win { winner: &'a Winner },
}

/// Changes the channel in a slot, if there is one.
pub(crate) fn change_chan(
    draft: &mut Draft<'_>,
    slot: u16,
    change: ChanChange<'_>,
) -> Result<(), Memory>
    ensures { Brings result draft.old draft.new (after_move (spec.changed_by change.entry) slot (drafted draft.old)) }
{
    let Some(mut moving) = draft.take_up(slot)? else {
        return Ok(());
    };
    change_by(draft.alloc(), &mut moving.chan, change)?;
    draft.put_back(moving)
}

// Changes a channel.
fn change_by(alloc: Global, chan: &mut Chan, change: ChanChange<'_>) -> Result<(), Memory>
    ensures { OnOk result (chan.new ≡ spec.changed_by change.entry chan.old) }
{
    match change {
        ChanChange::Pass => chan.pass_action(),
        ChanChange::Assign { how, argument } => chan.vars.assign(how, argument.as_bytes())?,
        ChanChange::Sleep { now, milliseconds } => chan.sleep(now, milliseconds),
        ChanChange::AwaitLegs { orig } => chan.await_legs(orig),
        ChanChange::Queue { name, place } => chan.queue(name.copy()?, place),
        ChanChange::AwaitCaller { name } => chan.await_caller(name.copy()?),
        ChanChange::AwaitDial { text } => chan.await_dial(text.copy()?),
        ChanChange::EnterMedia => chan.enter_media(),
        ChanChange::Win { winner } => win_by(alloc, chan, winner)?,
    }
    Ok(())
}

/// The origination that the channel in a slot waits for.
pub(crate) fn awaited_at(draft: &Draft<'_>, slot: u16) -> Option<u64>
    ensures { result ≡ option_and_then awaited_by (chan_at (drafted draft.now) slot) }
{
    draft.chan(slot)?.awaited()
}
