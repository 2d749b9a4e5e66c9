//! The end of the switch: all channels are hung up, nothing is left to be done, and all connections part.

ghost use Rattle.fs_state.specs.Drafts.{drafted, Brings};
ghost use Rattle.fs_state.specs.Switch.{with_event};
ghost use Rattle.fs_text.specs.declared.causes.Cause.TheVariants.{SystemShutdown};
ghost use Rattle.fs_machine.specs.Controlling.{after_leavings};
ghost use Rattle.fs_machine.specs.Hangups.{after_hangup_of_all};
ghost use Rattle.fs_machine.specs.Shutdown as spec;

use crate::controlling::part_left;
use crate::hangups::hang_up_everyone;
use crate::texts::failed_text;
use fs_cmd::{api_reply, notice};
use fs_state::{Detail, Draft, Event};
use fs_text::{Cause, EventName, Memory};

/// Lets the switch come to its end.
#[tactic(auto, unfolding(crate::specs::Shutdown::after_shutdown))]
pub(crate) fn shut_down(draft: &mut Draft<'_>) -> Result<(), Memory>
    ensures { Brings result draft.old draft.new (spec.after_shutdown (drafted draft.old)) }
{
    end_calls(draft)?;
    let answer = failed_text(draft.alloc(), Cause::SystemShutdown)?;
    let reply = api_reply(draft.alloc(), answer.as_bytes())?;
    let notice = notice(draft.alloc())?;
    draft.end(&reply, &notice)
}

// Hangs up all channels, so that controllers part whose channels leave them, and tells that the switch comes to its
// end.
fn end_calls(draft: &mut Draft<'_>) -> Result<(), Memory>
    ensures { Brings result draft.old draft.new
        (with_event spec.shutdown_event (after_leavings (after_hangup_of_all SystemShutdown (drafted draft.old)))) }
{
    hang_up_everyone(draft, Cause::SystemShutdown)?;
    part_left(draft)?;
    tell_end(draft)
}

// Tells that the switch comes to its end.
fn tell_end(draft: &mut Draft<'_>) -> Result<(), Memory>
    ensures { Brings result draft.old draft.new (with_event spec.shutdown_event (drafted draft.old)) }
{
    draft.tell(Event {
        name: EventName::Shutdown,
        subject: None,
        detail: Detail::Shutdown,
    })
}
