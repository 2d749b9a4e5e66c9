//! Hangups of several channels for one cause.

ghost use Rattle.std.specs.Prelude.{◌≡◌, map, IfOk};
ghost use Rattle.fs_state.specs.Drafts.{drafted, Brings};
ghost use Rattle.fs_state.specs.Hangups.{after_hangups_for};
ghost use Rattle.fs_machine.specs.Hangups as spec;

use fs_state::Draft;
use fs_text::{Cause, Memory};
use std::alloc::Global;

/// Hangs up the channels in these slots with a cause, and all whom that drags along.
pub(crate) fn hang_up_for(draft: &mut Draft<'_>, slots: &[u16], cause: Cause) -> Result<(), Memory>
    ensures { Brings result draft.old draft.new (after_hangups_for cause slots.now (drafted draft.old)) }
{
    let named = all_for(draft.alloc(), slots, cause)?;
    draft.hang_up_all(&named)
}

/// Hangs up all live channels with a cause, in one hangup.
pub(crate) fn hang_up_everyone(draft: &mut Draft<'_>, cause: Cause) -> Result<(), Memory>
    ensures { Brings result draft.old draft.new (spec.after_hangup_of_all cause (drafted draft.old)) }
{
    let slots = all_slots(draft)?;
    hang_up_for(draft, &slots, cause)
}

// All slots, in order.
#[tactic(auto, using(crate::proofs::RangeLemmas::slots_more))]
fn all_slots(draft: &Draft<'_>) -> Result<Vec<u16>, Memory>
    ensures { IfOk result (λ slots. slots.items ≡ spec.all_slots (drafted draft.now)) }
{
    let mut all = Vec::new(draft.alloc());
    for slot in 0..draft.slots() {
        all.push(slot)?;
    }
    Ok(all)
}

// Slots, each with this cause.
fn all_for(alloc: Global, slots: &[u16], cause: Cause) -> Result<Vec<(u16, Cause)>, Memory>
    ensures { IfOk result (λ named. named.items ≡ map (λ slot. (slot, cause)) slots.now) }
{
    let mut named = Vec::new(alloc);
    for slot in slots {
        named.push((*slot, cause))?;
    }
    Ok(named)
}
