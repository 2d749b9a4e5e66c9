//! How channels leave their bridges, and the legs that they dial, and live on.
ghost use Rattle.std.specs.Prelude.{◌≡◌, ◌++◌, map, IfOk, OnOk};
ghost use Rattle.fs_bridge.specs.Closure.{cancelled};
ghost use Rattle.fs_state.specs.Drafts.{drafted, Brings};
ghost use Rattle.fs_state.specs.Leaving as spec;

use crate::draft::Draft;
use fs_bridge::{LeavingClosure, Row, closure_of_hangup};
use fs_text::{Cause, Memory};

impl<'a> Draft<'a> {
    /// The channels in some slots, which differ, leave their bridges and the legs that they dial, and live on unless
    /// that drags them along.
    ///
    /// First the legs are hung up, with all whom that drags along. Of those who still live the bridges end then, in
    /// order of their numbers. Their other legs that do not leave, too, hang up, with all whom that drags along, or
    /// go on or park.
    pub fn leave_others(&mut self, slots: &[u16]) -> Result<(), Memory>
        ensures { Brings result self.old self.new (spec.after_leaving_others slots.now (drafted self.old)) }
    {
        let legs = self.cancelled_by(slots)?;
        self.hang_up_all(&legs)?;
        self.leave_bridges(slots)
    }

    /// The living legs that the channels in some slots dialed, each with the cause of one that is given up.
    fn cancelled_by(&self, slots: &[u16]) -> Result<Vec<(u16, Cause)>, Memory>
        ensures { IfOk result (λ all. all.items ≡ map cancelled (spec.all_legs_at (drafted self.now) slots.now)) }
    {
        let mut all = Vec::new(self.alloc());
        for slot in slots {
            let legs = self.legs_of(*slot)?;
            cancel(&mut all, &legs)?;
        }
        Ok(all)
    }

    /// Those of some channels that live leave their bridges.
    #[tactic(auto, unfolding(crate::specs::Leaving::after_bridges_left))]
    fn leave_bridges(&mut self, slots: &[u16]) -> Result<(), Memory>
        ensures { Brings result self.old self.new (spec.after_bridges_left slots.now (drafted self.old)) }
    {
        let living = self.living_among(slots)?;
        let all = closure_of_hangup(self.alloc(), &*self, &[], &living)?;
        self.end_left(&all)
    }

    /// The bridges that are left end, then hang up those whom that drags along, and others outlive a bridge.
    fn end_left(&mut self, all: &LeavingClosure) -> Result<(), Memory>
        ensures { Brings result self.old self.new (spec.after_leaving_ends all.now (drafted self.old)) }
    {
        self.part_all(all.parted())?;
        self.close(all.closure())
    }

    /// Those of some slots whose channels are live.
    fn living_among(&self, slots: &[u16]) -> Result<Vec<u16>, Memory>
        ensures { IfOk result (λ living. living.items ≡ spec.living_among (drafted self.now) slots.now) }
    {
        let mut living = Vec::new(self.alloc());
        for slot in slots {
            if self.lives(*slot) {
                living.push(*slot)?;
            }
        }
        Ok(living)
    }

    /// Some bridges end as they are left, and each tells so.
    fn part_all(&mut self, parted: &[(Row, Cause)]) -> Result<(), Memory>
        ensures { Brings result self.old self.new (spec.after_partings parted.now (drafted self.old)) }
    {
        for end in parted {
            self.part(*end)?;
        }
        Ok(())
    }

    /// A bridge ends as it is left, and tells so.
    fn part(&mut self, end: (Row, Cause)) -> Result<(), Memory>
        ensures { Brings result self.old self.new (spec.after_parting end (drafted self.old)) }
    {
        self.end_bridge(end.0, end.1)?;
        self.tell_end(Some(end))
    }
}

/// Puts legs whose origination is given up behind all others.
fn cancel(dropped: &mut Vec<(u16, Cause)>, legs: &[u16]) -> Result<(), Memory>
    ensures ok { OnOk result (dropped.new.items ≡ dropped.old.items ++ map cancelled legs.now) }
{
    for leg in legs {
        dropped.push((*leg, Cause::OriginatorCancel))?;
    }
    Ok(())
}
