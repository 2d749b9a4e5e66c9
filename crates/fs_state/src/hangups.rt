//! Hangups, with all whom they drag along.
ghost use Rattle.std.specs.Prelude.{◌≡◌, IfOk};
ghost use Rattle.std.specs.List.{find};
ghost use Rattle.fs_bridge.specs.Closure.{closure_of};
ghost use Rattle.fs_chan.specs.Bridging.{unbridged};
ghost use Rattle.fs_state.specs.Drafts.{drafted, Brings};
ghost use Rattle.fs_state.specs.Moves.{with_changed_chan};
ghost use Rattle.fs_state.specs.Hangups as spec;

use crate::draft::Draft;
use crate::event::{Detail, Event};
use fs_bridge::{After, Closure, Row, closure_of_hangup};
use fs_text::{Cause, EventName, Memory};

impl<'a> Draft<'a> {
    /// The channel in a slot is hung up, if it lives, with all whom that drags along.
    #[tactic(auto, unfolding(crate::specs::Hangups::after_hangups))]
    pub fn hang_up(&mut self, slot: u16, cause: Cause) -> Result<(), Memory>
        ensures { Brings result self.old self.new (spec.after_hangup cause slot (drafted self.old)) }
    {
        if self.lives(slot) {
            self.hang_up_living(&[(slot, cause)])
        } else {
            Ok(())
        }
    }

    /// The channels in some slots, those of them that live, are hung up of these causes, with all whom that drags
    /// along.
    ///
    /// First their bridges end, then they are hung up in order of slots, and then those go on or park who outlive a
    /// bridge.
    #[tactic(auto, unfolding(crate::specs::Hangups::after_hangups))]
    pub fn hang_up_all(&mut self, named: &[(u16, Cause)]) -> Result<(), Memory>
        ensures { Brings result self.old self.new (spec.after_hangups named.now (drafted self.old)) }
    {
        let living = self.living_of(named)?;
        self.hang_up_living(&living)
    }

    /// Channels that live are hung up of these causes, with all whom that drags along.
    fn hang_up_living(&mut self, living: &[(u16, Cause)]) -> Result<(), Memory>
        ensures { Brings result self.old self.new
            (spec.after_closure (closure_of (spec.world_of (drafted self.old)) living.now) (drafted self.old)) }
    {
        let closure = closure_of_hangup(self.alloc(), &*self, living, &[])?;
        self.close(closure.closure())
    }

    /// Those of some slots with causes whose channels are live.
    fn living_of(&self, named: &[(u16, Cause)]) -> Result<Vec<(u16, Cause)>, Memory>
        ensures { IfOk result (λ living. living.items ≡ spec.living_of (drafted self.now) named.now) }
    {
        let mut living = Vec::new(self.alloc());
        for member in named {
            if self.lives(member.0) {
                living.push(*member)?;
            }
        }
        Ok(living)
    }

    /// Bridges end, channels are hung up, and others outlive their bridges.
    pub(crate) fn close(&mut self, closure: &Closure) -> Result<(), Memory>
        ensures { Brings result self.old self.new (spec.after_closure closure.now (drafted self.old)) }
    {
        self.end_bridges(closure.ended())?;
        self.hang_up_members(closure.ended(), closure.members())?;
        self.outlive_all(closure.survivors())
    }

    // ---- bridges that end

    /// Some bridges end, each of its cause.
    fn end_bridges(&mut self, ended: &[(Row, Cause)]) -> Result<(), Memory>
        ensures { Brings result self.old self.new (spec.after_ends ended.now (drafted self.old)) }
    {
        for end in ended {
            self.end_bridge(end.0, end.1)?;
        }
        Ok(())
    }

    /// Both legs of a bridge know of what it ended, and it stands no more.
    pub(crate) fn end_bridge(&mut self, row: Row, cause: Cause) -> Result<(), Memory>
        ensures { Brings result self.old self.new (spec.after_end row cause (drafted self.old)) }
    {
        self.drop_bridge(row.number)?;
        self.set_unbridged(row.caller, cause)?;
        self.set_unbridged(row.answerer, cause)
    }

    /// The bridge of the channel in a slot has ended of a cause.
    fn set_unbridged(&mut self, slot: u16, cause: Cause) -> Result<(), Memory>
        ensures { Brings result self.old self.new (with_changed_chan (unbridged cause) slot (drafted self.old)) }
    {
        let Some(mut chan) = self.own_chan(slot)? else {
            return Ok(());
        };
        chan.unbridge(cause)?;
        self.put_chan(slot, Some(chan))
    }

    // ---- who is hung up

    /// Channels are hung up, one after another, where the ends of these bridges are still to be told.
    #[tactic(auto, using(crate::proofs::HangupLemmas::member_rules))]
    fn hang_up_members(
        &mut self,
        ended: &[(Row, Cause)],
        members: &[(u16, Cause)],
    ) -> Result<(), Memory>
        ensures { Brings result self.old self.new (spec.after_members ended.now members.now (drafted self.old)) }
    {
        let mut untold = Vec::from_slice(self.alloc(), ended)?;
        for member in members {
            self.hang_up_member(&untold, *member)?;
            pass_told(&mut untold, member.0);
        }
        Ok(())
    }

    /// A channel is hung up; before that it tells that it leaves its queue, if it waits in one, and the end of its
    /// bridge, where that is still to be told.
    fn hang_up_member(
        &mut self,
        untold: &[(Row, Cause)],
        member: (u16, Cause),
    ) -> Result<(), Memory>
        ensures { Brings result self.old self.new (spec.after_member untold.now member (drafted self.old)) }
    {
        self.tell_abort(member.0)?;
        self.tell_end(first_end(untold, member.0))?;
        self.hang_one(member.0, member.1)
    }

    /// The end of a bridge is told, if there is one.
    pub(crate) fn tell_end(&mut self, end: Option<(Row, Cause)>) -> Result<(), Memory>
        ensures { Brings result self.old self.new (spec.with_end_told end (drafted self.old)) }
    {
        match end {
            Some(end) => self.tell(Event {
                name: EventName::ChannelUnbridge,
                subject: Some(end.0.caller),
                detail: Detail::Unbridge(end.0, end.1),
            }),
            None => Ok(()),
        }
    }

    // ---- who outlives a bridge

    /// Each of these goes on, or parks.
    fn outlive_all(&mut self, survivors: &[(u16, After)]) -> Result<(), Memory>
        ensures { Brings result self.old self.new (spec.after_survivals survivors.now (drafted self.old)) }
    {
        for survivor in survivors {
            self.outlive(survivor.0, survivor.1)?;
        }
        Ok(())
    }

    /// The channel in a slot, if it lives, does what it does that outlives its bridge.
    fn outlive(&mut self, slot: u16, after: After) -> Result<(), Memory>
        ensures { Brings result self.old self.new (spec.after_survival after slot (drafted self.old)) }
    {
        if self.lives(slot) {
            self.go_on_or_park(slot, after)
        } else {
            Ok(())
        }
    }

    /// The channel in a slot goes on, or parks; one that hangs up is told of among the others.
    fn go_on_or_park(&mut self, slot: u16, after: After) -> Result<(), Memory>
        ensures { Brings result self.old self.new (spec.after_outliving after slot (drafted self.old)) }
    {
        match after {
            After::GoOn => self.complete(slot),
            After::Park => self.park(slot),
            After::Hangup(_) => Ok(()),
        }
    }
}

/// The first of these bridges that a slot is a leg of.
fn first_end(ended: &[(Row, Cause)], slot: u16) -> Option<(Row, Cause)>
    ensures { result ≡ find (spec.is_leg_of slot) ended.now }
{
    ended.iter().find(|end| end.0.has_leg(slot)).copied()
}

/// Takes the bridges out whose end the channel in a slot tells.
fn pass_told(untold: &mut Vec<(Row, Cause)>, slot: u16)
    ensures { untold.new.items ≡ spec.untold_by slot untold.old.items }
{
    untold.retain(|end| !end.0.has_leg(slot));
}
