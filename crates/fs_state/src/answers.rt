//! Answers and ends of single channels.
ghost use Rattle.std.specs.Prelude.{◌≡◌, IfOk};
ghost use Rattle.fs_chan.specs.Changes.{hung_up};
ghost use Rattle.fs_state.specs.Drafts.{drafted, Brings};
ghost use Rattle.fs_state.specs.Switch.{with_event};
ghost use Rattle.fs_state.specs.Moves as spec;

use crate::draft::Draft;
use crate::event::{Detail, Event};
use fs_orig::{Orig, Owner};
use fs_text::{Cause, EventName, Memory, State};

impl<'a> Draft<'a> {
    /// The loopback partner of the channel in a slot.
    pub fn partner(&self, slot: u16) -> Option<u16>
        ensures { result ≡ spec.partner_at (drafted self.now) slot }
    {
        self.chan(slot)?.partner
    }

    /// The channel in a slot is answered by the entry in hand, where it was not, and so is its partner.
    pub fn answer(&mut self, slot: u16) -> Result<(), Memory>
        ensures { Brings result self.old self.new (spec.after_answer slot (drafted self.old)) }
    {
        let partner = self.partner(slot);
        self.answer_one(slot)?;
        match partner {
            Some(partner) => self.answer_one(partner),
            None => Ok(()),
        }
    }

    /// A channel is answered, where it was not, and so is the leg that it is.
    fn answer_one(&mut self, slot: u16) -> Result<(), Memory>
        ensures { Brings result self.old self.new (spec.after_one_answer slot (drafted self.old)) }
    {
        let Some(chan) = self.chan(slot) else {
            return Ok(());
        };
        if chan.answered.is_some() {
            return Ok(());
        }
        let leg_of = chan.leg_of;
        self.answer_now(slot, leg_of)
    }

    /// The channel in a slot is answered by the entry in hand, and so is the leg that it is, of the origination of this
    /// number.
    fn answer_now(&mut self, slot: u16, leg_of: Option<u64>) -> Result<(), Memory>
        ensures { Brings result self.old self.new (spec.answered_now slot leg_of (drafted self.old)) }
    {
        self.set_answered(slot)?;
        self.tell_of(EventName::ChannelAnswer, slot)?;
        self.answer_leg(slot, leg_of)
    }

    /// Answers the channel in a slot by the entry in hand.
    fn set_answered(&mut self, slot: u16) -> Result<(), Memory>
        ensures { Brings result self.old self.new (spec.answer_set slot (drafted self.old)) }
    {
        let Some(mut chan) = self.own_chan(slot)? else {
            return Ok(());
        };
        let _is = chan.answer(self.place());
        self.put_chan(slot, Some(chan))
    }

    /// The living leg in a slot is answered, of the origination of this number.
    fn answer_leg(&mut self, slot: u16, leg_of: Option<u64>) -> Result<(), Memory>
        ensures { Brings result self.old self.new (spec.leg_answered slot leg_of (drafted self.old)) }
    {
        let Some(number) = leg_of else {
            return Ok(());
        };
        let Some(orig) = self.orig(number) else {
            return Ok(());
        };
        let orig = with_answer(orig, slot, self.place())?;
        self.set_orig(number, orig)
    }

    /// A live channel is hung up, the leg that it is dies, and what it dialed is given up.
    pub(crate) fn hang_one(&mut self, slot: u16, cause: Cause) -> Result<(), Memory>
        ensures { Brings result self.old self.new (spec.after_one_hangup cause slot (drafted self.old)) }
    {
        let Some(chan) = self.chan(slot) else {
            return Ok(());
        };
        if !chan.is_live() {
            return Ok(());
        }
        let (old, leg_of, awaited) = (chan.state, chan.leg_of, chan.awaited());
        self.set_hung(slot, cause)?;
        self.tell_hangup(slot, cause)?;
        self.tell_state(slot, old, State::CsHangup)?;
        self.end_leg(slot, leg_of, cause)?;
        self.give_up_orig(slot, awaited)
    }

    /// Hangs the channel in a slot up with a cause.
    fn set_hung(&mut self, slot: u16, cause: Cause) -> Result<(), Memory>
        ensures { Brings result self.old self.new (spec.with_changed_chan (hung_up cause) slot (drafted self.old)) }
    {
        let Some(mut chan) = self.own_chan(slot)? else {
            return Ok(());
        };
        chan.hang_up(cause)?;
        self.put_chan(slot, Some(chan))
    }

    /// The channel in a slot was hung up with a cause.
    fn tell_hangup(&mut self, slot: u16, cause: Cause) -> Result<(), Memory>
        ensures { Brings result self.old self.new (with_event (spec.hangup_event cause slot) (drafted self.old)) }
    {
        self.tell(Event {
            name: EventName::ChannelHangup,
            subject: Some(slot),
            detail: Detail::Hangup(cause),
        })
    }

    /// The living leg in a slot dies, of the origination of this number.
    fn end_leg(&mut self, slot: u16, leg_of: Option<u64>, cause: Cause) -> Result<(), Memory>
        ensures { Brings result self.old self.new (spec.leg_ended cause slot leg_of (drafted self.old)) }
    {
        let Some(number) = leg_of else {
            return Ok(());
        };
        let Some(orig) = self.orig(number) else {
            return Ok(());
        };
        let orig = with_death(orig, slot, self.place(), cause)?;
        self.set_orig(number, orig)
    }

    /// The origination that the channel in a slot waits for is given up, if it owns that.
    pub fn give_up_orig(&mut self, slot: u16, awaited: Option<u64>) -> Result<(), Memory>
        ensures { Brings result self.old self.new (spec.orig_given_up slot awaited (drafted self.old)) }
    {
        let Some(number) = awaited else {
            return Ok(());
        };
        let Some(orig) = self.orig(number) else {
            return Ok(());
        };
        if is_owner(slot, orig.owner) {
            self.drop_orig(number)
        } else {
            Ok(())
        }
    }

    /// The channel in a slot is gone, and the slot is free.
    pub fn destroy(&mut self, slot: u16) -> Result<(), Memory>
        ensures { Brings result self.old self.new (spec.after_destroy slot (drafted self.old)) }
    {
        self.put_chan(slot, None)?;
        self.tell_of(EventName::ChannelState, slot)?;
        self.tell_of(EventName::ChannelDestroy, slot)
    }
}

/// Whether the channel in a slot owns an origination.
fn is_owner(slot: u16, owner: Owner) -> bool
    ensures { result ≡ spec.is_owner slot owner }
{
    match owner {
        Owner::Slot(other) => other == slot,
        Owner::Job(_) => false,
    }
}

/// An origination with the living leg in a slot answered, if there is one.
fn with_answer(orig: &Orig, slot: u16, place: u64) -> Result<Orig, Memory>
    ensures { IfOk result (λ o. o ≡ spec.with_leg_answered place slot orig.now) }
{
    let mut orig = orig.copy()?;
    match orig.legs.position_in(slot) {
        Some(position) => {
            let _is = orig.leg_answered(position, place);
            Ok(orig)
        }
        None => Ok(orig),
    }
}

/// An origination with the living leg in a slot dead, if there is one.
fn with_death(orig: &Orig, slot: u16, place: u64, cause: Cause) -> Result<Orig, Memory>
    ensures { IfOk result (λ o. o ≡ spec.with_leg_ended place cause slot orig.now) }
{
    let mut orig = orig.copy()?;
    match orig.legs.position_in(slot) {
        Some(position) => {
            let _is = orig.leg_died(position, place, cause);
            Ok(orig)
        }
        None => Ok(orig),
    }
}
