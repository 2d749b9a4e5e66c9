//! What happens to channels.
ghost use Rattle.std.specs.Prelude.{◌≡◌, Option, Some, None, Ok, IfOk};
ghost use Rattle.fs_chan.specs.declared.chan.Chan.{Chan};
ghost use Rattle.fs_chan.specs.Changes as chan;
ghost use Rattle.fs_chan.specs.Work.{after_next};
ghost use Rattle.fs_state.specs.Drafts.{drafted, Brings, chan_in, with_chan_in};
ghost use Rattle.fs_state.specs.Switch.{with_event};
ghost use Rattle.fs_state.specs.Moves as spec;

use crate::draft::Draft;
use crate::event::{Detail, Event};
use fs_chan::{Action, Chan, Target3};
use fs_seats::Boxed;
use fs_text::{Cause, EventName, Memory, State};

impl<'a> Draft<'a> {
    /// Something happens to the channel in a slot, and nothing is told beside that.
    pub fn tell_of(&mut self, name: EventName, slot: u16) -> Result<(), Memory>
        ensures { Brings result self.old self.new (with_event (spec.plain_event name slot) (drafted self.old)) }
    {
        self.tell(Event {
            name,
            subject: Some(slot),
            detail: Detail::Plain,
        })
    }

    // ---- changes of state

    /// The channel in a slot went from one state to another.
    pub fn tell_state(&mut self, slot: u16, old: State, new: State) -> Result<(), Memory>
        ensures { Brings result self.old self.new (spec.with_state_events old new slot (drafted self.old)) }
    {
        if old.number() == new.number() {
            return Ok(());
        }
        self.tell_left(slot, old)?;
        self.tell_come(slot, new)?;
        self.tell_of(EventName::ChannelState, slot)
    }

    /// The channel in a slot left a state.
    fn tell_left(&mut self, slot: u16, old: State) -> Result<(), Memory>
        ensures { Brings result self.old self.new (spec.with_leaving_event old slot (drafted self.old)) }
    {
        match old {
            State::CsPark => self.tell_of(EventName::ChannelUnpark, slot),
            _ => Ok(()),
        }
    }

    /// The channel in a slot came to a state.
    fn tell_come(&mut self, slot: u16, new: State) -> Result<(), Memory>
        ensures { Brings result self.old self.new (spec.with_coming_event new slot (drafted self.old)) }
    {
        match new {
            State::CsPark => self.tell_of(EventName::ChannelPark, slot),
            _ => Ok(()),
        }
    }

    /// The channel in a slot once more.
    pub fn copy_chan(&self, slot: u16) -> Result<Option<Boxed<Chan>>, Memory>
        ensures { IfOk result (λ copy. copy ≡ chan_in self.now slot) }
    {
        match self.chan(slot) {
            Some(chan) => Ok(Some(Boxed::of(self.alloc(), chan.copy()?)?)),
            None => Ok(None),
        }
    }

    /// The channel in a slot, to be changed and put there again: the one that was put there last is taken back, any
    /// other copied.
    pub fn own_chan(&mut self, slot: u16) -> Result<Option<Boxed<Chan>>, Memory>
        ensures base { self.new.base ≡ self.old.base }
        ensures chan { IfOk result (λ own. own ≡ chan_in self.old slot) }
        ensures none { result ≡ Ok None → drafted self.new ≡ drafted self.old }
        ensures put { (held : Option Chan) → with_chan_in self.new slot held ≡ with_chan_in self.old slot held }
    {
        match self.take_chan(slot) {
            Some(chan) => Ok(Some(chan)),
            None => self.copy_chan(slot),
        }
    }

    /// The channel in a slot comes into a state.
    pub fn enter(&mut self, slot: u16, state: State) -> Result<(), Memory>
        ensures { Brings result self.old self.new (spec.after_move (chan.in_state state) slot (drafted self.old)) }
    {
        let Some(mut moving) = self.take_up(slot)? else {
            return Ok(());
        };
        moving.chan.enter(state);
        self.put_back(moving)
    }

    /// The channel in a slot is to be routed to a target.
    pub fn transfer(&mut self, slot: u16, to: Target3) -> Result<(), Memory>
        requires { chan.IsShortTarget to }
        ensures { Brings result self.old self.new (spec.after_move (chan.transferred to) slot (drafted self.old)) }
    {
        let Some(mut moving) = self.take_up(slot)? else {
            return Ok(());
        };
        moving.chan.transfer(to)?;
        self.put_back(moving)
    }

    /// The channel in a slot comes to CS_PARK and rests there.
    pub fn park(&mut self, slot: u16) -> Result<(), Memory>
        ensures { Brings result self.old self.new (spec.after_move chan.parked slot (drafted self.old)) }
    {
        let Some(mut moving) = self.take_up(slot)? else {
            return Ok(());
        };
        moving.chan.park();
        self.put_back(moving)
    }

    /// A channel begins.
    pub fn begin(&mut self, slot: u16) -> Result<(), Memory>
        ensures { Brings result self.old self.new (spec.after_begin slot (drafted self.old)) }
    {
        self.tell_of(EventName::ChannelCreate, slot)?;
        self.enter(slot, State::CsInit)
    }

    // ---- applications

    /// What the channel in a slot is to run next is used up, and an application begins.
    pub fn begin_next(&mut self, slot: u16, action: Action) -> Result<(), Memory>
        ensures { Brings result self.old self.new
            (spec.run_on action slot (spec.after_move after_next slot (drafted self.old))) }
    {
        let told = action.copy()?;
        self.set_next(slot, action)?;
        self.tell_application(EventName::ChannelExecute, Some(told), slot)
    }

    /// The application of the channel in a slot begins or is over.
    fn tell_application(
        &mut self,
        name: EventName,
        action: Option<Action>,
        slot: u16,
    ) -> Result<(), Memory>
        ensures { Brings result self.old self.new
            (with_event (spec.application_event name action slot) (drafted self.old)) }
    {
        let detail = match action {
            Some(action) => Detail::Application(action),
            None => Detail::Plain,
        };
        self.tell(Event {
            name,
            subject: Some(slot),
            detail,
        })
    }

    /// What the channel in a slot is to run next is used up, and it has begun an application.
    fn set_next(&mut self, slot: u16, action: Action) -> Result<(), Memory>
        ensures { Brings result self.old self.new
            (spec.after_move (λ c. spec.with_running action (after_next c)) slot (drafted self.old)) }
    {
        let Some(mut moving) = self.take_up(slot)? else {
            return Ok(());
        };
        run_next(&mut moving.chan, action);
        self.put_back(moving)
    }

    /// The running application of the channel in a slot is over.
    pub fn complete(&mut self, slot: u16) -> Result<(), Memory>
        ensures { Brings result self.old self.new (spec.after_completion slot (drafted self.old)) }
    {
        let Some(mut moving) = self.take_up(slot)? else {
            return self.tell_application(EventName::ChannelExecuteComplete, None, slot);
        };
        let running = moving.chan.running.take();
        moving.chan.go_on();
        self.put_back(moving)?;
        self.tell_application(EventName::ChannelExecuteComplete, running, slot)
    }

    // ---- the end of a call

    /// The end of the call of the channel in a slot is told.
    pub fn report(&mut self, slot: u16) -> Result<(), Memory>
        ensures { Brings result self.old self.new (spec.after_report slot (drafted self.old)) }
    {
        self.tell(Event {
            name: EventName::ChannelHangupComplete,
            subject: Some(slot),
            detail: Detail::Report,
        })?;
        self.enter(slot, State::CsReporting)
    }
}

/// What a channel is to run next is used up, and it has begun an application.
fn run_next(chan: &mut Chan, action: Action)
    ensures { chan.new ≡ spec.with_running action (after_next chan.old) }
{
    chan.pass_action();
    chan.running = Some(action);
}
