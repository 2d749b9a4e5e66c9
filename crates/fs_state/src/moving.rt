//! A channel that is taken up to be changed, and then put back, where it tells of its change of state.
ghost use Rattle.std.specs.Prelude.{◌≡◌, Option, None, Ok, IfOk};
ghost use Rattle.fs_chan.specs.declared.chan.Chan.{Chan};
ghost use Rattle.fs_state.specs.Drafts.{drafted, Brings, chan_in, with_chan_in};
ghost use Rattle.fs_state.specs.Moves.{put_moved};
ghost use Rattle.fs_state.specs.Moving.{IsTakenUp};

use crate::draft::Draft;
use fs_chan::Chan;
use fs_seats::Boxed;
use fs_text::{Memory, State};

/// A channel that was taken up from a slot, with the state that it had there.
pub struct Moving {
    /// Its slot.
    pub slot: u16,
    /// The state that it had.
    pub from: State,
    /// The channel, to be changed.
    pub chan: Boxed<Chan>,
}

impl Drop for Moving {
    fn drop(self) {
        let Moving {
            slot: _slot,
            from: _from,
            chan: _chan,
        } = self;
    }
}

impl Moving {
    /// Its slot, the state that it had, and the channel.
    fn into_parts(self) -> (u16, State, Boxed<Chan>)
        ensures { result ≡ (self.slot, self.from, self.chan) }
    {
        let Moving { slot, from, chan } = self;
        (slot, from, chan)
    }
}

impl<'a> Draft<'a> {
    /// Takes up the channel in a slot, to be changed and put back there, if there is one.
    pub fn take_up(&mut self, slot: u16) -> Result<Option<Moving>, Memory>
        ensures base { self.new.base ≡ self.old.base }
        ensures taken { IfOk result (IsTakenUp slot (chan_in self.old slot)) }
        ensures none { result ≡ Ok None → drafted self.new ≡ drafted self.old }
        ensures put { (held : Option Chan) → with_chan_in self.new slot held ≡ with_chan_in self.old slot held }
    {
        match self.own_chan(slot)? {
            Some(chan) => Ok(Some(Moving {
                slot,
                from: chan.state,
                chan,
            })),
            None => Ok(None),
        }
    }

    /// Puts a channel back into its slot, and tells of its change of state.
    pub fn put_back(&mut self, moving: Moving) -> Result<(), Memory>
        ensures { Brings result self.old self.new
            (put_moved moving.slot moving.from moving.chan (drafted self.old)) }
    {
        let (slot, from, chan) = moving.into_parts();
        let new = chan.state;
        self.put_chan(slot, Some(chan))?;
        self.tell_state(slot, from, new)
    }
}
