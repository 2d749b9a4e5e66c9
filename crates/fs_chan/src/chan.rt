//! The record of a channel, and its copy.
ghost use Rattle.std.specs.Prelude.{◌≡◌, IfOk};

use crate::action::Action;
use crate::left::ActionsLeft;
use crate::peer::{Direction, Peer};
use crate::profile::SharedProfile;
use crate::shared::SharedVars;
use crate::wait::Wait;
use fs_text::{Cause, Memory, State, Txt};

/// A channel: one leg of a call.
///
/// A contract sees its fields. What refers to other things does so by their numbers.
pub struct Chan {
    /// Its identifier.
    pub uuid: Txt,
    /// The slot that holds it.
    pub slot: u16,
    /// Where it stands in its life.
    pub state: State,
    pub direction: Direction,
    pub profile: SharedProfile,
    pub vars: SharedVars,
    /// What it is to run, as the dialplan gave it.
    pub actions: ActionsLeft,
    /// What it is to run first, as clients sent it.
    pub messages: ActionsLeft,
    /// The application that has begun and is not complete.
    pub running: Option<Action>,
    pub wait: Wait,
    /// The place of the entry that answered it.
    pub answered: Option<u64>,
    /// The slot of the other end of its loopback pair.
    pub partner: Option<u16>,
    /// The other leg of its bridge.
    pub peer: Option<Peer>,
    /// The number of the origination that it is a leg of, until that is decided.
    pub leg_of: Option<u64>,
    /// The number of the outbound connection that holds it.
    pub socket: Option<u32>,
    /// Why it was hung up.
    pub cause: Option<Cause>,
    /// How often it was routed.
    pub hops: u32,
}

impl Drop for Chan {
    fn drop(self) {
        let Chan {
            uuid: _uuid,
            slot: _slot,
            state: _state,
            direction: _direction,
            profile: _profile,
            vars: _vars,
            actions: _actions,
            messages: _messages,
            running: _running,
            wait: _wait,
            answered: _answered,
            partner: _partner,
            peer: _peer,
            leg_of: _leg_of,
            socket: _socket,
            cause: _cause,
            hops: _hops,
        } = self;
    }
}

impl Chan {
    ghost use Rattle.fs_chan.specs.Changes.{new_channel, is_live};

    /// A channel in CS_NEW that has run nothing.
    pub fn new(
        uuid: Txt,
        slot: u16,
        direction: Direction,
        profile: SharedProfile,
        vars: SharedVars,
    ) -> Chan
        ensures { result ≡ new_channel uuid slot direction profile vars }
    {
        Chan {
            uuid,
            slot,
            state: State::CsNew,
            direction,
            profile,
            vars,
            actions: ActionsLeft::none(),
            messages: ActionsLeft::none(),
            running: None,
            wait: Wait::Ready,
            answered: None,
            partner: None,
            peer: None,
            leg_of: None,
            socket: None,
            cause: None,
            hops: 0,
        }
    }

    /// The same channel once more.
    pub fn copy(&self) -> Result<Chan, Memory>
        ensures { IfOk result (λ chan. chan ≡ self.now) }
    {
        Ok(Chan {
            uuid: self.uuid.copy()?,
            running: self.copy_running()?,
            peer: self.copy_peer()?,
            wait: self.wait.copy()?,
            actions: self.actions.copy()?,
            messages: self.messages.copy()?,
            vars: self.vars.copy()?,
            profile: self.profile.copy()?,
            slot: self.slot,
            state: self.state,
            direction: self.direction,
            answered: self.answered,
            partner: self.partner,
            leg_of: self.leg_of,
            socket: self.socket,
            cause: self.cause,
            hops: self.hops,
        })
    }

    /// The running application once more.
    fn copy_running(&self) -> Result<Option<Action>, Memory>
        ensures { IfOk result (λ running. running ≡ self.now.running) }
    {
        match &self.running {
            Some(action) => Ok(Some(action.copy()?)),
            None => Ok(None),
        }
    }

    /// The peer once more.
    fn copy_peer(&self) -> Result<Option<Peer>, Memory>
        ensures { IfOk result (λ peer. peer ≡ self.now.peer) }
    {
        match &self.peer {
            Some(peer) => Ok(Some(peer.copy()?)),
            None => Ok(None),
        }
    }

    /// Whether it is live: it has not come to CS_HANGUP.
    pub fn is_live(&self) -> bool
        ensures { result ≡ is_live self.now }
    {
        self.state.number() < State::CsHangup.number()
    }
}
