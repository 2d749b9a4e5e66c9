//! Connections.

use fs_filter::SharedSubs;
use fs_text::{Memory, Txt};

/// How far a connection has come.
#[derive(Clone, Copy, Debug, PartialEq, Eq)]
pub enum Phase {
    /// It has not said the password yet.
    Fresh,
    /// It has.
    Ready,
    /// It reads no further command.
    Ending,
    /// It is gone, or was never there.
    Closed,
}

/// What made a connection read no further command.
#[derive(Clone, Copy, Debug, PartialEq, Eq)]
pub enum Parting {
    /// The command `exit`.
    Exit,
    /// A wrong password.
    AuthRefused,
    /// The end of its input.
    EndOfInput,
    /// The end of the switch.
    Stopped,
    /// The channel that it controlled has left it.
    ChannelLeft,
}

/// The channel that a connection controls, for which it was dialed.
#[derive(Drop)]
pub struct Control {
    /// The slot of the channel.
    pub slot: u16,
    /// Its identifier.
    pub uuid: Txt,
    /// The text that named the controller.
    pub dialed: Txt,
}

impl Control {
    ghost use Rattle.std.specs.Prelude.{◌≡◌, IfOk};

    /// The same once more, in constant time.
    pub fn copy(&self) -> Result<Control, Memory>
        ensures { IfOk result (λ control. control ≡ self.now) }
    {
        Ok(Control {
            slot: self.slot,
            uuid: self.uuid.copy()?,
            dialed: self.dialed.copy()?,
        })
    }
}

/// A connection of the event socket.
#[derive(Drop)]
pub struct Conn {
    /// How far it has come.
    pub phase: Phase,
    /// The place of the command to which it is still owed the reply.
    pub owed: Option<u64>,
    /// Why it is ending, where it is.
    pub parting: Option<Parting>,
    /// The channel that it controls, if it was dialed for one.
    pub control: Option<Control>,
    /// The events that it subscribed, and its filters.
    pub subs: SharedSubs,
}

impl Conn {
    ghost use Rattle.std.specs.Prelude.{◌≡◌, IfOk};

    /// The same connection once more, in constant time.
    pub fn copy(&self) -> Result<Conn, Memory>
        ensures { IfOk result (λ conn. conn ≡ self.now) }
    {
        Ok(Conn {
            phase: self.phase,
            owed: self.owed,
            parting: self.parting,
            control: self.copy_control()?,
            subs: self.subs.copy()?,
        })
    }

    /// The channel that it controls, once more.
    pub fn copy_control(&self) -> Result<Option<Control>, Memory>
        ensures { IfOk result (λ control. control ≡ self.now.control) }
    {
        match &self.control {
            Some(control) => Ok(Some(control.copy()?)),
            None => Ok(None),
        }
    }
}
