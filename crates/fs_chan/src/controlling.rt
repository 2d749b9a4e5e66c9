//! How a channel waits for a controller, and is held by the connection of one.
ghost use Rattle.std.specs.Prelude.{◌≡◌};
ghost use Rattle.std.specs.Option.{option_copied};
ghost use Rattle.fs_chan.specs.Controlling as spec;

use crate::chan::Chan;
use crate::wait::Wait;
use fs_text::{State, Txt};

impl Chan {
    /// Waits until the controller that a text names was dialed.
    pub fn await_dial(&mut self, text: Txt)
        ensures { self.new ≡ spec.awaiting_dial text self.old }
    {
        self.wait = Wait::Dial { text };
    }

    /// Is held by the connection of a number, and waits for messages, or for the end of that.
    pub fn hold(&mut self, conn: u32)
        ensures { self.new ≡ spec.held_by conn self.old }
    {
        self.socket = Some(conn);
        self.wait = Wait::Socket { conn };
    }

    /// Is held by no connection any more. If it waited for the end of one, what it ran is complete.
    pub fn let_go(&mut self)
        ensures { self.new ≡ spec.let_go self.old }
    {
        self.socket = None;
        if let Wait::Socket { .. } = &self.wait {
            self.go_on();
        }
    }

    /// The text that names the controller for whom it waits.
    pub fn dial_text(&self) -> Option<&Txt>
        ensures { option_copied result ≡ spec.dial_of self.now }
    {
        match (self.state, &self.wait) {
            (State::CsExecute | State::CsPark, Wait::Dial { text }) => Some(text),
            _ => None,
        }
    }

    /// Whether the connection of a number holds it.
    pub fn is_held_by(&self, conn: u32) -> bool
        ensures { result ≡ spec.is_held_by conn self.now }
    {
        self.socket == Some(conn)
    }
}
