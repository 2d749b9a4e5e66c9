//! How a channel waits in a queue, and for a caller of one.
ghost use Rattle.std.specs.Prelude.{◌≡◌};
ghost use Rattle.std.specs.Option.{option_copied};
ghost use Rattle.fs_chan.specs.Queueing as spec;

use crate::chan::Chan;
use crate::turn::Turn;
use crate::wait::Wait;
use fs_text::{State, Txt};
use fs_vars::Vars;

/// The number of a priority that nobody gave.
const USUAL_PRIORITY: u8 = 5;

impl Chan {
    /// Waits in the queue of a name, with the priority that its variable `fifo_priority` gives, and came by the entry
    /// at a place.
    pub fn queue(&mut self, name: Txt, place: u64)
        ensures { self.new ≡ spec.queued name place self.old }
    {
        let priority = priority_of(&self.vars);
        let arrival = place;
        let turn = Turn { priority, arrival };
        self.wait = Wait::FifoIn { name, turn };
    }

    /// Waits for a caller in the queue of a name.
    pub fn await_caller(&mut self, name: Txt)
        ensures { self.new ≡ spec.awaiting_caller name self.old }
    {
        self.wait = Wait::FifoOut { name };
    }

    /// The name of the queue in which it waits.
    pub fn queue_of(&self) -> Option<&Txt>
        ensures { option_copied result ≡ spec.queue_of self.now }
    {
        match (self.state, &self.wait) {
            (State::CsExecute | State::CsPark, Wait::FifoIn { name, .. }) => Some(name),
            _ => None,
        }
    }

    /// Its turn in the queue of a name, if it waits there.
    pub fn turn_in(&self, name: &[u8]) -> Option<Turn>
        ensures { result ≡ spec.turn_of name.now self.now }
    {
        match (self.state, &self.wait) {
            (State::CsExecute | State::CsPark, Wait::FifoIn { name: queue, turn })
                if queue.as_bytes() == name => Some(*turn),
            _ => None,
        }
    }

    /// The name of the queue for a caller of which it waits.
    pub fn wanted_queue(&self) -> Option<&Txt>
        ensures { option_copied result ≡ spec.wanted_by self.now }
    {
        match (self.state, &self.wait) {
            (State::CsExecute | State::CsPark, Wait::FifoOut { name }) => Some(name),
            _ => None,
        }
    }
}

/// The number of the priority of a channel with these variables.
fn priority_of(vars: &Vars) -> u8
    ensures { result ≡ spec.priority_of vars.now }
{
    match vars.get(b"fifo_priority") {
        Some(text) => priority_in(text.as_bytes()),
        None => USUAL_PRIORITY,
    }
}

/// The number that a text gives: one digit, or the usual one.
fn priority_in(text: &[u8]) -> u8
    ensures { result ≡ spec.priority_in text.now }
{
    match text {
        [digit] if digit.is_ascii_digit() => digit - b'0',
        _ => USUAL_PRIORITY,
    }
}
