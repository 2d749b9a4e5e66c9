//! What a server came to, its line and its status.

ghost use Rattle.std.specs.Prelude.{◌≡◌};
ghost use Rattle.fs_ports.specs.Ports.{SendDid};
ghost use Rattle.fs_top.specs.Serving.{line_of_course, status_of_course};

use crate::lines::say;
use crate::outcome::Outcome;
use fs_ports::{Sent, Sink, send_all};

/// What a server came to.
#[derive(Clone, Copy)]
pub(crate) enum Course<'a> {
    /// What a run may come to, too.
    Run(Outcome<'a>),
    /// The door failed, and so the server ended.
    DoorFault,
}

impl<'a> Course<'a> {
    /// The status that the program ends with.
    pub(crate) fn status(self) -> u8
        ensures { result ≡ status_of_course self.entry }
    {
        match self {
            Course::Run(outcome) => outcome.status(),
            Course::DoorFault => 7,
        }
    }

    /// Prints its line, if it has one.
    #[tactic(auto, unfolding(crate::specs::Serving::door_fault_line))]
    pub(crate) fn say<E: Sink>(self, err: &mut E) -> Sent
        ensures { SendDid (E.output err.old) (E.output err.new) result (line_of_course self.entry) }
    {
        match self {
            Course::Run(outcome) => say(err, outcome),
            Course::DoorFault => send_all(err, b"fsw: door fault\n"),
        }
    }
}
