//! Where connections come in.

ghost use Rattle.std.specs.Prelude.{ℕ};
ghost use Rattle.fs_ports.specs.Ports.{IsNewLink};
ghost use Rattle.fs_ports.specs.Doors.{ListenDid, AcceptDid};

use crate::port::Link;
use fs_text::Txt;

/// What listening answered.
#[derive(Clone, Copy, Debug, PartialEq, Eq)]
pub enum Listen {
    Listening,
    Failed,
}

/// What an accept answered.
#[derive(Drop)]
pub enum Accept<L> {
    /// A link of which nothing was read or written yet, and no call failed.
    Came(L),
    /// Nobody has come yet.
    NotYet,
    Failed,
}

/// Where connections come in. It counts its faults.
pub trait Door {
    type Link: Link;

    ghost door_faults: { Self → ℕ };

    /// Begins to listen at this address and port.
    fn listen(&mut self, ip: &Txt, port: u16) -> Listen
        ensures { ListenDid (door_faults self.old) (door_faults self.new) result };

    /// Takes the next connection.
    fn accept(&mut self) -> Accept<Self::Link>
        ensures { AcceptDid (λ link. IsNewLink (Self.Link.input link) (Self.Link.output link))
            (door_faults self.old) (door_faults self.new) result };
}
