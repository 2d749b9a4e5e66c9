//! What makes connections.

ghost use Rattle.std.specs.Prelude.{◌≡◌, ℕ, IfOk};
ghost use Rattle.fs_ports.specs.Ports.{IsNewLink};
ghost use Rattle.fs_ports.specs.Doors.{DialDid};

use crate::port::Link;
use fs_text::{Memory, Txt};

/// What a dial answered.
#[derive(Drop)]
pub enum Dialed<L> {
    /// A link of which nothing was read or written yet, and no call failed.
    Link(L),
    Failed,
}

/// What makes connections. It counts its faults.
pub trait Dialer: Send + Drop {
    type Link: Link;

    ghost dial_faults: { Self → ℕ };

    /// Connects to a port of a host.
    fn dial(&mut self, host: &Txt, port: u16) -> Dialed<Self::Link>
        ensures { DialDid (λ link. IsNewLink (Self.Link.input link) (Self.Link.output link))
            (dial_faults self.old) (dial_faults self.new) result };

    /// A dialer of its own, with the same count.
    fn twin(&self) -> Result<Self, Memory>
        ensures { IfOk result (λ twin. dial_faults twin ≡ dial_faults self.now) };
}
