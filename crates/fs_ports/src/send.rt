//! Sending bytes whole.

ghost use Rattle.std.specs.Prelude.{◌≡◌};
ghost use Rattle.fs_ports.specs.Ports.{SendDid};

use crate::port::{Sink, Write};

/// Whether all bytes were written.
#[derive(Clone, Copy, Debug, PartialEq, Eq)]
pub enum Sent {
    All,
    /// A write failed. The bytes before it were written.
    Failed,
}

/// Writes all these bytes, in as many writes as the sink asks for.
pub fn send_all<K: Sink>(sink: &mut K, bytes: &[u8]) -> Sent
    ensures output { SendDid (K.output sink.old) (K.output sink.new) result bytes.now }
    ensures input { K.input sink.new ≡ K.input sink.old }
{
    let mut done = 0;
    while done < bytes.len() {
        match sink.write(&bytes[done..]) {
            Write::Took(n) => done += n,
            Write::Failed => return Sent::Failed,
        }
    }
    Sent::All
}
