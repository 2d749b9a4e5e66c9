//! How a controller is dialed.

ghost use Rattle.fs_ports.specs.Doors.{DialDid};
ghost use Rattle.fs_ports.specs.Ports.{IsNewLink};

use crate::target::Target;
use fs_ports::{Dialed, Dialer};

/// Dials the port of the host. It fails only where the dialer counts one more fault.
pub fn dial<O: Dialer>(dialer: &mut O, target: &Target) -> Dialed<O::Link>
    ensures { DialDid (λ link. IsNewLink (O.Link.input link) (O.Link.output link))
        (O.dial_faults dialer.old) (O.dial_faults dialer.new) result }
{
    dialer.dial(&target.host, target.port)
}
