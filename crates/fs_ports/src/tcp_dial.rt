//! What connects sockets of the system.

ghost use Rattle.std.specs.Prelude.{◌≡◌, IfOk};

use crate::bells::Bells;
use crate::counts::raised;
use crate::dialer::{Dialed, Dialer};
use crate::tcp_link::TcpLink;
use fs_text::{Memory, Txt};
use std::net::{Net, TcpListener, TcpStream};
use std::time;

/// What connects sockets of the system. A link that it gave belongs to the seat of the door at first.
#[derive(Drop)]
pub struct TcpDial<'a, R: Net<Listener = TcpListener, Stream = TcpStream> + time::Clock> {
    system: &'a R,
    bells: &'a Bells,
    faults: u64,
}

impl<'a, R: Net<Listener = TcpListener, Stream = TcpStream> + time::Clock> TcpDial<'a, R> {
    /// A dialer of which no dial has failed yet.
    pub fn new(system: &'a R, bells: &'a Bells) -> TcpDial<'a, R>
        ensures { result.faults ≡ 0 }
    {
        TcpDial {
            system,
            bells,
            faults: 0,
        }
    }
}

impl<'a, R: Net<Listener = TcpListener, Stream = TcpStream> + time::Clock + Sync> Dialer
    for TcpDial<'a, R> {
    type Link = TcpLink<'a, R>;

    ghost dial_faults = { λ dialer. dialer.faults };

    fn dial(&mut self, host: &Txt, port: u16) -> Dialed<TcpLink<'a, R>> {
        if let Some(stream) = stream(self.system, host, port) {
            let seat = self.bells.door();
            if let Some(link) = TcpLink::new(self.system, self.bells, seat, stream) {
                return Dialed::Link(link);
            }
        }
        self.faults = raised(self.faults);
        Dialed::Failed
    }

    fn twin(&self) -> Result<TcpDial<'a, R>, Memory> {
        Ok(TcpDial {
            system: self.system,
            bells: self.bells,
            faults: self.faults,
        })
    }
}

// A socket that is connected to this port.
fn stream<R: Net<Listener = TcpListener, Stream = TcpStream>>(
    system: &R,
    host: &Txt,
    port: u16,
) -> Option<TcpStream> {
    let host = str::from_utf8(host.as_bytes()).ok()?;
    TcpStream::connect(system, (host, port)).ok()
}
