//! A socket of the system that others connect to.

ghost use Rattle.std.specs.Prelude.{◌≡◌};

use crate::bells::Bells;
use crate::counts::raised;
use crate::door::{Accept, Door, Listen};
use crate::tcp_link::TcpLink;
use fs_text::Txt;
use std::io::ErrorKind;
use std::net::{Net, TcpListener, TcpStream};
use std::os::fd::AsRawFd;
use std::time;

/// A socket of the system that others connect to. A link that came belongs to the seat of the door at first.
#[derive(Drop)]
pub struct TcpDoor<'a, R: Net<Listener = TcpListener, Stream = TcpStream> + time::Clock> {
    system: &'a R,
    bells: &'a Bells,
    listener: Option<TcpListener>,
    faults: u64,
}

impl<'a, R: Net<Listener = TcpListener, Stream = TcpStream> + time::Clock> TcpDoor<'a, R> {
    /// A door that does not listen yet.
    pub fn new(system: &'a R, bells: &'a Bells) -> TcpDoor<'a, R>
        ensures { result.faults ≡ 0 }
    {
        TcpDoor {
            system,
            bells,
            listener: None,
            faults: 0,
        }
    }
}

impl<'a, R: Net<Listener = TcpListener, Stream = TcpStream> + time::Clock + Sync> Door
    for TcpDoor<'a, R> {
    type Link = TcpLink<'a, R>;

    ghost door_faults = { λ door. door.faults };

    fn listen(&mut self, ip: &Txt, port: u16) -> Listen {
        match listener(self.system, ip, port) {
            Some(listener) => {
                self.listener = Some(listener);
                Listen::Listening
            }
            None => {
                self.faults = raised(self.faults);
                Listen::Failed
            }
        }
    }

    fn accept(&mut self) -> Accept<TcpLink<'a, R>> {
        match next(&self.listener, self.bells) {
            Came::Stream(stream) => {
                let seat = self.bells.door();
                match TcpLink::new(self.system, self.bells, seat, stream) {
                    Some(link) => Accept::Came(link),
                    // It is dropped, and the next one is looked for.
                    None => Accept::NotYet,
                }
            }
            Came::NotYet => Accept::NotYet,
            Came::Failed => {
                self.faults = raised(self.faults);
                Accept::Failed
            }
        }
    }
}

// What the socket of a door gave.
#[derive(Drop)]
enum Came {
    Stream(TcpStream),
    NotYet,
    Failed,
}

// The next connection, if the door listens. Where the system cannot give one for now, as for want of descriptors,
// whoever asks sleeps for a nap before it asks again; else until somebody comes.
fn next(listener: &Option<TcpListener>, bells: &Bells) -> Came {
    let Some(listener) = listener else {
        return Came::Failed;
    };
    let seat = bells.door();
    seat.set_dry(listener.as_raw_fd());
    let e = match listener.accept() {
        Ok((stream, _)) => return Came::Stream(stream),
        Err(e) => e,
    };
    match e.kind() {
        ErrorKind::WouldBlock | ErrorKind::Interrupted => return Came::NotYet,
        _ => {}
    }
    if is_for_good(e.raw_os_error()) {
        return Came::Failed;
    }
    seat.forget_dry();
    Came::NotYet
}

// Whether an accept that failed so always fails: there is no socket, or it does not listen.
fn is_for_good(code: Option<i32>) -> bool {
    match code {
        Some(code) => code == libc::EBADF || code == libc::EINVAL || code == libc::ENOTSOCK,
        None => false,
    }
}

// A socket that listens here, and whose accepts do not wait.
fn listener<R: Net<Listener = TcpListener, Stream = TcpStream>>(
    system: &R,
    ip: &Txt,
    port: u16,
) -> Option<TcpListener> {
    let ip = str::from_utf8(ip.as_bytes()).ok()?;
    let listener = TcpListener::bind(system, (ip, port)).ok()?;
    listener.set_nonblocking(true).ok()?;
    Some(listener)
}
