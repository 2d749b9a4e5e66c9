//! A socket of the system as a link.

ghost use Rattle.std.specs.Prelude.{◌≡◌, ◌<◌, ◌≤◌, length, IfSome};

use crate::bells::{Bells, Seat};
use crate::counts::raised;
use crate::port::{Link, Port, Read, Sink, Source, Write};
use crate::sleeper::Sleeper;
use std::io::{ErrorKind, Read as _, Write as _};
use std::net::{Shutdown, TcpStream};
use std::os::fd::AsRawFd;
use std::time::{self, Duration};

// A write fails where the socket has taken nothing for so many milliseconds.
const PATIENCE: u128 = 5000;

// Of a link that is hung up so many bytes more are dropped, for so many milliseconds.
const LATE_BYTES: usize = 1_048_576;

const LATE: u128 = 1000;

/// A socket of the system as a link, whose reads never wait. Of its bytes it tells nothing.
#[derive(Drop)]
pub struct TcpLink<'a, R: time::Clock> {
    system: &'a R,
    bells: &'a Bells,
    seat: &'a Seat,
    // None once the connection is ended.
    stream: Option<TcpStream>,
    read_faults: u64,
    write_faults: u64,
}

impl<'a, R: time::Clock> TcpLink<'a, R> {
    // A link of which no call has failed yet, if the socket can be set up.
    pub(crate) fn new(
        system: &'a R,
        bells: &'a Bells,
        seat: &'a Seat,
        stream: TcpStream,
    ) -> Option<TcpLink<'a, R>>
        ensures { IfSome result (λ link. (link.read_faults ≡ 0) × (link.write_faults ≡ 0)) }
    {
        stream.set_nodelay(true).ok()?;
        stream.set_nonblocking(true).ok()?;
        Some(TcpLink {
            system,
            bells,
            seat,
            stream: Some(stream),
            read_faults: 0,
            write_faults: 0,
        })
    }

    // Writes some of these bytes, and says how many, unless the socket fails or takes nothing for too long.
    fn push(&self, bytes: &[u8]) -> Option<usize>
        ensures { IfSome result (λ n. (0 < n) × (n ≤ length bytes.now)) }
    {
        let mut stream = self.stream.as_ref()?;
        let begun = self.system.monotonic().ok()?;
        for _ in 0..u64::MAX {
            match stream.write(bytes) {
                Ok(0) => return None,
                Ok(n) => return Some(n),
                Err(e) => self.wait_after(stream.as_raw_fd(), e.kind(), begun)?,
            }
        }
        None
    }

    // Tells the other side that nothing more comes, and drops what it still sends, until it has ended, too, or for a
    // while. A socket that is closed over bytes that nobody has read takes back what it has not delivered.
    fn linger(&self) -> Option<()> {
        let mut stream = self.stream.as_ref()?;
        stream.shutdown(Shutdown::Write).ok()?;
        let begun = self.system.monotonic().ok()?;
        let mut room = LATE_BYTES;
        let mut buf = [0; 4096];
        for _ in 0..u64::MAX {
            let is_dry = match stream.read(&mut buf) {
                Ok(0) => return None,
                Ok(n) => {
                    room = room.checked_sub(n)?;
                    false
                }
                Err(e) => match e.kind() {
                    ErrorKind::WouldBlock | ErrorKind::Interrupted => true,
                    _ => return None,
                },
            };
            let waited = self.system.monotonic().ok()?.saturating_sub(begun);
            let left = LATE.saturating_sub(waited.as_millis());
            if left == 0 {
                return None;
            }
            if is_dry {
                let millis = i32::try_from(left).unwrap_or(0);
                self.seat.wait_readable(stream.as_raw_fd(), millis);
            }
        }
        None
    }

    // After a write that took nothing, waits until the socket may take bytes, if there is time for it.
    fn wait_after(&self, socket: i32, kind: ErrorKind, begun: Duration) -> Option<()> {
        match kind {
            ErrorKind::Interrupted => Some(()),
            ErrorKind::WouldBlock => {
                let waited = self.system.monotonic().ok()?.saturating_sub(begun);
                let left = PATIENCE.saturating_sub(waited.as_millis());
                if left == 0 {
                    return None;
                }
                let millis = i32::try_from(left).unwrap_or(0);
                self.seat.wait_writable(socket, millis);
                Some(())
            }
            _ => None,
        }
    }
}

impl<'a, R: time::Clock> Port for TcpLink<'a, R> {
    ghost use Rattle.std.specs.Prelude.{None, false};

    ghost input = { λ l. record { taken = None; left = None; faults = l.read_faults; waits = false } };

    ghost output = { λ l. record { written = None; faults = l.write_faults } };
}

impl<'a, R: time::Clock> Source for TcpLink<'a, R> {
    fn read(&mut self, buf: &mut [u8]) -> Read {
        let Some(mut stream) = self.stream.as_ref() else {
            return Read::End;
        };
        let kind = match stream.read(buf) {
            Ok(0) => return Read::End,
            Ok(n) => return Read::Got(n),
            Err(e) => e.kind(),
        };
        match kind {
            ErrorKind::WouldBlock | ErrorKind::Interrupted => {
                self.seat.set_dry(stream.as_raw_fd());
                Read::NotYet
            }
            _ => {
                self.read_faults = raised(self.read_faults);
                Read::Failed
            }
        }
    }

    fn waits(&self) -> bool {
        false
    }
}

impl<'a, R: time::Clock> Sink for TcpLink<'a, R> {
    fn write(&mut self, bytes: &[u8]) -> Write {
        match self.push(bytes) {
            Some(n) => Write::Took(n),
            None => {
                self.write_faults = raised(self.write_faults);
                Write::Failed
            }
        }
    }
}

impl<'a, R: time::Clock + Sync> Link for TcpLink<'a, R> {
    fn belong_to(&mut self, sleeper: Sleeper) {
        self.seat = self.bells.seat(sleeper);
    }

    fn hang_up(&mut self) {
        if self.write_faults == 0 {
            let _over = self.linger();
        }
        self.stream = None;
    }
}
