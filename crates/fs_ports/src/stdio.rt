//! A reader and a writer of the system as one link.

ghost use Rattle.std.specs.Prelude.{◌≡◌};

use crate::counts::raised;
use crate::port::{Link, Port, Read, Sink, Source, Write};
use std::io;

/// A reader and a writer of the system as one link, as standard input and output are.
/// Of their bytes it tells nothing.
#[derive(Drop)]
pub struct Stdio<R: io::Read + Drop, W: io::Write + Drop> {
    reader: R,
    writer: W,
    read_faults: u64,
    write_faults: u64,
}

impl<R: io::Read + Drop, W: io::Write + Drop> Stdio<R, W> {
    /// A link of which no call has failed yet.
    pub fn new(reader: R, writer: W) -> Stdio<R, W>
        ensures { (result.read_faults ≡ 0) × (result.write_faults ≡ 0) }
    {
        Stdio {
            reader,
            writer,
            read_faults: 0,
            write_faults: 0,
        }
    }
}

impl<R: io::Read + Drop, W: io::Write + Drop> Port for Stdio<R, W> {
    ghost use Rattle.std.specs.Prelude.{None, true};

    ghost input = { λ s. record { taken = None; left = None; faults = s.read_faults; waits = true } };

    ghost output = { λ s. record { written = None; faults = s.write_faults } };
}

impl<R: io::Read + Drop, W: io::Write + Drop> Source for Stdio<R, W> {
    fn read(&mut self, buf: &mut [u8]) -> Read {
        match self.reader.read(buf) {
            Ok(0) => Read::End,
            Ok(n) => Read::Got(n),
            Err(_) => {
                self.read_faults = raised(self.read_faults);
                Read::Failed
            }
        }
    }

    fn waits(&self) -> bool {
        true
    }
}

impl<R: io::Read + Drop, W: io::Write + Drop> Sink for Stdio<R, W> {
    fn write(&mut self, bytes: &[u8]) -> Write {
        match self.writer.write(bytes) {
            Ok(0) | Err(_) => {
                self.write_faults = raised(self.write_faults);
                Write::Failed
            }
            Ok(n) => Write::Took(n),
        }
    }
}

impl<R: io::Read + Send + Drop, W: io::Write + Send + Drop> Link for Stdio<R, W> {}
