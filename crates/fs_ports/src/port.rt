//! Links: what is read and what is written.

ghost use Rattle.std.specs.Prelude.{◌≡◌, ◌<◌, length};
ghost use Rattle.fs_ports.specs.Ports.{Input, Output, ReadDid, WriteDid};

use crate::sleeper::Sleeper;

/// What a read answered.
#[derive(Clone, Copy, Debug, PartialEq, Eq)]
pub enum Read {
    /// So many bytes stand at the front of the buffer now.
    Got(usize),
    /// No byte is there yet.
    NotYet,
    /// No byte will come any more.
    End,
    /// The read failed, and gave nothing.
    Failed,
}

/// What a write answered.
#[derive(Clone, Copy, Debug, PartialEq, Eq)]
pub enum Write {
    /// So many bytes were taken from the front.
    Took(usize),
    /// The write failed, and took nothing. This is the answer of a device that took no byte, too.
    Failed,
}

/// What contracts see of the two sides of a link. A call on one side leaves the other as it was.
pub trait Port {
    ghost input: { Self → Input };

    ghost output: { Self → Output };
}

/// The side that is read.
pub trait Source: Port {
    /// Reads into a buffer that is not empty.
    fn read(&mut self, buf: &mut [u8]) -> Read
        requires { 0 < length buf.old }
        ensures input { ReadDid (Self.input self.old) (Self.input self.new) result buf.new }
        ensures output { Self.output self.new ≡ Self.output self.old };

    /// Whether a read waits for its bytes, so that it never answers `NotYet`.
    fn waits(&self) -> bool
        ensures { result ≡ (Self.input self.now).waits };
}

/// The side that is written.
pub trait Sink: Port {
    /// Writes some of these bytes, of which there is at least one.
    fn write(&mut self, bytes: &[u8]) -> Write
        requires { 0 < length bytes.now }
        ensures output { WriteDid (Self.output self.old) (Self.output self.new) result bytes.now }
        ensures input { Self.input self.new ≡ Self.input self.old };
}

/// A connection: bytes come from it and go to it.
pub trait Link: Source + Sink + Send + Drop {
    /// Says who sleeps until something comes.
    fn belong_to(&mut self, _sleeper: Sleeper)
        ensures input { Self.input self.new ≡ Self.input self.old }
        ensures output { Self.output self.new ≡ Self.output self.old }
    {}

    /// Ends the connection, of which nothing more is to be read or written. What is told of it stays.
    fn hang_up(&mut self)
        ensures input { Self.input self.new ≡ Self.input self.old }
        ensures output { Self.output self.new ≡ Self.output self.old }
    {}
}
