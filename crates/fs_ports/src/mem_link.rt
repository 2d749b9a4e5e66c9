//! A link in memory.

ghost use Rattle.std.specs.Prelude.{◌≡◌, ◌<◌, ◌≤◌, [], true, length, take, min, IfOk};
ghost use Rattle.fs_ports.specs.Memory.{tape_input, new_tape, tape_output};

use crate::counts::raised;
use crate::flag::Flag;
use crate::hold::{self, Hold, Reach};
use crate::port::{Link, Port, Read, Sink, Source, Write};
use crate::raise::{self, Raise};
use fs_text::Memory;
use std::alloc::Global;
use std::marker::Model;

/// A link in memory: it hands out the given bytes in pieces, and keeps what is written.
///
/// Reads and writes that are to fail are named by their numbers, counted from 1.
pub struct MemLink {
    alloc: Global,
    input: Vec<u8>,
    at: usize,
    cuts: Vec<usize>,
    failed_reads: Vec<u64>,
    reads: u64,
    read_faults: u64,
    output: Vec<u8>,
    room: usize,
    failed_writes: Vec<u64>,
    writes: u64,
    write_faults: u64,
    hold: Option<Hold>,
    raise: Option<Raise>,
}

impl Drop for MemLink {
    fn drop(self) {
        let MemLink {
            alloc: _alloc,
            input: _input,
            at: _at,
            cuts: _cuts,
            failed_reads: _failed_reads,
            reads: _reads,
            read_faults: _read_faults,
            output: _output,
            room: _room,
            failed_writes: _failed_writes,
            writes: _writes,
            write_faults: _write_faults,
            hold: _hold,
            raise: _raise,
        } = self;
    }
}

impl Model for MemLink {
    ghost use Rattle.std.specs.Prelude.{take, drop, length, ◌≤◌, is_some, vec_capacity};
    ghost use Rattle.fs_ports.specs.Memory.{Tape};

    ghost Value = { Tape };

    ghost view = { λ l. record {
      taken = take l.at l.input.items;
      left = drop l.at l.input.items;
      read_faults = l.read_faults;
      written = l.output.items;
      write_faults = l.write_faults;
      is_held = is_some l.hold;
    } };

    ghost invariant = { λ l. (l.at ≤ length l.input.items)
        × (length l.output.items ≤ l.room) × (l.room ≤ vec_capacity l.output) };
}

impl MemLink {
    /// A link of these bytes. A cut is a place among them at which a piece ends. There is room for
    /// so many written bytes, and a write that finds none of it left fails.
    pub fn new(
        alloc: Global,
        input: &[u8],
        cuts: &[usize],
        failed_reads: &[u64],
        failed_writes: &[u64],
        room: usize,
    ) -> Result<MemLink, Memory>
        ensures { IfOk result (λ link. link ≡ new_tape input.now) }
    {
        Ok(MemLink {
            alloc,
            input: Vec::from_slice(alloc, input)?,
            at: 0,
            cuts: Vec::from_slice(alloc, cuts)?,
            failed_reads: Vec::from_slice(alloc, failed_reads)?,
            reads: 0,
            read_faults: 0,
            output: Vec::with_capacity(alloc, room)?,
            room,
            failed_writes: Vec::from_slice(alloc, failed_writes)?,
            writes: 0,
            write_faults: 0,
            hold: None,
            raise: None,
        })
    }

    /// The link, with the bytes from this place on held: a read that would give one of them answers that none is there
    /// yet while the flag is down, so many times at most. Then it drops what is left.
    pub fn held(self, from: usize, flag: Flag, turns: u64) -> MemLink
        ensures { result ≡ record self { is_held = true } }
    {
        let mut link = self;
        link.hold = Some(Hold::new(from, flag, turns));
        link
    }

    /// The link, which raises the flag when so many bytes were written.
    pub fn raises(self, at: usize, flag: Flag) -> MemLink
        ensures { result ≡ self }
    {
        let mut link = self;
        link.raise = Some(Raise::new(at, flag));
        raise::written(&link.raise, link.output.len());
        link
    }

    /// A link that stands where this one does, with the same flags.
    pub fn copy(&self) -> Result<MemLink, Memory>
        ensures { IfOk result (λ link. link ≡ self.now) }
    {
        let mut output = Vec::with_capacity(self.alloc, self.room)?;
        output.extend_from_slice(&self.output)?;
        Ok(MemLink {
            alloc: self.alloc,
            input: Vec::from_slice(self.alloc, &self.input)?,
            at: self.at,
            cuts: Vec::from_slice(self.alloc, &self.cuts)?,
            failed_reads: Vec::from_slice(self.alloc, &self.failed_reads)?,
            reads: self.reads,
            read_faults: self.read_faults,
            output,
            room: self.room,
            failed_writes: Vec::from_slice(self.alloc, &self.failed_writes)?,
            writes: self.writes,
            write_faults: self.write_faults,
            hold: hold::copied(&self.hold)?,
            raise: raise::copied(&self.raise)?,
        })
    }

    /// The bytes written so far.
    pub fn written(&self) -> &[u8]
        ensures { result.now ≡ self.now.written }
    {
        self.output.as_slice()
    }
}

impl Port for MemLink {
    ghost input = { tape_input };

    ghost output = { tape_output };
}

impl Source for MemLink {
    fn read(&mut self, buf: &mut [u8]) -> Read {
        self.reads = raised(self.reads);
        if self.failed_reads.contains(&self.reads) {
            self.read_faults = raised(self.read_faults);
            return Read::Failed;
        }
        let end = piece_end(&self.cuts, self.at, self.input.len());
        let end = match hold::reach_of(&mut self.hold, self.at, end) {
            Reach::To(end) => end,
            Reach::NotYet => return Read::NotYet,
            Reach::Over => {
                self.input.truncate(self.at);
                return Read::End;
            }
        };
        let n = copy_front(&self.input[self.at..end], buf);
        if n == 0 {
            return Read::End;
        }
        self.at += n;
        Read::Got(n)
    }

    fn waits(&self) -> bool {
        self.hold.is_none()
    }
}

impl Sink for MemLink {
    fn write(&mut self, bytes: &[u8]) -> Write {
        self.writes = raised(self.writes);
        let n = bytes.len().min(self.room - self.output.len());
        if n == 0 || self.failed_writes.contains(&self.writes) {
            self.write_faults = raised(self.write_faults);
            return Write::Failed;
        }
        match self.output.extend_from_slice(&bytes[..n]) {
            Ok(()) => {
                raise::written(&self.raise, self.output.len());
                Write::Took(n)
            }
            Err(_) => unreachable!(),
        }
    }
}

impl Link for MemLink {}

// The first cut behind this place, or the end.
fn piece_end(cuts: &[usize], at: usize, end: usize) -> usize
    requires { at ≤ end }
    ensures within { (at ≤ result) × (result ≤ end) }
    ensures onward { at < end → at < result }
{
    let mut first = end;
    for &cut in cuts {
        if at < cut && cut < first {
            first = cut;
        }
    }
    first
}

// Copies as many bytes as there are and fit, and says how many.
fn copy_front(from: &[u8], to: &mut [u8]) -> usize
    ensures count { result ≡ min (length from.now) (length to.old) }
    ensures copied { take result to.new ≡ take result from.now }
{
    let n = from.len().min(to.len());
    to[..n].copy_from_slice(&from[..n]);
    n
}
