//! What was handed out and is not written yet.

ghost use Rattle.std.specs.Prelude.{◌≡◌, [], IfOk};
ghost use Rattle.fs_conn.specs.Steps.{Puts, Clears};

use crate::stop::Stop;
use fs_ports::{Link, Sent, send_all};
use fs_text::Memory;
use std::alloc::Global;
use std::marker::Model;

/// With so many bytes what is unsent is written.
const MOST_BYTES: usize = 65_536;

/// The frames of a play that were handed out and are not written yet, joined.
#[derive(Drop)]
pub(crate) struct Unsent {
    bytes: Vec<u8>,
}

impl Model for Unsent {
    ghost use Rattle.std.specs.Prelude.{ℕ, List, length, ◌<◌, ◌≤◌, vec_capacity};

    ghost Value = { List ℕ };

    ghost view = { λ u. u.bytes.items };

    ghost invariant = { λ u. (length u.bytes.items < 65536) × (65536 ≤ vec_capacity u.bytes) };
}

impl Unsent {
    /// Nothing, with place for all that may come.
    pub(crate) fn new(alloc: Global) -> Result<Unsent, Memory>
        ensures { IfOk result (λ unsent. unsent ≡ []) }
    {
        let bytes = Vec::with_capacity(alloc, MOST_BYTES)?;
        Ok(Unsent { bytes })
    }

    /// Adds a frame. All is written where that makes it too many bytes.
    pub(crate) fn put<L: Link>(&mut self, frame: &[u8], link: &mut L) -> Result<(), Stop>
        ensures puts { Puts (L.output link.old) (L.output link.new) self.old self.new frame.now result }
        ensures input { L.input link.new ≡ L.input link.old }
    {
        if frame.len() < MOST_BYTES - self.bytes.len() {
            return match self.bytes.extend_from_slice(frame) {
                Ok(()) => Ok(()),
                Err(_) => unreachable!(),
            };
        }
        self.write(link)?;
        match send_all(link, frame) {
            Sent::All => Ok(()),
            Sent::Failed => Err(Stop::WriteFault),
        }
    }

    /// Writes all of it.
    pub(crate) fn write<L: Link>(&mut self, link: &mut L) -> Result<(), Stop>
        ensures writes { Clears (L.output link.old) (L.output link.new) self.old self.new result }
        ensures input { L.input link.new ≡ L.input link.old }
    {
        let sent = send_all(link, self.bytes.as_slice());
        self.bytes.clear();
        match sent {
            Sent::All => Ok(()),
            Sent::Failed => Err(Stop::WriteFault),
        }
    }
}
