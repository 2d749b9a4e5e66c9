//! A link, with what was handed out and is not written to it yet.

ghost use Rattle.std.specs.Prelude.{◌≡◌, IsTrue};
ghost use Rattle.fs_conn.specs.Steps.{Puts, Clears, Fills, WritesFirst, MayBeFed, HoldsLittle};
ghost use Rattle.fs_conn.specs.Wired.{IsUnread};

use crate::stop::Stop;
use crate::unsent::Unsent;
use fs_frame::Blocks;
use fs_ports::{Link, Read};
use std::marker::Model;

/// What a read came to.
#[derive(Clone, Copy, Debug)]
pub(crate) enum Filled {
    More,
    AtEnd,
    ReadFailed,
}

/// How many bytes a read takes at most.
const MOST_BYTES: usize = 4_096;

/// A link, with what was handed out and is not written to it yet. A contract sees both sides of the link.
#[derive(Drop)]
pub(crate) struct Wire<'a, L: Link> {
    pub(crate) unsent: Unsent,
    pub(crate) link: &'a mut L,
}

impl<'a, L: Link> Model for Wire<'a, L> {
    ghost use Rattle.fs_conn.specs.Wired.{Wired};

    ghost Value = { Wired };

    ghost view = { λ w. record {
      input = L.input w.link.now;
      output = L.output w.link.now;
      unsent = w.unsent;
      link = w.link.ghost_name;
    } };
}

impl<L: Link> Wire<'_, L> {
    /// Adds a frame to what is unsent. All is written where that makes it too many bytes.
    pub(crate) fn put(&mut self, frame: &[u8]) -> Result<(), Stop>
        ensures puts { Puts self.old.output self.new.output self.old.unsent self.new.unsent frame.now result }
        ensures unread { IsUnread self.old self.new }
    {
        self.unsent.put(frame, self.link)
    }

    /// Writes all that is unsent.
    pub(crate) fn write(&mut self) -> Result<(), Stop>
        ensures clears { Clears self.old.output self.new.output self.old.unsent self.new.unsent result }
        ensures unread { IsUnread self.old self.new }
    {
        self.unsent.write(self.link)
    }

    /// Writes what is unsent, and then reads once. It is called only where more is needed for a block.
    pub(crate) fn fill(&mut self, blocks: &mut Blocks) -> Result<Filled, Stop>
        requires waits { IsTrue self.old.input.waits }
        requires may { MayBeFed blocks.old }
        ensures fills { Fills self.old.input self.new.input blocks.old blocks.new result }
        ensures writes { WritesFirst self.old.output self.new.output self.old.unsent self.new.unsent result }
        ensures link { self.new.link ≡ self.old.link }
        ensures little { HoldsLittle blocks.new }
    {
        self.write()?;
        let mut buf = [0; MOST_BYTES];
        match self.link.read(&mut buf) {
            Read::Got(n) => {
                blocks.feed(&buf[..n])?;
                Ok(Filled::More)
            }
            Read::End => Ok(Filled::AtEnd),
            Read::Failed => Ok(Filled::ReadFailed),
            Read::NotYet => unreachable!(),
        }
    }
}
