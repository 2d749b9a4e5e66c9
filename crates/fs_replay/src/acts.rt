//! How the line of an entry is read.

ghost use Rattle.std.specs.Prelude.{◌≡◌, ◌<◌, length, OnOk};
ghost use Rattle.fs_replay.specs.Reading as spec;

use crate::fault::Fault;
use crate::reader::Reader;
use fs_machine::{Act, Closing, Entry};
use fs_text::Txt;
use std::alloc::Global;

/// What the line of a command says in front of its block.
#[derive(Clone, Copy)]
pub(crate) struct Head {
    pub conn: u32,
    pub len: u64,
}

impl<'a> Reader<'a> {
    /// Takes the line of an entry, with its block.
    pub fn entry(&mut self, alloc: Global) -> Result<Entry, Fault>
        ensures { spec.Gave result self.new (spec.entry_at self.old) }
    {
        let Some(letter) = self.letter() else {
            return Err(Fault::Bad);
        };
        let Some(moment) = self.field() else {
            return Err(Fault::Bad);
        };
        let act = self.act(alloc, letter)?;
        Ok(Entry { moment, act })
    }

    /// Takes the last line of a journal, which says how many entries there are.
    pub fn count(&mut self) -> Option<u64>
        ensures { spec.Took result self.new (spec.count_at self.old) }
    {
        if !self.word(b"Z") {
            return None;
        }
        let count = self.field()?;
        if self.word(b"\n") { Some(count) } else { None }
    }

    /// Takes the rest of the line of an entry behind its moment.
    fn act(&mut self, alloc: Global, letter: u8) -> Result<Act, Fault>
        ensures { spec.Gave result self.new (spec.act_at letter self.old) }
    {
        match letter {
            b'C' => self.command(alloc),
            b'L' => self.loaded(alloc),
            _ => self.plain(letter).ok_or(Fault::Bad),
        }
    }

    /// Takes what any act but a command and a load says.
    fn plain(&mut self, letter: u8) -> Option<Act>
        ensures { spec.Took result self.new (spec.plain_at letter self.old) }
    {
        match letter {
            b'A' => self.ended(Act::Arrive),
            b'H' => self.ended(Act::Halt),
            b'T' => self.take(),
            b'X' => self.close(),
            b'D' => self.dialed(),
            b'W' => self.work(),
            b'J' => self.job(),
            _ => None,
        }
    }

    /// Takes the LF behind an act.
    #[tactic(auto, unfolding(crate::specs::Reading::ended_at))]
    fn ended(&mut self, act: Act) -> Option<Act>
        ensures { spec.Took result self.new (spec.ended_at act self.old) }
    {
        if self.word(b"\n") { Some(act) } else { None }
    }

    fn take(&mut self) -> Option<Act>
        ensures { spec.Took result self.new (spec.taken_at self.old) }
    {
        let conn = self.conn()?;
        self.ended(Act::Take { conn })
    }

    fn work(&mut self) -> Option<Act>
        ensures { spec.Took result self.new (spec.work_at self.old) }
    {
        let slot = self.slot()?;
        self.ended(Act::Work { slot })
    }

    fn job(&mut self) -> Option<Act>
        ensures { spec.Took result self.new (spec.job_at self.old) }
    {
        let job = self.field()?;
        self.ended(Act::Job { job })
    }

    fn close(&mut self) -> Option<Act>
        ensures { spec.Took result self.new (spec.close_at self.old) }
    {
        let conn = self.conn()?;
        let how = self.closing()?;
        Some(Act::Close { conn, how })
    }

    fn closing(&mut self) -> Option<Closing>
        ensures { spec.Took result self.new (spec.closing_at self.old) }
    {
        if self.word(b" in\n") {
            Some(Closing::EndOfInput)
        } else if self.word(b" sent\n") {
            Some(Closing::Sent)
        } else if self.word(b" failed\n") {
            Some(Closing::Failed)
        } else {
            None
        }
    }

    fn dialed(&mut self) -> Option<Act>
        ensures { spec.Took result self.new (spec.dialed_at self.old) }
    {
        let slot = self.slot()?;
        let linked = self.linked()?;
        Some(Act::Dialed { slot, linked })
    }

    fn linked(&mut self) -> Option<bool>
        ensures { spec.Took result self.new (spec.linked_at self.old) }
    {
        if self.word(b" 1\n") {
            Some(true)
        } else if self.word(b" 0\n") {
            Some(false)
        } else {
            None
        }
    }

    /// Takes what a command says, and its block.
    fn command(&mut self, alloc: Global) -> Result<Act, Fault>
        ensures { spec.Gave result self.new (spec.command_at self.old) }
    {
        let Some(head) = self.head() else {
            return Err(Fault::Bad);
        };
        let block = self.block(alloc, head.len)?;
        Ok(Act::Command {
            conn: head.conn,
            block,
        })
    }

    /// Takes the connection of a command, and the length of its block.
    fn head(&mut self) -> Option<Head>
        ensures { spec.Took result self.new (spec.head_at self.old) }
    {
        let conn = self.conn()?;
        let len = self.field()?;
        if self.word(b"\n") {
            Some(Head { conn, len })
        } else {
            None
        }
    }

    /// Takes a block of so many bytes, and the LF behind it.
    pub fn block(&mut self, alloc: Global, len: u64) -> Result<Txt, Fault>
        ensures { spec.Gave result self.new (spec.block_at len self.old) }
    {
        let Some(block) = self.bytes(len) else {
            return Err(Fault::Cut);
        };
        if !self.word(b"\n") {
            return Err(Fault::Bad);
        }
        Ok(Txt::of(alloc, block)?)
    }
}
