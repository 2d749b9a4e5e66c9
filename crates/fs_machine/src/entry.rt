//! The entries of the journal, and what each costs.

ghost use Rattle.std.specs.Prelude.{◌≡◌, ◌<◌, ◌+◌, ◌^◌, IfOk};
ghost use Rattle.fs_machine.specs.Concerns.{actor_of};
ghost use Rattle.fs_machine.specs.Entries.{cost_of, is_load};

use crate::note::LoadNote;
use fs_text::{Memory, Txt};

/// What an entry costs beside the bytes of its block or its document.
const ENTRY_COST: u64 = 64;

/// One entry of the journal.
pub struct Entry {
    /// The moment of the entry, in microseconds. The clock never goes back: an earlier one is the last one.
    pub moment: u64,
    /// What it does.
    pub act: Act,
}

impl Drop for Entry {
    fn drop(self) {
        let Entry {
            moment: _moment,
            act: _act,
        } = self;
    }
}

/// What an entry does.
#[derive(Drop)]
pub enum Act {
    /// A connection comes.
    Arrive,
    /// A connection gives a command, as the block that was read.
    Command { conn: u32, block: Txt },
    /// The first frame that waits for a connection is handed out.
    Take { conn: u32 },
    /// A connection comes to its end.
    Close { conn: u32, how: Closing },
    /// The controller for whom the channel in a slot waits was dialed, and there is a link to it or there is none.
    Dialed { slot: u16, linked: bool },
    /// The channel in a slot does what it has to do by itself.
    Work { slot: u16 },
    /// The job of a number does so.
    Job { job: u64 },
    /// A load is noted for the job of a number, which waits for it.
    Loaded { job: u64, note: LoadNote },
    /// The switch comes to its end.
    Halt,
}

/// How a connection comes to its end.
#[derive(Clone, Copy, Debug, PartialEq, Eq)]
pub enum Closing {
    /// No further command comes; what waits can still be taken.
    EndOfInput,
    /// All frames were sent.
    Sent,
    /// A write failed.
    Failed,
}

impl Act {
    /// What an entry of this act costs: 64, and for a command the bytes of its block, for a load those of its document.
    pub fn cost(&self) -> u64
        ensures exact { result ≡ cost_of self.now }
        ensures bound { result < 2 ^ 63 + 64 }
    {
        match self {
            Act::Command { block, .. } => ENTRY_COST + block.as_bytes().len() as u64,
            Act::Loaded { note, .. } => ENTRY_COST + note.document().len() as u64,
            _ => ENTRY_COST,
        }
    }

    /// Whether it notes a load.
    pub fn is_load(&self) -> bool
        ensures { result ≡ is_load self.now }
    {
        matches!(self, Act::Loaded { .. })
    }

    /// The connection whose act it is; none where it is nobody's.
    pub(crate) fn conn(&self) -> Option<u32>
        ensures { result ≡ actor_of self.now }
    {
        match self {
            Act::Command { conn, .. } => Some(*conn),
            Act::Take { conn } => Some(*conn),
            Act::Close { conn, .. } => Some(*conn),
            _ => None,
        }
    }

    /// Copies the act.
    pub fn copy(&self) -> Result<Act, Memory>
        ensures { IfOk result (λ act. act ≡ self.now) }
    {
        Ok(match self {
            Act::Arrive => Act::Arrive,
            Act::Command { conn, block } => Act::Command {
                conn: *conn,
                block: block.copy()?,
            },
            Act::Take { conn } => Act::Take { conn: *conn },
            Act::Close { conn, how } => Act::Close {
                conn: *conn,
                how: *how,
            },
            Act::Dialed { slot, linked } => Act::Dialed {
                slot: *slot,
                linked: *linked,
            },
            Act::Work { slot } => Act::Work { slot: *slot },
            Act::Job { job } => Act::Job { job: *job },
            Act::Loaded { job, note } => Act::Loaded {
                job: *job,
                note: note.copy()?,
            },
            Act::Halt => Act::Halt,
        })
    }
}

impl Entry {
    /// Copies the entry.
    pub fn copy(&self) -> Result<Entry, Memory>
        ensures { IfOk result (λ entry. entry ≡ self.now) }
    {
        Ok(Entry {
            moment: self.moment,
            act: self.act.copy()?,
        })
    }
}
