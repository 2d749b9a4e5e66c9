//! Why bytes were not read as a journal.

ghost use Rattle.std.specs.Prelude.{◌≡◌};
ghost use Rattle.fs_replay.specs.declared.fault.Fault.TheVariants as line;
ghost use Rattle.fs_replay.specs.declared.fault.JournalFault.TheVariants as fault;

use fs_text::Memory;

/// Why bytes were not read as a journal.
#[derive(Clone, Copy, Debug, PartialEq, Eq)]
pub enum JournalFault {
    /// They are no journal's text. The first line that no journal has there starts at this offset, or the bytes end
    /// there.
    BadLine { at: u64 },
    /// There was no memory for the entries.
    Memory,
}

impl From<Memory> for JournalFault {
    ghost from_gives = { λ _ e. e ≡ fault.Memory };

    fn from(_e: Memory) -> JournalFault {
        JournalFault::Memory
    }
}

/// Why a line was not read.
#[derive(Clone, Copy, Debug, PartialEq, Eq)]
pub(crate) enum Fault {
    /// It is no line of an entry, or it is cut before its first LF.
    Bad,
    /// It is the line of a command or of a text that was loaded, and the bytes end before the LF behind its block or
    /// text.
    Cut,
    /// There was no memory for the entry.
    Memory,
}

impl From<Memory> for Fault {
    ghost from_gives = { λ _ e. e ≡ line.Memory };

    fn from(_e: Memory) -> Fault {
        Fault::Memory
    }
}
