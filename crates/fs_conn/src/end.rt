//! How a connection ends.

ghost use Rattle.std.specs.Prelude.{◌≡◌};
ghost use Rattle.fs_conn.specs.Play.{end_by};

use fs_state::Parting;

/// How a connection came to its end.
#[derive(Clone, Copy, Debug, PartialEq, Eq)]
pub enum End {
    /// By its command `exit`.
    Exit,
    /// By the end of its input.
    Eof,
    /// By a password that was refused.
    AuthRefused,
    /// By the end of the switch, or since the channel that it controlled left it.
    Stopped,
    /// By a read that failed.
    ReadFault,
    /// By a write that failed.
    WriteFault,
    /// By a block that is longer than a block may be: so many bytes, or so many that were looked at without the end of
    /// its head.
    TooLong { len: u64 },
    /// By a block whose `Content-Length` is not 1 to 10 digits.
    BadLength,
    /// By the journal, behind whose cost no further entry is accepted, or no load, whose turn has come.
    JournalFull { cost: u64, limit: u64 },
    /// For want of memory.
    Memory,
    /// By channels and jobs that do not come to rest: so many entries in a row were worked at one moment, and
    /// something was still due.
    Runaway { count: u64 },
}

impl End {
    // How a connection ends that reads no further command, by what it parted for.
    pub(crate) fn by_parting(parting: Option<Parting>) -> Option<End>
        ensures { result ≡ end_by parting }
    {
        match parting? {
            Parting::Exit => Some(End::Exit),
            Parting::AuthRefused => Some(End::AuthRefused),
            Parting::Stopped | Parting::ChannelLeft => Some(End::Stopped),
            Parting::EndOfInput => None,
        }
    }
}
