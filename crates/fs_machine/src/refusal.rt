//! Why entries are refused.

ghost use Rattle.std.specs.Prelude.{◌≡◌};
ghost use Rattle.fs_machine.specs.declared.refusal.Refusal.TheVariants as refusal;

use std::alloc::AllocError;

/// Why an entry is refused. It changes nothing then.
#[derive(Clone, Copy, Debug, PartialEq, Eq)]
pub enum Refusal {
    /// The journal's cost so far leaves no room for the largest entry, of 65,600, or for a load of 1,048,641.
    JournalFull { cost: u64, limit: u64 },
    /// The connection reads no commands, or is not there; or the switch has come to its end.
    Gone,
    /// As many connections as there may be are there.
    TooMany { live: u16 },
    /// The reply to the command at this place is still owed.
    Busy { since: u64 },
    /// No frame waits.
    Empty,
    /// The connection is not ending, or is still to be sent something.
    Unsent { queued: u64, owed: bool },
    /// The channel or the job has nothing to do by itself before this moment, in microseconds, or unless others bring
    /// something.
    NotDue { next: Option<u64> },
    /// There was no memory.
    Memory,
}

impl From<fs_text::Memory> for Refusal {
    ghost from_gives = { λ _ e. e ≡ refusal.Memory };

    fn from(_e: fs_text::Memory) -> Refusal {
        Refusal::Memory
    }
}

impl From<AllocError> for Refusal {
    ghost from_gives = { λ _ e. e ≡ refusal.Memory };

    fn from(_e: AllocError) -> Refusal {
        Refusal::Memory
    }
}

/// Why a route that was planned beside the switch is refused. It changes nothing then.
#[derive(Clone, Copy, Debug, PartialEq, Eq)]
pub enum RouteRefusal {
    /// What the route rests on is not what was seen: so many entries have changed it so far, other contexts came into
    /// force so many times, and it is this minute. A new plan is to be made.
    Again {
        touched: u64,
        reloads: u64,
        wall: i64,
    },
    /// The entry is refused.
    Step(Refusal),
}
