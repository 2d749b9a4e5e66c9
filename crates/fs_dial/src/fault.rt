//! What is wrong with a dial string.

ghost use Rattle.std.specs.Prelude.{◌≡◌};
ghost use Rattle.fs_dial.specs.declared.fault.DialStop.TheVariants as stop;

use fs_text::Memory;
use std::alloc::AllocFailed;
use std::fmt;

/// What is wrong with a dial string.
#[derive(Clone, Copy, Debug, PartialEq, Eq)]
pub enum DialKind {
    /// The text is empty.
    Nothing,
    /// A leg has no endpoint.
    EmptyLeg,
    /// A bracket has no end.
    Unclosed,
    /// A pair is empty, or has no `=` or no name.
    BadPair,
    /// There are more than 64 legs.
    TooMany,
    /// There was no memory.
    Memory,
}

/// A fault of a dial string, and where it stands: a count of bytes before it.
#[derive(Clone, Copy, Debug, PartialEq, Eq)]
pub struct DialFault {
    pub at: usize,
    pub kind: DialKind,
}

impl DialKind {
    ghost use Rattle.fs_dial.specs.Faults.{kind_name};

    /// The name of the kind.
    #[tactic(auto, unfolding(crate::specs::Faults::kind_name))]
    pub fn name(self) -> &'static str
        ensures { result.now ≡ kind_name self }
    {
        match self {
            DialKind::Nothing => "Nothing",
            DialKind::EmptyLeg => "EmptyLeg",
            DialKind::Unclosed => "Unclosed",
            DialKind::BadPair => "BadPair",
            DialKind::TooMany => "TooMany",
            DialKind::Memory => "Memory",
        }
    }
}

impl fmt::Display for DialFault {
    fn fmt<W: fmt::Write>(&self, f: &mut fmt::Formatter<W>) -> fmt::Result {
        let DialFault { at, kind } = *self;
        write!(f, "{} at {at}", kind.name())
    }
}

/// Why the reading of a dial string stops.
#[derive(Clone, Copy)]
pub(crate) enum DialStop {
    Memory,
    Fault(DialFault),
}

impl DialStop {
    ghost use Rattle.fs_dial.specs.Faults.{fault_at};

    /// The fault of a kind at an offset.
    pub fn at(at: usize, kind: DialKind) -> DialStop
        ensures { result ≡ stop.Fault (fault_at at kind) }
    {
        DialStop::Fault(DialFault { at, kind })
    }
}

impl From<DialFault> for DialStop {
    ghost from_gives = { λ fault e. e ≡ stop.Fault fault };

    fn from(fault: DialFault) -> DialStop {
        DialStop::Fault(fault)
    }
}

impl From<Memory> for DialStop {
    ghost from_gives = { λ _ e. e ≡ stop.Memory };

    fn from(_e: Memory) -> DialStop {
        DialStop::Memory
    }
}

impl<T: Drop> From<AllocFailed<T>> for DialStop {
    ghost from_gives = { λ _ e. e ≡ stop.Memory };

    fn from(_e: AllocFailed<T>) -> DialStop {
        DialStop::Memory
    }
}
