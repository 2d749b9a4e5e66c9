//! Why a dialplan was not built.

ghost use Rattle.std.specs.Prelude.{◌≡◌};
ghost use Rattle.fs_plan.specs.Building as spec;
ghost use Rattle.fs_plan.specs.declared.fault.PlanFault.TheVariants as fault;
ghost use Rattle.fs_plan.specs.declared.fault.Unbuilt.TheVariants as unbuilt;

use fs_text::Memory;
use std::fmt;

/// Why a dialplan was not built. Extensions are counted over all contexts and conditions within their extension, both
/// from 1.
#[derive(Clone, Copy, Debug, PartialEq, Eq)]
pub enum PlanFault {
    /// A pattern of the condition is no pattern, or nested too deep.
    PatternRefused { extension: u32, condition: u32 },
    /// A pattern of the condition was too large.
    PatternTooLarge { extension: u32, condition: u32 },
    /// There was no memory.
    Memory,
}

impl fmt::Display for PlanFault {
    fn fmt<W: fmt::Write>(&self, f: &mut fmt::Formatter<W>) -> fmt::Result {
        match self {
            PlanFault::PatternRefused {
                extension,
                condition,
            } => write!(
                f,
                "pattern refused in extension {extension} condition {condition}"
            ),
            PlanFault::PatternTooLarge {
                extension,
                condition,
            } => write!(
                f,
                "pattern too large in extension {extension} condition {condition}"
            ),
            PlanFault::Memory => write!(f, "out of memory"),
        }
    }
}

impl From<Memory> for PlanFault {
    ghost from_gives = { λ _ e. e ≡ fault.Memory };

    fn from(_e: Memory) -> PlanFault {
        PlanFault::Memory
    }
}

/// Why a condition was not built.
#[derive(Clone, Copy, Debug, PartialEq, Eq)]
pub(crate) enum Unbuilt {
    NoReading,
    TooLarge,
    Memory,
}

impl Unbuilt {
    /// The fault for a condition of these numbers.
    pub fn at(self, extension: u32, condition: u32) -> PlanFault
        ensures { result ≡ spec.fault_of self extension condition }
    {
        match self {
            Unbuilt::NoReading => PlanFault::PatternRefused {
                extension,
                condition,
            },
            Unbuilt::TooLarge => PlanFault::PatternTooLarge {
                extension,
                condition,
            },
            Unbuilt::Memory => PlanFault::Memory,
        }
    }
}

impl From<Memory> for Unbuilt {
    ghost from_gives = { λ _ e. e ≡ unbuilt.Memory };

    fn from(_e: Memory) -> Unbuilt {
        Unbuilt::Memory
    }
}
