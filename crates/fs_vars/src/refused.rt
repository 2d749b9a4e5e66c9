//! Why an expansion is refused.
ghost use Rattle.std.specs.Prelude.{◌≡◌};
ghost use Rattle.fs_vars.specs.declared.refused.Refused.TheVariants as refused;

use fs_text::Memory;
use std::fmt;

/// Why a text was not expanded.
#[derive(Clone, Copy, Debug, PartialEq, Eq)]
pub enum Refused {
    /// There was no memory.
    Memory,
    /// The whole result would have more than 65,536 bytes: so many, or 2^64 - 1 where there are more.
    TooLong { len: u64 },
}

impl fmt::Display for Refused {
    fn fmt<W: fmt::Write>(&self, f: &mut fmt::Formatter<W>) -> fmt::Result {
        match self {
            Refused::Memory => write!(f, "out of memory"),
            Refused::TooLong { len } => write!(f, "the expanded text has {len} bytes"),
        }
    }
}

impl From<Memory> for Refused {
    ghost from_gives = { λ _ e. e ≡ refused.Memory };

    fn from(_e: Memory) -> Refused {
        Refused::Memory
    }
}
