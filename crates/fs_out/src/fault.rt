//! Why a text says no target.

ghost use Rattle.std.specs.Prelude.{◌≡◌};
ghost use Rattle.fs_out.specs.declared.fault.TargetFault.TheVariants as fault;

use fs_text::Memory;

/// Why a text says no target. The first of these that is so is told; want of memory is told at any point.
#[derive(Clone, Copy, Debug, PartialEq, Eq)]
pub enum TargetFault {
    /// The first word has no colon, or there is none.
    NoPort,
    /// What stands behind its last colon is no number from 1 to 65,535.
    BadPort,
    /// Nothing stands before that colon.
    NoHost,
    /// There was no memory.
    Memory,
}

impl From<Memory> for TargetFault {
    ghost from_gives = { λ _ e. e ≡ fault.Memory };

    fn from(_e: Memory) -> TargetFault {
        TargetFault::Memory
    }
}
