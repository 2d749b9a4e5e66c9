//! Why a play stops before its connection came to its end.

ghost use Rattle.std.specs.Prelude.{◌≡◌};
ghost use Rattle.fs_conn.specs.declared.stop.Stop.TheVariants.{OutOfMemory};

use crate::end::End;
use fs_text::Memory;

/// Why a play stopped before its connection came to its end.
#[derive(Clone, Copy, Debug)]
pub(crate) enum Stop {
    /// The journal is full, or channels and jobs do not come to rest.
    Over(End),
    OutOfMemory,
    /// A write failed.
    WriteFault,
}

impl From<Memory> for Stop {
    ghost from_gives = { λ _ stop. stop ≡ OutOfMemory };

    fn from(_memory: Memory) -> Stop {
        Stop::OutOfMemory
    }
}
