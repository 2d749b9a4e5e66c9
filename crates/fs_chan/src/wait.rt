//! What a channel waits for.
ghost use Rattle.std.specs.Prelude.{◌≡◌, IfOk};

use crate::turn::Turn;
use fs_text::{Memory, Txt};

/// What a channel waits for.
#[derive(Drop)]
pub enum Wait {
    /// Nothing: it can run the next action.
    Ready,
    /// A moment, in microseconds.
    Sleep { until: u64 },
    /// A command.
    Parked,
    /// The verdict on the origination of this number.
    Legs { orig: u64 },
    /// The end of its bridge.
    Bridged,
    /// Somebody who takes it out of the queue of this name, where it has this turn.
    FifoIn { name: Txt, turn: Turn },
    /// A caller in the queue of this name.
    FifoOut { name: Txt },
    /// A link to the target that this text names.
    Dial { text: Txt },
    /// A message, or the end of the outbound connection of this number.
    Socket { conn: u32 },
}

impl Wait {
    /// The same wait once more.
    pub fn copy(&self) -> Result<Wait, Memory>
        ensures { IfOk result (λ wait. wait ≡ self.now) }
    {
        Ok(match self {
            Wait::Ready => Wait::Ready,
            Wait::Sleep { until } => Wait::Sleep { until: *until },
            Wait::Parked => Wait::Parked,
            Wait::Legs { orig } => Wait::Legs { orig: *orig },
            Wait::Bridged => Wait::Bridged,
            Wait::FifoIn { name, turn } => Wait::FifoIn {
                name: name.copy()?,
                turn: *turn,
            },
            Wait::FifoOut { name } => Wait::FifoOut { name: name.copy()? },
            Wait::Dial { text } => Wait::Dial { text: text.copy()? },
            Wait::Socket { conn } => Wait::Socket { conn: *conn },
        })
    }
}
