//! What comes of a turn.

use fs_machine::Refusal;
use fs_out::Target;
use fs_ports::Wakes;

/// What comes of a turn.
#[derive(Drop)]
pub enum Worked {
    /// The one thing that was to be done is done, by the entry at this place in the journal; these may have something
    /// to do since.
    Did(u64, Wakes),
    /// There is nothing to do before this moment, in microseconds, or unless others bring something.
    Idle { next: Option<u64> },
    /// The channel in the slot waits for this controller, who is to be dialed.
    Talk(Target),
    /// The least job that has something to do waits for a load, as `load_once` notes one.
    Load(u64),
    /// The switch has come to its end, and nothing of this actor is left.
    Stopped,
    /// The journal is full, or there was no memory.
    Refused(Refusal),
}
