//! What comes of dialing a controller.

use fs_machine::Refusal;
use fs_ports::Wakes;

/// What comes of dialing a controller for the channel in a slot.
#[derive(Drop)]
pub enum Talked<L> {
    /// The connection of this number holds the channel, over a link of which nothing was read or written yet; these may
    /// have something to do since.
    Opened { conn: u32, link: L, wakes: Wakes },
    /// The channel goes on without a controller, by the entry at this place in the journal; these may have something to
    /// do since.
    Not(u64, Wakes),
    /// The channel waits for no controller any more.
    Idle,
    /// The journal is full, or there was no memory.
    Refused(Refusal),
}
