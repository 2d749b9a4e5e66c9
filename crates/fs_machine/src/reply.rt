//! What entries come to.

use fs_text::Txt;

/// What an entry came to.
#[derive(Drop)]
pub enum Reply {
    /// A connection of this number came.
    Arrived(u32),
    /// A command was done, and its reply is given or still owed.
    Queued { owed: bool },
    /// The frame that was handed out.
    Frame(Txt),
    /// The connection reads no further command, or is gone.
    Closed,
    /// The connection of this number holds a channel since, or the channel went on without one.
    Dialed(Option<u32>),
    /// A channel or a job did what it had to do.
    Worked,
    /// The switch has come to its end.
    Halted,
}
