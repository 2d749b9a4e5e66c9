//! Who sleeps until there is something to do.

/// Who sleeps until there is something to do.
#[derive(Clone, Copy, Debug, PartialEq, Eq)]
pub enum Sleeper {
    /// Whoever takes connections in.
    Door,
    /// Whoever works the jobs.
    Jobs,
    /// Whoever works the channels in this slot.
    Slot(u16),
    /// Whoever serves links, by a number from 0 on.
    Lane(u16),
}
