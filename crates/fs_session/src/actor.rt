//! Whose turn it is.

/// Whose turn it is.
#[derive(Clone, Copy, Debug, PartialEq, Eq)]
pub enum Actor {
    /// The channel in this slot.
    Slot(u16),
    /// The jobs; the least one that has something to do does it.
    Jobs,
}

/// What one of them has to do.
#[derive(Clone, Copy, Debug, PartialEq, Eq)]
pub(crate) enum Errand {
    /// The channel in this slot works.
    Slot(u16),
    /// The job of this number works.
    Job(u64),
}
