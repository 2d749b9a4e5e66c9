//! When a channel has something to do.

/// When a channel has something to do by itself.
#[derive(Clone, Copy, Debug, PartialEq, Eq)]
pub enum Due {
    /// At once.
    Now,
    /// At this moment, in microseconds, and not before.
    At(u64),
}
