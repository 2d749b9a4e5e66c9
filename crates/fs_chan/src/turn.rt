//! Whose turn it is in a queue.
ghost use Rattle.std.specs.Prelude.{◌≡◌};
ghost use Rattle.fs_chan.specs.Queueing as spec;

/// When a caller of a queue is taken: the lesser number of a priority first, and of the same the earlier arrival.
#[derive(Clone, Copy, Debug, PartialEq, Eq)]
pub struct Turn {
    /// The number of its priority, 0 to 9.
    pub priority: u8,
    /// The place of the entry by which it came.
    pub arrival: u64,
}

impl Turn {
    /// Whether it comes before another.
    pub fn is_sooner(self, other: Turn) -> bool
        ensures { result ≡ spec.is_sooner self other }
    {
        self.priority < other.priority
            || (self.priority == other.priority && self.arrival < other.arrival)
    }
}
