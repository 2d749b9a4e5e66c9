//! One bridge.

ghost use Rattle.std.specs.Prelude.{◌≡◌};
ghost use Rattle.fs_bridge.specs.Bridges.{has_leg};

/// How a bridge came to be, and so what its legs do once it ends.
#[derive(Clone, Copy, Debug, PartialEq, Eq)]
pub enum BridgeKind {
    /// The caller dialed the answerer, as the application `bridge` does it.
    Dial,
    /// A command joined two channels that there were.
    Joined,
    /// The answerer took the caller out of a queue.
    Fifo,
}

/// A bridge: two channels that are joined, by their slots.
#[derive(Clone, Copy, Debug, PartialEq, Eq)]
pub struct Row {
    pub number: u64,
    pub caller: u16,
    pub answerer: u16,
    pub kind: BridgeKind,
}

impl Row {
    /// Whether a slot is one of its two legs.
    pub fn has_leg(&self, slot: u16) -> bool
        ensures { result ≡ has_leg slot self.now }
    {
        self.caller == slot || self.answerer == slot
    }
}
