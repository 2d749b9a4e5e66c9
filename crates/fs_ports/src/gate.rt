//! Places where hunts can be held up.

/// What is passed between two conditions of a hunt: a place where a hunt can be held up.
pub trait Gate {
    /// Passes it. Whatever it does changes nothing of the hunt.
    fn pass(&mut self);
}

/// A gate that holds nothing up.
#[derive(Clone, Copy, Debug, PartialEq, Eq)]
pub struct NoGate;

impl Gate for NoGate {
    fn pass(&mut self) {}
}

/// A gate for the hunts of each slot, handed out to several threads.
pub trait Gates: Sync {
    type Gate: Gate + Drop;

    /// A gate for the hunts of the channel in a slot.
    fn gate(&self, slot: u16) -> Self::Gate;
}

/// Gates that hold nothing up.
#[derive(Clone, Copy, Debug, PartialEq, Eq)]
pub struct NoGates;

impl Gates for NoGates {
    type Gate = NoGate;

    fn gate(&self, _slot: u16) -> NoGate {
        NoGate
    }
}
