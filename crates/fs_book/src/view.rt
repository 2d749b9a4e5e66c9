//! What is known of the holder of a pass.

use std::collections::LinkedList;

/// Where the holder of a pass stands: it has no ticket, waits with one, or has the state.
pub enum Stage {
    Idle,
    Waiting(u64),
    Out(u64),
}

// What the holder of a pass knows. No value of it is made: it exists in proofs alone, where its numbers have no bound,
// and where places are lists of any length.
pub struct View<B, E> {
    pub parts: u64,
    pub start: Option<B>,
    pub stage: Stage,
    pub seen: LinkedList<E>,
    // The shorter of the two journals at the last meeting.
    pub told: LinkedList<E>,
    pub mine: [u64; 0],
    pub met: LinkedList<[u64; 0]>,
}
