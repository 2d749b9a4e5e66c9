//! Lanes for slots.

use crate::conns::Conn;
use fs_book::Pass;
use fs_machine::Machine;
use fs_ports::Link;
use std::alloc::Global;

/// A lane that works the channels in a slot: a pass of its own, a dialer, and the connections of the controllers that
/// it dialed.
#[derive(Drop)]
pub(crate) struct SlotLane<L: Link, O> {
    pub(crate) alloc: Global,
    pub(crate) slot: u16,
    pub(crate) pass: Pass<Machine>,
    pub(crate) dialer: O,
    pub(crate) conns: Vec<Conn<L>>,
}
