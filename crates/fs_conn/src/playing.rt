//! A play, the link over which it goes, and the file that it loads.

use crate::file::ConfigFile;
use crate::wire::Wire;
use fs_machine::Machine;
use fs_ports::{Files, Link};
use std::alloc::Global;

/// The number of the one connection.
pub(crate) const CONN: u32 = 1;

/// A play of the one connection: the machine and the clock, the link with what is not yet written to it, and the file
/// that the switch was configured by.
#[derive(Drop)]
pub(crate) struct Play<'m, 'l, 'f, L: Link, F: Files> {
    pub(crate) alloc: Global,
    pub(crate) machine: &'m mut Machine,
    pub(crate) clock: u64,
    pub(crate) wire: Wire<'l, L>,
    pub(crate) file: ConfigFile<'f, F>,
}
