//! Connections that were served.

use fs_conn::End;
use fs_ports::Link;

/// A connection that was served: its number, its link as it was left, and how it ended.
#[derive(Drop)]
pub struct Conn<L: Link> {
    pub number: u32,
    pub link: L,
    pub end: End,
}
