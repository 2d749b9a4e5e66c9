//! The outside of the switch as traits, over memory for tests and over std for the program.
//!
//! Each object counts its faults. An answer that tells of a fault comes only where its count rose
//! in that call, and no other call raises it.
#![tactic(auto)]

mod bells;
mod clock;
mod counts;
mod dialer;
mod disk_files;
mod door;
mod files;
mod flag;
mod gate;
mod hold;
mod hold_gates;
mod mem_dialer;
mod mem_door;
mod mem_files;
mod mem_link;
mod mem_links;
mod patterns;
mod port;
mod raise;
mod real_clock;
mod send;
mod sleeper;
mod stdio;
mod step_clock;
mod tcp_dial;
mod tcp_door;
mod tcp_link;
#[cfg(test)]
mod tests;
mod wakes;

pub use bells::Bells;
pub use clock::Clock;
pub use dialer::{Dialed, Dialer};
pub use disk_files::DiskFiles;
pub use door::{Accept, Door, Listen};
pub use files::{Files, LOAD_LIMIT, Load};
pub use flag::Flag;
pub use gate::{Gate, Gates, NoGate, NoGates};
pub use hold_gates::{HoldGate, HoldGates};
pub use mem_dialer::MemDialer;
pub use mem_door::MemDoor;
pub use mem_files::MemFiles;
pub use mem_link::MemLink;
pub use mem_links::MemLinks;
pub use patterns::{Built, Patterns, Store};
pub use port::{Link, Port, Read, Sink, Source, Write};
pub use real_clock::RealClock;
pub use send::{Sent, send_all};
pub use sleeper::Sleeper;
pub use stdio::Stdio;
pub use step_clock::StepClock;
pub use tcp_dial::TcpDial;
pub use tcp_door::TcpDoor;
pub use tcp_link::TcpLink;
pub use wakes::Wakes;
