//! The other leg of a bridge, and who made a channel.
ghost use Rattle.std.specs.Prelude.{◌≡◌, IfOk};

use fs_text::{Memory, Txt};

/// Who made a channel: a caller from outside, or the switch itself.
#[derive(Clone, Copy, Debug, PartialEq, Eq)]
pub enum Direction {
    Inbound,
    Outbound,
}

/// The other leg of a bridge.
#[derive(Drop)]
pub struct Peer {
    pub slot: u16,
    pub uuid: Txt,
}

impl Direction {
    ghost use Rattle.fs_chan.specs.Headers.{direction_name};

    /// How it is written: `inbound` or `outbound`.
    pub fn name(self) -> &'static str
        ensures { result.now ≡ direction_name self }
    {
        match self {
            Direction::Inbound => "inbound",
            Direction::Outbound => "outbound",
        }
    }
}

impl Peer {
    /// The same peer once more.
    pub fn copy(&self) -> Result<Peer, Memory>
        ensures { IfOk result (λ peer. peer ≡ self.now) }
    {
        Ok(Peer {
            slot: self.slot,
            uuid: self.uuid.copy()?,
        })
    }
}
