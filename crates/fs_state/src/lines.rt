//! What a hangup asks of a draft.
ghost use Rattle.std.specs.Prelude.{◌≡◌, IfOk};
ghost use Rattle.std.specs.Option.{option_copied, option_and_then};
ghost use Rattle.fs_chan.specs.Bridging.{awaited_by};
ghost use Rattle.fs_state.specs.Drafts.{drafted};
ghost use Rattle.fs_state.specs.Switch.{chan_at, orig_of};
ghost use Rattle.fs_state.specs.Hangups as spec;

use crate::draft::Draft;
use fs_bridge::{Lines, Row};
use fs_orig::{Orig, living_slots};
use fs_text::Memory;
use fs_vars::Vars;

impl<'a> Draft<'a> {
    /// Whether there is a channel in a slot, and it is live.
    pub fn lives(&self, slot: u16) -> bool
        ensures { result ≡ spec.lives_at (drafted self.now) slot }
    {
        match self.chan(slot) {
            Some(chan) => chan.is_live(),
            None => false,
        }
    }

    /// The origination that the channel in a slot waits for.
    pub fn awaited_orig(&self, slot: u16) -> Option<&Orig>
        ensures { option_copied result ≡ option_and_then (orig_of (drafted self.now))
            (option_and_then awaited_by (chan_at (drafted self.now) slot)) }
    {
        let number = self.chan(slot)?.awaited()?;
        self.orig(number)
    }

    /// The slots of the living legs that the channel in a slot dialed, while it waits for them.
    pub fn legs_of(&self, slot: u16) -> Result<Vec<u16>, Memory>
        ensures { IfOk result (λ legs. legs.items ≡ spec.legs_at (drafted self.now) slot) }
    {
        match self.awaited_orig(slot) {
            Some(orig) => living_slots(self.alloc(), orig.legs.as_slice()),
            None => Ok(Vec::new(self.alloc())),
        }
    }

    /// The bridge of the channel in a slot, while that names another leg.
    fn row_of(&self, slot: u16) -> Option<Row>
        ensures { result ≡ spec.row_at (drafted self.now) slot }
    {
        if self.has_peer(slot) {
            self.bridge_at(slot)
        } else {
            None
        }
    }

    /// Whether the channel in a slot names another leg.
    fn has_peer(&self, slot: u16) -> bool
        ensures { result ≡ spec.has_peer (chan_at (drafted self.now) slot) }
    {
        match self.chan(slot) {
            Some(chan) => chan.peer.is_some(),
            None => false,
        }
    }
}

impl<'a> Lines for Draft<'a> {
    ghost use Rattle.fs_state.specs.Drafts.{drafted};
    ghost use Rattle.fs_state.specs.Hangups.{world_of};

    ghost world = { λ d. world_of (drafted d) };

    fn slots(&self) -> u16 {
        Draft::slots(self).saturating_sub(1)
    }

    fn live(&self, slot: u16) -> bool {
        self.lives(slot)
    }

    fn vars(&self, slot: u16) -> Option<&Vars> {
        Some(&self.chan(slot)?.vars)
    }

    fn partner(&self, slot: u16) -> Option<u16> {
        Draft::partner(self, slot)
    }

    fn legs(&self, slot: u16) -> Result<Vec<u16>, Memory> {
        self.legs_of(slot)
    }

    fn row(&self, slot: u16) -> Option<Row> {
        self.row_of(slot)
    }
}
