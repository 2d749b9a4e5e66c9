//! How two channels are joined by a bridge.
ghost use Rattle.std.specs.Prelude.{◌≡◌, true, option_map, IfOk};
ghost use Rattle.fs_chan.specs.Bridging.{bridged};
ghost use Rattle.fs_state.specs.Drafts.{drafted, Brings, chan_in};
ghost use Rattle.fs_state.specs.Moves.{with_changed_chan};
ghost use Rattle.fs_state.specs.Bridging as spec;

use crate::draft::Draft;
use crate::event::{Detail, Event};
use fs_bridge::{BridgeKind, Row};
use fs_chan::Peer;
use fs_text::{EventName, Memory};

impl<'a> Draft<'a> {
    /// Two channels are joined by a bridge, the first as caller, where they can be.
    pub fn join(&mut self, kind: BridgeKind, caller: u16, answerer: u16) -> Result<(), Memory>
        ensures { Brings result self.old self.new (spec.after_join kind caller answerer (drafted self.old)) }
    {
        if self.can_join(caller, answerer) {
            self.join_as(kind, caller, answerer)
        } else {
            Ok(())
        }
    }

    /// Whether two slots can be joined: they differ, their channels are live, neither is in a bridge, and there is a
    /// number for one more.
    pub fn can_join(&self, caller: u16, answerer: u16) -> bool
        ensures { result ≡ spec.can_join caller answerer (drafted self.now) }
    {
        caller != answerer
            && (self.lives(caller) && self.lives(answerer))
            && (self.bridge_at(caller).is_none() && self.bridge_at(answerer).is_none())
            && self.has_bridge_number_left()
    }

    /// Two channels are joined: there is a bridge, and each names the other.
    fn join_as(&mut self, kind: BridgeKind, caller: u16, answerer: u16) -> Result<(), Memory>
        requires { spec.can_join caller answerer (drafted self.old) ≡ true }
        ensures { Brings result self.old self.new (spec.joined_as kind caller answerer (drafted self.old)) }
    {
        let number = self.add_bridge(kind, caller, answerer)?;
        self.set_peer(caller, answerer)?;
        self.set_peer(answerer, caller)?;
        self.tell(Event {
            name: EventName::ChannelBridge,
            subject: Some(caller),
            detail: Detail::Bridge(Row {
                number,
                caller,
                answerer,
                kind,
            }),
        })
    }

    /// The channel in a slot gets the one in another as its peer, if that is there.
    fn set_peer(&mut self, slot: u16, other: u16) -> Result<(), Memory>
        ensures { Brings result self.old self.new (spec.with_peer slot other (drafted self.old)) }
    {
        match self.peer_of(other)? {
            Some(peer) => self.set_bridged(slot, peer),
            None => Ok(()),
        }
    }

    /// The channel in a slot, as its peer names it.
    fn peer_of(&self, slot: u16) -> Result<Option<Peer>, Memory>
        ensures { IfOk result (λ peer. peer ≡ option_map (spec.peer_of slot) (chan_in self.now slot)) }
    {
        let Some(chan) = self.chan(slot) else {
            return Ok(None);
        };
        let uuid = chan.uuid.copy()?;
        Ok(Some(Peer { slot, uuid }))
    }

    /// The channel in a slot gets a peer.
    fn set_bridged(&mut self, slot: u16, peer: Peer) -> Result<(), Memory>
        ensures { Brings result self.old self.new (with_changed_chan (bridged peer) slot (drafted self.old)) }
    {
        let Some(mut chan) = self.own_chan(slot)? else {
            return Ok(());
        };
        chan.bridge(peer)?;
        self.put_chan(slot, Some(chan))
    }
}
