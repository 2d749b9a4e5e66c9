//! What a hangup asks of a switch.

ghost use Rattle.std.specs.Prelude.{◌≡◌, IfOk};
ghost use Rattle.std.specs.Option.{option_copied};
ghost use Rattle.fs_bridge.specs.Worlds.{World};

use crate::row::Row;
use fs_text::Memory;
use fs_vars::Vars;

/// The channels of a switch, by their slots: what is to be known of them when some hang up.
pub trait Lines {
    // What they answer.
    ghost world: { Self → World };

    /// The slots are those from 1 to this one.
    fn slots(&self) -> u16
        ensures { result ≡ (world self.now).slots };

    /// Whether the channel in a slot lives.
    fn live(&self, slot: u16) -> bool
        ensures { result ≡ (world self.now).live slot };

    /// Its variables.
    fn vars(&self, slot: u16) -> Option<&Vars>
        ensures { option_copied result ≡ (world self.now).vars slot };

    /// The other end of its loopback channel.
    fn partner(&self, slot: u16) -> Option<u16>
        ensures { result ≡ (world self.now).partner slot };

    /// The living legs of the origination that it owns, in order of their positions.
    fn legs(&self, slot: u16) -> Result<Vec<u16>, Memory>
        ensures { IfOk result (λ legs. legs.items ≡ (world self.now).legs slot) };

    /// The bridge that it is part of.
    fn row(&self, slot: u16) -> Option<Row>
        ensures { result ≡ (world self.now).row slot };
}
