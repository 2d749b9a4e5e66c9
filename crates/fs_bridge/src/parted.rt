//! A switch once the bridges that some channels leave have ended.

ghost use Rattle.std.specs.Prelude.{◌≡◌};
ghost use Rattle.fs_bridge.specs.Leaving as spec;

use crate::lines::Lines;
use crate::row::Row;
use fs_text::Memory;
use fs_vars::Vars;

/// The channels of a switch, where the bridges of those who leave have ended.
#[derive(Drop)]
pub(crate) struct Parted<'a, L> {
    pub(crate) world: &'a L,
    pub(crate) left: &'a [u16],
}

impl<'a, L: Lines> Lines for Parted<'a, L> {
    ghost use Rattle.fs_bridge.specs.Leaving.{parted_world};

    ghost world = { λ p. parted_world (L.world p.world.now) p.left.now };

    fn slots(&self) -> u16 {
        self.world.slots()
    }

    fn live(&self, slot: u16) -> bool {
        self.world.live(slot)
    }

    fn vars(&self, slot: u16) -> Option<&Vars> {
        self.world.vars(slot)
    }

    fn partner(&self, slot: u16) -> Option<u16> {
        self.world.partner(slot)
    }

    fn legs(&self, slot: u16) -> Result<Vec<u16>, Memory> {
        self.world.legs(slot)
    }

    fn row(&self, slot: u16) -> Option<Row> {
        let row = self.world.row(slot)?;
        if is_left(self.left, &row) {
            return None;
        }
        Some(row)
    }
}

/// Whether one of those who leave is a leg of a bridge.
fn is_left(left: &[u16], row: &Row) -> bool
    ensures { result ≡ spec.is_left left.now row.now }
{
    left.iter().any(|slot| row.has_leg(*slot))
}
