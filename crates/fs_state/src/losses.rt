//! How many events connections did not get that they wanted.
ghost use Rattle.std.specs.Prelude.{◌≡◌, ◌<◌, length, position, IfOk, IfSome, OnOk, OnErr};
ghost use Rattle.fs_state.specs.Losses as spec;

use fs_text::Memory;
use std::alloc::Global;
use std::marker::Model;

/// How many events a connection did not get that it wanted, because too many waited for it.
#[derive(Clone, Copy, Debug, PartialEq, Eq)]
pub struct Loss {
    /// The number of the connection.
    pub conn: u64,
    /// How many events; at 2^64 - 1 the count stands still.
    pub events: u64,
}

/// What connections have lost, also those that are gone. A contract sees it as a list.
#[derive(Drop)]
pub struct Losses {
    losses: Vec<Loss>,
}

impl Model for Losses {
    ghost use Rattle.fs_state.specs.Losses.{Losses};

    ghost Value = { Losses };

    ghost view = { λ l. l.losses.items };
}

impl Losses {
    /// Nothing is lost.
    pub fn new(alloc: Global) -> Losses
        ensures { result ≡ spec.no_losses }
    {
        Losses {
            losses: Vec::new(alloc),
        }
    }

    /// The same once more.
    pub fn copy(&self) -> Result<Losses, Memory>
        ensures { IfOk result (λ losses. losses ≡ self.now) }
    {
        let alloc = *self.losses.allocator();
        Ok(Losses {
            losses: Vec::from_slice(alloc, &self.losses)?,
        })
    }

    /// How many events a connection has lost.
    #[tactic(auto, using(crate::proofs::LossLemmas::loss_rules))]
    pub fn of(&self, conn: u32) -> u64
        ensures { result ≡ spec.lost_in conn self.now }
    {
        match self.position_of(u64::from(conn)) {
            Some(position) => self.losses[position].events,
            None => 0,
        }
    }

    /// A connection has lost so many more.
    #[tactic(auto, using(crate::proofs::LossLemmas::loss_rules))]
    pub fn add(&mut self, conn: u64, more: u64) -> Result<(), Memory>
        ensures ok { OnOk result (self.new ≡ spec.with_loss conn more self.old) }
        ensures err { OnErr result (self.new ≡ self.old) }
    {
        match self.position_of(conn) {
            Some(position) => {
                let events = self.losses[position].events.saturating_add(more);
                self.losses[position] = Loss { conn, events };
            }
            None => self.losses.push(Loss { conn, events: more })?,
        }
        Ok(())
    }

    /// The position at which the loss of a connection stands, if it had one.
    fn position_of(&self, conn: u64) -> Option<usize>
        ensures position { result ≡ position (spec.is_of conn) self.now }
        ensures bound { IfSome result (λ position. position < length self.now) }
    {
        self.losses.iter().position(|loss| loss.conn == conn)
    }
}
