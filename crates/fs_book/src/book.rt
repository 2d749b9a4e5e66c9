//! A book: a state, the entrance at which its callers wait, and the desk at which they have their turn.

ghost use Rattle.std.specs.Prelude.{◌≡◌};

use crate::rule::Desk;
use crate::turned::Turned;
use std::sync::Mutex;

/// A state under a ticket lock: whoever calls waits for its turn, has the state to itself, and passes the turn on.
#[derive(Drop)]
pub struct Book<M: Turned> {
    pub(crate) desk: Desk<M>,
    // Callers wait here before they draw a ticket.
    pub(crate) entrance: Mutex<()>,
    ghost sized: { (desk.shared.table_id.words ≡ 2) × (desk.shared.table_id.slots ≡ 1) },
}
