//! A change that is yet to be filled in.
ghost use Rattle.fs_state.specs.Drafts.{IsBlank};

use crate::delta::{Delta, OutboxChange};
use crate::drawn::Drawn;
use crate::event::Events;
use crate::gift::Gifts;
use crate::posts::Posts;
use fs_event::EventText;
use fs_seats::{Boxed, Sheet};
use fs_text::Memory;
use std::alloc::Global;
use std::marker::Model;

/// A change of nothing, on which a draft notes what is to change. It keeps the room of lists that were noted on it
/// before.
#[derive(Drop)]
pub struct Blank {
    delta: Boxed<Delta>,
}

impl Model for Blank {
    ghost use Rattle.fs_state.specs.declared.delta.Delta.{Delta};
    ghost use Rattle.fs_state.specs.Drafts.{IsBlank};

    ghost Value = { Delta };

    ghost view = { λ b. b.delta };

    ghost invariant = { λ b. IsBlank b.delta };
}

impl Blank {
    /// A new one.
    pub fn new(alloc: Global) -> Result<Blank, Memory> {
        let delta = Boxed::of(alloc, unchanged(alloc))?;
        Ok(Blank { delta })
    }

    /// One from a change of nothing.
    pub(crate) fn of(delta: Boxed<Delta>) -> Blank
        requires { IsBlank delta }
    {
        Blank { delta }
    }

    /// The change of nothing alone.
    pub(crate) fn into_delta(self) -> Boxed<Delta>
        ensures { IsBlank result }
    {
        self.delta
    }
}

/// A change of nothing.
fn unchanged(alloc: Global) -> Delta
    ensures { IsBlank result }
{
    Delta {
        in_force: None,
        reloads: 0,
        globals: None,
        channels: Sheet::new(alloc),
        bridges: None,
        origs: Sheet::new(alloc),
        jobs: Sheet::new(alloc),
        conns: Sheet::new(alloc),
        outbox: OutboxChange::Unchanged,
        drawn: Drawn::none(),
        moment: 0,
        stopping: None,
        losses: None,
        news: Events::new(alloc),
        replies: Gifts::new(alloc),
        posted: Posts::none(alloc),
        late: Gifts::new(alloc),
        notices: Gifts::new(alloc),
        text: EventText::none(alloc),
    }
}
