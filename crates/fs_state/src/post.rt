//! An event as it is told, and who takes it.
ghost use Rattle.std.specs.Prelude.{◌≡◌, ◌∷◌, ◌++◌, [], false, get_or, OnOk};
ghost use Rattle.std.specs.List.{list_any};

use fs_text::{Memory, Txt};
use smallvec::SmallVec;
use std::alloc::Global;
use std::marker::Model;

/// An event with its frame, and which connections want it.
#[derive(Drop)]
pub(crate) struct Post {
    /// The number of the event.
    pub number: u64,
    /// The frame.
    pub frame: Txt,
    /// The connections that want the event.
    pub takers: Takers,
    /// How many are to read it: those of them for which it was put down.
    pub readers: u32,
}

/// Connections at so many seats are noted without memory.
const SEATS: usize = 16;

/// Which connections want an event, by their seats. A contract sees for each seat whether the one there does.
#[derive(Drop)]
pub(crate) struct Takers {
    seats: SmallVec<bool, SEATS>,
}

impl Model for Takers {
    ghost use Rattle.std.specs.Prelude.{Bool, List};

    ghost Value = { List Bool };

    ghost view = { λ t. t.seats.items };
}

impl Takers {
    /// No seat was asked yet.
    pub fn new(alloc: Global) -> Takers
        ensures { result ≡ [] }
    {
        Takers {
            seats: SmallVec::new(alloc),
        }
    }

    /// The next seat was asked.
    pub fn push(&mut self, wants: bool) -> Result<(), Memory>
        ensures { OnOk result (self.new ≡ self.old ++ wants ∷ []) }
    {
        self.seats.push(wants)?;
        Ok(())
    }

    /// Whether the connection at a seat wants it; none does at a seat that was not asked.
    pub fn has(&self, seat: usize) -> bool
        ensures { result ≡ get_or self.now seat false }
    {
        self.seats.as_slice().get(seat).copied().unwrap_or(false)
    }

    /// Whether some connection wants it.
    pub fn has_one(&self) -> bool
        ensures { result ≡ list_any (λ wants. wants) self.now }
    {
        self.seats.as_slice().iter().any(|wants| *wants)
    }
}
