//! The journal: the list of entries.

ghost use Rattle.std.specs.Prelude.{◌≡◌, ◌≤◌, [], ◌∷◌, ◌++◌, OnOk, OnErr};

use crate::entry::Entry;
use fs_text::Memory;
use std::alloc::Global;
use std::marker::Model;

/// The entries that a switch has done, in order. A contract sees that list, and for how many more there is room.
#[derive(Drop)]
pub struct Journal {
    entries: Vec<Entry>,
}

impl Model for Journal {
    ghost use Rattle.std.specs.Prelude.{◌-◌};
    ghost use Rattle.std.specs.Vec.{vec_capacity, vec_len};
    ghost use Rattle.fs_machine.specs.Journals.{Entered};

    ghost Value = { Entered };

    ghost view = { λ j. record { entries = j.entries.items; spare = vec_capacity j.entries - vec_len j.entries } };
}

impl Journal {
    /// No entries.
    pub fn new(alloc: Global) -> Journal
        ensures { result.entries ≡ [] }
    {
        Journal {
            entries: Vec::new(alloc),
        }
    }

    /// Puts an entry behind the others.
    pub fn push(&mut self, entry: Entry) -> Result<(), Memory>
        ensures ok { OnOk result (self.new.entries ≡ self.old.entries ++ entry ∷ []) }
        ensures err { OnErr result (self.new.entries ≡ self.old.entries) }
    {
        self.entries.push(entry)?;
        Ok(())
    }

    /// The entries, in order.
    pub fn entries(&self) -> &[Entry]
        ensures { result.now ≡ self.now.entries }
    {
        self.entries.as_slice()
    }

    /// Makes room for one entry more.
    pub(crate) fn make_room(&mut self) -> Result<(), Memory>
        ensures same { self.new.entries ≡ self.old.entries }
        ensures ok { OnOk result (1 ≤ self.new.spare) }
    {
        self.entries.reserve(1)?;
        Ok(())
    }

    /// Puts an entry behind the others where there is room for it, without memory.
    pub(crate) fn add(&mut self, entry: Entry)
        requires { 1 ≤ self.old.spare }
        ensures { self.new.entries ≡ self.old.entries ++ entry ∷ [] }
    {
        self.entries.push(entry).unwrap();
    }
}
