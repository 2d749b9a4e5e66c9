//! The table in which variables stand under their names.

ghost use Rattle.std.specs.Prelude.{◌≡◌, ◌↔◌, [], IfOk, OnOk, OnErr, option_copied, IsTrue};
ghost use Rattle.fs_vars.specs.Pairs.{value_of, with_value, without, AreDistinct};

use crate::pairs::VarsIter;
use fs_text::{Memory, Txt};
use indexmap::IndexMap;
use std::alloc::Global;
use std::marker::Model;

/// Values under their names, in the order in which the names were first put in.
#[derive(Drop)]
pub(crate) struct Table {
    entries: IndexMap<Vec<u8>, Txt>,
}

impl Model for Table {
    ghost use Rattle.std.specs.List.{IsDistinct};
    ghost use Rattle.std.specs.Map.{keys_of};
    ghost use Rattle.fs_vars.specs.Pairs.{Pairs, pairs_of, same_key};

    ghost Value = { Pairs };

    ghost view = { λ t. pairs_of t.entries.entries };

    ghost invariant = { λ t. IsDistinct same_key (keys_of t.entries.entries) };
}

impl Table {
    /// No names.
    pub fn new(alloc: Global) -> Table
        ensures { result ≡ [] }
    {
        Table {
            entries: IndexMap::new(alloc),
        }
    }

    /// The value under a name.
    pub fn get(&self, name: &[u8]) -> Option<&Txt>
        ensures value { option_copied result ≡ value_of self.now name.now }
        ensures distinct { AreDistinct self.now }
    {
        self.entries.get(name)
    }

    /// The names and values.
    pub fn iter(&self) -> VarsIter<'_>
        ensures pairs { result ≡ self.now }
        ensures distinct { AreDistinct self.now }
    {
        VarsIter::over(self.entries.iter())
    }

    /// Puts a value under a name, in the place of the name or last. All memory is taken first.
    pub fn put(&mut self, name: &[u8], value: Txt) -> Result<(), Memory>
        ensures put { OnOk result (self.new ≡ with_value self.old name.now value) }
        ensures err { OnErr result (self.new ≡ self.old) }
    {
        let key = name.to_vec(self.alloc())?;
        self.entries.insert(key, value)?;
        Ok(())
    }

    /// Takes a name out. The others keep their order.
    pub fn take(&mut self, name: &[u8])
        ensures { self.new ≡ without self.old name.now }
    {
        self.entries.shift_remove(name);
    }

    /// The same once more. The values are shared, and the names are copied.
    pub fn copy(&self) -> Result<Table, Memory>
        ensures { IfOk result (λ table. table ≡ self.now) }
    {
        let mut table = Table {
            entries: IndexMap::with_capacity(self.alloc(), self.entries.len())?,
        };
        for (name, value) in &self.entries {
            table.put(name, value.copy()?)?;
        }
        Ok(table)
    }

    /// Whether it has the same names with the same values, in the same order.
    pub fn is_same(&self, other: &Table) -> bool
        ensures { IsTrue result ↔ (self.now ≡ other.now) }
    {
        let mut others = other.iter();
        for (name, value) in self.iter() {
            let Some((other_name, other_value)) = others.next() else {
                return false;
            };
            if name != other_name || value.as_bytes() != other_value.as_bytes() {
                return false;
            }
        }
        others.next().is_none()
    }

    /// Where the table takes its memory from.
    pub fn alloc(&self) -> Global {
        *self.entries.allocator()
    }
}
