//! Variables within their limits.

ghost use Rattle.std.specs.Prelude.{◌≡◌, ◌≤◌, ◌↔◌, true, [], length, if◌then◌else◌, IfOk, OnErr, option_copied, IsTrue};
ghost use Rattle.fs_vars.specs.Pairs.{value_of, with_value, without, AreDistinct};
ghost use Rattle.fs_vars.specs.Variables.{can_set, set_to, is_removal, is_within, tally_of};

use crate::bounds::Bounds;
use crate::pairs::VarsIter;
use crate::table::Table;
use crate::tally::Tally;
use fs_text::{Memory, Txt};
use std::alloc::Global;
use std::marker::Model;

// The most bytes of a name, and of a value.
const NAME_LIMIT: usize = 256;

const VALUE_LIMIT: usize = 16_384;

/// Variables in the order in which they were first set, within the limits of their [`Bounds`].
pub struct Vars {
    bounds: Bounds,
    table: Table,
    tally: Tally,
}

impl Drop for Vars {
    fn drop(self) {
        let Vars {
            bounds: _bounds,
            table: _table,
            tally: _tally,
        } = self;
    }
}

impl Model for Vars {
    ghost use Rattle.std.specs.Prelude.{◌≡◌, true};
    ghost use Rattle.fs_vars.specs.Variables.{Variables, tally_of, is_within};

    ghost Value = { Variables };

    ghost view = { λ v. record { bounds = v.bounds; pairs = v.table } };

    ghost invariant = { λ v. (v.tally ≡ tally_of v.bounds v.table) × (is_within v.bounds v.tally ≡ true) };
}

impl Vars {
    /// No variables.
    pub fn new(alloc: Global, bounds: Bounds) -> Result<Vars, Memory>
        ensures { IfOk result (λ vars. vars ≡ record { bounds = bounds; pairs = [] }) }
    {
        Ok(Vars {
            bounds,
            table: Table::new(alloc),
            tally: Tally::NONE,
        })
    }

    /// The value under a name.
    pub fn get(&self, name: &[u8]) -> Option<&Txt>
        ensures { option_copied result ≡ value_of self.now.pairs name.now }
    {
        self.table.get(name)
    }

    /// The variables in order. No two have one name, and they are within their limits.
    pub fn pairs(&self) -> VarsIter<'_>
        ensures pairs { result ≡ self.now.pairs }
        ensures distinct { AreDistinct self.now.pairs }
        ensures within { is_within self.now.bounds (tally_of self.now.bounds self.now.pairs) ≡ true }
    {
        self.table.iter()
    }

    /// The same variables once more, with the same bounds.
    pub fn copy(&self) -> Result<Vars, Memory>
        ensures { IfOk result (λ vars. vars ≡ self.now) }
    {
        Ok(Vars {
            bounds: self.bounds,
            table: self.table.copy()?,
            tally: self.tally,
        })
    }

    /// Whether these are the same variables in the same order, with the same bounds.
    pub fn is_same(&self, other: &Vars) -> bool
        ensures { IsTrue result ↔ (self.now ≡ other.now) }
    {
        self.bounds == other.bounds && self.table.is_same(&other.table)
    }

    /// Sets a variable, and says whether it did. An empty value and `_undef_` take the variable out.
    ///
    /// It does not, and changes nothing, where the name is empty or a limit of the bounds would be passed. A new name
    /// goes last, and one that is there keeps its place.
    #[tactic(auto, unfolding(crate::specs::Variables::can_set, crate::specs::Variables::set_to))]
    pub fn set(&mut self, name: &[u8], value: &[u8]) -> Result<bool, Memory>
        ensures answer { IfOk result (λ done. done ≡ can_set self.old name.now value.now) }
        ensures set { IfOk result (λ done. self.new ≡ (if done then set_to self.old name.now value.now else self.old)) }
        ensures err { OnErr result (self.new ≡ self.old) }
    {
        if name.is_empty() {
            return Ok(false);
        }
        if is_removal(value) {
            self.unset(name);
            return Ok(true);
        }
        if name.len() > NAME_LIMIT || value.len() > VALUE_LIMIT {
            return Ok(false);
        }
        let tally = self.tally_with(name, value);
        if !tally.is_within(self.bounds) {
            return Ok(false);
        }
        let text = Txt::of(self.table.alloc(), value)?;
        self.table.put(name, text)?;
        self.tally = tally;
        Ok(true)
    }

    /// Takes a variable out. The others keep their order.
    pub fn unset(&mut self, name: &[u8])
        ensures { self.new ≡ record self.old { pairs = without self.old.pairs name.now } }
    {
        self.tally = self.tally_without(name);
        self.table.take(name);
    }

    /// What the variables count once the name is set to the value.
    fn tally_with(&self, name: &[u8], value: &[u8]) -> Tally
        requires name { length name.now ≤ 256 }
        requires value { length value.now ≤ 16384 }
        ensures { result ≡ tally_of self.now.bounds (with_value self.now.pairs name.now value.now) }
    {
        let own = Tally::of(self.bounds, name, value);
        self.tally_without(name).plus(own)
    }

    /// What the other variables count.
    fn tally_without(&self, name: &[u8]) -> Tally
        ensures value { result ≡ tally_of self.now.bounds (without self.now.pairs name.now) }
        ensures within { is_within self.now.bounds result ≡ true }
        ensures distinct { AreDistinct self.now.pairs }
    {
        match self.table.get(name) {
            Some(value) => self
                .tally
                .minus(Tally::of(self.bounds, name, value.as_bytes())),
            None => self.tally,
        }
    }
}

/// Whether a value stands for none.
fn is_removal(value: &[u8]) -> bool
    ensures { result ≡ is_removal value.now }
{
    value.is_empty() || value == b"_undef_".as_slice()
}
