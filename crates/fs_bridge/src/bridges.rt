//! The bridges that stand.

ghost use Rattle.std.specs.Prelude.{◌≡◌, ◌≢◌, ◌+◌, true, not, filter, None, IfOk, OnOk, OnErr};
ghost use Rattle.std.specs.List.{find};
ghost use Rattle.fs_bridge.specs.Bridges as spec;
ghost use Rattle.fs_bridge.specs.Laws.{IsSound};

use crate::row::{BridgeKind, Row};
use fs_text::Memory;
use std::alloc::Global;
use std::marker::Model;

/// The bridges that stand, in order of their numbers, which are drawn from 1 on.
///
/// A contract sees their rows, and how many numbers were drawn.
pub struct Bridges {
    rows: Vec<Row>,
    drawn: u64,
}

impl Drop for Bridges {
    fn drop(self) {
        let Bridges {
            rows: _rows,
            drawn: _drawn,
        } = self;
    }
}

impl Model for Bridges {
    ghost use Rattle.fs_bridge.specs.Bridges.{BridgeRows};
    ghost use Rattle.fs_bridge.specs.Laws.{IsSound};

    ghost Value = { BridgeRows };

    ghost view = { λ b. record { rows = b.rows.items; drawn = b.drawn } };

    ghost invariant = { λ b. IsSound (record { rows = b.rows.items; drawn = b.drawn }) };
}

impl Bridges {
    /// No bridge.
    pub fn new(alloc: Global) -> Bridges
        ensures { result ≡ spec.no_bridges }
    {
        Bridges {
            rows: Vec::new(alloc),
            drawn: 0,
        }
    }

    /// The same bridges once more.
    pub fn copy(&self) -> Result<Bridges, Memory>
        ensures { IfOk result (λ copy. copy ≡ self.now) }
    {
        Ok(Bridges {
            rows: self.rows.clone()?,
            drawn: self.drawn,
        })
    }

    /// What holds of all bridges that stand. It does nothing, and stands for its contract.
    pub fn sound(&self)
        ensures { IsSound self.now }
    {
        let _rows = &self.rows;
    }

    /// Whether there is a number for one more bridge: 2^64 - 1 can be drawn.
    pub fn has_number_left(&self) -> bool
        ensures { result ≡ spec.has_number_left self.now }
    {
        self.drawn < u64::MAX
    }

    /// Joins two slots, neither of which is part of a bridge, and says the number of their bridge, for which there is
    /// one left.
    pub fn join(&mut self, caller: u16, answerer: u16, kind: BridgeKind) -> Result<u64, Memory>
        requires apart { caller ≢ answerer }
        requires caller { spec.part_of caller self.old ≡ None }
        requires answerer { spec.part_of answerer self.old ≡ None }
        requires left { spec.has_number_left self.old ≡ true }
        ensures number { IfOk result (λ number. number ≡ self.old.drawn + 1) }
        ensures joined { OnOk result (self.new ≡ spec.joined caller answerer kind self.old) }
        ensures err { OnErr result (self.new ≡ self.old) }
    {
        let number = self.drawn + 1;
        self.rows.push(Row {
            number,
            caller,
            answerer,
            kind,
        })?;
        self.drawn = number;
        Ok(number)
    }

    /// The bridge that a slot is part of.
    pub fn part_of(&self, slot: u16) -> Option<Row>
        ensures { result ≡ spec.part_of slot self.now }
    {
        first_with_leg(&self.rows, slot)
    }

    /// Ends the bridge of a number, and gives it, if it stands.
    pub fn unbridge(&mut self, number: u64) -> Option<Row>
        ensures row { result ≡ spec.numbered number self.old }
        ensures ended { self.new ≡ spec.unbridged number self.old }
    {
        let ended = first_numbered(&self.rows, number);
        keep_others(&mut self.rows, number);
        ended
    }
}

/// The first bridge that a slot is a leg of.
fn first_with_leg(rows: &[Row], slot: u16) -> Option<Row>
    ensures { result ≡ find (spec.has_leg slot) rows.now }
{
    rows.iter().find(|row| row.has_leg(slot)).copied()
}

/// The first bridge of a number.
fn first_numbered(rows: &[Row], number: u64) -> Option<Row>
    ensures { result ≡ find (spec.has_number number) rows.now }
{
    rows.iter().find(|row| row.number == number).copied()
}

/// Takes the bridges of a number away.
fn keep_others(rows: &mut Vec<Row>, number: u64)
    ensures { rows.new.items ≡ filter (λ row. not (spec.has_number number row)) rows.old.items }
{
    rows.retain(|row| row.number != number);
}
