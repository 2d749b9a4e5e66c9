//! Writes over a table.
ghost use Rattle.std.specs.Prelude.{◌≡◌, [], ◌∷◌, ◌++◌, Option, Some, length, MatchOption, OnOk, OnErr};
ghost use Rattle.std.specs.Option.{option_copied};
ghost use Rattle.fs_seats.specs.Seats.{no_seats, with_held};
ghost use Rattle.fs_seats.specs.Sheets as spec;
ghost use Rattle.fs_seats.specs.Overlays.{over, held_at, put_at, taken_back};
ghost use Rattle.fs_seats.specs.declared.sheet.Write.{Write};

use crate::seats::Seats;
use crate::table::Table;
use fs_text::Memory;
use std::alloc::Global;
use std::marker::Model;

/// What is to stand at a seat.
#[derive(Drop)]
pub struct Write<T> {
    pub seat: usize,
    pub held: Option<T>,
}

/// Writes over a table, the newest last. A contract sees them as that list.
#[derive(Drop)]
pub struct Sheet<T> {
    writes: Vec<Write<T>>,
}

impl<T> Model for Sheet<T> {
    ghost use Rattle.std.specs.Prelude.{List};
    ghost use Rattle.std.specs.Coded.{coded_list};
    ghost use Rattle.fs_seats.specs.declared.sheet.Write.{Write};

    ghost Value = { List (Write T) };

    ghost view = { λ s. s.writes.items };
}

impl<T: Drop> Sheet<T> {
    /// No writes.
    pub fn new(alloc: Global) -> Sheet<T>
        ensures { result ≡ [] }
    {
        Sheet {
            writes: Vec::new(alloc),
        }
    }

    /// Writes once more.
    pub fn put(&mut self, seat: usize, held: Option<T>) -> Result<(), Memory>
        ensures ok { OnOk result (self.new ≡ self.old ++ record { seat = seat; held = held } ∷ []) }
        ensures err { OnErr result (self.new ≡ self.old) }
    {
        self.writes.push(Write { seat, held })?;
        Ok(())
    }

    /// Writes over a table: something is to stand at a seat, or nothing; past the last one nothing changes.
    #[tactic(auto, using(crate::proofs::SeatLemmas::written_put))]
    pub fn put_over(&mut self, kept: &Seats<T>, seat: usize, held: Option<T>) -> Result<(), Memory>
        ensures ok { OnOk result
            (spec.written kept.now self.new ≡ with_held (spec.written kept.now self.old) seat held) }
        ensures err { OnErr result (self.new ≡ self.old) }
    {
        self.put(seat, held)
    }

    /// Writes over a table: nothing is to stand at any seat.
    #[tactic(auto, using(crate::proofs::EmptyLemmas::emptied_rules))]
    pub fn clear_over(&mut self, kept: &Seats<T>) -> Result<(), Memory>
        ensures ok { OnOk result (spec.written kept.now self.new ≡ no_seats (length kept.now)) }
    {
        self.writes.clear();
        for seat in 0..kept.filled() {
            self.put_over(kept, seat, None)?;
        }
        Ok(())
    }

    /// How many writes there are.
    pub fn len(&self) -> usize
        ensures { result ≡ length self.now }
    {
        self.writes.len()
    }

    /// The seat of a write, unless a later one is of the same seat.
    pub fn last_of(&self, write: usize) -> Option<usize>
        ensures { result ≡ spec.last_of self.now write }
    {
        last_in(self.writes.get(write..)?)
    }

    /// Takes back what was written over a table last, if it is something at this seat, so that something else can be
    /// put there.
    #[tactic(auto, using(crate::proofs::SeatLemmas::taken_held, crate::proofs::SeatLemmas::taken_put))]
    pub fn take_back(&mut self, kept: &Seats<T>, seat: usize) -> Option<T>
        ensures answer { result ≡ taken_back (over kept.now self.old) seat }
        ensures taken { MatchOption result (self.new ≡ self.old)
            (λ held. held_at (over kept.now self.old) seat ≡ Some held) }
        ensures put { (held : Option T)
            → put_at (over kept.now self.new) seat held ≡ put_at (over kept.now self.old) seat held }
    {
        if seat >= kept.len() {
            return None;
        }
        self.take_newest(seat)
    }

    /// Takes the newest write back, if it put something at this seat.
    #[tactic(auto, using(crate::proofs::SeatLemmas::last_write))]
    fn take_newest(&mut self, seat: usize) -> Option<T>
        ensures put { result ≡ spec.put_last self.old seat }
        ensures left { MatchOption result (self.new ≡ self.old) (λ held. self.old ≡ spec.with_put self.new seat held) }
    {
        match self.writes.last() {
            Some(newest) if newest.seat == seat && newest.held.is_some() => {
                self.writes.pop()?.held
            }
            _ => None,
        }
    }

    /// What stands at a seat where something is kept below the sheet: what was written there last, or else what is
    /// kept.
    pub fn over<'b>(&'b self, seat: usize, kept: Option<&'b T>) -> Option<&'b T>
        ensures { option_copied result ≡ spec.newest self.now seat (option_copied kept.entry) }
    {
        let mut held = kept;
        for write in &self.writes {
            if write.seat == seat {
                held = write.held.as_ref();
            }
        }
        held
    }

    /// Moves the writes into a table, in order. None is left.
    #[tactic(auto, using(crate::proofs::SeatLemmas::written_put))]
    pub fn move_into(&mut self, seats: &mut Seats<T>)
        ensures seats { seats.new ≡ spec.written seats.old self.old }
        ensures none { self.new ≡ [] }
    {
        if self.writes.is_empty() {
            return;
        }
        for write in self.writes.iter_mut() {
            seats.put(write.seat, write.held.take());
        }
        self.writes.clear();
    }
}

/// The seat of the first of these writes, unless one behind it is of the same seat.
fn last_in<T>(writes: &[Write<T>]) -> Option<usize>
    ensures { result ≡ spec.last_in writes.now }
{
    let (first, later) = writes.split_first()?;
    if has_write(later, first.seat) {
        return None;
    }
    Some(first.seat)
}

/// Whether one of these writes is of a seat.
fn has_write<T>(writes: &[Write<T>], seat: usize) -> bool
    ensures { result ≡ spec.has_write writes.now seat }
{
    for write in writes {
        if write.seat == seat {
            return true;
        }
    }
    false
}
