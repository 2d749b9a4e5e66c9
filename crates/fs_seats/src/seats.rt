//! A table of fixed seats.
ghost use Rattle.std.specs.Prelude.{◌≡◌, ◌≤◌, length, IfOk};
ghost use Rattle.fs_seats.specs.Seats as spec;

use crate::table::Table;
use fs_text::Memory;
use std::alloc::Global;
use std::marker::Model;

/// A table of fixed seats, each empty or holding one thing. A contract sees what stands at them, in order.
#[derive(Drop)]
pub struct Seats<T> {
    list: Vec<Option<T>>,
    filled: usize,
}

impl<T> Model for Seats<T> {
    ghost use Rattle.std.specs.Prelude.{List, Option};
    ghost use Rattle.std.specs.Prelude.{◌≤◌, length};
    ghost use Rattle.std.specs.Coded.{coded_list, coded_option};
    ghost use Rattle.fs_seats.specs.Seats.{IsEmptyFrom};

    ghost Value = { List (Option T) };

    ghost view = { λ p. p.list.items };

    ghost invariant = { λ p. (p.filled ≤ length p.list.items) × IsEmptyFrom p.filled p.list.items };

    ghost coded = { coded_list (coded_option T.code) };
}

impl<T> Table<T> for Seats<T> {
    ghost held = { λ seats. seats };

    fn len(&self) -> usize {
        self.list.len()
    }

    fn get(&self, seat: usize) -> Option<&T> {
        match self.list.get(seat) {
            Some(held) => held.as_ref(),
            None => None,
        }
    }
}

impl<T: Drop> Seats<T> {
    /// A table of so many empty seats.
    #[tactic(auto, unfolding(crate::specs::Seats::no_seats))]
    pub fn empty(alloc: Global, count: usize) -> Result<Seats<T>, Memory>
        ensures { IfOk result (λ seats. seats ≡ spec.no_seats count) }
    {
        let mut list = Vec::new(alloc);
        for _seat in 0..count {
            list.push(None)?;
        }
        Ok(Seats { list, filled: 0 })
    }

    /// How many seats were ever filled, at most: from this one on nothing stands.
    pub fn filled(&self) -> usize
        ensures within { result ≤ length self.now }
        ensures empty { spec.IsEmptyFrom result self.now }
    {
        self.filled
    }

    /// Puts something at a seat, or empties it; past the last one nothing changes.
    pub fn put(&mut self, seat: usize, held: Option<T>)
        ensures { self.new ≡ spec.with_held self.old seat held }
    {
        if let Some(there) = self.list.get_mut(seat) {
            *there = held;
            self.filled = self.filled.max(seat + 1);
        }
    }
}
