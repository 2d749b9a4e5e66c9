//! A table with a sheet of writes over it.
ghost use Rattle.std.specs.Prelude.{◌≡◌, ◌≤◌, length};
ghost use Rattle.std.specs.Option.{option_copied};
ghost use Rattle.fs_seats.specs.Seats as seats;
ghost use Rattle.fs_seats.specs.Overlays as spec;

use crate::seats::Seats;
use crate::sheet::Sheet;
use crate::table::Table;
use std::marker::Model;

/// A table with a sheet over it, which is read with what is written. A contract sees both.
#[derive(Drop)]
pub struct Overlay<'a, T> {
    kept: &'a Seats<T>,
    sheet: &'a Sheet<T>,
}

impl<'a, T> Model for Overlay<'a, T> {
    ghost use Rattle.fs_seats.specs.Overlays.{Overlaid};

    ghost Value = { Overlaid T };

    ghost view = { λ o. record { kept = o.kept.now; sheet = o.sheet.now } };
}

impl<'a, T: Drop> Table<T> for Overlay<'a, T> {
    ghost held = { spec.now_of };

    #[tactic(auto, using(crate::proofs::SeatLemmas::written_length))]
    fn len(&self) -> usize {
        self.kept.len()
    }

    fn get(&self, seat: usize) -> Option<&T> {
        self.lend(seat)
    }
}

impl<'a, T: Drop> Overlay<'a, T> {
    /// A table with a sheet over it.
    pub fn of(kept: &'a Seats<T>, sheet: &'a Sheet<T>) -> Overlay<'a, T>
        ensures { result ≡ record { kept = kept.entry.now; sheet = sheet.entry.now } }
    {
        Overlay { kept, sheet }
    }

    /// What stands at a seat; past the last one stands nothing. It is lent for as long as both are.
    #[tactic(auto, using(crate::proofs::SeatLemmas::written_newest, crate::proofs::SeatLemmas::written_past))]
    pub fn lend(&self, seat: usize) -> Option<&'a T>
        ensures { option_copied result ≡ spec.held_at self.now seat }
    {
        let (kept, sheet) = (self.kept, self.sheet);
        if seat >= kept.len() {
            return None;
        }
        sheet.over(seat, kept.get(seat))
    }

    /// How many seats are filled, at most: from this one on nothing stands.
    #[tactic(auto, using(crate::proofs::SeatLemmas::none_past))]
    pub fn filled(&self) -> usize
        ensures within { result ≤ length (spec.now_of self.now) }
        ensures empty { seats.IsEmptyFrom result (spec.now_of self.now) }
    {
        if self.sheet.len() == 0 {
            self.kept.filled()
        } else {
            self.len()
        }
    }
}
