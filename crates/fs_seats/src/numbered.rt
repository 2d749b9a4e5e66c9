//! Things that are known by their numbers, in a table.
ghost use Rattle.std.specs.Prelude.{◌≡◌};
ghost use Rattle.std.specs.Option.{option_copied};
ghost use Rattle.fs_seats.specs.Rows as spec;

use crate::overlay::Overlay;
use crate::seats::Seats;
use crate::table::Table;

/// A thing with the number by which it is known.
#[derive(Drop)]
pub struct Numbered<T> {
    pub number: u64,
    pub held: T,
}

/// A table of things that are known by their numbers.
pub trait Rows<T>: Table<Numbered<T>> {
    /// The least seat at which a thing of a number stands.
    #[tactic(auto, using(crate::proofs::SeatLemmas::first_rules))]
    fn seat_of(&self, number: u64) -> Option<usize>
        ensures { result ≡ spec.seat_of (Self.held self.now) number }
    {
        for seat in 0..self.len() {
            if let Some(row) = self.get(seat) {
                if row.number == number {
                    return Some(seat);
                }
            }
        }
        None
    }

    /// The thing of a number.
    #[tactic(auto, using(crate::proofs::SeatLemmas::first_rules))]
    fn row(&self, number: u64) -> Option<&T>
        ensures { option_copied result ≡ spec.row_of (Self.held self.now) number }
    {
        for seat in 0..self.len() {
            if let Some(row) = self.get(seat) {
                if row.number == number {
                    return Some(&row.held);
                }
            }
        }
        None
    }
}

impl<T: Drop> Rows<T> for Seats<Numbered<T>> {}

impl<'a, T: Drop> Rows<T> for Overlay<'a, Numbered<T>> {}
