//! Things that are known by their numbers, written over a table.
ghost use Rattle.std.specs.Prelude.{◌≡◌, OnOk, OnErr};
ghost use Rattle.std.specs.Option.{option_copied};
ghost use Rattle.fs_seats.specs.Overlays.{now_of};
ghost use Rattle.fs_seats.specs.Rows as spec;
ghost use Rattle.fs_seats.specs.Sheets.{written};

use crate::numbered::{Numbered, Rows};
use crate::overlay::Overlay;
use crate::seats::Seats;
use crate::sheet::Sheet;
use crate::table::Table;
use fs_text::Memory;

impl<T: Drop> Sheet<Numbered<T>> {
    /// Puts a thing in the place of the one with its number; where there is none nothing changes.
    pub fn set_row(&mut self, kept: &Seats<Numbered<T>>, number: u64, held: T) -> Result<(), Memory>
        ensures ok { OnOk result
            (written kept.now self.new ≡ spec.with_row (written kept.now self.old) number held) }
        ensures err { OnErr result (self.new ≡ self.old) }
    {
        match Overlay::of(kept, self).seat_of(number) {
            Some(seat) => self.put_over(kept, seat, Some(Numbered { number, held })),
            None => Ok(()),
        }
    }

    /// Takes the thing of a number away.
    pub fn drop_row(&mut self, kept: &Seats<Numbered<T>>, number: u64) -> Result<(), Memory>
        ensures ok { OnOk result (written kept.now self.new ≡ spec.without_row (written kept.now self.old) number) }
        ensures err { OnErr result (self.new ≡ self.old) }
    {
        match Overlay::of(kept, self).seat_of(number) {
            Some(seat) => self.put_over(kept, seat, None),
            None => Ok(()),
        }
    }

    /// Puts a thing of a new number at the least empty seat; where there is none nothing changes.
    pub fn add_row(&mut self, kept: &Seats<Numbered<T>>, number: u64, held: T) -> Result<(), Memory>
        ensures ok { OnOk result
            (written kept.now self.new ≡ spec.with_new_row (written kept.now self.old) number held) }
        ensures err { OnErr result (self.new ≡ self.old) }
    {
        match Overlay::of(kept, self).least_free(0) {
            Some(seat) => self.put_over(kept, seat, Some(Numbered { number, held })),
            None => Ok(()),
        }
    }
}

impl<'a, T: Drop> Overlay<'a, Numbered<T>> {
    /// The thing of a number. It is lent for as long as the table and the sheet are.
    #[tactic(auto, using(crate::proofs::SeatLemmas::first_rules))]
    pub fn lend_row(&self, number: u64) -> Option<&'a T>
        ensures { option_copied result ≡ spec.row_of (now_of self.now) number }
    {
        for seat in 0..self.len() {
            if let Some(row) = self.lend(seat) {
                if row.number == number {
                    return Some(&row.held);
                }
            }
        }
        None
    }
}
