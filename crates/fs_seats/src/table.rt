//! Tables as they are read, seat by seat.
ghost use Rattle.std.specs.Prelude.{◌≡◌, ◌<◌, List, Option, length, IfSome};
ghost use Rattle.std.specs.Option.{option_copied};
ghost use Rattle.fs_seats.specs.Seats.{held_in, least_free};

/// A table as it is read, seat by seat.
pub trait Table<T> {
    // What stands at its seats.
    ghost held: { Self → List (Option T) };

    /// How many seats there are.
    fn len(&self) -> usize
        ensures { result ≡ length (held self.now) };

    /// What stands at a seat; past the last one stands nothing.
    fn get(&self, seat: usize) -> Option<&T>
        ensures { option_copied result ≡ held_in (held self.now) seat };

    /// The least empty seat from one on.
    #[tactic(auto, using(crate::proofs::SeatLemmas::first_rules))]
    fn least_free(&self, from: usize) -> Option<usize>
        ensures seat { result ≡ least_free (held self.now) from }
        ensures within { IfSome result (λ seat. seat < length (held self.now)) }
    {
        for seat in from..self.len() {
            if self.get(seat).is_none() {
                return Some(seat);
            }
        }
        None
    }
}
