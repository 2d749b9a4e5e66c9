//! Moments are asked of a clock, and whoever has nothing to do naps on it.

ghost use Rattle.std.specs.Prelude.{◌↔◌, ℕ};

use crate::sleeper::Sleeper;
use crate::wakes::Wakes;

/// What tells the moment, as one sleeper has it.
pub trait Clock: Sync + Drop {
    // The moments that it may tell.
    ghost tells: { Self → ℕ → Type 0 };

    /// The moment, in microseconds.
    fn now(&self) -> u64
        ensures { tells self.now result };

    /// Lets a little time pass, or sleeps until somebody wakes the sleeper.
    fn nap(&self);

    /// The same, at the latest until a moment in microseconds.
    fn nap_until(&self, _moment: u64) {
        self.nap();
    }

    /// The clock as another sleeper has it.
    fn of_sleeper(&self, sleeper: Sleeper) -> Self
        ensures { (moment : ℕ) → tells result moment ↔ tells self.now moment };

    /// Says that the sleeper serves the connection of this number from now on.
    fn serve(&self, _conn: u32) {}

    /// Says that the sleeper serves no connection.
    fn serve_nobody(&self) {}

    /// Wakes these sleepers, or keeps them from their next nap.
    fn wake(&self, _wakes: &Wakes) {}
}
