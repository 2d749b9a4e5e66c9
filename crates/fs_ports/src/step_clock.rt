//! A clock in memory.

ghost use Rattle.std.specs.Prelude.{◌≡◌};

use crate::clock::Clock;
use crate::sleeper::Sleeper;
use std::sync::atomic::{AtomicU64, Ordering};
use std::thread;

/// A clock in memory, which goes on by a step at each nap. Each sleeper has one of its own, which goes on by itself.
#[derive(Drop)]
pub struct StepClock {
    start: u64,
    step: u64,
    naps: AtomicU64,
}

impl StepClock {
    /// A clock that begins at this moment. Its moments wrap round.
    pub fn new(start: u64, step: u64) -> StepClock
        ensures start { result.start ≡ start }
        ensures step { result.step ≡ step }
    {
        StepClock {
            start,
            step,
            naps: AtomicU64::new(0),
        }
    }
}

impl Clock for StepClock {
    ghost use Rattle.fs_ports.specs.Clocks.{IsAfterSteps};

    ghost tells = { λ clock moment. IsAfterSteps clock.start clock.step moment };

    fn now(&self) -> u64 {
        let naps = self.naps.load(Ordering::SeqCst);
        self.start.wrapping_add(naps.wrapping_mul(self.step))
    }

    fn nap(&self) {
        self.naps.fetch_add(1, Ordering::SeqCst);
        thread::yield_now();
    }

    fn of_sleeper(&self, _sleeper: Sleeper) -> StepClock {
        StepClock {
            start: self.start,
            step: self.step,
            naps: AtomicU64::new(self.naps.load(Ordering::SeqCst)),
        }
    }
}
