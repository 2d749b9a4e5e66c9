//! The clock of the system, as a sleeper has it.

use crate::bells::{Bells, Seat};
use crate::clock::Clock;
use crate::sleeper::Sleeper;
use crate::wakes::{FREE, Wakes};
use std::time;

// Whoever sleeps looks again after so many milliseconds at the latest.
const NAP: u64 = 1000;

// Whoever works a slot looks again later, and each at another time, since there are many of them: so many milliseconds,
// and so many more for each slot in front.
const SLOT_NAP: u64 = 8000;

const STEP: u64 = 16;

const MICROS_IN_MILLI: u64 = 1000;

/// The clock of the system, whose naps are on the seat of a sleeper. Of its moments it tells nothing.
#[derive(Drop)]
pub struct RealClock<'a, R: time::Clock + Sync> {
    system: &'a R,
    bells: &'a Bells,
    seat: &'a Seat,
    nap: u64,
}

impl<'a, R: time::Clock + Sync> RealClock<'a, R> {
    /// The clock of whoever takes connections in.
    pub fn new(system: &'a R, bells: &'a Bells) -> RealClock<'a, R> {
        RealClock {
            system,
            bells,
            seat: bells.door(),
            nap: NAP,
        }
    }
}

impl<'a, R: time::Clock + Sync> Clock for RealClock<'a, R> {
    ghost tells = { λ _ _. Unit {0} };

    fn now(&self) -> u64 {
        match self.system.since_1970() {
            Ok(time) => u64::try_from(time.as_micros()).unwrap_or(u64::MAX),
            Err(_) => 0,
        }
    }

    fn nap(&self) {
        self.seat.sleep(self.nap);
    }

    fn nap_until(&self, moment: u64) {
        let left = moment.saturating_sub(self.now());
        self.seat
            .sleep(self.nap.min(left.div_ceil(MICROS_IN_MILLI)));
    }

    fn of_sleeper(&self, sleeper: Sleeper) -> RealClock<'a, R> {
        RealClock {
            system: self.system,
            bells: self.bells,
            seat: self.bells.seat(sleeper),
            nap: nap_of(sleeper),
        }
    }

    fn serve(&self, conn: u32) {
        self.seat.serve(conn);
    }

    fn serve_nobody(&self) {
        self.seat.serve(FREE);
    }

    fn wake(&self, wakes: &Wakes) {
        if !wakes.is_nobody() {
            self.bells.ring(wakes, self.seat);
        }
    }
}

// The longest sleep of a sleeper.
fn nap_of(sleeper: Sleeper) -> u64 {
    match sleeper {
        Sleeper::Slot(slot) => SLOT_NAP.saturating_add(STEP.saturating_mul(u64::from(slot))),
        _ => NAP,
    }
}
