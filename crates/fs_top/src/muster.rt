//! Those who run beside one another begin together, or not at all.

use std::sync::{Mutex, Wait};
use std::thread::Parker;
use std::time::Duration;

// How long who waits for others naps, in milliseconds.
const NAP: u64 = 2;

// Where nobody more has begun for so many naps, which are three seconds, those who have are sent away.
const PATIENCE: u32 = 1_500;

/// How far a muster has come.
#[derive(Clone, Copy, Debug)]
enum Stand {
    /// So many have begun, and others are still to come.
    Open(usize),
    /// All have begun, and so many of them have gone to work.
    Whole(usize),
    /// Somebody did not come, and those who had begun were sent away.
    Off,
}

impl Stand {
    // One more has begun, of so many.
    fn with_one(self, all: usize) -> Stand {
        match self {
            Stand::Open(begun) if begun.saturating_add(1) < all => {
                Stand::Open(begun.saturating_add(1))
            }
            Stand::Open(_) => Stand::Whole(0),
            stand => stand,
        }
    }

    // One more has gone to work.
    fn with_one_at_work(self) -> Stand {
        match self {
            Stand::Whole(working) => Stand::Whole(working.saturating_add(1)),
            stand => stand,
        }
    }

    // Those are sent away who wait for others.
    fn called_off(self) -> Stand {
        match self {
            Stand::Open(_) => Stand::Off,
            stand => stand,
        }
    }
}

/// A muster of those who are to run beside one another, each in a thread of its own.
///
/// Where a thread cannot be made, what it should do comes behind what another one does, which may be never. So nobody
/// goes on before all have begun. Threads begin in the time of the system, so that is what the naps of those who wait
/// take, whatever the clock of the switch tells.
#[derive(Drop)]
pub(crate) struct Muster {
    all: usize,
    stand: Mutex<Stand>,
}

impl Muster {
    /// A muster of so many, none of whom has begun.
    pub(crate) fn of(all: usize) -> Muster {
        Muster {
            all,
            stand: Mutex::new(Stand::Open(0)),
        }
    }

    /// Begins as one of them, and waits for the others. Answers whether all have begun.
    pub(crate) fn begin<R: Wait>(&self, rt: &R) -> bool {
        let came = self.come(rt);
        if came {
            self.go(rt);
        }
        came
    }

    /// Begins as the one who finds all others at work. Answers whether all have begun.
    pub(crate) fn begin_last<R: Wait>(&self, rt: &R) -> bool {
        if !self.come(rt) {
            return false;
        }
        let parker = Parker::new();
        'naps: for _ in rt.forever() {
            if self.all_others_work(rt) {
                return true;
            }
            parker.park_timeout(rt, Duration::from_millis(NAP));
        }
        unreachable!()
    }

    // Comes, and waits for the others. Answers whether all have come.
    fn come<R: Wait>(&self, rt: &R) -> bool {
        self.add_one(rt);
        let parker = Parker::new();
        let mut seen = 0;
        let mut naps = 0;
        'naps: for _ in rt.forever() {
            match self.stand(rt) {
                Stand::Whole(_) => return true,
                Stand::Off => return false,
                Stand::Open(begun) if begun != seen => {
                    seen = begun;
                    naps = 0;
                }
                Stand::Open(_) if naps >= PATIENCE => self.call_off(rt),
                Stand::Open(_) => {
                    parker.park_timeout(rt, Duration::from_millis(NAP));
                    naps += 1;
                }
            }
        }
        unreachable!()
    }

    // How far it has come.
    fn stand<R: Wait>(&self, rt: &R) -> Stand {
        *self.stand.lock(rt)
    }

    // Whether all but one have gone to work.
    fn all_others_work<R: Wait>(&self, rt: &R) -> bool {
        match self.stand(rt) {
            Stand::Whole(working) => working >= self.all.saturating_sub(1),
            _ => false,
        }
    }

    // One more has begun.
    fn add_one<R: Wait>(&self, rt: &R) {
        let mut stand = self.stand.lock(rt);
        *stand = stand.with_one(self.all);
    }

    // One more has gone to work.
    fn go<R: Wait>(&self, rt: &R) {
        let mut stand = self.stand.lock(rt);
        *stand = stand.with_one_at_work();
    }

    // Those are sent away who wait for others.
    fn call_off<R: Wait>(&self, rt: &R) {
        let mut stand = self.stand.lock(rt);
        *stand = stand.called_off();
    }
}
