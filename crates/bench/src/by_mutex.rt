//! The same entries under a `Mutex`.
ghost use Rattle.std.specs.Thread.{IsSync};

use crate::tally::Tally;
use fs_book::Turned;
use std::sync::{Mutex, Wait};
use std::thread::{Threads, join};

// How many entries there are once each of 2^depth threads has made so many.
pub fn counted<R: Threads + Wait + Sync>(rt: &R, depth: u32, count: u64) -> u64 {
    let tally = Mutex::new(Tally::new());
    together(rt, &tally, depth, count);
    tally.into_inner().count()
}

fn together<R: Threads + Wait + Sync>(rt: &R, tally: &Mutex<Tally>, depth: u32, count: u64) {
    if depth == 0 {
        return alone(rt, tally, count);
    }
    let deeper = depth - 1;
    join(
        rt,
        move ||
            requires { IsSync R.row }
        { together(rt, tally, deeper, count) },
        move ||
            requires { IsSync R.row }
        { together(rt, tally, deeper, count) },
    );
}

fn alone(rt: &impl Wait, tally: &Mutex<Tally>, count: u64) {
    for _ in 0..count {
        let _ = tally.lock(rt).turn(());
    }
}
