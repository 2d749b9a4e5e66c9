//! What `bench/book` measures: `bench book COUNT DEPTH` and `bench mutex COUNT DEPTH` make so many entries under a lock
//! by each of 2^DEPTH threads. It prints how many entries there were.
#![tactic(auto)]

mod by_book;
mod by_mutex;
mod tally;

use std::env::{self, Env};
use std::io::{self, ErrorKind};
use std::sync::Wait;
use std::thread::Threads;

fn main(rt: HostRuntime) -> io::Result<()> {
    let total = total(&rt).ok_or(ErrorKind::InvalidInput)?;
    println!(rt; "{total}")
}

// What the words of the command line come to, where they ask for something.
fn total<R: Env + AllocGlobal + Threads + Wait + Sync>(rt: &R) -> Option<u64> {
    let mut words = env::args(rt).ok()?.skip(1);
    let way = words.next()?;
    let count = number(words.next())?;
    let depth = u32::try_from(number(words.next()).unwrap_or(0)).ok()?;
    match way.as_str() {
        "book" => by_book::counted(rt, rt.alloc(), depth, count),
        "mutex" => Some(by_mutex::counted(rt, depth, count)),
        _ => None,
    }
}

fn number(word: Option<String>) -> Option<u64> {
    word?.parse().ok()
}
