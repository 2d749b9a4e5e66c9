//! Entries into a book, whose passes are split among the threads and met again.
ghost use Rattle.std.specs.Prelude.{◌≡◌};
ghost use Rattle.std.specs.Thread.{IsSync};
ghost use Rattle.fs_book.specs.Passes.{parts, IsPassOf};

use crate::tally::Tally;
use fs_book::{Book, Pass};
use std::alloc::Global;
use std::sync::Wait;
use std::thread::{Threads, join};

// How many entries there are once each of 2^depth threads has made so many. No memory: none.
pub fn counted<R: Threads + Wait + Sync>(
    rt: &R,
    alloc: Global,
    depth: u32,
    count: u64,
) -> Option<u64> {
    let Ok((book, pass)) = Book::start(alloc, Tally::new()) else {
        return None;
    };
    let pass = together(rt, &book, pass, depth, count);
    let tally = book.close(pass);
    Some(tally.count())
}

fn together<R: Threads + Wait + Sync>(
    rt: &R,
    book: &Book<Tally>,
    mut pass: Pass<Tally>,
    depth: u32,
    count: u64,
) -> Pass<Tally>
    requires { IsPassOf (λ _. tt) book.now pass }
    ensures { IsPassOf (λ _. tt) book.now result × (parts result ≡ parts pass) }
{
    let half = pass.parts() / 2;
    if depth == 0 || half == 0 {
        return alone(rt, book, pass, count);
    }
    let deeper = depth - 1;
    let other = book.split(&mut pass, half);
    let (mut left, right) = join(
        rt,
        move || -> Pass<Tally>
            requires { IsSync R.row × IsPassOf (λ _. tt) book.now pass }
            ensures { IsPassOf (λ _. tt) book.entry.now result × (parts result ≡ parts pass) }
        { together(rt, book, pass, deeper, count) },
        move || -> Pass<Tally>
            requires { IsSync R.row × IsPassOf (λ _. tt) book.now other }
            ensures { IsPassOf (λ _. tt) book.entry.now result × (parts result ≡ parts other) }
        { together(rt, book, other, deeper, count) },
    );
    book.meet(&mut left, right);
    left
}

fn alone(rt: &impl Wait, book: &Book<Tally>, mut pass: Pass<Tally>, count: u64) -> Pass<Tally>
    requires { IsPassOf (λ _. tt) book.now pass }
    ensures { IsPassOf (λ _. tt) book.now result × (parts result ≡ parts pass) }
{
    for _ in 0..count {
        let _ = book.submit(rt, &mut pass, ());
    }
    pass
}
