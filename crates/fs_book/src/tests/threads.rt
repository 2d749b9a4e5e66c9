//! Threads enter into one book, and their passes are met.
ghost use Rattle.std.specs.Prelude.{◌≡◌};
ghost use Rattle.std.specs.Thread.{IsSync};
ghost use Rattle.fs_book.specs.Passes.{seen, parts, IsPassOf};

use super::tally::{HowMany, Tally};
use crate::{Book, Pass};
use fs_text::Memory;
use std::alloc::Global;
use std::sync::Wait;
use std::test::Fail;
use std::thread::{Threads, join};

// What each thread does: so many entries, and a look after each.
#[derive(Clone, Copy)]
struct Work {
    entries: u64,
    looks: bool,
}

// One thread's entries, and the places that they got.
fn work_alone(
    rt: &impl Wait,
    alloc: Global,
    book: &Book<Tally>,
    mut pass: Pass<Tally>,
    work: Work,
) -> (Pass<Tally>, Result<Vec<u64>, Memory>)
    requires { IsPassOf (λ _. tt) book.now pass }
    ensures { IsPassOf (λ _. tt) book.now result.0 × (parts result.0 ≡ parts pass) }
{
    let mut places = Vec::new(alloc);
    for entry in 0..work.entries {
        let Ok(receipt) = book.submit(rt, &mut pass, entry) else {
            return (pass, Err(Memory));
        };
        if work.looks && book.look(rt, &mut pass, &HowMany) <= receipt.place {
            return (pass, Err(Memory));
        }
        if places.push(receipt.place).is_err() {
            return (pass, Err(Memory));
        }
    }
    (pass, Ok(places))
}

// The places of both.
fn gathered(
    left: Result<Vec<u64>, Memory>,
    right: Result<Vec<u64>, Memory>,
) -> Result<Vec<u64>, Memory> {
    let mut places = left?;
    places.extend_from_slice(right?.as_slice())?;
    Ok(places)
}

// The same in 2^depth threads, each with a pass that was split from its parent's.
fn work_together<R: Threads + Wait + Sync>(
    rt: &R,
    alloc: Global,
    book: &Book<Tally>,
    mut pass: Pass<Tally>,
    work: Work,
    depth: u32,
) -> (Pass<Tally>, Result<Vec<u64>, Memory>)
    requires { IsPassOf (λ _. tt) book.now pass }
    ensures { IsPassOf (λ _. tt) book.now result.0 × (parts result.0 ≡ parts pass) }
{
    let half = pass.parts() / 2;
    if depth == 0 || half == 0 {
        return work_alone(rt, alloc, book, pass, work);
    }
    let deeper = depth - 1;
    let other = book.split(&mut pass, half);
    let (left, right) = join(
        rt,
        move || -> (Pass<Tally>, Result<Vec<u64>, Memory>)
            requires { IsSync R.row × IsPassOf (λ _. tt) book.now pass }
            ensures { IsPassOf (λ _. tt) book.entry.now result.0 × (parts result.0 ≡ parts pass) }
        { work_together(rt, alloc, book, pass, work, deeper) },
        move || -> (Pass<Tally>, Result<Vec<u64>, Memory>)
            requires { IsSync R.row × IsPassOf (λ _. tt) book.now other }
            ensures { IsPassOf (λ _. tt) book.entry.now result.0 × (parts result.0 ≡ parts other) }
        { work_together(rt, alloc, book, other, work, deeper) },
    );
    let (mut whole, places) = left;
    book.meet(&mut whole, right.0);
    (whole, gathered(places, right.1))
}

// A whole book, in 2^depth threads: the journal that closed it, and all places that were told.
fn ran<R: Threads + Wait + Sync>(
    rt: &R,
    alloc: Global,
    work: Work,
    depth: u32,
) -> Result<(Tally, Vec<u64>), Memory> {
    let Ok((book, pass)) = Book::start(alloc, Tally::new(alloc)) else {
        return Err(Memory);
    };
    let (pass, places) = work_together(rt, alloc, &book, pass, work, depth);
    let state = book.close(pass);
    Ok((state, places?))
}

// Whether these are the numbers below the count, each once.
fn are_all_below(mut places: Vec<u64>, count: u64) -> Result<bool, Memory> {
    places.sort()?;
    Ok(places.iter().copied().eq(0..count))
}

#[test]
fn all_places_are_told_once(rt: HostRuntime) -> Result<(), Fail> {
    let two = Work {
        entries: 16_384,
        looks: false,
    };
    let eight = Work {
        entries: 4096,
        looks: true,
    };
    let many = Work {
        entries: 512,
        looks: true,
    };
    for (work, depth) in [(two, 1), (eight, 3), (many, 6)] {
        let (state, places) = ran(&rt, rt.alloc(), work, depth)?;
        assert_eq!(rt; state.log.len(), 32_768);
        assert!(rt; are_all_below(places, 32_768)?);
    }
    Ok(())
}
