//! A dialplan is loaded anew, beside others who enter.

ghost use Rattle.std.specs.Prelude.{◌≡◌};
ghost use Rattle.fs_book.specs.Passes.{seen, mine, met, parts, opening_state, IsPassOf};
ghost use Rattle.fs_machine.specs.Loading.{IsLoad};
ghost use Rattle.fs_machine.specs.Turned.{configured, IsJournal};
ghost use Rattle.fs_session.specs.Loading as spec;

use crate::awaiting::{Awaiting, AwaitingOf};
use crate::worked::Worked;
use crate::working::is_final;
use fs_book::{Book, Pass};
use fs_machine::{Machine, NewPlan, Offer, Refusal, RouteRefusal};
use fs_ports::Files;
use fs_text::{Memory, Txt};
use std::alloc::Global;
use std::sync::Wait;

/// Loads the file that the switch was configured by, for the job of a number that waits for that, and notes it at a
/// moment, in microseconds. It loads, reads and builds without taking a turn at the lock, so it holds up nobody else,
/// however long that takes.
///
/// Where the file is not loaded at all, since the job waits for no load or the journal has no room for one, the files
/// are left as they were. Where others were quicker than it, or there is no room any more, the load is dropped.
pub fn load_once<R: Wait, F: Files>(
    rt: &R,
    alloc: Global,
    book: &Book<Machine>,
    pass: &mut Pass<Machine>,
    job: u64,
    files: &mut F,
    name: &Txt,
    now: u64,
) -> Worked
    requires book { IsPassOf configured book.now pass.old }
    ensures book { IsPassOf configured book.now pass.new }
    ensures kept { (met pass.new ≡ met pass.old) × (parts pass.new ≡ parts pass.old) }
    ensures loads { spec.LoadsOnce (configured (opening_state book.now)) (seen pass.old) (mine pass.old)
        (seen pass.new) (mine pass.new) job
        (record { loads = F.loads files.old name.now; counts = F.counts files.old; sizes = F.sizes files.old })
        (record { loads = F.loads files.new name.now; counts = F.counts files.new; sizes = F.sizes files.new })
        now result }
{
    let Ok(awaiting) = book.look(rt, pass, &AwaitingOf { job }) else {
        return Worked::Refused(Refusal::Memory);
    };
    match awaiting {
        Awaiting::Full(refusal) => Worked::Refused(refusal),
        Awaiting::Over => Worked::Idle { next: None },
        // What is in force until then is let go behind the entry, outside the lock.
        Awaiting::Waits(_in_force) => load_anew(rt, alloc, book, pass, job, files, name, now),
    }
}

// Loads the file, and notes that.
fn load_anew<R: Wait, F: Files>(
    rt: &R,
    alloc: Global,
    book: &Book<Machine>,
    pass: &mut Pass<Machine>,
    job: u64,
    files: &mut F,
    name: &Txt,
    now: u64,
) -> Worked
    requires book { IsPassOf configured book.now pass.old }
    requires run { IsJournal (configured (opening_state book.now)) (seen pass.old) }
    ensures book { IsPassOf configured book.now pass.new }
    ensures kept { (met pass.new ≡ met pass.old) × (parts pass.new ≡ parts pass.old) }
    ensures loads { spec.LoadsOnce (configured (opening_state book.now)) (seen pass.old) (mine pass.old)
        (seen pass.new) (mine pass.new) job
        (record { loads = F.loads files.old name.now; counts = F.counts files.old; sizes = F.sizes files.old })
        (record { loads = F.loads files.new name.now; counts = F.counts files.new; sizes = F.sizes files.new })
        now result }
{
    match NewPlan::load(alloc, files, name) {
        Ok(load) => note(rt, book, pass, job, load, now),
        Err(Memory) => Worked::Refused(Refusal::Memory),
    }
}

// Notes a load.
fn note<R: Wait>(
    rt: &R,
    book: &Book<Machine>,
    pass: &mut Pass<Machine>,
    job: u64,
    load: NewPlan,
    now: u64,
) -> Worked
    requires book { IsPassOf configured book.now pass.old }
    requires load { IsLoad load }
    ensures book { IsPassOf configured book.now pass.new }
    ensures kept { (met pass.new ≡ met pass.old) × (parts pass.new ≡ parts pass.old) }
    ensures enters { spec.Enters (configured (opening_state book.now)) (seen pass.old) (mine pass.old)
        (seen pass.new) (mine pass.new) job load.note now result }
{
    let offer = Offer::Load {
        moment: now,
        job,
        load,
    };
    match book.submit(rt, pass, offer) {
        Ok(receipt) => Worked::Did(receipt.place, receipt.answer.wakes),
        Err(RouteRefusal::Step(refusal)) if is_final(refusal) => Worked::Refused(refusal),
        Err(RouteRefusal::Step(_)) => Worked::Idle { next: None },
        Err(RouteRefusal::Again { .. }) => unreachable!(),
    }
}
