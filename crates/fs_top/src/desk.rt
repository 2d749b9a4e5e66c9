//! The desk works the jobs, and notes the loads for which some of them wait.

ghost use Rattle.std.specs.Prelude.{◌≡◌, ◌∷◌};
ghost use Rattle.fs_book.specs.Passes.{seen, mine, met};
ghost use Rattle.fs_session.specs.Loading.{Store};
ghost use Rattle.fs_top.specs.Standing.{DeskStands};
ghost use Rattle.fs_top.specs.Reloading.{store, noted_at, HasNoted};

use crate::conns::Conn;
use crate::muster::Muster;
use crate::rest::rest;
use crate::turning::{Pause, run_turns};
use fs_book::{Book, Pass};
use fs_machine::{Machine, Refusal};
use fs_ports::{Clock, Files, Link, NoGates, Sleeper};
use fs_session::{Actor, Worked, load_once};
use fs_text::Txt;
use std::alloc::Global;
use std::sync::Wait;

/// Whoever works the jobs: a pass of its own. It serves no connection.
#[derive(Drop)]
pub(crate) struct Desk {
    pub(crate) alloc: Global,
    pub(crate) pass: Pass<Machine>,
}

/// Once all whom the muster has have begun, works the jobs, with a clock of its own, until the switch has come to its
/// end or its journal is full. Where a job waits for a load, the file of this name is loaded. Where somebody does not
/// begin, nothing is done.
pub(crate) fn work_beside<R: Wait, F: Files, L: Link, C: Clock>(
    rt: &R,
    book: &Book<Machine>,
    clock: &C,
    muster: &Muster,
    files: &mut F,
    name: &Txt,
    desk: &mut Desk,
)
    requires { DeskStands L.input L.output (C.tells clock.now) book.now desk.old }
    ensures stands { DeskStands L.input L.output (C.tells clock.now) book.now desk.new }
    ensures loads { (first : Store)
        → HasNoted first (store (F.loads files.old name.now) (F.counts files.old) (F.sizes files.old)) desk.old
        → HasNoted first (store (F.loads files.new name.now) (F.counts files.new) (F.sizes files.new)) desk.new }
{
    if !muster.begin(rt) {
        return;
    }
    let clock = clock.of_sleeper(Sleeper::Jobs);
    work_jobs::<R, F, L, C>(rt, book, &clock, files, name, desk);
}

// Does so with this clock.
fn work_jobs<R: Wait, F: Files, L: Link, C: Clock>(
    rt: &R,
    book: &Book<Machine>,
    clock: &C,
    files: &mut F,
    name: &Txt,
    desk: &mut Desk,
)
    requires stands { DeskStands L.input L.output (C.tells clock.now) book.now desk.old }
    ensures stands { DeskStands L.input L.output (C.tells clock.now) book.now desk.new }
    ensures loads { (first : Store)
        → HasNoted first (store (F.loads files.old name.now) (F.counts files.old) (F.sizes files.old)) desk.old
        → HasNoted first (store (F.loads files.new name.now) (F.counts files.new) (F.sizes files.new)) desk.new }
{
    'loads: for _ in rt.forever() {
        match turn_jobs::<R, L, C>(rt, book, clock, desk) {
            Pause::Load(job) => load::<R, F, L, C>(rt, book, clock, files, name, job, desk),
            // Nobody is to be dialed for a job.
            Pause::Talk(_) | Pause::Over => return,
        }
    }
}

// Works the jobs, until one waits for a load, or there is nothing more to do.
fn turn_jobs<R: Wait, L: Link, C: Clock>(
    rt: &R,
    book: &Book<Machine>,
    clock: &C,
    desk: &mut Desk,
) -> Pause
    requires { DeskStands L.input L.output (C.tells clock.now) book.now desk.old }
    ensures stands { DeskStands L.input L.output (C.tells clock.now) book.now desk.new }
    ensures met { met desk.new.pass ≡ met desk.old.pass }
    ensures noted { noted_at (seen desk.new.pass) (mine desk.new.pass)
        ≡ noted_at (seen desk.old.pass) (mine desk.old.pass) }
{
    let nobody: Vec<Conn<L>> = Vec::new(desk.alloc);
    let pass = &mut desk.pass;
    run_turns(
        rt,
        desk.alloc,
        book,
        pass,
        Actor::Jobs,
        clock,
        &NoGates,
        &nobody,
    )
}

// Loads the file for a job, and notes that. Where there is no memory or no room for it, it is tried again soon.
fn load<R: Wait, F: Files, L: Link, C: Clock>(
    rt: &R,
    book: &Book<Machine>,
    clock: &C,
    files: &mut F,
    name: &Txt,
    job: u64,
    desk: &mut Desk,
)
    requires stands { DeskStands L.input L.output (C.tells clock.now) book.now desk.old }
    ensures stands { DeskStands L.input L.output (C.tells clock.now) book.now desk.new }
    ensures loads { (first : Store)
        → HasNoted first (store (F.loads files.old name.now) (F.counts files.old) (F.sizes files.old)) desk.old
        → HasNoted first (store (F.loads files.new name.now) (F.counts files.new) (F.sizes files.new)) desk.new }
{
    let now = clock.now();
    let worked = load_once(rt, desk.alloc, book, &mut desk.pass, job, files, name, now);
    go_on(clock, worked);
}

// Wakes whoever has something to do behind a load. Who was refused still has it to do, and so rests alone.
fn go_on<C: Clock>(clock: &C, worked: Worked) {
    match worked {
        Worked::Did(_, wakes) => clock.wake(&wakes),
        Worked::Refused(_) => rest(clock),
        _ => {}
    }
}
