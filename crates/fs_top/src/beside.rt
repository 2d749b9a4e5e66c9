//! All threads of a server.

ghost use Rattle.std.specs.Prelude.{◌≡◌, ℕ, false, [], ◌∷◌, length, None};
ghost use Rattle.std.specs.List.{All};
ghost use Rattle.fs_book.specs.Passes.{seen, mine, met, parts, opening_state, IsPassOf};
ghost use Rattle.fs_machine.specs.Turned.{configured};
ghost use Rattle.fs_top.specs.Doors.{Rose};
ghost use Rattle.fs_session.specs.Loading.{Store};
ghost use Rattle.fs_top.specs.Lanes.{Keeps, Enters};
ghost use Rattle.fs_top.specs.Reloading.{store, HasNoted};
ghost use Rattle.fs_top.specs.Standing.{DeskStands, Stands, ArePlaced, HaveFailed};

use crate::accepting::accept_beside;
use crate::came::Came;
use crate::desk::{Desk, work_beside};
use crate::lanes::{Lane, run_lanes};
use crate::muster::Muster;
use fs_book::{Book, Pass};
use fs_machine::Machine;
use fs_ports::{Clock, Dialer, Door, Files, Gates};
use fs_text::Txt;
use std::sync::Wait;
use std::thread::{Threads, join_mut};

// How often all threads are tried to be made.
const ROUNDS: usize = 3;

/// Runs all lanes, works the desk and takes links in beside them, until all have come to their end, and answers true.
/// Where not all threads can be made nothing is done, and after so many rounds the answer is false.
pub(crate) fn run_beside<
    R: Threads + Wait + Sync,
    F: Files + Send,
    D: Door + Send,
    O: Dialer<Link = D::Link>,
    C: Clock,
    G: Gates<Gate: Send>,
>(
    rt: &R,
    book: &Book<Machine>,
    came: &Came<D::Link>,
    clock: &C,
    gates: &G,
    files: &mut F,
    name: &Txt,
    door: &mut D,
    pass: &mut Pass<Machine>,
    desk: &mut Desk,
    lanes: &mut [Lane<D::Link, O>],
) -> bool
    requires book { IsPassOf configured book.now pass.old }
    requires keeps { Keeps D.Link.input D.Link.output (Enters (C.tells clock.now) ⊥ None)
        (configured (opening_state book.now)) (seen pass.old) (mine pass.old ∷ met pass.old) [] }
    requires desk { DeskStands D.Link.input D.Link.output (C.tells clock.now) book.now desk.old }
    requires lanes { All (Stands D.Link.input D.Link.output (C.tells clock.now) book.now) lanes.old }
    ensures book { IsPassOf configured book.now pass.new }
    ensures parts { parts pass.new ≡ parts pass.old }
    ensures keeps { Keeps D.Link.input D.Link.output
        (Enters (C.tells clock.now) (Rose (D.door_faults door.old) (D.door_faults door.new)) None)
        (configured (opening_state book.now)) (seen pass.new) (mine pass.new ∷ met pass.new) [] }
    ensures desk { DeskStands D.Link.input D.Link.output (C.tells clock.now) book.now desk.new }
    ensures loads { (first : Store)
        → HasNoted first (store (F.loads files.old name.now) (F.counts files.old) (F.sizes files.old)) desk.old
        → HasNoted first (store (F.loads files.new name.now) (F.counts files.new) (F.sizes files.new)) desk.new }
    ensures count { length lanes.new ≡ length lanes.old }
    ensures lanes { All (Stands D.Link.input D.Link.output (C.tells clock.now) book.now) lanes.new }
    ensures placed { (slots : ℕ) → ArePlaced slots lanes.old → ArePlaced slots lanes.new }
    ensures failed { (from : ℕ) → HaveFailed O.dial_faults from lanes.old → HaveFailed O.dial_faults from lanes.new }
{
    'rounds: for _ in 0..ROUNDS {
        // The lanes, the desk and the one at the door.
        let muster = Muster::of(lanes.len().saturating_add(2));
        if run_round(
            rt, book, came, clock, gates, &muster, files, name, door, pass, desk, lanes,
        ) {
            return true;
        }
    }
    false
}

// Tries to make all threads. Answers whether all have begun, and then all have come to their end.
fn run_round<
    R: Threads + Wait + Sync,
    F: Files + Send,
    D: Door + Send,
    O: Dialer<Link = D::Link>,
    C: Clock,
    G: Gates<Gate: Send>,
>(
    rt: &R,
    book: &Book<Machine>,
    came: &Came<D::Link>,
    clock: &C,
    gates: &G,
    muster: &Muster,
    files: &mut F,
    name: &Txt,
    door: &mut D,
    pass: &mut Pass<Machine>,
    desk: &mut Desk,
    lanes: &mut [Lane<D::Link, O>],
) -> bool
    requires book { IsPassOf configured book.now pass.old }
    requires keeps { Keeps D.Link.input D.Link.output (Enters (C.tells clock.now) ⊥ None)
        (configured (opening_state book.now)) (seen pass.old) (mine pass.old ∷ met pass.old) [] }
    requires desk { DeskStands D.Link.input D.Link.output (C.tells clock.now) book.now desk.old }
    requires lanes { All (Stands D.Link.input D.Link.output (C.tells clock.now) book.now) lanes.old }
    ensures book { IsPassOf configured book.now pass.new }
    ensures parts { parts pass.new ≡ parts pass.old }
    ensures keeps { Keeps D.Link.input D.Link.output
        (Enters (C.tells clock.now) (Rose (D.door_faults door.old) (D.door_faults door.new)) None)
        (configured (opening_state book.now)) (seen pass.new) (mine pass.new ∷ met pass.new) [] }
    ensures desk { DeskStands D.Link.input D.Link.output (C.tells clock.now) book.now desk.new }
    ensures loads { (first : Store)
        → HasNoted first (store (F.loads files.old name.now) (F.counts files.old) (F.sizes files.old)) desk.old
        → HasNoted first (store (F.loads files.new name.now) (F.counts files.new) (F.sizes files.new)) desk.new }
    ensures count { length lanes.new ≡ length lanes.old }
    ensures lanes { All (Stands D.Link.input D.Link.output (C.tells clock.now) book.now) lanes.new }
    ensures placed { (slots : ℕ) → ArePlaced slots lanes.old → ArePlaced slots lanes.new }
    ensures failed { (from : ℕ) → HaveFailed O.dial_faults from lanes.old → HaveFailed O.dial_faults from lanes.new }
    ensures nothing { result ≡ false → (pass.new ≡ pass.old) × (door.new ≡ door.old) }
{
    let ((), began) = join_mut(
        rt,
        &mut || -> ()
            requires { All (Stands D.Link.input D.Link.output (C.tells clock.now) book.now) lanes.now }
            ensures { All (Stands D.Link.input D.Link.output (C.tells clock.entry.now) book.entry.now) lanes.exit.now
                × (length lanes.exit.now ≡ length lanes.entry.now)
                × ((slots : ℕ) → ArePlaced slots lanes.entry.now → ArePlaced slots lanes.exit.now)
                × ((from : ℕ) → HaveFailed O.dial_faults from lanes.entry.now
                → HaveFailed O.dial_faults from lanes.exit.now) }
        { run_lanes(rt, book, clock, gates, muster, lanes) },
        &mut || -> bool
            requires { DeskStands D.Link.input D.Link.output (C.tells clock.now) book.now desk.now
                × IsPassOf configured book.now pass.now
                × Keeps D.Link.input D.Link.output (Enters (C.tells clock.now) ⊥ None)
                (configured (opening_state book.now)) (seen pass.now) (mine pass.now ∷ met pass.now) [] }
            ensures { DeskStands D.Link.input D.Link.output (C.tells clock.entry.now) book.entry.now desk.exit.now
                × IsPassOf configured book.entry.now pass.exit.now
                × (parts pass.exit.now ≡ parts pass.entry.now)
                × Keeps D.Link.input D.Link.output
                (Enters (C.tells clock.entry.now) (Rose (D.door_faults door.entry.now) (D.door_faults door.exit.now))
                None)
                (configured (opening_state book.entry.now)) (seen pass.exit.now)
                (mine pass.exit.now ∷ met pass.exit.now) []
                × (result ≡ false → (pass.exit.now ≡ pass.entry.now) × (door.exit.now ≡ door.entry.now))
                × ((first : Store)
                → HasNoted first (store (F.loads files.entry.now name.entry.now) (F.counts files.entry.now)
                (F.sizes files.entry.now)) desk.entry.now
                → HasNoted first (store (F.loads files.exit.now name.entry.now) (F.counts files.exit.now)
                (F.sizes files.exit.now)) desk.exit.now) }
        { attend(rt, book, came, clock, muster, files, name, door, pass, desk) },
    );
    began
}

// Works the desk, and takes links in beside it. Answers whether all have begun.
fn attend<R: Threads + Wait + Sync, F: Files + Send, D: Door + Send, C: Clock>(
    rt: &R,
    book: &Book<Machine>,
    came: &Came<D::Link>,
    clock: &C,
    muster: &Muster,
    files: &mut F,
    name: &Txt,
    door: &mut D,
    pass: &mut Pass<Machine>,
    desk: &mut Desk,
) -> bool
    requires desk { DeskStands D.Link.input D.Link.output (C.tells clock.now) book.now desk.old }
    requires book { IsPassOf configured book.now pass.old }
    requires keeps { Keeps D.Link.input D.Link.output (Enters (C.tells clock.now) ⊥ None)
        (configured (opening_state book.now)) (seen pass.old) (mine pass.old ∷ met pass.old) [] }
    ensures desk { DeskStands D.Link.input D.Link.output (C.tells clock.now) book.now desk.new }
    ensures loads { (first : Store)
        → HasNoted first (store (F.loads files.old name.now) (F.counts files.old) (F.sizes files.old)) desk.old
        → HasNoted first (store (F.loads files.new name.now) (F.counts files.new) (F.sizes files.new)) desk.new }
    ensures book { IsPassOf configured book.now pass.new }
    ensures parts { parts pass.new ≡ parts pass.old }
    ensures keeps { Keeps D.Link.input D.Link.output
        (Enters (C.tells clock.now) (Rose (D.door_faults door.old) (D.door_faults door.new)) None)
        (configured (opening_state book.now)) (seen pass.new) (mine pass.new ∷ met pass.new) [] }
    ensures nothing { result ≡ false → (pass.new ≡ pass.old) × (door.new ≡ door.old) }
{
    let ((), began) = join_mut(
        rt,
        &mut || -> ()
            requires { DeskStands D.Link.input D.Link.output (C.tells clock.now) book.now desk.now }
            ensures { DeskStands D.Link.input D.Link.output (C.tells clock.entry.now) book.entry.now desk.exit.now
                × ((first : Store)
                → HasNoted first (store (F.loads files.entry.now name.entry.now) (F.counts files.entry.now)
                (F.sizes files.entry.now)) desk.entry.now
                → HasNoted first (store (F.loads files.exit.now name.entry.now) (F.counts files.exit.now)
                (F.sizes files.exit.now)) desk.exit.now) }
        { work_beside::<R, F, D::Link, C>(rt, book, clock, muster, files, name, desk) },
        &mut || -> bool
            requires { IsPassOf configured book.now pass.now
                × Keeps D.Link.input D.Link.output (Enters (C.tells clock.now) ⊥ None)
                (configured (opening_state book.now)) (seen pass.now) (mine pass.now ∷ met pass.now) [] }
            ensures { IsPassOf configured book.entry.now pass.exit.now
                × (parts pass.exit.now ≡ parts pass.entry.now)
                × Keeps D.Link.input D.Link.output
                (Enters (C.tells clock.entry.now) (Rose (D.door_faults door.entry.now) (D.door_faults door.exit.now))
                None)
                (configured (opening_state book.entry.now)) (seen pass.exit.now)
                (mine pass.exit.now ∷ met pass.exit.now) []
                × (result ≡ false → (pass.exit.now ≡ pass.entry.now) × (door.exit.now ≡ door.entry.now)) }
        { accept_beside(rt, book, came, clock, muster, door, pass) },
    );
    began
}
