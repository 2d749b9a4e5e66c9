//! Links are taken in at the door.

ghost use Rattle.std.specs.Prelude.{◌≡◌, false, [], ◌∷◌, None};
ghost use Rattle.std.specs.Prelude.{length};
ghost use Rattle.fs_ports.specs.Ports.{IsNewLink};
ghost use Rattle.fs_book.specs.Passes.{seen, mine, met, parts, opening_state, IsPassOf};
ghost use Rattle.fs_machine.specs.Turned.{configured};
ghost use Rattle.fs_top.specs.Lanes.{Keeps, Enters};
ghost use Rattle.fs_top.specs.Doors.{Rose, Halts};

use crate::came::Came;
use crate::ending::is_ending;
use crate::muster::Muster;
use crate::rest::rest;
use fs_book::{Book, Pass};
use fs_machine::{Act, Entry, Machine, Offer};
use fs_ports::{Accept, Clock, Door, Link, Wakes};
use std::sync::Wait;

/// Once all whom the muster has have begun, takes links in until the switch has come to its end or its journal is full,
/// and answers true. Where the door fails, it halts the switch. Where somebody does not begin, nothing is done.
pub(crate) fn accept_beside<R: Wait, D: Door, C: Clock>(
    rt: &R,
    book: &Book<Machine>,
    came: &Came<D::Link>,
    clock: &C,
    muster: &Muster,
    door: &mut D,
    pass: &mut Pass<Machine>,
) -> bool
    requires book { IsPassOf configured book.now pass.old }
    requires keeps { Keeps D.Link.input D.Link.output (Enters (C.tells clock.now) ⊥ None)
        (configured (opening_state book.now)) (seen pass.old) (mine pass.old ∷ met pass.old) [] }
    ensures book { IsPassOf configured book.now pass.new }
    ensures parts { parts pass.new ≡ parts pass.old }
    ensures keeps { Keeps D.Link.input D.Link.output
        (Enters (C.tells clock.now) (Rose (D.door_faults door.old) (D.door_faults door.new)) None)
        (configured (opening_state book.now)) (seen pass.new) (mine pass.new ∷ met pass.new) [] }
    ensures nothing { result ≡ false → (pass.new ≡ pass.old) × (door.new ≡ door.old) }
{
    if !muster.begin_last(rt) {
        return false;
    }
    accept_all(rt, book, came, clock, door, pass);
    true
}

// Takes links in until the switch has come to its end or its journal is full.
fn accept_all<R: Wait, D: Door, C: Clock>(
    rt: &R,
    book: &Book<Machine>,
    came: &Came<D::Link>,
    clock: &C,
    door: &mut D,
    pass: &mut Pass<Machine>,
)
    requires book { IsPassOf configured book.now pass.old }
    requires keeps { Keeps D.Link.input D.Link.output (Enters (C.tells clock.now) ⊥ None)
        (configured (opening_state book.now)) (seen pass.old) (mine pass.old ∷ met pass.old) [] }
    ensures book { IsPassOf configured book.now pass.new }
    ensures parts { parts pass.new ≡ parts pass.old }
    ensures keeps { Keeps D.Link.input D.Link.output
        (Enters (C.tells clock.now) (Rose (D.door_faults door.old) (D.door_faults door.new)) None)
        (configured (opening_state book.now)) (seen pass.new) (mine pass.new ∷ met pass.new) [] }
{
    'links: for _ in rt.forever() {
        if is_ending(rt, book, pass) {
            return;
        }
        match door.accept() {
            Accept::Came(link) => hand(rt, came, clock, link),
            Accept::NotYet => clock.nap(),
            Accept::Failed => halt(rt, book, pass, clock),
        }
    }
}

// Puts a link behind the others that came, for a lane that is free. Where there is no memory, it is dropped.
fn hand<R: Wait, L: Link, C: Clock>(rt: &R, came: &Came<L>, clock: &C, link: L)
    requires { IsNewLink (L.input link) (L.output link) }
{
    if came.push(rt, link).is_ok() {
        clock.wake(&Wakes::whoever_is_free());
    }
}

// Halts the switch, or rests where that is refused.
fn halt<R: Wait, C: Clock>(rt: &R, book: &Book<Machine>, pass: &mut Pass<Machine>, clock: &C)
    requires book { IsPassOf configured book.now pass.old }
    ensures book { IsPassOf configured book.now pass.new }
    ensures kept { (met pass.new ≡ met pass.old) × (parts pass.new ≡ parts pass.old) }
    ensures halts { Halts (C.tells clock.now) (configured (opening_state book.now)) (seen pass.old) (mine pass.old)
        (seen pass.new) (mine pass.new) }
{
    let moment = clock.now();
    let act = Act::Halt;
    match book.submit(rt, pass, Offer::Entry(Entry { moment, act })) {
        Ok(receipt) => clock.wake(&receipt.answer.wakes),
        Err(_) => rest(clock),
    }
}
