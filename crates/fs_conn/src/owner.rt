//! What the owner of a connection enters in a book, and what it asks.

ghost use Rattle.std.specs.Prelude.{◌≡◌, Some, IfOk, IfErr};
ghost use Rattle.fs_book.specs.Opened.{Quiet};
ghost use Rattle.fs_book.specs.Passes.{seen, mine, met, parts, opening_state, IsPassOf, KeepsLists};
ghost use Rattle.fs_machine.specs.Concerns.{actor_of};
ghost use Rattle.fs_machine.specs.Laws.{state_after};
ghost use Rattle.fs_machine.specs.Turned.{IsJournal, names};
ghost use Rattle.fs_machine.specs.Turned.{configured};
ghost use Rattle.fs_machine.specs.Standing.{standing_of, standing_by};
ghost use Rattle.fs_conn.specs.Owning.{OwnsConn, Entered, Refused};

use crate::standing::StandingOf;
use fs_book::{Book, Pass};
use fs_machine::{Act, Answer, Entry, Machine, Offer, Refusal, RouteRefusal, Standing};
use fs_ports::Clock;
use std::sync::Wait;

/// Enters an act of the connection, at the clock's moment, and wakes whoever has something to do since.
pub(crate) fn enter<R: Wait, C: Clock>(
    rt: &R,
    book: &Book<Machine>,
    pass: &mut Pass<Machine>,
    conn: u32,
    clock: &C,
    act: Act,
) -> Result<Answer, Refusal>
    requires book { IsPassOf configured book.now pass.old }
    requires owns { OwnsConn (configured (opening_state book.now)) conn (seen pass.old) (mine pass.old) }
    requires names { actor_of act ≡ Some conn }
    ensures book { IsPassOf configured book.now pass.new }
    ensures owns { OwnsConn (configured (opening_state book.now)) conn (seen pass.new) (mine pass.new) }
    ensures kept { (met pass.new ≡ met pass.old) × (parts pass.new ≡ parts pass.old) }
    ensures ok { IfOk result (λ answer. Entered (C.tells clock.now) (configured (opening_state book.now)) conn
        (seen pass.old) (mine pass.old) (seen pass.new) (mine pass.new) act answer.reply) }
    ensures stands { IfOk result (λ answer. answer.standing
        ≡ standing_by act (state_after (configured (opening_state book.now)) (seen pass.new))) }
    ensures err { IfErr result (Refused (configured (opening_state book.now)) conn
        (seen pass.old) (mine pass.old) (seen pass.new) (mine pass.new) act) }
{
    let moment = clock.now();
    match book.submit(rt, pass, Offer::Entry(Entry { moment, act })) {
        Ok(receipt) => {
            clock.wake(&receipt.answer.wakes);
            Ok(receipt.answer)
        }
        Err(RouteRefusal::Step(refusal)) => Err(refusal),
        Err(RouteRefusal::Again { .. }) => unreachable!(),
    }
}

/// Looks how the connection stands.
pub(crate) fn look<R: Wait>(
    rt: &R,
    book: &Book<Machine>,
    pass: &mut Pass<Machine>,
    conn: u32,
) -> Standing
    requires book { IsPassOf configured book.now pass.old }
    requires owns { OwnsConn (configured (opening_state book.now)) conn (seen pass.old) (mine pass.old) }
    ensures book { IsPassOf configured book.now pass.new }
    ensures owns { OwnsConn (configured (opening_state book.now)) conn (seen pass.new) (mine pass.new) }
    ensures kept { KeepsLists pass.old pass.new }
    ensures quiet { Quiet names conn (seen pass.old) (seen pass.new) }
    ensures run { IsJournal (configured (opening_state book.now)) (seen pass.new) }
    ensures stands { result ≡ standing_of conn (state_after (configured (opening_state book.now)) (seen pass.new)) }
{
    book.look(rt, pass, &StandingOf { conn })
}
