//! A connection is closed, beside others who enter.

ghost use Rattle.std.specs.Prelude.{◌≡◌, List, ℕ};
ghost use Rattle.fs_ports.specs.Ports.{Input, Output};
ghost use Rattle.fs_book.specs.Passes.{seen, mine, met, parts, opening_state, IsPassOf};
ghost use Rattle.fs_conn.specs.declared.stop.Stop.TheVariants.{WriteFault as by_write};
ghost use Rattle.fs_machine.specs.Turned.{configured};
ghost use Rattle.fs_conn.specs.Owning.{OwnsConn};
ghost use Rattle.fs_conn.specs.Talks.{Point, point, Holds, HasStopped, GivesUp, Closes, Departs, Hangs, end_unclosed};

use crate::end::End;
use crate::handing::{attempt, drain};
use crate::owner::{enter, look};
use crate::stop::Stop;
use fs_book::{Book, Pass};
use fs_machine::{Act, Closing, Machine, Refusal};
use fs_ports::{Clock, Link};
use std::sync::Wait;

/// Writes what waits and what is still owed, and closes the connection once all is sent.
pub(crate) fn wait_out<R: Wait, C: Clock, L: Link>(
    rt: &R,
    book: &Book<Machine>,
    pass: &mut Pass<Machine>,
    conn: u32,
    clock: &C,
    link: &mut L,
    end: End,
) -> Result<End, Stop>
    requires book { IsPassOf configured book.now pass.old }
    requires owns { OwnsConn (configured (opening_state book.now)) conn (seen pass.old) (mine pass.old) }
    ensures book { IsPassOf configured book.now pass.new }
    ensures owns { OwnsConn (configured (opening_state book.now)) conn (seen pass.new) (mine pass.new) }
    ensures kept { (met pass.new ≡ met pass.old) × (parts pass.new ≡ parts pass.old) }
    ensures input { L.input link.new ≡ L.input link.old }
    ensures closes { (from : Point) (rest : List ℕ)
        → Holds (C.tells clock.now) (configured (opening_state book.now)) conn from
        (point (seen pass.old) (mine pass.old) (L.input link.old) (L.output link.old)) rest
        → Closes (C.tells clock.now) (configured (opening_state book.now)) conn end from
        (point (seen pass.new) (mine pass.new) (L.input link.new) (L.output link.new)) rest result }
{
    'waits: for _ in rt.forever() {
        match drain(rt, book, pass, conn, clock, link) {
            Ok(()) => {}
            Err(stop) => return Err(stop),
        }
        let how = Closing::Sent;
        match attempt(rt, book, pass, conn, clock, Act::Close { conn, how }) {
            Ok(Some(_)) => return Ok(end),
            Ok(None) => clock.nap(),
            Err(stop) => return Err(stop),
        }
    }
    unreachable!()
}

/// Waits a connection out that was made to read no further command.
pub(crate) fn depart<R: Wait, C: Clock, L: Link>(
    rt: &R,
    book: &Book<Machine>,
    pass: &mut Pass<Machine>,
    conn: u32,
    clock: &C,
    link: &mut L,
) -> Result<End, Stop>
    requires book { IsPassOf configured book.now pass.old }
    requires owns { OwnsConn (configured (opening_state book.now)) conn (seen pass.old) (mine pass.old) }
    ensures book { IsPassOf configured book.now pass.new }
    ensures owns { OwnsConn (configured (opening_state book.now)) conn (seen pass.new) (mine pass.new) }
    ensures kept { (met pass.new ≡ met pass.old) × (parts pass.new ≡ parts pass.old) }
    ensures input { L.input link.new ≡ L.input link.old }
    ensures departs { (from : Point) (rest : List ℕ)
        → Holds (C.tells clock.now) (configured (opening_state book.now)) conn from
        (point (seen pass.old) (mine pass.old) (L.input link.old) (L.output link.old)) rest
        → Departs (C.tells clock.now) (configured (opening_state book.now)) conn from
        (point (seen pass.new) (mine pass.new) (L.input link.new) (L.output link.new)) rest result }
{
    let standing = look(rt, book, pass, conn);
    let Some(end) = End::by_parting(standing.parting) else {
        return Err(Stop::OutOfMemory);
    };
    wait_out(rt, book, pass, conn, clock, link, end)
}

/// Tells that no further command comes, and waits the connection out.
pub(crate) fn hang_up<R: Wait, C: Clock, L: Link>(
    rt: &R,
    book: &Book<Machine>,
    pass: &mut Pass<Machine>,
    conn: u32,
    clock: &C,
    link: &mut L,
    end: End,
) -> Result<End, Stop>
    requires book { IsPassOf configured book.now pass.old }
    requires owns { OwnsConn (configured (opening_state book.now)) conn (seen pass.old) (mine pass.old) }
    ensures book { IsPassOf configured book.now pass.new }
    ensures owns { OwnsConn (configured (opening_state book.now)) conn (seen pass.new) (mine pass.new) }
    ensures kept { (met pass.new ≡ met pass.old) × (parts pass.new ≡ parts pass.old) }
    ensures input { L.input link.new ≡ L.input link.old }
    ensures hangs { (from : Point) (rest : List ℕ)
        → Holds (C.tells clock.now) (configured (opening_state book.now)) conn from
        (point (seen pass.old) (mine pass.old) (L.input link.old) (L.output link.old)) rest
        → Hangs (C.tells clock.now) (configured (opening_state book.now)) conn end from
        (point (seen pass.new) (mine pass.new) (L.input link.new) (L.output link.new)) rest result }
{
    let how = Closing::EndOfInput;
    match attempt(rt, book, pass, conn, clock, Act::Close { conn, how }) {
        Ok(Some(_)) => return wait_out(rt, book, pass, conn, clock, link, end),
        Ok(None) => return depart(rt, book, pass, conn, clock, link),
        Err(stop) => return Err(stop),
    }
}

/// Closes a connection to which a write failed, and says how its conversation ends: by that, or for want of memory.
pub(crate) fn give_up<R: Wait, C: Clock>(
    rt: &R,
    book: &Book<Machine>,
    pass: &mut Pass<Machine>,
    conn: u32,
    clock: &C,
) -> End
    requires book { IsPassOf configured book.now pass.old }
    requires owns { OwnsConn (configured (opening_state book.now)) conn (seen pass.old) (mine pass.old) }
    ensures book { IsPassOf configured book.now pass.new }
    ensures owns { OwnsConn (configured (opening_state book.now)) conn (seen pass.new) (mine pass.new) }
    ensures kept { (met pass.new ≡ met pass.old) × (parts pass.new ≡ parts pass.old) }
    ensures stops { (from : Point) (in1 : Input) (out1 : Output) (rest : List ℕ)
        → HasStopped (C.tells clock.now) (configured (opening_state book.now)) conn from
        (point (seen pass.old) (mine pass.old) in1 out1) rest by_write
        → GivesUp (C.tells clock.now) (configured (opening_state book.now)) conn from
        (point (seen pass.new) (mine pass.new) in1 out1) rest result }
{
    let how = Closing::Failed;
    match enter(rt, book, pass, conn, clock, Act::Close { conn, how }) {
        Ok(_) => return End::WriteFault,
        Err(refusal) => return unclosed(refusal),
    }
}

// How a conversation ends behind a write that failed, where the closing of its connection was refused for this.
fn unclosed(refusal: Refusal) -> End
    ensures { result ≡ end_unclosed refusal }
{
    match refusal {
        Refusal::Memory => End::Memory,
        _ => End::WriteFault,
    }
}
