//! A conversation beside others, over a book.

ghost use Rattle.std.specs.Prelude.{◌≡◌};
ghost use Rattle.fs_book.specs.Opened.{NoneNames};
ghost use Rattle.fs_book.specs.Passes.{seen, mine, met, parts, opening_state, IsPassOf};
ghost use Rattle.fs_machine.specs.Turned.{IsJournal, names};
ghost use Rattle.fs_machine.specs.Turned.{configured};
ghost use Rattle.fs_conn.specs.Owning.{OwnsConn};
ghost use Rattle.fs_conn.specs.Talks.{point, Talks};

use crate::closing::give_up;
use crate::end::End;
use crate::round::Round;
use crate::rounds::take_round;
use crate::stop::Stop;
use fs_book::{Book, Pass};
use fs_frame::Blocks;
use fs_machine::Machine;
use fs_ports::{Clock, Link};
use std::alloc::Global;
use std::sync::Wait;

/// Converses on a connection to its end, beside whoever else enters into the book: each block that is read becomes a
/// command, all frames for the connection are written, and at its end it is closed.
///
/// It needs the number of a connection that came by an entry of this pass and has made no entry of its own, as
/// `welcome` gives it. Entries have the moment that the clock tells, in microseconds; the clock naps while a reply is
/// owed, and while nothing can be read. Somebody else has to work what is due.
///
/// Where the journal is full or memory is wanting, that is the end, and the connection stays as it is. After a write
/// that failed it is closed as failed, unless the journal is full; where memory is wanting for that, that is the end.
/// At every other end it is closed with all sent.
pub fn converse<R: Wait, C: Clock, L: Link>(
    rt: &R,
    alloc: Global,
    book: &Book<Machine>,
    pass: &mut Pass<Machine>,
    conn: u32,
    link: &mut L,
    clock: &C,
) -> End
    requires book { IsPassOf configured book.now pass.old }
    requires owns { OwnsConn (configured (opening_state book.now)) conn (seen pass.old) (mine pass.old) }
    requires run { IsJournal (configured (opening_state book.now)) (seen pass.old) }
    requires fresh { NoneNames names conn (seen pass.old) }
    ensures book { IsPassOf configured book.now pass.new }
    ensures owns { OwnsConn (configured (opening_state book.now)) conn (seen pass.new) (mine pass.new) }
    ensures kept { (met pass.new ≡ met pass.old) × (parts pass.new ≡ parts pass.old) }
    ensures talks { Talks (C.tells clock.now) (configured (opening_state book.now)) conn
        (point (seen pass.old) (mine pass.old) (L.input link.old) (L.output link.old))
        (point (seen pass.new) (mine pass.new) (L.input link.new) (L.output link.new)) result }
{
    let Ok(mut blocks) = Blocks::new(alloc) else {
        return End::Memory;
    };
    'rounds: for _ in rt.forever() {
        match take_round(rt, book, pass, alloc, conn, clock, &mut blocks, link) {
            Ok(Round::GoOn) => {}
            Ok(Round::Done(end)) => return end,
            Err(Stop::Over(end)) => return end,
            Err(Stop::OutOfMemory) => return End::Memory,
            Err(Stop::WriteFault) => return give_up(rt, book, pass, conn, clock),
        }
    }
    unreachable!()
}
