//! The frames of a connection are taken and written, beside others who enter.

ghost use Rattle.std.specs.Prelude.{◌≡◌, List, ℕ, Some};
ghost use Rattle.fs_book.specs.Passes.{seen, mine, met, parts, opening_state, IsPassOf};
ghost use Rattle.fs_machine.specs.Concerns.{actor_of};
ghost use Rattle.fs_machine.specs.Laws.{state_after};
ghost use Rattle.fs_machine.specs.Turned.{configured};
ghost use Rattle.fs_conn.specs.Owning.{OwnsConn};
ghost use Rattle.fs_conn.specs.Talks.{Point, point, Holds, Tries, Takes, GoesOn, replied, StandsBy, StandsSo};

use crate::end::End;
use crate::owner::enter;
use crate::stop::Stop;
use fs_book::{Book, Pass};
use fs_machine::{Act, Answer, Machine, Refusal, Reply, Standing};
use fs_ports::{Clock, Link, Sent, send_all};
use fs_text::Txt;
use std::sync::Wait;

/// Tries an act of the connection. None where it is refused and the conversation goes on.
pub(crate) fn attempt<R: Wait, C: Clock>(
    rt: &R,
    book: &Book<Machine>,
    pass: &mut Pass<Machine>,
    conn: u32,
    clock: &C,
    act: Act,
) -> Result<Option<Answer>, Stop>
    requires book { IsPassOf configured book.now pass.old }
    requires owns { OwnsConn (configured (opening_state book.now)) conn (seen pass.old) (mine pass.old) }
    requires names { actor_of act ≡ Some conn }
    ensures book { IsPassOf configured book.now pass.new }
    ensures owns { OwnsConn (configured (opening_state book.now)) conn (seen pass.new) (mine pass.new) }
    ensures kept { (met pass.new ≡ met pass.old) × (parts pass.new ≡ parts pass.old) }
    ensures tries { Tries (C.tells clock.now) (configured (opening_state book.now)) conn
        (seen pass.old) (mine pass.old) (seen pass.new) (mine pass.new) act (replied result) }
    ensures stands { StandsBy act (state_after (configured (opening_state book.now)) (seen pass.new)) result }
{
    match enter(rt, book, pass, conn, clock, act) {
        Ok(answer) => Ok(Some(answer)),
        Err(Refusal::JournalFull { cost, limit }) => {
            Err(Stop::Over(End::JournalFull { cost, limit }))
        }
        Err(Refusal::Memory) => Err(Stop::OutOfMemory),
        Err(_) => Ok(None),
    }
}

// A frame that was taken, and how its connection stands since.
#[derive(Drop)]
struct Taken {
    frame: Txt,
    standing: Standing,
}

// Takes the next frame, if one waits.
fn take<R: Wait, C: Clock>(
    rt: &R,
    book: &Book<Machine>,
    pass: &mut Pass<Machine>,
    conn: u32,
    clock: &C,
) -> Result<Option<Taken>, Stop>
    requires book { IsPassOf configured book.now pass.old }
    requires owns { OwnsConn (configured (opening_state book.now)) conn (seen pass.old) (mine pass.old) }
    ensures book { IsPassOf configured book.now pass.new }
    ensures owns { OwnsConn (configured (opening_state book.now)) conn (seen pass.new) (mine pass.new) }
    ensures kept { (met pass.new ≡ met pass.old) × (parts pass.new ≡ parts pass.old) }
    ensures takes { Takes (C.tells clock.now) (configured (opening_state book.now)) conn
        (seen pass.old) (mine pass.old) (seen pass.new) (mine pass.new) result }
{
    match attempt(rt, book, pass, conn, clock, Act::Take { conn }) {
        Ok(Some(answer)) => {
            let Answer {
                reply,
                standing,
                wakes: _wakes,
            } = answer;
            let Reply::Frame(frame) = reply else {
                unreachable!()
            };
            let Some(standing) = standing else {
                unreachable!()
            };
            Ok(Some(Taken { frame, standing }))
        }
        Ok(None) => Ok(None),
        Err(stop) => Err(stop),
    }
}

/// Takes and writes the next frame, if one waits, and says how the connection stands since.
pub(crate) fn hand_next<R: Wait, C: Clock, L: Link>(
    rt: &R,
    book: &Book<Machine>,
    pass: &mut Pass<Machine>,
    conn: u32,
    clock: &C,
    link: &mut L,
) -> Result<Option<Standing>, Stop>
    requires book { IsPassOf configured book.now pass.old }
    requires owns { OwnsConn (configured (opening_state book.now)) conn (seen pass.old) (mine pass.old) }
    ensures book { IsPassOf configured book.now pass.new }
    ensures owns { OwnsConn (configured (opening_state book.now)) conn (seen pass.new) (mine pass.new) }
    ensures kept { (met pass.new ≡ met pass.old) × (parts pass.new ≡ parts pass.old) }
    ensures input { L.input link.new ≡ L.input link.old }
    ensures drains { (from : Point) (rest : List ℕ)
        → Holds (C.tells clock.now) (configured (opening_state book.now)) conn from
        (point (seen pass.old) (mine pass.old) (L.input link.old) (L.output link.old)) rest
        → GoesOn (C.tells clock.now) (configured (opening_state book.now)) conn from
        (point (seen pass.new) (mine pass.new) (L.input link.new) (L.output link.new)) rest result }
    ensures stands { StandsSo conn (state_after (configured (opening_state book.now)) (seen pass.new)) result }
{
    match take(rt, book, pass, conn, clock) {
        Ok(Some(taken)) => match send_all(link, taken.frame.as_bytes()) {
            Sent::All => Ok(Some(taken.standing)),
            Sent::Failed => Err(Stop::WriteFault),
        },
        Ok(None) => Ok(None),
        Err(stop) => Err(stop),
    }
}

/// Takes and writes all frames that wait.
pub(crate) fn drain<R: Wait, C: Clock, L: Link>(
    rt: &R,
    book: &Book<Machine>,
    pass: &mut Pass<Machine>,
    conn: u32,
    clock: &C,
    link: &mut L,
) -> Result<(), Stop>
    requires book { IsPassOf configured book.now pass.old }
    requires owns { OwnsConn (configured (opening_state book.now)) conn (seen pass.old) (mine pass.old) }
    ensures book { IsPassOf configured book.now pass.new }
    ensures owns { OwnsConn (configured (opening_state book.now)) conn (seen pass.new) (mine pass.new) }
    ensures kept { (met pass.new ≡ met pass.old) × (parts pass.new ≡ parts pass.old) }
    ensures input { L.input link.new ≡ L.input link.old }
    ensures drains { (from : Point) (rest : List ℕ)
        → Holds (C.tells clock.now) (configured (opening_state book.now)) conn from
        (point (seen pass.old) (mine pass.old) (L.input link.old) (L.output link.old)) rest
        → GoesOn (C.tells clock.now) (configured (opening_state book.now)) conn from
        (point (seen pass.new) (mine pass.new) (L.input link.new) (L.output link.new)) rest result }
{
    'frames: for _ in rt.forever() {
        match hand_next(rt, book, pass, conn, clock, link) {
            Ok(Some(_)) => {}
            Ok(None) => return Ok(()),
            Err(stop) => return Err(stop),
        }
    }
    unreachable!()
}
