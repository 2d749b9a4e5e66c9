//! A lane serves one link after another, and keeps the connections.

ghost use Rattle.std.specs.Prelude.{◌≡◌, ◌<◌, [], ◌∷◌, ◌++◌, None};
ghost use Rattle.std.specs.Vec.{vec_len, vec_capacity};
ghost use Rattle.fs_ports.specs.Ports.{IsNewLink};
ghost use Rattle.fs_book.specs.Passes.{seen, mine, met, parts, opening_state, IsPassOf};
ghost use Rattle.fs_book.specs.Opened.{NoneNames};
ghost use Rattle.fs_machine.specs.Turned.{configured, IsJournal, names};
ghost use Rattle.fs_conn.specs.Owning.{OwnsConn};
ghost use Rattle.fs_conn.specs.Talks.{point, Talks};
ghost use Rattle.fs_top.specs.Lanes.{Keeps, Enters};

use crate::came::Came;
use crate::conns::Conn;
use crate::ending::is_ending;
use crate::rest::rest;
use fs_book::{Book, Pass};
use fs_conn::{End, converse, welcome};
use fs_machine::{Machine, Refusal};
use fs_ports::{Clock, Link, Sleeper};
use std::alloc::Global;
use std::sync::Wait;

// Serves a new link to its end, and keeps its connection. Where it is turned away, it is dropped.
fn serve_one<R: Wait, C: Clock, L: Link>(
    rt: &R,
    alloc: Global,
    book: &Book<Machine>,
    pass: &mut Pass<Machine>,
    clock: &C,
    conns: &mut Vec<Conn<L>>,
    link: L,
) -> Result<(), Refusal>
    requires book { IsPassOf configured book.now pass.old }
    requires new { IsNewLink (L.input link) (L.output link) }
    requires room { vec_len conns.old < vec_capacity conns.old }
    requires keeps { Keeps L.input L.output (Enters (C.tells clock.now) ⊥ None) (configured (opening_state book.now))
        (seen pass.old) (mine pass.old ∷ met pass.old) conns.old.items }
    ensures book { IsPassOf configured book.now pass.new }
    ensures parts { parts pass.new ≡ parts pass.old }
    ensures keeps { Keeps L.input L.output (Enters (C.tells clock.now) ⊥ None) (configured (opening_state book.now))
        (seen pass.new) (mine pass.new ∷ met pass.new) conns.new.items }
{
    let mut link = link;
    let number = welcome(rt, book, pass, clock)?;
    let end = serve_conn(rt, alloc, book, pass, number, &mut link, clock);
    keep(conns, Conn { number, link, end });
    Ok(())
}

/// Converses on a connection that has come to its end, and hangs up its link.
pub(crate) fn serve_conn<R: Wait, C: Clock, L: Link>(
    rt: &R,
    alloc: Global,
    book: &Book<Machine>,
    pass: &mut Pass<Machine>,
    conn: u32,
    link: &mut L,
    clock: &C,
) -> End
    requires book { IsPassOf configured book.now pass.old }
    requires owns { OwnsConn (configured (opening_state book.now)) conn (seen pass.old) (mine pass.old) }
    requires run { IsJournal (configured (opening_state book.now)) (seen pass.old) }
    requires fresh { NoneNames names conn (seen pass.old) }
    ensures book { IsPassOf configured book.now pass.new }
    ensures owns { OwnsConn (configured (opening_state book.now)) conn (seen pass.new) (mine pass.new) }
    ensures kept { (met pass.new ≡ met pass.old) × (parts pass.new ≡ parts pass.old) }
    ensures talks { Talks (C.tells clock.now) (configured (opening_state book.now)) conn
        (point (seen pass.old) (mine pass.old) (L.input link.old) (L.output link.old))
        (point (seen pass.new) (mine pass.new) (L.input link.new) (L.output link.new)) result }
{
    clock.serve(conn);
    let end = converse(rt, alloc, book, pass, conn, link, clock);
    clock.serve_nobody();
    link.hang_up();
    end
}

/// Puts a connection behind the others, where there is room for it.
pub(crate) fn keep<L: Link>(conns: &mut Vec<Conn<L>>, conn: Conn<L>)
    requires { vec_len conns.old < vec_capacity conns.old }
    ensures { conns.new.items ≡ conns.old.items ++ conn ∷ [] }
{
    conns.push(conn).unwrap();
}

/// Serves links that came, one after another, until the switch has come to its end or its journal is full.
pub(crate) fn serve_links<R: Wait, C: Clock, L: Link>(
    rt: &R,
    alloc: Global,
    book: &Book<Machine>,
    came: &Came<L>,
    pass: &mut Pass<Machine>,
    sleeper: Sleeper,
    clock: &C,
    conns: &mut Vec<Conn<L>>,
)
    requires book { IsPassOf configured book.now pass.old }
    requires keeps { Keeps L.input L.output (Enters (C.tells clock.now) ⊥ None) (configured (opening_state book.now))
        (seen pass.old) (mine pass.old ∷ met pass.old) conns.old.items }
    ensures book { IsPassOf configured book.now pass.new }
    ensures parts { parts pass.new ≡ parts pass.old }
    ensures keeps { Keeps L.input L.output (Enters (C.tells clock.now) ⊥ None) (configured (opening_state book.now))
        (seen pass.new) (mine pass.new ∷ met pass.new) conns.new.items }
{
    'links: for _ in rt.forever() {
        if is_ending(rt, book, pass) {
            return;
        }
        if conns.reserve(1).is_err() {
            rest(clock);
        } else if !serve_next(rt, alloc, book, came, pass, sleeper, clock, conns) {
            clock.nap();
        }
    }
}

// Serves the first link that waits, and says whether there was one, and it was not turned away.
fn serve_next<R: Wait, C: Clock, L: Link>(
    rt: &R,
    alloc: Global,
    book: &Book<Machine>,
    came: &Came<L>,
    pass: &mut Pass<Machine>,
    sleeper: Sleeper,
    clock: &C,
    conns: &mut Vec<Conn<L>>,
) -> bool
    requires book { IsPassOf configured book.now pass.old }
    requires room { vec_len conns.old < vec_capacity conns.old }
    requires keeps { Keeps L.input L.output (Enters (C.tells clock.now) ⊥ None) (configured (opening_state book.now))
        (seen pass.old) (mine pass.old ∷ met pass.old) conns.old.items }
    ensures book { IsPassOf configured book.now pass.new }
    ensures parts { parts pass.new ≡ parts pass.old }
    ensures keeps { Keeps L.input L.output (Enters (C.tells clock.now) ⊥ None) (configured (opening_state book.now))
        (seen pass.new) (mine pass.new ∷ met pass.new) conns.new.items }
{
    let Some(mut link) = came.take(rt) else {
        return false;
    };
    link.belong_to(sleeper);
    serve_one(rt, alloc, book, pass, clock, conns, link).is_ok()
}
