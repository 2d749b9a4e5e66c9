//! Lanes that run beside one another.

ghost use Rattle.std.specs.Prelude.{◌≡◌, ℕ, length};
ghost use Rattle.std.specs.List.{All};
ghost use Rattle.fs_top.specs.Standing.{StaffStands, Stands, IsPlaced, ArePlaced, HasFailed, HaveFailed};

use crate::came::Came;
use crate::conns::Conn;
use crate::dialing::run_slot;
use crate::laning::serve_links;
use crate::muster::Muster;
use crate::slots::SlotLane;
use fs_book::{Book, Pass};
use fs_machine::Machine;
use fs_ports::{Clock, Dialer, Gates, Link, Sleeper};
use std::alloc::Global;
use std::sync::{Arc, Wait};
use std::thread::{self, Threads};

/// A lane of a server.
#[derive(Drop)]
pub(crate) enum Lane<L: Link, O> {
    Slot(SlotLane<L, O>),
    Staff(Staff<L>),
}

/// A lane that serves links, one after another: a pass of its own, and the connections that it served.
#[derive(Drop)]
pub(crate) struct Staff<L: Link> {
    pub(crate) alloc: Global,
    /// Its number among such lanes, from 0 on.
    pub(crate) number: u16,
    pub(crate) came: Arc<Came<L>>,
    pub(crate) pass: Pass<Machine>,
    pub(crate) conns: Vec<Conn<L>>,
}

// Runs a lane for links, with a clock of its own.
fn run_staff<R: Wait, L: Link, C: Clock>(
    rt: &R,
    book: &Book<Machine>,
    clock: &C,
    staff: &mut Staff<L>,
)
    requires { StaffStands L.input L.output (C.tells clock.now) book.now staff.old }
    ensures { StaffStands L.input L.output (C.tells clock.now) book.now staff.new }
{
    let sleeper = Sleeper::Lane(staff.number);
    let clock = clock.of_sleeper(sleeper);
    serve_staff(rt, book, &clock, sleeper, staff);
}

// Does so with this clock.
fn serve_staff<R: Wait, L: Link, C: Clock>(
    rt: &R,
    book: &Book<Machine>,
    clock: &C,
    sleeper: Sleeper,
    staff: &mut Staff<L>,
)
    requires stands { StaffStands L.input L.output (C.tells clock.now) book.now staff.old }
    ensures { StaffStands L.input L.output (C.tells clock.now) book.now staff.new }
{
    let pass = &mut staff.pass;
    let conns = &mut staff.conns;
    serve_links(
        rt,
        staff.alloc,
        book,
        &staff.came,
        pass,
        sleeper,
        clock,
        conns,
    );
}

// Runs one lane, once all have begun. Where somebody does not begin, nothing is done.
fn run_lane<R: Threads + Wait + Sync, L: Link, O: Dialer<Link = L>, C: Clock, G: Gates>(
    rt: &R,
    book: &Book<Machine>,
    clock: &C,
    gates: &G,
    muster: &Muster,
    lane: &mut Lane<L, O>,
)
    requires { Stands L.input L.output (C.tells clock.now) book.now lane.old }
    ensures stands { Stands L.input L.output (C.tells clock.now) book.now lane.new }
    ensures placed { (slots at : ℕ) → IsPlaced slots at lane.old → IsPlaced slots at lane.new }
    ensures failed { (from : ℕ) → HasFailed O.dial_faults from lane.old → HasFailed O.dial_faults from lane.new }
{
    if !muster.begin(rt) {
        return;
    }
    match lane {
        Lane::Slot(lane) => run_slot(rt, book, clock, gates, lane),
        Lane::Staff(staff) => run_staff(rt, book, clock, staff),
    }
}

/// Runs all lanes beside one another, each in a thread of its own, once all whom the muster has have begun.
pub(crate) fn run_lanes<
    R: Threads + Wait + Sync,
    L: Link,
    O: Dialer<Link = L>,
    C: Clock,
    G: Gates<Gate: Send>,
>(rt: &R, book: &Book<Machine>, clock: &C, gates: &G, muster: &Muster, lanes: &mut [Lane<L, O>])
    requires { All (Stands L.input L.output (C.tells clock.now) book.now) lanes.old }
    ensures stand { All (Stands L.input L.output (C.tells clock.now) book.now) lanes.new }
    ensures count { length lanes.new ≡ length lanes.old }
    ensures placed { (slots : ℕ) → ArePlaced slots lanes.old → ArePlaced slots lanes.new }
    ensures failed { (from : ℕ) → HaveFailed O.dial_faults from lanes.old → HaveFailed O.dial_faults from lanes.new }
{
    let threads = lanes.len();
    if threads == 0 {
        return;
    }
    thread::for_each_mut(
        rt,
        lanes,
        threads,
        &|_, lane: &mut Lane<L, O>|
            requires { Stands L.input L.output (C.tells clock.now) book.now lane.now }
            ensures { Stands L.input L.output (C.tells clock.entry.now) book.entry.now lane.exit.now
                × ((slots at : ℕ) → IsPlaced slots at lane.entry.now → IsPlaced slots at lane.exit.now)
                × ((from : ℕ) → HasFailed O.dial_faults from lane.entry.now
                → HasFailed O.dial_faults from lane.exit.now) }
        { run_lane(rt, book, clock, gates, muster, lane) },
    );
}
