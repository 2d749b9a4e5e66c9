//! A lane works the channels in its slot, and serves the controllers that are dialed for them.

ghost use Rattle.std.specs.Prelude.{◌≡◌, ℕ, [], ◌∷◌, Some};
ghost use Rattle.fs_ports.specs.Ports.{IsNewLink};
ghost use Rattle.fs_book.specs.Opened.{NoneNames};
ghost use Rattle.fs_book.specs.Passes.{seen, mine, met, parts, opening_state, IsPassOf};
ghost use Rattle.fs_conn.specs.Owning.{OwnsConn};
ghost use Rattle.fs_conn.specs.Talks.{point, Talks};
ghost use Rattle.fs_machine.specs.Turned.{configured, IsJournal, names};
ghost use Rattle.fs_session.specs.declared.actor.Actor.TheVariants as who;
ghost use Rattle.fs_top.specs.Dials.{vain_in, HasRisen};
ghost use Rattle.fs_top.specs.Lanes.{Keeps, Enters};
ghost use Rattle.fs_top.specs.Standing.{SlotHolds, SlotStands, DialsFailed, vain_of, conns_of};

use crate::conns::Conn;
use crate::laning::{keep, serve_conn};
use crate::rest::rest;
use crate::slots::SlotLane;
use crate::turning::{Pause, run_turns};
use fs_book::{Book, Pass};
use fs_conn::End;
use fs_machine::{Machine, Refusal};
use fs_out::Target;
use fs_ports::{Clock, Dialer, Gates, Link, Sleeper};
use fs_session::{Actor, Talked, talk_once};
use std::sync::Wait;
use std::thread::{Threads, join_mut};

// Whoever serves the controller of a slot sleeps behind the lanes for links, of which there are so many at most.
const LINKS: u16 = 16;

/// Works the channels in the slot of a lane, with a clock of its own, until the switch has come to its end and the slot
/// is empty, or the journal is full. Each controller that is to be dialed for one is dialed, and served.
pub(crate) fn run_slot<R: Threads + Wait + Sync, L: Link, O: Dialer<Link = L>, C: Clock, G: Gates>(
    rt: &R,
    book: &Book<Machine>,
    clock: &C,
    gates: &G,
    lane: &mut SlotLane<L, O>,
)
    requires { SlotStands L.input L.output (C.tells clock.now) book.now lane.old.slot lane.old }
    ensures stands { SlotStands L.input L.output (C.tells clock.now) book.now lane.old.slot lane.new }
    ensures failed { (from : ℕ) → DialsFailed O.dial_faults from lane.old → DialsFailed O.dial_faults from lane.new }
{
    let clock = clock.of_sleeper(Sleeper::Slot(lane.slot));
    work_slot(rt, book, &clock, gates, lane);
}

// Does so with this clock.
fn work_slot<R: Threads + Wait + Sync, L: Link, O: Dialer<Link = L>, C: Clock, G: Gates>(
    rt: &R,
    book: &Book<Machine>,
    clock: &C,
    gates: &G,
    lane: &mut SlotLane<L, O>,
)
    requires stands { SlotStands L.input L.output (C.tells clock.now) book.now lane.old.slot lane.old }
    ensures stands { SlotStands L.input L.output (C.tells clock.now) book.now lane.old.slot lane.new }
    ensures failed { (from : ℕ) → DialsFailed O.dial_faults from lane.old → DialsFailed O.dial_faults from lane.new }
{
    'talks: for _ in rt.forever() {
        match run_lane_turns(rt, book, clock, gates, lane) {
            Pause::Talk(target) => talk(rt, book, clock, gates, &target, lane),
            // A slot has no jobs.
            Pause::Load(_) => {}
            Pause::Over => return,
        }
    }
}

// Works the channels in the slot, until a controller is to be dialed for one, or there is nothing more to do.
fn run_lane_turns<R: Wait, L: Link, O: Drop, C: Clock, G: Gates>(
    rt: &R,
    book: &Book<Machine>,
    clock: &C,
    gates: &G,
    lane: &mut SlotLane<L, O>,
) -> Pause
    requires { SlotStands L.input L.output (C.tells clock.now) book.now lane.old.slot lane.old }
    ensures stands { SlotStands L.input L.output (C.tells clock.now) book.now lane.old.slot lane.new }
    ensures dialer { lane.new.dialer ≡ lane.old.dialer }
    ensures vain { (slot : ℕ) → vain_of slot lane.new ≡ vain_of slot lane.old }
{
    let actor = Actor::Slot(lane.slot);
    run_turns(
        rt,
        lane.alloc,
        book,
        &mut lane.pass,
        actor,
        clock,
        gates,
        &lane.conns,
    )
}

// Dials a controller for the channel in the slot, with a pass that is split off, and serves its connection, if one
// comes of it.
fn talk<R: Threads + Wait + Sync, L: Link, O: Dialer<Link = L>, C: Clock, G: Gates>(
    rt: &R,
    book: &Book<Machine>,
    clock: &C,
    gates: &G,
    target: &Target,
    lane: &mut SlotLane<L, O>,
)
    requires { SlotStands L.input L.output (C.tells clock.now) book.now lane.old.slot lane.old }
    ensures stands { SlotStands L.input L.output (C.tells clock.now) book.now lane.old.slot lane.new }
    ensures failed { (from : ℕ) → DialsFailed O.dial_faults from lane.old → DialsFailed O.dial_faults from lane.new }
{
    if lane.conns.reserve(1).is_err() {
        rest(clock);
        return;
    }
    let mut theirs = book.split(&mut lane.pass, 1);
    let conn = dial(rt, book, clock, gates, target, lane, &mut theirs);
    book.meet(&mut lane.pass, theirs);
    if let Some(conn) = conn {
        keep(&mut lane.conns, conn);
    }
}

// Dials a controller, and enters what came of it by another pass. The connection that came is served to its end.
fn dial<R: Threads + Wait + Sync, L: Link, O: Dialer<Link = L>, C: Clock, G: Gates>(
    rt: &R,
    book: &Book<Machine>,
    clock: &C,
    gates: &G,
    target: &Target,
    lane: &mut SlotLane<L, O>,
    theirs: &mut Pass<Machine>,
) -> Option<Conn<L>>
    requires holds { SlotHolds L.input L.output (C.tells clock.now) book.now lane.old.slot 1 lane.old }
    requires book { IsPassOf configured book.now theirs.old }
    requires new { (mine theirs.old ≡ []) × (met theirs.old ≡ []) }
    requires run { IsJournal (configured (opening_state book.now)) (seen theirs.old) }
    ensures holds { SlotHolds L.input L.output (C.tells clock.now) book.now lane.old.slot 1 lane.new }
    ensures vain { (slot : ℕ) → vain_of slot lane.new ≡ vain_of slot lane.old }
    ensures room { lane.new.conns ≡ lane.old.conns }
    ensures book { IsPassOf configured book.now theirs.new }
    ensures parts { parts theirs.new ≡ parts theirs.old }
    ensures keeps { Keeps L.input L.output (Enters (C.tells clock.now) ⊥ (Some (who.Slot lane.old.slot)))
        (configured (opening_state book.now)) (seen theirs.new) (mine theirs.new ∷ met theirs.new) (conns_of result) }
    ensures failed { HasRisen (vain_in lane.old.slot (seen theirs.new) (mine theirs.new ∷ met theirs.new))
        (O.dial_faults lane.old.dialer) (O.dial_faults lane.new.dialer) }
{
    match talk_once(
        rt,
        book,
        theirs,
        lane.slot,
        target,
        &mut lane.dialer,
        clock.now(),
    ) {
        Talked::Opened { conn, link, wakes } => {
            clock.wake(&wakes);
            Some(serve_beside(rt, book, clock, gates, lane, theirs, conn, link))
        }
        Talked::Not(_, wakes) => {
            clock.wake(&wakes);
            None
        }
        Talked::Refused(Refusal::Memory) => {
            rest(clock);
            None
        }
        Talked::Idle | Talked::Refused(_) => None,
    }
}

// Serves a new connection to its end by another pass, beside the turns of the slot.
fn serve_beside<R: Threads + Wait + Sync, L: Link, O: Drop, C: Clock, G: Gates>(
    rt: &R,
    book: &Book<Machine>,
    clock: &C,
    gates: &G,
    lane: &mut SlotLane<L, O>,
    theirs: &mut Pass<Machine>,
    number: u32,
    link: L,
) -> Conn<L>
    requires holds { SlotHolds L.input L.output (C.tells clock.now) book.now lane.old.slot 1 lane.old }
    requires book { IsPassOf configured book.now theirs.old }
    requires owns { OwnsConn (configured (opening_state book.now)) number (seen theirs.old) (mine theirs.old) }
    requires run { IsJournal (configured (opening_state book.now)) (seen theirs.old) }
    requires fresh { NoneNames names number (seen theirs.old) }
    ensures holds { SlotHolds L.input L.output (C.tells clock.now) book.now lane.old.slot 1 lane.new }
    ensures vain { (slot : ℕ) → vain_of slot lane.new ≡ vain_of slot lane.old }
    ensures same { (lane.new.conns ≡ lane.old.conns) × (lane.new.dialer ≡ lane.old.dialer) }
    ensures book { IsPassOf configured book.now theirs.new }
    ensures owns { OwnsConn (configured (opening_state book.now)) number (seen theirs.new) (mine theirs.new) }
    ensures kept { (met theirs.new ≡ met theirs.old) × (parts theirs.new ≡ parts theirs.old) }
    ensures number { result.number ≡ number }
    ensures talks { Talks (C.tells clock.now) (configured (opening_state book.now)) number
        (point (seen theirs.old) (mine theirs.old) (L.input link) (L.output link))
        (point (seen theirs.new) (mine theirs.new) (L.input result.link) (L.output result.link)) result.end }
{
    let sleeper = Sleeper::Lane(lane.slot.saturating_add(LINKS));
    let talks = clock.of_sleeper(sleeper);
    let mut link = link;
    link.belong_to(sleeper);
    let end = converse_beside(
        rt, book, clock, gates, &talks, lane, theirs, number, &mut link,
    );
    Conn { number, link, end }
}

// Converses by one pass and one clock, and works the slot by the others.
fn converse_beside<R: Threads + Wait + Sync, L: Link, O: Drop, C: Clock, G: Gates>(
    rt: &R,
    book: &Book<Machine>,
    clock: &C,
    gates: &G,
    talks: &C,
    lane: &mut SlotLane<L, O>,
    theirs: &mut Pass<Machine>,
    conn: u32,
    link: &mut L,
) -> End
    requires holds { SlotHolds L.input L.output (C.tells clock.now) book.now lane.old.slot 1 lane.old }
    requires book { IsPassOf configured book.now theirs.old }
    requires owns { OwnsConn (configured (opening_state book.now)) conn (seen theirs.old) (mine theirs.old) }
    requires run { IsJournal (configured (opening_state book.now)) (seen theirs.old) }
    requires fresh { NoneNames names conn (seen theirs.old) }
    ensures holds { SlotHolds L.input L.output (C.tells clock.now) book.now lane.old.slot 1 lane.new }
    ensures vain { (slot : ℕ) → vain_of slot lane.new ≡ vain_of slot lane.old }
    ensures same { (lane.new.conns ≡ lane.old.conns) × (lane.new.dialer ≡ lane.old.dialer) }
    ensures book { IsPassOf configured book.now theirs.new }
    ensures owns { OwnsConn (configured (opening_state book.now)) conn (seen theirs.new) (mine theirs.new) }
    ensures kept { (met theirs.new ≡ met theirs.old) × (parts theirs.new ≡ parts theirs.old) }
    ensures talks { Talks (C.tells talks.now) (configured (opening_state book.now)) conn
        (point (seen theirs.old) (mine theirs.old) (L.input link.old) (L.output link.old))
        (point (seen theirs.new) (mine theirs.new) (L.input link.new) (L.output link.new)) result }
{
    let alloc = lane.alloc;
    let actor = Actor::Slot(lane.slot);
    let conns = &lane.conns;
    let pass = &mut lane.pass;
    let (end, ()) = join_mut(
        rt,
        &mut || -> End
            requires { IsPassOf configured book.now theirs.now
                × OwnsConn (configured (opening_state book.now)) conn (seen theirs.now) (mine theirs.now)
                × IsJournal (configured (opening_state book.now)) (seen theirs.now)
                × NoneNames names conn (seen theirs.now) }
            ensures { IsPassOf configured book.entry.now theirs.exit.now
                × OwnsConn (configured (opening_state book.entry.now)) conn (seen theirs.exit.now)
                (mine theirs.exit.now)
                × (met theirs.exit.now ≡ met theirs.entry.now) × (parts theirs.exit.now ≡ parts theirs.entry.now)
                × Talks (C.tells talks.entry.now) (configured (opening_state book.entry.now)) conn
                (point (seen theirs.entry.now) (mine theirs.entry.now) (L.input link.entry.now)
                (L.output link.entry.now))
                (point (seen theirs.exit.now) (mine theirs.exit.now) (L.input link.exit.now) (L.output link.exit.now))
                result }
        { serve_conn(rt, alloc, book, theirs, conn, link, talks) },
        &mut || -> ()
            requires { IsPassOf configured book.now pass.now
                × Keeps L.input L.output (Enters (C.tells clock.now) ⊥ (Some actor))
                (configured (opening_state book.now)) (seen pass.now) (mine pass.now ∷ met pass.now) conns.now.items }
            ensures { IsPassOf configured book.entry.now pass.exit.now
                × (parts pass.exit.now ≡ parts pass.entry.now)
                × Keeps L.input L.output (Enters (C.tells clock.entry.now) ⊥ (Some actor))
                (configured (opening_state book.entry.now)) (seen pass.exit.now)
                (mine pass.exit.now ∷ met pass.exit.now) conns.entry.now.items
                × ((slot : ℕ) → vain_in slot (seen pass.exit.now) (mine pass.exit.now ∷ met pass.exit.now)
                ≡ vain_in slot (seen pass.entry.now) (mine pass.entry.now ∷ met pass.entry.now)) }
        {
            run_turns(rt, alloc, book, pass, actor, clock, gates, conns);
        },
    );
    end
}
