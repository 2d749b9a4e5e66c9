//! Lanes are made, and met into one pass again.

ghost use Rattle.std.specs.Prelude.{◌≡◌, ◌+◌, ◌*◌, ◌^◌, ◌≤◌, ℕ, List, [], ◌∷◌, ◌++◌, length, map, IfOk, OnOk};
ghost use Rattle.std.specs.List.{All};
ghost use Rattle.fs_book.specs.Passes.{seen, mine, met, parts, opening_state, IsPassOf};
ghost use Rattle.fs_machine.specs.Turned.{configured, IsJournal};
ghost use Rattle.fs_conn.specs.Play.{noted};
ghost use Rattle.fs_session.specs.Loading.{Store};
ghost use Rattle.fs_top.specs.Reloading.{NotesLoads, HasNoted, NoneNotes, Notes};
ghost use Rattle.fs_top.specs.Doors.{Rose};
ghost use Rattle.fs_top.specs.Headline.{Headline};
ghost use Rattle.fs_top.specs.Dials.{vain_dials, vain_in, AreBounded};
ghost use Rattle.fs_top.specs.Lanes.{Keeps, MayEnter};
ghost use Rattle.fs_top.specs.Standing.{
  DeskStands,
  StaffStands,
  SlotStands,
  Stands,
  ArePlaced,
  IsNext,
  DialsFailed,
  HasFailed,
  HaveFailed,
  dialers_of,
};

use crate::came::Came;
use crate::conns::Conn;
use crate::desk::Desk;
use crate::lanes::{Lane, Staff};
use crate::slots::SlotLane;
use fs_book::{Book, Pass};
use fs_machine::Machine;
use fs_ports::{Clock, Dialer, Link};
use fs_text::Memory;
use std::alloc::Global;
use std::sync::Arc;

// How many parts of the book a lane has.
const PARTS: u64 = 2;

/// Makes a lane for each of so many slots, numbered from 1 on, with a dialer of its own.
pub(crate) fn make_slots<L: Link, O: Dialer<Link = L>, C: Clock>(
    alloc: Global,
    book: &Book<Machine>,
    pass: &mut Pass<Machine>,
    clock: &C,
    dialer: &O,
    slots: u16,
) -> Result<Vec<Lane<L, O>>, Memory>
    requires book { IsPassOf configured book.now pass.old }
    requires run { IsJournal (configured (opening_state book.now)) (seen pass.old) }
    ensures book { IsPassOf configured book.now pass.new }
    ensures same { (seen pass.new ≡ seen pass.old) × (mine pass.new ≡ mine pass.old) × (met pass.new ≡ met pass.old) }
    ensures parts { IfOk result (λ lanes. parts pass.new + 2 * length lanes.items ≡ parts pass.old) }
    ensures count { IfOk result (λ lanes. length lanes.items ≡ slots) }
    ensures lanes { IfOk result (λ lanes. All (Stands L.input L.output (C.tells clock.now) book.now) lanes.items) }
    ensures placed { IfOk result (λ lanes. ArePlaced slots lanes.items) }
    ensures failed { IfOk result (λ lanes. HaveFailed O.dial_faults (O.dial_faults dialer.now) lanes.items) }
{
    let mut lanes = Vec::with_capacity(alloc, usize::from(slots))?;
    'slots: for number in 0..slots {
        let lane = make_slot(alloc, book, pass, clock, dialer, number + 1)?;
        lanes.push(Lane::Slot(lane))?;
    }
    Ok(lanes)
}

// Makes the lane of a slot.
fn make_slot<L: Link, O: Dialer<Link = L>, C: Clock>(
    alloc: Global,
    book: &Book<Machine>,
    pass: &mut Pass<Machine>,
    clock: &C,
    dialer: &O,
    slot: u16,
) -> Result<SlotLane<L, O>, Memory>
    requires book { IsPassOf configured book.now pass.old }
    requires run { IsJournal (configured (opening_state book.now)) (seen pass.old) }
    ensures book { IsPassOf configured book.now pass.new }
    ensures same { (seen pass.new ≡ seen pass.old) × (mine pass.new ≡ mine pass.old) × (met pass.new ≡ met pass.old) }
    ensures parts { OnOk result (parts pass.new + 2 ≡ parts pass.old) }
    ensures lane { IfOk result (SlotStands L.input L.output (C.tells clock.now) book.now slot) }
    ensures failed { IfOk result (DialsFailed O.dial_faults (O.dial_faults dialer.now)) }
{
    if pass.parts() <= PARTS {
        return Err(Memory);
    }
    let dialer = dialer.twin()?;
    Ok(SlotLane {
        alloc,
        slot,
        pass: book.split(pass, PARTS),
        dialer,
        conns: Vec::new(alloc),
    })
}

/// Makes a lane for each of so many links at once, behind those of the slots.
pub(crate) fn add_staff<L: Link, O: Dialer<Link = L>, C: Clock>(
    alloc: Global,
    book: &Book<Machine>,
    pass: &mut Pass<Machine>,
    clock: &C,
    came: &Arc<Came<L>>,
    links: u16,
    lanes: &mut Vec<Lane<L, O>>,
) -> Result<(), Memory>
    requires book { IsPassOf configured book.now pass.old }
    requires run { IsJournal (configured (opening_state book.now)) (seen pass.old) }
    requires lanes { All (Stands L.input L.output (C.tells clock.now) book.now) lanes.old.items }
    ensures book { IsPassOf configured book.now pass.new }
    ensures same { (seen pass.new ≡ seen pass.old) × (mine pass.new ≡ mine pass.old) × (met pass.new ≡ met pass.old) }
    ensures parts { OnOk result
        (parts pass.new + 2 * length lanes.new.items ≡ parts pass.old + 2 * length lanes.old.items) }
    ensures lanes { OnOk result (All (Stands L.input L.output (C.tells clock.now) book.now) lanes.new.items) }
    ensures placed { OnOk result ((slots : ℕ) → slots ≤ length lanes.old.items → ArePlaced slots lanes.old.items
        → ArePlaced slots lanes.new.items) }
    ensures failed { OnOk result ((from : ℕ) → HaveFailed O.dial_faults from lanes.old.items
        → HaveFailed O.dial_faults from lanes.new.items) }
{
    'links: for number in 0..links {
        let staff = make_staff(alloc, book, pass, clock, came, number)?;
        lanes.push(Lane::Staff(staff))?;
    }
    Ok(())
}

// Makes a lane for links, of this number.
fn make_staff<L: Link, C: Clock>(
    alloc: Global,
    book: &Book<Machine>,
    pass: &mut Pass<Machine>,
    clock: &C,
    came: &Arc<Came<L>>,
    number: u16,
) -> Result<Staff<L>, Memory>
    requires book { IsPassOf configured book.now pass.old }
    requires run { IsJournal (configured (opening_state book.now)) (seen pass.old) }
    ensures book { IsPassOf configured book.now pass.new }
    ensures same { (seen pass.new ≡ seen pass.old) × (mine pass.new ≡ mine pass.old) × (met pass.new ≡ met pass.old) }
    ensures parts { OnOk result (parts pass.new + 2 ≡ parts pass.old) }
    ensures staff { IfOk result (StaffStands L.input L.output (C.tells clock.now) book.now) }
{
    if pass.parts() <= PARTS {
        return Err(Memory);
    }
    let came = came.clone()?;
    Ok(Staff {
        alloc,
        number,
        came,
        pass: book.split(pass, PARTS),
        conns: Vec::new(alloc),
    })
}

/// Makes the desk of the jobs.
pub(crate) fn make_desk<L: Link, C: Clock>(
    alloc: Global,
    book: &Book<Machine>,
    pass: &mut Pass<Machine>,
    clock: &C,
) -> Result<Desk, Memory>
    requires book { IsPassOf configured book.now pass.old }
    requires run { IsJournal (configured (opening_state book.now)) (seen pass.old) }
    ensures book { IsPassOf configured book.now pass.new }
    ensures same { (seen pass.new ≡ seen pass.old) × (mine pass.new ≡ mine pass.old) × (met pass.new ≡ met pass.old) }
    ensures parts { OnOk result (parts pass.new + 2 ≡ parts pass.old) }
    ensures desk { IfOk result (DeskStands L.input L.output (C.tells clock.now) book.now) }
    ensures fresh { IfOk result (λ desk. (mine desk.pass ≡ []) × (met desk.pass ≡ [])) }
{
    if pass.parts() <= PARTS {
        return Err(Memory);
    }
    Ok(Desk {
        alloc,
        pass: book.split(pass, PARTS),
    })
}

/// What is left once all lanes were met: the connections that came, and the dialers of the slots.
#[derive(Drop)]
pub(crate) struct Gathered<L: Link, O> {
    pub(crate) conns: Vec<Conn<L>>,
    pub(crate) dialers: Vec<O>,
}

/// Meets all lanes into one pass, and gives their connections, and the dialers in the order of the slots.
pub(crate) fn gather<L: Link, O: Dialer<Link = L>, C: Clock>(
    alloc: Global,
    book: &Book<Machine>,
    pass: &mut Pass<Machine>,
    clock: &C,
    slots: u16,
    lanes: Vec<Lane<L, O>>,
) -> Result<Gathered<L, O>, Memory>
    requires book { IsPassOf configured book.now pass.old }
    requires lanes { All (Stands L.input L.output (C.tells clock.now) book.now) lanes.items }
    requires placed { ArePlaced slots lanes.items }
    ensures book { IsPassOf configured book.now pass.new }
    ensures parts { OnOk result (parts pass.new ≡ parts pass.old + 2 * length lanes.items) }
    ensures keeps { IfOk result (λ gathered. (from to : ℕ)
        → Keeps L.input L.output (MayEnter (C.tells clock.now) (Rose from to)) (configured (opening_state book.now))
        (seen pass.old) (mine pass.old ∷ met pass.old) []
        → Keeps L.input L.output (MayEnter (C.tells clock.now) (Rose from to)) (configured (opening_state book.now))
        (seen pass.new) (mine pass.new ∷ met pass.new) gathered.conns.items) }
    ensures bounded { IfOk result (λ gathered. (from : ℕ) → HaveFailed O.dial_faults from lanes.items
        → AreBounded (λ slot. vain_in slot (seen pass.old) (mine pass.old ∷ met pass.old)) from []
        → AreBounded (λ slot. vain_in slot (seen pass.new) (mine pass.new ∷ met pass.new)) from
        (map O.dial_faults gathered.dialers.items)) }
    ensures quiet { OnOk result (NoneNotes (seen pass.old) (mine pass.old ∷ met pass.old)
        → NoneNotes (seen pass.new) (mine pass.new ∷ met pass.new)) }
{
    let _slots = slots;
    let mut conns = Vec::new(alloc);
    let mut dialers = Vec::new(alloc);
    'lanes: for lane in lanes {
        gather_lane(book, pass, clock, &mut conns, &mut dialers, lane)?;
    }
    Ok(Gathered { conns, dialers })
}

// Meets one lane into a pass, and puts its connections, and its dialer if it has one, behind the others.
fn gather_lane<L: Link, O: Dialer<Link = L>, C: Clock>(
    book: &Book<Machine>,
    pass: &mut Pass<Machine>,
    clock: &C,
    conns: &mut Vec<Conn<L>>,
    dialers: &mut Vec<O>,
    lane: Lane<L, O>,
) -> Result<(), Memory>
    requires book { IsPassOf configured book.now pass.old }
    requires lane { Stands L.input L.output (C.tells clock.now) book.now lane }
    requires next { IsNext (length dialers.old.items) lane }
    ensures book { IsPassOf configured book.now pass.new }
    ensures parts { OnOk result (parts pass.new ≡ parts pass.old + 2) }
    ensures dialers { OnOk result (dialers.new.items ≡ dialers.old.items ++ dialers_of lane) }
    ensures keeps { OnOk result ((from to : ℕ)
        → Keeps L.input L.output (MayEnter (C.tells clock.now) (Rose from to)) (configured (opening_state book.now))
        (seen pass.old) (mine pass.old ∷ met pass.old) conns.old.items
        → Keeps L.input L.output (MayEnter (C.tells clock.now) (Rose from to)) (configured (opening_state book.now))
        (seen pass.new) (mine pass.new ∷ met pass.new) conns.new.items) }
    ensures bounded { OnOk result ((from : ℕ) → HasFailed O.dial_faults from lane
        → AreBounded (λ slot. vain_in slot (seen pass.old) (mine pass.old ∷ met pass.old)) from
        (map O.dial_faults dialers.old.items)
        → AreBounded (λ slot. vain_in slot (seen pass.new) (mine pass.new ∷ met pass.new)) from
        (map O.dial_faults dialers.new.items)) }
    ensures quiet { OnOk result (NoneNotes (seen pass.old) (mine pass.old ∷ met pass.old)
        → NoneNotes (seen pass.new) (mine pass.new ∷ met pass.new)) }
{
    match lane {
        Lane::Slot(lane) => gather_slot(book, pass, clock, conns, dialers, lane),
        Lane::Staff(staff) => gather_staff(book, pass, clock, conns, staff),
    }
}

// Meets the lane of the slot that comes next into a pass, and puts its connections and its dialer behind the others.
fn gather_slot<L: Link, O: Dialer<Link = L>, C: Clock>(
    book: &Book<Machine>,
    pass: &mut Pass<Machine>,
    clock: &C,
    conns: &mut Vec<Conn<L>>,
    dialers: &mut Vec<O>,
    lane: SlotLane<L, O>,
) -> Result<(), Memory>
    requires book { IsPassOf configured book.now pass.old }
    requires lane { SlotStands L.input L.output (C.tells clock.now) book.now (length dialers.old.items + 1) lane }
    ensures book { IsPassOf configured book.now pass.new }
    ensures parts { OnOk result (parts pass.new ≡ parts pass.old + 2) }
    ensures dialers { OnOk result (dialers.new.items ≡ dialers.old.items ++ lane.dialer ∷ []) }
    ensures keeps { OnOk result ((from to : ℕ)
        → Keeps L.input L.output (MayEnter (C.tells clock.now) (Rose from to)) (configured (opening_state book.now))
        (seen pass.old) (mine pass.old ∷ met pass.old) conns.old.items
        → Keeps L.input L.output (MayEnter (C.tells clock.now) (Rose from to)) (configured (opening_state book.now))
        (seen pass.new) (mine pass.new ∷ met pass.new) conns.new.items) }
    ensures bounded { OnOk result ((from : ℕ) → DialsFailed O.dial_faults from lane
        → AreBounded (λ slot. vain_in slot (seen pass.old) (mine pass.old ∷ met pass.old)) from
        (map O.dial_faults dialers.old.items)
        → AreBounded (λ slot. vain_in slot (seen pass.new) (mine pass.new ∷ met pass.new)) from
        (map O.dial_faults dialers.new.items)) }
    ensures quiet { OnOk result (NoneNotes (seen pass.old) (mine pass.old ∷ met pass.old)
        → NoneNotes (seen pass.new) (mine pass.new ∷ met pass.new)) }
{
    let SlotLane {
        pass: other,
        conns: mut more,
        dialer,
        ..
    } = lane;
    conns.append(&mut more)?;
    dialers.push(dialer)?;
    book.meet(pass, other);
    Ok(())
}

// Meets a lane that is not for a slot into a pass, and puts its connections behind the others.
fn gather_staff<L: Link, C: Clock>(
    book: &Book<Machine>,
    pass: &mut Pass<Machine>,
    clock: &C,
    conns: &mut Vec<Conn<L>>,
    staff: Staff<L>,
) -> Result<(), Memory>
    requires book { IsPassOf configured book.now pass.old }
    requires staff { StaffStands L.input L.output (C.tells clock.now) book.now staff }
    ensures book { IsPassOf configured book.now pass.new }
    ensures parts { OnOk result (parts pass.new ≡ parts pass.old + 2) }
    ensures keeps { OnOk result ((from to : ℕ)
        → Keeps L.input L.output (MayEnter (C.tells clock.now) (Rose from to)) (configured (opening_state book.now))
        (seen pass.old) (mine pass.old ∷ met pass.old) conns.old.items
        → Keeps L.input L.output (MayEnter (C.tells clock.now) (Rose from to)) (configured (opening_state book.now))
        (seen pass.new) (mine pass.new ∷ met pass.new) conns.new.items) }
    ensures bounded { OnOk result ((from : ℕ) (counts : List ℕ)
        → AreBounded (λ slot. vain_in slot (seen pass.old) (mine pass.old ∷ met pass.old)) from counts
        → AreBounded (λ slot. vain_in slot (seen pass.new) (mine pass.new ∷ met pass.new)) from counts) }
    ensures quiet { OnOk result (NoneNotes (seen pass.old) (mine pass.old ∷ met pass.old)
        → NoneNotes (seen pass.new) (mine pass.new ∷ met pass.new)) }
{
    let Staff {
        pass: other,
        conns: mut more,
        ..
    } = staff;
    conns.append(&mut more)?;
    book.meet(pass, other);
    Ok(())
}

/// Meets the desk into a pass.
pub(crate) fn meet_desk<L: Link, C: Clock>(
    book: &Book<Machine>,
    pass: &mut Pass<Machine>,
    clock: &C,
    conns: &Vec<Conn<L>>,
    desk: Desk,
)
    requires book { IsPassOf configured book.now pass.old }
    requires desk { DeskStands L.input L.output (C.tells clock.now) book.now desk }
    ensures book { IsPassOf configured book.now pass.new }
    ensures parts { parts pass.new ≡ parts pass.old + 2 }
    ensures keeps { (from to : ℕ)
        → Keeps L.input L.output (MayEnter (C.tells clock.now) (Rose from to)) (configured (opening_state book.now))
        (seen pass.old) (mine pass.old ∷ met pass.old) conns.now.items
        → Keeps L.input L.output (MayEnter (C.tells clock.now) (Rose from to)) (configured (opening_state book.now))
        (seen pass.new) (mine pass.new ∷ met pass.new) conns.now.items }
    ensures bounded { (from : ℕ) (counts : List ℕ)
        → AreBounded (λ slot. vain_in slot (seen pass.old) (mine pass.old ∷ met pass.old)) from counts
        → AreBounded (λ slot. vain_in slot (seen pass.new) (mine pass.new ∷ met pass.new)) from counts }
    ensures loads { (first last : Store) → NoneNotes (seen pass.old) (mine pass.old ∷ met pass.old)
        → HasNoted first last desk → Notes (seen pass.new) (mine pass.new ∷ met pass.new) first last }
{
    let Desk { pass: other, .. } = desk;
    book.meet(pass, other);
}

/// Ends the book, of which the pass has all parts.
pub(crate) fn close<L: Link, C: Clock>(
    book: Book<Machine>,
    pass: Pass<Machine>,
    clock: &C,
    conns: &Vec<Conn<L>>,
) -> Machine
    requires book { IsPassOf configured book pass }
    requires whole { parts pass ≡ 2 ^ 62 }
    ensures config { result.config ≡ configured (opening_state book) }
    ensures journal { result.journal ≡ seen pass }
    ensures headline { (from to : ℕ)
        → Keeps L.input L.output (MayEnter (C.tells clock.now) (Rose from to)) (configured (opening_state book))
        (seen pass) (mine pass ∷ met pass) conns.now.items
        → Headline L.input L.output (MayEnter (C.tells clock.now) (Rose from to)) (configured (opening_state book))
        (seen pass) conns.now.items }
    ensures bounded { (from : ℕ) (counts : List ℕ)
        → AreBounded (λ slot. vain_in slot (seen pass) (mine pass ∷ met pass)) from counts
        → AreBounded (λ slot. vain_dials slot (seen pass)) from counts }
    ensures loads { (first last : Store) → Notes (seen pass) (mine pass ∷ met pass) first last
        → NotesLoads first last (noted result.journal) }
{
    book.close(pass)
}
