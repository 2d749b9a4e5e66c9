//! A server: the file, its document, the door, and the switch with all its threads.

ghost use Rattle.std.specs.Prelude.{◌≡◌, ◌⊎◌, ◌^◌, [], ◌∷◌, map, true, false, IfOk, OnOk};
ghost use Rattle.std.specs.List.{list_any};
ghost use Rattle.fs_doc.specs.Reading.{Configuration};
ghost use Rattle.fs_ports.specs.Loads.{next};
ghost use Rattle.fs_state.specs.Switch.{is_full};
ghost use Rattle.fs_machine.specs.Laws.{IsRun, state_after};
ghost use Rattle.fs_top.specs.declared.course.Course.TheVariants as courses;
ghost use Rattle.fs_top.specs.declared.outcome.Outcome.TheVariants as outcomes;
ghost use Rattle.fs_top.specs.Dials.{vain_dials, vain_in, AreBounded};
ghost use Rattle.fs_top.specs.Doors.{Rose};
ghost use Rattle.fs_book.specs.Passes.{seen, mine, met, parts, opening_state, IsFirstPass, IsPassOf};
ghost use Rattle.fs_conn.specs.declared.end.End.TheVariants as ends;
ghost use Rattle.fs_machine.specs.Runs.{state_of};
ghost use Rattle.fs_machine.specs.Turned.{configured, IsJournal};
ghost use Rattle.fs_top.specs.Headline as headline;
ghost use Rattle.fs_top.specs.Headline.{Headline, IsShutDown, status_behind};
ghost use Rattle.fs_top.specs.Lanes.{Keeps, MayEnter, is_settled};
ghost use Rattle.fs_conn.specs.Play.{noted};
ghost use Rattle.fs_top.specs.Reloading.{store, behind_first, NotesLoads, AreCounted, Notes};
ghost use Rattle.fs_top.specs.Serving as spec;

use crate::beside::run_beside;
use crate::came::Came;
use crate::conns::Conn;
use crate::course::Course;
use crate::ending::settle;
use crate::gathering::{Gathered, add_staff, close, gather, make_desk, make_slots, meet_desk};
use crate::outcome::Outcome;
use crate::program::{Status, not_built, not_read};
use fs_book::{Book, Pass};
use fs_conn::End;
use fs_doc::{Config, read_config};
use fs_machine::{Act, Entry, Journal, Machine, Refusal};
use fs_plan::Dialplan;
use fs_ports::{Clock, Dialer, Door, Files, Gates, Link, Listen, Load, NoGates, Sink};
use fs_text::{Memory, Txt};
use std::alloc::Global;
use std::sync::{Arc, Wait};
use std::thread::Threads;

/// Whether the words of the command line are `serve FILE`.
pub fn is_serve(words: &[Txt]) -> bool
    ensures { result ≡ spec.is_serve words.now }
{
    match words {
        [word, _] => word.as_bytes() == b"serve".as_slice(),
        _ => false,
    }
}

/// What a server came to.
#[derive(Drop)]
pub struct Served<L: Link, O> {
    /// The status that the program ends with.
    pub status: Status,
    /// The journal that the switch closed with. It is empty where nothing was served, and where memory was wanting.
    pub journal: Journal,
    /// The connections that came, each as it was left. There are none where the journal is empty.
    pub conns: Vec<Conn<L>>,
    /// The dialers of the slots, in their order, as they were left. There are none where nothing was served, and where
    /// memory was wanting.
    pub dialers: Vec<O>,
}

/// What a server comes to, before its line is printed.
#[derive(Drop)]
struct Ran<'a, L: Link, O> {
    course: Course<'a>,
    journal: Journal,
    conns: Vec<Conn<L>>,
    dialers: Vec<O>,
}

impl<'a, L: Link, O: Drop> Ran<'a, L, O> {
    // Nothing was served, and this is why.
    fn nothing(alloc: Global, course: Course<'a>) -> Ran<'a, L, O>
        ensures course { result.course ≡ course.entry }
        ensures journal { result.journal.entries ≡ [] }
        ensures conns { result.conns.items ≡ [] }
        ensures dialers { result.dialers.items ≡ [] }
    {
        Ran {
            course,
            journal: Journal::new(alloc),
            conns: Vec::new(alloc),
            dialers: Vec::new(alloc),
        }
    }

    // Memory was wanting.
    fn without_memory(alloc: Global) -> Ran<'a, L, O>
        ensures course { result.course ≡ courses.Run (outcomes.Ended ends.Memory) }
        ensures journal { result.journal.entries ≡ [] }
        ensures conns { result.conns.items ≡ [] }
        ensures dialers { result.dialers.items ≡ [] }
    {
        Ran::nothing(alloc, Course::Run(Outcome::Ended(End::Memory)))
    }
}

/// Serves the file that the words `serve FILE` name: listens where its document says, takes in whoever connects,
/// converses with as many at once as the document allows, and works all channels and jobs, each in a thread of its own,
/// until a `fsctl shutdown` ends the switch, its journal is full, or the door fails. For a channel that waits for a
/// controller a twin of the dialer dials it, and its connection is served beside the others.
///
/// On `err` it prints one line where the status is not 0. A fault of `err` changes no status. Where not all threads can
/// be made with which it begins, nobody is taken in, and that is told as want of memory after some seconds. Where none
/// can be made for the connection of a controller, that is served behind the turns of its slot.
pub fn serve<
    R: Threads + Wait + Sync,
    F: Files + Send,
    D: Door + Send,
    O: Dialer<Link = D::Link>,
    C: Clock,
    E: Sink,
>(
    rt: &R,
    alloc: Global,
    words: &[Txt],
    files: &mut F,
    door: &mut D,
    dialer: &O,
    clock: &C,
    err: &mut E,
) -> Served<D::Link, O>
    requires { spec.is_serve words.now ≡ true }

    // It came to one course: memory was wanting, the file could not be read, its document has a fault, a pattern of
    // that was refused, the door did not listen, and then nothing is handed back; or its configuration was served. The
    // status is that of the course, and its line was printed on `err`, or a front of it.
    ensures told { spec.ServesAs D.Link.input D.Link.output (C.tells clock.now)
        (next (F.loads files.old)) (spec.file_served words.now) (F.counts files.old) (F.counts files.new)
        (F.sizes files.old) (F.sizes files.new) (D.door_faults door.old) (D.door_faults door.new)
        (E.output err.old) (E.output err.new) result.status.code
        result.journal.entries result.conns.items result.dialers.items }

    // Either no entry and no connection is handed back, since nothing was served or memory was wanting; or the file is
    // read as a configuration, and the journal is a run of it from the empty switch, each connection that came in it
    // was served once, and is told over it: its commands stand in it once, in the order read, and the bytes written to
    // it are a front of its frames. Each moment is one that the clock may tell, and the door failed where an entry
    // halts the switch.
    ensures headline { ((result.journal.entries ≡ []) × (result.conns.items ≡ [])) ⊎ ((c : Configuration)
        × spec.IsReadAs (next (F.loads files.old)) (spec.file_served words.now) c
        × (result.status.code ≡ status_behind c result.journal.entries)
        × Headline D.Link.input D.Link.output
        (MayEnter (C.tells clock.now) (Rose (D.door_faults door.old) (D.door_faults door.new)))
        c result.journal.entries result.conns.items) }

    // Of each slot, from 1 on, at most as many entries tell that a dial was in vain as its dialer counts faults more
    // than the one from which all were made, unless it counts as many as it can.
    ensures dialers { AreBounded (λ slot. vain_dials slot result.journal.entries) (O.dial_faults dialer.now)
        (map O.dial_faults result.dialers.items) }

    // Unless nothing is handed back, what the journal notes of loads came, in its order, of loads of the file that were
    // made one after another behind the first one, each of one of its own. At most as many note that it could not be
    // read or was absent, or that a pattern was too large, as were counted.
    ensures loads { (result.journal.entries ≡ []) ⊎ NotesLoads
        (behind_first (store (F.loads files.old (spec.file_served words.now)) (F.counts files.old) (F.sizes files.old)))
        (store (F.loads files.new (spec.file_served words.now)) (F.counts files.new) (F.sizes files.new))
        (noted result.journal.entries) }
    ensures counted { (result.journal.entries ≡ []) ⊎ AreCounted
        (behind_first (store (F.loads files.old (spec.file_served words.now)) (F.counts files.old) (F.sizes files.old)))
        (store (F.loads files.new (spec.file_served words.now)) (F.counts files.new) (F.sizes files.new))
        (noted result.journal.entries) }

    // Each status has its cause.
    ensures shutdown { result.status.code ≡ 0 → (c : Configuration)
        × spec.IsReadAs (next (F.loads files.old)) (spec.file_served words.now) c
        × IsShutDown c result.journal.entries }
    ensures document { result.status.code ≡ 3 → spec.IsNoDocument (next (F.loads files.old))
        (spec.file_served words.now) (F.sizes files.old) (F.sizes files.new) }
    ensures unreadable { result.status.code ≡ 4 → spec.IsUnread (next (F.loads files.old)) (spec.file_served words.now)
        (F.counts files.old) (F.counts files.new) }
    ensures door { result.status.code ≡ 7 → (c : Configuration)
        × spec.IsReadAs (next (F.loads files.old)) (spec.file_served words.now) c
        × Rose (D.door_faults door.old) (D.door_faults door.new) }
    ensures full { result.status.code ≡ 8 → (c : Configuration)
        × spec.IsReadAs (next (F.loads files.old)) (spec.file_served words.now) c
        × (is_full (state_after c result.journal.entries) ≡ true) }
    ensures codes { spec.IsStatus result.status.code }

    // Where the file is told to be read as a configuration whose patterns have readings, and no count of files or of
    // the door rose, the server was shut down, its journal is full, or memory was wanting.
    ensures complete { (c : Configuration)
        → spec.IsServable (next (F.loads files.old)) (spec.file_served words.now) c
        → spec.NoneFailed (F.sizes files.old) (F.sizes files.new) (D.door_faults door.old) (D.door_faults door.new)
        → spec.IsGoodStatus result.status.code }
{
    serve_with(rt, alloc, words, files, door, dialer, clock, err, &NoGates)
}

/// Does what [`serve`] does, where the hunts for the channel in a slot pass that slot's gate.
pub fn serve_with<
    R: Threads + Wait + Sync,
    F: Files + Send,
    D: Door + Send,
    O: Dialer<Link = D::Link>,
    C: Clock,
    E: Sink,
    G: Gates<Gate: Send>,
>(
    rt: &R,
    alloc: Global,
    words: &[Txt],
    files: &mut F,
    door: &mut D,
    dialer: &O,
    clock: &C,
    err: &mut E,
    gates: &G,
) -> Served<D::Link, O>
    requires { spec.is_serve words.now ≡ true }

    // It came to one course: memory was wanting, the file could not be read, its document has a fault, a pattern of
    // that was refused, the door did not listen, and then nothing is handed back; or its configuration was served. The
    // status is that of the course, and its line was printed on `err`, or a front of it.
    ensures told { spec.ServesAs D.Link.input D.Link.output (C.tells clock.now)
        (next (F.loads files.old)) (spec.file_served words.now) (F.counts files.old) (F.counts files.new)
        (F.sizes files.old) (F.sizes files.new) (D.door_faults door.old) (D.door_faults door.new)
        (E.output err.old) (E.output err.new) result.status.code
        result.journal.entries result.conns.items result.dialers.items }

    // Either no entry and no connection is handed back, since nothing was served or memory was wanting; or the file is
    // read as a configuration, and the journal is a run of it from the empty switch, each connection that came in it
    // was served once, and is told over it: its commands stand in it once, in the order read, and the bytes written to
    // it are a front of its frames. Each moment is one that the clock may tell, and the door failed where an entry
    // halts the switch.
    ensures headline { ((result.journal.entries ≡ []) × (result.conns.items ≡ [])) ⊎ ((c : Configuration)
        × spec.IsReadAs (next (F.loads files.old)) (spec.file_served words.now) c
        × (result.status.code ≡ status_behind c result.journal.entries)
        × Headline D.Link.input D.Link.output
        (MayEnter (C.tells clock.now) (Rose (D.door_faults door.old) (D.door_faults door.new)))
        c result.journal.entries result.conns.items) }

    // Of each slot, from 1 on, at most as many entries tell that a dial was in vain as its dialer counts faults more
    // than the one from which all were made, unless it counts as many as it can.
    ensures dialers { AreBounded (λ slot. vain_dials slot result.journal.entries) (O.dial_faults dialer.now)
        (map O.dial_faults result.dialers.items) }

    // Unless nothing is handed back, what the journal notes of loads came, in its order, of loads of the file that were
    // made one after another behind the first one, each of one of its own. At most as many note that it could not be
    // read or was absent, or that a pattern was too large, as were counted.
    ensures loads { (result.journal.entries ≡ []) ⊎ NotesLoads
        (behind_first (store (F.loads files.old (spec.file_served words.now)) (F.counts files.old) (F.sizes files.old)))
        (store (F.loads files.new (spec.file_served words.now)) (F.counts files.new) (F.sizes files.new))
        (noted result.journal.entries) }
    ensures counted { (result.journal.entries ≡ []) ⊎ AreCounted
        (behind_first (store (F.loads files.old (spec.file_served words.now)) (F.counts files.old) (F.sizes files.old)))
        (store (F.loads files.new (spec.file_served words.now)) (F.counts files.new) (F.sizes files.new))
        (noted result.journal.entries) }

    // Each status has its cause.
    ensures shutdown { result.status.code ≡ 0 → (c : Configuration)
        × spec.IsReadAs (next (F.loads files.old)) (spec.file_served words.now) c
        × IsShutDown c result.journal.entries }
    ensures document { result.status.code ≡ 3 → spec.IsNoDocument (next (F.loads files.old))
        (spec.file_served words.now) (F.sizes files.old) (F.sizes files.new) }
    ensures unreadable { result.status.code ≡ 4 → spec.IsUnread (next (F.loads files.old)) (spec.file_served words.now)
        (F.counts files.old) (F.counts files.new) }
    ensures door { result.status.code ≡ 7 → (c : Configuration)
        × spec.IsReadAs (next (F.loads files.old)) (spec.file_served words.now) c
        × Rose (D.door_faults door.old) (D.door_faults door.new) }
    ensures full { result.status.code ≡ 8 → (c : Configuration)
        × spec.IsReadAs (next (F.loads files.old)) (spec.file_served words.now) c
        × (is_full (state_after c result.journal.entries) ≡ true) }
    ensures codes { spec.IsStatus result.status.code }

    // Where the file is told to be read as a configuration whose patterns have readings, and no count of files or of
    // the door rose, the server was shut down, its journal is full, or memory was wanting.
    ensures complete { (c : Configuration)
        → spec.IsServable (next (F.loads files.old)) (spec.file_served words.now) c
        → spec.NoneFailed (F.sizes files.old) (F.sizes files.new) (D.door_faults door.old) (D.door_faults door.new)
        → spec.IsGoodStatus result.status.code }
{
    let name = file_of(words);
    let ran = serve_file(rt, alloc, name, files, door, dialer, clock, gates);
    let _sent = ran.course.say(err);
    let Ran {
        course,
        journal,
        conns,
        dialers,
    } = ran;
    let code = course.status();
    Served {
        status: Status { code },
        journal,
        conns,
        dialers,
    }
}

// The file that is to be served.
fn file_of(words: &[Txt]) -> &Txt
    requires { spec.is_serve words.now ≡ true }
    ensures { result.now ≡ spec.file_served words.now }
{
    match words {
        [_, name] => name,
        _ => unreachable!(),
    }
}

// Serves a file.
fn serve_file<
    'a,
    R: Threads + Wait + Sync,
    F: Files + Send,
    D: Door + Send,
    O: Dialer<Link = D::Link>,
    C: Clock,
    G: Gates<Gate: Send>,
>(
    rt: &R,
    alloc: Global,
    name: &'a Txt,
    files: &mut F,
    door: &mut D,
    dialer: &O,
    clock: &C,
    gates: &G,
) -> Ran<'a, D::Link, O>
    ensures serves { spec.Serves D.Link.input D.Link.output (C.tells clock.now) (next (F.loads files.old)) name.now
        (F.counts files.old) (F.counts files.new) (F.sizes files.old) (F.sizes files.new)
        (D.door_faults door.old) (D.door_faults door.new) result.course result.journal.entries result.conns.items
        result.dialers.items }
    ensures dialers { AreBounded (λ slot. vain_dials slot result.journal.entries) (O.dial_faults dialer.now)
        (map O.dial_faults result.dialers.items) }
    ensures loads { (result.journal.entries ≡ []) ⊎ NotesLoads
        (behind_first (store (F.loads files.old name.now) (F.counts files.old) (F.sizes files.old)))
        (store (F.loads files.new name.now) (F.counts files.new) (F.sizes files.new))
        (noted result.journal.entries) }
{
    let bytes = match files.load(name) {
        Ok(Load::Got(bytes)) => bytes,
        Ok(Load::Absent) => return Ran::nothing(alloc, Course::Run(Outcome::CannotRead { name })),
        Ok(Load::Failed) => return Ran::nothing(alloc, Course::Run(Outcome::CannotRead { name })),
        Err(Memory) => return Ran::without_memory(alloc),
    };
    serve_bytes(
        rt,
        alloc,
        name,
        bytes.as_bytes(),
        files,
        door,
        dialer,
        clock,
        gates,
    )
}

// Serves the document in these bytes.
fn serve_bytes<
    'a,
    R: Threads + Wait + Sync,
    F: Files + Send,
    D: Door + Send,
    O: Dialer<Link = D::Link>,
    C: Clock,
    G: Gates<Gate: Send>,
>(
    rt: &R,
    alloc: Global,
    name: &Txt,
    bytes: &[u8],
    files: &mut F,
    door: &mut D,
    dialer: &O,
    clock: &C,
    gates: &G,
) -> Ran<'a, D::Link, O>
    ensures serves { spec.ServesBytes D.Link.input D.Link.output (C.tells clock.now) bytes.now
        (F.sizes files.old) (F.sizes files.new) (D.door_faults door.old) (D.door_faults door.new)
        result.course result.journal.entries result.conns.items result.dialers.items }
    ensures dialers { AreBounded (λ slot. vain_dials slot result.journal.entries) (O.dial_faults dialer.now)
        (map O.dial_faults result.dialers.items) }
    ensures loads { (result.journal.entries ≡ []) ⊎ NotesLoads
        (store (F.loads files.old name.now) (F.counts files.old) (F.sizes files.old))
        (store (F.loads files.new name.now) (F.counts files.new) (F.sizes files.new))
        (noted result.journal.entries) }
{
    match read_config(alloc, bytes) {
        Ok(config) => match Dialplan::build(alloc, &config, files) {
            Ok(plan) => serve_config(
                rt, alloc, config, plan, files, name, door, dialer, clock, gates,
            ),
            Err(fault) => Ran::nothing(alloc, Course::Run(not_built(fault))),
        },
        Err(fault) => Ran::nothing(alloc, Course::Run(not_read(fault))),
    }
}

// Listens where a configuration says, and serves it.
fn serve_config<
    'a,
    R: Threads + Wait + Sync,
    F: Files + Send,
    D: Door + Send,
    O: Dialer<Link = D::Link>,
    C: Clock,
    G: Gates<Gate: Send>,
>(
    rt: &R,
    alloc: Global,
    config: Config,
    plan: Dialplan,
    files: &mut F,
    name: &Txt,
    door: &mut D,
    dialer: &O,
    clock: &C,
    gates: &G,
) -> Ran<'a, D::Link, O>
    requires { plan ≡ config.contexts }
    ensures serves { spec.ServesConfig D.Link.input D.Link.output (C.tells clock.now) config
        (D.door_faults door.old) (D.door_faults door.new) result.course result.journal.entries result.conns.items
        result.dialers.items }
    ensures dialers { AreBounded (λ slot. vain_dials slot result.journal.entries) (O.dial_faults dialer.now)
        (map O.dial_faults result.dialers.items) }
    ensures loads { (result.journal.entries ≡ []) ⊎ NotesLoads
        (store (F.loads files.old name.now) (F.counts files.old) (F.sizes files.old))
        (store (F.loads files.new name.now) (F.counts files.new) (F.sizes files.new))
        (noted result.journal.entries) }
{
    let settings = config.settings();
    let slots = settings.max_sessions;
    let links = settings.max_connections;
    match door.listen(&settings.listen_ip, settings.listen_port) {
        Listen::Listening => {}
        Listen::Failed => return Ran::nothing(alloc, Course::DoorFault),
    }
    match Machine::new(alloc, config, plan) {
        Ok(machine) => serve_machine(
            rt, alloc, machine, slots, links, files, name, door, dialer, clock, gates,
        ),
        Err(Memory) => Ran::without_memory(alloc),
    }
}

// Serves a switch to which nothing has happened.
fn serve_machine<
    'a,
    R: Threads + Wait + Sync,
    F: Files + Send,
    D: Door + Send,
    O: Dialer<Link = D::Link>,
    C: Clock,
    G: Gates<Gate: Send>,
>(
    rt: &R,
    alloc: Global,
    machine: Machine,
    slots: u16,
    links: u16,
    files: &mut F,
    name: &Txt,
    door: &mut D,
    dialer: &O,
    clock: &C,
    gates: &G,
) -> Ran<'a, D::Link, O>
    requires { machine.journal ≡ [] }
    ensures serves { spec.ServesConfig D.Link.input D.Link.output (C.tells clock.now) machine.config
        (D.door_faults door.old) (D.door_faults door.new) result.course result.journal.entries result.conns.items
        result.dialers.items }
    ensures dialers { AreBounded (λ slot. vain_dials slot result.journal.entries) (O.dial_faults dialer.now)
        (map O.dial_faults result.dialers.items) }
    ensures loads { (result.journal.entries ≡ []) ⊎ NotesLoads
        (store (F.loads files.old name.now) (F.counts files.old) (F.sizes files.old))
        (store (F.loads files.new name.now) (F.counts files.new) (F.sizes files.new))
        (noted result.journal.entries) }
{
    machine.sound();
    let Ok((book, pass)) = Book::start(alloc, machine) else {
        return Ran::without_memory(alloc);
    };
    match serve_book(
        rt, alloc, book, pass, slots, links, files, name, door, dialer, clock, gates,
    ) {
        Ok((machine, gathered)) => conclude(machine, gathered),
        Err(Memory) => Ran::without_memory(alloc),
    }
}

// Serves over a book to which nothing has happened, and closes it.
fn serve_book<
    R: Threads + Wait + Sync,
    F: Files + Send,
    D: Door + Send,
    O: Dialer<Link = D::Link>,
    C: Clock,
    G: Gates<Gate: Send>,
>(
    rt: &R,
    alloc: Global,
    book: Book<Machine>,
    pass: Pass<Machine>,
    slots: u16,
    links: u16,
    files: &mut F,
    name: &Txt,
    door: &mut D,
    dialer: &O,
    clock: &C,
    gates: &G,
) -> Result<(Machine, Gathered<D::Link, O>), Memory>
    requires book { IsPassOf configured book pass }
    requires first { IsFirstPass pass }
    requires run { IsJournal (configured (opening_state book)) [] }
    ensures ends { IfOk result (λ r. spec.Ends D.Link.input D.Link.output (C.tells clock.now)
        (configured (opening_state book)) (D.door_faults door.old) (D.door_faults door.new)
        r.0.config r.0.journal r.1.conns.items) }
    ensures dialers { IfOk result (λ r. AreBounded (λ slot. vain_dials slot r.0.journal) (O.dial_faults dialer.now)
        (map O.dial_faults r.1.dialers.items)) }
    ensures loads { IfOk result (λ r. NotesLoads
        (store (F.loads files.old name.now) (F.counts files.old) (F.sizes files.old))
        (store (F.loads files.new name.now) (F.counts files.new) (F.sizes files.new)) (noted r.0.journal)) }
{
    let mut pass = pass;
    let gathered = serve_to_end(
        rt, alloc, &book, &mut pass, slots, links, files, name, door, dialer, clock, gates,
    )?;
    let machine = close(book, pass, clock, &gathered.conns);
    Ok((machine, gathered))
}

// Serves over a book to which nothing has happened, until the switch is settled, and gives the connections that came
// and the dialers.
fn serve_to_end<
    R: Threads + Wait + Sync,
    F: Files + Send,
    D: Door + Send,
    O: Dialer<Link = D::Link>,
    C: Clock,
    G: Gates<Gate: Send>,
>(
    rt: &R,
    alloc: Global,
    book: &Book<Machine>,
    pass: &mut Pass<Machine>,
    slots: u16,
    links: u16,
    files: &mut F,
    name: &Txt,
    door: &mut D,
    dialer: &O,
    clock: &C,
    gates: &G,
) -> Result<Gathered<D::Link, O>, Memory>
    requires book { IsPassOf configured book.now pass.old }
    requires first { IsFirstPass pass.old }
    requires run { IsJournal (configured (opening_state book.now)) [] }
    ensures book { IsPassOf configured book.now pass.new }
    ensures parts { OnOk result (parts pass.new ≡ 2 ^ 62) }
    ensures keeps { IfOk result (λ gathered. Keeps D.Link.input D.Link.output
        (MayEnter (C.tells clock.now) (Rose (D.door_faults door.old) (D.door_faults door.new)))
        (configured (opening_state book.now)) (seen pass.new) (mine pass.new ∷ met pass.new) gathered.conns.items) }
    ensures bounded { IfOk result (λ gathered.
        AreBounded (λ slot. vain_in slot (seen pass.new) (mine pass.new ∷ met pass.new)) (O.dial_faults dialer.now)
        (map O.dial_faults gathered.dialers.items)) }
    ensures settled { OnOk result
        (is_settled (state_after (configured (opening_state book.now)) (seen pass.new)) ≡ true) }
    ensures loads { OnOk result (Notes (seen pass.new) (mine pass.new ∷ met pass.new)
        (store (F.loads files.old name.now) (F.counts files.old) (F.sizes files.old))
        (store (F.loads files.new name.now) (F.counts files.new) (F.sizes files.new))) }
{
    let came = Arc::new(alloc, Came::new(alloc))?;
    let mut lanes = make_slots(alloc, book, pass, clock, dialer, slots)?;
    add_staff(alloc, book, pass, clock, &came, links, &mut lanes)?;
    let mut desk = make_desk::<D::Link, C>(alloc, book, pass, clock)?;
    let began = run_beside(
        rt,
        book,
        &came,
        clock,
        gates,
        files,
        name,
        door,
        pass,
        &mut desk,
        lanes.as_mut_slice(),
    );
    if !began {
        return Err(Memory);
    }
    let gathered = gather(alloc, book, pass, clock, slots, lanes)?;
    meet_desk(book, pass, clock, &gathered.conns, desk);
    settle(rt, book, pass, clock);
    Ok(gathered)
}

// What a switch came to that has run to its end.
fn conclude<'a, L: Link, O: Drop>(machine: Machine, gathered: Gathered<L, O>) -> Ran<'a, L, O>
    requires { is_settled (state_of machine) ≡ true }
    ensures course { spec.Concludes machine.config machine.journal result.course }
    ensures journal { result.journal.entries ≡ machine.journal }
    ensures conns { result.conns.items ≡ gathered.conns.items }
    ensures dialers { result.dialers.items ≡ gathered.dialers.items }
{
    machine.sound();
    let course = course_behind(&machine);
    let Gathered { conns, dialers } = gathered;
    Ran {
        course,
        journal: machine.into_journal(),
        conns,
        dialers,
    }
}

// How a server ended: its journal is full, or an entry halted the switch, or a shutdown ended it.
fn course_behind<'a>(machine: &Machine) -> Course<'a>
    requires run { IsRun machine.now.config machine.now.journal }
    requires settled { is_settled (state_of machine.now) ≡ true }
    ensures { spec.Concludes machine.now.config machine.now.journal result }
{
    match machine.full() {
        Some(Refusal::JournalFull { cost, limit }) => {
            Course::Run(Outcome::Ended(End::JournalFull { cost, limit }))
        }
        _ => course_of_stop(machine),
    }
}

// How a server ended whose journal is not full.
fn course_of_stop<'a>(machine: &Machine) -> Course<'a>
    requires run { IsRun machine.now.config machine.now.journal }
    requires settled { is_settled (state_of machine.now) ≡ true }
    requires free { is_full (state_of machine.now) ≡ false }
    ensures { spec.Concludes machine.now.config machine.now.journal result }
{
    if has_halt(machine.journal().entries()) {
        Course::DoorFault
    } else {
        Course::Run(Outcome::Printed)
    }
}

// Whether one of the entries halts the switch.
fn has_halt(entries: &[Entry]) -> bool
    ensures { result ≡ list_any headline.is_halt entries.now }
{
    entries.iter().any(is_halt)
}

// Whether an entry halts the switch.
fn is_halt(entry: &Entry) -> bool
    ensures { result ≡ headline.is_halt entry.now }
{
    matches!(entry.act, Act::Halt)
}
