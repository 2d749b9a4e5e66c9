//! The run: the words, the file, its document, its patterns, and what is asked of them.

ghost use Rattle.std.specs.Prelude.{◌≡◌, ◌↔◌, ◌⊎◌, [], None, Some, IsTrue, false, IfOk};
ghost use Rattle.fs_ports.specs.Counts as counts;
ghost use Rattle.fs_ports.specs.Memory.{new_shelf};
ghost use Rattle.fs_doc.specs.Reading.{Configuration};
ghost use Rattle.fs_top.specs.Counted as counted;
ghost use Rattle.fs_top.specs.Documents as documents;
ghost use Rattle.fs_top.specs.Told as spec;
ghost use Rattle.fs_top.specs.Reading.{asked_seen};
ghost use Rattle.fs_conn.specs.Filed.{file_view};
ghost use Rattle.fs_ports.specs.Loads.{next};
ghost use Rattle.fs_top.specs.Runs.{PlaysAnew, Loads, OverBytes, OverConfig, OverPlan, not_read, not_built, Runs, Ran};
ghost use Rattle.fs_top.specs.Runs.{library, view_in, name_of};
ghost use Rattle.fs_top.specs.Runs.{CarriesOutAs};
ghost use Rattle.fs_top.specs.Runs.{HasConfig, HasFault, HasRefusal, CountRose, FillsJournal, MeetsBadBlock, RunsAway};
ghost use Rattle.fs_top.specs.Runs.{IsGiven, NoneRose, DoesAll};
ghost use Rattle.fs_top.specs.Serving.{is_serve};

use crate::asked::Asked;
use crate::counted::counts_text;
use crate::documents::{check_text, hunt_text};
use crate::lines::say;
use crate::outcome::Outcome;
use fs_conn::{End, play};
use fs_doc::{Config, ContextDef, DocFault, DocKind, read_config};
use fs_load::{CallLink, load_document};
use fs_machine::Machine;
use fs_plan::{Dialplan, PlanFault};
use fs_ports::{Files, Link, Load, MemFiles, Sent, Sink, send_all};
use fs_state::Counts;
use fs_text::{Memory, Txt};
use fs_vars::Vars;
use std::alloc::Global;

/// The status that the program ends with.
#[derive(Clone, Copy, Debug, PartialEq, Eq)]
pub struct Status {
    /// The number: 0 where no error is told, else from 1 to 10.
    pub code: u8,
}

/// Answers the words of the command line: `check FILE` and `hunt FILE CONTEXT DEST` print what they say of the document
/// in the file, and `play FILE` plays one connection over the link, as the document says.
///
/// On `err` it prints one line where the status is not 0. A fault of `err` changes no status.
pub fn run<F: Files, L: Link, E: Sink>(
    alloc: Global,
    words: &[Txt],
    files: &mut F,
    link: &mut L,
    err: &mut E,
) -> Status
    requires words { is_serve words.now ≡ false }
    requires waits { IsTrue (L.input link.old).waits }

    // The output, the line and the status are those that are told for these words, for what the file gave, for the
    // pattern that was refused, if any, for the notes of the loads of a play behind that, each of what the files told
    // that this load would answer, and for what was taken from the link; or a front of this output, with status 5 after
    // a write fault and 1 for want of memory. For `check` and `hunt` nothing is taken.
    ensures told { Ran (spec.asked_by words.now)
        (library (F.loads files.old) (F.counts files.old) (F.sizes files.old))
        (library (F.loads files.new) (F.counts files.new) (F.sizes files.new))
        (L.input link.old) (L.input link.new) (L.output link.old) (L.output link.new)
        (E.output err.old) (E.output err.new) result.code }

    // Each status has its cause.
    ensures usage { (result.code ≡ 2) ↔ (spec.asked_by words.now ≡ None) }
    ensures document { result.code ≡ 3 → HasFault (spec.asked_by words.now) (next (F.loads files.old))
        ⊎ HasRefusal (spec.asked_by words.now) (next (F.loads files.old)) (F.sizes files.old) (F.sizes files.new) }
    ensures unreadable { result.code ≡ 4
        → CountRose (F.counts files.old) (F.counts files.new) (L.input link.old) (L.input link.new) }
    ensures write_fault { result.code ≡ 5 → (L.output link.new).faults ≡ counts.raised (L.output link.old).faults }
    ensures full { result.code ≡ 8 → (c : Configuration)
        × HasConfig (spec.asked_by words.now) (next (F.loads files.old)) c
        × FillsJournal (spec.asked_by words.now) c (L.input link.old) (L.input link.new) }
    ensures runaway { result.code ≡ 9 → (c : Configuration)
        × HasConfig (spec.asked_by words.now) (next (F.loads files.old)) c
        × RunsAway (spec.asked_by words.now) c (L.input link.old) (L.input link.new) }
    ensures bad_block { result.code ≡ 10 → (c : Configuration)
        × HasConfig (spec.asked_by words.now) (next (F.loads files.old)) c
        × MeetsBadBlock (spec.asked_by words.now) c (L.input link.old) (L.input link.new) }

    // Where the file is told to be read as a configuration whose patterns have readings, and no count rose, all that is
    // told was done, or memory was wanting.
    ensures complete { (asked : spec.Asked) (c : Configuration)
        → IsGiven (spec.asked_by words.now) (next (F.loads files.old)) asked c
        → NoneRose (F.sizes files.old) (F.sizes files.new)
        (L.input link.old) (L.input link.new) (L.output link.old) (L.output link.new)
        → DoesAll asked c (L.input link.old) (L.input link.new) (L.output link.old) (L.output link.new)
        (E.output err.old) (E.output err.new) result.code }
{
    let outcome = conduct(alloc, words, files, link);
    say(err, outcome);
    Status {
        code: outcome.status(),
    }
}

// Does what the words ask for, and leaves it to the caller to print a line.
fn conduct<'a, F: Files, L: Link>(
    alloc: Global,
    words: &'a [Txt],
    files: &mut F,
    link: &mut L,
) -> Outcome<'a>
    requires { IsTrue (L.input link.old).waits }
    ensures { Runs (spec.asked_by words.now)
        (library (F.loads files.old) (F.counts files.old) (F.sizes files.old))
        (library (F.loads files.new) (F.counts files.new) (F.sizes files.new))
        (L.input link.old) (L.input link.new) (L.output link.old) (L.output link.new) result }
{
    match Asked::of(words) {
        Some(asked) => over_asked(alloc, asked, files, link),
        None => Outcome::Usage,
    }
}

// Does what is asked: of a file, or of the document of a load.
fn over_asked<'a, F: Files, L: Link>(
    alloc: Global,
    asked: Asked<'a>,
    files: &mut F,
    link: &mut L,
) -> Outcome<'a>
    requires { IsTrue (L.input link.old).waits }
    ensures { Runs (Some (asked_seen asked.entry))
        (library (F.loads files.old) (F.counts files.old) (F.sizes files.old))
        (library (F.loads files.new) (F.counts files.new) (F.sizes files.new))
        (L.input link.old) (L.input link.new) (L.output link.old) (L.output link.new) result }
{
    match asked.file() {
        Some(name) => over_file(alloc, asked, name, files, link),
        None => over_bytes(alloc, asked, load_document(), files, link),
    }
}

// Does what is asked of a file.
fn over_file<'a, F: Files, L: Link>(
    alloc: Global,
    asked: Asked<'a>,
    name: &'a Txt,
    files: &mut F,
    link: &mut L,
) -> Outcome<'a>
    requires waits { IsTrue (L.input link.old).waits }
    requires named { spec.file_asked (asked_seen asked) ≡ Some name.now }
    ensures { Runs (Some (asked_seen asked.entry))
        (library (F.loads files.old) (F.counts files.old) (F.sizes files.old))
        (library (F.loads files.new) (F.counts files.new) (F.sizes files.new))
        (L.input link.old) (L.input link.new) (L.output link.old) (L.output link.new) result }
{
    match files.load(name) {
        Ok(Load::Got(bytes)) => over_bytes(alloc, asked, bytes.as_bytes(), files, link),
        Ok(Load::Absent) => Outcome::CannotRead { name },
        Ok(Load::Failed) => Outcome::CannotRead { name },
        Err(Memory) => Outcome::Ended(End::Memory),
    }
}

// Does what is asked of the document in these bytes.
fn over_bytes<'a, F: Files, L: Link>(
    alloc: Global,
    asked: Asked<'a>,
    bytes: &[u8],
    files: &mut F,
    link: &mut L,
) -> Outcome<'a>
    requires { IsTrue (L.input link.old).waits }
    ensures { OverBytes (asked_seen asked.entry) bytes.now
        (view_in (library (F.loads files.old) (F.counts files.old) (F.sizes files.old))
        (name_of (asked_seen asked.entry)))
        (view_in (library (F.loads files.new) (F.counts files.new) (F.sizes files.new))
        (name_of (asked_seen asked.entry)))
        (L.input link.old) (L.input link.new) (L.output link.old) (L.output link.new) result }
{
    match read_config(alloc, bytes) {
        Ok(config) => over_config(alloc, asked, config, files, link),
        Err(fault) => not_read(fault),
    }
}

/// A document that was not read.
pub(crate) fn not_read<'a>(fault: DocFault) -> Outcome<'a>
    ensures { result ≡ not_read fault }
{
    match fault.kind {
        DocKind::Memory => Outcome::Ended(End::Memory),
        _ => Outcome::BadDocument(fault),
    }
}

// Does what is asked of a configuration, once its patterns are built.
fn over_config<'a, F: Files, L: Link>(
    alloc: Global,
    asked: Asked<'a>,
    config: Config,
    files: &mut F,
    link: &mut L,
) -> Outcome<'a>
    requires { IsTrue (L.input link.old).waits }
    ensures { OverConfig (asked_seen asked.entry) config
        (view_in (library (F.loads files.old) (F.counts files.old) (F.sizes files.old))
        (name_of (asked_seen asked.entry)))
        (view_in (library (F.loads files.new) (F.counts files.new) (F.sizes files.new))
        (name_of (asked_seen asked.entry)))
        (L.input link.old) (L.input link.new) (L.output link.old) (L.output link.new) result }
{
    match Dialplan::build(alloc, &config, files) {
        Ok(plan) => over_plan(alloc, asked, config, plan, files, link),
        Err(fault) => not_built(fault),
    }
}

/// A dialplan that was not built.
pub(crate) fn not_built<'a>(fault: PlanFault) -> Outcome<'a>
    ensures { result ≡ not_built fault }
{
    match fault {
        PlanFault::Memory => Outcome::Ended(End::Memory),
        PlanFault::PatternRefused { .. } | PlanFault::PatternTooLarge { .. } => {
            Outcome::BadPattern(fault)
        }
    }
}

// Does what is asked of a configuration and its dialplan.
fn over_plan<'a, F: Files, L: Link>(
    alloc: Global,
    asked: Asked<'a>,
    config: Config,
    plan: Dialplan,
    files: &mut F,
    link: &mut L,
) -> Outcome<'a>
    requires waits { IsTrue (L.input link.old).waits }
    requires built { plan ≡ config.contexts }
    ensures { OverPlan (asked_seen asked.entry) config
        (view_in (library (F.loads files.old) (F.counts files.old) (F.sizes files.old))
        (name_of (asked_seen asked.entry)))
        (view_in (library (F.loads files.new) (F.counts files.new) (F.sizes files.new))
        (name_of (asked_seen asked.entry)))
        (L.input link.old) (L.input link.new) (L.output link.old) (L.output link.new) result }
{
    match asked {
        Asked::Check { .. } => check(alloc, config.contexts(), link),
        Asked::Hunt { context, dest, .. } => hunt(
            alloc,
            &plan,
            config.globals(),
            context,
            dest,
            link,
        ),
        Asked::Play { file } => played(alloc, config, plan, files, file, link),
        Asked::Load { count, start } => load(alloc, config, plan, count, start, link),
    }
}

// Prints the numbers of contexts and extensions.
fn check<'a, L: Link>(alloc: Global, contexts: &[ContextDef<Txt>], link: &mut L) -> Outcome<'a>
    ensures does { CarriesOutAs (spec.told_text (documents.check_text contexts.now))
        (L.input link.new) (L.output link.old) (L.output link.new) result }
    ensures input { L.input link.new ≡ L.input link.old }
{
    match check_text(alloc, contexts) {
        Ok(text) => print(link, &text),
        Err(Memory) => Outcome::Ended(End::Memory),
    }
}

// Prints the actions of a call.
fn hunt<'a, L: Link>(
    alloc: Global,
    plan: &Dialplan,
    globals: &Vars,
    context: &Txt,
    dest: &Txt,
    link: &mut L,
) -> Outcome<'a>
    ensures does { CarriesOutAs (spec.told_text (documents.hunt_text plan.now globals.now context.now dest.now))
        (L.input link.new) (L.output link.old) (L.output link.new) result }
    ensures input { L.input link.new ≡ L.input link.old }
{
    match hunt_text(alloc, plan, globals, context, dest) {
        Ok(text) => print(link, &text),
        Err(Memory) => Outcome::Ended(End::Memory),
    }
}

// Prints a text.
fn print<'a, L: Link>(link: &mut L, text: &Txt) -> Outcome<'a>
    ensures does { CarriesOutAs (spec.told_text text.now) (L.input link.new) (L.output link.old) (L.output link.new)
        result }
    ensures input { L.input link.new ≡ L.input link.old }
{
    match send_all(link, text.as_bytes()) {
        Sent::All => Outcome::Printed,
        Sent::Failed => Outcome::Ended(End::WriteFault),
    }
}

// Plays one connection over the link, as the configuration says. Each load is one of the file of this name.
fn played<'a, F: Files, L: Link>(
    alloc: Global,
    config: Config,
    plan: Dialplan,
    files: &mut F,
    name: &Txt,
    link: &mut L,
) -> Outcome<'a>
    requires waits { IsTrue (L.input link.old).waits }
    requires built { plan ≡ config.contexts }
    ensures { PlaysAnew config (file_view (F.loads files.old name.now) (F.counts files.old) (F.sizes files.old))
        (file_view (F.loads files.new name.now) (F.counts files.new) (F.sizes files.new))
        (L.input link.old) (L.output link.old) (L.input link.new) (L.output link.new) result }
{
    match Machine::new(alloc, config, plan) {
        Ok(mut machine) => Outcome::Ended(play(alloc, &mut machine, link, files, name)),
        Err(Memory) => Outcome::Ended(End::Memory),
    }
}

// Plays so many calls over a link of their own, and prints what was counted.
fn load<'a, L: Link>(
    alloc: Global,
    config: Config,
    plan: Dialplan,
    count: u64,
    start: u64,
    link: &mut L,
) -> Outcome<'a>
    requires built { plan ≡ config.contexts }
    ensures does { Loads config count start (L.output link.old) (L.output link.new) result }
    ensures input { L.input link.new ≡ L.input link.old }
{
    match Machine::new(alloc, config, plan) {
        Ok(mut machine) => load_on(alloc, &mut machine, count, start, link),
        Err(Memory) => Outcome::Ended(End::Memory),
    }
}

// Plays so many calls on a machine. There is no file that could be loaded again.
fn load_on<'a, L: Link>(
    alloc: Global,
    machine: &mut Machine,
    count: u64,
    start: u64,
    link: &mut L,
) -> Outcome<'a>
    requires begun { machine.old.journal ≡ [] }
    ensures does { Loads machine.old.config count start (L.output link.old) (L.output link.new) result }
    ensures input { L.input link.new ≡ L.input link.old }
{
    let mut calls = CallLink::new(count, start);
    let Ok((mut files, name)) = no_files(alloc) else {
        return Outcome::Ended(End::Memory);
    };
    match play(alloc, machine, &mut calls, &mut files, &name) {
        End::Exit => print_counts(alloc, count, machine.counts(), link),
        end => Outcome::Ended(end),
    }
}

// Files of which there are none, and a name.
fn no_files(alloc: Global) -> Result<(MemFiles, Txt), Memory>
    ensures { IfOk result (λ none. (none.0 ≡ new_shelf [] [] []) × (none.1 ≡ [])) }
{
    Ok((MemFiles::new(alloc, &[], &[], &[])?, Txt::of(alloc, b"")?))
}

// Prints the counts behind so many calls.
fn print_counts<'a, L: Link>(
    alloc: Global,
    calls: u64,
    counts: &Counts,
    link: &mut L,
) -> Outcome<'a>
    ensures does { CarriesOutAs (spec.told_text (counted.counts_text calls counts.now))
        (L.input link.new) (L.output link.old) (L.output link.new) result }
    ensures input { L.input link.new ≡ L.input link.old }
{
    match counts_text(alloc, calls, counts) {
        Ok(text) => print(link, &text),
        Err(Memory) => Outcome::Ended(End::Memory),
    }
}
