//! Runs of the program of which one read or one write fails, each in turn, and runs over a document that is cut behind
//! each of its bytes.

ghost use Rattle.std.specs.Prelude.{◌≡◌, false, IfOk};
ghost use Rattle.fs_top.specs.Serving as serving;

use crate::runs::{ROOM, texts_of};
use case_desk::{Answer, Table, cut};
use fs_ports::{MemFiles, MemLink};
use fs_text::{Memory, Txt, read_u64};
use fs_top::{is_serve, run};
use std::alloc::Global;

// How many reads or writes are to fail at most.
const MOST_CALLS: u64 = 1000;

/// What is changed in a run.
#[derive(Clone, Copy)]
enum Change {
    Nothing,
    /// The read of this number fails.
    Read(u64),
    /// The write of this number fails.
    Write(u64),
    /// So many bytes of the document are left.
    Cut(usize),
}

/// What comes of a run: what is written, the line on the error output, and the status.
#[derive(Drop)]
struct Outcome {
    written: Txt,
    line: Txt,
    status: u8,
}

/// Answers `each read WORDS` and `each write WORDS` with what comes of the run of these words whose first read or write
/// fails, then of the one whose second one does, and so on, up to the run in which none fails; and `each cut WORDS`
/// with what comes of the run over the first byte of the document, over its first two, and so on, up to the whole.
/// What comes of several in a row is told once, behind the number of the first of them.
pub(crate) fn tell_each(table: &Table, rest: &str, answer: &mut Answer) {
    let (what, words) = cut(rest);
    let words = texts_of(words, answer);
    if is_serve(&words) {
        answer.line("no run");
        return;
    }
    let done = answer_each(table, what, &words, answer);
    answer.note(done);
}

fn answer_each(table: &Table, what: &str, words: &[Txt], answer: &mut Answer) -> Result<(), Memory>
    requires { serving.is_serve words.now ≡ false }
{
    let alloc = answer.alloc();
    let whole = outcome_of(table, words, Change::Nothing, alloc)?;
    let mut last: Option<Outcome> = None;
    for number in 1..=most_of(what, table) {
        let change = change_of(what, number);
        let next = outcome_of(table, words, change, alloc)?;
        if !is_same(&next, &last) {
            tell_outcome(number, &next, &whole, answer);
        }
        if change.ends(&next, &whole) {
            return Ok(());
        }
        last = Some(next);
    }
    Ok(())
}

// How many runs there are at most.
fn most_of(what: &str, table: &Table) -> u64 {
    match what {
        "cut" => table.file().len() as u64,
        _ => MOST_CALLS,
    }
}

fn change_of(what: &str, number: u64) -> Change {
    match what {
        "read" => Change::Read(number),
        "write" => Change::Write(number),
        "cut" => Change::Cut(number as usize),
        _ => Change::Nothing,
    }
}

// What comes of a run of these words.
fn outcome_of(
    table: &Table,
    words: &[Txt],
    change: Change,
    alloc: Global,
) -> Result<Outcome, Memory>
    requires { serving.is_serve words.now ≡ false }
{
    let mut files = change.files(table)?;
    let mut link = change.link(table)?;
    let mut err = MemLink::new(alloc, &[], &[], &[], &[], ROOM)?;
    let status = run(alloc, words, &mut files, &mut link, &mut err);
    let line = Txt::of(alloc, change.line(err.written()))?;
    Ok(Outcome {
        written: Txt::of(alloc, link.written())?,
        line,
        status: status.code,
    })
}

impl Change {
    fn files(self, table: &Table) -> Result<MemFiles, Memory> {
        match self {
            Change::Cut(len) => table.cut_files(len),
            _ => table.files(),
        }
    }

    fn link(self, table: &Table) -> Result<MemLink, Memory>
        ensures { IfOk result (λ link. link.is_held ≡ false) }
    {
        match self {
            Change::Read(number) => table.failing_link(&[number], &[], ROOM),
            Change::Write(number) => table.failing_link(&[], &[number], ROOM),
            _ => table.link(ROOM),
        }
    }

    // A line of the error output without its end, and without the number where it tells that so many bytes were left.
    fn line(self, line: &[u8]) -> &[u8] {
        let line = line.strip_suffix(b"\n").unwrap_or(line);
        match self {
            Change::Cut(len) if is_truncated(line, len) => {
                b"fsw: Truncated at the length".as_slice()
            }
            _ => line,
        }
    }

    // Whether the call that was to fail is none of those that the run makes.
    fn ends(self, outcome: &Outcome, whole: &Outcome) -> bool {
        match self {
            Change::Cut(_) => false,
            _ => outcome.status == whole.status,
        }
    }
}

// Whether a line tells that the document is cut short at this length.
fn is_truncated(line: &[u8], len: usize) -> bool {
    match line.strip_prefix(b"fsw: Truncated at ") {
        Some(number) => read_u64(number) == Some(len as u64),
        None => false,
    }
}

// Whether the same comes of the last run as of this one.
fn is_same(outcome: &Outcome, last: &Option<Outcome>) -> bool {
    match last {
        Some(last) => {
            outcome.status == last.status
                && outcome.line.as_bytes() == last.line.as_bytes()
                && outcome.written.as_bytes() == last.written.as_bytes()
        }
        None => false,
    }
}

// Adds how many bytes are written, and whether they are no front of the whole, the line, if there is one, and the
// status.
fn tell_outcome(number: u64, outcome: &Outcome, whole: &Outcome, answer: &mut Answer) {
    let written = outcome.written.as_bytes();
    let line = outcome.line.as_bytes();
    answer.begin();
    answer.show(format_args!("{number}: {} bytes, ", written.len()));
    if !whole.written.as_bytes().starts_with(written) {
        answer.put("no front, ");
    }
    if !line.is_empty() {
        answer.add(line);
        answer.put(", ");
    }
    answer.show(format_args!("status {}", outcome.status));
    answer.end();
}
