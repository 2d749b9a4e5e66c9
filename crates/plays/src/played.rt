//! Plays of one connection.

ghost use Rattle.std.specs.Prelude.{◌≡◌, [], IfSome};

use crate::answers::tell_answers;
use crate::bridging::tell_journal;
use crate::hearing::{tell_heard, tell_posted};
use case_desk::{Answer, Table};
use fs_conn::{End, play};
use fs_doc::read_config;
use fs_machine::{Act, Entry, Machine};
use fs_plan::Dialplan;
use fs_ports::MemFiles;
use fs_state::Counts;
use fs_text::EventName;

// The most that is written.
const ROOM: usize = 12_000_000;

/// What is told of a play.
#[derive(Clone, Copy)]
pub(crate) enum Told {
    /// What its connection reads, and how it ended, at which moment and with how many commands in the journal.
    All,
    /// The same, and how many events there were of each name.
    Counts,
    /// The answers of the api commands, and the events of each entry in which a bridge begins or ends, or a channel is
    /// hung up.
    Bridging,
    /// What its connection reads, in short.
    Heard,
    /// How many events its connection reads and loses, and the last of what it reads.
    Posted,
}

/// Answers `play`, `count`, `bridging`, `heard` and `posted` with what is told of the play.
pub(crate) fn tell_play(table: &Table, told: Told, answer: &mut Answer) {
    let Some(mut machine) = machine_of(table, answer) else {
        return;
    };
    let Some(mut link) = answer.made(table.link(ROOM)) else {
        return;
    };
    let made = table.files_again();
    let Some((mut files, name)) = answer.made(made) else {
        return;
    };
    let end = play(answer.alloc(), &mut machine, &mut link, &mut files, &name);
    tell_played(told, table, &machine, link.written(), end, answer);
}

fn tell_played(
    told: Told,
    table: &Table,
    machine: &Machine,
    written: &[u8],
    end: End,
    answer: &mut Answer,
) {
    match told {
        Told::All => tell_all(machine, written, end, answer),
        Told::Counts => {
            tell_all(machine, written, end, answer);
            tell_counts(machine.counts(), answer);
        }
        Told::Bridging => {
            tell_answers(written, answer);
            tell_journal(table, machine.journal().entries(), answer);
        }
        Told::Heard => tell_heard(written, answer),
        Told::Posted => tell_posted(written, machine.lost(1), answer),
    }
}

fn tell_all(machine: &Machine, written: &[u8], end: End, answer: &mut Answer) {
    answer.lines(written);
    let moment = machine.moment();
    let commands = commands_in(machine.journal().entries());
    answer.told(format_args!("{end:?} at {moment}, {commands} commands"));
}

// How many entries are commands.
fn commands_in(entries: &[Entry]) -> u64 {
    let mut count = 0_u64;
    for entry in entries {
        if let Act::Command { .. } = &entry.act {
            count = count.saturating_add(1);
        }
    }
    count
}

// Adds how many events there were of each name that had one.
fn tell_counts(counts: &Counts, answer: &mut Answer) {
    for row in EventName::table() {
        let count = counts.events(row.0);
        if count > 0 {
            answer.told(format_args!("{} {count}", row.2));
        }
    }
}

/// The machine of the document that was laid out, if it can be made of it. Otherwise the answer says why not.
pub(crate) fn machine_of(table: &Table, answer: &mut Answer) -> Option<Machine>
    ensures begun { IfSome result (λ machine. machine.journal ≡ []) }
{
    let mut files = answer.made(table.files())?;
    machine_in(&mut files, table.file(), answer)
}

fn machine_in(files: &mut MemFiles, document: &[u8], answer: &mut Answer) -> Option<Machine>
    ensures begun { IfSome result (λ machine. machine.journal ≡ []) }
{
    let alloc = answer.alloc();
    let Ok(config) = read_config(alloc, document) else {
        answer.line("no document");
        return None;
    };
    let Ok(plan) = Dialplan::build(alloc, &config, files) else {
        answer.line("no dialplan");
        return None;
    };
    match Machine::new(alloc, config, plan) {
        Ok(machine) => Some(machine),
        Err(memory) => {
            answer.want(memory);
            None
        }
    }
}
