//! What happens in entries in which a bridge begins or ends, or a channel is hung up.

ghost use Rattle.std.specs.Prelude.{◌≡◌, false};
ghost use mathlib.Core.List.{IsPrefix};
ghost use Rattle.fs_machine.specs.Entries.{is_load};

use crate::again::load_again;
use crate::played::machine_of;
use case_desk::{Answer, Table};
use fs_machine::{Act, Entry, Machine, Reply};
use fs_state::{Detail, Event};
use fs_text::EventName;

/// Adds what happens in the entries of a journal: of each entry in which a bridge begins or ends, or a channel is hung
/// up, `at MOMENT:` and the names of its events, with the number of the bridge or the cause of the hangup.
pub(crate) fn tell_journal(table: &Table, entries: &[Entry], answer: &mut Answer) {
    if let Some(mut machine) = machine_of(table, answer) {
        for entry in entries {
            tell_again(&mut machine, entry, answer);
        }
    }
}

// Makes an entry of a journal again. In one of a load no bridge begins or ends.
fn tell_again(machine: &mut Machine, entry: &Entry, answer: &mut Answer) {
    if let Act::Loaded { job, note } = &entry.act {
        let made = load_again(answer.alloc(), note);
        if let Some(load) = answer.made(made) {
            let _done = machine.apply_load(entry.moment, *job, load);
        }
        return;
    }
    let _reply = tell_entry(machine, entry, answer);
}

/// Makes an entry that notes no load, and adds what happens in it, or why it is refused.
pub(crate) fn tell_entry(machine: &mut Machine, entry: &Entry, answer: &mut Answer) -> Option<Reply>
    requires { is_load entry.now.act ≡ false }
    ensures config { machine.new.config ≡ machine.old.config }
    ensures front { IsPrefix machine.old.journal machine.new.journal }
{
    match machine.prepare(entry) {
        Ok(change) => {
            tell_events(change.delta.moment, change.delta.news.as_slice(), answer);
            Some(machine.apply(change))
        }
        Err(refusal) => {
            answer.shown(refusal);
            None
        }
    }
}

// Adds the events of an entry, where they are of that kind.
fn tell_events(moment: u64, events: &[Event], answer: &mut Answer) {
    if tell_of_calls(events) {
        answer.begin();
        answer.show(format_args!("at {moment}:"));
        for event in events {
            tell_event(event, answer);
        }
        answer.end();
    }
}

// Whether one of these is of that kind.
fn tell_of_calls(events: &[Event]) -> bool {
    for event in events {
        if tells_of_calls(event.name) {
            return true;
        }
    }
    false
}

fn tells_of_calls(name: EventName) -> bool {
    matches!(
        name,
        EventName::ChannelBridge | EventName::ChannelUnbridge | EventName::ChannelHangup
    )
}

fn tell_event(event: &Event, answer: &mut Answer) {
    answer.put(" ");
    answer.put(event.name.name());
    match &event.detail {
        Detail::Bridge(row) | Detail::Unbridge(row, _) => answer.show(format_args!(
            "({})",
            row.number
        )),
        Detail::Hangup(cause) => answer.show(format_args!("({})", cause.name())),
        _ => {}
    }
}
