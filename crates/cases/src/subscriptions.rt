//! What a connection subscribed, and the events that it wants.

use crate::events::event_of;
use case_desk::{Answer, cut};
use fs_filter::Subs;
use fs_text::Memory;

/// Answers `subs STEPS`, the steps of a new connection with `;` between them: `subscribe NAMES`, `nix NAMES`, `clear`,
/// `listening`, `add HEADER VALUE`, `delete HEADER`, `delete HEADER VALUE`, and `wants NAME HEADERS`.
pub(crate) fn tell_subs(steps: &str, answer: &mut Answer) {
    if let Some(mut subs) = answer.made(Subs::new(answer.alloc())) {
        for step in steps.split(';') {
            tell_step(&mut subs, step.trim_start(), answer);
        }
    }
}

// Takes a step, and tells what it answers.
fn tell_step(subs: &mut Subs, step: &str, answer: &mut Answer) {
    let (verb, rest) = cut(step);
    match verb {
        "subscribe" => tell_known(subs.subscribe(rest.as_bytes()), answer),
        "nix" => tell_known(subs.nix(rest.as_bytes()), answer),
        "clear" => subs.clear(),
        "listening" => answer.told(subs.listening()),
        "add" => add_filter(subs, rest, answer),
        "delete" => tell_deleted(subs, rest, answer),
        "wants" => tell_wanted(subs, rest, answer),
        _ => answer.line("no step"),
    }
}

fn tell_known(known: Result<bool, Memory>, answer: &mut Answer) {
    if let Some(known) = answer.made(known) {
        answer.told(known);
    }
}

fn add_filter(subs: &mut Subs, filter: &str, answer: &mut Answer) {
    let (header, value) = cut(filter);
    let value = answer.bytes_of(value);
    let done = subs.add_filter(header.as_bytes(), &value);
    answer.note(done);
}

fn tell_deleted(subs: &mut Subs, filter: &str, answer: &mut Answer) {
    let is_gone = match filter.split_once(' ') {
        Some((header, value)) => {
            let value = answer.bytes_of(value);
            subs.delete_filter(header.as_bytes(), Some(value.as_slice()))
        }
        None => subs.delete_filter(filter.as_bytes(), None),
    };
    answer.told(is_gone);
}

fn tell_wanted(subs: &Subs, told: &str, answer: &mut Answer) {
    let made = event_of(told, "", answer);
    match &made {
        Ok(Some(event)) => answer.told(subs.wants(event)),
        Ok(None) => answer.line("no event"),
        Err(_) => {}
    }
    answer.note(made);
}
