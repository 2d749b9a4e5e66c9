//! Bridges that are joined and ended.

use case_desk::{Answer, cut, number_of, slot_of};
use fs_bridge::{BridgeKind, Bridges};
use fs_text::Memory;

/// Answers `bridges STEPS`, with `;` between them: `join CALLER ANSWERER`, `part SLOT`, and `end NUMBER`.
pub(crate) fn tell_bridges(steps: &str, answer: &mut Answer) {
    let mut bridges = Bridges::new(answer.alloc());
    for step in steps.split(';') {
        tell_step(&mut bridges, step.trim_start(), answer);
    }
}

// Takes a step, and tells what it answers.
fn tell_step(bridges: &mut Bridges, step: &str, answer: &mut Answer) {
    let (verb, rest) = cut(step);
    match verb {
        "join" => tell_joined(bridges, rest, answer),
        "part" => tell_part(bridges, slot_of(rest), answer),
        "end" => tell_end(bridges, number_of(rest), answer),
        _ => answer.line("no step"),
    }
}

// Joins two slots, where that may be done, and tells the number.
fn tell_joined(bridges: &mut Bridges, slots: &str, answer: &mut Answer) {
    let (caller, answerer) = cut(slots);
    let caller = slot_of(caller);
    let answerer = slot_of(answerer);
    if caller == answerer {
        answer.line("one slot");
    } else if !bridges.has_number_left() {
        answer.line("no number");
    } else {
        match (bridges.part_of(caller), bridges.part_of(answerer)) {
            (None, None) => tell_number(bridges.join(caller, answerer, BridgeKind::Dial), answer),
            _ => answer.line("bridged"),
        }
    }
}

fn tell_number(number: Result<u64, Memory>, answer: &mut Answer) {
    if let Some(number) = answer.made(number) {
        answer.told(number);
    }
}

fn tell_part(bridges: &Bridges, slot: u16, answer: &mut Answer) {
    match bridges.part_of(slot) {
        Some(row) => answer.told(row.number),
        None => answer.line("none"),
    }
}

fn tell_end(bridges: &mut Bridges, number: u64, answer: &mut Answer) {
    match bridges.unbridge(number) {
        Some(row) => answer.told(format_args!("{} {}", row.caller, row.answerer)),
        None => answer.line("none"),
    }
}
