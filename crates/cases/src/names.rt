//! Numbers, names of tables, escapes and identifiers.

use case_desk::{Answer, cut, number_of};
use fs_text::{Cause, CoreId, EventName, State, escape, offset_of, read_u64};

// The numbers of identifiers stand below this one.
const NUMBERS: u64 = 1 << 62;

/// Answers `text VERB TEXT`: the `number` that a text says, its `escape`, where it stands in a table by its `name`,
/// whether it is a `core` and whether the first core `owns` it. `place BYTE TEXT` is the place of the first such
/// byte, `identifier NUMBER` one of the first core's identifiers, and `tables` how long the tables are.
pub(crate) fn tell_text(rest: &str, answer: &mut Answer) {
    let (verb, rest) = cut(rest);
    let text = answer.bytes_of(rest);
    match verb {
        "number" => tell_number(read_u64(&text), answer),
        "escape" => tell_escape(&text, answer),
        "name" => tell_name(&text, answer),
        "core" => tell_whether(CoreId::of_text(&text).is_some(), answer),
        "owns" => tell_whether(CoreId::default().owns(&text), answer),
        "identifier" => tell_identifier(number_of(rest), answer),
        "place" => tell_place(rest, answer),
        "tables" => tell_tables(answer),
        _ => answer.line("no case"),
    }
}

fn tell_whether(is_so: bool, answer: &mut Answer) {
    answer.line(if is_so { "yes" } else { "no" });
}

fn tell_number(number: Option<u64>, answer: &mut Answer) {
    match number {
        Some(n) => answer.told(n),
        None => answer.line("none"),
    }
}

fn tell_escape(text: &[u8], answer: &mut Answer) {
    if let Some(escaped) = answer.made(escape(answer.alloc(), text)) {
        answer.line_of(escaped.as_bytes());
    }
}

fn tell_name(name: &[u8], answer: &mut Answer) {
    if let Some(state) = State::of_name(name) {
        tell_row("state", state.number(), state.name(), answer);
    } else if let Some(cause) = Cause::of_name(name) {
        tell_row("cause", cause.number(), cause.name(), answer);
    } else if let Some(event) = EventName::of_name(name) {
        tell_row("event", event.number(), event.name(), answer);
    } else {
        answer.line("none");
    }
}

fn tell_row(table: &str, number: u16, name: &str, answer: &mut Answer) {
    answer.told(format_args!("{table} {number} {name}"));
}

fn tell_tables(answer: &mut Answer) {
    let states = State::table().len();
    let causes = Cause::table().len();
    let events = EventName::table().len();
    answer.told(format_args!("{states} states, {causes} causes, {events} events"));
}

fn tell_place(rest: &str, answer: &mut Answer) {
    let (byte, text) = cut(rest);
    let byte = answer.bytes_of(byte);
    let text = answer.bytes_of(text);
    match byte.first() {
        Some(byte) => answer.told(offset_of(*byte, &text)),
        None => answer.line("no case"),
    }
}

fn tell_identifier(number: u64, answer: &mut Answer) {
    if number >= NUMBERS {
        answer.line("no case");
    } else if let Some(uuid) = answer.made(CoreId::default().uuid(answer.alloc(), number)) {
        answer.line_of(uuid.as_bytes());
    }
}
