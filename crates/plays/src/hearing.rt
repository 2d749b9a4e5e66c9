//! What a connection hears of events.

use crate::answers::without_header;
use case_desk::{Answer, is_line_end};

/// Adds what stands in frames, in short: of an event its name, its number and the identifier of its channel or its job,
/// if it tells of one, in a line, of a reply its text, with the identifier of a job that has begun behind it, and of an
/// answer its lines without a colon.
pub(crate) fn tell_heard(written: &[u8], answer: &mut Answer) {
    for line in written.split(is_line_end) {
        tell_line(line, answer);
    }
}

// Adds what is told of a line. The line of an event goes from its name to the identifier of its channel or its job, or
// to what it tells of the switch, and that of a job that has begun from the text of the reply to its header.
fn tell_line(line: &[u8], answer: &mut Answer) {
    if let Some(name) = line.strip_prefix(b"Event-Name: ") {
        answer.begin();
        answer.add(name);
    } else if let Some(number) = line.strip_prefix(b"Event-Sequence: ") {
        answer.put(" ");
        answer.add(number);
    } else if let Some(begun) = line.strip_prefix(b"Reply-Text: +OK Job-UUID: ") {
        answer.begin();
        answer.put("+OK Job-UUID: ");
        answer.add(begun);
    } else {
        tell_end(line, answer);
    }
}

// Adds what is told of a line that may end what was begun.
fn tell_end(line: &[u8], answer: &mut Answer) {
    if let Some(channel) = line.strip_prefix(b"Unique-ID: ") {
        return tell_identifier(channel, answer);
    }
    if line.starts_with(b"Event-Info: ") {
        return answer.end();
    }
    match line.strip_prefix(b"Job-UUID: ") {
        Some(job) => tell_identifier(job, answer),
        None => tell_other(line, answer),
    }
}

fn tell_identifier(identifier: &[u8], answer: &mut Answer) {
    answer.put(" ");
    answer.add(identifier);
    answer.end();
}

fn tell_other(line: &[u8], answer: &mut Answer) {
    if let Some(text) = line.strip_prefix(b"Reply-Text: ") {
        return answer.line_of(text);
    }
    let text = without_header(line);
    if !text.is_empty() && !text.contains(&b':') {
        answer.line_of(text);
    }
}

/// Adds how many events were written, the number of the last of these, how many were lost, and the last line that is
/// not empty.
pub(crate) fn tell_posted(written: &[u8], lost: u64, answer: &mut Answer) {
    let mut count = 0_u64;
    let mut number = b"0".as_slice();
    let mut last = b"".as_slice();
    for line in written.split(is_line_end) {
        if let Some(told) = line.strip_prefix(b"Event-Sequence: ") {
            count = count.saturating_add(1);
            number = told;
        }
        last = if line.is_empty() { last } else { line };
    }
    answer.begin();
    answer.show(format_args!("{count} events up to number "));
    answer.add(number);
    answer.show(format_args!(", {lost} lost"));
    answer.end();
    answer.line_of(last);
}
