//! The lines of the input.

use crate::answer::Answer;
use crate::words::{cut, length_of};
use fs_ports::{Sent, Sink, send_all};
use std::alloc::Global;
use std::io::ErrorKind;

/// What answers the cases of a program.
pub trait Desk {
    /// Takes a line that begins with this word. If it is a case, it is answered.
    fn takes(&mut self, verb: &str, rest: &str, answer: &mut Answer);
}

/// Writes a line of the input, and behind a case its answer.
pub fn answer_line<D: Desk, S: Sink>(
    alloc: Global,
    desk: &mut D,
    line: &str,
    out: &mut S,
) -> Result<(), ErrorKind> {
    let mut answer = Answer::new(alloc);
    answer.put(line);
    answer.end();
    take_line(desk, line, &mut answer);
    match send_all(out, answer.bytes()) {
        Sent::All if !answer.is_wanting() => Ok(()),
        _ => Err(ErrorKind::WriteZero),
    }
}

// Answers a line. One that is empty or begins with `#` is no case, and `long COUNT LINE` is the line that has so many
// `1` in place of each `~`.
fn take_line<D: Desk>(desk: &mut D, line: &str, answer: &mut Answer) {
    let (verb, rest) = cut(line);
    match verb {
        "" | "#" => {}
        "long" => take_long(desk, rest, answer),
        _ => desk.takes(verb, rest, answer),
    }
}

fn take_long<D: Desk>(desk: &mut D, rest: &str, answer: &mut Answer) {
    let (count, line) = cut(rest);
    let whole = answer.lengthened(length_of(count), line);
    let (verb, rest) = cut(&whole);
    desk.takes(verb, rest, answer);
}
