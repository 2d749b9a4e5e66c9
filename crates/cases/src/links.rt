//! Reads and writes of a link in memory.

use case_desk::{Answer, Table, number_of};
use fs_ports::{MemLink, Read, Sink, Source, send_all};

// How many bytes a link takes.
const ROOM: usize = 5;

/// Answers `reads COUNT` with what so many reads of three bytes at most give.
pub(crate) fn tell_reads(table: &Table, count: &str, answer: &mut Answer) {
    if let Some(mut link) = answer.made(table.link(ROOM)) {
        for _ in 0..number_of(count) {
            tell_read(&mut link, answer);
        }
    }
}

fn tell_read(link: &mut MemLink, answer: &mut Answer) {
    let mut buf = [0; 3];
    let read = link.read(&mut buf);
    answer.begin();
    answer.show(format_args!("{read:?}"));
    answer.bracket(front_of(read, &buf));
    answer.end();
}

// What a read put at the front of a buffer.
fn front_of(read: Read, buf: &[u8]) -> &[u8] {
    match read {
        Read::Got(count) => buf.get(..count).unwrap_or(&[]),
        _ => &[],
    }
}

/// Answers `writes TEXT TEXT ..` with what each write answers, and with what is written in the end.
pub(crate) fn tell_writes(table: &Table, texts: &str, answer: &mut Answer) {
    if let Some(mut link) = answer.made(table.link(ROOM)) {
        for text in texts.split_whitespace() {
            tell_write(&mut link, text, answer);
        }
        answer.pair("written", link.written());
    }
}

fn tell_write(link: &mut MemLink, text: &str, answer: &mut Answer) {
    let bytes = answer.bytes_of(text);
    if !bytes.is_empty() {
        answer.shown(link.write(&bytes));
    }
}

/// Answers `sends TEXT TEXT ..` with whether each text, of which one may be empty, was sent, and with what is written
/// in the end.
pub(crate) fn tell_sends(table: &Table, texts: &str, answer: &mut Answer) {
    if let Some(mut link) = answer.made(table.link(ROOM)) {
        for text in texts.split(' ') {
            let bytes = answer.bytes_of(text);
            answer.shown(send_all(&mut link, &bytes));
        }
        answer.pair("written", link.written());
    }
}
