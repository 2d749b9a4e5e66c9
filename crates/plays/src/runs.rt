//! Runs of the program over files and links in memory.

use case_desk::{Answer, Table};
use fs_ports::MemLink;
use fs_text::{Memory, Txt};
use fs_top::{is_serve, run};

/// The most that is written.
pub(crate) const ROOM: usize = 1_000_000;

/// Answers `run WORDS` with the output, the line on the error output if there is one, and the status, and `measure
/// WORDS` with the length of the output in place of it.
pub(crate) fn tell_run(table: &Table, words: &str, measures: bool, answer: &mut Answer) {
    let done = answer_run(table, words, measures, answer);
    answer.note(done);
}

fn answer_run(
    table: &Table,
    words: &str,
    measures: bool,
    answer: &mut Answer,
) -> Result<(), Memory> {
    let words = texts_of(words, answer);
    if is_serve(&words) {
        answer.line("no run");
        return Ok(());
    }
    let mut files = table.files()?;
    let mut link = table.link(ROOM)?;
    let mut err = MemLink::new(answer.alloc(), &[], &[], &[], &[], ROOM)?;
    let status = run(answer.alloc(), &words, &mut files, &mut link, &mut err);
    tell_written(link.written(), measures, answer);
    answer.lines(err.written());
    answer.told(format_args!("status {}", status.code));
    Ok(())
}

fn tell_written(written: &[u8], measures: bool, answer: &mut Answer) {
    if measures {
        answer.told(format_args!("{} bytes", written.len()));
    } else {
        answer.lines(written);
    }
}

/// The texts that the words between spaces stand for.
pub(crate) fn texts_of(words: &str, answer: &mut Answer) -> Vec<Txt> {
    let mut texts = Vec::new(answer.alloc());
    for word in words.split_whitespace() {
        let done = push_text(word, &mut texts, answer);
        answer.note(done);
    }
    texts
}

fn push_text(word: &str, texts: &mut Vec<Txt>, answer: &mut Answer) -> Result<(), Memory> {
    Ok(texts.push(answer.text_of(word)?)?)
}
