//! What came of a server, in a text that no schedule changes.

use crate::replay::{Played, played_again};
use case_desk::Answer;
use fs_machine::{Act, Entry};
use fs_ports::{MemDialer, MemLink};
use fs_text::Memory;
use fs_top::{Conn, Served};
use std::alloc::Global;

/// How much is told.
#[derive(Clone, Copy, Debug, PartialEq, Eq)]
pub(crate) enum How {
    /// The bytes that were written to each link.
    Whole,
    /// How each connection ended.
    Short,
    /// How many connections there were.
    Number,
    /// How many halts the journal has, and between which moments its entries stand.
    Journal,
}

impl How {
    /// How much a word asks for, if it asks for a server.
    pub(crate) fn asked_by(verb: &str) -> Option<How> {
        match verb {
            "serve" => Some(How::Whole),
            "served" => Some(How::Short),
            "count" => Some(How::Number),
            "journal" => Some(How::Journal),
            _ => None,
        }
    }
}

/// Tells of each connection how it ended and what was written to it, in order of these texts, or what else is asked
/// for; and whether what was written to each is a front of what its frames are, played again by the journal.
pub(crate) fn tell_served(
    served: &Served<MemLink, MemDialer>,
    file: &[u8],
    how: How,
    answer: &mut Answer,
) -> Result<(), Memory> {
    let alloc = answer.alloc();
    match how {
        How::Whole | How::Short => tell_conns(&served.conns, how, answer)?,
        How::Number => answer.told(format_args!("{} connections", served.conns.len())),
        How::Journal => tell_journal(served.journal.entries(), answer),
    }
    match played_again(alloc, file, &served.journal, &served.conns)? {
        Played::AsTold => {}
        Played::Otherwise => answer.line("not as the journal has it"),
    }
    Ok(())
}

fn tell_conns(conns: &[Conn<MemLink>], how: How, answer: &mut Answer) -> Result<(), Memory> {
    let alloc = answer.alloc();
    let mut texts = Vec::new(alloc);
    for conn in conns {
        texts.push(text_of(conn, how, alloc)?)?;
    }
    texts.sort()?;
    for text in &texts {
        answer.lines(text);
    }
    Ok(())
}

// How a connection ended, and what was written to it.
fn text_of(conn: &Conn<MemLink>, how: How, alloc: Global) -> Result<Vec<u8>, Memory> {
    let end = format!(in alloc; "{:?}\n", conn.end)?;
    let mut text = Vec::from_slice(alloc, end.as_bytes())?;
    if how == How::Whole {
        text.extend_from_slice(conn.link.written())?;
    }
    Ok(text)
}

// Tells how many halts there are among entries, and their least and their greatest moment.
fn tell_journal(entries: &[Entry], answer: &mut Answer) {
    let mut halts: u64 = 0;
    let mut least = u64::MAX;
    let mut greatest: u64 = 0;
    for entry in entries {
        if let Act::Halt = &entry.act {
            halts = halts.saturating_add(1);
        }
        least = least.min(entry.moment);
        greatest = greatest.max(entry.moment);
    }
    if entries.is_empty() {
        answer.line("no entries");
    } else {
        answer.told(format_args!("halts {halts}, moments {least} to {greatest}"));
    }
}
