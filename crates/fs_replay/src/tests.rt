//! The text of a journal that was worked out by hand, and bytes that are none.

use crate::{JournalFault, read_journal, write_journal};
use fs_machine::{Act, Entry, Journal};
use fs_text::{Memory, Txt};
use std::alloc::Global;
use std::test::Fail;

const TEXT: &str = "fsw journal 1\nA 0\nT 0 1\nC 0 1 14\nauth ClueCon\n\n\nT 0 1\nZ 4\n";

const LOADS: &str =
    "fsw journal 1\nL 7 1 ready 1\na\nL 7 2 doc 0\n\nL 7 3 pattern 4 1 1\nx\nL 7 4 large 9 2 1\ny\nL 8 5 absent\nZ 5\n";

/// Bytes, and where they are bad.
const BAD: [(&str, u64); 9] = [
    (
        "fsw journal 1\nA 0\nT 0 1\nC 0 1 14\nauth ClueCon\n\n\nT 0 1\n",
        54,
    ),
    ("fsw journal 1\nA 0\nZ 2\n", 18),
    ("fsw journal 1\nA 0\nT 00 1\nZ 2\n", 18),
    ("fsw journal 1\nA 0\nZ 1\nx", 22),
    ("fsw journal 1\nC 0 1 14\nauth", 27),
    ("fsw journal 2\nZ 0\n", 0),
    ("fsw journal 1\nL 0 1 doc 9\n<doc\nume", 34),
    ("fsw journal 1\nL 0 1 pattern 1 4294967296 1\nx\nZ 1\n", 14),
    ("fsw journal 1\nL 0 1 gone\nZ 1\n", 14),
];

fn entries(alloc: Global) -> Result<Journal, Memory> {
    let block = Txt::of(alloc, b"auth ClueCon\n\n")?;
    let mut journal = Journal::new(alloc);
    journal.push(entry(Act::Arrive))?;
    journal.push(entry(Act::Take { conn: 1 }))?;
    journal.push(entry(Act::Command { conn: 1, block }))?;
    journal.push(entry(Act::Take { conn: 1 }))?;
    Ok(journal)
}

fn entry(act: Act) -> Entry {
    Entry { moment: 0, act }
}

#[test]
fn journal_is_written(rt: HostRuntime) -> Result<(), Fail> {
    let text = write_journal(rt.alloc(), &entries(rt.alloc())?)?;
    assert_eq!(rt; text.as_bytes(), TEXT.as_bytes());
    Ok(())
}

#[test]
fn journal_is_read_back(rt: HostRuntime) -> Result<(), Fail> {
    let journal = read_journal(rt.alloc(), TEXT.as_bytes())?;
    assert_eq!(rt; journal.entries().len(), 4);
    let text = write_journal(rt.alloc(), &journal)?;
    assert_eq!(rt; text.as_bytes(), TEXT.as_bytes());
    Ok(())
}

#[test]
fn loads_are_read_back(rt: HostRuntime) -> Result<(), Fail> {
    let journal = read_journal(rt.alloc(), LOADS.as_bytes())?;
    assert_eq!(rt; journal.entries().len(), 5);
    let text = write_journal(rt.alloc(), &journal)?;
    assert_eq!(rt; text.as_bytes(), LOADS.as_bytes());
    Ok(())
}

#[test]
fn bad_lines_are_told(rt: HostRuntime) -> Result<(), Fail> {
    for (text, at) in BAD {
        let fault = read_journal(rt.alloc(), text.as_bytes()).err();
        assert_eq!(rt; fault, Some(JournalFault::BadLine { at }), "{text}");
    }
    Ok(())
}
