//! How a journal is read.

ghost use Rattle.std.specs.Prelude.{◌≡◌, ◌≤◌, ◌++◌, codes, true, length, List, IfOk, IfErr, OnOk};
ghost use Rattle.fs_machine.specs.declared.entry.Entry.{Entry};
ghost use Rattle.fs_replay.specs.declared.fault.JournalFault.TheVariants as fault;
ghost use Rattle.fs_replay.specs.Bounds.{AreFit};
ghost use Rattle.fs_replay.specs.Faults as faults;
ghost use Rattle.fs_replay.specs.Reading.{begins};
ghost use Rattle.fs_replay.specs.Texts.{first_line, journal_text};

use crate::fault::{Fault, JournalFault};
use crate::reader::Reader;
use fs_machine::Journal;
use fs_text::offset_of;
use std::alloc::Global;

/// The journal whose text the bytes are.
pub fn read_journal(alloc: Global, bytes: &[u8]) -> Result<Journal, JournalFault>
    ensures ok { IfOk result (λ journal. bytes.now ≡ journal_text journal.entries) }
    ensures bad { IfErr result (faults.Blames bytes.now) }
    ensures only { (entries : List Entry) → AreFit entries → bytes.now ≡ journal_text entries
        → faults.OnlyReads entries result }
{
    let mut reader = Reader::of(bytes);
    if !reader.word(b"fsw journal 1\n") {
        return Err(bad_line(bytes, bytes));
    }
    let journal = read_entries(alloc, bytes, &mut reader)?;
    read_last(bytes, &mut reader, &journal)?;
    Ok(journal)
}

/// Reads the lines of entries, up to one that begins as the last line does.
fn read_entries(
    alloc: Global,
    bytes: &[u8],
    reader: &mut Reader<'_>,
) -> Result<Journal, JournalFault>
    requires { bytes.now ≡ first_line ++ reader.old }
    ensures front { IfOk result (λ journal. faults.IsFront bytes.now journal.entries reader.new) }
    ensures last { OnOk result (begins (codes "Z") reader.new ≡ true) }
    ensures bad { IfErr result (faults.Blames bytes.now) }
{
    let mut journal = Journal::new(alloc);
    while !reader.begins(b"Z") {
        let line = reader.left();
        match reader.entry(alloc) {
            Ok(entry) => journal.push(entry)?,
            Err(Fault::Bad) => return Err(bad_line(bytes, line)),
            Err(Fault::Cut) => return Err(cut_line(bytes)),
            Err(Fault::Memory) => return Err(JournalFault::Memory),
        }
    }
    Ok(journal)
}

/// Reads the last line, behind which nothing may stand.
fn read_last(bytes: &[u8], reader: &mut Reader<'_>, journal: &Journal) -> Result<(), JournalFault>
    requires front { faults.IsFront bytes.now journal.now.entries reader.old }
    requires last { begins (codes "Z") reader.old ≡ true }
    ensures whole { OnOk result (bytes.now ≡ journal_text journal.now.entries) }
    ensures bad { IfErr result (faults.Blames bytes.now) }
{
    let line = reader.left();
    if reader.count() != Some(journal.entries().len() as u64) {
        return Err(bad_line(bytes, line));
    }
    let behind = reader.left();
    if !behind.is_empty() {
        return Err(JournalFault::BadLine {
            at: (bytes.len() - behind.len()) as u64,
        });
    }
    Ok(())
}

/// The fault of a line that is bad: it is at the line, or at the end of the bytes where they end before LF.
fn bad_line(bytes: &[u8], line: &[u8]) -> JournalFault
    requires { length line.now ≤ length bytes.now }
    ensures { result ≡ fault.BadLine (faults.place_of bytes.now line.now) }
{
    let len = bytes.len();
    let found = offset_of(b'\n', line) < line.len();
    let at = if found { len - line.len() } else { len };
    JournalFault::BadLine { at: at as u64 }
}

/// The fault of a line that the bytes end in.
fn cut_line(bytes: &[u8]) -> JournalFault
    ensures { result ≡ fault.BadLine (length bytes.now) }
{
    JournalFault::BadLine {
        at: bytes.len() as u64,
    }
}
