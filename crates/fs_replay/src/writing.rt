//! How a journal is written.

ghost use Rattle.std.specs.Prelude.{◌≡◌, ◌++◌, codes, length, IfOk, OnOk};
ghost use Rattle.fs_replay.specs.Texts as texts;

use fs_machine::{Act, Closing, Entry, Journal, LoadNote};
use fs_text::{Memory, Txt};
use itoa::Buffer;
use std::alloc::Global;

/// The text of a journal.
pub fn write_journal(alloc: Global, journal: &Journal) -> Result<Txt, Memory>
    ensures { IfOk result (λ text. text ≡ texts.journal_text journal.now.entries) }
{
    let entries = journal.entries();
    let mut out = Vec::from_slice(alloc, b"fsw journal 1\n")?;
    push_entries(&mut out, entries)?;
    out.push(b'Z')?;
    push_last(&mut out, entries.len() as u64)?;
    Txt::from_vec(out)
}

/// Writes the lines of entries.
fn push_entries(out: &mut Vec<u8>, entries: &[Entry]) -> Result<(), Memory>
    ensures { OnOk result (out.new.items ≡ out.old.items ++ texts.entries_text entries.now) }
{
    for entry in entries {
        push_entry(out, entry)?;
    }
    Ok(())
}

/// Writes the line of an entry.
fn push_entry(out: &mut Vec<u8>, entry: &Entry) -> Result<(), Memory>
    ensures { OnOk result (out.new.items ≡ out.old.items ++ texts.entry_text entry.now) }
{
    out.push(letter_of(&entry.act))?;
    push_field(out, entry.moment)?;
    push_act(out, &entry.act)
}

/// The letter of an act.
fn letter_of(act: &Act) -> u8
    ensures { result ≡ texts.letter_of act.now }
{
    match act {
        Act::Arrive => b'A',
        Act::Halt => b'H',
        Act::Command { .. } => b'C',
        Act::Take { .. } => b'T',
        Act::Close { .. } => b'X',
        Act::Dialed { .. } => b'D',
        Act::Work { .. } => b'W',
        Act::Job { .. } => b'J',
        Act::Loaded { .. } => b'L',
    }
}

/// Writes what stands behind the moment.
fn push_act(out: &mut Vec<u8>, act: &Act) -> Result<(), Memory>
    ensures { OnOk result (out.new.items ≡ out.old.items ++ texts.act_text act.now) }
{
    match act {
        Act::Arrive => push(out, b"\n"),
        Act::Halt => push(out, b"\n"),
        Act::Command { conn, block } => push_command(out, *conn, block.as_bytes()),
        Act::Take { conn } => push_last(out, *conn as u64),
        Act::Close { conn, how } => push_close(out, *conn, *how),
        Act::Dialed { slot, linked } => push_dialed(out, *slot, *linked),
        Act::Work { slot } => push_last(out, *slot as u64),
        Act::Job { job } => push_last(out, *job),
        Act::Loaded { job, note } => push_loaded(out, *job, note),
    }
}

/// Writes what a command says: its connection, the length of its block, and the block.
fn push_command(out: &mut Vec<u8>, conn: u32, block: &[u8]) -> Result<(), Memory>
    ensures { OnOk result (out.new.items ≡ out.old.items ++ (texts.field conn ++ texts.block_text block.now)) }
{
    push_field(out, conn as u64)?;
    push_block(out, block)
}

/// Writes which job a load was for, and what is noted of it.
fn push_loaded(out: &mut Vec<u8>, job: u64, note: &LoadNote) -> Result<(), Memory>
    ensures { OnOk result
        (out.new.items ≡ out.old.items ++ (texts.field job ++ texts.note_words note.now ++ texts.note_block note.now)) }
{
    push_field(out, job)?;
    push_note(out, note)
}

/// Writes what is noted of a load, and the text that was loaded.
fn push_note(out: &mut Vec<u8>, note: &LoadNote) -> Result<(), Memory>
    ensures { OnOk result (out.new.items ≡ out.old.items ++ (texts.note_words note.now ++ texts.note_block note.now)) }
{
    match note {
        LoadNote::Ready(text) => push_text(out, b" ready", text),
        LoadNote::DocRefused(text) => push_text(out, b" doc", text),
        LoadNote::PatternRefused {
            text,
            extension,
            condition,
        } => push_pattern(out, b" pattern", *extension, *condition, text),
        LoadNote::PatternTooLarge {
            text,
            extension,
            condition,
        } => push_pattern(out, b" large", *extension, *condition, text),
        LoadNote::Absent => push(out, b" absent\n"),
        LoadNote::Failed => push(out, b" failed\n"),
    }
}

/// Writes a word, and a text that was loaded.
fn push_text(out: &mut Vec<u8>, word: &[u8], text: &Txt) -> Result<(), Memory>
    ensures { OnOk result (out.new.items ≡ out.old.items ++ (word.now ++ texts.block_text text.now)) }
{
    push(out, word)?;
    push_block(out, text.as_bytes())
}

/// Writes a word, which pattern was refused, and the text that was loaded.
fn push_pattern(
    out: &mut Vec<u8>,
    word: &[u8],
    extension: u32,
    condition: u32,
    text: &Txt,
) -> Result<(), Memory>
    ensures { OnOk result (out.new.items ≡ out.old.items
        ++ ((word.now ++ texts.field extension ++ texts.field condition) ++ texts.block_text text.now)) }
{
    push(out, word)?;
    push_field(out, extension as u64)?;
    push_field(out, condition as u64)?;
    push_block(out, text.as_bytes())
}

/// Writes the length of some bytes, and the bytes.
fn push_block(out: &mut Vec<u8>, block: &[u8]) -> Result<(), Memory>
    ensures { OnOk result (out.new.items ≡ out.old.items ++ texts.block_text block.now) }
{
    push_last(out, block.len() as u64)?;
    push(out, block)?;
    push(out, b"\n")
}

/// Writes which connection comes to its end, and how.
fn push_close(out: &mut Vec<u8>, conn: u32, how: Closing) -> Result<(), Memory>
    ensures { OnOk result (out.new.items ≡ out.old.items ++ (texts.field conn ++ texts.closing_text how)) }
{
    push_field(out, conn as u64)?;
    push(out, closing_text(how))
}

/// The word for how a connection comes to its end.
fn closing_text(how: Closing) -> &'static [u8]
    ensures { result.now ≡ texts.closing_text how }
{
    match how {
        Closing::EndOfInput => b" in\n",
        Closing::Sent => b" sent\n",
        Closing::Failed => b" failed\n",
    }
}

/// Writes in which slot a channel waited for a controller, and whether there is a link.
fn push_dialed(out: &mut Vec<u8>, slot: u16, linked: bool) -> Result<(), Memory>
    ensures { OnOk result (out.new.items ≡ out.old.items ++ (texts.field slot ++ texts.linked_text linked)) }
{
    push_field(out, slot as u64)?;
    push(out, if linked { b" 1\n" } else { b" 0\n" })
}

/// Writes the last number of a line.
fn push_last(out: &mut Vec<u8>, number: u64) -> Result<(), Memory>
    ensures { OnOk result (out.new.items ≡ out.old.items ++ (texts.field number ++ codes "\n")) }
{
    push_field(out, number)?;
    push(out, b"\n")
}

/// Writes a number, with the space in front of it.
fn push_field(out: &mut Vec<u8>, number: u64) -> Result<(), Memory>
    ensures { OnOk result (out.new.items ≡ out.old.items ++ texts.field number) }
{
    let mut digits = Buffer::new();
    out.push(b' ')?;
    push(out, digits.format(number).as_bytes())
}

/// Writes bytes.
fn push(out: &mut Vec<u8>, bytes: &[u8]) -> Result<(), Memory>
    ensures { OnOk result (out.new.items ≡ out.old.items ++ bytes.now) }
{
    out.extend_from_slice(bytes)?;
    Ok(())
}
