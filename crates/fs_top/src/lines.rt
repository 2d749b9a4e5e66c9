//! The lines on the error output.

ghost use Rattle.std.specs.Prelude.{map};
ghost use Rattle.std.specs.List.{concat};
ghost use Rattle.fs_ports.specs.Ports.{SendDid};
ghost use Rattle.fs_top.specs.Told as spec;
ghost use Rattle.fs_top.specs.Runs.{line_of_outcome};

use crate::outcome::Outcome;
use fs_conn::End;
use fs_doc::DocFault;
use fs_plan::PlanFault;
use fs_ports::{Sent, Sink, send_all};
use itoa::Buffer;

const USAGE: &str =
    "usage: fsw check FILE | hunt FILE CONTEXT DEST | play FILE | load COUNT START | serve FILE\n";

// Prints the line of an outcome, if it has one.
#[tactic(auto, unfolding(crate::specs::Told::usage_line))]
pub(crate) fn say<E: Sink>(err: &mut E, outcome: Outcome<'_>) -> Sent
    ensures { SendDid (E.output err.old) (E.output err.new) result (line_of_outcome outcome.entry) }
{
    match outcome {
        Outcome::Usage => send_all(err, USAGE.as_bytes()),
        Outcome::CannotRead { name } => say_cannot_read(err, name.as_bytes()),
        Outcome::BadDocument(fault) => say_fault(err, fault),
        Outcome::BadPattern(fault) => say_pattern(err, fault),
        Outcome::Printed => send_all(err, b""),
        Outcome::Ended(end) => say_end(err, end),
    }
}

// Prints the line of an end, if it has one.
#[tactic(auto, unfolding(crate::specs::Told::read_fault_line, crate::specs::Told::write_fault_line))]
fn say_end<E: Sink>(err: &mut E, end: End) -> Sent
    ensures { SendDid (E.output err.old) (E.output err.new) result (spec.line_of_end end) }
{
    match end {
        End::Exit | End::AuthRefused | End::Stopped | End::Eof => send_all(err, b""),
        End::ReadFault => send_all(err, b"fsw: read fault\n"),
        End::TooLong { len } => say_too_long(err, len),
        End::BadLength => say_bad_length(err),
        End::JournalFull { cost, limit } => say_journal_full(err, cost, limit),
        End::Runaway { count } => say_runaway(err, count),
        End::Memory => say_memory(err),
        End::WriteFault => send_all(err, b"fsw: write fault\n"),
    }
}

// Prints that memory is wanting.
#[tactic(auto, unfolding(crate::specs::Told::memory_line))]
fn say_memory<E: Sink>(err: &mut E) -> Sent
    ensures { SendDid (E.output err.old) (E.output err.new) result spec.memory_line }
{
    send_all(err, b"fsw: out of memory\n")
}

// Prints what is wrong with a document, and where.
#[tactic(auto, unfolding(crate::specs::Told::fault_line))]
fn say_fault<E: Sink>(err: &mut E, fault: DocFault) -> Sent
    ensures { SendDid (E.output err.old) (E.output err.new) result (spec.fault_line fault) }
{
    let mut buffer = Buffer::new();
    let at = buffer.format(fault.at).as_bytes();
    let name = fault.kind.name().as_bytes();
    send_parts(err, &[b"fsw: ", name, b" at ", at, b"\n"])
}

// Prints which pattern was refused.
fn say_pattern<E: Sink>(err: &mut E, fault: PlanFault) -> Sent
    ensures { SendDid (E.output err.old) (E.output err.new) result (spec.pattern_line fault) }
{
    match fault {
        PlanFault::PatternRefused {
            extension,
            condition,
        } => say_refused(err, extension, condition),
        PlanFault::PatternTooLarge {
            extension,
            condition,
        } => say_too_large(err, extension, condition),
        PlanFault::Memory => say_memory(err),
    }
}

#[tactic(auto, unfolding(crate::specs::Told::pattern_refused_line))]
fn say_refused<E: Sink>(err: &mut E, extension: u32, condition: u32) -> Sent
    ensures { SendDid (E.output err.old) (E.output err.new) result (spec.pattern_refused_line extension condition) }
{
    let mut first = Buffer::new();
    let mut second = Buffer::new();
    let extension = first.format(extension).as_bytes();
    let condition = second.format(condition).as_bytes();
    send_parts(
        err,
        &[
            b"fsw: pattern refused in extension ",
            extension,
            b" condition ",
            condition,
            b"\n",
        ],
    )
}

#[tactic(auto, unfolding(crate::specs::Told::pattern_too_large_line))]
fn say_too_large<E: Sink>(err: &mut E, extension: u32, condition: u32) -> Sent
    ensures { SendDid (E.output err.old) (E.output err.new) result (spec.pattern_too_large_line extension condition) }
{
    let mut first = Buffer::new();
    let mut second = Buffer::new();
    let extension = first.format(extension).as_bytes();
    let condition = second.format(condition).as_bytes();
    send_parts(
        err,
        &[
            b"fsw: pattern too large in extension ",
            extension,
            b" condition ",
            condition,
            b"\n",
        ],
    )
}

// Prints that the file of this name cannot be read.
#[tactic(auto, unfolding(crate::specs::Told::cannot_read_line))]
fn say_cannot_read<E: Sink>(err: &mut E, name: &[u8]) -> Sent
    ensures { SendDid (E.output err.old) (E.output err.new) result (spec.cannot_read_line name.now) }
{
    send_parts(err, &[b"fsw: cannot read ", name, b"\n"])
}

// Prints that a block is too long: its length, or how many of its bytes were looked at.
#[tactic(auto, unfolding(crate::specs::Told::too_long_line))]
fn say_too_long<E: Sink>(err: &mut E, len: u64) -> Sent
    ensures { SendDid (E.output err.old) (E.output err.new) result (spec.too_long_line len) }
{
    let mut buffer = Buffer::new();
    send_parts(
        err,
        &[
            b"fsw: block too long ",
            buffer.format(len).as_bytes(),
            b"\n",
        ],
    )
}

// Prints that the length of a block is malformed.
#[tactic(auto, unfolding(crate::specs::Told::bad_length_line))]
fn say_bad_length<E: Sink>(err: &mut E) -> Sent
    ensures { SendDid (E.output err.old) (E.output err.new) result spec.bad_length_line }
{
    send_all(err, b"fsw: bad length\n")
}

// Prints that the journal is full at this cost and limit.
#[tactic(auto, unfolding(crate::specs::Told::journal_full_line))]
fn say_journal_full<E: Sink>(err: &mut E, cost: u64, limit: u64) -> Sent
    ensures { SendDid (E.output err.old) (E.output err.new) result (spec.journal_full_line cost limit) }
{
    let mut cost_buffer = Buffer::new();
    let mut limit_buffer = Buffer::new();
    let cost = cost_buffer.format(cost).as_bytes();
    let limit = limit_buffer.format(limit).as_bytes();
    send_parts(err, &[b"fsw: journal full ", cost, b" ", limit, b"\n"])
}

// Prints that so many entries were worked at one moment, and something was still due.
#[tactic(auto, unfolding(crate::specs::Told::runaway_line))]
fn say_runaway<E: Sink>(err: &mut E, count: u64) -> Sent
    ensures { SendDid (E.output err.old) (E.output err.new) result (spec.runaway_line count) }
{
    let mut buffer = Buffer::new();
    send_parts(
        err,
        &[b"fsw: runaway ", buffer.format(count).as_bytes(), b"\n"],
    )
}

// Sends a line in parts, so that it needs no memory.
fn send_parts<E: Sink>(err: &mut E, parts: &[&[u8]]) -> Sent
    ensures { SendDid (E.output err.old) (E.output err.new) result (concat (map (λ part. part.now) parts.now)) }
{
    for part in parts {
        match send_all(err, part) {
            Sent::All => {}
            Sent::Failed => return Sent::Failed,
        }
    }
    Sent::All
}
