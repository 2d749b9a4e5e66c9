//! Which acts are refused.

ghost use Rattle.std.specs.Prelude.{◌≡◌};
ghost use Rattle.fs_machine.specs.declared.entry.Act.TheVariants as act;
ghost use Rattle.fs_machine.specs.Connections as connections;
ghost use Rattle.fs_machine.specs.Questions as questions;
ghost use Rattle.fs_machine.specs.Step as spec;

use crate::connections::phase_of;
use crate::due::{dials, job_due, slot_due, waits_for_load};
use crate::entry::{Act, Closing};
use crate::refusal::Refusal;
use fs_chan::Due;
use fs_state::{Phase, Seen};

/// Why an act is refused, if it is, where the journal is not full.
pub(crate) fn refused_act(seen: &Seen<'_>, act: &Act) -> Option<Refusal>
    ensures { result ≡ spec.refused_act act.now seen.now }
{
    match act {
        Act::Arrive => refused_arrival(seen),
        Act::Command { conn, .. } => refused_command(seen, *conn),
        Act::Take { conn } => refused_take(seen, *conn),
        Act::Close { conn, how } => refused_close(seen, *conn, *how),
        Act::Dialed { slot, .. } => refused_dial(seen, *slot),
        Act::Work { slot } => not_due(slot_due(seen, *slot)),
        Act::Job { job } => refused_job(seen, *job),
        Act::Loaded { job, .. } => refused_load(seen, *job),
        Act::Halt => refused_halt(seen),
    }
}

fn refused_arrival(seen: &Seen<'_>) -> Option<Refusal>
    ensures { result ≡ spec.refused_act act.Arrive seen.now }
{
    if seen.is_stopping() {
        return Some(Refusal::Gone);
    }
    if seen.is_full_of_conns() {
        let live = seen.conn_seats().min(usize::from(u16::MAX)) as u16;
        return Some(Refusal::TooMany { live });
    }
    None
}

fn refused_halt(seen: &Seen<'_>) -> Option<Refusal>
    ensures { result ≡ spec.refused_act act.Halt seen.now }
{
    if seen.is_stopping() {
        return Some(Refusal::Gone);
    }
    None
}

fn refused_command(seen: &Seen<'_>, conn: u32) -> Option<Refusal>
    ensures { result ≡ spec.refused_command conn seen.now }
{
    if !reads(phase_seen(seen, conn)) {
        return Some(Refusal::Gone);
    }
    let since = owed_since(seen, conn)?;
    Some(Refusal::Busy { since })
}

fn refused_take(seen: &Seen<'_>, conn: u32) -> Option<Refusal>
    ensures { result ≡ spec.refused_act (act.Take conn) seen.now }
{
    if phase_seen(seen, conn) == Phase::Closed {
        return Some(Refusal::Gone);
    }
    if seen.waiting(conn) == 0 {
        return Some(Refusal::Empty);
    }
    None
}

fn refused_close(seen: &Seen<'_>, conn: u32, how: Closing) -> Option<Refusal>
    ensures { result ≡ spec.refused_close conn how seen.now }
{
    let phase = phase_seen(seen, conn);
    match how {
        Closing::EndOfInput if reads(phase) => None,
        Closing::EndOfInput => Some(Refusal::Gone),
        Closing::Sent | Closing::Failed if phase == Phase::Closed => Some(Refusal::Gone),
        Closing::Failed => None,
        Closing::Sent => unsent(seen, conn),
    }
}

fn refused_dial(seen: &Seen<'_>, slot: u16) -> Option<Refusal>
    ensures { result ≡ spec.refused_dial slot seen.now }
{
    if dials(seen, slot) {
        return None;
    }
    Some(Refusal::NotDue { next: None })
}

fn refused_job(seen: &Seen<'_>, job: u64) -> Option<Refusal>
    ensures { result ≡ spec.refused_job job seen.now }
{
    if waits_for_load(seen, job) {
        return Some(Refusal::NotDue { next: None });
    }
    not_due(job_due(seen, job))
}

/// Why no load can be noted for the job of a number, if none can, where the journal has room for one.
pub(crate) fn refused_load(seen: &Seen<'_>, job: u64) -> Option<Refusal>
    ensures { result ≡ spec.refused_load job seen.now }
{
    if waits_for_load(seen, job) {
        return None;
    }
    Some(Refusal::NotDue { next: None })
}

// That a connection is still to be sent something, or may give commands, if so.
fn unsent(seen: &Seen<'_>, conn: u32) -> Option<Refusal>
    ensures { result ≡ spec.refused_unsent conn seen.now }
{
    let queued = seen.waiting(conn) as u64;
    let owed = owed_since(seen, conn).is_some();
    if phase_seen(seen, conn) == Phase::Ending && queued == 0 && !owed {
        return None;
    }
    Some(Refusal::Unsent { queued, owed })
}

// Where the connection of a number stands.
fn phase_seen(seen: &Seen<'_>, conn: u32) -> Phase
    ensures { result ≡ connections.phase_at seen.now conn }
{
    phase_of(seen.conn(conn))
}

// The place of the command to which a connection is still owed the reply.
fn owed_since(seen: &Seen<'_>, conn: u32) -> Option<u64>
    ensures { result ≡ questions.owed_to seen.now conn }
{
    seen.conn(conn)?.owed
}

// That there is nothing to do yet, if so.
fn not_due(due: Option<Due>) -> Option<Refusal>
    ensures { result ≡ spec.not_due due }
{
    match due {
        None => Some(Refusal::NotDue { next: None }),
        Some(Due::Now) => None,
        Some(Due::At(moment)) => Some(Refusal::NotDue { next: Some(moment) }),
    }
}

/// Whether a connection in this phase reads commands.
pub(crate) fn reads(phase: Phase) -> bool
    ensures { result ≡ spec.reads phase }
{
    matches!(phase, Phase::Fresh | Phase::Ready)
}
