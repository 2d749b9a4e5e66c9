//! When channels and jobs have something to do by themselves.

ghost use Rattle.std.specs.Prelude.{◌≡◌, Some};
ghost use Rattle.std.specs.Option.{option_copied};
ghost use Rattle.fs_chan.specs.Work as chan;
ghost use Rattle.fs_seats.specs.Seats.{held_in};
ghost use Rattle.fs_seats.specs.Least as least;
ghost use Rattle.fs_state.specs.Switch.{chan_at, orig_of};
ghost use Rattle.fs_machine.specs.Due as spec;
ghost use Rattle.fs_machine.specs.Loading as loading;

use fs_chan::{Chan, Due};
use fs_seats::Numbered;
use fs_state::{Job, JobWork, Seen};
use fs_text::Txt;

/// Who has something to do by itself.
#[derive(Clone, Copy, Debug, PartialEq, Eq)]
pub enum DueActor {
    /// The channel in this slot.
    Slot(u16),
    /// The channel in this slot, which waits until a controller was dialed.
    Dial(u16),
    /// The job of this number.
    Job(u64),
    /// The job of this number, which waits until a load is noted.
    Load(u64),
    /// Nobody before this moment, in microseconds.
    Later(u64),
    /// Nobody, unless others bring something.
    Never,
}

// ---- one channel, one job

/// When the channel in a slot has something to do.
pub(crate) fn slot_due(seen: &Seen<'_>, slot: u16) -> Option<Due>
    ensures { result ≡ spec.slot_due slot seen.now }
{
    chan_due(seen, seen.chan(slot)?)
}

// When a channel has something to do.
fn chan_due(seen: &Seen<'_>, chan: &Chan) -> Option<Due>
    ensures { result ≡ spec.chan_due seen.now (Some chan.now) }
{
    match (chan.awaited(), chan.wanted_queue()) {
        (Some(orig), _) => orig_due(seen, orig),
        (None, Some(name)) => caller_due(seen, name),
        (None, None) => chan.due(seen.moment()),
    }
}

// When a channel has something to do that waits for a caller in the queue of a name.
fn caller_due(seen: &Seen<'_>, name: &Txt) -> Option<Due>
    ensures { result ≡ spec.caller_due seen.now name.now }
{
    if seen.has_caller(name.as_bytes()) {
        Some(Due::Now)
    } else {
        None
    }
}

/// When the job of a number has something to do.
pub(crate) fn job_due(seen: &Seen<'_>, number: u64) -> Option<Due>
    ensures { result ≡ spec.job_due number seen.now }
{
    work_due(seen, &seen.job(number)?.work)
}

// When a job of this work has something to do.
fn work_due(seen: &Seen<'_>, work: &JobWork) -> Option<Due>
    ensures { result ≡ spec.work_due seen.now work.now }
{
    match work {
        JobWork::Run => Some(Due::Now),
        JobWork::Sleep { until } => Some(due_at(seen.moment(), *until)),
        JobWork::Originate { orig, .. } => orig_due(seen, *orig),
        JobWork::Load => Some(Due::Now),
    }
}

// When there is something to do about the origination of a number.
fn orig_due(seen: &Seen<'_>, number: u64) -> Option<Due>
    ensures { result ≡ spec.orig_due seen.now.moment (orig_of seen.now number) }
{
    let orig = seen.orig(number)?;
    let now = seen.moment();
    Some(due_at(now, orig.due(now)))
}

// At once, or from a moment on.
fn due_at(now: u64, until: u64) -> Due
    ensures { result ≡ chan.due_at now until }
{
    if until <= now {
        Due::Now
    } else {
        Due::At(until)
    }
}

// ---- all of them

/// The least slot, or else the least job, that has something to do, or the next moment at which one has.
pub(crate) fn due_among_all(seen: &Seen<'_>) -> DueActor
    ensures { result ≡ spec.due_among_all seen.now }
{
    if let Some(slot) = due_slot(seen) {
        return turn_of(seen, slot);
    }
    if let Some(job) = due_job(seen) {
        return turn_of_job(seen, job);
    }
    later_or_never(lesser(first_chan_moment(seen), first_job_moment(seen)))
}

/// The same of jobs alone.
pub(crate) fn due_among_jobs(seen: &Seen<'_>) -> DueActor
    ensures { result ≡ spec.due_among_jobs seen.now }
{
    match due_job(seen) {
        Some(job) => turn_of_job(seen, job),
        None => later_or_never(first_job_moment(seen)),
    }
}

/// The same of one slot alone.
pub(crate) fn due_in_slot(seen: &Seen<'_>, slot: u16) -> DueActor
    ensures { result ≡ spec.due_in_slot slot seen.now }
{
    if dials(seen, slot) {
        return DueActor::Dial(slot);
    }
    match slot_due(seen, slot) {
        None => DueActor::Never,
        Some(Due::Now) => DueActor::Slot(slot),
        Some(Due::At(moment)) => DueActor::Later(moment),
    }
}

// The least slot that has something to do.
#[tactic(auto, using(fs_seats::proofs::SeatLemmas::filled_rules))]
fn due_slot(seen: &Seen<'_>) -> Option<u16>
    ensures { result ≡ spec.due_slot seen.now }
{
    for slot in 0..seen.filled_slots() {
        if is_due(seen, slot) {
            return Some(slot);
        }
    }
    None
}

/// Whether the channel in a slot has something to do at once, or waits until a controller was dialed.
pub(crate) fn is_due(seen: &Seen<'_>, slot: u16) -> bool
    ensures { result ≡ spec.is_due seen.now (chan_at seen.now slot) }
{
    match seen.chan(slot) {
        Some(chan) => is_now(chan_due(seen, chan)) || chan.dial_text().is_some(),
        None => false,
    }
}

// The channel in a slot has something to do, or waits until a controller was dialed.
fn turn_of(seen: &Seen<'_>, slot: u16) -> DueActor
    ensures { result ≡ spec.turn_of seen.now slot }
{
    if dials(seen, slot) {
        DueActor::Dial(slot)
    } else {
        DueActor::Slot(slot)
    }
}

/// Whether the channel in a slot waits until a controller was dialed.
pub(crate) fn dials(seen: &Seen<'_>, slot: u16) -> bool
    ensures { result ≡ spec.dials (chan_at seen.now slot) }
{
    match seen.chan(slot) {
        Some(chan) => chan.dial_text().is_some(),
        None => false,
    }
}

// The job of a number has something to do, or waits for a load.
fn turn_of_job(seen: &Seen<'_>, number: u64) -> DueActor
    ensures { result ≡ spec.turn_of_job seen.now number }
{
    if waits_for_load(seen, number) {
        DueActor::Load(number)
    } else {
        DueActor::Job(number)
    }
}

/// Whether the job of a number is there, and waits for a load.
pub(crate) fn waits_for_load(seen: &Seen<'_>, number: u64) -> bool
    ensures { result ≡ loading.waits_for_load number seen.now }
{
    match seen.job(number) {
        Some(job) => is_loading(&job.work),
        None => false,
    }
}

/// Whether a job of this work waits for a load.
pub(crate) fn is_loading(work: &JobWork) -> bool
    ensures { result ≡ loading.is_loading work.now }
{
    matches!(work, JobWork::Load)
}

/// The least number of a job that has something to do.
#[tactic(auto, using(fs_seats::proofs::LeastLemmas::least_next, fs_seats::proofs::LeastLemmas::least_empty))]
pub(crate) fn due_job(seen: &Seen<'_>) -> Option<u64>
    ensures { result ≡ spec.due_job seen.now }
{
    let mut least = None;
    for seat in 0..seen.filled_jobs() {
        least = lesser(least, due_number(seen, seat));
    }
    least
}

// The first moment at which a channel will have something to do.
#[tactic(auto, using(fs_seats::proofs::LeastLemmas::least_next, fs_seats::proofs::LeastLemmas::least_empty))]
fn first_chan_moment(seen: &Seen<'_>) -> Option<u64>
    ensures { result ≡ spec.first_chan_moment seen.now }
{
    let mut first = None;
    for slot in 0..seen.filled_slots() {
        first = lesser(first, later_of(slot_due(seen, slot)));
    }
    first
}

// The first moment at which a job will have something to do.
#[tactic(auto, using(fs_seats::proofs::LeastLemmas::least_next, fs_seats::proofs::LeastLemmas::least_empty))]
fn first_job_moment(seen: &Seen<'_>) -> Option<u64>
    ensures { result ≡ spec.first_job_moment seen.now }
{
    let mut first = None;
    for seat in 0..seen.filled_jobs() {
        first = lesser(first, later_of(row_due(seen, seen.job_at(seat))));
    }
    first
}

// The number of the job at a seat of the table, where it has something to do.
fn due_number(seen: &Seen<'_>, seat: usize) -> Option<u64>
    ensures { result ≡ spec.due_number seen.now (held_in seen.now.jobs seat) }
{
    let row = seen.job_at(seat)?;
    if is_now(row_due(seen, Some(row))) {
        Some(row.number)
    } else {
        None
    }
}

// When a job of the table has something to do.
fn row_due(seen: &Seen<'_>, row: Option<&Numbered<Job>>) -> Option<Due>
    ensures { result ≡ spec.row_due seen.now (option_copied row.entry) }
{
    work_due(seen, &row?.held.work)
}

// Whether it is at once.
fn is_now(due: Option<Due>) -> bool
    ensures { result ≡ spec.is_now due }
{
    matches!(due, Some(Due::Now))
}

// The moment of what is still to come.
fn later_of(due: Option<Due>) -> Option<u64>
    ensures { result ≡ spec.later_of due }
{
    match due {
        Some(Due::At(moment)) => Some(moment),
        _ => None,
    }
}

// The lesser of two numbers, where they are there.
fn lesser(one: Option<u64>, other: Option<u64>) -> Option<u64>
    ensures { result ≡ least.lesser one other }
{
    match (one, other) {
        (Some(n), Some(m)) => Some(n.min(m)),
        (Some(n), None) => Some(n),
        (None, other) => other,
    }
}

fn later_or_never(moment: Option<u64>) -> DueActor
    ensures { result ≡ spec.later_or_never moment }
{
    match moment {
        Some(moment) => DueActor::Later(moment),
        None => DueActor::Never,
    }
}
