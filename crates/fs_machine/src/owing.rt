//! Jobs: they begin behind commands, and end with an answer.
ghost use Rattle.std.specs.Prelude.{◌≡◌, IfOk};
ghost use Rattle.std.specs.Option.{option_copied};
ghost use Rattle.fs_state.specs.Drafts.{drafted, Brings};
ghost use Rattle.fs_state.specs.Switch.{with_event};
ghost use Rattle.fs_machine.specs.Owing as spec;

use crate::connections::{owe, owe_nothing};
use fs_cmd::api_reply;
use fs_state::{Asker, Background, Detail, Draft, Event, Job, JobWork};
use fs_text::{EventName, Memory, Txt};

/// Who gives an api command.
#[derive(Drop)]
pub(crate) enum Giver {
    /// The connection of this number.
    Conn { conn: u32 },
    /// A job in the background, which had this number, and is not among the jobs while it runs its command.
    Job { number: u64, job: Background },
}

// ---- the beginning

/// The number of the job that goes on behind a command.
pub(crate) fn job_number(draft: &Draft<'_>, giver: &Giver) -> u64
    ensures { result ≡ spec.job_number giver.now (drafted draft.now) }
{
    match giver {
        Giver::Conn { .. } => draft.next_job(),
        Giver::Job { number, .. } => *number,
    }
}

/// Lets a job go on behind a command: a new one, until whose end a connection is owed the reply, or the one that gives
/// the command.
pub(crate) fn begin_job(draft: &mut Draft<'_>, giver: &Giver, work: JobWork) -> Result<(), Memory>
    ensures { Brings result draft.old draft.new (spec.after_job_begin giver.now work (drafted draft.old)) }
{
    match giver {
        Giver::Conn { conn } => begin_owing(draft, *conn, work),
        Giver::Job { number, job } => {
            let asker = Asker::Background(job.copy()?);
            draft.put_job(*number, Job { asker, work })
        }
    }
}

// Begins a job, and owes the reply to the command in hand until it ends.
fn begin_owing(draft: &mut Draft<'_>, conn: u32, work: JobWork) -> Result<(), Memory>
    ensures { Brings result draft.old draft.new (spec.after_owing conn work (drafted draft.old)) }
{
    let place = draft.place();
    let asker = Asker::Conn { conn };
    let _number = draft.add_job(Job { asker, work })?;
    owe(draft, conn, place)
}

/// Begins a job in the background, which is to run a command, and gives its identifier: the one that its client gave,
/// or else the next one of the switch.
pub(crate) fn begin_background(
    draft: &mut Draft<'_>,
    given: Option<&[u8]>,
    command: &[u8],
) -> Result<Txt, Memory>
    ensures uuid { IfOk result (λ uuid. uuid ≡ spec.job_uuid (option_copied given.entry) (drafted draft.old)) }
    ensures draft { Brings result draft.old draft.new
        (spec.background_begun (option_copied given.entry) command.now (drafted draft.old)) }
{
    let uuid = draw_uuid(draft, given)?;
    let job = Background {
        uuid: uuid.copy()?,
        command: Txt::of(draft.alloc(), command)?,
    };
    let asker = Asker::Background(job);
    let _number = draft.add_job(Job {
        asker,
        work: JobWork::Run,
    })?;
    Ok(uuid)
}

// The identifier of a job in the background.
fn draw_uuid(draft: &mut Draft<'_>, given: Option<&[u8]>) -> Result<Txt, Memory>
    ensures uuid { IfOk result (λ uuid. uuid ≡ spec.job_uuid (option_copied given.entry) (drafted draft.old)) }
    ensures draft { Brings result draft.old draft.new
        (spec.drawn_for (option_copied given.entry) (drafted draft.old)) }
{
    match given {
        Some(uuid) => Txt::of(draft.alloc(), uuid),
        None => draft.draw_identifier(),
    }
}

// ---- the end

/// Ends a job, and gives its answer.
pub(crate) fn end_job(
    draft: &mut Draft<'_>,
    number: u64,
    asker: &Asker,
    answer: &[u8],
) -> Result<(), Memory>
    ensures { Brings result draft.old draft.new (spec.after_job_end number asker.now answer.now (drafted draft.old)) }
{
    draft.drop_job(number)?;
    match asker {
        Asker::Conn { conn } => give_owed(draft, *conn, answer),
        Asker::Background(job) => {
            let answer = Txt::of(draft.alloc(), answer)?;
            tell_answer(draft, job.copy()?, answer)
        }
    }
}

// Gives a connection the reply that it is owed.
fn give_owed(draft: &mut Draft<'_>, conn: u32, answer: &[u8]) -> Result<(), Memory>
    ensures { Brings result draft.old draft.new (spec.owed_given conn answer.now (drafted draft.old)) }
{
    owe_nothing(draft, conn)?;
    let frame = api_reply(draft.alloc(), answer)?;
    draft.give_late(conn, frame)
}

/// Tells that a job in the background has ended, and its answer.
pub(crate) fn tell_answer(draft: &mut Draft<'_>, job: Background, answer: Txt) -> Result<(), Memory>
    ensures { Brings result draft.old draft.new (with_event (spec.job_event job answer) (drafted draft.old)) }
{
    draft.tell(Event {
        name: EventName::BackgroundJob,
        subject: None,
        detail: Detail::Job(job, answer),
    })
}
