//! What jobs do: a command is run, a sleep that is over is answered, and an origination is judged.
ghost use Rattle.std.specs.Prelude.{◌≡◌, IfOk};
ghost use Rattle.fs_api.specs.Readings.{api_of};
ghost use Rattle.fs_state.specs.Drafts.{drafted, Brings};
ghost use Rattle.fs_state.specs.declared.job.JobWork.TheVariants.{Run};
ghost use Rattle.fs_machine.specs.declared.owing.Giver.TheVariants as giver;
ghost use Rattle.fs_machine.specs.Api.{done_by};
ghost use Rattle.fs_machine.specs.Done.{ComesTo};
ghost use Rattle.fs_machine.specs.Jobs as spec;

use crate::api::run_api;
use crate::attempts::{Attempt, Party, judge_attempt};
use crate::owing::{Giver, end_job, tell_answer};
use fs_api::Api;
use fs_state::{Asker, Background, Draft, JobWork};
use fs_text::{Memory, Txt};

/// Does what a job has to do.
#[tactic(auto, unfolding(crate::specs::Jobs::job_done))]
pub(crate) fn do_job(draft: &mut Draft<'_>, number: u64) -> Result<(), Memory>
    ensures { Brings result draft.old draft.new (spec.job_done number (drafted draft.old)) }
{
    let Some(job) = draft.job(number) else {
        return Ok(());
    };
    let asker = job.asker.copy()?;
    let work = job.work.copy()?;
    do_work(draft, number, asker, work)
}

// Does what a job is there for.
#[tactic(auto, unfolding(crate::specs::Texts::ok))]
fn do_work(draft: &mut Draft<'_>, number: u64, asker: Asker, work: JobWork) -> Result<(), Memory>
    ensures { Brings result draft.old draft.new (spec.after_job_work work number asker (drafted draft.old)) }
{
    match work {
        JobWork::Run => run(draft, number, asker),
        JobWork::Sleep { .. } => end_job(draft, number, &asker, b"+OK\n"),
        JobWork::Originate {
            orig,
            winner,
            caller,
        } => {
            let party = Party::Job {
                job: number,
                asker,
                winner,
                caller,
            };
            judge_attempt(draft, &Attempt { orig, party })
        }
        JobWork::Load => Ok(()),
    }
}

// Runs the command of a job; a job for a connection has none.
fn run(draft: &mut Draft<'_>, number: u64, asker: Asker) -> Result<(), Memory>
    ensures { Brings result draft.old draft.new (spec.after_job_work Run number asker (drafted draft.old)) }
{
    match asker {
        Asker::Conn { .. } => Ok(()),
        Asker::Background(job) => run_command(draft, number, job),
    }
}

// Runs the command of a job in the background, and tells its answer, unless the job goes on.
fn run_command(draft: &mut Draft<'_>, number: u64, job: Background) -> Result<(), Memory>
    ensures { Brings result draft.old draft.new (spec.command_run number job (drafted draft.old)) }
{
    draft.drop_job(number)?;
    let answer = run_taken_out(draft, number, &job)?;
    tell_if(draft, job, answer)
}

// Runs the command of a job in the background that was taken out.
fn run_taken_out(
    draft: &mut Draft<'_>,
    number: u64,
    job: &Background,
) -> Result<Option<Txt>, Memory>
    ensures base { draft.new.base ≡ draft.old.base }
    ensures done { IfOk result
        (ComesTo (done_by (giver.Job number job.now) (api_of job.now.command) (drafted draft.old))
        (drafted draft.new)) }
{
    let api = Api::of(draft.alloc(), job.command.as_bytes())?;
    let giver = Giver::Job {
        number,
        job: job.copy()?,
    };
    run_api(draft, &giver, &api)
}

// Tells the answer of a job in the background, if it is there.
fn tell_if(draft: &mut Draft<'_>, job: Background, answer: Option<Txt>) -> Result<(), Memory>
    ensures { Brings result draft.old draft.new (spec.told_if job answer (drafted draft.old)) }
{
    match answer {
        Some(answer) => tell_answer(draft, job, answer),
        None => Ok(()),
    }
}
