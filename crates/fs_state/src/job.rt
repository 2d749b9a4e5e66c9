//! Jobs.
ghost use Rattle.std.specs.Prelude.{◌≡◌, IfOk};

use fs_orig::{Caller, Winner};
use fs_text::{Memory, Txt};

/// Work that goes on behind a command, and in the end gives its answer.
pub struct Job {
    /// Who is told the answer.
    pub asker: Asker,
    /// What it does, or what it waits for.
    pub work: JobWork,
}

impl Drop for Job {
    fn drop(self) {
        let Job {
            asker: _asker,
            work: _work,
        } = self;
    }
}

/// Who is told the answer of a job.
#[derive(Drop)]
pub enum Asker {
    /// The connection of this number, which is owed the reply to its command.
    Conn { conn: u32 },
    /// Whoever has subscribed the event that tells how a job in the background ends.
    Background(Background),
}

/// A job in the background.
pub struct Background {
    /// Its identifier, which its client gave or the switch drew.
    pub uuid: Txt,
    /// The api command that it was begun with, in full.
    pub command: Txt,
}

impl Drop for Background {
    fn drop(self) {
        let Background {
            uuid: _uuid,
            command: _command,
        } = self;
    }
}

/// What a job does, or what it waits for.
#[derive(Drop)]
pub enum JobWork {
    /// The command that it was begun with is to be run, at once. Only a job in the background runs one.
    Run,
    /// A load of the file that the switch was configured by is to be noted.
    Load,
    /// A moment, in microseconds.
    Sleep {
        until: u64,
    },
    /// The verdict on the origination of this number. A leg that wins then does this; the legs of a later group are
    /// made with this caller.
    Originate {
        orig: u64,
        winner: Winner,
        caller: Caller,
    },
}

impl Asker {
    /// The same once more.
    pub fn copy(&self) -> Result<Asker, Memory>
        ensures { IfOk result (λ asker. asker ≡ self.now) }
    {
        Ok(match self {
            Asker::Conn { conn } => Asker::Conn { conn: *conn },
            Asker::Background(job) => Asker::Background(job.copy()?),
        })
    }
}

impl Background {
    /// The same once more.
    pub fn copy(&self) -> Result<Background, Memory>
        ensures { IfOk result (λ job. job ≡ self.now) }
    {
        Ok(Background {
            uuid: self.uuid.copy()?,
            command: self.command.copy()?,
        })
    }
}

impl JobWork {
    /// The same work once more.
    pub fn copy(&self) -> Result<JobWork, Memory>
        ensures { IfOk result (λ work. work ≡ self.now) }
    {
        Ok(match self {
            JobWork::Run => JobWork::Run,
            JobWork::Load => JobWork::Load,
            JobWork::Sleep { until } => JobWork::Sleep { until: *until },
            JobWork::Originate {
                orig,
                winner,
                caller,
            } => JobWork::Originate {
                orig: *orig,
                winner: winner.copy()?,
                caller: caller.copy()?,
            },
        })
    }
}
