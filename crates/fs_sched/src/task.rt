//! A task that waits for its moment.

ghost use Rattle.std.specs.Prelude.{◌≡◌, IfOk};

use fs_text::{Cause, Memory, Txt};

/// What a task does at its moment.
#[derive(Drop)]
pub enum What {
    /// Hangs up the channel whose identifier is the task's group, with this cause.
    Hangup(Cause),
    /// Runs the api command of this text.
    Api(Txt),
}

impl What {
    /// The same once more. Its text shares the bytes.
    pub fn copy(&self) -> Result<What, Memory>
        ensures { IfOk result (λ copy. copy ≡ self.now) }
    {
        match self {
            What::Hangup(cause) => Ok(What::Hangup(*cause)),
            What::Api(text) => Ok(What::Api(text.copy()?)),
        }
    }
}

/// A task that waits for its moment.
pub struct Task {
    /// Tells it from all other tasks. Numbers count from 1.
    pub number: u64,
    /// When it is due, in microseconds.
    pub moment: u64,
    /// Tasks of one group are deleted together.
    pub group: Txt,
    pub what: What,
}

impl Drop for Task {
    fn drop(self) {
        let Task {
            number: _number,
            moment: _moment,
            group: _group,
            what: _what,
        } = self;
    }
}

impl Task {
    /// The same task once more. Its texts share their bytes.
    pub fn copy(&self) -> Result<Task, Memory>
        ensures { IfOk result (λ copy. copy ≡ self.now) }
    {
        let what = self.what.copy()?;
        let group = self.group.copy()?;
        Ok(Task {
            number: self.number,
            moment: self.moment,
            group,
            what,
        })
    }
}
