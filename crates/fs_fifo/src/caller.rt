//! One caller that waits in a queue.

ghost use Rattle.std.specs.Prelude.{◌≡◌, IfOk};

use fs_text::{Memory, Txt};

/// A caller that waits in a queue, which is known by its name.
#[derive(Drop)]
pub(crate) struct QueuedCaller {
    pub queue: Txt,
    pub priority: u8,
    pub slot: u16,
}

impl QueuedCaller {
    /// The same caller once more.
    pub fn copy(&self) -> Result<QueuedCaller, Memory>
        ensures { IfOk result (λ caller. caller ≡ self.now) }
    {
        Ok(QueuedCaller {
            queue: self.queue.copy()?,
            priority: self.priority,
            slot: self.slot,
        })
    }
}
