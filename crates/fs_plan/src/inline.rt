//! The applications that run while the dialplan is searched.

ghost use Rattle.std.specs.Prelude.{◌≡◌, OnOk};
ghost use Rattle.fs_plan.specs.Inline as spec;

use crate::hunt::Hunt;
use fs_chan::Assignment;
use fs_text::Memory;
use std::alloc::Global;

impl Hunt {
    /// Runs an inline application. One that sets no variable does nothing.
    pub(crate) fn run_inline(
        &mut self,
        alloc: Global,
        application: &[u8],
        argument: &[u8],
    ) -> Result<(), Memory>
        ensures { OnOk result (self.new ≡ spec.inline_done application.now argument.now self.old) }
    {
        match Assignment::named(application) {
            Some(Assignment::SetGlobal) => Assignment::SetGlobal.apply(
                alloc,
                argument,
                &mut self.globals,
            ),
            Some(how) => how.apply(alloc, argument, &mut self.vars),
            None => Ok(()),
        }
    }
}
