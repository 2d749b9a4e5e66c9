//! The file that a switch was configured by.

ghost use Rattle.std.specs.Prelude.{MatchResult};
ghost use Rattle.fs_conn.specs.Filed.{file_of, IsSameFile};
ghost use Rattle.fs_conn.specs.Loads.{Loaded, Begun};

use fs_machine::NewPlan;
use fs_ports::Files;
use fs_text::{Memory, Txt};
use std::alloc::Global;

/// The file that a switch was configured by, among files.
#[derive(Drop)]
pub(crate) struct ConfigFile<'a, F: Files> {
    pub(crate) files: &'a mut F,
    pub(crate) name: &'a Txt,
}

impl<F: Files> ConfigFile<'_, F> {
    /// Loads it anew, beside the switch.
    pub(crate) fn load(&mut self, alloc: Global) -> Result<NewPlan, Memory>
        ensures loads { MatchResult result
            (Loaded (file_of F.loads F.counts F.sizes self.old) (file_of F.loads F.counts F.sizes self.new))
            (λ _. Begun (file_of F.loads F.counts F.sizes self.old) (file_of F.loads F.counts F.sizes self.new)) }
        ensures file { IsSameFile self.old self.new }
    {
        NewPlan::load(alloc, self.files, self.name)
    }
}
