//! The applications that set variables and take them out.

ghost use Rattle.std.specs.Prelude.{◌≡◌, OnOk, OnErr};
ghost use Rattle.fs_chan.specs.Assignments as spec;

use crate::exports::export;
use fs_text::{Memory, cut_at};
use fs_vars::Vars;
use std::alloc::Global;

/// What an application does with the variable that its argument names.
#[derive(Clone, Copy)]
pub enum Assignment {
    /// A variable of the channel is set.
    Set,
    /// A variable of the channel is taken out.
    Unset,
    /// A variable of the channel is set, and new legs get it too.
    Export,
    /// A global is set.
    SetGlobal,
}

impl Assignment {
    /// What the application of a name does, if it is one of these.
    #[tactic(auto, unfolding(crate::specs::Assignments::assignment_named))]
    pub fn named(application: &[u8]) -> Option<Assignment>
        ensures { result ≡ spec.assignment_named application.now }
    {
        if application == b"set".as_slice() {
            Some(Assignment::Set)
        } else if application == b"unset".as_slice() {
            Some(Assignment::Unset)
        } else if application == b"export".as_slice() {
            Some(Assignment::Export)
        } else if application == b"set_global".as_slice() {
            Some(Assignment::SetGlobal)
        } else {
            None
        }
    }

    /// Does it, by its argument, to the variables of a channel, or to the globals. Where a limit would be passed,
    /// nothing changes.
    ///
    /// The argument is `name=value`, where the value is empty without `=`, or the name of what is taken out.
    pub fn apply(self, alloc: Global, argument: &[u8], vars: &mut Vars) -> Result<(), Memory>
        ensures ok { OnOk result (vars.new ≡ spec.assigned self argument.now vars.old) }
        ensures err { OnErr result (vars.new ≡ vars.old) }
    {
        let (name, value) = cut_at(b'=', argument);
        match self {
            Assignment::Set | Assignment::SetGlobal => {
                let _set = vars.set(name, value)?;
            }
            Assignment::Unset => vars.unset(argument),
            Assignment::Export => export(alloc, vars, name, value)?,
        }
        Ok(())
    }
}
