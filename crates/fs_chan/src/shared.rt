//! The variables of a channel, shared between its copies.

ghost use Rattle.std.specs.Prelude.{◌≡◌, IfOk, OnOk, OnErr};
ghost use Rattle.fs_vars.specs.Variables.{can_set};
ghost use Rattle.fs_chan.specs.Exports.{with_set};
ghost use Rattle.fs_chan.specs.Assignments.{assigned};
ghost use Rattle.fs_chan.specs.declared.assignment.Assignment.TheVariants.{Export};

use crate::assignment::Assignment;
use crate::exports::exported;
use fs_text::{Memory, cut_at};
use fs_vars::Vars;
use std::alloc::Global;
use std::marker::Model;
use std::ops::Deref;
use std::sync::Arc;

/// Variables that their copies share until one of them is changed. A contract sees them as the variables.
#[derive(Drop)]
pub struct SharedVars {
    alloc: Global,
    shared: Arc<Vars>,
}

impl Model for SharedVars {
    ghost use Rattle.std.specs.Arc.{arc_value};
    ghost use Rattle.fs_vars.specs.Variables.{Variables};

    ghost Value = { Variables };

    ghost view = { λ v. arc_value v.shared };
}

impl SharedVars {
    /// Variables that nothing shares yet.
    pub fn of(alloc: Global, vars: Vars) -> Result<SharedVars, Memory>
        ensures { IfOk result (λ shared. shared ≡ vars) }
    {
        let shared = Arc::new(alloc, vars)?;
        Ok(SharedVars { alloc, shared })
    }

    /// The same variables once more, in constant time.
    pub fn copy(&self) -> Result<SharedVars, Memory>
        ensures { IfOk result (λ shared. shared ≡ self.now) }
    {
        let shared = self.shared.clone()?;
        Ok(SharedVars {
            alloc: self.alloc,
            shared,
        })
    }

    /// Puts other variables in the place of these.
    pub fn put(&mut self, vars: Vars) -> Result<(), Memory>
        ensures ok { OnOk result (self.new ≡ vars) }
        ensures err { OnErr result (self.new ≡ self.old) }
    {
        self.shared = Arc::new(self.alloc, vars)?;
        Ok(())
    }

    /// Sets a variable, as [`Vars::set`] does. Its copies stay as they are.
    pub fn set(&mut self, name: &[u8], value: &[u8]) -> Result<bool, Memory>
        ensures answer { IfOk result (λ done. done ≡ can_set self.old name.now value.now) }
        ensures set { OnOk result (self.new ≡ with_set self.old name.now value.now) }
        ensures err { OnErr result (self.new ≡ self.old) }
    {
        if let Some(vars) = Arc::get_mut(&mut self.shared) {
            return vars.set(name, value);
        }
        let mut vars = self.shared.copy()?;
        let done = vars.set(name, value)?;
        self.put(vars)?;
        Ok(done)
    }

    /// Sets a variable or takes one out, as [`Assignment::apply`] does. Its copies stay as they are.
    pub fn assign(&mut self, how: Assignment, argument: &[u8]) -> Result<(), Memory>
        ensures ok { OnOk result (self.new ≡ assigned how argument.now self.old) }
        ensures err { OnErr result (self.new ≡ self.old) }
    {
        if let Assignment::Export = how {
            return self.export(argument);
        }
        if let Some(vars) = Arc::get_mut(&mut self.shared) {
            return how.apply(self.alloc, argument, vars);
        }
        let mut vars = self.shared.copy()?;
        how.apply(self.alloc, argument, &mut vars)?;
        self.put(vars)
    }

    /// Sets a variable and exports it, in the one copy that this needs.
    fn export(&mut self, argument: &[u8]) -> Result<(), Memory>
        ensures ok { OnOk result (self.new ≡ assigned Export argument.now self.old) }
        ensures err { OnErr result (self.new ≡ self.old) }
    {
        let (name, value) = cut_at(b'=', argument);
        if let Some(vars) = exported(self.alloc, &self.shared, name, value)? {
            self.put(vars)?;
        }
        Ok(())
    }
}

impl Deref for SharedVars {
    type Target = Vars;

    ghost deref_gives = { λ shared vars. vars ≡ shared };

    fn deref(&self) -> &Vars {
        &self.shared
    }
}
