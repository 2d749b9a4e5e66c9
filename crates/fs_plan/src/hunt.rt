//! What a hunt gives.

ghost use Rattle.std.specs.Prelude.{◌≡◌};

use fs_chan::Actions;
use fs_vars::Vars;

/// What a hunt gives: the actions of the extensions that were taken, and the variables and globals after the inline
/// actions.
pub struct Hunt {
    pub actions: Actions,
    pub vars: Vars,
    pub globals: Vars,
}

impl Drop for Hunt {
    fn drop(self) {
        let Hunt {
            actions: _actions,
            vars: _vars,
            globals: _globals,
        } = self;
    }
}

impl Hunt {
    /// Its actions, its variables and its globals.
    pub fn into_parts(self) -> (Actions, Vars, Vars)
        ensures { result ≡ (self.actions, self.vars, self.globals) }
    {
        let Hunt {
            actions,
            vars,
            globals,
        } = self;
        (actions, vars, globals)
    }
}
