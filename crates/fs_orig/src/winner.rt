//! What a leg does that has won.

ghost use Rattle.std.specs.Prelude.{◌≡◌, IfOk};

use crate::route::Route;
use fs_text::{Memory, Txt};

/// What a leg does that has won.
pub enum Winner {
    /// It runs an application.
    App { application: Txt, argument: Txt },
    /// It is routed.
    Route(Route),
}

impl Drop for Winner {
    fn drop(self) {
        match self {
            Winner::App {
                application: _application,
                argument: _argument,
            } => {}
            Winner::Route(_route) => {}
        }
    }
}

impl Winner {
    /// Copies what the winner is to do.
    pub fn copy(&self) -> Result<Winner, Memory>
        ensures { IfOk result (λ winner. winner ≡ self.now) }
    {
        Ok(match self {
            Winner::App {
                application,
                argument,
            } => Winner::App {
                application: application.copy()?,
                argument: argument.copy()?,
            },
            Winner::Route(route) => Winner::Route(route.copy()?),
        })
    }
}
