//! Where the winner of an origination is routed to.

ghost use Rattle.std.specs.Prelude.{◌≡◌, IfOk};
ghost use Rattle.fs_orig.specs.Routes.{IsShortRoute};

use fs_text::{Memory, Txt};
use std::marker::Model;

/// Where a leg is routed to that has won: an extension, in a context of a dialplan.
///
/// Each of the three texts has at most 256 bytes.
pub struct Route {
    exten: Txt,
    dialplan: Txt,
    context: Txt,
}

impl Drop for Route {
    fn drop(self) {
        let Route {
            exten: _exten,
            dialplan: _dialplan,
            context: _context,
        } = self;
    }
}

impl Model for Route {
    ghost use Rattle.fs_orig.specs.Routes.{RouteTo, IsShortRoute};

    ghost Value = { RouteTo };

    ghost view = { λ r. record { exten = r.exten; dialplan = r.dialplan; context = r.context } };

    ghost invariant = { λ r. IsShortRoute r.exten r.dialplan r.context };
}

impl Route {
    /// The route to an extension, in a context of a dialplan.
    pub fn new(exten: Txt, dialplan: Txt, context: Txt) -> Route
        requires { IsShortRoute exten dialplan context }
        ensures { result ≡ record { exten = exten; dialplan = dialplan; context = context } }
    {
        Route {
            exten,
            dialplan,
            context,
        }
    }

    /// Copies the route.
    pub fn copy(&self) -> Result<Route, Memory>
        ensures { IfOk result (λ route. route ≡ self.now) }
    {
        Ok(Route {
            exten: self.exten.copy()?,
            dialplan: self.dialplan.copy()?,
            context: self.context.copy()?,
        })
    }

    /// Its extension, its dialplan and its context.
    pub fn into_texts(self) -> (Txt, Txt, Txt)
        ensures exten { result.0 ≡ self.exten }
        ensures dialplan { result.1 ≡ self.dialplan }
        ensures context { result.2 ≡ self.context }
        ensures short { IsShortRoute result.0 result.1 result.2 }
    {
        let Route {
            exten,
            dialplan,
            context,
        } = self;
        (exten, dialplan, context)
    }
}
