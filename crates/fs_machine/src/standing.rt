//! How a connection stands, for whoever serves it.

ghost use Rattle.std.specs.Prelude.{◌≡◌};
ghost use Rattle.fs_machine.specs.Runs.{state_of};
ghost use Rattle.fs_machine.specs.Standing as spec;

use crate::entry::Act;
use crate::machine::Machine;
use fs_state::Parting;

/// How a connection stands.
#[derive(Clone, Copy, Debug)]
pub struct Standing {
    /// It reads commands.
    pub reads: bool,
    /// It is owed a reply.
    pub owed: bool,
    /// A frame waits for it.
    pub waits: bool,
    /// Why it reads none.
    pub parting: Option<Parting>,
}

impl Machine {
    /// How a connection stands. One that is not there reads nothing, and nothing waits for it.
    pub fn standing(&self, conn: u32) -> Standing
        ensures { result ≡ spec.standing_of conn (state_of self.now) }
    {
        Standing {
            reads: self.reads(conn),
            owed: self.owes(conn),
            waits: self.waiting(conn) != 0,
            parting: self.parting(conn),
        }
    }

    /// How the connection whose act it is stands; none where it is nobody's.
    pub(crate) fn standing_by(&self, act: &Act) -> Option<Standing>
        ensures { result ≡ spec.standing_by act.now (state_of self.now) }
    {
        let conn = act.conn()?;
        Some(self.standing(conn))
    }
}
