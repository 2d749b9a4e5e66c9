//! The question how a connection stands.

use fs_book::Ask;
use fs_machine::{Machine, Standing};

/// The question how a connection stands.
#[derive(Clone, Copy, Debug)]
pub(crate) struct StandingOf {
    pub(crate) conn: u32,
}

impl Ask<Machine> for StandingOf {
    ghost use Rattle.fs_conn.specs.Owning.{TellsConn};

    type Answer = Standing;

    ghost tells = { TellsConn };

    fn ask(&self, state: &Machine) -> Standing {
        state.sound();
        state.standing(self.conn)
    }
}
