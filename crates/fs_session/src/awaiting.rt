//! Whether a job waits for a load, as a look finds it.

ghost use Rattle.std.specs.Prelude.{◌≡◌, IfOk};
ghost use Rattle.fs_session.specs.Loading as spec;

use fs_book::Ask;
use fs_machine::{InForce, Machine, Refusal};
use fs_text::Memory;

/// Whether a job waits for a load.
#[derive(Drop)]
pub(crate) enum Awaiting {
    /// The journal has no room for a load, and so each is refused.
    Full(Refusal),
    /// It waits for none, or is not there.
    Over,
    /// It waits for one, and this is in force until then.
    Waits(InForce),
}

/// The question whether the job of a number waits for a load. It is not answered where there is no memory.
#[derive(Clone, Copy, Debug)]
pub(crate) struct AwaitingOf {
    pub(crate) job: u64,
}

impl Ask<Machine> for AwaitingOf {
    ghost use Rattle.fs_session.specs.Loading.{TellsAwaiting};

    type Answer = Result<Awaiting, Memory>;

    ghost tells = { TellsAwaiting };

    fn ask(&self, state: &Machine) -> Result<Awaiting, Memory> {
        state.sound();
        if let Some(refusal) = state.full_for_load() {
            return Ok(Awaiting::Full(refusal));
        }
        if !state.waits_for_load(self.job) {
            return Ok(Awaiting::Over);
        }
        Ok(Awaiting::Waits(state.in_force()?))
    }
}
