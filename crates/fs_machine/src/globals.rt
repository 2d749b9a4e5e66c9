//! Globals, and how they change.

ghost use Rattle.std.specs.Prelude.{◌≡◌, IfOk};
ghost use Rattle.fs_vars.specs.Variables.{can_set};
ghost use Rattle.fs_chan.specs.Exports.{with_set};
ghost use Rattle.fs_state.specs.Drafts.{drafted, Brings};

use fs_state::Draft;
use fs_text::{Memory, Txt};

/// Sets a global, where no limit is passed, and says whether it did.
pub(crate) fn set_global(draft: &mut Draft<'_>, name: &Txt, value: &Txt) -> Result<bool, Memory>
    ensures answer { IfOk result (λ done. done ≡ can_set (drafted draft.old).globals name.now value.now) }
    ensures draft { Brings result draft.old draft.new
        (record (drafted draft.old) { globals = with_set (drafted draft.old).globals name.now value.now }) }
{
    let mut globals = draft.globals().copy()?;
    let done = globals.set(name.as_bytes(), value.as_bytes())?;
    if done {
        draft.set_globals(globals)?;
    }
    Ok(done)
}
