//! Replies to commands.

ghost use Rattle.fs_state.specs.Drafts.{drafted, Brings};
ghost use Rattle.fs_machine.specs.Commands as spec;

use fs_cmd::reply;
use fs_state::Draft;
use fs_text::Memory;

/// Replies to a command.
pub(crate) fn give_reply(draft: &mut Draft<'_>, conn: u32, text: &[u8]) -> Result<(), Memory>
    ensures { Brings result draft.old draft.new (spec.with_reply conn text.now (drafted draft.old)) }
{
    let frame = reply(draft.alloc(), text, &[])?;
    draft.give_now(conn, frame)
}
