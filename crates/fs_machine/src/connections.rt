//! Connections, and how they change.

ghost use Rattle.std.specs.Prelude.{◌≡◌};
ghost use Rattle.std.specs.Option.{option_copied};
ghost use Rattle.fs_state.specs.Drafts.{drafted, Brings};
ghost use Rattle.fs_machine.specs.Connections as spec;

use fs_filter::SharedSubs;
use fs_state::{Conn, Draft, Parting, Phase};
use fs_text::Memory;

/// Where a connection stands; one that is not there is closed.
pub(crate) fn phase_of(conn: Option<&Conn>) -> Phase
    ensures { result ≡ spec.phase_of (option_copied conn.entry) }
{
    match conn {
        Some(there) => there.phase,
        None => Phase::Closed,
    }
}

/// Where the connection of a number stands.
pub(crate) fn phase_at(draft: &Draft<'_>, conn: u32) -> Phase
    ensures { result ≡ spec.phase_at (drafted draft.now) conn }
{
    phase_of(draft.conn(conn))
}

/// Takes no further command of a connection, if it is there, and tells it of no further event.
pub(crate) fn part(draft: &mut Draft<'_>, conn: u32, why: Parting) -> Result<(), Memory>
    ensures { Brings result draft.old draft.new (spec.conn_changed (spec.parted why) conn (drafted draft.old)) }
{
    let Some(there) = draft.conn(conn) else {
        return Ok(());
    };
    let parted = Conn {
        phase: Phase::Ending,
        parting: Some(why),
        owed: there.owed,
        control: there.copy_control()?,
        subs: SharedSubs::nothing(),
    };
    draft.set_conn(conn, parted)
}

/// Lets a connection give all commands, if it is there.
pub(crate) fn admit(draft: &mut Draft<'_>, conn: u32) -> Result<(), Memory>
    ensures { Brings result draft.old draft.new (spec.conn_changed spec.admitted conn (drafted draft.old)) }
{
    let Some(there) = draft.conn(conn) else {
        return Ok(());
    };
    let mut admitted = there.copy()?;
    admitted.phase = Phase::Ready;
    draft.set_conn(conn, admitted)
}

/// Notes that a connection is owed the reply to the command at a place, if it is there.
pub(crate) fn owe(draft: &mut Draft<'_>, conn: u32, place: u64) -> Result<(), Memory>
    ensures { Brings result draft.old draft.new (spec.conn_changed (spec.owed_since place) conn (drafted draft.old)) }
{
    let Some(there) = draft.conn(conn) else {
        return Ok(());
    };
    let mut owed = there.copy()?;
    owed.owed = Some(place);
    draft.set_conn(conn, owed)
}

/// Notes that a connection is owed no reply any more, if it is there.
pub(crate) fn owe_nothing(draft: &mut Draft<'_>, conn: u32) -> Result<(), Memory>
    ensures { Brings result draft.old draft.new (spec.conn_changed spec.not_owed conn (drafted draft.old)) }
{
    let Some(there) = draft.conn(conn) else {
        return Ok(());
    };
    let mut free = there.copy()?;
    free.owed = None;
    draft.set_conn(conn, free)
}
