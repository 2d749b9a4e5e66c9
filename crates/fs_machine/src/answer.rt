//! What a submitted entry is answered.

use crate::due::{due_job, is_due};
use crate::entry::Act;
use crate::machine::Machine;
use crate::reply::Reply;
use crate::standing::Standing;
use fs_ports::Wakes;
use fs_state::{Core, Seen};

/// What a submitted entry is answered.
#[derive(Drop)]
pub struct Answer {
    /// The reply to it.
    pub reply: Reply,
    /// How the connection whose act it was stands since; none where it was nobody's.
    pub standing: Option<Standing>,
    /// Who may have something to do since. No contract speaks of it: it only tells whoever submitted whom to wake.
    pub wakes: Wakes,
}

impl Machine {
    /// Who may have something to do since an act was done, before which so many events had happened.
    pub(crate) fn wakes_after(&self, act: &Act, events: u64) -> Wakes {
        let core = &self.core;
        if core.is_full() || core.stopping().is_some() {
            return Wakes::everybody();
        }
        match act {
            Act::Arrive | Act::Take { .. } | Act::Close { .. } => Wakes::nobody(),
            Act::Command { .. } => {
                let mut wakes = busy_in(core, core.filled_jobs() > 0);
                // Only events bring frames to others than the one whose command it was.
                if core.counts().all() != events {
                    add_conns(&mut wakes, core);
                }
                wakes
            }
            Act::Dialed { .. }
            | Act::Work { .. }
            | Act::Job { .. }
            | Act::Loaded { .. }
            | Act::Halt => {
                let mut wakes = busy_in(core, false);
                add_conns(&mut wakes, core);
                wakes
            }
        }
    }
}

// The slots and the jobs for which there is something.
fn busy_in(core: &Core, may_begin_jobs: bool) -> Wakes {
    let seen = Seen::of(core, core.moment());
    let mut wakes = Wakes::nobody();
    add_slots(&mut wakes, &seen);
    if may_begin_jobs || due_job(&seen).is_some() {
        wakes.add_jobs();
    }
    wakes
}

// The slots that have something to do at once.
fn add_slots(wakes: &mut Wakes, seen: &Seen<'_>) {
    for slot in 0..seen.filled_slots() {
        if is_due(seen, slot) {
            wakes.add_slot(slot);
        }
    }
}

// The connections for which frames wait.
fn add_conns(wakes: &mut Wakes, core: &Core) {
    for seat in 0..core.conn_seats() {
        if let Some(row) = core.conn_at(seat) {
            let conn = u32::try_from(row.number).unwrap_or(0);
            if core.waiting(conn) > 0 {
                wakes.add_conn(conn);
            }
        }
    }
}
