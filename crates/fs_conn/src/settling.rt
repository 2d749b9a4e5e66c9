//! What is due is worked, and replies that are owed are waited for.

ghost use Rattle.std.specs.Prelude.{◌≡◌, false, OnOk};
ghost use Rattle.fs_machine.specs.Questions.{owes};
ghost use Rattle.fs_conn.specs.Play.{switch_of, next_actor, after_settling, after_waiting};
ghost use Rattle.fs_conn.specs.Steps.{is_due, Works, IsUnwritten};
ghost use Rattle.fs_conn.specs.Filed.{file_of};
ghost use Rattle.fs_conn.specs.Playing.{seen, so_far, DoesSo, Loads, OnlyPlays};

use crate::end::End;
use crate::playing::{CONN, Play};
use crate::stop::Stop;
use fs_machine::DueActor;
use fs_ports::{Files, Link};

/// How many entries in a row are worked at one moment, at most.
const MOST_ENTRIES: u64 = 100_000;

impl<L: Link, F: Files> Play<'_, '_, '_, L, F> {
    /// Works all that is due at the clock's moment.
    pub(crate) fn settle(&mut self) -> Result<(), Stop>
        ensures does { DoesSo after_settling (seen self.old) (seen self.new) result }
        ensures works { Works (so_far (seen self.old)) (so_far (seen self.new)) }
        ensures clock { self.new.clock ≡ self.old.clock }
        ensures unwritten { IsUnwritten result }
        ensures idle { OnOk result (is_due (next_actor (so_far (seen self.new))) ≡ false) }
        ensures loads { Loads (file_of F.loads F.counts F.sizes self.old.file)
            (file_of F.loads F.counts F.sizes self.new.file)
            (seen self.old) (seen self.new) result }
        ensures only { OnlyPlays (seen self.old) (seen self.new) }
    {
        for _ in 0..MOST_ENTRIES {
            if !self.work_next()? {
                return Ok(());
            }
        }
        if self.is_due() {
            let count = MOST_ENTRIES;
            return Err(Stop::Over(End::Runaway { count }));
        }
        Ok(())
    }

    /// Lets the clock go on, and works what comes to be due, while the connection is owed a reply.
    ///
    /// Whoever owes it has something to do at some moment.
    pub(crate) fn wait_out(&mut self) -> Result<(), Stop>
        requires idle { is_due (next_actor (so_far (seen self.old))) ≡ false }
        ensures does { DoesSo after_waiting (seen self.old) (seen self.new) result }
        ensures works { Works (so_far (seen self.old)) (so_far (seen self.new)) }
        ensures unwritten { IsUnwritten result }
        ensures free { OnOk result (owes (switch_of (so_far (seen self.new))) 1 ≡ false) }
        ensures loads { Loads (file_of F.loads F.counts F.sizes self.old.file)
            (file_of F.loads F.counts F.sizes self.new.file)
            (seen self.old) (seen self.new) result }
        ensures only { OnlyPlays (seen self.old) (seen self.new) }
    {
        while self.machine.owes(CONN) {
            self.machine.sound();
            let DueActor::Later(moment) = self.machine.next_due(self.clock) else {
                unreachable!()
            };
            self.clock = moment;
            self.settle()?;
        }
        Ok(())
    }

    // Whether a slot or a job has something to do.
    fn is_due(&self) -> bool
        ensures { result ≡ is_due (next_actor (so_far (seen self.now))) }
    {
        match self.machine.next_due(self.clock) {
            DueActor::Slot(_) | DueActor::Dial(_) | DueActor::Job(_) | DueActor::Load(_) => true,
            DueActor::Later(_) | DueActor::Never => false,
        }
    }
}
