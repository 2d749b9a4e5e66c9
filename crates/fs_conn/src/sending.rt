//! Frames are taken, and what follows each act.

ghost use Rattle.std.specs.Prelude.{◌≡◌, ◌≤◌, false, OnOk};
ghost use Rattle.fs_machine.specs.declared.entry.Act.TheVariants.{Take};
ghost use Rattle.fs_machine.specs.Questions.{owes};
ghost use Rattle.fs_conn.specs.Play.{switch_of, after_trying_act, after_taking_all, after_following};
ghost use Rattle.fs_conn.specs.Steps.{spent};
ghost use Rattle.fs_conn.specs.Filed.{file_of};
ghost use Rattle.fs_conn.specs.Playing.{seen, so_far, DoesSo, Loads, ReadsNothing, HasFilledSo, Sends};

use crate::playing::{CONN, Play};
use crate::stop::Stop;
use fs_machine::{Act, Reply};
use fs_ports::{Files, Link};

impl<L: Link, F: Files> Play<'_, '_, '_, L, F> {
    /// Works what is due behind an entry, waits for a reply that is owed, and takes all frames.
    pub(crate) fn follow(&mut self) -> Result<(), Stop>
        ensures does { DoesSo after_following (seen self.old) (seen self.new) result }
        ensures sends { Sends HasFilledSo (seen self.old) (seen self.new) result }
        ensures reads { ReadsNothing (seen self.old) (seen self.new) }
        ensures loads { Loads (file_of F.loads F.counts F.sizes self.old.file)
            (file_of F.loads F.counts F.sizes self.new.file)
            (seen self.old) (seen self.new) result }
        ensures spent { spent (so_far (seen self.old)) ≤ spent (so_far (seen self.new)) }
        ensures free { OnOk result (owes (switch_of (so_far (seen self.new))) 1 ≡ false) }
    {
        self.settle()?;
        self.wait_out()?;
        self.send_frames()
    }

    /// Takes all frames that wait, to be written with what is unsent.
    pub(crate) fn send_frames(&mut self) -> Result<(), Stop>
        ensures does { DoesSo after_taking_all (seen self.old) (seen self.new) result }
        ensures sends { Sends HasFilledSo (seen self.old) (seen self.new) result }
        ensures reads { ReadsNothing (seen self.old) (seen self.new) }
        ensures loads { Loads (file_of F.loads F.counts F.sizes self.old.file)
            (file_of F.loads F.counts F.sizes self.new.file)
            (seen self.old) (seen self.new) result }
        ensures spent { spent (so_far (seen self.old)) ≤ spent (so_far (seen self.new)) }
    {
        for _ in 0..self.machine.waiting(CONN) {
            self.send_frame()?;
        }
        Ok(())
    }

    // Takes the first frame that waits, if one does.
    fn send_frame(&mut self) -> Result<(), Stop>
        ensures does { DoesSo (after_trying_act (Take 1)) (seen self.old) (seen self.new) result }
        ensures sends { Sends HasFilledSo (seen self.old) (seen self.new) result }
        ensures reads { ReadsNothing (seen self.old) (seen self.new) }
        ensures loads { Loads (file_of F.loads F.counts F.sizes self.old.file)
            (file_of F.loads F.counts F.sizes self.new.file)
            (seen self.old) (seen self.new) result }
        ensures spent { spent (so_far (seen self.old)) ≤ spent (so_far (seen self.new)) }
    {
        let Some(reply) = self.enter(Act::Take { conn: CONN })? else {
            return Ok(());
        };
        let Reply::Frame(frame) = reply else {
            unreachable!()
        };
        self.wire.put(frame.as_bytes())
    }
}
