//! A connection is closed, and a play ends that stopped.

ghost use Rattle.std.specs.Prelude.{◌≡◌, List, [], OnOk};
ghost use Rattle.fs_machine.specs.declared.note.LoadNote.{LoadNote};
ghost use Rattle.fs_conn.specs.Play.{noted, after_closing, after_input_end};
ghost use Rattle.fs_conn.specs.Filed.{FileView, file_of};
ghost use Rattle.fs_conn.specs.Playing.{Playing, seen, so_far, AreNotes, DoesSo, Loads, LoadsStopped, LoadsEnded, Adds, OnlyPlays};
ghost use Rattle.fs_conn.specs.Playing.{ReadsNothing, HasFilledSo, MayClose, Sends};
ghost use Rattle.fs_conn.specs.Turns.{Stops, Plays, ClosesFailed};

use crate::end::End;
use crate::playing::{CONN, Play};
use crate::stop::Stop;
use fs_machine::{Act, Closing};
use fs_ports::{Files, Link};

impl<L: Link, F: Files> Play<'_, '_, '_, L, F> {
    /// Closes a connection that came to its end, once all is written.
    pub(crate) fn finish(&mut self) -> Result<(), Stop>
        ensures does { DoesSo after_closing (seen self.old) (seen self.new) result }
        ensures sends { (notes : List LoadNote) → AreNotes (seen self.new) notes
            → Sends (MayClose notes (seen self.old)) (seen self.old) (seen self.new) result }
        ensures reads { ReadsNothing (seen self.old) (seen self.new) }
        ensures loads { Loads (file_of F.loads F.counts F.sizes self.old.file)
            (file_of F.loads F.counts F.sizes self.new.file)
            (seen self.old) (seen self.new) result }
        ensures all { OnOk result (self.new.wire.unsent ≡ []) }
    {
        self.end_input()?;
        self.wire.write()?;
        let how = Closing::Sent;
        self.enter(Act::Close { conn: CONN, how })?;
        Ok(())
    }

    // Enters the end of the input, where the connection reads commands still.
    fn end_input(&mut self) -> Result<(), Stop>
        ensures does { DoesSo after_input_end (seen self.old) (seen self.new) result }
        ensures sends { Sends HasFilledSo (seen self.old) (seen self.new) result }
        ensures reads { ReadsNothing (seen self.old) (seen self.new) }
        ensures loads { Loads (file_of F.loads F.counts F.sizes self.old.file)
            (file_of F.loads F.counts F.sizes self.new.file)
            (seen self.old) (seen self.new) result }
    {
        if !self.machine.reads(CONN) {
            return Ok(());
        }
        let how = Closing::EndOfInput;
        self.enter(Act::Close { conn: CONN, how })?;
        self.send_frames()
    }

    /// Writes what is unsent of a play that stopped, and says how it ends.
    pub(crate) fn break_off(&mut self, stop: Stop) -> End
        ensures config { self.new.machine.now.config ≡ self.old.machine.now.config }
        ensures lent { (seen self.new).lent ≡ (seen self.old).lent }
        ensures plays { (notes : List LoadNote) (start : Playing) → Stops notes start (seen self.old) stop
            → Plays start.config notes start.input start.output
            self.new.wire.input self.new.wire.output self.new.machine.now.journal result }
        ensures noted { noted self.new.machine.now.journal ≡ noted self.old.machine.now.journal }
        ensures loads { (start : Playing) (first : FileView)
            → LoadsStopped stop first (file_of F.loads F.counts F.sizes self.old.file) start (seen self.old)
            → LoadsEnded result first (file_of F.loads F.counts F.sizes self.new.file) start (seen self.new) }
    {
        match stop {
            Stop::Over(end) => match self.wire.write() {
                Ok(()) => end,
                Err(_) => self.close_failed(),
            },
            Stop::OutOfMemory => {
                let _written = self.wire.write();
                End::Memory
            }
            Stop::WriteFault => self.close_failed(),
        }
    }

    // Closes a connection to which a write failed. That is how the play ends also where the closing is refused, but not
    // where memory was wanting for it.
    fn close_failed(&mut self) -> End
        ensures closes { ClosesFailed (so_far (seen self.old)) (so_far (seen self.new)) result }
        ensures noted { noted self.new.machine.now.journal ≡ noted self.old.machine.now.journal }
        ensures adds { Adds (file_of F.loads F.counts F.sizes self.old.file)
            (file_of F.loads F.counts F.sizes self.new.file)
            (seen self.old) (seen self.new) }
        ensures only { OnlyPlays (seen self.old) (seen self.new) }
    {
        let how = Closing::Failed;
        match self.enter(Act::Close { conn: CONN, how }) {
            Ok(_) | Err(Stop::Over(_) | Stop::WriteFault) => End::WriteFault,
            Err(Stop::OutOfMemory) => End::Memory,
        }
    }
}
