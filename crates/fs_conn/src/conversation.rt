//! A turn of a conversation, the conversation, and how it ends.

ghost use Rattle.std.specs.Prelude.{◌≡◌, List, false, IsTrue};
ghost use Rattle.fs_machine.specs.declared.note.LoadNote.{LoadNote};
ghost use Rattle.fs_machine.specs.Here.{IsHere};
ghost use Rattle.fs_machine.specs.Questions.{owes};
ghost use Rattle.fs_conn.specs.Play as spec;
ghost use Rattle.fs_conn.specs.Play.{switch_of, noted};
ghost use Rattle.fs_conn.specs.Steps.{HoldsLittle};
ghost use Rattle.fs_conn.specs.Loads.{LoadsBy};
ghost use Rattle.fs_conn.specs.Filed.{file_of};
ghost use Rattle.fs_conn.specs.Playing.{Playing, seen, so_far, AreNotes, Loads, IsNew};
ghost use Rattle.fs_conn.specs.Turns.{Stands, Turns, Falls, OnGoOn, Converses, Plays};

use crate::end::End;
use crate::playing::{CONN, Play};
use crate::stop::Stop;
use crate::wire::Filled;
use fs_frame::{Blocks, Next};
use fs_ports::{Files, Link};

// What one turn of a conversation came to.
#[derive(Clone, Copy, Debug)]
enum Turn {
    GoOn,
    Done(End),
}

impl<L: Link, F: Files> Play<'_, '_, '_, L, F> {
    /// Plays the whole connection, for which nothing was done yet.
    pub(crate) fn whole(&mut self) -> End
        requires waits { IsTrue self.old.wire.input.waits }
        requires new { IsNew (seen self.old) }
        ensures config { self.new.machine.now.config ≡ self.old.machine.now.config }
        ensures lent { (seen self.new).lent ≡ (seen self.old).lent }
        ensures plays { Plays self.old.machine.now.config (noted self.new.machine.now.journal)
            self.old.wire.input self.old.wire.output self.new.wire.input self.new.wire.output
            self.new.machine.now.journal result }
        ensures loads { LoadsBy result (file_of F.loads F.counts F.sizes self.old.file)
            (file_of F.loads F.counts F.sizes self.new.file)
            (noted self.new.machine.now.journal) }
    {
        match self.converse() {
            Ok(end) => end,
            Err(stop) => self.break_off(stop),
        }
    }

    fn converse(&mut self) -> Result<End, Stop>
        requires waits { IsTrue self.old.wire.input.waits }
        requires new { IsNew (seen self.old) }
        ensures converses { (notes : List LoadNote) → AreNotes (seen self.new) notes
            → Converses notes (seen self.old) (seen self.new) result }
        ensures loads { Loads (file_of F.loads F.counts F.sizes self.old.file)
            (file_of F.loads F.counts F.sizes self.new.file)
            (seen self.old) (seen self.new) result }
        ensures lent { (seen self.new).lent ≡ (seen self.old).lent }
    {
        self.arrive()?;
        self.follow()?;
        let mut blocks = Blocks::new(self.alloc)?;
        loop {
            match self.take_turn(&mut blocks)? {
                Turn::GoOn => {}
                Turn::Done(end) => {
                    self.finish()?;
                    return Ok(end);
                }
            }
        }
    }

    // Takes the next block, or reads more where none is there; or finds that the connection reads no further one.
    fn take_turn(&mut self, blocks: &mut Blocks) -> Result<Turn, Stop>
        requires waits { IsTrue self.old.wire.input.waits }
        requires here { IsHere 1 (switch_of (so_far (seen self.old))) }
        requires free { owes (switch_of (so_far (seen self.old))) 1 ≡ false }
        requires little { HoldsLittle blocks.old }
        ensures waits { self.new.wire.input.waits ≡ self.old.wire.input.waits }
        ensures here { OnGoOn result (IsHere 1 (switch_of (so_far (seen self.new)))) }
        ensures free { OnGoOn result (owes (switch_of (so_far (seen self.new))) 1 ≡ false) }
        ensures turns { (notes : List LoadNote) → AreNotes (seen self.new) notes → (start : Playing)
            → Stands notes start (seen self.old) blocks.old → Turns notes start (seen self.new) blocks.new result }
        ensures falls { Falls (so_far (seen self.old)) blocks.old (so_far (seen self.new)) blocks.new result }
        ensures loads { Loads (file_of F.loads F.counts F.sizes self.old.file)
            (file_of F.loads F.counts F.sizes self.new.file)
            (seen self.old) (seen self.new) result }
        ensures lent { (seen self.new).lent ≡ (seen self.old).lent }
        ensures little { HoldsLittle blocks.new }
    {
        self.machine.sound();
        if let Some(end) = self.farewell() {
            return Ok(Turn::Done(end));
        }
        match blocks.next_block() {
            Next::Block(block) => {
                self.command(block.bytes())?;
                self.follow()?;
                Ok(Turn::GoOn)
            }
            Next::NeedMore => match self.wire.fill(blocks)? {
                Filled::More => Ok(Turn::GoOn),
                Filled::AtEnd => Ok(Turn::Done(End::Eof)),
                Filled::ReadFailed => Ok(Turn::Done(End::ReadFault)),
            },
            Next::TooLong { len } => Ok(Turn::Done(End::TooLong { len })),
            Next::BadLength => Ok(Turn::Done(End::BadLength)),
        }
    }

    // How the connection ends where it reads no further command, by what it parted for.
    fn farewell(&self) -> Option<End>
        ensures { result ≡ spec.farewell (so_far (seen self.now)) }
    {
        End::by_parting(self.machine.parting(CONN))
    }
}
