//! Acts are entered at the moment of the clock.

ghost use Rattle.std.specs.Prelude.{◌≡◌, true, false, [], OnOk};
ghost use Rattle.fs_machine.specs.declared.entry.Act.TheVariants.{Arrive, Command};
ghost use Rattle.fs_machine.specs.Entries.{is_load};
ghost use Rattle.fs_machine.specs.Here.{IsHere};
ghost use Rattle.fs_machine.specs.Questions.{owes};
ghost use Rattle.fs_conn.specs.Play.{noted, switch_of, output_of, reads_on, after_trying_act};
ghost use Rattle.fs_conn.specs.Steps.{Enters, Costs, IsUnwritten};
ghost use Rattle.fs_conn.specs.Filed.{file_of};
ghost use Rattle.fs_conn.specs.Playing.{seen, so_far, DoesSo, Loads, Adds, OnlyPlays};

use crate::end::End;
use crate::playing::{CONN, Play};
use crate::stop::Stop;
use fs_machine::{Act, Entry, Refusal, Reply};
use fs_ports::{Files, Link};
use fs_text::Txt;

impl<L: Link, F: Files> Play<'_, '_, '_, L, F> {
    /// Enters an act that notes no load, and gives its reply; none where it is refused and the play goes on.
    pub(crate) fn enter(&mut self, act: Act) -> Result<Option<Reply>, Stop>
        requires other { is_load act ≡ false }
        ensures enters { Enters act (so_far (seen self.old)) (so_far (seen self.new)) result }
        ensures clock { self.new.clock ≡ self.old.clock }
        ensures noted { noted self.new.machine.now.journal ≡ noted self.old.machine.now.journal }
        ensures adds { Adds (file_of F.loads F.counts F.sizes self.old.file)
            (file_of F.loads F.counts F.sizes self.new.file)
            (seen self.old) (seen self.new) }
        ensures only { OnlyPlays (seen self.old) (seen self.new) }
    {
        let moment = self.clock;
        match self.machine.step(&Entry { moment, act }) {
            Ok(reply) => Ok(Some(reply)),
            Err(Refusal::JournalFull { cost, limit }) => {
                Err(Stop::Over(End::JournalFull { cost, limit }))
            }
            Err(Refusal::Memory) => Err(Stop::OutOfMemory),
            Err(_) => Ok(None),
        }
    }

    /// Enters the coming of the connection, before which nothing was entered.
    pub(crate) fn arrive(&mut self) -> Result<(), Stop>
        requires begun { self.old.machine.now.journal ≡ [] }
        ensures does { DoesSo (after_trying_act Arrive) (seen self.old) (seen self.new) result }
        ensures output { output_of (so_far (seen self.new)) ≡ output_of (so_far (seen self.old)) }
        ensures here { OnOk result (IsHere 1 (switch_of (so_far (seen self.new)))) }
        ensures unwritten { IsUnwritten result }
        ensures loads { Loads (file_of F.loads F.counts F.sizes self.old.file)
            (file_of F.loads F.counts F.sizes self.new.file)
            (seen self.old) (seen self.new) result }
        ensures only { OnlyPlays (seen self.old) (seen self.new) }
    {
        self.machine.sound();
        match self.enter(Act::Arrive)? {
            Some(_) => Ok(()),
            None => unreachable!(),
        }
    }

    /// Enters a command of the connection, which reads one and is owed no reply.
    pub(crate) fn command(&mut self, block: &[u8]) -> Result<(), Stop>
        requires reads { reads_on (so_far (seen self.old)) ≡ true }
        requires owed { owes (switch_of (so_far (seen self.old))) 1 ≡ false }
        ensures does { DoesSo (after_trying_act (Command 1 block.now)) (seen self.old) (seen self.new) result }
        ensures output { output_of (so_far (seen self.new)) ≡ output_of (so_far (seen self.old)) }
        ensures costs { OnOk result (Costs (so_far (seen self.old)) (so_far (seen self.new))) }
        ensures unwritten { IsUnwritten result }
        ensures loads { Loads (file_of F.loads F.counts F.sizes self.old.file)
            (file_of F.loads F.counts F.sizes self.new.file)
            (seen self.old) (seen self.new) result }
        ensures only { OnlyPlays (seen self.old) (seen self.new) }
    {
        let block = Txt::of(self.alloc, block)?;
        match self.enter(Act::Command { conn: CONN, block })? {
            Some(_) => Ok(()),
            None => unreachable!(),
        }
    }
}
