//! Whoever has something to do does it.

ghost use Rattle.std.specs.Prelude.{◌≡◌, true, false, [], IfOk};
ghost use Rattle.fs_machine.specs.declared.due.DueActor.TheVariants as actor;
ghost use Rattle.fs_machine.specs.Entries.{is_load};
ghost use Rattle.fs_machine.specs.Frames.{handed_in};
ghost use Rattle.fs_conn.specs.Play.{switch_of, next_actor, after_trying_act, after_due_work, after_due_step};
ghost use Rattle.fs_conn.specs.Steps.{is_due, Works, IsUnwritten};
ghost use Rattle.fs_conn.specs.Filed.{file_of};
ghost use Rattle.fs_conn.specs.Playing.{seen, so_far, DoesSo, Loads, OnlyPlays};

use crate::end::End;
use crate::playing::Play;
use crate::stop::Stop;
use fs_machine::{Act, DueActor, Refusal};
use fs_ports::{Files, Link};

impl<L: Link, F: Files> Play<'_, '_, '_, L, F> {
    /// Lets the least slot, or else the least job, that has something to do do it, and says whether one has.
    pub(crate) fn work_next(&mut self) -> Result<bool, Stop>
        ensures does { DoesSo after_due_step (seen self.old) (seen self.new) result }
        ensures due { IfOk result (λ worked. worked ≡ is_due (next_actor (so_far (seen self.old)))) }
        ensures works { Works (so_far (seen self.old)) (so_far (seen self.new)) }
        ensures clock { self.new.clock ≡ self.old.clock }
        ensures unwritten { IsUnwritten result }
        ensures loads { Loads (file_of F.loads F.counts F.sizes self.old.file)
            (file_of F.loads F.counts F.sizes self.new.file)
            (seen self.old) (seen self.new) result }
        ensures only { OnlyPlays (seen self.old) (seen self.new) }
    {
        match self.machine.next_due(self.clock) {
            DueActor::Slot(slot) => self.work(Act::Work { slot }),
            DueActor::Dial(slot) => {
                let linked = false;
                self.work(Act::Dialed { slot, linked })
            }
            DueActor::Job(job) => self.work(Act::Job { job }),
            DueActor::Load(job) => self.load(job),
            DueActor::Later(_) | DueActor::Never => Ok(false),
        }
    }

    // Enters an act that hands out no frame.
    fn work(&mut self, act: Act) -> Result<bool, Stop>
        requires other { is_load act ≡ false }
        requires silent { handed_in 1 act (switch_of (so_far (seen self.old))) ≡ [] }
        ensures does { DoesSo (after_trying_act act) (seen self.old) (seen self.new) result }
        ensures worked { IfOk result (λ worked. worked ≡ true) }
        ensures works { Works (so_far (seen self.old)) (so_far (seen self.new)) }
        ensures clock { self.new.clock ≡ self.old.clock }
        ensures unwritten { IsUnwritten result }
        ensures loads { Loads (file_of F.loads F.counts F.sizes self.old.file)
            (file_of F.loads F.counts F.sizes self.new.file)
            (seen self.old) (seen self.new) result }
        ensures only { OnlyPlays (seen self.old) (seen self.new) }
    {
        self.enter(act)?;
        Ok(true)
    }

    // Loads the file for the job of a number, whose turn it is. Where the journal has no room for a load, nothing is
    // loaded.
    fn load(&mut self, job: u64) -> Result<bool, Stop>
        requires turn { next_actor (so_far (seen self.old)) ≡ actor.Load job }
        ensures does { DoesSo (after_due_work (actor.Load job)) (seen self.old) (seen self.new) result }
        ensures worked { IfOk result (λ worked. worked ≡ true) }
        ensures works { Works (so_far (seen self.old)) (so_far (seen self.new)) }
        ensures clock { self.new.clock ≡ self.old.clock }
        ensures unwritten { IsUnwritten result }
        ensures loads { Loads (file_of F.loads F.counts F.sizes self.old.file)
            (file_of F.loads F.counts F.sizes self.new.file)
            (seen self.old) (seen self.new) result }
        ensures only { OnlyPlays (seen self.old) (seen self.new) }
    {
        match self.machine.full_for_load() {
            None => {}
            Some(refusal) => match refusal {
                Refusal::JournalFull { cost, limit } => {
                    return Err(Stop::Over(End::JournalFull { cost, limit }));
                }
                _ => unreachable!(),
            },
        }
        let load = self.file.load(self.alloc)?;
        match self.machine.apply_load(self.clock, job, load) {
            Ok(_) => return Ok(true),
            Err(refusal) => match refusal {
                Refusal::Memory => return Err(Stop::OutOfMemory),
                _ => unreachable!(),
            },
        }
    }
}
