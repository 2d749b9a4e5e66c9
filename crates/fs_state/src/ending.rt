//! The end of a switch: nothing is left to be done, and all connections part.
ghost use Rattle.std.specs.Prelude.{◌≡◌, IfOk};
ghost use Rattle.fs_seats.specs.Seats.{held_in};
ghost use Rattle.fs_state.specs.Drafts.{drafted, Brings};
ghost use Rattle.fs_state.specs.Ending as spec;

use crate::conn::{Conn, Parting, Phase};
use crate::draft::Draft;
use fs_filter::SharedSubs;
use fs_seats::{Numbered, Table};
use fs_text::{Memory, Txt};

impl<'a> Draft<'a> {
    /// The switch comes to its end by the entry in hand: no job and no origination is left, each connection that is
    /// owed a reply gets this one, and each that reads commands reads no further one, and gets this notice.
    pub fn end(&mut self, reply: &Txt, notice: &Txt) -> Result<(), Memory>
        ensures { Brings result self.old self.new (spec.ended reply.now notice.now (drafted self.old)) }
    {
        self.drop_jobs()?;
        self.drop_origs()?;
        self.release_all(reply, notice)?;
        self.stop();
        Ok(())
    }

    /// Each connection gets the reply that it is owed, and parts where it reads commands.
    #[tactic(auto, using(crate::proofs::EndLemmas::released_rules))]
    fn release_all(&mut self, reply: &Txt, notice: &Txt) -> Result<(), Memory>
        ensures { Brings result self.old self.new (spec.all_released reply.now notice.now (drafted self.old)) }
    {
        for seat in 0..self.conns().filled() {
            self.release_at(seat, reply, notice)?;
        }
        Ok(())
    }

    /// So does the one that stands at a seat, if one does.
    fn release_at(&mut self, seat: usize, reply: &Txt, notice: &Txt) -> Result<(), Memory>
        ensures { Brings result self.old self.new
            (spec.released_at seat reply.now notice.now (held_in (drafted self.old).conns seat) (drafted self.old)) }
    {
        let Some(row) = self.conns().lend(seat) else {
            return Ok(());
        };
        let (number, owed, phase) = (row.number, row.held.owed, row.held.phase);
        let held = released(&row.held)?;
        self.put_conn_at(seat, Numbered { number, held })?;
        self.reply_last(number, owed, reply)?;
        self.notify_last(number, phase, notice)
    }

    /// The connection of a number gets the reply that it is owed, if it is.
    fn reply_last(&mut self, conn: u64, owed: Option<u64>, reply: &Txt) -> Result<(), Memory>
        ensures { Brings result self.old self.new (spec.with_last_reply conn reply.now owed (drafted self.old)) }
    {
        match owed {
            Some(_) => self.delta.late.push_to(conn, reply.copy()?),
            None => Ok(()),
        }
    }

    /// It gets the notice, if it reads commands.
    fn notify_last(&mut self, conn: u64, phase: Phase, notice: &Txt) -> Result<(), Memory>
        ensures { Brings result self.old self.new (spec.with_last_notice conn notice.now phase (drafted self.old)) }
    {
        match phase {
            Phase::Fresh | Phase::Ready => self.delta.notices.push_to(conn, notice.copy()?),
            Phase::Ending | Phase::Closed => Ok(()),
        }
    }
}

/// What a connection becomes at the end of the switch.
fn released(conn: &Conn) -> Result<Conn, Memory>
    ensures { IfOk result (λ released. released ≡ spec.released_in conn.now.phase conn.now) }
{
    match conn.phase {
        Phase::Fresh | Phase::Ready => Ok(Conn {
            phase: Phase::Ending,
            owed: None,
            parting: Some(Parting::Stopped),
            control: conn.copy_control()?,
            subs: SharedSubs::nothing(),
        }),
        Phase::Ending | Phase::Closed => {
            let mut free = conn.copy()?;
            free.owed = None;
            Ok(free)
        }
    }
}
