//! A caller's time with the state: from the ticket to the turn that is passed on.
ghost use Rattle.std.specs.Prelude.{◌≡◌, ℕ, ◌<◌, [], ◌∷◌, ◌++◌, length, Some, None};
ghost use Rattle.fs_book.specs.declared.view.Stage.TheVariants.{Idle, Out};
ghost use Rattle.fs_book.specs.Opened.{NamesOwn};
ghost use Rattle.fs_book.specs.Turns.{Sound};
ghost use Rattle.fs_book.specs.Tenures.{IsIn};

use crate::book::Book;
use crate::rule::{Add, BookSeat, Come, Draw, Leave};
use crate::turned::Turned;
use std::sync::Wait;
use std::thread;

// The words of the lock: the tickets drawn, and the ticket whose turn it is.
pub const TICKETS: usize = 0;

pub const TURN: usize = 1;

impl<M: Turned> Book<M> {
    // Draws a ticket, waits for its turn, and takes the state. Whoever came by the entrance is alone here, so its turn
    // has come already.
    pub(crate) fn enter(&self, rt: &impl Wait, seat: &mut BookSeat<M>) -> M
        requires own { seat.old.table_id ≡ self.now.desk.shared.table_id }
        requires rests { (seat.old.me.1 ≡ []) × (seat.old.me.0.stage ≡ Idle) × (0 < seat.old.me.0.parts) }
        ensures same { (seat.new.table_id ≡ seat.old.table_id) × (seat.new.id ≡ seat.old.id) }
        ensures is_in { IsIn M.start M.journal M.opens M.names seat.old.me.0 result seat.new.me }
    {
        let shared = &self.desk.shared;
        let ticket = shared.fetch_add::<Draw>(seat, TICKETS, 1);
        for _ in rt.forever() {
            let turn = shared.load::<Come>(seat, TURN);
            if turn == ticket {
                let Some(state) = shared.exchange(seat, 0, None) else {
                    unreachable!()
                };
                return state;
            }
            thread::yield_now();
        }
        unreachable!()
    }

    // Puts the state into the slot, which this caller still has.
    fn put_back(&self, seat: &mut BookSeat<M>, state: M)
        requires own { seat.old.table_id ≡ self.now.desk.shared.table_id }
        requires carries { seat.old.me.1 ≡ (0, None) ∷ [] }
        ensures same { (seat.new.table_id ≡ seat.old.table_id) × (seat.new.id ≡ seat.old.id) }
        ensures carries { seat.new.me ≡ (seat.old.me.0, (0, Some state) ∷ []) }
    {
        let empty = self.desk.shared.exchange(seat, 0, Some(state));
        let None = empty else { unreachable!() };
    }

    // Gives the state back as it was, and passes the turn on.
    pub(crate) fn leave(&self, seat: &mut BookSeat<M>, state: M)
        requires own { seat.old.table_id ≡ self.now.desk.shared.table_id }
        requires out { (k : ℕ) × (seat.old.me.0.stage ≡ Out k) }
        requires some_part { 0 < seat.old.me.0.parts }
        requires carries { seat.old.me.1 ≡ (0, None) ∷ [] }
        requires same_start { seat.old.me.0.start ≡ Some (M.start state) }
        requires same_journal { M.journal state ≡ seat.old.me.0.seen }
        ensures same { (seat.new.table_id ≡ seat.old.table_id) × (seat.new.id ≡ seat.old.id) }
        ensures left { seat.new.me ≡ (record seat.old.me.0 { stage = Idle }, []) }
    {
        self.put_back(seat, state);
        self.desk.shared.fetch_add::<Leave>(seat, TURN, 1);
    }

    // Gives the state back with one entry more, and passes the turn on.
    pub(crate) fn leave_longer(&self, seat: &mut BookSeat<M>, state: M)
        requires own { seat.old.table_id ≡ self.now.desk.shared.table_id }
        requires out { (k : ℕ) × (seat.old.me.0.stage ≡ Out k) }
        requires some_part { 0 < seat.old.me.0.parts }
        requires carries { seat.old.me.1 ≡ (0, None) ∷ [] }
        requires same_start { seat.old.me.0.start ≡ Some (M.start state) }
        requires longer { (e : M.Logged) × (M.journal state ≡ seat.old.me.0.seen ++ e ∷ [])
            × NamesOwn M.opens M.names (M.start state) seat.old.me.0.seen seat.old.me.0.mine e }
        ensures same { (seat.new.table_id ≡ seat.old.table_id) × (seat.new.id ≡ seat.old.id) }
        ensures sound { Sound M.opens M.names seat.new.me.0 }
        ensures left { seat.new.me ≡ (
          record seat.old.me.0 {
            stage = Idle;
            seen = M.journal state;
            mine = seat.old.me.0.mine ++ length seat.old.me.0.seen ∷ [];
          },
          [],
        ) }
    {
        self.put_back(seat, state);
        self.desk.shared.fetch_add::<Add>(seat, TURN, 1);
    }
}
