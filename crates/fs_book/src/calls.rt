//! What the holder of a pass does.
ghost use Rattle.std.specs.Prelude.{◌≡◌, ℕ, ◌+◌, ◌<◌, List, [], ◌∷◌, ◌++◌, length, IfOk, IfErr};
ghost use mathlib.Core.List.{IsPrefix};
ghost use Rattle.fs_book.specs.Opened.{NamesOwn};
ghost use Rattle.fs_book.specs.Passes.{seen, mine, met, parts, opening_state, IsPassOf, KeepsLists};

use crate::book::Book;
use crate::pass::Pass;
use crate::turned::{Ask, Receipt, Turned};
use std::sync::Wait;

impl<M: Turned> Book<M> {
    /// Waits for its turn, and enters one entry, if the state takes it.
    ///
    /// Whoever names a number has its opening among its own entries. A refused entry changes nothing.
    pub fn submit(
        &self,
        rt: &impl Wait,
        pass: &mut Pass<M>,
        entry: M::Entry,
    ) -> Result<Receipt<M::Answer>, M::Refusal>
        requires book { IsPassOf M.start self.now pass.old }
        requires fits { M.fits (M.start (opening_state self.now)) (seen pass.old) entry }
        requires owns { NamesOwn M.opens M.names (M.start (opening_state self.now)) (seen pass.old) (mine pass.old)
            (M.logged entry) }
        ensures book { IsPassOf M.start self.now pass.new }
        ensures kept { (met pass.new ≡ met pass.old) × (parts pass.new ≡ parts pass.old) }
        ensures later { IsPrefix (seen pass.old) (seen pass.new) }
        ensures ok { IfOk result (λ r. (before : List M.Logged) × IsPrefix (seen pass.old) before
            × (seen pass.new ≡ before ++ M.logged entry ∷ []) × (r.place ≡ length before)
            × (mine pass.new ≡ mine pass.old ++ r.place ∷ [])
            × M.answers (M.start (opening_state self.now)) before entry r.answer) }
        ensures err { IfErr result (λ r. (mine pass.new ≡ mine pass.old)
            × M.refuses (M.start (opening_state self.now)) (seen pass.new) entry r) }
    {
        let _entered = self.entrance.lock(rt);
        let seat = &mut pass.seat;
        let mut state = self.enter(rt, seat);
        let place = state.place();
        match state.turn(entry) {
            Ok(answer) => {
                self.leave_longer(seat, state);
                Ok(Receipt { place, answer })
            }
            Err(refusal) => {
                self.leave(seat, state);
                Err(refusal)
            }
        }
    }

    /// Waits for its turn, and asks a question.
    pub fn look<Q: Ask<M>>(&self, rt: &impl Wait, pass: &mut Pass<M>, question: &Q) -> Q::Answer
        requires book { IsPassOf M.start self.now pass.old }
        ensures book { IsPassOf M.start self.now pass.new }
        ensures kept { KeepsLists pass.old pass.new }
        ensures later { IsPrefix (seen pass.old) (seen pass.new) }
        ensures answer { Q.tells question.now (M.start (opening_state self.now)) (seen pass.new) result }
    {
        let _entered = self.entrance.lock(rt);
        let seat = &mut pass.seat;
        let state = self.enter(rt, seat);
        let answer = question.ask(&state);
        self.leave(seat, state);
        answer
    }
}
