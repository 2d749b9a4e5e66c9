//! Passes are split, and met into one another.
ghost use Rattle.std.specs.Prelude.{◌≡◌, ◌+◌, ◌<◌, [], ◌∷◌, ◌++◌};
ghost use mathlib.Core.List.{IsPrefix};
ghost use Rattle.fs_book.specs.declared.view.Stage.TheVariants.{Idle};
ghost use Rattle.fs_book.specs.Turns.{cut_left, cut_right, longer};
ghost use Rattle.fs_book.specs.Passes.{seen, mine, met, parts, GivesParts, IsPassOf};

use crate::book::Book;
use crate::pass::Pass;
use crate::rule::{BookSeat, Count, Cut, Learn, Meet};
use crate::tenure::TURN;
use crate::turned::Turned;
use std::marker::Brand;

impl<M: Turned> Book<M> {
    /// A new pass, with so many of the parts. It has seen what the old one has, and has no places.
    pub fn split(&self, pass: &mut Pass<M>, count: u64) -> Pass<M>
        requires book { IsPassOf M.start self.now pass.old }
        requires count { (0 < count) × (count < parts pass.old) }
        ensures book { IsPassOf M.start self.now pass.new × IsPassOf M.start self.now result }
        ensures old { GivesParts count pass.old pass.new }
        ensures new { (seen result ≡ seen pass.old) × (mine result ≡ []) × (met result ≡ []) × (parts result ≡ count) }
    {
        let seat = self.cut::<Brand>(&mut pass.seat, count);
        pass.parts -= count;
        Pass { seat, parts: count }
    }

    // Gives so many parts to a new seat. The caller picks `N.number`, which is that many.
    fn cut<N: Count>(&self, seat: &mut BookSeat<M>, count: u64) -> BookSeat<M>
        requires own { seat.old.table_id ≡ self.now.desk.shared.table_id }
        requires rests { seat.old.me.0.stage ≡ Idle }
        requires number { count ≡ N.number }
        requires count { (0 < count) × (count < seat.old.me.0.parts) }
        ensures same { (seat.new.table_id ≡ seat.old.table_id) × (seat.new.id ≡ seat.old.id) }
        ensures left { seat.new.me ≡ (cut_left count seat.old.me.0, seat.old.me.1) }
        ensures right { (result.table_id ≡ seat.old.table_id) × (result.me ≡ (cut_right count seat.old.me.0, [])) }
    {
        let _ = count;
        self.desk.shared.split_seat::<Cut<N>>(seat)
    }

    /// Takes another pass into this one, which then knows the longer of what both had seen, and has the lists and the
    /// parts of both.
    pub fn meet(&self, pass: &mut Pass<M>, other: Pass<M>)
        requires book { IsPassOf M.start self.now pass.old × IsPassOf M.start self.now other }
        ensures book { IsPassOf M.start self.now pass.new }
        ensures seen { IsPrefix (seen pass.old) (seen pass.new) × IsPrefix (seen other) (seen pass.new)
            × (seen pass.new ≡ longer (seen pass.old) (seen other)) }
        ensures lists { (mine pass.new ≡ mine pass.old) × (met pass.new ≡ met pass.old ++ mine other ∷ met other) }
        ensures parts { parts pass.new ≡ parts pass.old + parts other }
    {
        let Pass { seat, parts } = other;
        let shared = &self.desk.shared;
        shared.join_seat::<Meet>(&mut pass.seat, seat);
        shared.load::<Learn>(&mut pass.seat, TURN);
        pass.parts += parts;
    }
}
