//! The changes of an origination.

ghost use Rattle.std.specs.Prelude.{◌≡◌, slice_get};
ghost use Rattle.std.specs.Option.{option_copied};
ghost use Rattle.fs_orig.specs.Changes as spec;
ghost use Rattle.fs_orig.specs.Laws as laws;
ghost use Rattle.fs_orig.specs.Legs.{lives};
ghost use Rattle.fs_orig.specs.Verdicts.{next_group};

use crate::leg::OrigLegs;
use crate::orig::Orig;
use crate::plan::LegGroup;
use fs_text::Cause;

impl Orig {
    /// The leg at a position is answered by the entry at a place. Says whether it is now: it rang before.
    pub fn leg_answered(&mut self, position: u32, place: u64) -> bool
        ensures answer { result ≡ spec.is_so_at spec.rings (slice_get self.old.legs position) }
        ensures answered { self.new ≡ spec.with_answer position place self.old }
    {
        self.legs.answer(position, place)
    }

    /// The leg at a position dies in the entry at a place. Says whether it does: it lived before. A leg that died keeps
    /// its place and its cause.
    pub fn leg_died(&mut self, position: u32, place: u64, cause: Cause) -> bool
        ensures answer { result ≡ spec.is_so_at lives (slice_get self.old.legs position) }
        ensures dead { self.new ≡ spec.with_death position place cause self.old }
    {
        self.legs.die(position, place, cause)
    }

    /// The group that is to be tried after the current one, if there is one.
    pub fn next_group(&self) -> Option<&LegGroup>
        ensures { option_copied result ≡ next_group self.now }
    {
        self.groups.as_slice().get(self.current as usize + 1)
    }

    /// Goes on to the next group, of which these legs were made, and says whether it does: all legs of the current one
    /// died, and there is a next one.
    pub fn enter_next_group(&mut self, legs: OrigLegs) -> bool
        ensures answer { result ≡ spec.may_enter_next self.old }
        ensures group { self.new ≡ spec.at_next_group legs self.old }
    {
        let next = self.current as usize + 1;
        if self.legs.any_lives() || next >= self.groups.as_slice().len() {
            return false;
        }
        self.current += 1;
        self.legs = legs;
        true
    }
}

/// Law: what changes of a leg keep.
pub fn changes_law()
    ensures dead { laws.DeadIsNotAnswered }
    ensures dead_once { laws.DeadDiesOnce }
    ensures others { laws.OthersStay }
{}
