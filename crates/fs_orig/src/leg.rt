//! The legs that an origination has made.

ghost use Rattle.std.specs.Prelude.{◌≡◌, ◌<◌, ◌+◌, ◌^◌, [], ◌∷◌, ◌++◌, length, slice_get, IfOk, OnOk, OnErr};

use fs_text::{Cause, Memory, Txt};
use std::alloc::Global;
use std::marker::Model;

/// A leg of an origination: a channel that was made to be answered.
pub struct OrigLeg {
    /// The slot of its channel; a leg that died as it was made has none.
    pub slot: Option<u16>,
    /// The identifier of its channel.
    pub uuid: Txt,
    /// The moment, in microseconds, at which it is given up.
    pub deadline: Option<u64>,
    /// The place of the entry that answered it.
    pub answered: Option<u64>,
    /// The place of the entry in which it died.
    pub died: Option<u64>,
    /// What it died of.
    pub cause: Option<Cause>,
}

impl Drop for OrigLeg {
    fn drop(self) {
        let OrigLeg {
            slot: _slot,
            uuid: _uuid,
            deadline: _deadline,
            answered: _answered,
            died: _died,
            cause: _cause,
        } = self;
    }
}

/// The legs of an origination's group, in order; there are less than 2^32. A contract sees them as that list.
#[derive(Drop)]
pub struct OrigLegs {
    legs: Vec<OrigLeg>,
}

impl Model for OrigLegs {
    ghost use Rattle.std.specs.Prelude.{List, ◌<◌, ◌^◌, length};
    ghost use Rattle.fs_orig.specs.declared.leg.OrigLeg.{OrigLeg};

    ghost Value = { List OrigLeg };

    ghost view = { λ l. l.legs.items };

    ghost invariant = { λ l. length l.legs.items < 2 ^ 32 };
}

impl OrigLeg {
    ghost use Rattle.fs_orig.specs.Legs.{lives};
    ghost use Rattle.fs_orig.specs.Changes.{ringing, unmade, rings, with_leg_answer, with_leg_death};

    /// A leg that rings, as the channel in a slot with an identifier, until it is given up at a moment, if there is
    /// one.
    pub fn ringing(slot: u16, uuid: Txt, deadline: Option<u64>) -> OrigLeg
        ensures { result ≡ ringing slot uuid deadline }
    {
        OrigLeg {
            slot: Some(slot),
            uuid,
            deadline,
            answered: None,
            died: None,
            cause: None,
        }
    }

    /// A leg that died as it was made, by the entry at a place.
    pub fn unmade(alloc: Global, place: u64, cause: Cause) -> Result<OrigLeg, Memory>
        ensures { IfOk result (λ leg. leg ≡ unmade place cause) }
    {
        Ok(OrigLeg {
            slot: None,
            uuid: Txt::of(alloc, &[])?,
            deadline: None,
            answered: None,
            died: Some(place),
            cause: Some(cause),
        })
    }

    /// Copies the leg.
    pub fn copy(&self) -> Result<OrigLeg, Memory>
        ensures { IfOk result (λ leg. leg ≡ self.now) }
    {
        Ok(OrigLeg {
            slot: self.slot,
            uuid: self.uuid.copy()?,
            deadline: self.deadline,
            answered: self.answered,
            died: self.died,
            cause: self.cause,
        })
    }

    /// Whether it has not died.
    pub fn lives(&self) -> bool
        ensures { result ≡ lives self.now }
    {
        self.died.is_none()
    }

    /// Whether it has neither died nor been answered.
    pub fn rings(&self) -> bool
        ensures { result ≡ rings self.now }
    {
        self.lives() && self.answered.is_none()
    }

    /// Is answered by the entry at a place, if it rings, and says whether it is now.
    fn answer(&mut self, place: u64) -> bool
        ensures answer { result ≡ rings self.old }
        ensures answered { self.new ≡ with_leg_answer place self.old }
    {
        if !self.rings() {
            return false;
        }
        self.answered = Some(place);
        true
    }

    /// Dies in the entry at a place, if it lives, and says whether it does.
    fn die(&mut self, place: u64, cause: Cause) -> bool
        ensures answer { result ≡ lives self.old }
        ensures dead { self.new ≡ with_leg_death place cause self.old }
    {
        if !self.lives() {
            return false;
        }
        self.died = Some(place);
        self.cause = Some(cause);
        true
    }
}

impl OrigLegs {
    ghost use Rattle.fs_orig.specs.Legs.{lives};
    ghost use Rattle.fs_orig.specs.Changes.{rings, is_so_at, with_leg_answer, with_leg_death, with_changed_leg};

    /// No legs.
    pub fn new(alloc: Global) -> OrigLegs
        ensures { result ≡ [] }
    {
        OrigLegs {
            legs: Vec::new(alloc),
        }
    }

    /// The legs of a vector, in its order; takes no memory.
    pub fn from_vec(legs: Vec<OrigLeg>) -> OrigLegs
        requires { length legs.items < 2 ^ 32 }
        ensures { result ≡ legs.items }
    {
        OrigLegs { legs }
    }

    /// Puts a leg behind all others, of which there are less than 2^32 - 1.
    pub fn push(&mut self, leg: OrigLeg) -> Result<(), Memory>
        requires { length self.old + 1 < 2 ^ 32 }
        ensures ok { OnOk result (self.new ≡ self.old ++ leg ∷ []) }
        ensures err { OnErr result (self.new ≡ self.old) }
    {
        self.legs.push(leg)?;
        Ok(())
    }

    /// The legs, in order: less than 2^32.
    pub fn as_slice(&self) -> &[OrigLeg]
        ensures legs { result.now ≡ self.now }
        ensures bound { length self.now < 2 ^ 32 }
    {
        self.legs.as_slice()
    }

    /// Copies the legs.
    pub fn copy(&self) -> Result<OrigLegs, Memory>
        ensures { IfOk result (λ legs. legs ≡ self.now) }
    {
        let mut legs = OrigLegs::new(*self.legs.allocator());
        for leg in &self.legs {
            legs.push(leg.copy()?)?;
        }
        Ok(legs)
    }

    /// The leg at a position is answered by the entry at a place. Says whether it is now: it rang before.
    pub(crate) fn answer(&mut self, position: u32, place: u64) -> bool
        ensures answer { result ≡ is_so_at rings (slice_get self.old position) }
        ensures answered { self.new ≡ with_changed_leg (with_leg_answer place) position self.old }
    {
        match self.legs.get_mut(position as usize) {
            Some(leg) => leg.answer(place),
            None => false,
        }
    }

    /// The leg at a position dies in the entry at a place. Says whether it does: it lived before.
    pub(crate) fn die(&mut self, position: u32, place: u64, cause: Cause) -> bool
        ensures answer { result ≡ is_so_at lives (slice_get self.old position) }
        ensures dead { self.new ≡ with_changed_leg (with_leg_death place cause) position self.old }
    {
        match self.legs.get_mut(position as usize) {
            Some(leg) => leg.die(place, cause),
            None => false,
        }
    }
}

/// The vector of the legs, in order; takes no memory.
impl From<OrigLegs> for Vec<OrigLeg> {
    ghost from_gives = { λ legs list. list.items ≡ legs };

    fn from(legs: OrigLegs) -> Vec<OrigLeg> {
        legs.legs
    }
}
