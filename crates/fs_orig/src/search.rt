//! What is read of the legs of an origination.

ghost use Rattle.std.specs.Prelude.{◌≡◌, ◌<◌, ◌^◌, length, IfSome};
ghost use Rattle.std.specs.List.{filter_map, last_or, position};
ghost use Rattle.std.specs.Option.{ForSome};
ghost use Rattle.fs_orig.specs.Legs as spec;
ghost use Rattle.fs_orig.specs.Verdicts.{limit_of, has_come, expired_leg};

use crate::leg::{OrigLeg, OrigLegs};
use fs_text::Cause;

impl OrigLegs {
    /// Whether one of them lives.
    pub fn any_lives(&self) -> bool
        ensures { result ≡ spec.any_lives self.now }
    {
        self.as_slice().iter().any(|leg| leg.lives())
    }

    /// The position of the living one that is the channel in a slot, if there is one.
    pub fn position_in(&self, slot: u16) -> Option<u32>
        ensures { result ≡ spec.position_in slot self.now }
    {
        narrow(position_living_in(self.as_slice(), slot))
    }

    /// The position of the living one that was answered first.
    pub(crate) fn winner(&self) -> Option<u32>
        ensures { result ≡ spec.winner self.now }
    {
        let legs = self.as_slice();
        match first_answer(legs) {
            Some(place) => narrow(position_answered(legs, place)),
            None => None,
        }
    }

    /// The position of the first living one that has had its time.
    pub(crate) fn expired(&self, now: u64) -> Option<u32>
        ensures { result ≡ expired_leg now self.now }
    {
        narrow(position_expired(self.as_slice(), now))
    }

    /// The cause of the one that died last.
    pub(crate) fn last_cause(&self) -> Option<Cause>
        ensures { result ≡ spec.last_cause self.now }
    {
        let legs = self.as_slice();
        match last_death(legs) {
            Some(place) => last_cause_at(legs, place),
            None => None,
        }
    }
}

/// The first position of a living leg that is the channel in a slot.
fn position_living_in(legs: &[OrigLeg], slot: u16) -> Option<usize>
    ensures position { result ≡ spec.position_in slot legs.now }
    ensures bound { IfSome result (λ found. found < length legs.now) }
{
    legs.iter()
        .position(|leg| leg.lives() && leg.slot == Some(slot))
}

/// The least place at which a living leg was answered.
fn first_answer(legs: &[OrigLeg]) -> Option<u64>
    ensures { result ≡ spec.first_answer legs.now }
{
    legs.iter().filter_map(|leg| leg.answer_place()).min()
}

/// The first position of a living leg that was answered at a place.
fn position_answered(legs: &[OrigLeg], place: u64) -> Option<usize>
    ensures position { result ≡ position (λ leg. spec.is_at place (spec.answer_of leg)) legs.now }
    ensures bound { IfSome result (λ found. found < length legs.now) }
{
    legs.iter()
        .position(|leg| leg.answer_place() == Some(place))
}

/// The first position of a living leg that has had its time.
fn position_expired(legs: &[OrigLeg], now: u64) -> Option<usize>
    ensures position { result ≡ expired_leg now legs.now }
    ensures bound { IfSome result (λ found. found < length legs.now) }
{
    legs.iter().position(|leg| leg.has_expired(now))
}

/// The greatest place at which a leg died.
fn last_death(legs: &[OrigLeg]) -> Option<u64>
    ensures { result ≡ spec.last_death legs.now }
{
    legs.iter().filter_map(|leg| leg.died).max()
}

/// The cause of the last leg, in their order, that died at a place.
fn last_cause_at(legs: &[OrigLeg], place: u64) -> Option<Cause>
    ensures { result ≡ last_or None (filter_map (spec.cause_at place) legs.now) }
{
    let mut last = None;
    for leg in legs {
        if let Some(cause) = leg.cause_at(place) {
            last = Some(cause);
        }
    }
    last
}

/// A position in 32 bits.
fn narrow(position: Option<usize>) -> Option<u32>
    requires { ForSome position (λ found. found < 2 ^ 32) }
    ensures { result ≡ position }
{
    match position {
        Some(found) => Some(found as u32),
        None => None,
    }
}

impl OrigLeg {
    /// The place at which it was answered, while it lives.
    fn answer_place(&self) -> Option<u64>
        ensures { result ≡ spec.answer_of self.now }
    {
        if self.lives() { self.answered } else { None }
    }

    /// The moment at which it is given up, while it lives.
    pub(crate) fn limit(&self) -> Option<u64>
        ensures { result ≡ limit_of self.now }
    {
        if self.lives() { self.deadline } else { None }
    }

    /// Whether it lives and has had its time.
    fn has_expired(&self, now: u64) -> bool
        ensures { result ≡ has_come now (limit_of self.now) }
    {
        match self.limit() {
            Some(limit) => limit <= now,
            None => false,
        }
    }

    /// The cause that it died of at a place.
    fn cause_at(&self, place: u64) -> Option<Cause>
        ensures { result ≡ spec.cause_at place self.now }
    {
        if self.died == Some(place) {
            self.cause
        } else {
            None
        }
    }
}
