//! A dial string as far as it is read.

ghost use Rattle.std.specs.Prelude.{◌≡◌, ◌<◌, ◌≤◌, length, IfOk, IfSome};
ghost use Rattle.fs_dial.specs.Faults.{Answers};
ghost use Rattle.fs_dial.specs.Legs.{leg_of};
ghost use Rattle.fs_dial.specs.DialStrings as spec;

use crate::fault::{DialKind, DialStop};
use crate::leg::{Group, Groups, Leg, read_leg};
use fs_text::Memory;
use std::alloc::Global;
use std::marker::Model;
use std::mem;

/// The most legs of a dial string.
const MOST_LEGS: usize = 64;

/// The groups of a dial string as far as they are read. A contract sees how far that is.
#[derive(Drop)]
pub(crate) struct Reading<'a> {
    alloc: Global,
    /// The groups that are read.
    groups: Groups<'a>,
    /// The legs of the group that is being read.
    legs: Group<'a>,
    /// How many more legs there may be.
    room: usize,
}

impl<'a> Model for Reading<'a> {
    ghost use Rattle.std.specs.Prelude.{◌+◌, ◌≤◌, length};
    ghost use Rattle.fs_dial.specs.DialStrings.{Reached};

    ghost Value = { Reached };

    ghost view = { λ r. record { groups = r.groups; legs = r.legs; room = r.room } };

    ghost invariant = { λ r. length r.groups + length r.legs + r.room ≤ 64 };
}

impl<'a> Reading<'a> {
    /// Before the first leg.
    pub fn new(alloc: Global) -> Reading<'a>
        ensures { result ≡ spec.at_first }
    {
        Reading {
            alloc,
            groups: Groups::new(alloc),
            legs: Group::new(alloc),
            room: MOST_LEGS,
        }
    }

    /// Adds the leg in front of the text, in a dial string that ends at an offset, and answers what stands behind its
    /// separator.
    #[tactic(auto, unfolding(crate::specs::DialStrings::leg_step, crate::specs::DialStrings::behind_leg))]
    pub fn take_leg(&mut self, end: usize, text: &'a [u8]) -> Result<Option<&'a [u8]>, DialStop>
        requires { length text.now ≤ end }
        ensures read { Answers (spec.taken self.new) result (spec.leg_step end self.old text.now) }
        ensures within { IfOk result (λ rest. IfSome rest (λ r. length r.now < length text.now)) }
    {
        let (leg, behind) = read_leg(self.alloc, end, text)?;
        self.add(leg)?;
        match behind {
            [b',', rest @ ..] => Ok(Some(rest)),
            [_, rest @ ..] => {
                self.end_group()?;
                Ok(Some(rest))
            }
            [] => {
                self.end_group()?;
                Ok(None)
            }
        }
    }

    /// Adds a leg to the group, unless there are 64 before it.
    #[tactic(auto, unfolding(crate::specs::DialStrings::added))]
    fn add(&mut self, leg: Leg<'a>) -> Result<(), DialStop>
        ensures added { Answers (λ _. self.new) result (spec.added self.old (leg_of leg.entry)) }
        ensures some { IfOk result (λ _. 0 < length self.new.legs) }
    {
        if self.room == 0 {
            return Err(DialStop::at(leg.at, DialKind::TooMany));
        }
        self.legs.push(leg)?;
        self.room -= 1;
        Ok(())
    }

    /// Ends the group, which has a leg.
    fn end_group(&mut self) -> Result<(), Memory>
        requires { 0 < length self.old.legs }
        ensures { IfOk result (λ _. self.new ≡ spec.ended self.old) }
    {
        let legs = mem::replace(&mut self.legs, Group::new(self.alloc));
        self.groups.push(legs)
    }

    /// The groups, once all are read.
    pub fn into_groups(self) -> Groups<'a>
        ensures { result ≡ self.entry.groups }
    {
        self.groups
    }
}
