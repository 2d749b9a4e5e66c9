//! Legs and groups of legs.

ghost use Rattle.std.specs.Prelude.{◌≡◌, ◌<◌, ◌≤◌, [], ◌∷◌, ◌++◌, length, map, IfOk, OnOk, OnErr};
ghost use Rattle.std.specs.List.{position_or_len};
ghost use Rattle.fs_dial.specs.Faults.{Answers};
ghost use Rattle.fs_dial.specs.Legs as spec;

use crate::bracket::{Bracket, read_brackets};
use crate::fault::{DialKind, DialStop};
use crate::pair::RawPairs;
use fs_text::Memory;
use memchr::memchr2;
use std::alloc::Global;
use std::marker::Model;

/// A leg of a dial string, as it is written.
#[derive(Drop)]
pub struct Leg<'a> {
    /// Where its endpoint begins, behind its brackets.
    pub at: usize,
    pub endpoint: &'a [u8],
    /// The pairs of its brackets, in order.
    pub pairs: RawPairs<'a>,
}

/// The legs of a group, which ring together, in order: 64 at most. A contract sees them as that list.
#[derive(Drop)]
pub struct Group<'a> {
    legs: Vec<Leg<'a>>,
}

/// The groups of a dial string, which are tried one after another, in order: 64 at most. A contract sees them as that
/// list.
#[derive(Drop)]
pub struct Groups<'a> {
    groups: Vec<Group<'a>>,
}

impl<'a> Model for Group<'a> {
    ghost use Rattle.std.specs.Prelude.{List, ◌≤◌, length, map};
    ghost use Rattle.fs_dial.specs.Legs.{LegText, leg_of};

    ghost Value = { List LegText };

    ghost view = { λ l. map leg_of l.legs.items };

    ghost invariant = { λ l. length l.legs.items ≤ 64 };
}

impl<'a> Model for Groups<'a> {
    ghost use Rattle.std.specs.Prelude.{List, ◌≤◌, length};
    ghost use Rattle.fs_dial.specs.Legs.{LegText};

    ghost Value = { List (List LegText) };

    ghost view = { λ g. g.groups.items };

    ghost invariant = { λ g. length g.groups.items ≤ 64 };
}

impl<'a> Group<'a> {
    /// No legs.
    pub(crate) fn new(alloc: Global) -> Group<'a>
        ensures { result ≡ [] }
    {
        Group {
            legs: Vec::new(alloc),
        }
    }

    /// Puts a leg behind all others, of which there are less than 64.
    pub(crate) fn push(&mut self, leg: Leg<'a>) -> Result<(), Memory>
        requires { length self.old < 64 }
        ensures ok { OnOk result (self.new ≡ self.old ++ spec.leg_of leg.entry ∷ []) }
        ensures err { OnErr result (self.new ≡ self.old) }
    {
        self.legs.push(leg)?;
        Ok(())
    }

    /// The legs, in order: 64 at most.
    pub fn as_slice(&self) -> &[Leg<'a>]
        ensures legs { map spec.leg_of result.now ≡ self.now }
        ensures bound { length self.now ≤ 64 }
    {
        self.legs.as_slice()
    }
}

impl<'a> Groups<'a> {
    /// No groups.
    pub(crate) fn new(alloc: Global) -> Groups<'a>
        ensures { result ≡ [] }
    {
        Groups {
            groups: Vec::new(alloc),
        }
    }

    /// Puts a group behind all others, of which there are less than 64.
    pub(crate) fn push(&mut self, group: Group<'a>) -> Result<(), Memory>
        requires { length self.old < 64 }
        ensures ok { OnOk result (self.new ≡ self.old ++ group.entry ∷ []) }
        ensures err { OnErr result (self.new ≡ self.old) }
    {
        self.groups.push(group)?;
        Ok(())
    }

    /// The groups, in order: 64 at most.
    pub fn as_slice(&self) -> &[Group<'a>]
        ensures groups { result.now ≡ self.now }
        ensures bound { length self.now ≤ 64 }
    {
        self.groups.as_slice()
    }
}

/// Reads a leg in front of the text, in a dial string that ends at an offset.
#[tactic(auto, unfolding(crate::specs::Legs::leg_at))]
pub(crate) fn read_leg(alloc: Global, end: usize, text: &[u8]) -> Result<(Leg<'_>, &[u8]), DialStop>
    requires { length text.now ≤ end }
    ensures read { Answers spec.leg_seen result (spec.leg_at end text.now) }
    ensures within { IfOk result (λ x. length x.1.now ≤ length text.now) }
{
    let (pairs, rest) = read_brackets(alloc, Bracket::Square, end, text)?;
    read_endpoint(end, pairs, rest)
}

/// Reads the endpoint of a leg with these pairs.
#[tactic(auto, unfolding(crate::specs::Legs::endpoint_at, crate::specs::Legs::leg_on))]
fn read_endpoint<'a>(
    end: usize,
    pairs: RawPairs<'a>,
    text: &'a [u8],
) -> Result<(Leg<'a>, &'a [u8]), DialStop>
    requires { length text.now ≤ end }
    ensures read { Answers spec.leg_seen result (spec.endpoint_at end pairs.entry text.entry.now) }
    ensures within { IfOk result (λ x. length x.1.now ≤ length text.now) }
{
    let at = end - text.len();
    let (endpoint, rest) = text.split_at(endpoint_len(text));
    if endpoint.is_empty() {
        return Err(DialStop::at(at, DialKind::EmptyLeg));
    }
    let leg = Leg {
        at,
        endpoint,
        pairs,
    };
    Ok((leg, rest))
}

/// How many bytes stand before the first `,` or `|`.
fn endpoint_len(text: &[u8]) -> usize
    ensures offset { result ≡ position_or_len spec.ends_leg text.now }
    ensures within { result ≤ length text.now }
{
    memchr2(b',', b'|', text).unwrap_or(text.len())
}
