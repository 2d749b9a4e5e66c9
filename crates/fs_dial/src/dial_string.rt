//! The dial string that a text is.

ghost use Rattle.std.specs.Prelude.{◌≤◌, length};
ghost use Rattle.fs_dial.specs.Faults.{Answers, Tells};
ghost use Rattle.fs_dial.specs.DialStrings as spec;

use crate::bracket::{Bracket, read_brackets};
use crate::fault::{DialFault, DialKind, DialStop};
use crate::leg::Groups;
use crate::pair::RawPairs;
use crate::reading::Reading;
use std::alloc::Global;

/// A dial string: legs in groups, and pairs for all of them.
#[derive(Drop)]
pub struct DialString<'a> {
    /// The pairs of its braces, in order.
    pub pairs: RawPairs<'a>,
    pub groups: Groups<'a>,
}

/// The dial string that a text is, each part a slice of the text, or the fault that is met first from the left.
///
/// `{pairs}` may stand before all, and `[pairs]` before each leg. Legs of a group are separated by `,`, and groups by
/// `|`. There are 64 legs at most. Want of memory is told at offset 0.
#[tactic(auto, unfolding(crate::specs::DialStrings::dial_string))]
pub fn parse(alloc: Global, text: &[u8]) -> Result<DialString<'_>, DialFault>
    ensures { Tells spec.dial_of result (spec.dial_string text.now) }
{
    if text.is_empty() {
        return Err(DialFault {
            at: 0,
            kind: DialKind::Nothing,
        });
    }
    match read_dial_string(alloc, text.len(), text) {
        Ok(dial) => Ok(dial),
        Err(DialStop::Fault(fault)) => Err(fault),
        Err(DialStop::Memory) => Err(DialFault {
            at: 0,
            kind: DialKind::Memory,
        }),
    }
}

/// Reads a text that ends at an offset.
#[tactic(auto, unfolding(crate::specs::DialStrings::dial_within))]
fn read_dial_string(alloc: Global, end: usize, text: &[u8]) -> Result<DialString<'_>, DialStop>
    requires { length text.now ≤ end }
    ensures { Answers spec.dial_of result (spec.dial_within end text.now) }
{
    let (pairs, rest) = read_brackets(alloc, Bracket::Brace, end, text)?;
    let groups = read_groups(alloc, end, rest)?;
    Ok(DialString { pairs, groups })
}

/// Reads the groups of a dial string that ends at an offset.
#[tactic(auto, unfolding(crate::specs::DialStrings::groups_at))]
fn read_groups(alloc: Global, end: usize, text: &[u8]) -> Result<Groups<'_>, DialStop>
    requires { length text.now ≤ end }
    ensures { Answers (λ groups. groups) result (spec.groups_at end text.now) }
{
    let mut reading = Reading::new(alloc);
    let mut left = text;
    'legs: loop {
        match reading.take_leg(end, left)? {
            Some(rest) => left = rest,
            None => return Ok(reading.into_groups()),
        }
    }
}
