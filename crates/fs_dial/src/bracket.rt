//! Brackets of pairs.

ghost use Rattle.std.specs.Prelude.{◌≡◌, ◌<◌, ◌≤◌, length, IfOk, IfSome};
ghost use Rattle.fs_dial.specs.Faults.{Answers};
ghost use Rattle.fs_dial.specs.Pairs.{taken};
ghost use Rattle.fs_dial.specs.Brackets as spec;
ghost use Rattle.fs_dial.specs.Brackets.{seen};

use crate::fault::{DialKind, DialStop};
use crate::guard::from_mark;
use crate::pair::{RawPairs, take_pairs};
use std::alloc::Global;

/// What the pairs of a dial string and of a leg stand in.
#[derive(Clone, Copy)]
pub(crate) enum Bracket {
    /// `{pairs}`
    Brace,
    /// `[pairs]`
    Square,
}

impl Bracket {
    #[tactic(auto, unfolding(crate::specs::Brackets::opener_of))]
    fn opener(self) -> u8
        ensures { result ≡ spec.opener_of self }
    {
        match self {
            Bracket::Brace => b'{',
            Bracket::Square => b'[',
        }
    }

    #[tactic(auto, unfolding(crate::specs::Brackets::closer_of))]
    fn closer(self) -> u8
        ensures { result ≡ spec.closer_of self }
    {
        match self {
            Bracket::Brace => b'}',
            Bracket::Square => b']',
        }
    }
}

/// What separates the pairs of a bracket, and where they begin: with `^^X` in front they are separated by X.
#[tactic(auto, unfolding(crate::specs::Brackets::lead_of))]
fn split_lead(closer: u8, text: &[u8]) -> (u8, &[u8])
    ensures lead { (result.0, result.1.now) ≡ spec.lead_of closer text.now }
    ensures within { length result.1.now ≤ length text.now }
{
    match text {
        [b'^', b'^', x, rest @ ..] if *x != closer => (*x, rest),
        _ => (b',', text),
    }
}

/// Reads all brackets of a kind that stand in front, in a dial string that ends at an offset.
#[tactic(auto, unfolding(crate::specs::Brackets::brackets_at))]
pub(crate) fn read_brackets(
    alloc: Global,
    bracket: Bracket,
    end: usize,
    text: &[u8],
) -> Result<(RawPairs<'_>, &[u8]), DialStop>
    requires { length text.now ≤ end }
    ensures read { Answers spec.taken_seen result (spec.brackets_at bracket end text.now) }
    ensures within { IfOk result (λ x. length x.1.now ≤ length text.now) }
{
    let mut pairs = RawPairs::new(alloc);
    let mut left = text;
    'brackets: loop {
        match take_next(&mut pairs, bracket, end, left)? {
            Some(rest) => left = rest,
            None => return Ok((pairs, left)),
        }
    }
}

/// Adds the pairs of the bracket in front, if there is one, and answers what stands behind it.
#[tactic(auto, unfolding(crate::specs::Brackets::bracket_step))]
fn take_next<'a>(
    pairs: &mut RawPairs<'a>,
    bracket: Bracket,
    end: usize,
    text: &'a [u8],
) -> Result<Option<&'a [u8]>, DialStop>
    requires { length text.now ≤ end }
    ensures read { Answers (taken pairs.new) result (spec.bracket_step bracket end pairs.old text.now) }
    ensures within { IfOk result (λ rest. IfSome rest (λ r. length r.now < length text.now)) }
{
    match text {
        [b, inside @ ..] if *b == bracket.opener() => {
            Ok(Some(take_bracket(pairs, bracket, end, inside)?))
        }
        _ => Ok(None),
    }
}

/// Adds the pairs of a bracket, from behind its opening one, and answers what stands behind it.
#[tactic(auto, unfolding(crate::specs::Brackets::bracket_at, crate::specs::Brackets::content_at))]
fn take_bracket<'a>(
    pairs: &mut RawPairs<'a>,
    bracket: Bracket,
    end: usize,
    text: &'a [u8],
) -> Result<&'a [u8], DialStop>
    requires { length text.now < end }
    ensures read { Answers (seen pairs.new) result (spec.bracket_at bracket end pairs.old text.now) }
    ensures within { IfOk result (λ rest. length rest.now ≤ length text.now) }
{
    let at = end - text.len() - 1;
    let (separator, content) = split_lead(bracket.closer(), text);
    let from = from_mark(bracket.closer(), content);
    close(pairs, at, end, separator, content, from)
}

/// Adds the pairs of a bracket, from behind its lead, and from the mark on that ends it.
#[tactic(auto, unfolding(crate::specs::Brackets::closed_at))]
fn close<'a>(
    pairs: &mut RawPairs<'a>,
    at: usize,
    end: usize,
    separator: u8,
    content: &'a [u8],
    from: &'a [u8],
) -> Result<&'a [u8], DialStop>
    requires content { length content.now ≤ end }
    requires from { length from.now ≤ length content.now }
    ensures read { Answers (seen pairs.new) result (spec.closed_at at end separator pairs.old content.now from.now) }
    ensures within { IfOk result (λ rest. length rest.now ≤ length from.now) }
{
    let [_, rest @ ..] = from else {
        return Err(DialStop::at(at, DialKind::Unclosed));
    };
    let held = &content[..content.len() - from.len()];
    take_pairs(pairs, end - from.len(), separator, held)?;
    Ok(rest)
}
