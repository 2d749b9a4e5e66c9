//! Pairs of a name and a value, and the content of a bracket.

ghost use Rattle.std.specs.Prelude.{◌≡◌, ◌<◌, ◌≤◌, [], ◌∷◌, ◌++◌, length, map, IfOk, IfSome, OnOk, OnErr};
ghost use Rattle.fs_text.specs.Answers.{Gives};
ghost use Rattle.fs_dial.specs.Faults.{Answers};
ghost use Rattle.fs_dial.specs.Pairs as spec;

use crate::fault::{DialFault, DialKind, DialStop};
use crate::guard::{from_mark, plain};
use fs_text::{Memory, Txt, offset_of};
use std::alloc::Global;
use std::marker::Model;

/// A pair of a bracket, as it is written.
#[derive(Clone, Copy, Debug)]
pub struct RawPair<'a> {
    /// Where it begins.
    pub at: usize,
    /// What stands before its first `=`.
    pub name: &'a [u8],
    /// What stands behind it.
    pub value: &'a [u8],
    /// What separates the pairs of its bracket.
    pub separator: u8,
}

/// The pairs of some brackets, in order. A contract sees them as that list.
#[derive(Drop)]
pub struct RawPairs<'a> {
    held: Vec<RawPair<'a>>,
}

impl<'a> Model for RawPairs<'a> {
    ghost use Rattle.std.specs.Prelude.{List, map};
    ghost use Rattle.fs_dial.specs.Pairs.{Pair, pair_of};

    ghost Value = { List Pair };

    ghost view = { λ p. map pair_of p.held.items };
}

impl<'a> RawPair<'a> {
    /// Its value without quotes and backslashes: single quotes protect every byte, and behind a backslash the
    /// separator, a quote, a backslash and a closing bracket stand for themselves. Any other backslash stays.
    pub fn plain(&self, alloc: Global) -> Result<Txt, Memory>
        ensures { IfOk result (λ text. text ≡ spec.plain (spec.pair_of self.now)) }
    {
        Txt::from_vec(plain(alloc, self.separator, self.value)?)
    }
}

impl<'a> RawPairs<'a> {
    /// No pairs.
    pub(crate) fn new(alloc: Global) -> RawPairs<'a>
        ensures { result ≡ [] }
    {
        RawPairs {
            held: Vec::new(alloc),
        }
    }

    /// Puts a pair behind all others.
    pub(crate) fn push(&mut self, pair: RawPair<'a>) -> Result<(), Memory>
        ensures ok { OnOk result (self.new ≡ self.old ++ spec.pair_of pair.entry ∷ []) }
        ensures err { OnErr result (self.new ≡ self.old) }
    {
        self.held.push(pair)?;
        Ok(())
    }

    /// The pairs, in order.
    pub fn as_slice(&self) -> &[RawPair<'a>]
        ensures { map spec.pair_of result.now ≡ self.now }
    {
        self.held.as_slice()
    }
}

/// Reads a pair that begins at an offset.
#[tactic(auto, unfolding(crate::specs::Pairs::pair_at))]
fn read_pair(at: usize, separator: u8, text: &[u8]) -> Result<RawPair<'_>, DialFault>
    ensures { Gives spec.pair_of result (spec.pair_at at separator text.now) }
{
    let (name, from) = text.split_at(offset_of(b'=', text));
    cut_pair(at, separator, name, from)
}

/// A pair that is cut in front of its first `=`.
#[tactic(auto, unfolding(crate::specs::Pairs::pair_on))]
fn cut_pair<'a>(
    at: usize,
    separator: u8,
    name: &'a [u8],
    from: &'a [u8],
) -> Result<RawPair<'a>, DialFault>
    ensures { Gives spec.pair_of result (spec.pair_on at separator name.now from.now) }
{
    match (name, from) {
        ([_, ..], [_, value @ ..]) => Ok(RawPair {
            at,
            name,
            value,
            separator,
        }),
        _ => Err(DialFault {
            at,
            kind: DialKind::BadPair,
        }),
    }
}

/// Adds the next pair of a bracket's content that ends at an offset, and answers what stands behind its separator.
#[tactic(auto, unfolding(crate::specs::Pairs::pair_step))]
fn take_pair<'a>(
    pairs: &mut RawPairs<'a>,
    end: usize,
    separator: u8,
    text: &'a [u8],
) -> Result<Option<&'a [u8]>, DialStop>
    requires { length text.now ≤ end }
    ensures read { Answers (spec.taken pairs.new) result (spec.pair_step end separator pairs.old text.now) }
    ensures within { IfOk result (λ rest. IfSome rest (λ r. length r.now < length text.now)) }
{
    let from = from_mark(separator, text);
    let piece = &text[..text.len() - from.len()];
    pairs.push(read_pair(end - text.len(), separator, piece)?)?;
    match from {
        [_, rest @ ..] => Ok(Some(rest)),
        [] => Ok(None),
    }
}

/// Adds the pairs of a bracket's content that ends at an offset.
#[tactic(auto, unfolding(crate::specs::Pairs::pairs_at))]
pub(crate) fn take_pairs<'a>(
    pairs: &mut RawPairs<'a>,
    end: usize,
    separator: u8,
    text: &'a [u8],
) -> Result<(), DialStop>
    requires { length text.now ≤ end }
    ensures { Answers (λ _. pairs.new) result (spec.pairs_at end separator pairs.old text.now) }
{
    if text.is_empty() {
        return Ok(());
    }
    let mut left = text;
    'pieces: loop {
        match take_pair(pairs, end, separator, left)? {
            Some(rest) => left = rest,
            None => return Ok(()),
        }
    }
}
