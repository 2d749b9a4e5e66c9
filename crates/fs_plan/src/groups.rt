//! The groups of a match, and the texts that they are put into.

ghost use Rattle.std.specs.Prelude.{◌≡◌, ℕ, map, ◌∷◌, ◌≤◌, length, IfOk};
ghost use Rattle.std.specs.List.{range_with_len};
ghost use Rattle.fs_plan.specs.Matching.{captured};
ghost use Rattle.fs_plan.specs.Substitution as spec;

use fs_text::{Memory, Txt};
use regex::bytes::Captures;
use std::alloc::Global;
use std::marker::Model;

// Group 0, which is the whole match, and the groups 1 to 9.
const GROUPS: usize = 10;

/// The texts of a match and its groups 1 to 9.
#[derive(Drop)]
pub(crate) struct Groups {
    texts: Vec<Txt>,
}

impl Model for Groups {
    ghost use Rattle.std.specs.Prelude.{ℕ, List};

    ghost Value = { List (List ℕ) };

    ghost view = { λ g. g.texts.items };
}

impl Groups {
    /// The groups of these captures.
    #[tactic(auto, using(crate::proofs::GroupLemmas::one_more))]
    pub fn of(alloc: Global, captures: &Captures) -> Result<Groups, Memory>
        ensures { IfOk result (λ groups. groups ≡ map (λ n. captured captures.now n) (range_with_len 0 10)) }
    {
        let mut texts = Vec::with_capacity(alloc, GROUPS)?;
        for n in 0..GROUPS {
            texts.push(Txt::of(alloc, group_text(captures, n))?)?;
        }
        Ok(Groups { texts })
    }

    /// A text with each `$` and digit replaced by the text of that group.
    pub fn put_into(&self, alloc: Global, text: &[u8]) -> Result<Txt, Memory>
        ensures { IfOk result (λ t. t ≡ spec.with_groups self.now text.now) }
    {
        let mut out = Vec::new(alloc);
        let mut left = text;
        while let [b, behind @ ..] = left {
            left = self.add_front(&mut out, *b, behind)?;
        }
        Txt::from_vec(out)
    }

    /// Adds what a byte stands for, with those behind it, and answers the rest of these.
    fn add_front<'a>(&self, out: &mut Vec<u8>, b: u8, behind: &'a [u8]) -> Result<&'a [u8], Memory>
        ensures added { IfOk result (λ left.
            spec.PutsIn self.now out.old.items (b ∷ behind.now) out.new.items left.now) }
        ensures within { IfOk result (λ left. length left.now ≤ length behind.now) }
    {
        if let [d, rest @ ..] = behind {
            if b == b'$' && d.is_ascii_digit() {
                out.extend_from_slice(self.named(*d))?;
                return Ok(rest);
            }
        }
        out.push(b)?;
        Ok(behind)
    }

    /// The text of the group that a digit names.
    fn named(&self, d: u8) -> &[u8]
        requires { 48 ≤ d }
        ensures { result.now ≡ spec.group_named self.now d }
    {
        match self.texts.get(usize::from(d - b'0')) {
            Some(text) => text.as_bytes(),
            None => &[],
        }
    }
}

/// The bytes of a group, or none where it took no part.
fn group_text<'h>(captures: &Captures<'_, 'h>, n: usize) -> &'h [u8]
    ensures { result.now ≡ captured captures.now n }
{
    match captures.get(n) {
        Some(group) => group.as_bytes(),
        None => &[],
    }
}

/// A text with the groups put in, if there are any.
#[tactic(auto, unfolding(crate::specs::Substitution::substituted))]
pub(crate) fn substituted(alloc: Global, groups: &Option<Groups>, text: &Txt) -> Result<Txt, Memory>
    ensures { IfOk result (λ t. t ≡ spec.substituted groups.now text.now) }
{
    match groups {
        Some(groups) => groups.put_into(alloc, text.as_bytes()),
        None => text.copy(),
    }
}
