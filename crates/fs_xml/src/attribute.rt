//! The attributes of a tag, and where it ends.

ghost use Rattle.std.specs.Prelude.{◌<◌, ◌≤◌, ℕ, List, None, length, IfOk};
ghost use Rattle.std.specs.Borrow.{Bor};
ghost use Rattle.fs_text.specs.Answers.{Gives};
ghost use Rattle.fs_xml.specs.Attributes as pieces;

use crate::bytes::{begins_name, is_quote, past_blanks, split_name};
use crate::stop::TagStop;
use fs_text::split_at_byte;

/// An attribute as it is written in a tag. The offsets are those of the document that the tag stands in.
#[derive(Clone, Copy, Debug)]
pub struct Attr<'a> {
    /// Where its name begins.
    pub at: usize,
    pub name: &'a [u8],
    /// What stands between its quotes.
    pub value: &'a [u8],
    /// Where its value ends.
    pub end: usize,
}

/// How a tag ends.
#[derive(Clone, Copy, Debug, PartialEq, Eq)]
pub enum Ending {
    /// By `>`: an end tag is to follow.
    Opens,
    /// By `/>`: the element is empty.
    Closes,
}

/// What stands next in a tag.
#[derive(Clone, Copy)]
pub enum Part<'a> {
    Attr(Attr<'a>),
    End(Ending),
    /// An attribute without a blank before it, or without `=` and a value in quotes, and then the rest of the tag.
    Malformed(usize),
}

/// Reads the next part of a tag of a document that ends at an offset.
#[tactic(auto, unfolding(crate::specs::Attributes::part_at))]
pub(crate) fn read_part(end: usize, text: &[u8]) -> Result<(Part<'_>, &[u8]), TagStop>
    requires { length text.now ≤ end }
    ensures read { Gives pieces.part_seen result (pieces.part_at end text.now) }
    ensures within { IfOk result (λ x. length x.1.now < length text.now) }
{
    let rest = past_blanks(text);
    part_on(end, rest.len() == text.len(), rest)
}

#[tactic(auto, unfolding(crate::specs::Attributes::part_on))]
fn part_on(end: usize, glued: bool, text: &[u8]) -> Result<(Part<'_>, &[u8]), TagStop>
    requires { length text.now ≤ end }
    ensures read { Gives pieces.part_seen result (pieces.part_on end glued text.now) }
    ensures within { IfOk result (λ x. length x.1.now < length text.now) }
{
    match text {
        [] => Err(TagStop::Cut),
        [b'>', rest @ ..] => Ok((Part::End(Ending::Opens), rest)),
        [b'/', rest @ ..] => slash(rest),
        [b, ..] => {
            if !begins_name(*b) {
                Err(TagStop::Bad)
            } else if glued {
                malformed(end - text.len(), text)
            } else {
                named(end, text)
            }
        }
    }
}

#[tactic(auto, unfolding(crate::specs::Attributes::slash_at))]
fn slash(text: &[u8]) -> Result<(Part<'_>, &[u8]), TagStop>
    ensures read { Gives pieces.part_seen result (pieces.slash_at text.now) }
    ensures within { IfOk result (λ x. length x.1.now ≤ length text.now) }
{
    match text {
        [] => Err(TagStop::Cut),
        [b'>', rest @ ..] => Ok((Part::End(Ending::Closes), rest)),
        _ => Err(TagStop::Bad),
    }
}

/// An attribute, from its name on.
#[tactic(auto, unfolding(crate::specs::Attributes::named_at))]
fn named(end: usize, text: &[u8]) -> Result<(Part<'_>, &[u8]), TagStop>
    requires within { length text.now ≤ end }
    requires some { 0 < length text.now }
    ensures read { Gives pieces.part_seen result (pieces.named_at end text.now) }
    ensures within { IfOk result (λ x. length x.1.now < length text.now) }
{
    let (name, behind) = split_name(text);
    equals(end, end - text.len(), name, past_blanks(behind))
}

#[tactic(auto, unfolding(crate::specs::Attributes::equals_at))]
fn equals<'a>(
    end: usize,
    at: usize,
    name: &'a [u8],
    text: &'a [u8],
) -> Result<(Part<'a>, &'a [u8]), TagStop>
    requires { length text.now ≤ end }
    ensures read { Gives pieces.part_seen result (pieces.equals_at end at name.now text.now) }
    ensures within { IfOk result (λ x. length x.1.now < length text.now) }
{
    match text {
        [] => Err(TagStop::Cut),
        [b'=', rest @ ..] => quoted(end, at, name, past_blanks(rest)),
        _ => malformed(at, text),
    }
}

#[tactic(auto, unfolding(crate::specs::Attributes::quoted_at))]
fn quoted<'a>(
    end: usize,
    at: usize,
    name: &'a [u8],
    text: &'a [u8],
) -> Result<(Part<'a>, &'a [u8]), TagStop>
    requires { length text.now ≤ end }
    ensures read { Gives pieces.part_seen result (pieces.quoted_at end at name.now text.now) }
    ensures within { IfOk result (λ x. length x.1.now < length text.now) }
{
    match text {
        [] => Err(TagStop::Cut),
        [b, rest @ ..] => {
            if is_quote(*b) {
                valued(end, at, name, *b, rest)
            } else {
                malformed(at, text)
            }
        }
    }
}

#[tactic(auto, unfolding(crate::specs::Attributes::valued_at))]
fn valued<'a>(
    end: usize,
    at: usize,
    name: &'a [u8],
    quote: u8,
    text: &'a [u8],
) -> Result<(Part<'a>, &'a [u8]), TagStop>
    requires { length text.now < end }
    ensures read { Gives pieces.part_seen result (pieces.valued_at end at name.now quote text.now) }
    ensures within { IfOk result (λ x. length x.1.now ≤ length text.now) }
{
    match split_at_byte(quote, text) {
        None => Err(TagStop::Cut),
        Some((value, rest)) => {
            let attr = Attr {
                at,
                name,
                value,
                end: end - rest.len() - 1,
            };
            Ok((Part::Attr(attr), rest))
        }
    }
}

/// A malformed attribute: behind it the tag is only read to its end.
#[tactic(auto, unfolding(crate::specs::Attributes::broken_at))]
fn malformed(at: usize, text: &[u8]) -> Result<(Part<'_>, &[u8]), TagStop>
    ensures read { Gives pieces.part_seen result (pieces.broken_at at text.now) }
    ensures within { IfOk result (λ x. length x.1.now < length text.now) }
{
    let rest = tag_end(text)?;
    Ok((Part::Malformed(at), rest))
}

/// What stands behind the tag's `>`.
fn tag_end(text: &[u8]) -> Result<&[u8], TagStop>
    ensures read { Gives (λ (rest : Bor (List ℕ)). rest.now) result (pieces.tag_end None text.now) }
    ensures within { IfOk result (λ rest. length rest.now < length text.now) }
{
    let mut quote: Option<u8> = None;
    let mut left = text;
    while let [b, rest @ ..] = left {
        match quote {
            Some(q) => {
                if *b == q {
                    quote = None;
                }
            }
            None => {
                if *b == b'>' {
                    return Ok(rest);
                }
                if *b == b'<' {
                    return Err(TagStop::Bad);
                }
                if is_quote(*b) {
                    quote = Some(*b);
                }
            }
        }
        left = rest;
    }
    Err(TagStop::Cut)
}
