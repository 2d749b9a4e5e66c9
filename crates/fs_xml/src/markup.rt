//! Comments, end tags and start tags.

ghost use Rattle.std.specs.Prelude.{◌<◌, ◌≤◌, ℕ, List, length, IfOk};
ghost use Rattle.std.specs.Borrow.{Bor};
ghost use Rattle.fs_text.specs.Answers.{Gives};
ghost use Rattle.fs_xml.specs.Answers.{MarkupGives};
ghost use Rattle.fs_xml.specs.Markup as marks;

use crate::bytes::{begins_name, past_blanks, split_name};
use crate::stop::{MarkupStop, TagStop};
use crate::tag::{Body, read_body};
use std::alloc::Global;

/// What begins with `<`.
#[derive(Debug, Drop)]
pub enum Markup<'a> {
    Comment,
    /// An end tag, by its name.
    End(&'a [u8]),
    /// A start tag, by its name, and what it has behind its name.
    Start(&'a [u8], Body<'a>),
}

/// Reads the markup whose `<` stands in front of the text, in a document that ends at an offset.
///
/// A comment goes from `<!--` to the next `-->`. An end tag is `</`, a name, blanks and `>`. A start tag is `<`, a
/// name, attributes, and `>` or `/>`. An attribute is a blank, a name, `=` and a value in quotes, with blanks round the
/// `=`.
#[tactic(auto, unfolding(crate::specs::Markup::mark_at))]
pub fn read_markup(
    alloc: Global,
    end: usize,
    text: &[u8],
) -> Result<(Markup<'_>, &[u8]), MarkupStop>
    requires { length text.now ≤ end }
    ensures read { MarkupGives marks.mark_seen result (marks.mark_at end text.now) }
    ensures within { IfOk result (λ x. length x.1.now < length text.now) }
{
    match text {
        [] => Err(MarkupStop::Tag(TagStop::Cut)),
        [b'!', rest @ ..] => {
            let behind = comment(rest)?;
            Ok((Markup::Comment, behind))
        }
        [b'/', rest @ ..] => Ok(end_tag(rest)?),
        [b, ..] => {
            if begins_name(*b) {
                start_tag(alloc, end, text)
            } else {
                Err(MarkupStop::Tag(TagStop::Bad))
            }
        }
    }
}

/// A comment, from behind its `<!`.
#[tactic(auto, unfolding(crate::specs::Markup::comment_at, crate::specs::Markup::second_dash_at))]
fn comment(text: &[u8]) -> Result<&[u8], TagStop>
    ensures read { Gives (λ (rest : Bor (List ℕ)). rest.now) result (marks.comment_at text.now) }
    ensures within { IfOk result (λ rest. length rest.now ≤ length text.now) }
{
    match text {
        [b'-', b'-', rest @ ..] => comment_end(rest),
        [] | [b'-'] => Err(TagStop::Cut),
        _ => Err(TagStop::Bad),
    }
}

/// What stands behind the next `-->`.
fn comment_end(text: &[u8]) -> Result<&[u8], TagStop>
    ensures read { Gives (λ (rest : Bor (List ℕ)). rest.now) result (marks.comment_end text.now) }
    ensures within { IfOk result (λ rest. length rest.now ≤ length text.now) }
{
    let mut left = text;
    while let [_, rest @ ..] = left {
        if left.starts_with(b"-->") {
            return Ok(&left[3..]);
        }
        left = rest;
    }
    Err(TagStop::Cut)
}

/// An end tag, from its name on.
#[tactic(auto, unfolding(crate::specs::Markup::end_at))]
fn end_tag(text: &[u8]) -> Result<(Markup<'_>, &[u8]), TagStop>
    ensures read { Gives marks.mark_seen result (marks.end_at text.now) }
    ensures within { IfOk result (λ x. length x.1.now ≤ length text.now) }
{
    match text {
        [] => Err(TagStop::Cut),
        [b, ..] => {
            if begins_name(*b) {
                let (name, behind) = split_name(text);
                closed(name, past_blanks(behind))
            } else {
                Err(TagStop::Bad)
            }
        }
    }
}

/// The `>` of an end tag.
#[tactic(auto, unfolding(crate::specs::Markup::closed_at))]
fn closed<'a>(name: &'a [u8], text: &'a [u8]) -> Result<(Markup<'a>, &'a [u8]), TagStop>
    ensures read { Gives marks.mark_seen result (marks.closed_at name.now text.now) }
    ensures within { IfOk result (λ x. length x.1.now ≤ length text.now) }
{
    match text {
        [] => Err(TagStop::Cut),
        [b'>', rest @ ..] => Ok((Markup::End(name), rest)),
        _ => Err(TagStop::Bad),
    }
}

/// A start tag, from its name on.
#[tactic(auto, unfolding(crate::specs::Markup::start_at))]
fn start_tag(alloc: Global, end: usize, text: &[u8]) -> Result<(Markup<'_>, &[u8]), MarkupStop>
    requires { length text.now ≤ end }
    ensures read { MarkupGives marks.mark_seen result (marks.start_at end text.now) }
    ensures within { IfOk result (λ x. length x.1.now < length text.now) }
{
    let (name, behind) = split_name(text);
    let (body, rest) = read_body(alloc, end, behind)?;
    Ok((Markup::Start(name, body), rest))
}
