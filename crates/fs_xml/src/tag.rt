//! What a start tag has behind its name.

ghost use Rattle.std.specs.Prelude.{◌<◌, ◌≤◌, length, map, IfOk};
ghost use Rattle.fs_xml.specs.Answers.{MarkupGives};
ghost use Rattle.fs_xml.specs.Attributes.{written_of};
ghost use Rattle.fs_xml.specs.Tags as tags;

use crate::attribute::{Attr, Ending, Part, read_part};
use crate::stop::MarkupStop;
use std::alloc::Global;

/// What a start tag has behind its name.
#[derive(Debug, Drop)]
pub struct Body<'a> {
    /// The attributes before the first malformed one, in order.
    pub attrs: Vec<Attr<'a>>,
    /// Where the first malformed attribute begins, if there is one.
    pub malformed: Option<usize>,
    /// How the tag ends; of no meaning where an attribute is malformed.
    pub ending: Ending,
}

/// Reads a start tag from behind its name.
#[tactic(auto, unfolding(crate::specs::Tags::body_at))]
pub(crate) fn read_body(
    alloc: Global,
    end: usize,
    text: &[u8],
) -> Result<(Body<'_>, &[u8]), MarkupStop>
    requires { length text.now ≤ end }
    ensures read { MarkupGives tags.body_seen result (tags.body_at end text.now) }
    ensures within { IfOk result (λ x. length x.1.now < length text.now) }
{
    let mut attrs = Vec::new(alloc);
    let mut left = text;
    'parts: loop {
        let (close, rest) = take_part(&mut attrs, end, left)?;
        if let Some(Close { malformed, ending }) = close {
            let body = Body {
                attrs,
                malformed,
                ending,
            };
            return Ok((body, rest));
        }
        left = rest;
    }
}

/// The end of a tag, or of its part that is well formed.
#[derive(Clone, Copy)]
struct Close {
    malformed: Option<usize>,
    ending: Ending,
}

/// Adds the next attribute, or finds the end.
#[tactic(auto, unfolding(crate::specs::Tags::body_step))]
fn take_part<'a>(
    attrs: &mut Vec<Attr<'a>>,
    end: usize,
    text: &'a [u8],
) -> Result<(Option<Close>, &'a [u8]), MarkupStop>
    requires { length text.now ≤ end }
    ensures read { tags.StepGives attrs.new.items result
        (tags.body_step end (map written_of attrs.old.items) text.now) }
    ensures within { IfOk result (λ x. length x.1.now < length text.now) }
{
    let (part, rest) = read_part(end, text)?;
    match part {
        Part::Attr(attr) => {
            attrs.push(attr)?;
            Ok((None, rest))
        }
        Part::End(ending) => Ok((
            Some(Close {
                malformed: None,
                ending,
            }),
            rest,
        )),
        Part::Malformed(at) => {
            let close = Close {
                malformed: Some(at),
                ending: Ending::Opens,
            };
            Ok((Some(close), rest))
        }
    }
}
