//! How a document is read, from its first byte to its last.

ghost use Rattle.std.specs.Prelude.{◌≡◌, ◌<◌, ◌≤◌, length, IfOk};
ghost use Rattle.fs_xml.specs.Markup.{mark_seen};
ghost use Rattle.fs_doc.specs.declared.content.Content.{Content};
ghost use Rattle.fs_doc.specs.Faults.{DocGives, ConfigGives};
ghost use Rattle.fs_doc.specs.Reading as reading;
ghost use Rattle.fs_doc.specs.Views as views;

use crate::config::Config;
use crate::content::Content;
use crate::element::Level;
use crate::fault::{DocFault, DocKind, DocStop};
use crate::state::State;
use fs_text::offset_of;
use fs_xml::{Markup, MarkupStop, TagStop, past_blanks, read_markup};
use std::alloc::Global;

/// The most bytes of a document.
const MOST_BYTES: usize = 1_048_576;

/// The configuration of a document, or the fault that is met first.
///
/// Bytes that are all blanks are the empty configuration. Otherwise one `document` stands behind an optional
/// declaration, among blanks and comments. The document is read from its start, each tag as a whole; at an element its
/// name and level are judged first, then its attributes in their order, then a malformed or a missing one, and last a
/// limit or a setting. Want of memory is told at offset 0.
#[tactic(auto, unfolding(crate::specs::Reading::config_of))]
pub fn read_config(alloc: Global, bytes: &[u8]) -> Result<Config, DocFault>
    ensures { ConfigGives views.configuration_of result (reading.config_of bytes.now) }
{
    match config_of(alloc, bytes) {
        Ok(config) => Ok(config),
        Err(DocStop::Fault(fault)) => Err(fault),
        Err(DocStop::Memory) => Err(DocFault {
            at: 0,
            kind: DocKind::Memory,
        }),
    }
}

#[tactic(auto, unfolding(crate::specs::Reading::config_of))]
fn config_of(alloc: Global, bytes: &[u8]) -> Result<Config, DocStop>
    ensures { DocGives views.configuration_of result (reading.config_of bytes.now) }
{
    if bytes.len() > MOST_BYTES {
        return Err(DocStop::at(MOST_BYTES, DocKind::TooLarge));
    }
    if past_blanks(bytes).is_empty() {
        return Ok(Config::of(Content::new(alloc)?));
    }
    Ok(Config::of(content_of(alloc, bytes)?))
}

/// What is read of a document that is not blank.
#[tactic(auto, unfolding(crate::specs::Reading::content_of))]
fn content_of(alloc: Global, bytes: &[u8]) -> Result<Content, DocStop>
    ensures { DocGives views.content_seen result (reading.content_of bytes.now) }
{
    let rest = past_declaration(bytes)?;
    read_rounds(alloc, bytes.len(), rest)
}

/// Reads round by round, until the document is over.
#[tactic(auto, unfolding(crate::specs::Reading::document_of))]
fn read_rounds(alloc: Global, end: usize, text: &[u8]) -> Result<Content, DocStop>
    requires { length text.now ≤ end }
    ensures { DocGives views.content_seen result (reading.document_of end text.now) }
{
    let mut state = State::new(alloc)?;
    let mut left = text;
    'rounds: loop {
        match round(alloc, end, &mut state, left)? {
            Some(rest) => left = rest,
            None => return Ok(state.content),
        }
    }
}

/// Reads the text in front and the markup behind it. The rest is answered, or none where the document is over.
#[tactic(auto, unfolding(crate::specs::Reading::round))]
fn round<'a>(
    alloc: Global,
    end: usize,
    state: &mut State<'a>,
    text: &'a [u8],
) -> Result<Option<&'a [u8]>, DocStop>
    requires { length text.now ≤ end }
    ensures read { DocGives (views.next_seen state.new) result
        (reading.round end (views.reading_of state.old) text.now) }
    ensures within { IfOk result (views.RestIsShorter text.now) }
{
    let rest = past_text(end, state.level(), text)?;
    read_mark(alloc, end, state, rest)
}

/// What stands behind the text in front: in a foreign element there may be any text, elsewhere blanks.
#[tactic(auto, unfolding(crate::specs::Reading::text_at))]
fn past_text(end: usize, level: Level, text: &[u8]) -> Result<&[u8], DocStop>
    requires { length text.now ≤ end }
    ensures read { DocGives views.rest_seen result (reading.text_at end level text.now) }
    ensures within { IfOk result (λ rest. length rest.now ≤ length text.now) }
{
    match level {
        Level::Foreign => Ok(past_any_text(text)),
        _ => past_blank_text(end, level, past_blanks(text)),
    }
}

/// What stands from the first `<` on.
fn past_any_text(text: &[u8]) -> &[u8]
    ensures rest { result.now ≡ reading.any_text text.now }
    ensures within { length result.now ≤ length text.now }
{
    let (_, rest) = text.split_at(offset_of(b'<', text));
    rest
}

fn past_blank_text(end: usize, level: Level, text: &[u8]) -> Result<&[u8], DocStop>
    requires { length text.now ≤ end }
    ensures read { DocGives views.rest_seen result (reading.blank_text end level text.now) }
    ensures within { IfOk result (λ rest. rest.now ≡ text.now) }
{
    match text {
        [] | [b'<', ..] => Ok(text),
        _ => Err(DocStop::at(end - text.len(), text_kind(level))),
    }
}

fn text_kind(level: Level) -> DocKind
    ensures { result ≡ reading.text_kind level }
{
    match level {
        Level::Top => DocKind::BadTag,
        _ => DocKind::TextContent,
    }
}

/// Reads the markup in front.
#[tactic(auto, unfolding(crate::specs::Reading::at_mark))]
fn read_mark<'a>(
    alloc: Global,
    end: usize,
    state: &mut State<'a>,
    text: &'a [u8],
) -> Result<Option<&'a [u8]>, DocStop>
    requires { length text.now ≤ end }
    ensures read { DocGives (views.next_seen state.new) result
        (reading.at_mark end (views.reading_of state.old) text.now) }
    ensures within { IfOk result (views.RestIsShorter text.now) }
{
    let [_, rest @ ..] = text else {
        if state.is_outside() && state.content.done {
            return Ok(None);
        }
        return Err(DocStop::at(end, DocKind::Truncated));
    };
    let at = end - text.len();
    let (mark, behind) = mark_read(alloc, state.content.done, state.is_outside(), end, at, rest)?;
    state.enter(alloc, at, mark)?;
    Ok(Some(behind))
}

/// The markup behind a `<`. Outside of all elements there is no end tag, and behind the document none is cut short.
#[tactic(auto, unfolding(crate::specs::Reading::mark_read))]
fn mark_read(
    alloc: Global,
    done: bool,
    outside: bool,
    end: usize,
    at: usize,
    text: &[u8],
) -> Result<(Markup<'_>, &[u8]), DocStop>
    requires { length text.now ≤ end }
    ensures read { DocGives mark_seen result (reading.mark_read done outside end at text.now) }
    ensures within { IfOk result (λ x. length x.1.now < length text.now) }
{
    if outside && text.starts_with(b"/") {
        return Err(DocStop::at(at, DocKind::BadTag));
    }
    match read_markup(alloc, end, text) {
        Ok(read) => Ok(read),
        Err(MarkupStop::Memory) => Err(DocStop::Memory),
        Err(MarkupStop::Tag(TagStop::Cut)) if !done => Err(DocStop::at(end, DocKind::Truncated)),
        Err(MarkupStop::Tag(_)) => Err(DocStop::at(at, DocKind::BadTag)),
    }
}

/// What stands behind the declaration, if there is one.
#[tactic(auto, unfolding(crate::specs::Reading::past_declaration))]
fn past_declaration(text: &[u8]) -> Result<&[u8], DocStop>
    ensures read { DocGives views.rest_seen result (reading.past_declaration text.now) }
    ensures within { IfOk result (λ rest. length rest.now ≤ length text.now) }
{
    if text.starts_with(b"<?xml") {
        return declaration_end(text.len(), &text[5..]);
    }
    if b"<?xml".starts_with(text) {
        return Err(DocStop::at(text.len(), DocKind::Truncated));
    }
    Ok(text)
}

/// What stands behind the next `?>`.
fn declaration_end(end: usize, text: &[u8]) -> Result<&[u8], DocStop>
    ensures read { DocGives views.rest_seen result (reading.declaration_end end text.now) }
    ensures within { IfOk result (λ rest. length rest.now ≤ length text.now) }
{
    let mut left = text;
    while let [_, rest @ ..] = left {
        if left.starts_with(b"?>") {
            return Ok(&left[2..]);
        }
        left = rest;
    }
    Err(DocStop::at(end, DocKind::Truncated))
}
