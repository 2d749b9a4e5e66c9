//! The frames that a connection is sent.

ghost use Rattle.std.specs.Prelude.{◌≡◌, ◌++◌, length, codes, IfOk};
ghost use Rattle.std.specs.Fmt.{decimal};
ghost use Rattle.std.specs.Option.{option_copied};
ghost use Rattle.fs_cmd.specs.Frames as spec;

use fs_text::{Memory, Txt, push_header};
use itoa::Buffer;
use std::alloc::Global;

// The bytes that are set aside for the headers of a frame, so that it is formed in one buffer.
const HEADER_ROOM: usize = 80;

// The bytes that are set aside for what stands round an identifier in a notice.
const NOTICE_ROOM: usize = 192;

// The bytes that are set aside for what stands round a filter or an identifier in a reply's text.
const BRACKET_ROOM: usize = 32;

/// The first frame of a connection.
#[tactic(auto, unfolding(crate::specs::Frames::auth_request))]
pub fn auth_request(alloc: Global) -> Result<Txt, Memory>
    ensures { IfOk result (λ t. t ≡ spec.auth_request) }
{
    Txt::of(alloc, b"Content-Type: auth/request\n\n")
}

/// The reply to a command, with further headers.
#[tactic(auto, unfolding(crate::specs::Frames::reply))]
pub fn reply(alloc: Global, text: &[u8], more: &[(Txt, Txt)]) -> Result<Txt, Memory>
    ensures { IfOk result (λ t. t ≡ spec.reply text.now more.now) }
{
    let mut frame = Vec::with_capacity(alloc, text.len().saturating_add(HEADER_ROOM))?;
    frame.extend_from_slice(b"Content-Type: command/reply\n")?;
    push_header(&mut frame, b"Reply-Text", text)?;
    for (name, value) in more {
        push_header(&mut frame, name.as_bytes(), value.as_bytes())?;
    }
    frame.push(b'\n')?;
    Txt::from_vec(frame)
}

/// The frame with the answer of an api command. An empty answer is told in words.
#[tactic(auto, unfolding(crate::specs::Frames::api_reply, crate::specs::Frames::spoken))]
pub fn api_reply(alloc: Global, answer: &[u8]) -> Result<Txt, Memory>
    ensures { IfOk result (λ t. t ≡ spec.api_reply answer.now) }
{
    match answer {
        [] => response(alloc, b"-ERR no reply\n"),
        answer => response(alloc, answer),
    }
}

// The frame with an answer that has been told.
#[tactic(auto, unfolding(crate::specs::Frames::with_body))]
fn response(alloc: Global, answer: &[u8]) -> Result<Txt, Memory>
    ensures { IfOk result (λ t. t ≡ spec.with_body (codes "api/response") answer.now) }
{
    behind_head(
        alloc,
        b"Content-Type: api/response\nContent-Length: ",
        answer,
    )
}

/// The last frame of a connection that the switch ends.
#[tactic(auto, unfolding(crate::specs::Frames::notice, crate::specs::Frames::with_body))]
pub fn notice(alloc: Global) -> Result<Txt, Memory>
    ensures { IfOk result (λ t. t ≡ spec.notice) }
{
    let farewell = b"Disconnected, goodbye.\nSee you at ClueCon! http://www.cluecon.com/\n";
    behind_head(
        alloc,
        b"Content-Type: text/disconnect-notice\nContent-Length: ",
        farewell,
    )
}

/// The last frame of a connection that controlled the channel of an identifier, if it is given one.
pub fn notice_of(alloc: Global, controlled: Option<&[u8]>) -> Result<Txt, Memory>
    ensures { IfOk result (λ t. t ≡ spec.notice_of (option_copied controlled.entry)) }
{
    match controlled {
        Some(uuid) => notice_for(alloc, uuid),
        None => notice(alloc),
    }
}

// The last frame of a connection that controlled the channel of an identifier.
#[tactic(auto, unfolding(crate::specs::Frames::notice_for))]
fn notice_for(alloc: Global, uuid: &[u8]) -> Result<Txt, Memory>
    ensures { IfOk result (λ t. t ≡ spec.notice_for uuid.now) }
{
    let mut frame = Vec::with_capacity(alloc, uuid.len().saturating_add(NOTICE_ROOM))?;
    frame.extend_from_slice(b"Content-Type: text/disconnect-notice\n")?;
    push_header(&mut frame, b"Controlled-Session-UUID", uuid)?;
    push_header(&mut frame, b"Content-Disposition", b"disconnect")?;
    frame.extend_from_slice(
        b"Content-Length: 67\n\nDisconnected, goodbye.\nSee you at ClueCon! http://www.cluecon.com/\n",
    )?;
    Txt::from_vec(frame)
}

// A body behind a head that is to end with its length.
fn behind_head(alloc: Global, head: &[u8], body: &[u8]) -> Result<Txt, Memory>
    ensures { IfOk result (λ t. t ≡ head.now ++ decimal (length body.now) ++ codes "\n\n" ++ body.now) }
{
    let mut digits = Buffer::new();
    let mut frame = Vec::with_capacity(alloc, body.len().saturating_add(HEADER_ROOM))?;
    frame.extend_from_slice(head)?;
    frame.extend_from_slice(digits.format(body.len()).as_bytes())?;
    frame.extend_from_slice(b"\n\n")?;
    frame.extend_from_slice(body)?;
    Txt::from_vec(frame)
}

/// The reply's text where a filter is added.
#[tactic(auto, unfolding(crate::specs::Frames::filter_added))]
pub fn filter_added(alloc: Global, header: &[u8], value: &[u8]) -> Result<Txt, Memory>
    ensures { IfOk result (λ t. t ≡ spec.filter_added header.now value.now) }
{
    bracketed(alloc, b"+OK filter added. ", header, value)
}

/// The reply's text where the filters of a header are taken out, or those that have this value.
#[tactic(auto, unfolding(crate::specs::Frames::filter_deleted))]
pub fn filter_deleted(alloc: Global, header: &[u8], value: Option<&[u8]>) -> Result<Txt, Memory>
    ensures { IfOk result (λ t. t ≡ spec.filter_deleted header.now (option_copied value.entry)) }
{
    bracketed(alloc, b"+OK filter deleted. ", header, value.unwrap_or(&[]))
}

/// The reply's text where no live channel has the identifier that a message names.
#[tactic(auto, unfolding(crate::specs::Frames::invalid_session))]
pub fn invalid_session(alloc: Global, uuid: &[u8]) -> Result<Txt, Memory>
    ensures { IfOk result (λ t. t ≡ spec.invalid_session uuid.now) }
{
    let room = uuid.len().saturating_add(BRACKET_ROOM);
    let mut text = Vec::with_capacity(alloc, room)?;
    text.extend_from_slice(b"-ERR invalid session id [")?;
    text.extend_from_slice(uuid)?;
    text.push(b']')?;
    Txt::from_vec(text)
}

// A header and a value in brackets, behind a head.
fn bracketed(alloc: Global, head: &[u8], header: &[u8], value: &[u8]) -> Result<Txt, Memory>
    ensures { IfOk result (λ t. t ≡ spec.bracketed head.now header.now value.now) }
{
    let room = header.len().saturating_add(value.len());
    let mut text = Vec::with_capacity(alloc, room.saturating_add(BRACKET_ROOM))?;
    text.extend_from_slice(head)?;
    text.push(b'[')?;
    text.extend_from_slice(header)?;
    text.extend_from_slice(b"]=[")?;
    text.extend_from_slice(value)?;
    text.push(b']')?;
    Txt::from_vec(text)
}
