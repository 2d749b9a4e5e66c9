//! Events and their frames.

use case_desk::{Answer, cut};
use fs_event::{Event, frame};
use fs_text::{EventName, Headers, Memory, Txt};

/// Answers `event NAME HEADERS` and `event NAME HEADERS | BODY` with the frame of such an event. A header is
/// `NAME=VALUE` without spaces, and stands behind the one that says the event's name.
pub(crate) fn tell_event(rest: &str, answer: &mut Answer) {
    let (told, body) = rest.split_once(" | ").unwrap_or((rest, ""));
    let made = event_of(told, body, answer);
    match &made {
        Ok(Some(event)) => tell_frame(event, answer),
        Ok(None) => answer.line("no event"),
        Err(_) => {}
    }
    answer.note(made);
}

fn tell_frame(event: &Event, answer: &mut Answer) {
    let frame = frame(answer.alloc(), event);
    if let Ok(frame) = &frame {
        answer.lines(frame.as_bytes());
    }
    answer.note(frame);
}

/// The event of this name, with these headers and this body. Its subclass is what its header `Event-Subclass` says.
pub(crate) fn event_of(
    told: &str,
    body: &str,
    answer: &mut Answer,
) -> Result<Option<Event>, Memory> {
    let (name, headers) = cut(told);
    let Some(event_name) = EventName::of_name(name.as_bytes()) else {
        return Ok(None);
    };
    let headers = headers_of(name, headers, answer);
    let body = answer.text_of(body)?;
    Ok(Some(Event {
        name: event_name,
        subclass: Txt::of(answer.alloc(), subclass_in(&headers))?,
        headers,
        body,
    }))
}

// The headers of an event of this name.
fn headers_of(name: &str, told: &str, answer: &mut Answer) -> Headers {
    let mut headers = Headers::new(answer.alloc());
    let done = push_header(&mut headers, "Event-Name", name, answer);
    answer.note(done);
    for header in told.split_whitespace() {
        let (name, value) = header.split_once('=').unwrap_or((header, ""));
        let done = push_header(&mut headers, name, value, answer);
        answer.note(done);
    }
    headers
}

fn push_header(
    headers: &mut Headers,
    name: &str,
    value: &str,
    answer: &mut Answer,
) -> Result<(), Memory> {
    let name = answer.text_of(name)?;
    headers.push(name, answer.text_of(value)?)
}

// The subclass that these headers tell, if they do.
fn subclass_in(headers: &Headers) -> &[u8] {
    for (name, value) in headers.pairs() {
        if name.as_bytes() == b"Event-Subclass".as_slice() {
            return value.as_bytes();
        }
    }
    b""
}
