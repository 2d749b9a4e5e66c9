//! The texts that a connection is sent of an event.

ghost use Rattle.std.specs.Prelude.{◌≡◌, ◌≤◌, [], ◌++◌, length, IfOk, OnOk};
ghost use Rattle.fs_event.specs.Texts as spec;

use crate::event::Event;
use fs_text::{HeaderSink, Memory, Txt, push_escaped, push_header};
use itoa::Buffer;
use std::alloc::Global;
use std::marker::Model;

// The bytes that are set aside for the text of an event, so that it is mostly formed in one buffer.
const TEXT_ROOM: usize = 2_048;

// The bytes that are set aside for the headers of a frame.
const FRAME_ROOM: usize = 80;

/// The plain text of an event, formed header by header in a buffer that many events may use, one after another: each
/// begins with `clear`, takes its headers, and ends with its body.
///
/// A contract sees the bytes so far.
#[derive(Drop)]
pub struct EventText {
    bytes: Vec<u8>,
}

impl Model for EventText {
    ghost use Rattle.std.specs.Prelude.{ℕ, List};

    ghost Value = { List ℕ };

    ghost view = { λ text. text.bytes.items };
}

impl EventText {
    /// No text, and no room for one yet.
    pub fn none(alloc: Global) -> EventText
        ensures { result ≡ [] }
    {
        EventText {
            bytes: Vec::new(alloc),
        }
    }

    /// No text, with room for one.
    pub fn new(alloc: Global) -> Result<EventText, Memory>
        ensures { IfOk result (λ text. text ≡ []) }
    {
        let bytes = Vec::with_capacity(alloc, TEXT_ROOM)?;
        Ok(EventText { bytes })
    }

    /// How many bytes there is room for, those of the text among them.
    pub fn room(&self) -> usize
        ensures { length self.now ≤ result }
    {
        self.bytes.capacity()
    }

    /// No text is left; the room is.
    pub fn clear(&mut self)
        ensures { self.new ≡ [] }
    {
        self.bytes.clear();
    }

    /// Ends with this body: an empty line stands in front of it, and its length, unless it is empty, before that.
    pub fn end(&mut self, body: &[u8]) -> Result<(), Memory>
        ensures { OnOk result (self.new ≡ self.old ++ spec.ending body.now) }
    {
        push_body_length(&mut self.bytes, body)?;
        self.bytes.push(b'\n')?;
        self.bytes.extend_from_slice(body)?;
        Ok(())
    }

    /// The text.
    pub fn into_text(self) -> Result<Txt, Memory>
        ensures { IfOk result (λ t. t ≡ self) }
    {
        Txt::from_vec(self.bytes)
    }

    /// The frame of the text: its length and its type stand in front.
    pub fn frame(&self) -> Result<Txt, Memory>
        ensures { IfOk result (λ t. t ≡ spec.frame_of self.now) }
    {
        let text = self.bytes.as_slice();
        let room = text.len().saturating_add(FRAME_ROOM);
        let mut frame = Vec::with_capacity(*self.bytes.allocator(), room)?;
        push_length(&mut frame, text.len())?;
        frame.extend_from_slice(b"Content-Type: text/event-plain\n\n")?;
        frame.extend_from_slice(text)?;
        Txt::from_vec(frame)
    }

    // All of an event's text.
    #[tactic(auto, unfolding(crate::specs::Texts::plain))]
    fn of(alloc: Global, event: &Event) -> Result<EventText, Memory>
        ensures { IfOk result (λ text. text ≡ spec.plain event.now) }
    {
        let mut text = EventText::new(alloc)?;
        for (name, value) in event.headers.pairs() {
            text.put(name.as_bytes(), value.as_bytes())?;
        }
        text.end(event.body.as_bytes())?;
        Ok(text)
    }
}

/// A line for each header that has a value, with the value escaped.
impl HeaderSink for EventText {
    ghost taken = { λ header text. text ++ spec.line_with_value header };

    #[tactic(auto, unfolding(crate::specs::Texts::line_with_value))]
    fn put(&mut self, name: &[u8], value: &[u8]) -> Result<(), Memory> {
        if value.is_empty() {
            return Ok(());
        }
        self.bytes.extend_from_slice(name)?;
        push_value(&mut self.bytes, value)
    }

    #[tactic(auto, unfolding(crate::specs::Texts::line_with_value))]
    fn put_variable(&mut self, name: &[u8], value: &[u8]) -> Result<(), Memory> {
        if value.is_empty() {
            return Ok(());
        }
        self.bytes.extend_from_slice(b"variable_")?;
        push_escaped(&mut self.bytes, name)?;
        push_value(&mut self.bytes, value)
    }
}

/// The plain text of an event: a line for each header that has a value, with the value escaped, then an empty line. A
/// body stands behind that as it is, and its length in front.
pub fn plain(alloc: Global, event: &Event) -> Result<Txt, Memory>
    ensures { IfOk result (λ t. t ≡ spec.plain event.now) }
{
    EventText::of(alloc, event)?.into_text()
}

/// The frame of an event: its plain text, with the length and the type of that in front.
#[tactic(auto, unfolding(crate::specs::Texts::frame))]
pub fn frame(alloc: Global, event: &Event) -> Result<Txt, Memory>
    ensures { IfOk result (λ t. t ≡ spec.frame event.now) }
{
    EventText::of(alloc, event)?.frame()
}

// Adds what stands behind the name of a header.
fn push_value(text: &mut Vec<u8>, value: &[u8]) -> Result<(), Memory>
    ensures { OnOk result (text.new.items ≡ text.old.items ++ spec.escaped_value value.now) }
{
    text.push(b':')?;
    text.push(b' ')?;
    push_escaped(text, value)?;
    text.push(b'\n')?;
    Ok(())
}

// Adds the length of a body, if there is one.
#[tactic(auto, unfolding(crate::specs::Texts::body_length))]
fn push_body_length(text: &mut Vec<u8>, body: &[u8]) -> Result<(), Memory>
    ensures { OnOk result (text.new.items ≡ text.old.items ++ spec.body_length body.now) }
{
    if body.is_empty() {
        return Ok(());
    }
    push_length(text, body.len())
}

// Adds the line that tells a length.
fn push_length(text: &mut Vec<u8>, len: usize) -> Result<(), Memory>
    ensures { OnOk result (text.new.items ≡ text.old.items ++ spec.length_line len) }
{
    let mut digits = Buffer::new();
    push_header(text, b"Content-Length", digits.format(len).as_bytes())
}
