//! Events.

use fs_text::{EventName, Headers, Txt};

/// What happened, as a connection is told.
#[derive(Drop)]
pub struct Event {
    /// Which event it is.
    pub name: EventName,
    /// Of a `CUSTOM` event its subclass, as `fifo::info`; else empty.
    pub subclass: Txt,
    /// All headers, in order, with their values as they are.
    pub headers: Headers,
    /// The text behind the headers; mostly empty.
    pub body: Txt,
}

impl Event {
    ghost use Rattle.std.specs.Prelude.{◌≡◌, option_map};
    ghost use Rattle.fs_event.specs.Headers.{value_of};

    /// The value of the first header of this name.
    #[tactic(auto, unfolding(crate::specs::Headers::value_of))]
    pub fn header(&self, name: &[u8]) -> Option<&Txt>
        ensures { option_map (λ value. value.now) result ≡ value_of name.now self.now.headers }
    {
        self.headers
            .pairs()
            .iter()
            .find(|header| header.0.as_bytes() == name)
            .map(|header| &header.1)
    }
}
