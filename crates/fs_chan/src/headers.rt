//! The headers that tell of a channel.
ghost use Rattle.std.specs.Prelude.{◌≡◌, IfOk, OnOk};
ghost use Rattle.fs_text.specs.Headers.{taking, with_values};
ghost use Rattle.fs_chan.specs.Changes.{in_state};
ghost use Rattle.fs_chan.specs.Headers as spec;

use crate::chan::Chan;
use fs_text::{HeaderSink, Headers, Memory, State, give};
use itoa::Buffer;
use std::alloc::Global;

impl Chan {
    /// The headers that tell of the channel, with their values as they are. One with an empty value is left out.
    ///
    /// They are `Channel-State`, `Channel-State-Number`, `Channel-Name`, `Unique-ID`, `Call-Direction`, `Answer-State`
    /// (`ringing`, `answered` or `hangup`), `Caller-Caller-ID-Name`, `Caller-Caller-ID-Number`,
    /// `Caller-Destination-Number`, `Caller-Context` and `Other-Leg-Unique-ID`, which is its peer's identifier.
    pub fn headers(&self, alloc: Global) -> Result<Headers, Memory>
        ensures { IfOk result (λ headers. headers ≡ spec.channel_headers self.now) }
    {
        let mut headers = Headers::new(alloc);
        self.tell_in(self.state, &mut headers)?;
        Ok(headers)
    }

    /// Gives a sink the headers that tell of the channel, as [`headers`](Chan::headers) has them, if it were in this
    /// state.
    pub fn tell_in<S: HeaderSink>(&self, state: State, sink: &mut S) -> Result<(), Memory>
        ensures { OnOk result
            (sink.new ≡ taking S.taken (spec.channel_headers (in_state state self.now)) sink.old) }
    {
        self.tell_state(state, sink)?;
        self.tell_profile(sink)?;
        give(sink, "Other-Leg-Unique-ID", self.peer_uuid())
    }

    // The headers up to its state of answer.
    fn tell_state<S: HeaderSink>(&self, state: State, sink: &mut S) -> Result<(), Memory>
        ensures { OnOk result
            (sink.new ≡ taking S.taken (with_values (spec.state_headers (in_state state self.now))) sink.old) }
    {
        let mut digits = Buffer::new();
        let number = digits.format(state.number());
        give(sink, "Channel-State", state.name().as_bytes())?;
        give(sink, "Channel-State-Number", number.as_bytes())?;
        give(sink, "Channel-Name", self.profile.chan_name.as_bytes())?;
        give(sink, "Unique-ID", self.uuid.as_bytes())?;
        give(sink, "Call-Direction", self.direction.name().as_bytes())?;
        give(sink, "Answer-State", self.answer_state(state).as_bytes())
    }

    // The headers of its profile.
    fn tell_profile<S: HeaderSink>(&self, sink: &mut S) -> Result<(), Memory>
        ensures { OnOk result
            (sink.new ≡ taking S.taken (with_values (spec.profile_headers self.now.profile)) sink.old) }
    {
        let profile = &*self.profile;
        let name = profile.caller_id_name.as_bytes();
        let number = profile.caller_id_number.as_bytes();
        let destination = profile.destination_number.as_bytes();
        give(sink, "Caller-Caller-ID-Name", name)?;
        give(sink, "Caller-Caller-ID-Number", number)?;
        give(sink, "Caller-Destination-Number", destination)?;
        give(sink, "Caller-Context", profile.context.as_bytes())
    }

    // `hangup` in a state that it is hung up in, and before `answered` or `ringing`.
    fn answer_state(&self, state: State) -> &'static str
        ensures { result.now ≡ spec.answer_state (in_state state self.now) }
    {
        if state.number() >= State::CsHangup.number() {
            "hangup"
        } else if self.answered.is_some() {
            "answered"
        } else {
            "ringing"
        }
    }

    // The identifier of its peer, or nothing.
    fn peer_uuid(&self) -> &[u8]
        ensures { result.now ≡ spec.peer_uuid self.now.peer }
    {
        match &self.peer {
            Some(peer) => peer.uuid.as_bytes(),
            None => &[],
        }
    }
}
