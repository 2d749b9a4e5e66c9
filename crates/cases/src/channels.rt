//! The headers of a channel.

use case_desk::Answer;
use fs_chan::{Chan, Direction, Peer, SharedProfile, SharedVars};
use fs_text::{Cause, Memory, State, Txt};
use fs_vars::{Bounds, Profile, Vars};
use std::alloc::Global;

/// Answers `channel answered` and `channel hung-up` with the headers of such a channel.
pub(crate) fn tell_channel(which: &str, answer: &mut Answer) {
    let alloc = answer.alloc();
    let done = match which {
        "answered" => tell_headers(answered(alloc), answer),
        "hung-up" => tell_headers(hung_up(alloc), answer),
        _ => {
            answer.line("no channel");
            Ok(())
        }
    };
    answer.note(done);
}

fn tell_headers(chan: Result<Chan, Memory>, answer: &mut Answer) -> Result<(), Memory> {
    let headers = chan?.headers(answer.alloc())?;
    for (name, value) in headers.pairs() {
        answer.header(name.as_bytes(), ": ", value.as_bytes());
    }
    Ok(())
}

// The near end of a call from 1000 to 1001, which runs its actions.
fn answered(alloc: Global) -> Result<Chan, Memory> {
    let uuid = Txt::of(alloc, b"46530000-0000-8000-8000-000000000002")?;
    let profile = of_caller(alloc, profile(alloc, b"1001", b"loopback/1001-b")?)?;
    let mut chan = channel(alloc, Direction::Inbound, profile)?;
    chan.peer = Some(Peer { slot: 2, uuid });
    chan.enter(State::CsExecute);
    let _is_new = chan.answer(7);
    Ok(chan)
}

// The far end of a call to an extension that is busy.
fn hung_up(alloc: Global) -> Result<Chan, Memory> {
    let profile = profile(alloc, b"busy", b"loopback/busy-a")?;
    let mut chan = channel(alloc, Direction::Outbound, profile)?;
    chan.hang_up(Cause::UserBusy)?;
    Ok(chan)
}

fn channel(alloc: Global, direction: Direction, profile: Profile) -> Result<Chan, Memory> {
    let uuid = Txt::of(alloc, b"46530000-0000-8000-8000-000000000001")?;
    let vars = SharedVars::of(alloc, Vars::new(alloc, Bounds::Channel)?)?;
    let profile = SharedProfile::of(alloc, profile)?;
    Ok(Chan::new(uuid, 1, direction, profile, vars))
}

// A profile with a caller.
fn of_caller(alloc: Global, mut profile: Profile) -> Result<Profile, Memory> {
    profile.caller_id_name = Txt::of(alloc, b"Ann")?;
    profile.caller_id_number = Txt::of(alloc, b"1000")?;
    Ok(profile)
}

// Who was called at an extension, as a channel of this name.
fn profile(alloc: Global, exten: &[u8], name: &[u8]) -> Result<Profile, Memory> {
    let mut profile = Profile::empty(alloc)?;
    profile.destination_number = Txt::of(alloc, exten)?;
    profile.context = Txt::of(alloc, b"default")?;
    profile.chan_name = Txt::of(alloc, name)?;
    Ok(profile)
}
