//! What a controller is answered that connects to its channel.

ghost use Rattle.std.specs.Prelude.{◌≡◌, ◌++◌, map, codes, IfOk, OnOk};
ghost use Rattle.std.specs.List.{concat};
ghost use Rattle.fs_text.specs.Headers.{variable_header};
ghost use Rattle.fs_event.specs.Texts.{line_with_value};
ghost use Rattle.fs_out.specs.Greetings as spec;

use crate::target::Target;
use fs_chan::Chan;
use fs_event::EventText;
use fs_text::{HeaderSink, Memory, Txt, push_header};
use fs_vars::Vars;
use std::alloc::Global;

// The bytes that are set aside for what stands round the headers of a channel, so that a reply is formed in one buffer.
const ROOM_ROUND: usize = 128;

/// The reply to `connect`, by which a controller is told of the channel that it was dialed for: the channel's headers
/// and variables, as events tell them, with the mode of the connection and what the controller may do.
///
/// FreeSWITCH documents it with `connect` of the outbound event socket. The only error is want of memory.
pub fn greeting(alloc: Global, chan: &Chan, target: &Target) -> Result<Txt, Memory>
    ensures { IfOk result (λ text. text ≡ spec.greeting_of chan.now target.now) }
{
    let told = told(alloc, chan)?;
    let told = told.as_bytes();
    let mut frame = Vec::with_capacity(alloc, told.len().saturating_add(ROOM_ROUND))?;
    frame.extend_from_slice(b"Content-Type: command/reply\n")?;
    push_header(&mut frame, b"Reply-Text", b"+OK")?;
    frame.extend_from_slice(told)?;
    push_header(&mut frame, b"Socket-Mode", b"async")?;
    push_header(&mut frame, b"Control", control_of(target.full).as_bytes())?;
    frame.push(b'\n')?;
    Txt::from_vec(frame)
}

// What a controller may command: all that there is, or its channel alone.
fn control_of(full: bool) -> &'static str
    ensures { result.now ≡ spec.control_of full }
{
    if full { "full" } else { "single-channel" }
}

// The lines that tell of a channel and its variables.
fn told(alloc: Global, chan: &Chan) -> Result<Txt, Memory>
    ensures { IfOk result (λ text. text ≡ spec.lines_of (spec.headers_of chan.now)) }
{
    let mut text = EventText::new(alloc)?;
    chan.tell_in(chan.state, &mut text)?;
    tell_variables(&mut text, &chan.vars)?;
    text.into_text()
}

// Adds the lines of variables, in order.
fn tell_variables(text: &mut EventText, vars: &Vars) -> Result<(), Memory>
    ensures { OnOk result (text.new ≡ text.old ++ concat (map line_with_value (map variable_header vars.now.pairs))) }
{
    for (name, value) in vars.pairs() {
        text.put_variable(name, value.as_bytes())?;
    }
    Ok(())
}
