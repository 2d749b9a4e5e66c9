//! All that is told of a channel.

ghost use Rattle.std.specs.Prelude.{◌≡◌, IfOk, OnOk};
ghost use Rattle.fs_text.specs.Headers.{taking, with_values};
ghost use Rattle.fs_state.specs.Posting.{variable_headers};
ghost use Rattle.fs_machine.specs.Dumping as spec;

use fs_chan::Chan;
use fs_event::EventText;
use fs_text::{HeaderSink, Memory, Txt, give_variable};
use fs_vars::Vars;
use std::alloc::Global;

/// The headers of a channel, and behind them those of its variables, a line each with the value escaped.
pub(crate) fn dump(alloc: Global, chan: &Chan) -> Result<Txt, Memory>
    ensures { IfOk result (λ t. t ≡ spec.dump_of chan.now) }
{
    let mut text = EventText::new(alloc)?;
    chan.tell_in(chan.state, &mut text)?;
    tell_variables(&mut text, &chan.vars)?;
    text.into_text()
}

// Gives a sink the headers of variables, in order.
fn tell_variables<S: HeaderSink>(sink: &mut S, vars: &Vars) -> Result<(), Memory>
    ensures { OnOk result (sink.new ≡ taking S.taken (with_values (variable_headers vars.now)) sink.old) }
{
    for (name, value) in vars.pairs() {
        give_variable(sink, name, value.as_bytes())?;
    }
    Ok(())
}
