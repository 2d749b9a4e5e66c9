//! All that an event tells: what was told in short, and what the entry leaves.
ghost use Rattle.std.specs.Prelude.{◌≡◌, take, OnOk};
ghost use Rattle.std.specs.Option.{option_copied};
ghost use Rattle.fs_text.specs.CoreId as core_id;
ghost use Rattle.fs_text.specs.Headers.{taking, with_values};
ghost use Rattle.fs_state.specs.Drafts.{drafted};
ghost use Rattle.fs_state.specs.Posting as spec;

use crate::draft::Draft;
use crate::event::{Detail, Event, QueueAction};
use crate::job::Background;
use fs_bridge::Row;
use fs_chan::{Action, Chan};
use fs_text::{
    Cause, EventName, HeaderSink, Memory, State, Txt, cut_word, give, give_variable, without_spaces,
};
use fs_vars::Vars;
use itoa::Buffer;

// The most bytes of an application's argument that an event tells.
const ARGUMENT_TOLD: usize = 1_024;

impl<'a> Draft<'a> {
    /// Gives a sink all headers of an event of the entry in hand, where it has this number.
    pub(crate) fn tell_headers<S: HeaderSink>(
        &self,
        sink: &mut S,
        number: u64,
        event: &Event,
    ) -> Result<(), Memory>
        ensures { OnOk result (sink.new
            ≡ taking S.taken (spec.headers_of self.now.base (drafted self.now) number event.now) sink.old) }
    {
        tell_name(sink, event.name, event.detail.subclass())?;
        self.tell_switch(sink, number)?;
        self.tell_subject(sink, event.subject)?;
        self.tell_detail(sink, event)
    }

    /// Tells the switch, the number of the event, and the moment.
    fn tell_switch<S: HeaderSink>(&self, sink: &mut S, number: u64) -> Result<(), Memory>
        ensures { OnOk result (sink.new
            ≡ taking S.taken (spec.switch_headers (drafted self.now) number) sink.old) }
    {
        let mut sequence = Buffer::new();
        let mut moment = Buffer::new();
        sink.put(b"Core-UUID", self.switch_uuid())?;
        sink.put(b"Event-Sequence", sequence.format(number).as_bytes())?;
        sink.put(
            b"Event-Date-Timestamp",
            moment.format(self.moment()).as_bytes(),
        )
    }

    /// The identifier of the switch.
    fn switch_uuid(&self) -> &[u8]
        ensures { result.now ≡ core_id.uuid (drafted self.now).settings.core_uuid 0 }
    {
        let core = self.core;
        core.uuid()
    }

    /// Tells of the channel that an event tells of, if it tells of one.
    fn tell_subject<S: HeaderSink>(&self, sink: &mut S, subject: Option<u16>) -> Result<(), Memory>
        ensures { OnOk result (sink.new ≡ taking S.taken
            (spec.headers_of_chan (spec.subject_told self.now.base (drafted self.now) subject)) sink.old) }
    {
        match subject {
            Some(slot) => self.tell_chan(sink, slot),
            None => Ok(()),
        }
    }

    /// Tells of the channel in a slot, as the entry leaves it; of one that is gone by then as it was, in its last
    /// state.
    fn tell_chan<S: HeaderSink>(&self, sink: &mut S, slot: u16) -> Result<(), Memory>
        ensures { OnOk result (sink.new
            ≡ taking S.taken (spec.headers_of_chan (spec.chan_told self.now.base (drafted self.now) slot)) sink.old) }
    {
        if let Some(chan) = self.chan(slot) {
            return chan.tell_in(chan.state, sink);
        }
        match self.core.chan(slot) {
            Some(was) => was.tell_in(State::CsDestroy, sink),
            None => Ok(()),
        }
    }

    /// The channel in a slot, as the entry leaves it, or, where it is gone by then, as it was.
    fn chan_or_gone(&self, slot: u16) -> Option<&Chan>
        ensures { option_copied result
            ≡ spec.chan_left self.now.base (drafted self.now) slot }
    {
        match self.chan(slot) {
            Some(chan) => Some(chan),
            None => self.core.chan(slot),
        }
    }

    /// The same of the channel that an event tells of, if it tells of one.
    fn subject_or_gone(&self, subject: Option<u16>) -> Option<&Chan>
        ensures { option_copied result
            ≡ spec.subject_left self.now.base (drafted self.now) subject }
    {
        self.chan_or_gone(subject?)
    }

    /// Tells what the event tells beside its channel.
    fn tell_detail<S: HeaderSink>(&self, sink: &mut S, event: &Event) -> Result<(), Memory>
        ensures { OnOk result (sink.new
            ≡ taking S.taken (with_values
            (spec.detail_headers self.now.base (drafted self.now) event.now.subject event.now.detail)) sink.old) }
    {
        match &event.detail {
            Detail::Plain => Ok(()),
            Detail::Application(action) => tell_application(sink, action),
            Detail::Bridge(row) => self.tell_bridge(sink, *row),
            Detail::Unbridge(row, cause) => {
                self.tell_bridge(sink, *row)?;
                tell_cause(sink, *cause)
            }
            Detail::Hangup(cause) => tell_cause(sink, *cause),
            Detail::Report => self.tell_report(sink, event.subject),
            Detail::Job(job, _) => tell_job(sink, job),
            Detail::Shutdown => tell_shutdown(sink),
            Detail::Queue(name, action) => tell_queue(sink, name, *action),
        }
    }

    /// Tells the legs of a bridge, and its number.
    fn tell_bridge<S: HeaderSink>(&self, sink: &mut S, row: Row) -> Result<(), Memory>
        ensures { OnOk result (sink.new
            ≡ taking S.taken (with_values (spec.bridge_headers self.now.base (drafted self.now) row)) sink.old) }
    {
        let mut digits = Buffer::new();
        give(sink, "Bridge-A-Unique-ID", self.uuid_told(row.caller))?;
        give(sink, "Bridge-B-Unique-ID", self.uuid_told(row.answerer))?;
        give(sink, "Bridge-Number", digits.format(row.number).as_bytes())
    }

    /// The identifier of the channel in a slot, or nothing where none is or was there.
    fn uuid_told(&self, slot: u16) -> &[u8]
        ensures { result.now ≡ spec.uuid_of (spec.chan_told self.now.base (drafted self.now) slot) }
    {
        match self.chan_or_gone(slot) {
            Some(chan) => chan.uuid.as_bytes(),
            None => &[],
        }
    }

    /// Tells how the call of the channel was that an event tells of.
    fn tell_report<S: HeaderSink>(&self, sink: &mut S, subject: Option<u16>) -> Result<(), Memory>
        ensures { OnOk result (sink.new
            ≡ taking S.taken (with_values
            (spec.report_headers (spec.subject_told self.now.base (drafted self.now) subject))) sink.old) }
    {
        let Some(chan) = self.subject_or_gone(subject) else {
            return Ok(());
        };
        if let Some(cause) = chan.cause {
            tell_cause(sink, cause)?;
        }
        tell_variables(sink, &chan.vars)
    }
}

/// Tells which event it is: its name, and its subclass where it has one.
fn tell_name<S: HeaderSink>(sink: &mut S, name: EventName, subclass: &[u8]) -> Result<(), Memory>
    ensures { OnOk result (sink.new
        ≡ taking S.taken (spec.name_headers name subclass.now) sink.old) }
{
    sink.put(b"Event-Name", name.name().as_bytes())?;
    give(sink, "Event-Subclass", subclass)
}

/// Tells an application, and the first bytes of its argument.
fn tell_application<S: HeaderSink>(sink: &mut S, action: &Action) -> Result<(), Memory>
    ensures { OnOk result (sink.new
        ≡ taking S.taken (with_values (spec.application_headers action.now)) sink.old) }
{
    give(sink, "Application", action.application.as_bytes())?;
    give(sink, "Application-Data", argument_told(action))
}

/// The first bytes of an application's argument.
#[tactic(auto, using(std::proofs::lemmas::List::take_min))]
fn argument_told(action: &Action) -> &[u8]
    ensures { result.now ≡ take 1024 action.now.argument }
{
    let argument = action.argument.as_bytes();
    &argument[..ARGUMENT_TOLD.min(argument.len())]
}

/// Tells why a channel was hung up, or a bridge ended.
fn tell_cause<S: HeaderSink>(sink: &mut S, cause: Cause) -> Result<(), Memory>
    ensures { OnOk result (sink.new ≡ taking S.taken (with_values (spec.cause_header cause)) sink.old) }
{
    give(sink, "Hangup-Cause", cause.name().as_bytes())
}

/// Tells a job in the background: its identifier, and the name and the arguments of its command.
fn tell_job<S: HeaderSink>(sink: &mut S, job: &Background) -> Result<(), Memory>
    ensures { OnOk result (sink.new ≡ taking S.taken (with_values (spec.job_headers job.now)) sink.old) }
{
    let (name, arguments) = cut_word(without_spaces(job.command.as_bytes()));
    give(sink, "Job-UUID", job.uuid.as_bytes())?;
    give(sink, "Job-Command", name)?;
    give(sink, "Job-Command-Arg", arguments)
}

/// Tells that the switch comes to its end.
fn tell_shutdown<S: HeaderSink>(sink: &mut S) -> Result<(), Memory>
    ensures { OnOk result (sink.new ≡ taking S.taken (with_values spec.shutdown_headers) sink.old) }
{
    give(sink, "Event-Info", b"System Shutting Down")
}

/// Tells a queue, and what happened there.
fn tell_queue<S: HeaderSink>(sink: &mut S, name: &Txt, action: QueueAction) -> Result<(), Memory>
    ensures { OnOk result (sink.new
        ≡ taking S.taken (with_values (spec.queue_headers name.now action)) sink.old) }
{
    give(sink, "FIFO-Name", name.as_bytes())?;
    give(sink, "FIFO-Action", action.name())
}

/// Tells variables, in order, with their names escaped.
fn tell_variables<S: HeaderSink>(sink: &mut S, vars: &Vars) -> Result<(), Memory>
    ensures { OnOk result (sink.new
        ≡ taking S.taken (with_values (spec.variable_headers vars.now)) sink.old) }
{
    for (name, value) in vars.pairs() {
        give_variable(sink, name, value.as_bytes())?;
    }
    Ok(())
}
