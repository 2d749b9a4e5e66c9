//! What the commands of the event socket do.

ghost use Rattle.std.specs.Prelude.{◌≡◌, [], ◌∷◌, Some, codes, IfOk};
ghost use Rattle.std.specs.Option.{option_copied};
ghost use Rattle.std.specs.Str.{bytes_eq};
ghost use Rattle.fs_cmd.specs.Commands.{read_of};
ghost use Rattle.fs_cmd.specs.Commands as commands;
ghost use Rattle.fs_cmd.specs.Frames.{not_found, denied, job_begun, reply as reply_of};
ghost use Rattle.fs_api.specs.Readings.{api_of};
ghost use Rattle.fs_state.specs.declared.conn.Phase.TheVariants as phase;
ghost use Rattle.fs_state.specs.Drafts.{drafted, Brings};
ghost use Rattle.fs_machine.specs.Api.{done_by};
ghost use Rattle.fs_machine.specs.declared.owing.Giver.TheVariants as giver;
ghost use Rattle.fs_machine.specs.Commands as spec;
ghost use Rattle.fs_machine.specs.Controlling.{farewell as farewell_of, greeting_for};

use crate::api::run_api;
use crate::connections::{admit, part, phase_at};
use crate::controlling::{farewell, greeting_by, let_channel_go, names_all};
use crate::messages::send_message;
use crate::owing::{Giver, begin_background};
use crate::replies::give_reply;
use crate::subscribing::{
    add_filter, delete_filters, fall_silent, refuse_filter, subscribe, unsubscribe,
};
use fs_api::{Api, echoed};
use fs_cmd::{Command, api_reply, reply};
use fs_state::{Control, Draft, Parting, Phase};
use fs_text::{Memory, Txt};
use std::alloc::Global;

/// Does a command of a connection.
#[tactic(auto, unfolding(crate::specs::Commands::command_done, fs_cmd::specs::Frames::bye))]
pub(crate) fn do_command(
    draft: &mut Draft<'_>,
    conn: u32,
    command: Command<'_>,
) -> Result<(), Memory>
    ensures { Brings result draft.old draft.new (spec.command_done conn (read_of command.entry) (drafted draft.old)) }
{
    match phase_at(draft, conn) {
        Phase::Fresh => do_when_fresh(draft, conn, command),
        Phase::Ready => do_when_ready(draft, conn, command),
        Phase::Ending | Phase::Closed => Ok(()),
    }
}

// Does a command of a connection that has not said the password yet.
#[tactic(auto, unfolding(fs_cmd::specs::Frames::bye))]
fn do_when_fresh(draft: &mut Draft<'_>, conn: u32, command: Command<'_>) -> Result<(), Memory>
    ensures { Brings result draft.old draft.new
        (spec.command_done_in phase.Fresh conn (read_of command.entry) (drafted draft.old)) }
{
    match command {
        Command::Auth { password } => authenticate(draft, conn, password),
        Command::Exit => begin_ending(draft, conn, Parting::Exit, b"+OK bye"),
        _ => refuse(draft, conn),
    }
}

// Does a command of a connection that has.
#[tactic(auto, unfolding(fs_cmd::specs::Frames::bye))]
fn do_when_ready(draft: &mut Draft<'_>, conn: u32, command: Command<'_>) -> Result<(), Memory>
    ensures { Brings result draft.old draft.new
        (spec.command_done_in phase.Ready conn (read_of command.entry) (drafted draft.old)) }
{
    match command {
        Command::Exit => begin_ending(draft, conn, Parting::Exit, b"+OK bye"),
        Command::Api { text } => respond_within(draft, conn, text),
        Command::Event { form, names } => subscribe(draft, conn, form, names),
        Command::Nixevent { names } => unsubscribe(draft, conn, names),
        Command::Noevents => fall_silent(draft, conn),
        Command::Filter { header, value } => add_filter(draft, conn, header, value),
        Command::FilterDelete { header, value } => delete_filters(draft, conn, header, value),
        Command::BadFilter => refuse_filter(draft, conn),
        Command::Sendmsg { uuid, message } => send_message(draft, conn, uuid, message),
        Command::Bgapi { text, job } => run_behind_within(draft, conn, job, text),
        Command::Connect => greet(draft, conn),
        Command::Auth { .. } | Command::Unknown => refuse(draft, conn),
    }
}

// Replies that there is no such command.
#[tactic(auto, unfolding(fs_cmd::specs::Frames::not_found))]
fn refuse(draft: &mut Draft<'_>, conn: u32) -> Result<(), Memory>
    ensures { Brings result draft.old draft.new (spec.with_reply conn not_found (drafted draft.old)) }
{
    give_reply(draft, conn, b"-ERR command not found")
}

// Begins the end of a connection, with a last reply and the notice.
fn begin_ending(draft: &mut Draft<'_>, conn: u32, why: Parting, text: &[u8]) -> Result<(), Memory>
    ensures { Brings result draft.old draft.new (spec.after_dismissal conn why text.now (drafted draft.old)) }
{
    let frame = farewell_to(draft, conn)?;
    let_channel_go(draft, conn)?;
    part(draft, conn, why)?;
    give_reply(draft, conn, text)?;
    draft.give_notice(conn, frame)
}

// The notice of a connection, which names the channel that it controls.
fn farewell_to(draft: &Draft<'_>, conn: u32) -> Result<Txt, Memory>
    ensures { IfOk result (λ frame. frame ≡ farewell_of (spec.control_at (drafted draft.now) conn)) }
{
    farewell(draft.alloc(), control_at(draft, conn))
}

// What a connection controls.
fn control_at<'a>(draft: &'a Draft<'_>, conn: u32) -> Option<&'a Control>
    ensures { option_copied result ≡ spec.control_at (drafted draft.now) conn }
{
    draft.conn(conn)?.control.as_ref()
}

// ---- what controllers may command

// Whether a connection may command all that there is.
fn may_command_all(draft: &Draft<'_>, conn: u32) -> Result<bool, Memory>
    ensures { IfOk result (λ may. may ≡ spec.may_command_all (spec.control_at (drafted draft.now) conn)) }
{
    match control_at(draft, conn) {
        Some(control) => names_all(draft.alloc(), &control.dialed),
        None => Ok(true),
    }
}

// Replies that a command is not for the controller of one channel.
#[tactic(auto, unfolding(fs_cmd::specs::Frames::denied))]
fn deny(draft: &mut Draft<'_>, conn: u32) -> Result<(), Memory>
    ensures { Brings result draft.old draft.new (spec.with_reply conn denied (drafted draft.old)) }
{
    give_reply(draft, conn, b"-ERR permission denied")
}

// Runs an api command, unless it is not for the controller of one channel.
fn respond_within(draft: &mut Draft<'_>, conn: u32, text: &[u8]) -> Result<(), Memory>
    ensures { Brings result draft.old draft.new
        (spec.command_done_in phase.Ready conn (commands.Api text.now) (drafted draft.old)) }
{
    if may_command_all(draft, conn)? {
        respond(draft, conn, text)
    } else {
        deny(draft, conn)
    }
}

// Lets a job run a command in the background, unless it is not for the controller of one channel.
fn run_behind_within(
    draft: &mut Draft<'_>,
    conn: u32,
    given: Option<&[u8]>,
    text: &[u8],
) -> Result<(), Memory>
    ensures { Brings result draft.old draft.new
        (spec.command_done_in phase.Ready conn (commands.Bgapi text.now (option_copied given.entry))
        (drafted draft.old)) }
{
    if may_command_all(draft, conn)? {
        run_behind(draft, conn, given, text)
    } else {
        deny(draft, conn)
    }
}

// Tells a controller of its channel.
fn greet(draft: &mut Draft<'_>, conn: u32) -> Result<(), Memory>
    ensures { Brings result draft.old draft.new (spec.after_connect conn (drafted draft.old)) }
{
    match greeting_to(draft, conn)? {
        Some(greeting) => draft.give_now(conn, greeting),
        None => refuse(draft, conn),
    }
}

// What a controller is told of its channel, if it has one.
fn greeting_to(draft: &Draft<'_>, conn: u32) -> Result<Option<Txt>, Memory>
    ensures { IfOk result (λ text. text ≡ greeting_for (spec.control_at (drafted draft.now) conn) (drafted draft.now)) }
{
    match control_at(draft, conn) {
        Some(control) => greeting_by(draft.alloc(), &control.dialed, draft.chan(control.slot)),
        None => Ok(None),
    }
}

// Judges the password that is offered.
#[tactic(auto, unfolding(fs_cmd::specs::Frames::accepted, fs_cmd::specs::Frames::invalid))]
fn authenticate(draft: &mut Draft<'_>, conn: u32, given: &[u8]) -> Result<(), Memory>
    ensures { Brings result draft.old draft.new (spec.after_password conn given.now (drafted draft.old)) }
{
    if !is_password(draft, given) {
        return begin_ending(draft, conn, Parting::AuthRefused, b"-ERR invalid");
    }
    admit(draft, conn)?;
    give_reply(draft, conn, b"+OK accepted")
}

// Whether this is the password.
fn is_password(draft: &Draft<'_>, given: &[u8]) -> bool
    ensures { result ≡ bytes_eq given.now (drafted draft.now).settings.password }
{
    given == draft.settings().password.as_bytes()
}

// Runs an api command, and responds to it, unless the reply is owed.
#[tactic(auto, using(fs_api::proofs::EchoLemmas::echoes))]
fn respond(draft: &mut Draft<'_>, conn: u32, text: &[u8]) -> Result<(), Memory>
    ensures { Brings result draft.old draft.new
        (spec.with_response conn (done_by (giver.Conn conn) (api_of text.now) (drafted draft.old))) }
{
    if let Some(text) = echoed(text) {
        return give_response(draft, conn, text);
    }
    let api = Api::of(draft.alloc(), text)?;
    match run_api(draft, &Giver::Conn { conn }, &api)? {
        Some(reply) => give_response(draft, conn, reply.as_bytes()),
        None => Ok(()),
    }
}

// Lets a job run a command in the background, and replies which, unless there are too many jobs.
#[tactic(auto, unfolding(fs_cmd::specs::Frames::jobs_full))]
fn run_behind(
    draft: &mut Draft<'_>,
    conn: u32,
    given: Option<&[u8]>,
    text: &[u8],
) -> Result<(), Memory>
    ensures { Brings result draft.old draft.new
        (spec.after_background conn (option_copied given.entry) text.now (drafted draft.old)) }
{
    if draft.is_full_of_jobs() {
        return give_reply(draft, conn, b"-ERR too many jobs");
    }
    let uuid = begin_background(draft, given, text)?;
    give_begun(draft, conn, uuid)
}

// Replies which job has begun.
fn give_begun(draft: &mut Draft<'_>, conn: u32, uuid: Txt) -> Result<(), Memory>
    ensures { Brings result draft.old draft.new (spec.with_begun_told conn uuid (drafted draft.old)) }
{
    let frame = begun_frame(draft.alloc(), uuid)?;
    draft.give_now(conn, frame)
}

// The reply that a job of this identifier has begun.
fn begun_frame(alloc: Global, uuid: Txt) -> Result<Txt, Memory>
    ensures { IfOk result (λ frame. frame ≡ reply_of (job_begun uuid) ((codes "Job-UUID", uuid) ∷ [])) }
{
    let text = begun_text(alloc, &uuid)?;
    let name = Txt::of(alloc, b"Job-UUID")?;
    reply(alloc, text.as_bytes(), &[(name, uuid)])
}

// The text of it.
#[tactic(auto, unfolding(fs_cmd::specs::Frames::job_begun))]
fn begun_text(alloc: Global, uuid: &Txt) -> Result<Txt, Memory>
    ensures { IfOk result (λ text. text ≡ job_begun uuid.now) }
{
    let mut text = Vec::new(alloc);
    text.extend_from_slice(b"+OK Job-UUID: ")?;
    text.extend_from_slice(uuid.as_bytes())?;
    Txt::from_vec(text)
}

// Responds to an api command.
fn give_response(draft: &mut Draft<'_>, conn: u32, text: &[u8]) -> Result<(), Memory>
    ensures { Brings result draft.old draft.new (spec.with_response_of conn (Some text.now) (drafted draft.old)) }
{
    let frame = api_reply(draft.alloc(), text)?;
    draft.give_now(conn, frame)
}
