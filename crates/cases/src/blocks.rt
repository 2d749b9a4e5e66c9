//! Commands, as their blocks are read.

use case_desk::Answer;
use fs_cmd::{Command, Form, Message};
use fs_frame::Block;

/// Answers `block TEXT` with the command that the block is, and its parts.
pub(crate) fn tell_block(text: &str, answer: &mut Answer) {
    let bytes = answer.bytes_of(text);
    tell_command(Command::of(&Block::of(&bytes)), answer);
}

fn tell_command(command: Command<'_>, answer: &mut Answer) {
    match command {
        Command::Auth { password } => answer.named("Auth", password),
        Command::Exit => answer.line("Exit"),
        Command::Api { text } => answer.named("Api", text),
        Command::Bgapi { text, job } => tell_two("Bgapi", text, job, answer),
        Command::Event { form, names } => answer.named(event_name(form), names),
        Command::Nixevent { names } => answer.named("Nixevent", names),
        Command::Noevents => answer.line("Noevents"),
        Command::Filter { header, value } => answer.named_two("Filter", header, value),
        Command::FilterDelete { header, value } => tell_two("FilterDelete", header, value, answer),
        Command::BadFilter => answer.line("BadFilter"),
        Command::Sendmsg { uuid, message } => {
            tell_sendmsg(uuid, answer);
            tell_message(message, answer);
        }
        Command::Connect => answer.line("Connect"),
        Command::Unknown => answer.line("Unknown"),
    }
}

// Adds a command with its text, and with another one where it is there.
fn tell_two(name: &str, text: &[u8], other: Option<&[u8]>, answer: &mut Answer) {
    match other {
        Some(other) => answer.named_two(name, text, other),
        None => answer.named(name, text),
    }
}

fn tell_sendmsg(uuid: Option<&[u8]>, answer: &mut Answer) {
    match uuid {
        Some(uuid) => answer.named("Sendmsg", uuid),
        None => answer.line("Sendmsg"),
    }
}

// Adds what a channel is sent.
fn tell_message(message: Message<'_>, answer: &mut Answer) {
    match message {
        Message::Execute {
            application,
            argument,
        } => answer.named_two("Execute", application, argument),
        Message::Hangup { cause } => answer.named("Hangup", cause.name().as_bytes()),
        Message::BadCall => answer.line("BadCall"),
    }
}

fn event_name(form: Form) -> &'static str {
    match form {
        Form::Plain => "Event plain",
        Form::Json => "Event json",
        Form::Xml => "Event xml",
    }
}
