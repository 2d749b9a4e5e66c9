//! The commands of the event socket.

ghost use Rattle.std.specs.Prelude.{◌≡◌};
ghost use Rattle.std.specs.Option.{option_copied};
ghost use Rattle.fs_cmd.specs.Commands as spec;

use crate::message::{Message, job_of, message_of};
use fs_frame::Block;
use fs_text::{cut_at, cut_word, without_spaces};

/// The form in which events are told.
#[derive(Clone, Copy)]
pub enum Form {
    /// Lines of headers.
    Plain,
    /// An object of JSON.
    Json,
    /// An element of XML.
    Xml,
}

/// A command of the event socket, lent from its block.
#[derive(Clone, Copy)]
pub enum Command<'a> {
    /// A password is offered.
    Auth {
        password: &'a [u8],
    },
    /// The connection is to end.
    Exit,
    /// An api command is to run.
    Api {
        text: &'a [u8],
    },
    /// An api command is to run in the background, as a job that may have an identifier of the client's own.
    Bgapi {
        text: &'a [u8],
        job: Option<&'a [u8]>,
    },
    /// The connection is to be told, in this form, of the events that words name.
    Event {
        form: Form,
        names: &'a [u8],
    },
    /// It is no longer to be told of the events that words name.
    Nixevent {
        names: &'a [u8],
    },
    /// It is no longer to be told of any event.
    Noevents,
    /// Only events are to be told that have this header with this value, or that another filter lets through.
    Filter {
        header: &'a [u8],
        value: &'a [u8],
    },
    /// The filters of a header are to be taken out, or those alone that have this value.
    FilterDelete {
        header: &'a [u8],
        value: Option<&'a [u8]>,
    },
    /// A part of a filter is missing.
    BadFilter,
    /// A channel is sent a message: the one with this identifier, or the connection's own.
    Sendmsg {
        uuid: Option<&'a [u8]>,
        message: Message<'a>,
    },
    /// The greeting of an outbound connection is asked for.
    Connect,
    /// There is no such command.
    Unknown,
}

impl<'a> Command<'a> {
    ghost use Rattle.fs_frame.specs.Next.{bytes_of};
    ghost use Rattle.fs_cmd.specs.Commands.{command_of, read_of};

    /// The command that a block is. Its word stands before the first space of its line, and headers and the body have
    /// what `bgapi` and `sendmsg` ask beside it.
    #[tactic(auto, unfolding(crate::specs::Commands::command_of))]
    pub fn of(block: &Block<'a>) -> Command<'a>
        ensures { read_of result ≡ command_of (bytes_of block.now) }
    {
        let (word, text) = cut_at(b' ', block.line());
        if word == b"auth".as_slice() {
            Command::Auth { password: text }
        } else if word == b"exit".as_slice() {
            Command::Exit
        } else if word == b"api".as_slice() {
            Command::Api { text }
        } else if word == b"bgapi".as_slice() {
            Command::Bgapi {
                text,
                job: job_of(block),
            }
        } else if word == b"event".as_slice() {
            event_of(text)
        } else if word == b"nixevent".as_slice() {
            Command::Nixevent { names: text }
        } else if word == b"noevents".as_slice() {
            Command::Noevents
        } else if word == b"filter".as_slice() {
            filter_of(text)
        } else if word == b"sendmsg".as_slice() {
            Command::Sendmsg {
                uuid: channel_named(text),
                message: message_of(block),
            }
        } else if word == b"connect".as_slice() {
            Command::Connect
        } else {
            Command::Unknown
        }
    }
}

// What `event` asks: the first word may name a form, and names stand behind it.
fn event_of<'a>(text: &'a [u8]) -> Command<'a>
    ensures { spec.read_of result ≡ spec.event_of text.now }
{
    let (word, behind) = cut_at(b' ', without_spaces(text));
    match form_of(word) {
        Some(form) => Command::Event {
            form,
            names: behind,
        },
        None => Command::Event {
            form: Form::Plain,
            names: text,
        },
    }
}

// The form that a word names, if it names one.
#[tactic(auto, unfolding(crate::specs::Commands::form_of))]
fn form_of(word: &[u8]) -> Option<Form>
    ensures { result ≡ spec.form_of word.now }
{
    if word == b"plain".as_slice() {
        Some(Form::Plain)
    } else if word == b"json".as_slice() {
        Some(Form::Json)
    } else if word == b"xml".as_slice() {
        Some(Form::Xml)
    } else {
        None
    }
}

// What `filter` asks: a filter is to be added, or behind the word `delete` some are to be taken out.
#[tactic(auto, unfolding(crate::specs::Commands::filter_of))]
fn filter_of<'a>(text: &'a [u8]) -> Command<'a>
    ensures { spec.read_of result ≡ spec.filter_of text.now }
{
    let (word, behind) = cut_word(without_spaces(text));
    if word == b"delete".as_slice() {
        let (header, value) = cut_word(behind);
        delete_with(header, value)
    } else {
        filter_with(word, behind)
    }
}

// A filter needs both its parts.
fn filter_with<'a>(header: &'a [u8], value: &'a [u8]) -> Command<'a>
    ensures { spec.read_of result ≡ spec.filter_with header.now value.now }
{
    if header.is_empty() || value.is_empty() {
        Command::BadFilter
    } else {
        Command::Filter { header, value }
    }
}

// Filters are taken out by their header, and by their value where one is there.
fn delete_with<'a>(header: &'a [u8], value: &'a [u8]) -> Command<'a>
    ensures { spec.read_of result ≡ spec.delete_with header.now value.now }
{
    if header.is_empty() {
        Command::BadFilter
    } else {
        Command::FilterDelete {
            header,
            value: text_named(value),
        }
    }
}

// A channel is named by the first word.
fn channel_named<'a>(text: &'a [u8]) -> Option<&'a [u8]>
    ensures { option_copied result ≡ spec.channel_named text.now }
{
    let (word, _behind) = cut_at(b' ', without_spaces(text));
    text_named(word)
}

// A text that is there.
fn text_named<'a>(text: &'a [u8]) -> Option<&'a [u8]>
    ensures { option_copied result ≡ spec.text_named text.now }
{
    match text {
        [] => None,
        text => Some(text),
    }
}
