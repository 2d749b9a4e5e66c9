//! What the headers and the body of a command's block ask.

ghost use Rattle.std.specs.Prelude.{◌≡◌};
ghost use Rattle.std.specs.Char.{is_ascii_graphic};
ghost use Rattle.std.specs.List.{list_all};
ghost use Rattle.std.specs.Option.{option_copied};
ghost use Rattle.fs_frame.specs.Next.{bytes_of};
ghost use Rattle.fs_cmd.specs.Commands as spec;

use fs_frame::Block;
use fs_text::Cause;

// The bytes that the identifier of a job may have.
const LONGEST_NAME: usize = 64;

/// A message to a channel, lent from its block.
#[derive(Clone, Copy)]
pub enum Message<'a> {
    /// An application is to run.
    Execute {
        application: &'a [u8],
        argument: &'a [u8],
    },
    /// The channel is to be hung up.
    Hangup {
        cause: Cause,
    },
    /// Its call is none of these, or is not named.
    BadCall,
}

/// The message of a block. What a header that is missing would name is empty.
#[tactic(auto, unfolding(crate::specs::Commands::message_of))]
pub(crate) fn message_of<'a>(block: &Block<'a>) -> Message<'a>
    ensures { spec.message_read result ≡ spec.message_of (bytes_of block.now) }
{
    let call = said_by(b"call-command", block);
    if call == b"execute".as_slice() {
        Message::Execute {
            application: said_by(b"execute-app-name", block),
            argument: argument_of(block),
        }
    } else if call == b"hangup".as_slice() {
        Message::Hangup {
            cause: cause_in(block),
        }
    } else {
        Message::BadCall
    }
}

// The argument of an application: a header has it, or the body where there is none.
#[tactic(auto, unfolding(crate::specs::Commands::argument_of))]
fn argument_of<'a>(block: &Block<'a>) -> &'a [u8]
    ensures { result.now ≡ spec.argument_of (bytes_of block.now) }
{
    match block.header(b"execute-app-arg") {
        Some(argument) => argument,
        None => block.body(),
    }
}

// The cause that a block asks for: a normal clearing where it names none.
#[tactic(auto, unfolding(crate::specs::Commands::cause_in))]
fn cause_in(block: &Block<'_>) -> Cause
    ensures { result ≡ spec.cause_in (bytes_of block.now) }
{
    Cause::of_name_or_clearing(said_by(b"hangup-cause", block))
}

// What a block says by this header, or nothing.
#[tactic(auto, unfolding(crate::specs::Commands::said_by))]
fn said_by<'a>(name: &[u8], block: &Block<'a>) -> &'a [u8]
    ensures { result.now ≡ spec.said_by name.now (bytes_of block.now) }
{
    block.header(name).unwrap_or(&[])
}

/// The identifier that a client gave its job, where it has the form of one.
#[tactic(auto, unfolding(crate::specs::Commands::job_of))]
pub(crate) fn job_of<'a>(block: &Block<'a>) -> Option<&'a [u8]>
    ensures { option_copied result ≡ spec.job_of (bytes_of block.now) }
{
    match block.header(b"Job-UUID") {
        Some(text) => name_in_form(text),
        None => None,
    }
}

// A text that has the form of an identifier.
fn name_in_form<'a>(text: &'a [u8]) -> Option<&'a [u8]>
    ensures { option_copied result ≡ spec.name_in_form text.now }
{
    if is_name(text) { Some(text) } else { None }
}

// Whether a text is 1 to 64 bytes from `!` to `~`.
fn is_name(text: &[u8]) -> bool
    ensures { result ≡ spec.is_name text.now }
{
    !text.is_empty() && text.len() <= LONGEST_NAME && are_graphic(text)
}

// Whether each byte is one from `!` to `~`.
fn are_graphic(text: &[u8]) -> bool
    ensures { result ≡ list_all is_ascii_graphic text.now }
{
    text.iter().all(|byte| byte.is_ascii_graphic())
}
