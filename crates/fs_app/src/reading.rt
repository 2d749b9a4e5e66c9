//! How the argument of an application is read.

ghost use Rattle.std.specs.Prelude.{◌≡◌, IfOk};
ghost use Rattle.fs_app.specs.Applications as spec;
ghost use Rattle.fs_chan.specs.Targets.{target_in};

use crate::application::Application;
use fs_chan::{Assignment, target_in};
use fs_text::{Cause, Memory, Txt, cut_word, read_u64, without_spaces};
use memchr::memrchr;
use std::alloc::Global;

/// The most milliseconds that `sleep` takes: an hour.
const LONGEST_SLEEP: u64 = 3_600_000;

impl Application {
    /// What the application of a name is asked to do by its argument.
    ///
    /// Names are compared byte for byte. Where an argument is words, they are separated by runs of spaces, and spaces
    /// in front are skipped; words that are not needed are ignored.
    #[tactic(auto, unfolding(crate::specs::Applications::application_of))]
    pub fn of(alloc: Global, name: &[u8], argument: &[u8]) -> Result<Application, Memory>
        ensures application { IfOk result (λ application. application ≡ spec.application_of name.now argument.now) }
        ensures short { IfOk result spec.IsShortApplication }
    {
        if let Some(how) = Assignment::named(name) {
            let argument = Txt::of(alloc, argument)?;
            Ok(Application::Assign { how, argument })
        } else if name == b"answer".as_slice() {
            Ok(Application::Answer)
        } else if name == b"log".as_slice() || name == b"eval".as_slice() {
            Ok(Application::Eval)
        } else if name == b"sleep".as_slice() {
            Ok(sleep_application(argument))
        } else if name == b"hangup".as_slice() {
            Ok(hangup_application(argument))
        } else if name == b"bridge".as_slice() {
            let dial = Txt::of(alloc, argument)?;
            Ok(Application::Bridge { dial })
        } else if name == b"park".as_slice() {
            Ok(Application::Park)
        } else if name == b"transfer".as_slice() {
            transfer_application(alloc, without_spaces(argument))
        } else if name == b"fifo".as_slice() {
            fifo_application(alloc, without_spaces(argument))
        } else if name == b"socket".as_slice() {
            let target = Txt::of(alloc, argument)?;
            Ok(Application::Socket { target })
        } else {
            Ok(Application::Unknown)
        }
    }
}

fn sleep_application(argument: &[u8]) -> Application
    ensures { result ≡ spec.sleep_application argument.now }
{
    let milliseconds = match read_u64(argument) {
        Some(milliseconds) if milliseconds <= LONGEST_SLEEP => milliseconds,
        _ => 0,
    };
    Application::Sleep { milliseconds }
}

fn hangup_application(argument: &[u8]) -> Application
    ensures { result ≡ spec.hangup_application argument.now }
{
    let (name, _) = cut_word(without_spaces(argument));
    let cause = Cause::of_name_or_clearing(name);
    Application::Hangup { cause }
}

// A transfer to where words send a channel, if they send it anywhere.
fn transfer_application(alloc: Global, words: &[u8]) -> Result<Application, Memory>
    ensures application { IfOk result (λ application. application ≡ spec.transfer_to (target_in words.now)) }
    ensures short { IfOk result spec.IsShortApplication }
{
    match target_in(alloc, words)? {
        Some(to) => Ok(Application::Transfer { to }),
        None => Ok(Application::Unknown),
    }
}

// What is done in the queue that the first word names: the second says what, the third whether a taker waits.
fn fifo_application(alloc: Global, words: &[u8]) -> Result<Application, Memory>
    ensures application { IfOk result (λ application. application ≡ spec.fifo_in words.now) }
    ensures short { IfOk result spec.IsShortApplication }
{
    let (word, behind) = cut_word(words);
    let (what, more) = cut_word(behind);
    let (third, _) = cut_word(more);
    let name = queue_name(word);
    if name.is_empty() {
        return Ok(Application::Unknown);
    }
    if what == b"in".as_slice() {
        let name = Txt::of(alloc, name)?;
        Ok(Application::FifoIn { name })
    } else if what == b"out".as_slice() {
        let name = Txt::of(alloc, name)?;
        let waits = third != b"nowait".as_slice();
        Ok(Application::FifoOut { name, waits })
    } else {
        Ok(Application::Unknown)
    }
}

// The name of a queue, which a word gives with its importance behind a `!`.
fn queue_name(word: &[u8]) -> &[u8]
    ensures { result.now ≡ spec.queue_name word.now }
{
    match memrchr(b'!', word) {
        Some(last) => &word[..last],
        None => word,
    }
}
