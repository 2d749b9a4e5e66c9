//! How the arguments of `originate` are read.

ghost use Rattle.std.specs.Prelude.{◌≡◌, ◌==◌, IfOk};
ghost use Rattle.fs_api.specs.Originates as spec;
ghost use Rattle.fs_api.specs.Words as words;

use crate::api::Api;
use crate::usages::Which;
use crate::words::{cut_quoted, unquoted};
use fs_orig::{Route, Winner, seconds_of};
use fs_text::{Memory, Txt, cut_at, is_short};
use std::alloc::Global;

/// What the arguments of `originate` are.
///
/// Their words are separated by spaces outside single quotes; a word that is in quotes as a whole loses them, but for
/// the url.
pub(crate) fn originate_of(alloc: Global, arguments: &[u8]) -> Result<Api, Memory>
    ensures { IfOk result (λ api. api ≡ spec.originate_of arguments.now) }
{
    if arguments.is_empty() {
        return Ok(Api::Usage(Which::Originate));
    }
    let (url, behind) = cut_quoted(arguments);
    originate_to(alloc, url, behind)
}

// What the words behind the url are.
fn originate_to(alloc: Global, url: &[u8], arguments: &[u8]) -> Result<Api, Memory>
    ensures { IfOk result (λ api. api ≡ spec.originate_to url.now arguments.now) }
{
    if arguments.is_empty() {
        return Ok(Api::Usage(Which::Originate));
    }
    originate_words(alloc, url, arguments)
}

// What they are where there are some.
fn originate_words(alloc: Global, url: &[u8], arguments: &[u8]) -> Result<Api, Memory>
    ensures { IfOk result (λ api. api ≡ spec.originate_behind url.now arguments.now) }
{
    let (exten, behind) = cut_plain(arguments);
    let (dialplan, behind) = cut_word_or(b"XML", behind);
    let (context, behind) = cut_word_or(b"default", behind);
    let winner = winner(alloc, exten, dialplan, context)?;
    originated(alloc, url, winner, behind)
}

// With the words behind the context, where there is something for the winner to do.
fn originated(
    alloc: Global,
    url: &[u8],
    winner: Option<Winner>,
    behind: &[u8],
) -> Result<Api, Memory>
    ensures { IfOk result (λ api. api ≡ spec.originate_with url.now winner behind.now) }
{
    let Some(winner) = winner else {
        return Ok(Api::Usage(Which::Originate));
    };
    let (cid_name, behind) = cut_plain(behind);
    let (cid_number, behind) = cut_plain(behind);
    let (timeout, _) = cut_plain(behind);
    Ok(Api::Originate {
        url: Txt::of(alloc, url)?,
        winner,
        cid_name: Txt::of(alloc, cid_name)?,
        cid_number: Txt::of(alloc, cid_number)?,
        timeout: seconds_of(timeout),
    })
}

// The first word without the quotes round it, and what stands behind it.
fn cut_plain(text: &[u8]) -> (&[u8], &[u8])
    ensures word { result.0.now ≡ spec.plain_word text.now }
    ensures behind { result.1.now ≡ words.behind_quoted text.now }
{
    let (word, behind) = cut_quoted(text);
    (unquoted(word), behind)
}

// The first word so, or another one where the text is empty, and what stands behind it.
fn cut_word_or<'a>(otherwise: &'a [u8], text: &'a [u8]) -> (&'a [u8], &'a [u8])
    ensures word { result.0.now ≡ spec.word_or otherwise.entry.now text.entry.now }
    ensures behind { result.1.now ≡ words.behind_quoted text.entry.now }
{
    let (word, behind) = cut_plain(text);
    if text.is_empty() {
        (otherwise, behind)
    } else {
        (word, behind)
    }
}

// What the winner does, unless one of these is too long.
fn winner(
    alloc: Global,
    exten: &[u8],
    dialplan: &[u8],
    context: &[u8],
) -> Result<Option<Winner>, Memory>
    ensures { IfOk result (λ winner. winner ≡ spec.winner_of exten.now dialplan.now context.now) }
{
    if !is_short(dialplan) || !is_short(context) {
        return Ok(None);
    }
    match exten {
        [b'&', text @ ..] => Ok(Some(application(alloc, text)?)),
        exten if !is_short(exten) => Ok(None),
        exten => Ok(Some(Winner::Route(Route::new(
            Txt::of(alloc, exten)?,
            Txt::of(alloc, dialplan)?,
            Txt::of(alloc, context)?,
        )))),
    }
}

// The application that `app(args)` names, with its argument.
fn application(alloc: Global, text: &[u8]) -> Result<Winner, Memory>
    ensures { IfOk result (λ winner. winner ≡ spec.application text.now) }
{
    let (application, behind) = cut_at(b'(', text);
    Ok(Winner::App {
        application: Txt::of(alloc, application)?,
        argument: Txt::of(alloc, up_to_close(behind))?,
    })
}

// The text up to its last `)`, or the whole of it.
fn up_to_close(text: &[u8]) -> &[u8]
    ensures { result.now ≡ spec.up_to_close text.now }
{
    let mut left = text;
    while let [front @ .., last] = left {
        if *last == b')' {
            return front;
        }
        left = front;
    }
    text
}
