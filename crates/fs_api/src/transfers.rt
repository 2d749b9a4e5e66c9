//! How the arguments of `uuid_transfer` are read.

ghost use Rattle.std.specs.Prelude.{◌≡◌, IfOk, IfSome};
ghost use Rattle.fs_text.specs.Words.{word_of, behind_word};
ghost use Rattle.fs_chan.specs.Changes.{IsShortTarget};
ghost use Rattle.fs_api.specs.Transfers as spec;

use crate::api::Api;
use crate::side::Side;
use crate::usages::Which;
use fs_chan::{Target3, any_target_in, target_in};
use fs_text::{Memory, Txt, cut_word};
use std::alloc::Global;

/// What the arguments of `uuid_transfer` are: behind the identifier stand the words of the application `transfer`, or
/// `-both` or `-bleg` and then these words, of which the first is then any extension.
pub(crate) fn uuid_transfer_of(alloc: Global, arguments: &[u8]) -> Result<Api, Memory>
    ensures { IfOk result (λ api. api ≡ spec.uuid_transfer_of arguments.now) }
{
    let (uuid, words) = cut_word(arguments);
    let (word, behind) = cut_word(words);
    let side = side_of(word);
    match sent_to(alloc, side, words, behind)? {
        Some(to) => {
            let uuid = Txt::of(alloc, uuid)?;
            Ok(Api::UuidTransfer { uuid, side, to })
        }
        None => Ok(Api::Usage(Which::UuidTransfer)),
    }
}

// Which legs a word names; where it names none, the channel alone is meant.
fn side_of(word: &[u8]) -> Side
    ensures { result ≡ spec.side_of word.now }
{
    if word == b"-both".as_slice() {
        Side::Both
    } else if word == b"-bleg".as_slice() {
        Side::Other
    } else {
        Side::This
    }
}

// Where words send these legs, or, behind the word that names them, the words behind it.
fn sent_to(
    alloc: Global,
    side: Side,
    words: &[u8],
    behind: &[u8],
) -> Result<Option<Target3>, Memory>
    requires { behind.now ≡ behind_word words.now }
    ensures target { IfOk result (λ to. to ≡ spec.sent_to side words.now) }
    ensures short { IfOk result (λ to. IfSome to IsShortTarget) }
{
    match side {
        Side::This => target_in(alloc, words),
        Side::Both | Side::Other => any_target_in(alloc, behind),
    }
}
