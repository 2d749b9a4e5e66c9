//! Where a channel is transferred to, and where words send one.
ghost use Rattle.std.specs.Prelude.{◌≡◌, IfOk, IfSome};
ghost use Rattle.fs_chan.specs.Changes.{IsShortTarget};
ghost use Rattle.fs_chan.specs.Targets as spec;

use fs_text::{Memory, Txt, cut_word, is_short};
use std::alloc::Global;

/// Where a channel is transferred to. A dialplan or context that is not named stays as it is.
pub struct Target3 {
    pub exten: Txt,
    pub dialplan: Option<Txt>,
    pub context: Option<Txt>,
}

impl Drop for Target3 {
    fn drop(self) {
        let Target3 {
            exten: _exten,
            dialplan: _dialplan,
            context: _context,
        } = self;
    }
}

impl Target3 {
    /// The same once more.
    pub fn copy(&self) -> Result<Target3, Memory>
        ensures { IfOk result (λ target. target ≡ self.now) }
    {
        Ok(Target3 {
            exten: self.exten.copy()?,
            dialplan: copy_named(&self.dialplan)?,
            context: copy_named(&self.context)?,
        })
    }

    /// Its extension, and its dialplan and context where they are named.
    pub fn into_texts(self) -> (Txt, Option<Txt>, Option<Txt>)
        ensures { result ≡ (self.exten, self.dialplan, self.context) }
    {
        let Target3 {
            exten,
            dialplan,
            context,
        } = self;
        (exten, dialplan, context)
    }
}

/// A text once more, where it is named.
fn copy_named(text: &Option<Txt>) -> Result<Option<Txt>, Memory>
    ensures { IfOk result (λ copy. copy ≡ text.now) }
{
    match text {
        Some(text) => Ok(Some(text.copy()?)),
        None => Ok(None),
    }
}

/// Where the first three words of a text send a channel, as the application `transfer` of FreeSWITCH has them: to an
/// extension, and, as far as these words are there, in a context of a dialplan. Nowhere without an extension, by one
/// that begins with `-`, and where a word has over 256 bytes. The text begins with no space.
#[tactic(auto, using(crate::proofs::TargetLemmas::words_short))]
pub fn target_in(alloc: Global, words: &[u8]) -> Result<Option<Target3>, Memory>
    ensures target { IfOk result (λ to. to ≡ spec.target_in words.now) }
    ensures short { IfOk result (λ to. IfSome to IsShortTarget) }
{
    if is_option(words) {
        return Ok(None);
    }
    any_target_in(alloc, words)
}

/// The same where the extension may begin with `-`, too, as behind an option of FreeSWITCH's `uuid_transfer`.
#[tactic(auto, using(crate::proofs::TargetLemmas::any_words_short))]
pub fn any_target_in(alloc: Global, words: &[u8]) -> Result<Option<Target3>, Memory>
    ensures target { IfOk result (λ to. to ≡ spec.any_target_in words.now) }
    ensures short { IfOk result (λ to. IfSome to IsShortTarget) }
{
    let (exten, behind) = cut_word(words);
    let (dialplan, behind) = cut_word(behind);
    let (context, _) = cut_word(behind);
    target_of(alloc, exten, dialplan, context)
}

// Where these words do.
fn target_of(
    alloc: Global,
    exten: &[u8],
    dialplan: &[u8],
    context: &[u8],
) -> Result<Option<Target3>, Memory>
    ensures { IfOk result (λ to. to ≡ spec.target_of exten.now dialplan.now context.now) }
{
    if !is_there(exten) || !is_short(exten) || !is_short(dialplan) || !is_short(context) {
        return Ok(None);
    }
    Ok(Some(Target3 {
        exten: Txt::of(alloc, exten)?,
        dialplan: word_named(alloc, dialplan)?,
        context: word_named(alloc, context)?,
    }))
}

// Whether a word is there.
fn is_there(word: &[u8]) -> bool
    ensures { result ≡ spec.is_there word.now }
{
    !matches!(word, [])
}

// Whether a text begins with `-`.
fn is_option(text: &[u8]) -> bool
    ensures { result ≡ spec.is_option text.now }
{
    matches!(text, [b'-', ..])
}

// A word, if there is one.
fn word_named(alloc: Global, word: &[u8]) -> Result<Option<Txt>, Memory>
    ensures { IfOk result (λ named. named ≡ spec.word_named word.now) }
{
    if word.is_empty() {
        return Ok(None);
    }
    Ok(Some(Txt::of(alloc, word)?))
}
