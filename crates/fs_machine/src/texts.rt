//! The replies of api commands.

ghost use Rattle.std.specs.Prelude.{◌≡◌, Some, IfOk};
ghost use Rattle.fs_machine.specs.Texts as texts;

use fs_text::{Cause, Memory, Txt};
use std::alloc::Global;

/// The reply of these bytes.
pub(crate) fn says(alloc: Global, reply: &[u8]) -> Result<Option<Txt>, Memory>
    ensures { IfOk result (λ said. said ≡ Some reply.now) }
{
    Ok(Some(Txt::of(alloc, reply)?))
}

/// How a command is to be written that misses a word.
#[tactic(auto, unfolding(crate::specs::Texts::usage_text))]
pub(crate) fn usage_text(alloc: Global, form: &[u8]) -> Result<Txt, Memory>
    ensures { IfOk result (λ t. t ≡ texts.usage_text form.now) }
{
    let mut text = Vec::new(alloc);
    text.extend_from_slice(b"-USAGE: ")?;
    text.extend_from_slice(form)?;
    text.extend_from_slice(b"\n")?;
    Txt::from_vec(text)
}

/// What an api command of an unknown name replies.
#[tactic(auto, unfolding(crate::specs::Texts::api_not_found))]
pub(crate) fn api_not_found(alloc: Global, name: &[u8]) -> Result<Txt, Memory>
    ensures { IfOk result (λ t. t ≡ texts.api_not_found name.now) }
{
    let mut text = Vec::new(alloc);
    text.extend_from_slice(b"-ERR ")?;
    text.extend_from_slice(name)?;
    text.extend_from_slice(b" Command not found!\n")?;
    Txt::from_vec(text)
}

/// The reply where all channels were hung up of a cause.
#[tactic(auto, unfolding(crate::specs::Texts::hupall_text))]
pub(crate) fn hupall_text(alloc: Global, cause: Cause) -> Result<Txt, Memory>
    ensures { IfOk result (λ t. t ≡ texts.hupall_text cause) }
{
    let mut text = Vec::new(alloc);
    text.extend_from_slice(b"+OK hangup all channels with cause ")?;
    text.extend_from_slice(cause.name().as_bytes())?;
    text.extend_from_slice(b"\n")?;
    Txt::from_vec(text)
}

/// The reply of an origination that has made a call: the identifier of its leg.
#[tactic(auto, unfolding(crate::specs::Texts::made_text))]
pub(crate) fn made_text(alloc: Global, uuid: &[u8]) -> Result<Txt, Memory>
    ensures { IfOk result (λ t. t ≡ texts.made_text uuid.now) }
{
    let mut text = Vec::new(alloc);
    text.extend_from_slice(b"+OK ")?;
    text.extend_from_slice(uuid)?;
    text.extend_from_slice(b"\n")?;
    Txt::from_vec(text)
}

/// The reply of an origination that has failed.
#[tactic(auto, unfolding(crate::specs::Texts::failed_text))]
pub(crate) fn failed_text(alloc: Global, cause: Cause) -> Result<Txt, Memory>
    ensures { IfOk result (λ t. t ≡ texts.failed_text cause) }
{
    let mut text = Vec::new(alloc);
    text.extend_from_slice(b"-ERR ")?;
    text.extend_from_slice(cause.name().as_bytes())?;
    text.extend_from_slice(b"\n")?;
    Txt::from_vec(text)
}
