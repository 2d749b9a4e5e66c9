//! What a value says, once its entities are decoded.

ghost use Rattle.std.specs.Prelude.{◌≡◌, ◌<◌, ◌≤◌, ℕ, length, IfOk, IfSome};
ghost use Rattle.std.specs.List.{position_or_len};
ghost use Rattle.std.specs.Global.{Vec};
ghost use Rattle.fs_xml.specs.Answers.{ValueGives};
ghost use Rattle.fs_xml.specs.Entities as entities;

use crate::entity::entity;
use crate::stop::{ValueFault, ValueStop};
use fs_text::split_at_byte;
use memchr::memchr2;
use std::alloc::Global;

/// The text that a value says, which ends at an offset of its document.
///
/// `&lt;`, `&gt;`, `&amp;`, `&quot;`, `&apos;`, `&#N;` and `&#xH;` stand for their characters, of which a number may
/// name any Unicode scalar value but 0. A `<` is a fault unless `raw` says that it stands for itself.
#[tactic(auto, unfolding(crate::specs::Entities::value_text))]
pub fn decode(alloc: Global, raw: bool, end: usize, value: &[u8]) -> Result<Vec<u8>, ValueStop>
    ensures { ValueGives (λ (text : Vec ℕ). text.items) result (entities.value_text raw end value.now) }
{
    let mut text = Vec::new(alloc);
    let mut left = value;
    'steps: loop {
        match step(&mut text, raw, end, left)? {
            Some(rest) => left = rest,
            None => return Ok(text),
        }
    }
}

/// Adds the bytes up to the first `&` or `<`, and what that stands for. Answers the rest of the value, if there is one.
#[tactic(auto, unfolding(crate::specs::Entities::value_step))]
fn step<'a>(
    text: &mut Vec<u8>,
    raw: bool,
    end: usize,
    value: &'a [u8],
) -> Result<Option<&'a [u8]>, ValueStop>
    ensures read { entities.StepGives text.new.items result (entities.value_step raw end text.old.items value.now) }
    ensures within { IfOk result (λ rest. IfSome rest (λ r. length r.now < length value.now)) }
{
    let (front, special) = value.split_at(plain_len(value));
    text.extend_from_slice(front)?;
    add_special(text, raw, end, special)
}

/// How many bytes stand before the first `&` or `<`.
fn plain_len(value: &[u8]) -> usize
    ensures offset { result ≡ position_or_len entities.is_special value.now }
    ensures within { result ≤ length value.now }
{
    memchr2(b'&', b'<', value).unwrap_or(value.len())
}

/// Adds what the `&` or `<` in front stands for, if there is one.
#[tactic(auto, unfolding(crate::specs::Entities::special_at))]
fn add_special<'a>(
    text: &mut Vec<u8>,
    raw: bool,
    end: usize,
    value: &'a [u8],
) -> Result<Option<&'a [u8]>, ValueStop>
    ensures read { entities.StepGives text.new.items result (entities.special_at raw end text.old.items value.now) }
    ensures within { IfOk result (λ rest. IfSome rest (λ r. length r.now < length value.now)) }
{
    match value {
        [] => Ok(None),
        [b'&', rest @ ..] => add_entity(text, end.saturating_sub(value.len()), rest),
        [b, rest @ ..] => {
            if !raw {
                return Err(ValueStop::Fault(ValueFault::Raw));
            }
            text.push(*b)?;
            Ok(Some(rest))
        }
    }
}

/// Adds the character of an entity, from behind its `&`.
#[tactic(auto, unfolding(crate::specs::Entities::entity_at))]
fn add_entity<'a>(
    text: &mut Vec<u8>,
    at: usize,
    value: &'a [u8],
) -> Result<Option<&'a [u8]>, ValueStop>
    ensures read { entities.StepGives text.new.items result (entities.entity_at text.old.items at value.now) }
    ensures within { IfOk result (λ rest. IfSome rest (λ r. length r.now ≤ length value.now)) }
{
    let Some((name, rest)) = split_at_byte(b';', value) else {
        return Err(ValueStop::Fault(ValueFault::BadEntity { at }));
    };
    match entity(name) {
        Some(c) => {
            let mut buffer = [0u8; 4];
            text.extend_from_slice(c.encode_utf8(&mut buffer).as_bytes())?;
            Ok(Some(rest))
        }
        None => Err(ValueStop::Fault(ValueFault::BadEntity { at })),
    }
}
