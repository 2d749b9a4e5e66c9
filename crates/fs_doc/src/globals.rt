//! The text of a value with its globals put in.

ghost use Rattle.std.specs.Prelude.{◌≡◌, ◌<◌, ◌≤◌, true, nat_eq, length, codes, IfOk, IfSome};
ghost use Rattle.std.specs.List.{starts_with};
ghost use Rattle.fs_doc.specs.GlobalLaws as laws;
ghost use Rattle.fs_doc.specs.Values as values;
ghost use Rattle.fs_doc.specs.Values.{replaced};

use fs_text::{Memory, offset_of, split_at_byte};
use fs_vars::Vars;
use std::alloc::Global;

/// The text with each `$${name}` replaced by the global of that name, or by nothing. What comes of it is not read
/// again, and one without its `}` stands as it is.
pub(crate) fn replace(alloc: Global, globals: &Vars, text: &[u8]) -> Result<Vec<u8>, Memory>
    ensures { IfOk result (λ out. out.items ≡ replaced globals.now.pairs text.now) }
{
    let mut out = Vec::new(alloc);
    let mut left = text;
    'steps: loop {
        match step(globals, &mut out, left)? {
            Some(rest) => left = rest,
            None => return Ok(out),
        }
    }
}

/// Law: what a text with its globals says, case by case.
pub fn globals_law()
    ensures nothing { laws.NothingGivesNothing }
    ensures other { laws.OtherByteStays }
    ensures reference { laws.ReferenceGivesItsValue }
    ensures unclosed { laws.UnclosedStays }
    ensures plain { laws.PlainTextStays }
{}

/// Adds the bytes up to the first `$`, and what that stands for. Answers the rest of the text, if there is one.
fn step<'a>(globals: &Vars, out: &mut Vec<u8>, text: &'a [u8]) -> Result<Option<&'a [u8]>, Memory>
    ensures whole { IfOk result (values.Replaces globals.now.pairs out.old.items text.now out.new.items) }
    ensures within { IfOk result (λ rest. IfSome rest (λ r. length r.now < length text.now)) }
{
    let (front, dollar) = text.split_at(plain_len(text));
    out.extend_from_slice(front)?;
    add_dollar(globals, out, dollar)
}

/// How many bytes stand before the first `$`.
fn plain_len(text: &[u8]) -> usize
    ensures offset { result ≡ values.plain_len text.now }
    ensures within { result ≤ length text.now }
{
    offset_of(b'$', text)
}

/// Adds what the `$` in front stands for, if there is one.
fn add_dollar<'a>(
    globals: &Vars,
    out: &mut Vec<u8>,
    text: &'a [u8],
) -> Result<Option<&'a [u8]>, Memory>
    ensures whole { IfOk result (values.Replaces globals.now.pairs out.old.items text.now out.new.items) }
    ensures within { IfOk result (λ rest. IfSome rest (λ r. length r.now < length text.now)) }
{
    let [b, rest @ ..] = text else {
        return Ok(None);
    };
    if text.starts_with(b"$${") {
        return add_reference(globals, out, text);
    }
    out.push(*b)?;
    Ok(Some(rest))
}

/// Adds what the reference in front stands for.
fn add_reference<'a>(
    globals: &Vars,
    out: &mut Vec<u8>,
    text: &'a [u8],
) -> Result<Option<&'a [u8]>, Memory>
    requires start { starts_with nat_eq text.now (codes "$${") ≡ true }
    requires long { 3 ≤ length text.now }
    ensures whole { IfOk result (values.Replaces globals.now.pairs out.old.items text.now out.new.items) }
    ensures within { IfOk result (λ rest. IfSome rest (λ r. length r.now < length text.now)) }
{
    match split_at_byte(b'}', &text[3..]) {
        None => {
            out.extend_from_slice(text)?;
            Ok(None)
        }
        Some((name, rest)) => {
            if let Some(value) = globals.get(name) {
                out.extend_from_slice(value.as_bytes())?;
            }
            Ok(Some(rest))
        }
    }
}
