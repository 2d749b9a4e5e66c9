//! How the values of headers are escaped.

ghost use Rattle.std.specs.Prelude.{◌≡◌, ◌<◌, ◌++◌, ℕ, List, IfOk, OnOk, All};
ghost use Rattle.std.specs.List.{list_any};
ghost use Rattle.percent_encoding.specs.Percent.{percent_decode};
ghost use Rattle.fs_text.specs.Escape.{escape, is_escaped, IsClean};

use crate::memory::Memory;
use crate::text::Txt;
use percent_encoding::{AsciiSet, CONTROLS, ascii_set, percent_encode};
use std::alloc::Global;

/// What is escaped beside the bytes above 0x7E: controls and these marks.
const MARKS: AsciiSet = ascii_set!(
    CONTROLS
        .add(b' ')
        .add(b'"')
        .add(b'#')
        .add(b'%')
        .add(b'&')
        .add(b'+')
        .add(b':')
        .add(b';')
        .add(b'<')
        .add(b'=')
        .add(b'>')
        .add(b'?')
        .add(b'@')
        .add(b'[')
        .add(b'\\')
        .add(b']')
        .add(b'^')
        .add(b'`')
        .add(b'{')
        .add(b'|')
        .add(b'}')
);

// A byte that is escaped, in the table below.
const E: bool = true;

// A byte that is kept.
const K: bool = false;

// Whether each byte is escaped.
#[rattlefmt::skip]
static ESCAPED: [bool; 256] = [
    E, E, E, E, E, E, E, E, E, E, E, E, E, E, E, E,
    E, E, E, E, E, E, E, E, E, E, E, E, E, E, E, E,
    E, K, E, E, K, E, E, K, K, K, K, E, K, K, K, K,
    K, K, K, K, K, K, K, K, K, K, E, E, E, E, E, E,
    E, K, K, K, K, K, K, K, K, K, K, K, K, K, K, K,
    K, K, K, K, K, K, K, K, K, K, K, E, E, E, E, K,
    E, K, K, K, K, K, K, K, K, K, K, K, K, K, K, K,
    K, K, K, K, K, K, K, K, K, K, K, E, E, E, K, E,
    E, E, E, E, E, E, E, E, E, E, E, E, E, E, E, E,
    E, E, E, E, E, E, E, E, E, E, E, E, E, E, E, E,
    E, E, E, E, E, E, E, E, E, E, E, E, E, E, E, E,
    E, E, E, E, E, E, E, E, E, E, E, E, E, E, E, E,
    E, E, E, E, E, E, E, E, E, E, E, E, E, E, E, E,
    E, E, E, E, E, E, E, E, E, E, E, E, E, E, E, E,
    E, E, E, E, E, E, E, E, E, E, E, E, E, E, E, E,
    E, E, E, E, E, E, E, E, E, E, E, E, E, E, E, E,
];

/// The text with some bytes as `%` and two upper-case hexadecimal digits, as the value of a header
/// is written.
///
/// Escaped are bytes below 0x20 and above 0x7E, the space, and ``"#%&+:;<=>?@[\]^`{|}``.
pub fn escape(alloc: Global, bytes: &[u8]) -> Result<Txt, Memory>
    ensures escaped { IfOk result (λ t. t ≡ escape bytes.now) }
    ensures clean { IfOk result (All IsClean) }
{
    let mut escaped = Vec::with_capacity(alloc, bytes.len())?;
    push_escaped(&mut escaped, bytes)?;
    Txt::from_vec(escaped)
}

// Whether the byte is escaped.
#[inline(always)]
fn is_escaped(byte: u8) -> bool
    ensures { result ≡ is_escaped byte }
{
    ESCAPED[usize::from(byte)]
}

// Whether some byte is escaped. The loop has no way out before its end, and so costs few instructions a byte.
#[tactic(auto, using(std::proofs::lemmas::List::Folds::list_any_more))]
fn has_escaped(bytes: &[u8]) -> bool
    ensures { result ≡ list_any is_escaped bytes.now }
{
    let mut any = false;
    for byte in bytes {
        any |= is_escaped(*byte);
    }
    any
}

/// Adds the escapes of some bytes to a text.
///
/// Most values have no byte that is escaped, and are added whole.
pub fn push_escaped(text: &mut Vec<u8>, bytes: &[u8]) -> Result<(), Memory>
    ensures { OnOk result (text.new.items ≡ text.old.items ++ escape bytes.now) }
{
    if !bytes.is_empty() && !has_escaped(bytes) {
        text.extend_from_slice(bytes)?;
        return Ok(());
    }
    for piece in percent_encode(bytes, MARKS) {
        text.extend_from_slice(piece.as_bytes())?;
    }
    Ok(())
}

/// Law: percent-decoding gives an escaped text back.
pub fn escape_law()
    ensures { (text : List ℕ) → All (λ b. b < 256) text → percent_decode (escape text) ≡ text }
{}
