//! The bytes that markup is made of.

ghost use Rattle.std.specs.Prelude.{◌≡◌, ◌≤◌, length};
ghost use Rattle.fs_xml.specs.Bytes as bytes;

/// A space, tab, CR or LF.
#[tactic(auto, unfolding(crate::specs::Bytes::is_blank))]
pub(crate) fn is_blank(b: u8) -> bool
    ensures { result ≡ bytes.is_blank b }
{
    b == b' ' || b == b'\t' || b == b'\r' || b == b'\n'
}

#[tactic(auto, unfolding(crate::specs::Bytes::is_quote))]
pub(crate) fn is_quote(b: u8) -> bool
    ensures { result ≡ bytes.is_quote b }
{
    b == b'"' || b == b'\''
}

#[tactic(auto, unfolding(crate::specs::Bytes::is_mark))]
fn is_mark(b: u8) -> bool
    ensures { result ≡ bytes.is_mark b }
{
    b == b'<' || b == b'>' || b == b'/' || b == b'='
}

#[tactic(auto, unfolding(crate::specs::Bytes::is_name_byte))]
fn is_name_byte(b: u8) -> bool
    ensures { result ≡ bytes.is_name_byte b }
{
    !(is_blank(b) || is_quote(b) || is_mark(b))
}

/// Whether a name can begin with the byte.
#[tactic(auto, unfolding(crate::specs::Bytes::begins_name))]
pub(crate) fn begins_name(b: u8) -> bool
    ensures { result ≡ bytes.begins_name b }
{
    is_name_byte(b) && !(b == b'!' || b == b'?')
}

/// What follows the blanks in front: spaces, tabs, CR and LF.
pub fn past_blanks(text: &[u8]) -> &[u8]
    ensures rest { result.now ≡ bytes.past bytes.is_blank text.now }
    ensures within { length result.now ≤ length text.now }
{
    let mut left = text;
    while let [b, rest @ ..] = left {
        if !is_blank(*b) {
            return left;
        }
        left = rest;
    }
    left
}

/// What follows the name in front.
fn past_name(text: &[u8]) -> &[u8]
    ensures rest { result.now ≡ bytes.past bytes.is_name_byte text.now }
    ensures within { length result.now ≤ length text.now }
{
    let mut left = text;
    while let [b, rest @ ..] = left {
        if !is_name_byte(*b) {
            return left;
        }
        left = rest;
    }
    left
}

/// The name in front, and what follows it.
pub(crate) fn split_name(text: &[u8]) -> (&[u8], &[u8])
    ensures name { result.0.now ≡ bytes.name_of text.now }
    ensures rest { result.1.now ≡ bytes.past bytes.is_name_byte text.now }
    ensures within { length result.1.now ≤ length text.now }
{
    text.split_at(text.len() - past_name(text).len())
}
