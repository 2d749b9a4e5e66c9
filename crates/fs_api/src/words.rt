//! Words in which single quotes protect spaces.

ghost use Rattle.std.specs.Prelude.{◌≡◌, ◌≤◌, false, length};
ghost use Rattle.fs_api.specs.Words as spec;

use fs_text::{offset_of, without_spaces};

/// The first word, in which single quotes protect spaces, and what stands behind it and the spaces behind it.
pub(crate) fn cut_quoted(text: &[u8]) -> (&[u8], &[u8])
    ensures word { result.0.now ≡ spec.quoted_word text.now }
    ensures behind { result.1.now ≡ spec.behind_quoted text.now }
{
    let (word, behind) = text.split_at(quoted_len(text));
    (word, without_spaces(behind))
}

// How many bytes stand before the first space outside quotes.
fn quoted_len(text: &[u8]) -> usize
    ensures len { result ≡ spec.quoted_len false text.now }
    ensures within { result ≤ length text.now }
{
    let mut inside = false;
    for (offset, byte) in text.iter().enumerate() {
        if *byte == b'\'' {
            inside = !inside;
        } else if *byte == b' ' && !inside {
            return offset;
        }
    }
    text.len()
}

/// A word that is in quotes as a whole, without them; any other as it is.
pub(crate) fn unquoted(word: &[u8]) -> &[u8]
    ensures { result.now ≡ spec.unquoted word.now }
{
    let [b'\'', inner @ ..] = word else {
        return word;
    };
    match inner {
        [text @ .., _] if offset_of(b'\'', inner) == text.len() => text,
        _ => word,
    }
}
