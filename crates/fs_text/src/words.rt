//! How a text is cut at a byte, and into words.

ghost use Rattle.std.specs.Prelude.{◌≡◌, ◌<◌, length, position, IfSome, option_map};
ghost use Rattle.fs_text.specs.Words as spec;

use crate::search::offset_of;

/// The most bytes of an extension, a context and a dialplan.
const LONGEST: usize = 256;

/// What stands before and behind the first such byte, if there is one.
#[tactic(auto, unfolding(crate::specs::Words::halves_of))]
pub fn split_at_byte(byte: u8, text: &[u8]) -> Option<(&[u8], &[u8])>
    ensures halves { option_map (λ halves. (halves.0.now, halves.1.now)) result ≡ spec.halves_of byte text.now }
    ensures within { IfSome result (λ halves. length halves.1.now < length text.now) }
{
    let (before, from) = text.split_at(offset_of(byte, text));
    match from {
        [_, behind @ ..] => Some((before, behind)),
        [] => None,
    }
}

/// What stands before and behind the first such byte: the whole text and nothing where there is none.
pub fn cut_at(byte: u8, text: &[u8]) -> (&[u8], &[u8])
    ensures before { result.0.now ≡ spec.before_byte byte text.now }
    ensures behind { result.1.now ≡ spec.behind_byte byte text.now }
{
    let (before, from) = text.split_at(offset_of(byte, text));
    match from {
        [_, behind @ ..] => (before, behind),
        [] => (before, &[]),
    }
}

/// The text without the spaces in front.
pub fn without_spaces(text: &[u8]) -> &[u8]
    ensures { result.now ≡ spec.without_spaces text.now }
{
    let first = first_other(text).unwrap_or(text.len());
    &text[first..]
}

/// The offset of the first byte that is no space.
fn first_other(text: &[u8]) -> Option<usize>
    ensures { result ≡ position spec.is_other text.now }
{
    text.iter().position(|byte| *byte != b' ')
}

/// The first word, and what stands behind it and the spaces behind it.
pub fn cut_word(text: &[u8]) -> (&[u8], &[u8])
    ensures word { result.0.now ≡ spec.word_of text.now }
    ensures behind { result.1.now ≡ spec.behind_word text.now }
{
    let (word, behind) = cut_at(b' ', text);
    (word, without_spaces(behind))
}

/// Whether a word can be an extension, a context or a dialplan of a channel: it has at most 256 bytes.
pub fn is_short(word: &[u8]) -> bool
    ensures { result ≡ spec.is_short word.now }
{
    word.len() <= LONGEST
}
