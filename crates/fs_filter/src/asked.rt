//! What the words of a subscription ask for.

ghost use Rattle.std.specs.Prelude.{◌≡◌, IfOk, option_map};
ghost use Rattle.std.specs.List.{position_or_len};
ghost use Rattle.fs_filter.specs.Asked.{texts, words_in, behind_first, is_all, is_custom, is_known_word};

use fs_text::{EventName, Memory};
use std::alloc::Global;
use std::marker::Model;

/// The words of a text, with spaces between them.
pub(crate) fn words_in(alloc: Global, text: &[u8]) -> Result<Vec<&[u8]>, Memory>
    ensures { IfOk result (λ words. texts words.items ≡ words_in text.now) }
{
    let words = text
        .split(|byte| *byte == b' ')
        .filter(|word| word.len() != 0)
        .collect(alloc)?;
    Ok(words)
}

/// What words ask for, lent from them. Those before the first `CUSTOM` name events, and all behind it are subclasses.
#[derive(Drop)]
pub(crate) struct Asked<'a> {
    names: &'a [&'a [u8]],
    subclasses: Option<&'a [&'a [u8]]>,
}

impl<'a> Model for Asked<'a> {
    ghost use Rattle.std.specs.Prelude.{option_map};
    ghost use Rattle.fs_filter.specs.Asked.{Asked, texts};

    ghost Value = { Asked };

    ghost view = { λ a. record { names = texts a.names.now; subclasses = option_map (λ s. texts s.now) a.subclasses } };
}

impl<'a> Asked<'a> {
    ghost use Rattle.fs_filter.specs.Asked.{asked_of, asks_all, asks_name, is_known};

    /// What these words ask for.
    pub fn of(words: &'a [&'a [u8]]) -> Asked<'a>
        ensures { result ≡ asked_of (texts words.now) }
    {
        let (names, from) = words.split_at(position_of_custom(words));
        Asked {
            names,
            subclasses: behind_first(from),
        }
    }

    /// The words behind `CUSTOM`, if it stands there.
    pub fn subclasses(&self) -> Option<&'a [&'a [u8]]>
        ensures { option_map (λ s. texts s.now) result ≡ self.now.subclasses }
    {
        self.subclasses
    }

    /// Whether all is asked for.
    pub fn is_all(&self) -> bool
        ensures { result ≡ asks_all self.now }
    {
        self.names.iter().any(|word| is_all(word))
    }

    /// Whether the events of this name are asked for.
    pub fn has_name(&self, name: EventName) -> bool
        ensures { result ≡ asks_name self.now name }
    {
        let own = name.name().as_bytes();
        self.names.iter().any(|word| is_all(word) || own == *word)
    }

    /// Whether a known name stands among the words.
    pub fn is_known(&self) -> bool
        ensures { result ≡ is_known self.now }
    {
        self.subclasses.is_some() || self.names.iter().any(|word| is_known_word(word))
    }
}

// The position of the first `CUSTOM`, or the number of words where none stands there.
fn position_of_custom(words: &[&[u8]]) -> usize
    ensures { result ≡ position_or_len (λ word. is_custom word.now) words.now }
{
    words
        .iter()
        .position(|word| is_custom(word))
        .unwrap_or(words.len())
}

// All words but the first, if there is one.
fn behind_first<'a>(words: &'a [&'a [u8]]) -> Option<&'a [&'a [u8]]>
    ensures { option_map (λ s. texts s.now) result ≡ behind_first (texts words.now) }
{
    match words {
        [_, behind @ ..] => Some(behind),
        [] => None,
    }
}

#[tactic(auto, unfolding(crate::specs::Asked::is_all))]
fn is_all(word: &[u8]) -> bool
    ensures { result ≡ is_all word.now }
{
    word == b"ALL".as_slice()
}

#[tactic(auto, unfolding(crate::specs::Asked::is_custom))]
fn is_custom(word: &[u8]) -> bool
    ensures { result ≡ is_custom word.now }
{
    word == b"CUSTOM".as_slice()
}

fn is_known_word(word: &[u8]) -> bool
    ensures { result ≡ is_known_word word.now }
{
    is_all(word) || EventName::of_name(word).is_some()
}
