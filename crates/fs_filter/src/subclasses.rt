//! The subclasses that are subscribed.

ghost use Rattle.std.specs.Prelude.{◌≡◌, IfOk, option_map};
ghost use Rattle.fs_filter.specs.Asked.{texts};
ghost use Rattle.fs_filter.specs.Chunks.{joined};
ghost use Rattle.fs_filter.specs.Subscriptions.{All, These, has_text, has_subclass, with_texts, with_subclasses};
ghost use Rattle.fs_filter.specs.Subscriptions.{without_texts, without_subclasses, without_behind};

use crate::asked::Asked;
use crate::chunks::Chunks;
use crate::key::Key;
use fs_text::Memory;
use indexmap::IndexSet;
use std::alloc::Global;
use std::marker::Model;
use std::sync::Arc;

/// The subclasses that are subscribed: all, or those of a list.
pub(crate) struct Subclasses {
    // None where all are.
    listed: Option<Chunks<Key>>,
}

impl Model for Subclasses {
    ghost use Rattle.std.specs.Prelude.{option_map, unwrap_or};
    ghost use Rattle.fs_filter.specs.Subscriptions.{Subclasses, All, These};

    ghost Value = { Subclasses };

    ghost view = { λ s. unwrap_or (option_map These s.listed) All };
}

impl Drop for Subclasses {
    fn drop(self) {
        let Subclasses { listed: _listed } = self;
    }
}

impl Subclasses {
    ghost use Rattle.std.specs.Prelude.{[], true};

    /// No subclass.
    pub fn none(alloc: Global) -> Subclasses
        ensures { result ≡ These [] }
    {
        Subclasses {
            listed: Some(Chunks::new(alloc)),
        }
    }

    /// The same once more; the texts are shared.
    pub fn copy(&self) -> Result<Subclasses, Memory>
        ensures { IfOk result (λ s. s ≡ self.now) }
    {
        let listed = match &self.listed {
            Some(known) => Some(known.copy()?),
            None => None,
        };
        Ok(Subclasses { listed })
    }

    /// Whether there is none.
    pub fn is_empty(&self) -> bool
        ensures { result ≡ true → self.now ≡ These [] }
    {
        match &self.listed {
            Some(known) => known.is_empty(),
            None => false,
        }
    }

    /// Whether this subclass is subscribed.
    pub fn has(&self, subclass: &[u8]) -> bool
        ensures { result ≡ has_subclass self.now subclass.now }
    {
        match &self.listed {
            None => true,
            Some(known) => has_text(known.chunks(), subclass),
        }
    }

    /// These subclasses and the ones that are asked for.
    pub fn with(&self, alloc: Global, asked: &Asked) -> Result<Subclasses, Memory>
        ensures { IfOk result (λ s. s ≡ with_subclasses asked.now self.now) }
    {
        let listed = match &self.listed {
            Some(known) if !asked.is_all() => {
                Some(with_texts(alloc, known.copy()?, asked.subclasses().unwrap_or(&[]))?)
            }
            _ => None,
        };
        Ok(Subclasses { listed })
    }

    /// These subclasses without the ones that are asked for.
    pub fn without(&self, alloc: Global, asked: &Asked) -> Result<Subclasses, Memory>
        ensures { IfOk result (λ s. s ≡ without_subclasses asked.now self.now) }
    {
        if asked.is_all() {
            return Ok(Subclasses::none(alloc));
        }
        match asked.subclasses() {
            Some(behind) => self.without_behind(alloc, behind),
            None => self.copy(),
        }
    }

    // These without the ones behind `CUSTOM`, or none where nothing stands there.
    fn without_behind(&self, alloc: Global, behind: &[&[u8]]) -> Result<Subclasses, Memory>
        ensures { IfOk result (λ s. s ≡ without_behind (Some (texts behind.now)) self.now) }
    {
        if behind.is_empty() {
            return Ok(Subclasses::none(alloc));
        }
        let listed = match &self.listed {
            Some(known) => Some(without_texts(alloc, known, behind)?),
            None => None,
        };
        Ok(Subclasses { listed })
    }
}

// These texts, and those of the others that are new.
fn with_texts(alloc: Global, known: Chunks<Key>, others: &[&[u8]]) -> Result<Chunks<Key>, Memory>
    ensures { IfOk result (λ all. all ≡ with_texts known (texts others.now)) }
{
    let mut all = known;
    for text in others {
        all = all.with(Key::of(alloc, text)?)?;
    }
    Ok(all)
}

// These texts without the others.
fn without_texts(
    alloc: Global,
    known: &Chunks<Key>,
    others: &[&[u8]],
) -> Result<Chunks<Key>, Memory>
    ensures { IfOk result (λ rest. rest ≡ without_texts known.now (texts others.now)) }
{
    let taken = with_texts(alloc, Chunks::new(alloc), others)?;
    let mut rest = known.whole()?;
    rest.retain(|text| !taken.has(text));
    Chunks::of(alloc, rest)
}

// Whether a text is among those of these chunks.
fn has_text(known: &[Arc<IndexSet<Key>>], text: &[u8]) -> bool
    ensures { result ≡ has_text (joined known.now) text.now }
{
    known.iter().any(|chunk| is_among(chunk.as_slice(), text))
}

// Whether a text is among these.
fn is_among(known: &[Key], text: &[u8]) -> bool
    ensures { result ≡ has_text known.now text.now }
{
    known.iter().any(|other| other.as_bytes() == text)
}
