//! The names and texts of the attributes of an element.

ghost use Rattle.std.specs.Prelude.{◌≡◌, [], ◌∷◌, ◌++◌, None, is_some, IfOk, OnOk, option_copied};
ghost use Rattle.fs_vars.specs.Pairs.{value_of};
ghost use Rattle.fs_doc.specs.Contents.{attribute_value};

use fs_text::{Memory, Txt};
use indexmap::IndexMap;
use std::alloc::Global;
use std::marker::Model;

/// The attributes of a tag: their names and the texts of their values, in order. No name stands twice.
#[derive(Drop)]
pub(crate) struct Given<'a> {
    entries: IndexMap<&'a [u8], Txt>,
}

impl<'a> Model for Given<'a> {
    ghost use Rattle.std.specs.Prelude.{map};
    ghost use Rattle.fs_vars.specs.Pairs.{Pairs};

    ghost Value = { Pairs };

    ghost view = { λ g. map (λ entry. (entry.0.now, entry.1)) g.entries.entries };
}

impl<'a> Given<'a> {
    /// No attributes.
    pub fn new(alloc: Global) -> Given<'a>
        ensures { result ≡ [] }
    {
        Given {
            entries: IndexMap::new(alloc),
        }
    }

    /// The text of the attribute of a name.
    pub fn get(&self, name: &[u8]) -> Option<&Txt>
        ensures { option_copied result ≡ value_of self.now name.now }
    {
        self.entries.get(name)
    }

    /// Puts an attribute of a new name behind the others.
    pub fn push(&mut self, name: &'a [u8], text: Txt) -> Result<(), Memory>
        requires { value_of self.old name.now ≡ None }
        ensures { OnOk result (self.new ≡ self.old ++ (name.now, text) ∷ []) }
    {
        self.entries.insert(name, text)?;
        Ok(())
    }

    /// Whether there is an attribute of a name.
    pub fn has(&self, name: &[u8]) -> bool
        ensures { result ≡ is_some (value_of self.now name.now) }
    {
        self.get(name).is_some()
    }

    /// The bytes of an attribute's text, or none where there is no such attribute.
    pub fn bytes(&self, name: &[u8]) -> &[u8]
        ensures { result.now ≡ attribute_value self.now name.now }
    {
        match self.get(name) {
            Some(text) => text.as_bytes(),
            None => &[],
        }
    }

    /// The text of an attribute, or the empty one where there is no such attribute.
    pub fn text(&self, alloc: Global, name: &[u8]) -> Result<Txt, Memory>
        ensures { IfOk result (λ t. t ≡ attribute_value self.now name.now) }
    {
        match self.get(name) {
            Some(text) => text.copy(),
            None => Txt::of(alloc, b""),
        }
    }
}
