//! Lists that grow at their end.

ghost use Rattle.std.specs.Prelude.{◌≡◌, [], ◌∷◌, ◌++◌, OnOk, OnErr};

use crate::dialplan::{ContextDef, ExtensionDef, add_extension};
use fs_text::{Memory, Txt};
use std::alloc::Global;
use std::marker::Model;

/// A list that grows at its end. A contract sees it as that list.
#[derive(Drop)]
pub struct Listed<T> {
    held: Vec<T>,
}

impl<T> Model for Listed<T> {
    ghost use Rattle.std.specs.Prelude.{List};
    ghost use Rattle.std.specs.Coded.{coded_list};

    ghost Value = { List T };

    ghost view = { λ l. l.held.items };

    ghost coded = { coded_list T.code };
}

impl<T: Drop> Listed<T> {
    /// The empty list.
    pub fn new(alloc: Global) -> Listed<T>
        ensures { result ≡ [] }
    {
        Listed {
            held: Vec::new(alloc),
        }
    }

    /// Puts an element behind all others.
    pub fn push(&mut self, element: T) -> Result<(), Memory>
        ensures ok { OnOk result (self.new ≡ self.old ++ element ∷ []) }
        ensures err { OnErr result (self.new ≡ self.old) }
    {
        self.held.push(element)?;
        Ok(())
    }

    /// The elements, in order.
    pub fn as_slice(&self) -> &[T]
        ensures { result.now ≡ self.now }
    {
        self.held.as_slice()
    }
}

impl Listed<ContextDef<Txt>> {
    ghost use Rattle.fs_doc.specs.Dialplans.{with_extension};

    /// Puts an extension behind those of the context at a position.
    pub(crate) fn add_extension(
        &mut self,
        position: usize,
        extension: ExtensionDef<Txt>,
    ) -> Result<(), Memory>
        ensures { OnOk result (self.new ≡ with_extension position extension self.old) }
    {
        add_extension(&mut self.held, position, extension)
    }
}
