//! The fields of conditions.

ghost use Rattle.std.specs.Prelude.{◌≡◌, IfOk};
ghost use Rattle.fs_doc.specs.Attributes as judged;

use crate::attributes::has_variable;
use fs_text::{Memory, Txt};
use std::marker::Model;

/// The field of a condition, which knows whether it has a variable. A contract sees it as its text.
#[derive(Drop)]
pub struct Field {
    text: Txt,
    // Whether a `${` stands in it.
    varies: bool,
}

impl Model for Field {
    ghost use Rattle.std.specs.Prelude.{◌≡◌, ℕ, List};
    ghost use Rattle.fs_doc.specs.Attributes.{has_variable};

    ghost Value = { List ℕ };

    ghost view = { λ f. f.text };

    ghost invariant = { λ f. f.varies ≡ has_variable f.text };
}

impl Field {
    /// The field that a text names.
    pub fn of(text: Txt) -> Field
        ensures { result ≡ text }
    {
        let varies = has_variable(text.as_bytes());
        Field { text, varies }
    }

    /// Its text.
    pub fn text(&self) -> &Txt
        ensures { result.now ≡ self.now }
    {
        &self.text
    }

    /// Whether a `${` stands in it.
    pub fn has_variable(&self) -> bool
        ensures { result ≡ judged.has_variable self.now }
    {
        self.varies
    }

    /// The same field once more.
    pub fn copy(&self) -> Result<Field, Memory>
        ensures { IfOk result (λ field. field ≡ self.now) }
    {
        Ok(Field {
            text: self.text.copy()?,
            varies: self.varies,
        })
    }
}
