//! One key that a channel holds.

ghost use Rattle.std.specs.Prelude.{◌≡◌, IfOk};
ghost use Rattle.fs_limit.specs.Holds as spec;

use fs_text::{Memory, Txt};

/// A key, of a realm and an identifier, that the channel of a slot holds.
#[derive(Drop)]
pub(crate) struct Hold {
    pub realm: Txt,
    pub id: Txt,
    pub slot: u16,
}

impl Hold {
    /// The same hold once more. Its texts share their bytes.
    pub fn copy(&self) -> Result<Hold, Memory>
        ensures { IfOk result (λ hold. hold ≡ self.now) }
    {
        Ok(Hold {
            realm: self.realm.copy()?,
            id: self.id.copy()?,
            slot: self.slot,
        })
    }

    /// Whether it is of the key of this realm and identifier.
    pub fn is_of(&self, realm: &[u8], id: &[u8]) -> bool
        ensures { result ≡ spec.is_of realm.now id.now self.now }
    {
        self.realm.as_bytes() == realm && self.id.as_bytes() == id
    }
}
