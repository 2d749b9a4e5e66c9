//! Texts that are found by their hash.

ghost use Rattle.std.specs.Prelude.{◌≡◌, IfOk};
ghost use Rattle.std.proofs.Common.{ap};
ghost use Rattle.std.specs.Cmp.{partial_equiv_from_equiv};
ghost use Rattle.std.specs.Cmp.Lexicographic.{bytes_decides, nat_list_eq_equiv};
ghost use Rattle.std.specs.Hash as fed;
ghost use Rattle.std.specs.Str.{bytes_eq};

use fs_text::{Memory, Txt};
use std::alloc::{AllocError, Global};
use std::hash::{Hash, Hasher};
use std::marker::Model;

/// A text that a set finds by its hash. Copies share the bytes.
#[derive(Drop)]
pub(crate) struct Key {
    text: Txt,
}

impl Model for Key {
    ghost use Rattle.fs_text.specs.Texts.{Text};

    ghost Value = { Text };

    ghost view = { λ k. k.text };
}

impl Key {
    /// The key with these bytes.
    pub fn of(alloc: Global, bytes: &[u8]) -> Result<Key, Memory>
        ensures { IfOk result (λ key. key ≡ bytes.now) }
    {
        let text = Txt::of(alloc, bytes)?;
        Ok(Key { text })
    }

    /// The bytes of the text.
    pub fn as_bytes(&self) -> &[u8]
        ensures { result.now ≡ self.now }
    {
        self.text.as_bytes()
    }
}

impl Clone for Key {
    ghost is_clone = { λ key copy. copy ≡ key };

    fn clone(&self) -> Result<Key, AllocError> {
        match self.text.copy() {
            Ok(text) => Ok(Key { text }),
            Err(Memory) => Err(AllocError),
        }
    }
}

impl PartialEq for Key {
    ghost eq = { bytes_eq };

    ghost laws = { partial_equiv_from_equiv nat_list_eq_equiv };

    fn eq(&self, other: &Key) -> bool {
        self.as_bytes() == other.as_bytes()
    }
}

impl Eq for Key {
    ghost laws = { nat_list_eq_equiv };
}

impl Hash for Key {
    ghost hash_input = { fed.slice fed.u8 };

    ghost respects_eq = { λ x y same. ap (fed.slice fed.u8) ((bytes_decides x y).0 same) };

    fn hash<H: Hasher>(&self, state: &mut H) {
        self.as_bytes().hash(state);
    }
}
