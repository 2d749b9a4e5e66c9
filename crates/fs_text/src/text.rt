//! Texts of bytes.

ghost use Rattle.std.specs.Prelude.{◌≡◌, IfOk};

use crate::memory::Memory;
use std::alloc::Global;
use std::marker::Model;
use std::sync::ArcSlice;

/// A text of bytes, of any encoding. It never changes, and its copies share the bytes.
///
/// A contract sees it as the list of its bytes.
#[derive(Drop)]
pub struct Txt {
    bytes: ArcSlice<u8>,
}

impl Model for Txt {
    ghost use Rattle.std.specs.Prelude.{ℕ, List};
    ghost use Rattle.std.specs.Arc.{arc_slice_items};

    ghost Value = { List ℕ };

    ghost view = { λ t. arc_slice_items t.bytes };
}

impl Txt {
    /// The text with these bytes.
    pub fn of(alloc: Global, bytes: &[u8]) -> Result<Txt, Memory>
        ensures { IfOk result (λ t. t ≡ bytes.now) }
    {
        let bytes = ArcSlice::from_slice(alloc, bytes)?;
        Ok(Txt { bytes })
    }

    /// The text with the bytes of this list, which are not copied.
    pub fn from_vec(bytes: Vec<u8>) -> Result<Txt, Memory>
        ensures { IfOk result (λ t. t ≡ bytes.items) }
    {
        let bytes = ArcSlice::from_vec(bytes)?;
        Ok(Txt { bytes })
    }

    /// Copies the text in constant time.
    pub fn copy(&self) -> Result<Txt, Memory>
        ensures { IfOk result (λ t. t ≡ self.now) }
    {
        let bytes = self.bytes.clone()?;
        Ok(Txt { bytes })
    }

    /// The bytes of the text.
    pub fn as_bytes(&self) -> &[u8]
        ensures { result.now ≡ self.now }
    {
        self.bytes.as_slice()
    }
}
