//! An expanded text as it grows.
ghost use Rattle.std.specs.Prelude.{◌++◌, ◌≡◌, ◌≤◌, [], length, IfOk, IfErr, OnOk};
ghost use Rattle.fs_text.specs.Texts.{Text};
ghost use Rattle.fs_vars.specs.Outputs.{Holds, IsTextRefusal};

use crate::refused::Refused;
use fs_text::{Memory, Txt};
use std::alloc::Global;

// The most bytes of an expanded text.
const LIMIT: u64 = 65_536;

/// An expanded text as it grows. Past the limit its bytes are counted and no longer kept.
#[derive(Drop)]
pub(crate) struct Output {
    bytes: Vec<u8>,
    len: u64,
}

impl Output {
    /// No bytes.
    pub fn new(alloc: Global) -> Output
        ensures { Holds result [] }
    {
        Output {
            bytes: Vec::new(alloc),
            len: 0,
        }
    }

    /// Adds the bytes of a piece.
    pub fn add(&mut self, piece: &[u8]) -> Result<(), Memory>
        ensures { OnOk result ((text : Text) → Holds self.old text → Holds self.new (text ++ piece.now)) }
    {
        self.len = self.len.saturating_add(piece.len() as u64);
        if self.len <= LIMIT {
            self.bytes.extend_from_slice(piece)?;
        }
        Ok(())
    }

    /// The whole text, if it is not too long.
    pub fn into_text(self) -> Result<Txt, Refused>
        ensures ok { IfOk result (λ t. (text : Text) → Holds self text → (t ≡ text) × (length t ≤ 65536)) }
        ensures err { IfErr result (λ refused. (text : Text) → Holds self text → IsTextRefusal text refused) }
    {
        if self.len > LIMIT {
            return Err(Refused::TooLong { len: self.len });
        }
        let text = Txt::from_vec(self.bytes)?;
        Ok(text)
    }
}
