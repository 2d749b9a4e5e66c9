//! Files by name.

ghost use Rattle.std.specs.Prelude.{◌≡◌, IfOk, MatchResult};
ghost use Rattle.fs_ports.specs.Loads.{Tells, MovesOn, Counted};

use crate::patterns::Patterns;
use fs_text::{Memory, Txt};

/// So many bytes of a file are read at most: one more than any document may have.
pub const LOAD_LIMIT: usize = 1_048_577;

/// What a load answered.
#[derive(Drop)]
pub enum Load {
    /// The first bytes of the file, `LOAD_LIMIT` at most.
    Got(Txt),
    /// There is no such file. This is the answer for a name that is not UTF-8, too.
    Absent,
    /// The file is there and could not be read.
    Failed,
}

/// Files by name.
pub trait Files: Patterns {
    /// Reads the file of this name.
    fn load(&mut self, name: &Txt) -> Result<Load, Memory>
        ensures told { IfOk result (Tells (Self.loads self.old name.now 0)) }
        ensures rest { MatchResult result (λ _. MovesOn (Self.loads self.old) (Self.loads self.new) name.now)
            (λ _. Self.loads self.new ≡ Self.loads self.old) }
        ensures counts { MatchResult result (Counted (Self.counts self.old) (Self.counts self.new))
            (λ _. Self.counts self.new ≡ Self.counts self.old) }
        ensures sizes { Self.sizes self.new ≡ Self.sizes self.old };
}
