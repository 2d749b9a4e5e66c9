//! What builds patterns.

ghost use Rattle.std.specs.Prelude.{◌≡◌, ℕ, List, Option};
ghost use Rattle.fs_ports.specs.declared.files.Load.{Load};
ghost use Rattle.fs_ports.specs.Loads.{LoadCounts};
ghost use Rattle.fs_ports.specs.Patterns.{Says, Counts};

use crate::counts::raised;
use regex::Error;
use regex::bytes::Regex;
use std::alloc::Global;

/// What building a pattern answered.
#[derive(Drop)]
pub enum Built {
    /// The pattern, which is searched in bytes.
    Regex(Regex),
    /// The text is no pattern, or one that is nested too deep.
    NoReading,
    /// The pattern needs more room than one may take.
    TooLarge,
    /// There was no memory.
    Memory,
}

/// What contracts see of files and patterns. A call on the one leaves the other as it was.
pub trait Store {
    ghost counts: { Self → LoadCounts };

    // The answers that the loads of a name to come give, one after another, where they are known. That of the next load
    // has the number 0.
    ghost loads: { Self → List ℕ → ℕ → Option Load };

    // The patterns that were too large.
    ghost sizes: { Self → ℕ };
}

/// Patterns out of their texts, in the syntax of the crate `regex`.
pub trait Patterns: Store {
    /// Builds the pattern of a text.
    fn build(&mut self, text: &str) -> Built
        ensures answer { Says text.now result }
        ensures sizes { Counts (Self.sizes self.old) (Self.sizes self.new) result }
        ensures counts { Self.counts self.new ≡ Self.counts self.old }
        ensures loads { Self.loads self.new ≡ Self.loads self.old };
}

/// The pattern of a text.
#[tactic(auto, using(crate::proofs::Readings::reading_rules))]
pub(crate) fn compiled(alloc: Global, text: &str) -> Built
    ensures { Says text.now result }
{
    match Regex::new(alloc, text) {
        Ok(regex) => Built::Regex(regex),
        Err(Error::Syntax(_)) => Built::NoReading,
        Err(Error::CompiledTooBig) => Built::TooLarge,
        Err(Error::Internal) => unreachable!(),
        Err(Error::OutOfMemory) => Built::Memory,
    }
}

/// The answer, once it is counted where it says that a pattern was too large.
pub(crate) fn counted(sizes: &mut u64, built: Built) -> Built
    ensures same { result ≡ built }
    ensures sizes { Counts sizes.old sizes.new result }
{
    if let Built::TooLarge = built {
        *sizes = raised(*sizes);
    }
    built
}
