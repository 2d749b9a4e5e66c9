//! What is wrong with a document.

ghost use Rattle.std.specs.Prelude.{◌≡◌};
ghost use Rattle.fs_doc.specs.declared.fault.DocStop.TheVariants as stop;

use fs_text::Memory;
use std::alloc::AllocFailed;
use std::fmt;

/// What is wrong with a document.
#[derive(Clone, Copy, Debug, PartialEq, Eq)]
pub enum DocKind {
    /// The document has more than 1,048,576 bytes, a pattern more than 1,024; or there are more than 256 contexts,
    /// 4,096 extensions, 4,096 patterns or 32,768 actions; or the globals pass their limits.
    TooLarge,
    /// The bytes end before the document does.
    Truncated,
    /// There is no well-formed tag, or an end tag of another element; a declaration stands elsewhere than at the start;
    /// text stands before the document, or anything but blanks and comments behind it.
    BadTag,
    /// An attribute is malformed, stands twice, or has a raw `<` or a value that is none for it; or a needed one is
    /// missing.
    BadAttribute,
    /// What begins with `&` in a value is no entity.
    BadEntity,
    /// A condition stands in a condition.
    Nested,
    /// Text stands in an element.
    TextContent,
    /// A condition has an attribute by which the time decides.
    TimeAttribute,
    /// An expression has a `${`.
    ExpressionVariable,
    /// `break` has none of its four values.
    UnknownBreak,
    /// There is no such element, or none at that level.
    UnknownElement,
    /// A parameter is out of its range.
    BadSetting,
    /// There was no memory.
    Memory,
}

/// A fault of a document, and where it stands: a count of bytes before it.
#[derive(Clone, Copy, Debug, PartialEq, Eq)]
pub struct DocFault {
    pub at: u64,
    pub kind: DocKind,
}

impl DocKind {
    ghost use Rattle.fs_doc.specs.Faults.{kind_name};

    /// The name of the kind.
    #[tactic(auto, unfolding(crate::specs::Faults::kind_name))]
    pub fn name(self) -> &'static str
        ensures { result.now ≡ kind_name self }
    {
        match self {
            DocKind::TooLarge => "TooLarge",
            DocKind::Truncated => "Truncated",
            DocKind::BadTag => "BadTag",
            DocKind::BadAttribute => "BadAttribute",
            DocKind::BadEntity => "BadEntity",
            DocKind::Nested => "Nested",
            DocKind::TextContent => "TextContent",
            DocKind::TimeAttribute => "TimeAttribute",
            DocKind::ExpressionVariable => "ExpressionVariable",
            DocKind::UnknownBreak => "UnknownBreak",
            DocKind::UnknownElement => "UnknownElement",
            DocKind::BadSetting => "BadSetting",
            DocKind::Memory => "Memory",
        }
    }
}

impl fmt::Display for DocFault {
    fn fmt<W: fmt::Write>(&self, f: &mut fmt::Formatter<W>) -> fmt::Result {
        let DocFault { at, kind } = *self;
        write!(f, "{} at {at}", kind.name())
    }
}

/// Why the reading of a document stops.
#[derive(Clone, Copy)]
pub(crate) enum DocStop {
    Memory,
    Fault(DocFault),
}

impl DocStop {
    ghost use Rattle.fs_doc.specs.Faults.{fault_at};

    /// The fault of a kind at an offset.
    pub fn at(at: usize, kind: DocKind) -> DocStop
        ensures { result ≡ stop.Fault (fault_at at kind) }
    {
        DocStop::Fault(DocFault {
            at: at as u64,
            kind,
        })
    }
}

impl From<Memory> for DocStop {
    ghost from_gives = { λ _ e. e ≡ stop.Memory };

    fn from(_e: Memory) -> DocStop {
        DocStop::Memory
    }
}

impl<T: Drop> From<AllocFailed<T>> for DocStop {
    ghost from_gives = { λ _ e. e ≡ stop.Memory };

    fn from(_e: AllocFailed<T>) -> DocStop {
        DocStop::Memory
    }
}
