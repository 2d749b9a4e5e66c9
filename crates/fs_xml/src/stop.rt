//! Why markup or a value was not read.

ghost use Rattle.std.specs.Prelude.{◌≡◌};
ghost use Rattle.fs_xml.specs.declared.stop.MarkupStop.TheVariants as markup;
ghost use Rattle.fs_xml.specs.declared.stop.ValueStop.TheVariants as value;

use fs_text::Memory;
use std::alloc::{AllocError, AllocFailed};

/// Why no markup was read.
#[derive(Clone, Copy, Debug, PartialEq, Eq)]
pub enum TagStop {
    /// The bytes end before the markup does.
    Cut,
    /// The bytes are no comment and no tag, whatever follows.
    Bad,
}

/// Why no markup was read, where memory may be wanting too.
#[derive(Clone, Copy, Debug, PartialEq, Eq)]
pub enum MarkupStop {
    Memory,
    Tag(TagStop),
}

impl From<TagStop> for MarkupStop {
    ghost from_gives = { λ stop e. e ≡ markup.Tag stop };

    fn from(stop: TagStop) -> MarkupStop {
        MarkupStop::Tag(stop)
    }
}

impl From<Memory> for MarkupStop {
    ghost from_gives = { λ _ e. e ≡ markup.Memory };

    fn from(_e: Memory) -> MarkupStop {
        MarkupStop::Memory
    }
}

impl<T: Drop> From<AllocFailed<T>> for MarkupStop {
    ghost from_gives = { λ _ e. e ≡ markup.Memory };

    fn from(_e: AllocFailed<T>) -> MarkupStop {
        MarkupStop::Memory
    }
}

/// What is wrong with a value.
#[derive(Clone, Copy, Debug, PartialEq, Eq)]
pub enum ValueFault {
    /// A `<` stands in it.
    Raw,
    /// What begins with the `&` at this offset is no entity.
    BadEntity { at: usize },
}

/// Why a value was not decoded.
#[derive(Clone, Copy, Debug, PartialEq, Eq)]
pub enum ValueStop {
    Memory,
    Fault(ValueFault),
}

impl From<ValueFault> for ValueStop {
    ghost from_gives = { λ fault e. e ≡ value.Fault fault };

    fn from(fault: ValueFault) -> ValueStop {
        ValueStop::Fault(fault)
    }
}

impl From<AllocError> for ValueStop {
    ghost from_gives = { λ _ e. e ≡ value.Memory };

    fn from(_e: AllocError) -> ValueStop {
        ValueStop::Memory
    }
}

impl From<Memory> for ValueStop {
    ghost from_gives = { λ _ e. e ≡ value.Memory };

    fn from(_e: Memory) -> ValueStop {
        ValueStop::Memory
    }
}

impl<T: Drop> From<AllocFailed<T>> for ValueStop {
    ghost from_gives = { λ _ e. e ≡ value.Memory };

    fn from(_e: AllocFailed<T>) -> ValueStop {
        ValueStop::Memory
    }
}
