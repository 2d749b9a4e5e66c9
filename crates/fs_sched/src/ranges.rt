//! Ranges of the values of a field.

ghost use Rattle.std.specs.Prelude.{◌≡◌, IfOk};
ghost use Rattle.std.specs.List.{list_any};
ghost use Rattle.fs_sched.specs.Ranges as spec;

use fs_text::Memory;
use std::alloc::Global;
use std::marker::Model;

/// Ranges of the values of a field, each as its first value and its last, which both belong to it.
///
/// One whose first value is the greater goes round the end of the field: from hour 22 to hour 5 are the eight hours
/// of a night.
#[derive(Drop)]
pub struct Ranges {
    ranges: Vec<(u8, u8)>,
}

impl Model for Ranges {
    ghost use Rattle.std.specs.Prelude.{List};
    ghost use Rattle.fs_sched.specs.Ranges.{Range};

    ghost Value = { List Range };

    ghost view = { λ r. r.ranges.items };
}

impl Ranges {
    /// The ranges of a list.
    pub(crate) fn of(ranges: Vec<(u8, u8)>) -> Ranges
        ensures { result ≡ ranges.items }
    {
        Ranges { ranges }
    }

    /// The same ranges once more.
    pub fn copy(&self, alloc: Global) -> Result<Ranges, Memory>
        ensures { IfOk result (λ copy. copy ≡ self.now) }
    {
        let ranges = Vec::from_slice(alloc, self.as_slice())?;
        Ok(Ranges { ranges })
    }

    /// The ranges in order.
    pub fn as_slice(&self) -> &[(u8, u8)]
        ensures { result.now ≡ self.now }
    {
        self.ranges.as_slice()
    }

    /// Whether a value lies in one of the ranges.
    pub fn contains(&self, value: u8) -> bool
        ensures { result ≡ list_any (spec.is_within value) self.now }
    {
        self.as_slice().iter().any(|range| is_within(value, *range))
    }
}

/// Whether a value lies in a range.
fn is_within(value: u8, range: (u8, u8)) -> bool
    ensures { result ≡ spec.is_within value range }
{
    let (first, last) = range;
    if first <= last {
        first <= value && value <= last
    } else {
        first <= value || value <= last
    }
}
