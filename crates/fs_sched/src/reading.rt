//! How the values of a field are written in an attribute.

ghost use Rattle.std.specs.Prelude.{◌≡◌, filter_map, IfOk};
ghost use Rattle.fs_sched.specs.Reading as spec;

use crate::ranges::Ranges;
use crate::shown::TimeField;
use fs_text::{Memory, read_u64, split_at_byte};
use std::alloc::Global;

impl TimeField {
    /// The field of an attribute's name: `hour`, `minute`, `mon`, `mday` or `wday`.
    #[tactic(auto, unfolding(crate::specs::Reading::field_named))]
    pub fn of_name(name: &[u8]) -> Option<TimeField>
        ensures { result ≡ spec.field_named name.now }
    {
        if name == b"hour".as_slice() {
            Some(TimeField::Hour)
        } else if name == b"minute".as_slice() {
            Some(TimeField::Minute)
        } else if name == b"mon".as_slice() {
            Some(TimeField::Mon)
        } else if name == b"mday".as_slice() {
            Some(TimeField::Mday)
        } else if name == b"wday".as_slice() {
            Some(TimeField::Wday)
        } else {
            None
        }
    }

    /// The first value of the field and the last.
    fn bounds(self) -> (u8, u8)
        ensures { result ≡ spec.bounds_of self }
    {
        match self {
            TimeField::Hour => (0, 23),
            TimeField::Minute => (0, 59),
            TimeField::Mon => (1, 12),
            TimeField::Mday => (1, 31),
            TimeField::Wday => (1, 7),
        }
    }

    /// The ranges that the text of an attribute says: values, and ranges as `9-17`, with commas between them.
    ///
    /// A value is 1 to 20 decimal digits, leading zeros too; a day of the week is also `sun`, `mon` and so on to
    /// `sat`, in lower case. `None` exactly where some part of the text is neither a value of the field nor two with
    /// a `-` between them.
    pub fn read(self, alloc: Global, text: &[u8]) -> Result<Option<Ranges>, Memory>
        ensures { IfOk result (λ ranges. ranges ≡ spec.ranges_of self text.now) }
    {
        if !is_list(self, text) {
            return Ok(None);
        }
        let ranges = ranges_in(alloc, self, text)?;
        Ok(Some(Ranges::of(ranges)))
    }
}

/// Whether each part of a text says a range.
fn is_list(field: TimeField, text: &[u8]) -> bool
    ensures { result ≡ spec.is_list field text.now }
{
    text.split(|byte| *byte == b',')
        .all(|part| range_of(field, part).is_some())
}

/// The ranges that the parts of a text say, without those that say none.
fn ranges_in(alloc: Global, field: TimeField, text: &[u8]) -> Result<Vec<(u8, u8)>, Memory>
    ensures { IfOk result (λ ranges. ranges.items ≡ filter_map (spec.range_of field) (spec.parts_of text.now)) }
{
    let ranges = text
        .split(|byte| *byte == b',')
        .filter_map(|part| range_of(field, part))
        .collect(alloc)?;
    Ok(ranges)
}

/// The range that a part says. A value alone is the range from it to itself.
#[tactic(auto, unfolding(crate::specs::Reading::range_of))]
fn range_of(field: TimeField, text: &[u8]) -> Option<(u8, u8)>
    ensures { result ≡ spec.range_of field text.now }
{
    match split_at_byte(b'-', text) {
        Some((first, last)) => value_of(field, first).zip(value_of(field, last)),
        None => value_of(field, text).zip(value_of(field, text)),
    }
}

/// The value of a field that a text says.
fn value_of(field: TimeField, text: &[u8]) -> Option<u8>
    ensures { result ≡ spec.value_of field text.now }
{
    named_value(field, text).or(kept(field.bounds(), read_u64(text)))
}

/// The value of a field that a text names.
fn named_value(field: TimeField, text: &[u8]) -> Option<u8>
    ensures { result ≡ spec.named_value field text.now }
{
    match field {
        TimeField::Wday => day_named(text),
        _ => None,
    }
}

/// The number, where there is one and it lies within the bounds.
fn kept(bounds: (u8, u8), number: Option<u64>) -> Option<u8>
    ensures { result ≡ spec.kept bounds number }
{
    let number = number?;
    if u64::from(bounds.0) <= number && number <= u64::from(bounds.1) {
        Some(number as u8)
    } else {
        None
    }
}

/// The day of the week that a text names, from 1 for Sunday.
#[tactic(auto, unfolding(crate::specs::Reading::day_named))]
fn day_named(text: &[u8]) -> Option<u8>
    ensures { result ≡ spec.day_named text.now }
{
    if text == b"sun".as_slice() {
        Some(1)
    } else if text == b"mon".as_slice() {
        Some(2)
    } else if text == b"tue".as_slice() {
        Some(3)
    } else if text == b"wed".as_slice() {
        Some(4)
    } else if text == b"thu".as_slice() {
        Some(5)
    } else if text == b"fri".as_slice() {
        Some(6)
    } else if text == b"sat".as_slice() {
        Some(7)
    } else {
        None
    }
}
