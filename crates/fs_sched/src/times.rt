//! Conditions on what a clock and a calendar show.

ghost use Rattle.std.specs.Prelude.{◌≡◌, ◌++◌, [], ◌∷◌, IfOk, OnOk, OnErr};
ghost use Rattle.std.specs.List.{list_all};
ghost use Rattle.fs_sched.specs.Times as spec;

use crate::ranges::Ranges;
use crate::shown::{Fields, TimeField};
use fs_text::Memory;
use std::alloc::Global;
use std::marker::Model;

/// A condition on one field, which is to lie in one of these ranges.
#[derive(Drop)]
pub struct Time {
    pub field: TimeField,
    pub ranges: Ranges,
}

impl Time {
    /// Whether the condition holds of what is shown.
    pub fn holds(&self, fields: &Fields) -> bool
        ensures { result ≡ spec.time_holds fields.now self.now }
    {
        self.ranges.contains(fields.of(self.field))
    }
}

/// What one condition of a dialplan asks of what is shown: conditions on fields, all of which are to hold.
#[derive(Drop)]
pub struct Times {
    times: Vec<Time>,
}

impl Model for Times {
    ghost use Rattle.std.specs.Prelude.{List};
    ghost use Rattle.fs_sched.specs.declared.times.Time.{Time};

    ghost Value = { List Time };

    ghost view = { λ t. t.times.items };
}

impl Times {
    /// No condition.
    pub fn new(alloc: Global) -> Times
        ensures { result ≡ [] }
    {
        Times {
            times: Vec::new(alloc),
        }
    }

    /// The same conditions once more.
    pub fn copy(&self, alloc: Global) -> Result<Times, Memory>
        ensures { IfOk result (λ copy. copy ≡ self.now) }
    {
        let times = copied(alloc, self.as_slice())?;
        Ok(Times { times })
    }

    /// Adds a condition behind the others.
    pub fn push(&mut self, time: Time) -> Result<(), Memory>
        ensures ok { OnOk result (self.new ≡ self.old ++ time ∷ []) }
        ensures err { OnErr result (self.new ≡ self.old) }
    {
        self.times.push(time)?;
        Ok(())
    }

    /// The conditions in order.
    pub fn as_slice(&self) -> &[Time]
        ensures { result.now ≡ self.now }
    {
        self.times.as_slice()
    }

    /// Whether all conditions hold of what is shown. Where nothing is shown none holds, so they hold only if there is
    /// none.
    pub fn hold(&self, fields: Option<Fields>) -> bool
        ensures { result ≡ spec.hold self.now fields }
    {
        match fields {
            Some(fields) => all_hold(self.as_slice(), &fields),
            None => self.times.is_empty(),
        }
    }
}

/// Whether all these hold of what is shown.
fn all_hold(times: &[Time], fields: &Fields) -> bool
    ensures { result ≡ list_all (spec.time_holds fields.now) times.now }
{
    times.iter().all(|time| time.holds(fields))
}

/// The conditions once more.
fn copied(alloc: Global, times: &[Time]) -> Result<Vec<Time>, Memory>
    ensures { IfOk result (λ all. all.items ≡ times.now) }
{
    let mut all = Vec::with_capacity(alloc, times.len())?;
    for time in times {
        all.push(Time {
            field: time.field,
            ranges: time.ranges.copy(alloc)?,
        })?;
    }
    Ok(all)
}
