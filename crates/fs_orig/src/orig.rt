//! An origination.

ghost use Rattle.std.specs.Prelude.{◌≡◌, IfOk};

use crate::leg::OrigLegs;
use crate::plan::LegPlans;
use fs_text::Memory;

/// Who began an origination, and works it: the channel in a slot, as the application `bridge` does, or a job, as the
/// api command `originate` makes one.
#[derive(Clone, Copy, Debug, PartialEq, Eq)]
pub enum Owner {
    /// The channel in this slot.
    Slot(u16),
    /// The job of this number.
    Job(u64),
}

/// An origination: legs are made and ring until one is answered, all died, or the time is over, as FreeSWITCH's
/// `originate` and `bridge` do it.
///
/// Its groups are tried one after another; the legs of a group ring together. A contract sees its fields.
pub struct Orig {
    pub owner: Owner,
    /// All groups that are to be tried.
    pub groups: LegPlans,
    /// The group that is tried now, counted from 0.
    pub current: u32,
    /// The legs that were made of that group, in its order.
    pub legs: OrigLegs,
    /// The moment, in microseconds, at which the whole origination is given up.
    pub deadline: u64,
}

impl Drop for Orig {
    fn drop(self) {
        let Orig {
            owner: _owner,
            groups: _groups,
            current: _current,
            legs: _legs,
            deadline: _deadline,
        } = self;
    }
}

impl Orig {
    ghost use Rattle.fs_orig.specs.Changes.{new_orig};

    /// An origination that tries its first group, of which these legs were made.
    pub fn new(owner: Owner, groups: LegPlans, legs: OrigLegs, deadline: u64) -> Orig
        ensures { result ≡ new_orig owner groups legs deadline }
    {
        Orig {
            owner,
            groups,
            current: 0,
            legs,
            deadline,
        }
    }

    /// Copies the origination.
    pub fn copy(&self) -> Result<Orig, Memory>
        ensures { IfOk result (λ orig. orig ≡ self.now) }
    {
        Ok(Orig {
            owner: self.owner,
            groups: self.groups.copy()?,
            current: self.current,
            legs: self.legs.copy()?,
            deadline: self.deadline,
        })
    }
}
