//! What holds up the reads of a link in memory.

ghost use Rattle.std.specs.Prelude.{◌≡◌, ◌≤◌, is_some, IfOk};
ghost use Rattle.fs_ports.specs.Memory.{Reaches};

use crate::flag::Flag;
use fs_text::Memory;

/// The bytes from a place on wait for a flag, for so many reads.
#[derive(Drop)]
pub(crate) struct Hold {
    from: usize,
    flag: Flag,
    turns: u64,
}

/// How far a read goes.
#[derive(Clone, Copy, Debug, PartialEq, Eq)]
pub(crate) enum Reach {
    /// To this place.
    To(usize),
    /// Nowhere yet.
    NotYet,
    /// Nowhere any more.
    Over,
}

impl Hold {
    pub(crate) fn new(from: usize, flag: Flag, turns: u64) -> Hold {
        Hold { from, flag, turns }
    }

    fn copy(&self) -> Result<Hold, Memory> {
        Ok(Hold {
            from: self.from,
            flag: self.flag.twin()?,
            turns: self.turns,
        })
    }

    // How far a read goes that would give the bytes between these places.
    fn reach(&mut self, at: usize, end: usize) -> Reach
        requires { at ≤ end }
        ensures { Reaches at end result }
    {
        if at == end || end <= self.from || self.flag.is_up() {
            return Reach::To(end);
        }
        if at < self.from {
            return Reach::To(self.from);
        }
        if self.turns == 0 {
            return Reach::Over;
        }
        self.turns -= 1;
        Reach::NotYet
    }
}

/// How far a read goes that would give the bytes between these places.
pub(crate) fn reach_of(hold: &mut Option<Hold>, at: usize, end: usize) -> Reach
    requires { at ≤ end }
    ensures within { Reaches at end result }
    ensures kept { is_some hold.new ≡ is_some hold.old }
    ensures free { hold.old ≡ None → result ≡ Reach.To end }
{
    match hold {
        Some(hold) => hold.reach(at, end),
        None => Reach::To(end),
    }
}

/// The same, with the same flag.
pub(crate) fn copied(hold: &Option<Hold>) -> Result<Option<Hold>, Memory>
    ensures { IfOk result (λ copy. is_some copy ≡ is_some hold.now) }
{
    match hold {
        Some(hold) => Ok(Some(hold.copy()?)),
        None => Ok(None),
    }
}
