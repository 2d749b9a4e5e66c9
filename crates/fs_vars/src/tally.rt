//! What variables count.
ghost use Rattle.std.specs.Prelude.{◌≡◌, ◌+◌, ◌<◌, ◌^◌, ◌≤◌, [], ◌∷◌, length};
ghost use Rattle.fs_vars.specs.Variables.{is_within, tally_of};

use crate::bounds::Bounds;

/// How many variables count to the limits, and how many bytes their names and values have.
#[derive(Clone, Copy)]
pub(crate) struct Tally {
    pub variables: usize,
    pub bytes: usize,
}

impl Tally {
    /// No variables.
    pub const NONE: Tally = Tally {
        variables: 0,
        bytes: 0,
    };

    /// What one variable counts.
    pub fn of(bounds: Bounds, name: &[u8], value: &[u8]) -> Tally
        requires { length name.now + length value.now < 2 ^ 64 }
        ensures { result ≡ tally_of bounds ((name.now, value.now) ∷ []) }
    {
        if bounds.counts(name) {
            Tally {
                variables: 1,
                bytes: name.len() + value.len(),
            }
        } else {
            Tally::NONE
        }
    }

    /// What both count together.
    pub fn plus(self, other: Tally) -> Tally
        requires variables { self.variables + other.variables < 2 ^ 64 }
        requires bytes { self.bytes + other.bytes < 2 ^ 64 }
        ensures variables { result.variables ≡ self.variables + other.variables }
        ensures bytes { result.bytes ≡ self.bytes + other.bytes }
    {
        Tally {
            variables: self.variables + other.variables,
            bytes: self.bytes + other.bytes,
        }
    }

    /// What is left without the other.
    pub fn minus(self, other: Tally) -> Tally
        requires variables { other.variables ≤ self.variables }
        requires bytes { other.bytes ≤ self.bytes }
        ensures variables { result.variables + other.variables ≡ self.variables }
        ensures bytes { result.bytes + other.bytes ≡ self.bytes }
    {
        Tally {
            variables: self.variables - other.variables,
            bytes: self.bytes - other.bytes,
        }
    }

    /// Whether neither limit is passed.
    pub fn is_within(self, bounds: Bounds) -> bool
        ensures { result ≡ is_within bounds self }
    {
        self.variables <= bounds.most_variables() && self.bytes <= bounds.most_bytes()
    }
}
