//! The limits of variables.
ghost use Rattle.std.specs.Prelude.{◌≡◌};
ghost use Rattle.fs_vars.specs.Variables.{counts, is_machine_set, most_variables, most_bytes};

/// The limits that a set of variables keeps.
///
/// A name has at most 256 bytes and a value at most 16,384. A channel has at most 512 variables, whose names and values
/// together have at most 32,768 bytes; the globals are at most 1,024, of 262,144 bytes. The four variables that the
/// machine sets on a channel (`originate_disposition`, `bridge_hangup_cause`, `hangup_cause`, `signal_bond`) count
/// neither to the number nor to the bytes.
#[derive(Clone, Copy, Debug, PartialEq, Eq)]
pub enum Bounds {
    Channel,
    Globals,
}

impl Bounds {
    /// How many variables may count.
    pub(crate) fn most_variables(self) -> usize
        ensures { result ≡ most_variables self }
    {
        match self {
            Bounds::Channel => 512,
            Bounds::Globals => 1_024,
        }
    }

    /// How many bytes the names and values of these may have.
    pub(crate) fn most_bytes(self) -> usize
        ensures { result ≡ most_bytes self }
    {
        match self {
            Bounds::Channel => 32_768,
            Bounds::Globals => 262_144,
        }
    }

    /// Whether a variable counts to the limits.
    pub(crate) fn counts(self, name: &[u8]) -> bool
        ensures { result ≡ counts self name.now }
    {
        match self {
            Bounds::Channel => !is_machine_set(name),
            Bounds::Globals => true,
        }
    }
}

#[tactic(auto, unfolding(crate::specs::Variables::is_machine_set))]
fn is_machine_set(name: &[u8]) -> bool
    ensures { result ≡ is_machine_set name.now }
{
    name == b"originate_disposition".as_slice()
        || name == b"bridge_hangup_cause".as_slice()
        || name == b"hangup_cause".as_slice()
        || name == b"signal_bond".as_slice()
}
