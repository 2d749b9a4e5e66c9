//! The numbers that are drawn.
ghost use Rattle.std.specs.Prelude.{◌≡◌};
ghost use Rattle.fs_state.specs.Drawn as spec;

/// The last numbers that were drawn; 0 where none was.
#[derive(Clone, Copy, Debug, PartialEq, Eq)]
pub struct Drawn {
    /// Of identifiers, at most 2^62 - 1.
    pub identifiers: u64,
    /// Of originations.
    pub origs: u64,
    /// Of jobs.
    pub jobs: u64,
    /// Of connections.
    pub conns: u32,
}

/// The last number of an identifier.
const LAST_IDENTIFIER: u64 = (1 << 62) - 1;

impl Drawn {
    /// Nothing was drawn.
    pub const fn none() -> Drawn
        ensures { result ≡ spec.none_drawn }
    {
        Drawn {
            identifiers: 0,
            origs: 0,
            jobs: 0,
            conns: 0,
        }
    }

    /// With one more identifier.
    pub fn with_identifier(self) -> Drawn
        ensures { result ≡ spec.with_identifier self }
    {
        Drawn {
            identifiers: self.identifiers.saturating_add(1).min(LAST_IDENTIFIER),
            ..self
        }
    }

    /// With one more origination.
    pub fn with_orig(self) -> Drawn
        ensures { result ≡ spec.with_orig self }
    {
        Drawn {
            origs: self.origs.saturating_add(1),
            ..self
        }
    }

    /// With one more job.
    pub fn with_job(self) -> Drawn
        ensures { result ≡ spec.with_job self }
    {
        Drawn {
            jobs: self.jobs.saturating_add(1),
            ..self
        }
    }

    /// With one more connection.
    pub fn with_conn(self) -> Drawn
        ensures { result ≡ spec.with_conn self }
    {
        Drawn {
            conns: self.conns.saturating_add(1),
            ..self
        }
    }
}
