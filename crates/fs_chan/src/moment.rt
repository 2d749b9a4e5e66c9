//! Moments.
ghost use Rattle.std.specs.Prelude.{◌≡◌};
ghost use Rattle.fs_chan.specs.Moments.{moment_after};

/// The moment that comes so many microseconds after another, or 2^64 - 1 where it would come after that.
pub fn moment_after(now: u64, microseconds: u64) -> u64
    ensures { result ≡ moment_after now microseconds }
{
    now.saturating_add(microseconds)
}
