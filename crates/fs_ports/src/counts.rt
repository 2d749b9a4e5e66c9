//! Counts of faults.

ghost use Rattle.std.specs.Prelude.{◌≡◌};
ghost use Rattle.fs_ports.specs.Counts as counts;

/// The count after one more fault. At `u64::MAX` it stands still, and counts as risen.
pub(crate) fn raised(count: u64) -> u64
    ensures { result ≡ counts.raised count }
{
    count.saturating_add(1)
}
