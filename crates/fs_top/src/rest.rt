//! Who was refused something for want of memory tries it again soon.

use fs_ports::Clock;

// How long who was refused rests, in microseconds.
const REST: u64 = 10_000;

/// Rests for a moment, though there may be something to do, until there may be memory again.
pub(crate) fn rest<C: Clock>(clock: &C) {
    clock.nap_until(clock.now().saturating_add(REST));
}
