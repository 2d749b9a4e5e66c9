//! How many seconds an origination has.

ghost use Rattle.std.specs.Prelude.{◌≡◌, IfOk, IfSome};
ghost use Rattle.std.specs.Option.{option_map};
ghost use Rattle.fs_dial.specs.DialStrings.{dial_of};
ghost use Rattle.fs_dial.specs.Pairs.{pair_of, plain};
ghost use Rattle.fs_orig.specs.Plans.{plain_pairs};
ghost use Rattle.fs_orig.specs.Timeouts as spec;

use fs_dial::{DialString, RawPair, RawPairs};
use fs_text::{Memory, read_u64};
use std::alloc::Global;

/// The number of seconds that a text says: 1 to 3,600, as decimal digits.
pub fn seconds_of(text: &[u8]) -> Option<u64>
    ensures seconds { result ≡ spec.seconds_in text.now }
    ensures range { IfSome result spec.IsTimeout }
{
    match read_u64(text) {
        Some(seconds) if (1..=3_600).contains(&seconds) => Some(seconds),
        _ => None,
    }
}

/// The seconds that the braces of a dial string give with their last pair that is named `originate_timeout`.
///
/// `None` where there is no such pair, and where its value says no such number.
pub fn braces_timeout(alloc: Global, dial: &DialString<'_>) -> Result<Option<u64>, Memory>
    ensures { IfOk result (λ seconds. seconds ≡ spec.braces_timeout (dial_of dial.now)) }
{
    match last_named(b"originate_timeout", &dial.pairs) {
        Some(pair) => Ok(seconds_of(pair.plain(alloc)?.as_bytes())),
        None => Ok(None),
    }
}

/// The last pair of a name.
fn last_named<'a>(name: &[u8], pairs: &RawPairs<'a>) -> Option<RawPair<'a>>
    ensures { option_map (λ p. plain (pair_of p)) result ≡ spec.last_value name.now (plain_pairs pairs.now) }
{
    let mut last = None;
    for pair in pairs.as_slice() {
        if pair.name == name {
            last = Some(*pair);
        }
    }
    last
}
