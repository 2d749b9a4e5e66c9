//! Numbers as decimal digits.

ghost use Rattle.std.specs.Prelude.{◌≡◌, ◌<◌, ◌^◌, ℕ, IfOk};
ghost use Rattle.std.specs.Char.{is_ascii_digit};
ghost use Rattle.std.specs.Fmt as fmt;
ghost use Rattle.std.specs.List.{list_all};
ghost use Rattle.fs_text.specs.Number.{read_u64};

use crate::memory::Memory;
use crate::text::Txt;
use std::alloc::Global;

/// The decimal digits of a number, without sign or leading zeros.
pub fn decimal(alloc: Global, n: u64) -> Result<Txt, Memory>
    ensures { IfOk result (λ t. t ≡ fmt.decimal n) }
{
    let digits = n.to_string(alloc)?;
    Txt::from_vec(digits.into_bytes())
}

/// The number that 1 to 20 decimal digits say; leading zeros count as digits.
///
/// `None` for any other text, and for a number above `u64::MAX`.
pub fn read_u64(bytes: &[u8]) -> Option<u64>
    ensures { result ≡ read_u64 bytes.now }
{
    if bytes.len() > 20 || !has_digits_alone(bytes) {
        return None;
    }
    let digits = str::from_utf8(bytes).unwrap();
    digits.parse().ok()
}

fn has_digits_alone(bytes: &[u8]) -> bool
    ensures { result ≡ list_all is_ascii_digit bytes.now }
{
    bytes.iter().all(|b| b.is_ascii_digit())
}

/// Law: `read_u64` gives each number back from its `decimal` digits.
pub fn decimal_law()
    ensures { (n : ℕ) → n < 2 ^ 64 → read_u64 (fmt.decimal n) ≡ Some n }
{}
