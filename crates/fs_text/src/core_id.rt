//! The identifiers of a switch.

ghost use Rattle.std.specs.Prelude.{◌≡◌, ◌<◌, ◌≤◌, ◌^◌, ◌↔◌, ℕ, Some, IsTrue, IfOk, length};
ghost use Rattle.fs_text.specs.CoreId.{IsCore, IsCoreText, Owns, owns, uuid_text, high_of, uuid, default_core};

use crate::memory::Memory;
use crate::text::Txt;
use std::alloc::Global;
use std::marker::Model;
use uuid::Uuid;

/// The low half of a switch's first identifier: 2^63, which is the variant of RFC 9562.
const FIRST: u64 = 1 << 63;

/// The identifier of a switch, of which it makes all others: a UUID of RFC 9562, version 8, that
/// ends in `8000-000000000000`.
///
/// A contract sees it as its high 64 bits, a number.
#[derive(Clone, Copy, Debug, PartialEq, Eq)]
pub struct CoreId {
    high: u64,
}

impl Model for CoreId {
    ghost use Rattle.std.specs.Prelude.{ℕ};

    ghost Value = { ℕ };

    ghost use Rattle.fs_text.specs.CoreId.{IsCore};

    ghost view = { λ c. c.high };

    ghost invariant = { λ c. IsCore c.high };

    ghost inverse = { λ high. record { high = high } };
}

impl CoreId {
    /// The identifier that this text says.
    ///
    /// It is some exactly for 36 bytes of hyphenated lower-case hexadecimal digits, of version 8,
    /// that end in `8000-000000000000`.
    pub fn of_text(text: &[u8]) -> Option<CoreId>
        ensures { (core : ℕ) → (result ≡ Some core) ↔ IsCoreText core text.now }
    {
        let high = high_half(text)?;
        let mut buffer = Uuid::encode_buffer();
        if (high >> 12) % 16 == 8 && hyphenated(high, FIRST, &mut buffer).as_bytes() == text {
            Some(CoreId { high })
        } else {
            None
        }
    }

    /// The text of the switch's identifier of this number: the high half is its own, the low half
    /// 2^63 and the number.
    pub fn uuid(&self, alloc: Global, n: u64) -> Result<Txt, Memory>
        requires { n < 2 ^ 62 }
        ensures { IfOk result (λ t. t ≡ uuid self.now n) }
    {
        let mut buffer = Uuid::encode_buffer();
        Txt::of(alloc, self.uuid_in(n, &mut buffer).as_bytes())
    }

    /// The same text, written into a buffer of at least 36 bytes. Takes no memory.
    pub fn uuid_in<'a>(&self, n: u64, buffer: &'a mut [u8]) -> &'a str
        requires number { n < 2 ^ 62 }
        requires room { 36 ≤ length buffer.old }
        ensures { result.now ≡ uuid self.now n }
    {
        hyphenated(self.high, FIRST + n, buffer)
    }

    /// Whether a text is a UUID, in any of its forms, whose high half is this switch's.
    pub fn owns(&self, text: &[u8]) -> bool
        ensures exact { result ≡ owns self.now text.now }
        ensures tells { IsTrue result ↔ Owns self.now text.now }
    {
        high_half(text) == Some(self.high)
    }

    /// Law: a core identifier is of version 8.
    pub fn core_law(&self)
        ensures { IsCore self.now }
    {
        let _ = &self.high;
    }

    /// Law: the identifiers of one core differ where their numbers do, and the core owns them.
    pub fn uuid_law()
        ensures tells { (core m n : ℕ) → m < 2 ^ 62 → n < 2 ^ 62 → uuid core m ≡ uuid core n → m ≡ n }
        ensures owned { (core n : ℕ) → IsCore core → n < 2 ^ 62 → Owns core (uuid core n) }
    {}
}

/// The identifier of a switch whose configuration names none:
/// `46530000-0000-8000-8000-000000000000`.
impl Default for CoreId {
    ghost is_default = { λ c. c ≡ default_core };

    fn default() -> CoreId {
        CoreId {
            high: 0x4653_0000_0000_8000,
        }
    }
}

/// The lower-case hyphenated text of the UUID with these halves.
fn hyphenated(high: u64, low: u64, buffer: &mut [u8]) -> &str
    requires { 36 ≤ length buffer.old }
    ensures { result.now ≡ uuid_text high low }
{
    Uuid::from_u64_pair(high, low)
        .hyphenated()
        .encode_lower(buffer)
}

/// The high half of the UUID that a text says in one of its forms.
fn high_half(text: &[u8]) -> Option<u64>
    ensures { result ≡ high_of text.now }
{
    let id = Uuid::try_parse_ascii(text).ok()?;
    Some(id.as_u64_pair().0)
}
