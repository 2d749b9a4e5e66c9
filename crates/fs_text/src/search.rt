//! The offset of a byte in a text.

ghost use Rattle.std.specs.Prelude.{◌≡◌, ◌==◌};
ghost use Rattle.std.specs.List.{position_or_len};

use memchr::memchr;

/// The offset of the first such byte in the text, or the length of the text where it has none.
pub fn offset_of(byte: u8, text: &[u8]) -> usize
    ensures { result ≡ position_or_len (λ b. b == byte) text.now }
{
    memchr(byte, text).unwrap_or(text.len())
}
