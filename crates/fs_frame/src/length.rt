//! The length that a head declares for the body behind it.

ghost use Rattle.std.specs.Prelude.{◌≡◌};
ghost use Rattle.fs_frame.specs.Headers.{declared_by, length_in};
ghost use Rattle.fs_frame.specs.Next.{bytes_of};

use crate::block::Block;
use fs_text::read_u64;

/// How many digits a length may have.
const MOST_DIGITS: usize = 10;

/// What the `Content-Length` of a head declares for the body behind it.
#[derive(Clone, Copy, Debug)]
pub enum Declared {
    /// So many bytes; none where the head does not have that header.
    Length(u64),
    /// It is not 1 to 10 digits.
    Malformed,
}

/// What this head declares.
pub fn declared_in(head: &Block<'_>) -> Declared
    ensures { result ≡ declared_by (bytes_of head.now) }
{
    match head.header(b"Content-Length") {
        Some(value) => read_length(value),
        None => Declared::Length(0),
    }
}

// The length that a value says.
fn read_length(value: &[u8]) -> Declared
    ensures { result ≡ length_in value.now }
{
    if value.len() > MOST_DIGITS {
        return Declared::Malformed;
    }
    match read_u64(value) {
        Some(length) => Declared::Length(length),
        None => Declared::Malformed,
    }
}
