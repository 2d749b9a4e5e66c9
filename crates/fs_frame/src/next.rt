//! The answer of the buffer.

use crate::block::Block;

/// What the buffer answers when it is asked for the next block.
#[derive(Clone, Copy, Debug)]
pub enum Next<'a> {
    /// The block in front of what was fed.
    Block(Block<'a>),
    /// No whole block stands in front, and one may come with what is fed next.
    NeedMore,
    /// No whole block stands in front, and none can come: head and body are more than 65,536 bytes, and `len` is their
    /// number; or the first 65,536 of 65,537 bytes hold no end of a head, and `len` is 65,537. Every later answer is
    /// the same.
    TooLong { len: u64 },
    /// No whole block stands in front, and none can come: the `Content-Length` of its head is not 1 to 10 digits. Every
    /// later answer is the same.
    BadLength,
}
