//! Why no further block can come.

/// Why no block stands in front of what was fed, and none can come.
#[derive(Clone, Copy, Debug)]
pub enum Fault {
    /// The block in front is longer than a block may be. `len` is the number of its bytes, or of the bytes that were
    /// looked at where its head does not end among them.
    TooLong { len: u64 },
    /// The `Content-Length` of the block in front is not 1 to 10 digits.
    BadLength,
}
