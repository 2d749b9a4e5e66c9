//! Where the command line of a block stands.

/// A part of some bytes.
#[derive(Clone, Copy, Debug)]
pub struct Span {
    /// How many bytes stand before it.
    pub start: usize,
    /// How many bytes it has.
    pub len: usize,
}

/// Where a command line stands in some bytes.
#[derive(Clone, Copy, Debug)]
pub struct CommandLine {
    /// Its text, without the end of the line.
    pub text: Span,
    /// The lines behind it begin here.
    pub end: usize,
}
