//! A block that is lent.

ghost use Rattle.fs_frame.specs.Front.{IsCommandAt};

use crate::header::{BlockHeaders, is_named};
use crate::scan::{behind_empty, find_command};
use crate::span::{CommandLine, Span};

/// One block, lent from the buffer that found it.
#[derive(Clone, Copy, Debug)]
pub struct Block<'a> {
    bytes: &'a [u8],
    command: CommandLine,
    ghost command_is: { IsCommandAt bytes.now command },
}

impl<'a> Block<'a> {
    ghost use Rattle.std.specs.Prelude.{◌≡◌, option_map};
    ghost use Rattle.fs_frame.specs.Headers.{headers_of, header_in};
    ghost use Rattle.fs_frame.specs.Block.{line_of, body_of};
    ghost use Rattle.fs_frame.specs.Next.{bytes_of};

    /// The block that these bytes are. They were handed out before, and kept.
    pub fn of(bytes: &'a [u8]) -> Block<'a>
        ensures { bytes_of result ≡ bytes.now }
    {
        Block::cut(bytes, find_command(bytes))
    }

    /// The block of these bytes, whose command line stands there.
    pub(crate) fn cut(bytes: &'a [u8], command: CommandLine) -> Block<'a>
        requires { IsCommandAt bytes.now command }
        ensures { bytes_of result ≡ bytes.now }
    {
        Block { bytes, command }
    }

    /// All bytes of the block, with the empty lines in front, the ends of its lines and its body.
    pub fn bytes(&self) -> &'a [u8]
        ensures { result.now ≡ bytes_of self.now }
    {
        self.bytes
    }

    /// The text of the command line, without the line's end.
    pub fn line(&self) -> &'a [u8]
        ensures { result.now ≡ line_of (bytes_of self.now) }
    {
        let Span { start, len } = self.command.text;
        &self.bytes[start..start + len]
    }

    /// The names and the values of the header lines, in order. Blanks round a value, which are spaces, tabs and CRs,
    /// are left out of it, and a line without a colon is no header.
    pub fn headers(&self) -> BlockHeaders<'a>
        ensures { result ≡ headers_of (bytes_of self.now) }
    {
        BlockHeaders::among(&self.bytes[self.command.end..])
    }

    /// The value of the first header with this name, in which letters of either case are the same.
    pub fn header(&self, name: &[u8]) -> Option<&'a [u8]>
        ensures { option_map (λ value. value.now) result ≡ header_in name.now (bytes_of self.now) }
    {
        for (other, value) in self.headers() {
            if is_named(other, name) {
                return Some(value);
            }
        }
        None
    }

    /// The body: what stands behind the empty line that ends the head.
    pub fn body(&self) -> &'a [u8]
        ensures { result.now ≡ body_of (bytes_of self.now) }
    {
        behind_empty(&self.bytes[self.command.end..])
    }
}
