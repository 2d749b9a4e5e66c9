//! A search for the end of a head, or for its command line alone, line by line.

ghost use Rattle.std.specs.Prelude.{◌≡◌, ◌+◌, ◌<◌, ◌≤◌, ◌^◌, ℕ, false};
ghost use Rattle.std.specs.Prelude.{List, length, take, drop, None, MatchOption};
ghost use Rattle.std.specs.List.{list_any, position_or_len};
ghost use Rattle.fs_frame.specs.Lines.{is_lf, without_cr};
ghost use Rattle.fs_frame.specs.Front.{GoesOn, IsScanned, IsBehind, IsCommandAt, behind_end};

use crate::span::{CommandLine, Span};
use fs_text::offset_of;

const LF: u8 = b'\n';

const CR: u8 = b'\r';

/// Where a search for the end of a head stands.
#[derive(Clone, Copy)]
pub struct Scan {
    /// So many bytes were passed: whole lines, among which no head ends.
    pub passed: usize,
    /// So many bytes of the line at hand were searched, and none of them is LF.
    pub searched: usize,
    /// The command line, once it was passed.
    pub command: Option<CommandLine>,
}

/// What a search for the end of a head finds.
#[derive(Clone, Copy)]
pub enum Found {
    /// A head of this length, whose command line stands there.
    Head { len: usize, command: CommandLine },
    /// No end of a head. A search of more bytes goes on from here.
    Open { scan: Scan },
}

/// A line, as the numbers of its bytes.
#[derive(Clone, Copy)]
pub struct Line {
    /// The bytes of its text, which come first.
    pub text_len: usize,
    /// All its bytes, the end of the line among them.
    pub len: usize,
}

impl Scan {
    /// A search that stands behind so many bytes.
    pub fn at(passed: usize, command: Option<CommandLine>) -> Scan
        ensures { result ≡ record { passed = passed; searched = 0; command = command } }
    {
        Scan {
            passed,
            searched: 0,
            command,
        }
    }

    /// Goes behind the line at hand. It ends a head, or the search goes on behind it.
    pub fn behind(self, line: Line) -> Found
        requires { self.passed + line.len < 2 ^ 64 }
        ensures { (bytes : List ℕ) → IsScanned bytes self →
            GoesOn (drop self.passed bytes) line.text_len line.len → IsBehind bytes (self.passed + line.len) result }
    {
        let passed = self.passed + line.len;
        match (self.command, line.text_len) {
            (Some(command), 0) => Found::Head {
                len: passed,
                command,
            },
            (None, 0) => Found::Open {
                scan: Scan::at(passed, None),
            },
            (None, _) => Found::Open {
                scan: Scan::at(passed, Some(line.command_at(self.passed))),
            },
            _ => Found::Open {
                scan: Scan::at(passed, self.command),
            },
        }
    }
}

impl Line {
    /// The line as a command line that begins here.
    fn command_at(self, start: usize) -> CommandLine
        requires { start + self.len < 2 ^ 64 }
        ensures { result ≡ record { text = record { start = start; len = self.text_len }; end = start + self.len } }
    {
        CommandLine {
            text: Span {
                start,
                len: self.text_len,
            },
            end: start + self.len,
        }
    }
}

/// The first line that has a text.
pub fn find_command(bytes: &[u8]) -> CommandLine
    ensures { IsCommandAt bytes.now result }
{
    let mut start = 0;
    while let Some(line) = next_line(&bytes[start..], 0) {
        if line.text_len > 0 {
            return line.command_at(start);
        }
        start += line.len;
    }
    CommandLine {
        text: Span { start: 0, len: 0 },
        end: start,
    }
}

/// What stands behind the first line without a text, and nothing where there is none.
pub fn behind_empty(lines: &[u8]) -> &[u8]
    ensures { result.now ≡ behind_end lines.now }
{
    let mut left = lines;
    while let Some(line) = next_line(left, 0) {
        left = &left[line.len..];
        if line.text_len == 0 {
            return left;
        }
    }
    &[]
}

/// The line with which the bytes go on, of which the first `searched` are not LF.
pub fn next_line(bytes: &[u8], searched: usize) -> Option<Line>
    requires { searched ≤ position_or_len is_lf bytes.now }
    ensures { MatchOption result (list_any is_lf bytes.now ≡ false)
        (λ line. GoesOn bytes.now line.text_len line.len) }
{
    let (content, behind) = bytes.split_at(line_end(bytes, searched));
    if behind.is_empty() {
        return None;
    }
    Some(Line {
        text_len: text_len(content),
        len: content.len() + 1,
    })
}

// How many bytes stand before the first LF, or all where there is none.
fn line_end(bytes: &[u8], searched: usize) -> usize
    requires { searched ≤ position_or_len is_lf bytes.now }
    ensures offset { result ≡ position_or_len is_lf bytes.now }
    ensures within { result ≤ length bytes.now }
{
    searched + offset_of(LF, &bytes[searched..])
}

// How many bytes of a line's content are its text.
fn text_len(content: &[u8]) -> usize
    ensures text { without_cr content.now ≡ take result content.now }
    ensures within { result ≤ length content.now }
{
    match content {
        [text @ .., CR] => text.len(),
        _ => content.len(),
    }
}
