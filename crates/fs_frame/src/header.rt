//! The header lines of a block.

ghost use Rattle.std.specs.Prelude.{◌≡◌, ◌<◌, length, option_map, IfSome};
ghost use Rattle.std.specs.Iterator.{at_most};
ghost use Rattle.std.specs.Map.Iter.{TakesFirst};
ghost use Rattle.std.specs.Str.{str_eq_ignore_ascii_case};
ghost use Rattle.fs_frame.specs.Lines.{lines_of};
ghost use Rattle.fs_frame.specs.Headers as spec;
ghost use Rattle.fs_frame.specs.Front.{first_of};

use crate::scan::next_line;
use fs_text::split_at_byte;
use std::marker::Model;

/// The headers of a block, one after another: their names, and their values without the blanks round them.
///
/// Both are slices of the block. A contract sees those that are still to come.
#[derive(Drop)]
pub struct BlockHeaders<'a> {
    lines: &'a [u8],
}

impl<'a> Model for BlockHeaders<'a> {
    ghost use Rattle.std.specs.Prelude.{List};
    ghost use Rattle.fs_text.specs.Texts.{Text};
    ghost use Rattle.fs_frame.specs.Lines.{lines_of};
    ghost use Rattle.fs_frame.specs.Headers.{headers_among};

    ghost Value = { List (Text × Text) };

    ghost view = { λ h. headers_among (lines_of h.lines.now) };
}

impl<'a> BlockHeaders<'a> {
    /// The headers of these lines, up to the first without a text.
    pub(crate) fn among(lines: &'a [u8]) -> BlockHeaders<'a>
        ensures { result ≡ spec.headers_among (lines_of lines.now) }
    {
        BlockHeaders { lines }
    }
}

impl<'a> Iterator for BlockHeaders<'a> {
    type Item = (&'a [u8], &'a [u8]);

    ghost next_gives = { TakesFirst (λ header. (header.0.now, header.1.now)) };

    ghost remaining = { λ headers. at_most (length headers) };

    fn next(&mut self) -> Option<(&'a [u8], &'a [u8])> {
        let (header, behind) = first_header(self.lines);
        self.lines = behind;
        header
    }
}

/// Whether a name is this one, whatever the case of its letters.
pub fn is_named(name: &[u8], asked: &[u8]) -> bool
    ensures { result ≡ str_eq_ignore_ascii_case name.now asked.now }
{
    name.eq_ignore_ascii_case(asked)
}

// The first header of the lines, if there is one, and the lines that are left.
fn first_header(lines: &[u8]) -> (Option<(&[u8], &[u8])>, &[u8])
    ensures { TakesFirst (λ header. (header.0.now, header.1.now)) (spec.headers_among (lines_of lines.now)) result.0
        (spec.headers_among (lines_of result.1.now)) }
{
    let mut left = lines;
    while let Some((text, behind)) = first_text(left) {
        left = behind;
        if let Some(header) = header_of(text) {
            return (Some(header), left);
        }
    }
    (None, left)
}

// The text of the first line, and the lines behind it, if there is one and it has a text.
fn first_text(lines: &[u8]) -> Option<(&[u8], &[u8])>
    ensures parts { option_map (λ parts. (parts.0.now, parts.1.now)) result ≡ first_of (lines_of lines.now) lines.now }
    ensures shorter { IfSome result (λ parts. length parts.1.now < length lines.now) }
{
    let line = next_line(lines, 0)?;
    if line.text_len == 0 {
        return None;
    }
    Some((&lines[..line.text_len], &lines[line.len..]))
}

// The name and the value of a header line with this text, if it is one.
#[tactic(auto, unfolding(crate::specs::Headers::header_of))]
fn header_of(text: &[u8]) -> Option<(&[u8], &[u8])>
    ensures { option_map (λ header. (header.0.now, header.1.now)) result ≡ spec.header_of text.now }
{
    let (name, value) = split_at_byte(b':', text)?;
    Some((name, trimmed(value)))
}

// The text without the blanks round it.
fn trimmed(text: &[u8]) -> &[u8]
    ensures { result.now ≡ spec.trimmed text.now }
{
    up_to_last(from_first(text))
}

// The text without the blanks in front.
fn from_first(text: &[u8]) -> &[u8]
    ensures { result.now ≡ spec.from_first text.now }
{
    let mut left = text;
    while let [first, behind @ ..] = left {
        if !is_blank(*first) {
            return left;
        }
        left = behind;
    }
    left
}

// The text without the blanks at its end.
fn up_to_last(text: &[u8]) -> &[u8]
    ensures { result.now ≡ spec.up_to_last text.now }
{
    let mut left = text;
    while let [before @ .., last] = left {
        if !is_blank(*last) {
            return left;
        }
        left = before;
    }
    left
}

// Whether the byte is a space, a tab, a CR or an LF.
fn is_blank(byte: u8) -> bool
    ensures { result ≡ spec.is_blank byte }
{
    byte == b' ' || byte == b'\t' || byte == b'\r' || byte == b'\n'
}
