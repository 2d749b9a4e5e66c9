//! The answers in what is written.

use case_desk::{Answer, is_line_end};
use fs_text::cut_at;

/// Adds what was written but for the headers of its frames.
pub(crate) fn tell_answers(written: &[u8], answer: &mut Answer) {
    for line in written.split(is_line_end) {
        let text = without_header(line);
        if !text.is_empty() {
            answer.line_of(text);
        }
    }
}

/// What stands in front of a header of a frame: an answer without a line end has the next frame behind it.
pub(crate) fn without_header(line: &[u8]) -> &[u8] {
    if line.starts_with(b"Reply-Text: ") || line.starts_with(b"Job-UUID: ") {
        return b"";
    }
    let (name, _value) = cut_at(b':', line);
    match name.strip_suffix(b"Content-Type") {
        Some(text) => text,
        None => name.strip_suffix(b"Content-Length").unwrap_or(line),
    }
}
