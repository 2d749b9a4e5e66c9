//! The answer to a case: lines that are indented, with `%XX` for a byte that is no sign or mark of ASCII.

ghost use Rattle.std.specs.Prelude.{◌≡◌, Ok, IfSome};

use fs_text::Memory;
use percent_encoding::{AsciiSet, CONTROLS, ascii_set, percent_encode};
use std::alloc::Global;
use std::fmt::{Debug, Display};

const ESCAPED: AsciiSet = ascii_set!(CONTROLS.add(b'%'));

/// The text that is printed for a line of the input. It notes whether memory was wanting for a part of it, which is
/// asked once, at the end: whoever adds to it need not ask.
#[derive(Drop)]
pub struct Answer {
    alloc: Global,
    text: String,
    wanting: bool,
}

impl Answer {
    pub fn new(alloc: Global) -> Answer {
        Answer {
            alloc,
            text: String::new(alloc),
            wanting: false,
        }
    }

    /// Where the memory for a case comes from.
    pub fn alloc(&self) -> Global {
        self.alloc
    }

    /// Its bytes.
    pub fn bytes(&self) -> &[u8] {
        self.text.as_bytes()
    }

    /// Whether memory was wanting for a part of it.
    pub fn is_wanting(&self) -> bool {
        self.wanting
    }

    /// Notes whether memory was wanting for something.
    pub fn note<T: Drop, E: Drop>(&mut self, done: Result<T, E>) {
        if done.is_err() {
            self.wanting = true;
        }
    }

    /// What was made, if there was memory for it. Otherwise that is noted.
    pub fn made<T: Drop>(&mut self, made: Result<T, Memory>) -> Option<T>
        ensures { IfSome result (λ value. made ≡ Ok value) }
    {
        match made {
            Ok(value) => Some(value),
            Err(memory) => {
                self.want(memory);
                None
            }
        }
    }

    /// Notes that memory was wanting.
    pub fn want(&mut self, _memory: Memory) {
        self.wanting = true;
    }

    /// Begins an indented line.
    pub fn begin(&mut self) {
        self.put("  ");
    }

    /// Ends the line.
    pub fn end(&mut self) {
        self.put("\n");
    }

    /// Adds a text to the line as it is.
    pub fn put(&mut self, text: &str) {
        let done = self.text.push_str(text);
        self.note(done);
    }

    /// Adds bytes to the line.
    pub fn add(&mut self, bytes: &[u8]) {
        let done = percent_encode(bytes, ESCAPED).append_to(&mut self.text);
        self.note(done);
    }

    /// Adds bytes in brackets to the line.
    pub fn bracket(&mut self, bytes: &[u8]) {
        self.put(" [");
        self.add(bytes);
        self.put("]");
    }

    /// Adds what shows a value to the line.
    pub fn show<D: Display + Drop>(&mut self, value: D) {
        let done = write!(self.text, "{value}");
        self.note(done);
    }

    /// Adds an indented line of this text.
    pub fn line(&mut self, text: &str) {
        self.begin();
        self.put(text);
        self.end();
    }

    /// Adds an indented line of these bytes.
    pub fn line_of(&mut self, bytes: &[u8]) {
        self.begin();
        self.add(bytes);
        self.end();
    }

    /// Adds an indented line that shows a value.
    pub fn told<D: Display + Drop>(&mut self, value: D) {
        self.begin();
        self.show(value);
        self.end();
    }

    /// Adds an indented line that shows a value as it is made.
    pub fn shown<D: Debug + Drop>(&mut self, value: D) {
        self.begin();
        let done = write!(self.text, "{value:?}");
        self.note(done);
        self.end();
    }

    /// Adds an indented line of a text and of bytes behind it.
    pub fn pair(&mut self, name: &str, bytes: &[u8]) {
        self.begin();
        self.put(name);
        self.put(" ");
        self.add(bytes);
        self.end();
    }

    /// Adds an indented line of a name, and of bytes in brackets.
    pub fn named(&mut self, name: &str, bytes: &[u8]) {
        self.begin();
        self.put(name);
        self.bracket(bytes);
        self.end();
    }

    /// Adds an indented line of a name, and of two in brackets.
    pub fn named_two(&mut self, name: &str, first: &[u8], second: &[u8]) {
        self.begin();
        self.put(name);
        self.bracket(first);
        self.bracket(second);
        self.end();
    }

    /// Adds an indented line of a name, and of three in brackets.
    pub fn named_three(&mut self, name: &str, first: &[u8], second: &[u8], third: &[u8]) {
        self.begin();
        self.put(name);
        self.bracket(first);
        self.bracket(second);
        self.bracket(third);
        self.end();
    }

    /// Adds an indented line of a name and a value, with a text between them.
    pub fn header(&mut self, name: &[u8], between: &str, value: &[u8]) {
        self.begin();
        self.add(name);
        self.put(between);
        self.add(value);
        self.end();
    }

    /// Adds a text of several lines, each of them indented, and says where its last one has no end. An empty text has
    /// none.
    pub fn lines(&mut self, bytes: &[u8]) {
        for line in bytes.split_inclusive(is_line_end) {
            self.line_in(line);
        }
    }

    fn line_in(&mut self, line: &[u8]) {
        match line.strip_suffix(b"\n") {
            Some(line) => self.line_of(line),
            None => {
                self.line_of(line);
                self.line("(no line end)");
            }
        }
    }
}

/// Whether a byte ends a line.
pub fn is_line_end(byte: &u8) -> bool {
    *byte == b'\n'
}
