//! What the words of a case stand for.

use crate::answer::Answer;
use crate::words::{cut, length_of, number_of};
use fs_text::{Memory, Txt};
use percent_encoding::percent_decode;
use std::alloc::{AllocError, Global};

impl Answer {
    /// The bytes that a text stands for: `%0A` is a line end.
    pub fn bytes_of(&mut self, text: &str) -> Vec<u8> {
        let mut bytes = Vec::new(self.alloc());
        self.add_bytes(text, &mut bytes);
        bytes
    }

    /// Adds the bytes that a text stands for.
    pub fn add_bytes(&mut self, text: &str, bytes: &mut Vec<u8>) {
        let done = percent_decode(text.as_bytes()).append_to(bytes);
        self.note(done);
    }

    /// Adds bytes so many times.
    pub fn add_times(&mut self, more: &[u8], times: usize, bytes: &mut Vec<u8>) {
        for _ in 0..times {
            let done = bytes.extend_from_slice(more);
            self.note(done);
        }
    }

    /// The bytes of a text so many times.
    pub fn repeated(&mut self, text: &str, times: usize) -> Vec<u8> {
        let more = self.bytes_of(text);
        let mut bytes = Vec::new(self.alloc());
        self.add_times(&more, times, &mut bytes);
        bytes
    }

    /// Adds the bytes of `COUNT TEXT`: the text so many times.
    pub fn add_counted(&mut self, rest: &str, bytes: &mut Vec<u8>) {
        let (count, text) = cut(rest);
        let more = self.bytes_of(text);
        self.add_times(&more, length_of(count), bytes);
    }

    /// The text that a text stands for.
    pub fn text_of(&mut self, text: &str) -> Result<Txt, Memory> {
        Txt::from_vec(self.bytes_of(text))
    }

    /// Puts the text that a text stands for in the place of another.
    pub fn set_text(&mut self, text: &str, other: &mut Txt) {
        match self.text_of(text) {
            Ok(text) => *other = text,
            Err(memory) => self.want(memory),
        }
    }

    /// Adds the numbers between spaces.
    pub fn add_numbers(&mut self, words: &str, numbers: &mut Vec<u64>) {
        for word in words.split_whitespace() {
            let done = numbers.push(number_of(word));
            self.note(done);
        }
    }

    /// Adds the places between spaces.
    pub fn add_places(&mut self, words: &str, places: &mut Vec<usize>) {
        for word in words.split_whitespace() {
            let done = places.push(length_of(word));
            self.note(done);
        }
    }

    /// A text with so many `1` in place of each `~`.
    pub fn lengthened(&mut self, times: usize, text: &str) -> String {
        let made = lengthened(self.alloc(), times, text);
        self.kept(made)
    }

    // What was made; an empty text where memory was wanting, which is noted.
    fn kept(&mut self, made: Result<String, AllocError>) -> String {
        match made {
            Ok(text) => text,
            Err(_) => {
                self.want(Memory);
                String::new(self.alloc())
            }
        }
    }
}

// A text with so many `1` in place of each `~`.
fn lengthened(alloc: Global, times: usize, text: &str) -> Result<String, AllocError> {
    let word = "1".repeat(alloc, times)?;
    text.replace(alloc, '~', &word)
}
