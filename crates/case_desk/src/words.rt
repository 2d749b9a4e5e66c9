//! The words of a case.

use fs_text::read_u64;

/// What stands in front of the first space, and what stands behind it.
pub fn cut(line: &str) -> (&str, &str) {
    line.split_once(' ').unwrap_or((line, ""))
}

/// The number of a word, 0 where it is none.
pub fn number_of(word: &str) -> u64 {
    read_u64(word.as_bytes()).unwrap_or(0)
}

/// That as a length.
pub fn length_of(word: &str) -> usize {
    number_of(word) as usize
}

/// That as a slot, 0 where it is none.
pub fn slot_of(word: &str) -> u16 {
    u16::try_from(number_of(word)).unwrap_or(0)
}
