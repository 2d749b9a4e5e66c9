//! What is left of a journal's text, and the words and numbers in front of it.

ghost use Rattle.std.specs.Prelude.{◌≡◌, ◌<◌, ◌≤◌, length, drop, take, position, if◌then◌else◌, IfSome, IfNone};
ghost use Rattle.std.specs.List.{position_or_len};
ghost use Rattle.fs_replay.specs.Reading as spec;

use fs_text::read_u64;
use std::marker::Model;

/// The bytes that are left. A contract sees them as a list.
#[derive(Drop)]
pub(crate) struct Reader<'a> {
    left: &'a [u8],
}

impl<'a> Model for Reader<'a> {
    ghost use Rattle.std.specs.Prelude.{ℕ, List};

    ghost Value = { List ℕ };

    ghost view = { λ r. r.left.now };
}

impl<'a> Reader<'a> {
    /// All of these bytes are left.
    pub fn of(bytes: &'a [u8]) -> Reader<'a>
        ensures { result ≡ bytes.now }
    {
        Reader { left: bytes }
    }

    /// What is left.
    pub fn left(&self) -> &'a [u8]
        ensures { result.now ≡ self.now }
    {
        self.left
    }

    /// Whether the word stands in front.
    pub fn begins(&self, word: &[u8]) -> bool
        ensures { result ≡ spec.begins word.now self.now }
    {
        self.left.starts_with(word)
    }

    /// Takes the word off the front, where it stands there.
    pub fn word(&mut self, word: &[u8]) -> bool
        ensures found { result ≡ spec.begins word.now self.old }
        ensures left { self.new ≡ (if result then drop (length word.now) self.old else self.old) }
    {
        if !self.left.starts_with(word) {
            return false;
        }
        self.left = &self.left[word.len()..];
        true
    }

    /// Takes a byte.
    pub fn letter(&mut self) -> Option<u8>
        ensures { spec.Took result self.new (spec.letter_at self.old) }
    {
        let (letter, behind) = self.left.split_first()?;
        self.left = behind;
        Some(*letter)
    }

    /// Takes so many bytes, where more are left.
    pub fn bytes(&mut self, len: u64) -> Option<&'a [u8]>
        ensures some { IfSome result (λ bytes. len < length self.old
            × (bytes.now ≡ take len self.old) × (self.new ≡ drop len self.old)) }
        ensures none { IfNone result (length self.old ≤ len) }
    {
        if self.left.len() as u64 <= len {
            return None;
        }
        let (bytes, behind) = self.left.split_at(len as usize);
        self.left = behind;
        Some(bytes)
    }

    /// Takes a number and the space in front of it.
    #[tactic(auto, unfolding(crate::specs::Reading::field_at))]
    pub fn field(&mut self) -> Option<u64>
        ensures { spec.Took result self.new (spec.field_at self.old) }
    {
        if !self.word(b" ") {
            return None;
        }
        let (digits, behind) = self.left.split_at(digits_len(self.left));
        self.left = behind;
        number_of(digits)
    }

    /// Takes the number of a connection and the space in front of it.
    pub fn conn(&mut self) -> Option<u32>
        ensures { spec.Took result self.new (spec.conn_at self.old) }
    {
        u32::try_from(self.field()?).ok()
    }

    /// Takes the number of a slot and the space in front of it.
    pub fn slot(&mut self) -> Option<u16>
        ensures { spec.Took result self.new (spec.slot_at self.old) }
    {
        u16::try_from(self.field()?).ok()
    }
}

/// How many digits stand in front.
fn digits_len(bytes: &[u8]) -> usize
    ensures len { result ≡ position_or_len spec.is_other bytes.now }
    ensures within { result ≤ length bytes.now }
{
    first_other(bytes).unwrap_or(bytes.len())
}

/// The offset of the first byte that is no digit.
fn first_other(bytes: &[u8]) -> Option<usize>
    ensures { result ≡ position spec.is_other bytes.now }
{
    bytes.iter().position(|byte| !byte.is_ascii_digit())
}

/// The number of these digits, if they are digits without leading zeros and it is in range.
fn number_of(digits: &[u8]) -> Option<u64>
    ensures { result ≡ spec.number_of digits.now }
{
    if digits.len() > 1 && digits[0] == b'0' {
        return None;
    }
    read_u64(digits)
}
