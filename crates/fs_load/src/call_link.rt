//! A link that makes its input as it is read.

ghost use Rattle.std.specs.Prelude.{◌≡◌};
ghost use Rattle.fs_load.specs.Calls.{load_input, input_left, dropped};

use crate::commands::Commands;
use crate::texts::AUTH;
use fs_ports::{Link, Port, Read, Sink, Source, Write};
use std::marker::Model;

/// A link over which so many calls are made and hung up again. It keeps the commands in hand and the number from which
/// the next call is made, and drops what is written. No read and no write fails.
///
/// A contract sees it as the bytes that are left of its input.
#[derive(Drop)]
pub struct CallLink {
    in_hand: &'static [u8],
    to_come: Commands,
}

impl Model for CallLink {
    ghost use Rattle.std.specs.Prelude.{ℕ, List, ◌++◌};

    ghost Value = { List ℕ };

    ghost view = { λ l. l.in_hand.now ++ l.to_come };
}

impl CallLink {
    /// A link of so many calls, of which the first is made from the number behind `start`.
    #[tactic(auto, unfolding(crate::specs::Calls::auth_text))]
    pub fn new(calls: u64, start: u64) -> CallLink
        ensures { result ≡ load_input calls start }
    {
        CallLink {
            in_hand: AUTH.as_bytes(),
            to_come: Commands::of_calls(calls, start),
        }
    }
}

impl Port for CallLink {
    ghost input = { input_left };

    ghost output = { λ left. dropped };
}

impl Source for CallLink {
    fn read(&mut self, buf: &mut [u8]) -> Read {
        if self.in_hand.is_empty() {
            match self.to_come.next() {
                Some(text) => self.in_hand = text.as_bytes(),
                None => return Read::End,
            }
        }
        let n = self.in_hand.len().min(buf.len());
        let (front, behind) = self.in_hand.split_at(n);
        buf[..n].copy_from_slice(front);
        self.in_hand = behind;
        Read::Got(n)
    }

    fn waits(&self) -> bool {
        true
    }
}

impl Sink for CallLink {
    fn write(&mut self, bytes: &[u8]) -> Write {
        Write::Took(bytes.len())
    }
}

impl Link for CallLink {}
