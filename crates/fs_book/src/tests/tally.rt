//! A state that counts its entries.
ghost use Rattle.std.specs.Prelude.{◌≡◌, []};

use crate::{Ask, Turned};
use fs_text::Memory;
use std::alloc::Global;

#[derive(Drop)]
pub struct Tally {
    pub log: Vec<u64>,
}

impl Tally {
    pub fn new(alloc: Global) -> Tally
        ensures { result.log.items ≡ [] }
    {
        Tally {
            log: Vec::new(alloc),
        }
    }
}

impl Turned for Tally {
    ghost use Rattle.std.specs.Prelude.{◌≡◌, ◌+◌, false, length, None};
    ghost use Rattle.fs_book.specs.Numbered.{by_count, by_count_once};

    type Start = ();

    type Entry = u64;

    type Logged = u64;

    type Answer = u64;

    type Refusal = Memory;

    ghost start = { λ _. tt };

    ghost journal = { λ tally. tally.log.items };

    ghost logged = { λ entry. entry };

    ghost fits = { λ _ _ _. Unit {0} };

    ghost answers = { λ _ log _ answer. answer ≡ length log + 1 };

    ghost refuses = { λ _ _ _ _. Unit {0} };

    ghost opens = { λ _ log entry. by_count (λ _. false) log entry };

    ghost names = { λ _. None };

    ghost opens_once = { by_count_once (λ _. false) };

    ghost fits_longer = { λ _ _ _ _ _ fit. fit };

    fn turn(&mut self, entry: u64) -> Result<u64, Memory> {
        self.log.push(entry)?;
        Ok(self.log.len() as u64)
    }

    fn place(&self) -> u64 {
        self.log.len() as u64
    }
}

// How many entries there are.
pub struct HowMany;

impl Ask<Tally> for HowMany {
    ghost use Rattle.std.specs.Prelude.{◌≡◌, length};

    type Answer = u64;

    ghost tells = { λ _ _ log count. count ≡ length log };

    fn ask(&self, state: &Tally) -> u64 {
        state.log.len() as u64
    }
}
