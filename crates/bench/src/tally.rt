//! A state that counts its entries, and answers each with the count.
ghost use Rattle.std.specs.Prelude.{◌≡◌};

use fs_book::Turned;

#[derive(Drop)]
pub struct Tally {
    count: u64,
}

// No further entry can be counted.
#[derive(Drop)]
pub struct Full;

impl Tally {
    pub fn new() -> Tally
        ensures { result.count ≡ 0 }
    {
        Tally { count: 0 }
    }

    pub fn count(&self) -> u64 {
        self.count
    }
}

impl Turned for Tally {
    ghost use Rattle.std.specs.Prelude.{◌≡◌, ◌+◌, false, replicate, length, None};
    ghost use Rattle.fs_book.specs.Numbered.{by_place, by_place_once};

    type Start = ();

    type Entry = ();

    type Logged = ();

    type Answer = u64;

    type Refusal = Full;

    ghost start = { λ _. tt };

    ghost journal = { λ tally. replicate tally.count tt };

    ghost logged = { λ entry. entry };

    ghost fits = { λ _ _ _. Unit {0} };

    ghost answers = { λ _ log _ answer. answer ≡ length log + 1 };

    ghost refuses = { λ _ _ _ _. Unit {0} };

    ghost opens = { λ _ log entry. by_place (λ _. false) log entry };

    ghost names = { λ _. None };

    ghost opens_once = { by_place_once (λ _. false) };

    ghost fits_longer = { λ _ _ _ _ _ fit. fit };

    fn turn(&mut self, _entry: ()) -> Result<u64, Full> {
        if self.count == u64::MAX {
            return Err(Full);
        }
        self.count += 1;
        Ok(self.count)
    }

    fn place(&self) -> u64 {
        self.count
    }
}
