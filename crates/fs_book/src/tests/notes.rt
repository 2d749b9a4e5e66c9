//! A state whose entries open numbers and name them.
ghost use Rattle.std.specs.Prelude.{◌≡◌, []};

use crate::{Ask, Book, Turned};
use std::alloc::Global;
use std::test::Fail;

// A note about no other opens the number that is its place. A heavy one stands for want of memory.
#[derive(Clone, Copy)]
pub struct Note {
    about: Option<u64>,
    heavy: bool,
}

#[derive(Clone, Copy, Debug, PartialEq, Eq)]
pub enum Reason {
    Full,
    Memory,
}

// It takes so many notes.
#[derive(Drop)]
pub struct Notes {
    limit: u64,
    log: Vec<Note>,
}

impl Turned for Notes {
    ghost use Rattle.std.specs.Prelude.{◌≡◌, ◌≤◌, length, is_none, MatchOption};
    ghost use Rattle.fs_book.specs.Numbered.{by_place, by_place_once};
    ghost use Rattle.fs_book.specs.declared.tests.notes.Reason.TheVariants.{Full, Memory};

    type Start = u64;

    type Entry = Note;

    type Logged = Note;

    type Answer = usize;

    type Refusal = Reason;

    ghost start = { λ notes. notes.limit };

    ghost journal = { λ notes. notes.log.items };

    ghost logged = { λ note. note };

    ghost fits = { λ _ _ _. Unit {0} };

    ghost answers = { λ _ log _ answer. answer ≡ length log };

    ghost refuses = { λ limit log _ reason. reason ≡ Full → limit ≤ length log };

    ghost opens = { λ _ log note. by_place (λ x. is_none x.about) log note };

    ghost names = { λ note. note.about };

    ghost opens_once = { by_place_once (λ x. is_none x.about) };

    ghost fits_longer = { λ _ _ _ _ _ fit. fit };

    fn turn(&mut self, entry: Note) -> Result<usize, Reason> {
        let place = self.log.len();
        if place as u64 >= self.limit {
            return Err(Reason::Full);
        }
        if entry.heavy || self.log.push(entry).is_err() {
            return Err(Reason::Memory);
        }
        Ok(place)
    }

    fn place(&self) -> u64 {
        self.log.len() as u64
    }
}

// How many notes there are.
struct HowMany;

impl Ask<Notes> for HowMany {
    ghost use Rattle.std.specs.Prelude.{◌≡◌, length};

    type Answer = usize;

    ghost tells = { λ _ _ log count. count ≡ length log };

    fn ask(&self, state: &Notes) -> usize {
        state.log.len()
    }
}

// An empty state that takes so many notes.
fn empty(alloc: Global, limit: u64) -> Notes
    ensures { result.log.items ≡ [] }
{
    Notes {
        limit,
        log: Vec::new(alloc),
    }
}

const OPENING: Note = Note {
    about: None,
    heavy: false,
};

const HEAVY: Note = Note {
    about: None,
    heavy: true,
};

#[test]
fn a_refused_entry_changes_nothing(rt: HostRuntime) -> Result<(), Fail> {
    let Ok((book, mut pass)) = Book::start(rt.alloc(), empty(rt.alloc(), 2)) else {
        return Err("a book starts".into());
    };
    let first = book.submit(&rt, &mut pass, OPENING);
    let heavy = book.submit(&rt, &mut pass, HEAVY);
    let count = book.look(&rt, &mut pass, &HowMany);
    let second = book.submit(&rt, &mut pass, OPENING);
    let third = book.submit(&rt, &mut pass, OPENING);
    let state = book.close(pass);
    assert_eq!(rt; first.map(|r| (r.place, r.answer)), Ok((0, 0)));
    assert_eq!(rt; heavy.map(|r| r.place), Err(Reason::Memory));
    assert_eq!(rt; count, 1);
    assert_eq!(rt; second.map(|r| r.place), Ok(1));
    assert_eq!(rt; third.map(|r| r.place), Err(Reason::Full));
    assert_eq!(rt; state.log.len(), 2);
    Ok(())
}

#[test]
fn who_opened_a_number_names_it(rt: HostRuntime) -> Result<(), Fail> {
    let Ok((book, mut pass)) = Book::start(rt.alloc(), empty(rt.alloc(), 9)) else {
        return Err("a book starts".into());
    };
    let Ok(opened) = book.submit(&rt, &mut pass, OPENING) else {
        return Err("a number is opened".into());
    };
    let about = Note {
        about: Some(opened.place),
        heavy: false,
    };
    let named = book.submit(&rt, &mut pass, about);
    assert_eq!(rt; (opened.place, named.map(|r| r.place)), (0, Ok(1)));
    let state = book.close(pass);
    assert_eq!(rt; state.log.len(), 2);
    Ok(())
}
