//! A book begins and ends.
ghost use Rattle.std.specs.Prelude.{◌≡◌, ℕ, ◌^◌, [], ◌∷◌, length, Some, IfOk, IfErr};
ghost use Rattle.fs_book.specs.Counts.{total, times, once_below};
ghost use Rattle.fs_book.specs.Opened.{Owned};
ghost use Rattle.fs_book.specs.Passes.{seen, mine, met, parts, opening_state, IsFirstPass, IsPassOf};

use crate::book::Book;
use crate::pass::Pass;
use crate::rule::Desk;
use crate::turned::Turned;
use atomic_table::{Refused, Table};
use fs_text::Memory;
use std::alloc::{AllocFailed, Global};
use std::snapshot::Snapshot;
use std::sync::Mutex;

// How many parts all passes of a book have together.
const ALL_PARTS: u64 = 1 << 62;

impl<M: Turned> Book<M> {
    /// A book with this state, and the pass that has all parts. Where there is no memory the state comes back.
    pub fn start(alloc: Global, state: M) -> Result<(Book<M>, Pass<M>), (Memory, M)>
        requires { M.journal state ≡ [] }
        ensures ok { IfOk result (λ r. IsPassOf M.start r.0 r.1 × (opening_state r.0 ≡ state) × IsFirstPass r.1) }
        ensures err { IfErr result (λ r. r.1 ≡ state) }
    {
        let about = Snapshot::of(&state);
        let slots = slot_of(alloc, state)?;
        match Table::new(alloc, &[0, 0], slots, &about) {
            Ok((desk, seat)) => Ok((
                Book {
                    desk,
                    entrance: Mutex::new(()),
                },
                Pass {
                    seat,
                    parts: ALL_PARTS,
                },
            )),
            Err(Refused { slots }) => Err((Memory, state_in(slots))),
        }
    }

    /// Ends the book, and gives the state. The pass that has all parts is the only one.
    pub fn close(self, pass: Pass<M>) -> M
        requires book { IsPassOf M.start self pass }
        requires whole { parts pass ≡ 2 ^ 62 }
        ensures start { M.start result ≡ M.start (opening_state self) }
        ensures journal { M.journal result ≡ seen pass }
        ensures owned { Owned M.opens M.names (Some (M.start result)) (mine pass ∷ met pass) (M.journal result) }
        ensures lists { (p : ℕ) → total (times p) (mine pass ∷ met pass) ≡ once_below p (length (seen pass)) }
    {
        let Book { desk, entrance: _ } = self;
        let Pass { seat, parts: _ } = pass;
        let mut closed = desk.close_with(seat);
        let slot = closed.take(0);
        closed.free();
        let Some(state) = slot else { unreachable!() };
        state
    }
}

// The one slot, with the state in it.
fn slot_of<M: Turned>(alloc: Global, state: M) -> Result<Vec<Option<M>>, (Memory, M)>
    ensures ok { IfOk result (λ slots. slots.items ≡ Some state ∷ []) }
    ensures err { IfErr result (λ r. r.1 ≡ state) }
{
    let mut slots = Vec::new(alloc);
    match slots.push(Some(state)) {
        Ok(()) => Ok(slots),
        Err(AllocFailed { value }) => {
            let Some(state) = value else { unreachable!() };
            Err((Memory, state))
        }
    }
}

// The state in the one slot.
fn state_in<M: Turned>(mut slots: Vec<Option<M>>) -> M
    requires { (state : M) × (slots.items ≡ Some state ∷ []) }
    ensures { slots.items ≡ Some result ∷ [] }
{
    let Some(Some(state)) = slots.pop() else {
        unreachable!()
    };
    state
}
