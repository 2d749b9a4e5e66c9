//! The rule by which the state passes from caller to caller.

ghost use Rattle.std.specs.Prelude.{ℕ};

use crate::turned::Turned;
use crate::view::View;
use atomic_table::{Join, Play, Seat, Split, Table, TableRule};
use std::alloc::Global;
use std::marker::{Brand, PhantomData};
use std::snapshot::Snapshot;

// The rule of the lock. Its key is the state with which the book started.
pub struct InTurn;

impl<M: Turned> TableRule<Option<M>, View<M::Start, M::Logged>, Snapshot<M>> for InTurn {
    ghost use Rattle.fs_book.specs.Turns.{Fair, opening_view};

    ghost holds = { λ key. Fair M.start M.journal M.opens M.names (M.start key.value) };

    ghost first = { λ key. opening_view (M.start key.value) };
}

pub type Desk<M> = Table<
    Option<M>,
    View<<M as Turned>::Start, <M as Turned>::Logged>,
    Snapshot<M>,
    InTurn,
    Global,
>;

pub type BookSeat<M> = Seat<Option<M>, View<<M as Turned>::Start, <M as Turned>::Logged>>;

// A ticket is drawn.
pub struct Draw;

impl<M: Turned> Play<Option<M>, View<M::Start, M::Logged>> for Draw {
    ghost use Rattle.fs_book.specs.Turns.{DrawsTicket};

    ghost then = { DrawsTicket M.start M.journal M.opens M.names };
}

// The turn is read, and the state taken where it is one's own turn.
pub struct Come;

impl<M: Turned> Play<Option<M>, View<M::Start, M::Logged>> for Come {
    ghost use Rattle.fs_book.specs.Turns.{ReadsTurn};

    ghost then = { ReadsTurn M.start M.journal M.opens M.names };
}

// The state is given back as it was, and the turn passed on.
pub struct Leave;

impl<M: Turned> Play<Option<M>, View<M::Start, M::Logged>> for Leave {
    ghost use Rattle.fs_book.specs.Turns.{LeavesTurn};

    ghost then = { LeavesTurn M.start M.journal M.opens M.names };
}

// The state is given back with one entry more, and the turn passed on.
pub struct Add;

impl<M: Turned> Play<Option<M>, View<M::Start, M::Logged>> for Add {
    ghost use Rattle.fs_book.specs.Turns.{LeavesLonger};

    ghost then = { LeavesLonger M.start M.journal M.opens M.names };
}

// A pass learns what a meeting could not tell it.
pub struct Learn;

impl<M: Turned> Play<Option<M>, View<M::Start, M::Logged>> for Learn {
    ghost use Rattle.fs_book.specs.Turns.{LearnsRule};

    ghost then = { LearnsRule M.start M.journal M.opens M.names };
}

// How many parts a split gives away. Each call picks it.
pub trait Count {
    ghost number: { ℕ };
}

impl Count for Brand {
    ghost number = { 0 };
}

pub struct Cut<N> {
    count: PhantomData<N>,
}

impl<B, E, N: Count> Split<View<B, E>> for Cut<N> {
    ghost use Rattle.fs_book.specs.Turns.{cut_left, cut_right};

    ghost left = { cut_left N.number };

    ghost right = { cut_right N.number };
}

// A pass is met into another.
pub struct Meet;

impl<B, E> Join<View<B, E>> for Meet {
    ghost use Rattle.fs_book.specs.Turns.{both, spent_view};

    ghost both = { both };

    ghost spent = { spent_view };
}
