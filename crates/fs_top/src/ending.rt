//! How a server comes to its end, as looks find it.

ghost use Rattle.std.specs.Prelude.{◌≡◌, true};
ghost use mathlib.Core.List.{IsPrefix};
ghost use Rattle.fs_book.specs.Passes.{seen, mine, met, parts, opening_state, IsPassOf, KeepsLists};
ghost use Rattle.fs_machine.specs.Laws.{state_after};
ghost use Rattle.fs_machine.specs.Turned.{configured, IsJournal};
ghost use Rattle.fs_top.specs.Lanes.{is_settled};

use fs_book::{Ask, Book, Pass};
use fs_machine::Machine;
use fs_ports::Clock;
use std::sync::Wait;

/// The question whether the switch has come to its end, or its journal is full.
#[derive(Clone, Copy, Debug)]
pub(crate) struct Ending;

impl Ask<Machine> for Ending {
    ghost use Rattle.fs_top.specs.Lanes.{TellsEnding};

    type Answer = bool;

    ghost tells = { TellsEnding };

    fn ask(&self, state: &Machine) -> bool {
        state.sound();
        state.stopping() || state.full().is_some()
    }
}

/// The question whether the journal is full, or the switch has come to its end and no slot holds a channel.
#[derive(Clone, Copy, Debug)]
pub(crate) struct Settled;

impl Ask<Machine> for Settled {
    ghost use Rattle.fs_top.specs.Lanes.{TellsSettled};

    type Answer = bool;

    ghost tells = { TellsSettled };

    fn ask(&self, state: &Machine) -> bool {
        state.sound();
        state.full().is_some() || state.stopping() && state.live() == 0
    }
}

/// Looks whether the switch has come to its end, or its journal is full.
pub(crate) fn is_ending<R: Wait>(rt: &R, book: &Book<Machine>, pass: &mut Pass<Machine>) -> bool
    requires book { IsPassOf configured book.now pass.old }
    ensures book { IsPassOf configured book.now pass.new }
    ensures kept { KeepsLists pass.old pass.new }
    ensures later { IsPrefix (seen pass.old) (seen pass.new) }
    ensures run { IsJournal (configured (opening_state book.now)) (seen pass.new) }
{
    book.look(rt, pass, &Ending)
}

/// Waits until the journal is full, or the switch has come to its end and no slot holds a channel.
pub(crate) fn settle<R: Wait, C: Clock>(
    rt: &R,
    book: &Book<Machine>,
    pass: &mut Pass<Machine>,
    clock: &C,
)
    requires book { IsPassOf configured book.now pass.old }
    ensures book { IsPassOf configured book.now pass.new }
    ensures kept { KeepsLists pass.old pass.new }
    ensures later { IsPrefix (seen pass.old) (seen pass.new) }
    ensures run { IsJournal (configured (opening_state book.now)) (seen pass.new) }
    ensures settled { is_settled (state_after (configured (opening_state book.now)) (seen pass.new)) ≡ true }
{
    'looks: for _ in rt.forever() {
        if book.look(rt, pass, &Settled) {
            return;
        }
        clock.nap();
    }
}
