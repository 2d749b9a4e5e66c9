//! A lane works a slot, or the jobs.

ghost use Rattle.std.specs.Prelude.{◌≡◌, ℕ, ◌∷◌, Some};
ghost use Rattle.fs_book.specs.Passes.{seen, mine, met, parts, opening_state, IsPassOf};
ghost use Rattle.fs_machine.specs.Turned.{configured};
ghost use Rattle.fs_top.specs.Dials.{vain_in};
ghost use Rattle.fs_top.specs.Lanes.{Keeps, Enters};
ghost use Rattle.fs_top.specs.Reloading.{noted_at};

use crate::conns::Conn;
use crate::rest::rest;
use fs_book::{Book, Pass};
use fs_machine::{Machine, Refusal};
use fs_out::Target;
use fs_ports::{Clock, Gates, Link};
use fs_session::{Actor, Worked, work_once};
use std::alloc::Global;
use std::sync::Wait;

/// Why whoever works a slot, or the jobs, does not go on.
#[derive(Drop)]
pub(crate) enum Pause {
    /// This controller is to be dialed for the channel in the slot.
    Talk(Target),
    /// The file that the switch was configured by is to be loaded for this job.
    Load(u64),
    /// The switch has come to its end and nothing of the actor is left, or the journal is full.
    Over,
}

/// Works a slot, or the jobs, again and again, until there is a reason not to go on.
pub(crate) fn run_turns<R: Wait, C: Clock, G: Gates, L: Link>(
    rt: &R,
    alloc: Global,
    book: &Book<Machine>,
    pass: &mut Pass<Machine>,
    actor: Actor,
    clock: &C,
    gates: &G,
    conns: &Vec<Conn<L>>,
) -> Pause
    requires book { IsPassOf configured book.now pass.old }
    requires keeps { Keeps L.input L.output (Enters (C.tells clock.now) ⊥ (Some actor))
        (configured (opening_state book.now)) (seen pass.old) (mine pass.old ∷ met pass.old) conns.now.items }
    ensures book { IsPassOf configured book.now pass.new }
    ensures parts { parts pass.new ≡ parts pass.old }
    ensures keeps { Keeps L.input L.output (Enters (C.tells clock.now) ⊥ (Some actor))
        (configured (opening_state book.now)) (seen pass.new) (mine pass.new ∷ met pass.new) conns.now.items }
    ensures vain { (slot : ℕ) → vain_in slot (seen pass.new) (mine pass.new ∷ met pass.new)
        ≡ vain_in slot (seen pass.old) (mine pass.old ∷ met pass.old) }
    ensures met { met pass.new ≡ met pass.old }
    ensures noted { noted_at (seen pass.new) (mine pass.new) ≡ noted_at (seen pass.old) (mine pass.old) }
{
    let mut gate = gates.gate(gated_slot(actor));
    'turns: for _ in rt.forever() {
        let worked = work_once(rt, alloc, book, pass, actor, clock.now(), &mut gate);
        if let Some(pause) = follow(worked, clock) {
            return pause;
        }
    }
    unreachable!()
}

// The slot whose hunts pass a gate; there are none for the jobs.
fn gated_slot(actor: Actor) -> u16 {
    match actor {
        Actor::Slot(slot) => slot,
        Actor::Jobs => 0,
    }
}

// Wakes whoever has something to do behind a turn, or naps, unless it is the last one. Who was refused for memory still
// has it to do, and so rests alone.
fn follow<C: Clock>(worked: Worked, clock: &C) -> Option<Pause> {
    match worked {
        Worked::Did(_, wakes) => clock.wake(&wakes),
        Worked::Idle { next: Some(moment) } => clock.nap_until(moment),
        Worked::Idle { next: None } => clock.nap(),
        Worked::Refused(Refusal::Memory) => rest(clock),
        Worked::Talk(target) => return Some(Pause::Talk(target)),
        Worked::Load(job) => return Some(Pause::Load(job)),
        Worked::Stopped | Worked::Refused(_) => return Some(Pause::Over),
    }
    None
}
