//! Entries that are made one after another, in whatever order connections, channels and jobs come.

ghost use Rattle.std.specs.Prelude.{◌≡◌, false, IfOk, IfSome};
ghost use mathlib.Core.List.{IsPrefix};
ghost use Rattle.fs_machine.specs.Entries.{is_load};
ghost use Rattle.fs_machine.specs.Routes.{Suits};

use crate::answers::tell_answers;
use crate::bridging::tell_entry;
use crate::hearing::tell_heard;
use crate::played::machine_of;
use case_desk::{Answer, Table, cut, number_of, slot_of};
use fs_machine::{Act, Closing, Entry, Machine, Plan, Reply, RouteRefusal};
use fs_ports::NoGate;
use fs_text::{Memory, Txt};
use std::alloc::Global;

/// Answers `entries STEPS`, with `;` between them: `arrive`, `say CONNECTION LINE`, `take CONNECTION`,
/// `read CONNECTION`, `leave CONNECTION` by the end of its input, `close CONNECTION` with all sent, `fail CONNECTION`
/// whose link has failed, `dialed SLOT` and `undialed SLOT` as there is a link to its controller or none, `job NUMBER`,
/// `halt`, `hear CONNECTION COUNT`, by which so many frames are taken, `work SLOTS` with an entry for each slot,
/// `route SLOT CONNECTION LINE`, by which a slot is routed by a plan that was made before the line was said,
/// `churn COUNT SLOT CONNECTION EVERY`, and `ring`. It tells what `bridging` tells, refusals, and the frames that are
/// taken: those of `read` whole, those of `hear` in short.
pub(crate) fn tell_entries(table: &Table, steps: &str, answer: &mut Answer) {
    if let Some(mut machine) = machine_of(table, answer) {
        for step in steps.split(';') {
            tell_step(&mut machine, step.trim_start(), answer);
        }
    }
}

// Makes the entries that a step asks for.
fn tell_step(machine: &mut Machine, step: &str, answer: &mut Answer) {
    let (verb, rest) = cut(step);
    match verb {
        "arrive" => tell_act(machine, Act::Arrive, answer),
        "say" => say(machine, rest, answer),
        "take" => tell_act(
            machine,
            Act::Take {
                conn: conn_of(rest),
            },
            answer,
        ),
        "job" => tell_act(
            machine,
            Act::Job {
                job: number_of(rest),
            },
            answer,
        ),
        "leave" => close(machine, rest, Closing::EndOfInput, answer),
        "close" => close(machine, rest, Closing::Sent, answer),
        "fail" => close(machine, rest, Closing::Failed, answer),
        "dialed" => tell_dialed(machine, rest, true, answer),
        "undialed" => tell_dialed(machine, rest, false, answer),
        "halt" => tell_act(machine, Act::Halt, answer),
        "work" => work(machine, rest, answer),
        "route" => route(machine, rest, answer),
        "read" => read(machine, rest, answer),
        "hear" => hear(machine, rest, answer),
        "churn" => churn(machine, rest, answer),
        "ring" => tell_ring(machine, answer),
        _ => answer.line("no step"),
    }
}

fn conn_of(word: &str) -> u32 {
    u32::from(slot_of(word))
}

// Makes the entry by which a controller was dialed for the channel in a slot, and there is a link to it or none.
fn tell_dialed(machine: &mut Machine, slot: &str, linked: bool, answer: &mut Answer) {
    tell_act(
        machine,
        Act::Dialed {
            slot: slot_of(slot),
            linked,
        },
        answer,
    );
}

// Makes the entry by which a connection begins to end, or ends.
fn close(machine: &mut Machine, conn: &str, how: Closing, answer: &mut Answer) {
    tell_act(
        machine,
        Act::Close {
            conn: conn_of(conn),
            how,
        },
        answer,
    );
}

// Makes an entry for each slot.
fn work(machine: &mut Machine, slots: &str, answer: &mut Answer) {
    for slot in slots.split(' ') {
        tell_act(
            machine,
            Act::Work {
                slot: slot_of(slot),
            },
            answer,
        );
    }
}

// Plans the route of the channel in a slot, gives a command line of a connection, and then routes the slot by that
// plan.
fn route(machine: &mut Machine, rest: &str, answer: &mut Answer) {
    let (slot, said) = cut(rest);
    let slot = slot_of(slot);
    let made = plan_of(machine, slot, answer.alloc());
    let Some(Some(plan)) = answer.made(made) else {
        answer.line("no plan");
        return;
    };
    say(machine, said, answer);
    match machine.apply_route(0, slot, plan) {
        Ok(_) => answer.line("routed"),
        Err(RouteRefusal::Again { touched, .. }) => {
            answer.told(format_args!("again, changed by {touched} entries"));
        }
        Err(RouteRefusal::Step(refusal)) => answer.shown(refusal),
    }
}

// A plan for the route of the channel in a slot, if it is to be routed and no text is too long.
fn plan_of(machine: &Machine, slot: u16, alloc: Global) -> Result<Option<Plan>, Memory>
    ensures { IfOk result (λ plan. IfSome plan (Suits machine.now.config machine.now.journal)) }
{
    match machine.snapshot(0, slot)? {
        Some(seen) => seen.plan(alloc, &mut NoGate),
        None => Ok(None),
    }
}

// Gives a command line of a connection.
fn say(machine: &mut Machine, rest: &str, answer: &mut Answer)
    ensures config { machine.new.config ≡ machine.old.config }
    ensures front { IsPrefix machine.old.journal machine.new.journal }
{
    let (conn, line) = cut(rest);
    let made = block_of(line, answer);
    if let Some(block) = answer.made(made) {
        tell_act(
            machine,
            Act::Command {
                conn: conn_of(conn),
                block,
            },
            answer,
        );
    }
}

// The block of a command line.
fn block_of(line: &str, answer: &mut Answer) -> Result<Txt, Memory> {
    let mut bytes = answer.bytes_of(line);
    answer.add_bytes("%0A%0A", &mut bytes);
    Txt::from_vec(bytes)
}

// Makes an entry that notes no load, and adds what happens in it and what is handed out.
fn tell_act(machine: &mut Machine, act: Act, answer: &mut Answer)
    requires { is_load act ≡ false }
    ensures config { machine.new.config ≡ machine.old.config }
    ensures front { IsPrefix machine.old.journal machine.new.journal }
{
    let entry = Entry { moment: 0, act };
    if let Some(Reply::Frame(frame)) = tell_entry(machine, &entry, answer) {
        tell_answers(frame.as_bytes(), answer);
    }
}

// Takes a frame of a connection, and tells it whole.
fn read(machine: &mut Machine, conn: &str, answer: &mut Answer) {
    let entry = Entry {
        moment: 0,
        act: Act::Take {
            conn: conn_of(conn),
        },
    };
    if let Some(Reply::Frame(frame)) = tell_entry(machine, &entry, answer) {
        answer.lines(frame.as_bytes());
    }
}

// Takes so many frames of a connection, and tells of them in short.
fn hear(machine: &mut Machine, rest: &str, answer: &mut Answer) {
    let (conn, count) = cut(rest);
    let conn = conn_of(conn);
    for _ in 0..number_of(count) {
        hear_frame(machine, conn, answer);
    }
}

fn hear_frame(machine: &mut Machine, conn: u32, answer: &mut Answer) {
    let entry = Entry {
        moment: 0,
        act: Act::Take { conn },
    };
    if let Some(Reply::Frame(frame)) = tell_entry(machine, &entry, answer) {
        tell_heard(frame.as_bytes(), answer);
    }
}

// Makes the entry of a slot so many times, be it refused or not, and behind each so manieth of them takes a frame of a
// connection, if one waits. All that is told is how many frames were taken.
fn churn(machine: &mut Machine, rest: &str, answer: &mut Answer) {
    let (count, rest) = cut(rest);
    let (slot, rest) = cut(rest);
    let (conn, every) = cut(rest);
    let (slot, conn, every) = (slot_of(slot), conn_of(conn), number_of(every));
    let mut taken: u64 = 0;
    for before in 0..number_of(count) {
        enter(machine, Act::Work { slot });
        if every > 0 && before % every == every - 1 && enter(machine, Act::Take { conn }) {
            taken = taken.saturating_add(1);
        }
    }
    answer.told(format_args!("{taken} frames taken"));
}

// Makes an entry. Answers whether it was taken.
fn enter(machine: &mut Machine, act: Act) -> bool
    requires { is_load act ≡ false }
{
    machine.step(&Entry { moment: 0, act }).is_ok()
}

// Tells how many events wait for connections, and in how many places they are kept.
fn tell_ring(machine: &Machine, answer: &mut Answer) {
    let ring = machine.ring();
    let (held, slots) = (ring.held(), ring.slots());
    answer.told(format_args!("{held} events in {slots} places"));
}
