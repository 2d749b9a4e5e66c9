//! A turn, beside others who enter.

ghost use Rattle.std.specs.Prelude.{◌≡◌, true, false};
ghost use Rattle.std.specs.Arc.{arc_value};
ghost use Rattle.fs_book.specs.Passes.{seen, mine, met, parts, opening_state, IsPassOf};
ghost use Rattle.fs_machine.specs.Controlling.{names_target};
ghost use Rattle.fs_machine.specs.Entries.{is_load};
ghost use Rattle.fs_machine.specs.Routes.{Suits, IsInForceAfter};
ghost use Rattle.fs_machine.specs.Turned.{configured, IsJournal};
ghost use Rattle.fs_session.specs.declared.actor.Errand.TheVariants.{Slot};
ghost use Rattle.fs_session.specs.Working as spec;

use crate::actor::{Actor, Errand};
use crate::standing::{Standing, StandingOf};
use crate::worked::Worked;
use fs_book::{Book, Pass};
use fs_machine::{Act, DueActor, Entry, Machine, Offer, Plan, Refusal, RouteRefusal, Snapshot};
use fs_out::{Target, TargetFault};
use fs_ports::Gate;
use fs_text::{Memory, Txt};
use std::alloc::Global;
use std::sync::Wait;

// So many plans of a route may turn out to be stale before the channel is routed within its entry.
const PLANS: u32 = 3;

/// Does the one thing that an actor has to do at a moment, in microseconds, if there is any. A channel that waits for a
/// controller waits on: the answer says who is to be dialed, as `talk_once` does. So does a job that waits for a load,
/// as `load_once` notes one.
///
/// A channel that is to be routed has its route planned outside the lock, where the hunt passes the gate between two
/// conditions, so however long that takes it holds up nobody else. Where what the route rests on has changed meanwhile,
/// a new plan is made; behind three such plans, and where a text is too long, the hunt is part of the entry. It never
/// waits for anybody but those before it at the lock.
pub fn work_once<R: Wait, G: Gate>(
    rt: &R,
    alloc: Global,
    book: &Book<Machine>,
    pass: &mut Pass<Machine>,
    actor: Actor,
    now: u64,
    gate: &mut G,
) -> Worked
    requires book { IsPassOf configured book.now pass.old }
    ensures book { IsPassOf configured book.now pass.new }
    ensures kept { (met pass.new ≡ met pass.old) × (parts pass.new ≡ parts pass.old) }
    ensures works { spec.Works (configured (opening_state book.now)) (seen pass.old) (mine pass.old)
        (seen pass.new) (mine pass.new) actor now result }
{
    let mut plans = PLANS;
    let mut tried = take_turn(rt, alloc, book, pass, actor, now, gate, &mut plans);
    'turns: for _ in rt.forever() {
        match tried {
            Some(worked) => return worked,
            None => tried = take_turn(rt, alloc, book, pass, actor, now, gate, &mut plans),
        }
    }
    unreachable!()
}

// Looks how an actor stands, and does what it has to do. Where others came between, nothing comes of it.
fn take_turn<R: Wait, G: Gate>(
    rt: &R,
    alloc: Global,
    book: &Book<Machine>,
    pass: &mut Pass<Machine>,
    actor: Actor,
    now: u64,
    gate: &mut G,
    plans: &mut u32,
) -> Option<Worked>
    requires book { IsPassOf configured book.now pass.old }
    ensures book { IsPassOf configured book.now pass.new }
    ensures kept { (met pass.new ≡ met pass.old) × (parts pass.new ≡ parts pass.old) }
    ensures tries { spec.Tries (configured (opening_state book.now)) (seen pass.old) (mine pass.old)
        (seen pass.new) (mine pass.new) actor now result }
{
    let Ok(standing) = book.look(rt, pass, &StandingOf { actor, now }) else {
        return Some(Worked::Refused(Refusal::Memory));
    };
    match standing {
        Standing::Full(refusal) => Some(Worked::Refused(refusal)),
        Standing::Over => Some(Worked::Stopped),
        Standing::Seeks(text) => Some(talk(alloc, &text)),
        Standing::Routes { slot, seen } if *plans > 0 => {
            route(rt, alloc, book, pass, slot, now, seen, gate, plans)
        }
        Standing::Routes { slot, .. } => attempt(rt, book, pass, Errand::Slot(slot), now),
        Standing::Due(due) => match errand_of(due) {
            Ok(errand) => attempt(rt, book, pass, errand, now),
            Err(worked) => Some(worked),
        },
    }
}

// Plans the route of the channel in a slot, and routes it so. Where the plan is stale, nothing comes of it.
fn route<R: Wait, G: Gate>(
    rt: &R,
    alloc: Global,
    book: &Book<Machine>,
    pass: &mut Pass<Machine>,
    slot: u16,
    now: u64,
    snapshot: Snapshot,
    gate: &mut G,
    plans: &mut u32,
) -> Option<Worked>
    requires book { IsPassOf configured book.now pass.old }
    requires dialplan { IsInForceAfter (configured (opening_state book.now)) (seen pass.old) snapshot.reloads
        (arc_value snapshot.dialplan) }
    requires run { IsJournal (configured (opening_state book.now)) (seen pass.old) }
    ensures book { IsPassOf configured book.now pass.new }
    ensures kept { (met pass.new ≡ met pass.old) × (parts pass.new ≡ parts pass.old) }
    ensures tries { spec.Attempts (configured (opening_state book.now)) (seen pass.old) (mine pass.old)
        (seen pass.new) (mine pass.new) (Slot slot) now result }
{
    match snapshot.plan(alloc, gate) {
        Ok(Some(plan)) => submit_route(rt, book, pass, slot, now, plan, plans),
        Ok(None) => attempt(rt, book, pass, Errand::Slot(slot), now),
        Err(Memory) => Some(Worked::Refused(Refusal::Memory)),
    }
}

// Routes the channel in a slot by a plan. Where that is stale, nothing comes of it, and one plan less is left.
fn submit_route<R: Wait>(
    rt: &R,
    book: &Book<Machine>,
    pass: &mut Pass<Machine>,
    slot: u16,
    now: u64,
    plan: Plan,
    plans: &mut u32,
) -> Option<Worked>
    requires book { IsPassOf configured book.now pass.old }
    requires suits { Suits (configured (opening_state book.now)) (seen pass.old) plan }
    ensures book { IsPassOf configured book.now pass.new }
    ensures kept { (met pass.new ≡ met pass.old) × (parts pass.new ≡ parts pass.old) }
    ensures tries { spec.Attempts (configured (opening_state book.now)) (seen pass.old) (mine pass.old)
        (seen pass.new) (mine pass.new) (Slot slot) now result }
{
    let offer = Offer::Route {
        moment: now,
        slot,
        plan,
    };
    match book.submit(rt, pass, offer) {
        Ok(receipt) => Some(Worked::Did(receipt.place, receipt.answer.wakes)),
        Err(RouteRefusal::Step(refusal)) if is_final(refusal) => Some(Worked::Refused(refusal)),
        Err(RouteRefusal::Step(_)) => None,
        Err(RouteRefusal::Again { .. }) => {
            *plans = plans.saturating_sub(1);
            None
        }
    }
}

// Who is to be dialed, by the text that names the controller for whom a channel waits.
fn talk(alloc: Global, text: &Txt) -> Worked
    requires { names_target text.now ≡ true }
    ensures { spec.Talks text.now result }
{
    match Target::of(alloc, text.as_bytes()) {
        Ok(target) => Worked::Talk(target),
        Err(TargetFault::Memory) => Worked::Refused(Refusal::Memory),
        Err(_) => unreachable!(),
    }
}

// What is to be done, or the answer where that is no entry: a job waits for a load, or there is nothing to do yet.
fn errand_of(due: DueActor) -> Result<Errand, Worked>
    requires { spec.IsErrand due }
    ensures { result ≡ spec.errand_of due }
{
    match due {
        DueActor::Slot(slot) => Ok(Errand::Slot(slot)),
        DueActor::Job(job) => Ok(Errand::Job(job)),
        DueActor::Load(job) => Err(Worked::Load(job)),
        DueActor::Later(next) => Err(Worked::Idle { next: Some(next) }),
        DueActor::Never => Err(Worked::Idle { next: None }),
        DueActor::Dial(_) => unreachable!(),
    }
}

// Tries to do this. Nothing comes of it where it is not to be done yet.
fn attempt<R: Wait>(
    rt: &R,
    book: &Book<Machine>,
    pass: &mut Pass<Machine>,
    errand: Errand,
    now: u64,
) -> Option<Worked>
    requires book { IsPassOf configured book.now pass.old }
    ensures book { IsPassOf configured book.now pass.new }
    ensures kept { (met pass.new ≡ met pass.old) × (parts pass.new ≡ parts pass.old) }
    ensures tries { spec.Attempts (configured (opening_state book.now)) (seen pass.old) (mine pass.old)
        (seen pass.new) (mine pass.new) errand now result }
{
    let act = act_of(errand);
    match book.submit(rt, pass, Offer::Entry(Entry { moment: now, act })) {
        Ok(receipt) => Some(Worked::Did(receipt.place, receipt.answer.wakes)),
        Err(RouteRefusal::Step(refusal)) if is_final(refusal) => Some(Worked::Refused(refusal)),
        Err(RouteRefusal::Step(_)) => None,
        Err(RouteRefusal::Again { .. }) => unreachable!(),
    }
}

// The act by which this is done.
fn act_of(errand: Errand) -> Act
    ensures exact { result ≡ spec.act_of errand }
    ensures plain { is_load result ≡ false }
{
    match errand {
        Errand::Slot(slot) => Act::Work { slot },
        Errand::Job(job) => Act::Job { job },
    }
}

/// Whether no later try can do better.
pub(crate) fn is_final(refusal: Refusal) -> bool
    ensures { result ≡ spec.is_final refusal }
{
    matches!(refusal, Refusal::JournalFull { .. } | Refusal::Memory)
}
