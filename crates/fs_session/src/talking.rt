//! A controller is dialed for a channel, beside others who enter.

ghost use Rattle.std.specs.Prelude.{◌≡◌};
ghost use Rattle.fs_ports.specs.Ports.{IsNewLink};
ghost use Rattle.fs_book.specs.Passes.{seen, mine, met, parts, opening_state, IsPassOf};
ghost use Rattle.fs_machine.specs.Turned.{configured};
ghost use Rattle.fs_session.specs.Talking as spec;

use crate::talked::Talked;
use crate::working::is_final;
use fs_book::{Book, Pass};
use fs_machine::{Act, Answer, Entry, Machine, Offer, Reply, RouteRefusal};
use fs_out::{Target, dial};
use fs_ports::{Dialed, Dialer};
use std::sync::Wait;

/// Dials the controller for whom the channel in a slot waits, and enters at a moment, in microseconds, whether there is
/// a link to it. The dialing takes no turn at the lock, so it holds up nobody else, however long it takes.
///
/// Where the entry opens a connection, that holds the channel, and `converse` of `fs_conn` serves it over the link. At
/// the limit of connections it opens none. A link that serves none is dropped.
pub fn talk_once<R: Wait, O: Dialer>(
    rt: &R,
    book: &Book<Machine>,
    pass: &mut Pass<Machine>,
    slot: u16,
    target: &Target,
    dialer: &mut O,
    now: u64,
) -> Talked<O::Link>
    requires book { IsPassOf configured book.now pass.old }
    ensures book { IsPassOf configured book.now pass.new }
    ensures kept { (met pass.new ≡ met pass.old) × (parts pass.new ≡ parts pass.old) }
    ensures talks { spec.Talks (configured (opening_state book.now)) (seen pass.old) (mine pass.old)
        (seen pass.new) (mine pass.new) slot (λ link. IsNewLink (O.Link.input link) (O.Link.output link))
        (O.dial_faults dialer.old) (O.dial_faults dialer.new) now result }
{
    let link = link_to(dialer, target);
    let act = Act::Dialed {
        slot,
        linked: link.is_some(),
    };
    match book.submit(rt, pass, Offer::Entry(Entry { moment: now, act })) {
        Ok(receipt) => talked(receipt.place, receipt.answer, link),
        Err(RouteRefusal::Step(refusal)) if is_final(refusal) => Talked::Refused(refusal),
        Err(RouteRefusal::Step(_)) => Talked::Idle,
        Err(RouteRefusal::Again { .. }) => unreachable!(),
    }
}

// Dials, and gives the link, if there is one.
fn link_to<O: Dialer>(dialer: &mut O, target: &Target) -> Option<O::Link>
    ensures { spec.Dials (λ link. IsNewLink (O.Link.input link) (O.Link.output link))
        (O.dial_faults dialer.old) (O.dial_faults dialer.new) result }
{
    match dial(dialer, target) {
        Dialed::Link(link) => Some(link),
        Dialed::Failed => None,
    }
}

// What came of the entry at a place, by its answer. A link that serves no connection is dropped.
fn talked<L: Drop>(place: u64, answer: Answer, link: Option<L>) -> Talked<L>
    ensures { result ≡ spec.talked place answer link }
{
    match (answer.reply, link) {
        (Reply::Dialed(Some(conn)), Some(link)) => Talked::Opened {
            conn,
            link,
            wakes: answer.wakes,
        },
        _ => Talked::Not(place, answer.wakes),
    }
}
