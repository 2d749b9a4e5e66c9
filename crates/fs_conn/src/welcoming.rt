//! A connection comes, beside others who enter.

ghost use Rattle.std.specs.Prelude.{◌≡◌, IfOk, IfErr};
ghost use Rattle.fs_book.specs.Passes.{seen, mine, met, parts, opening_state, IsPassOf};
ghost use Rattle.fs_machine.specs.Turned.{configured};
ghost use Rattle.fs_conn.specs.Owning.{Welcomed, TurnedAway};

use fs_book::{Book, Pass};
use fs_machine::{Act, Entry, Machine, Offer, Refusal, Reply, RouteRefusal};
use fs_ports::Clock;
use std::sync::Wait;

/// Enters that a connection comes, at the clock's moment in microseconds, and gives its number. The pass owns it then,
/// and it has made no entry of its own, as `converse` needs it.
///
/// It is refused as any entry is: where the journal is full, where the switch has come to its end or has as many
/// connections as it may have, and for want of memory.
pub fn welcome<R: Wait, C: Clock>(
    rt: &R,
    book: &Book<Machine>,
    pass: &mut Pass<Machine>,
    clock: &C,
) -> Result<u32, Refusal>
    requires book { IsPassOf configured book.now pass.old }
    ensures book { IsPassOf configured book.now pass.new }
    ensures kept { (met pass.new ≡ met pass.old) × (parts pass.new ≡ parts pass.old) }
    ensures welcomed { IfOk result (Welcomed (C.tells clock.now) (configured (opening_state book.now))
        (seen pass.old) (mine pass.old) (seen pass.new) (mine pass.new)) }
    ensures turned_away { IfErr result (TurnedAway (configured (opening_state book.now))
        (seen pass.old) (mine pass.old) (seen pass.new) (mine pass.new)) }
{
    let moment = clock.now();
    let act = Act::Arrive;
    match book.submit(rt, pass, Offer::Entry(Entry { moment, act })) {
        Ok(receipt) => {
            let Reply::Arrived(conn) = receipt.answer.reply else {
                unreachable!()
            };
            Ok(conn)
        }
        Err(RouteRefusal::Step(refusal)) => Err(refusal),
        Err(RouteRefusal::Again { .. }) => unreachable!(),
    }
}
