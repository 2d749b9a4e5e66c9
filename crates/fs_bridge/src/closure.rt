//! What a hangup drags along, and what it comes to.

ghost use Rattle.std.specs.Prelude.{◌≡◌, ◌++◌, not, fold, filter, map, option_to_list, option_and_then, IfOk, OnOk};
ghost use Rattle.fs_bridge.specs.Closure as spec;
ghost use Rattle.fs_bridge.specs.Leaving as leaving;
ghost use Rattle.fs_bridge.specs.Orders.{has_slot, placed, in_order};

use crate::after::{After, after_kind};
use crate::lines::Lines;
use crate::order::{has_slot, place, place_if};
use crate::row::Row;
use fs_text::{Cause, Memory};
use std::alloc::Global;
use std::marker::Model;

/// What the hangup of some channels comes to. A contract sees its three lists.
#[derive(Drop)]
pub struct Closure {
    members: Vec<(u16, Cause)>,
    ended: Vec<(Row, Cause)>,
    survivors: Vec<(u16, After)>,
}

impl Model for Closure {
    ghost use Rattle.fs_bridge.specs.Closure.{Ends};

    ghost Value = { Ends };

    ghost view = { λ c. record { members = c.members.items; ended = c.ended.items; survivors = c.survivors.items } };
}

impl Closure {
    /// The slots whose channels hang up, each with its cause, in order.
    pub fn members(&self) -> &[(u16, Cause)]
        ensures { result.now ≡ self.now.members }
    {
        self.members.as_slice()
    }

    /// The bridges that end, in the order in which they do, each with the cause of the leg that died first.
    pub fn ended(&self) -> &[(Row, Cause)]
        ensures { result.now ≡ self.now.ended }
    {
        self.ended.as_slice()
    }

    /// The slots whose channels outlive their bridges, in order, each with what it does.
    pub fn survivors(&self) -> &[(u16, After)]
        ensures { result.now ≡ self.now.survivors }
    {
        self.survivors.as_slice()
    }

    /// Those of the others who do not hang up outlive their bridges, too.
    pub(crate) fn add_survivors(&mut self, others: &[(u16, After)]) -> Result<(), Memory>
        ensures ok { OnOk result (self.new ≡ leaving.with_survivors others.now self.old) }
    {
        outlive(&mut self.survivors, &self.members, others)
    }
}

/// What it comes to that some channels hang up of these causes, and nobody leaves.
///
/// In each round hang up those whom the channels of the round before drag along: a loopback partner for the same cause,
/// the living legs of an origination, and the other leg of a bridge, where it does not outlive that.
pub(crate) fn closure_of_named<L: Lines>(
    alloc: Global,
    world: &L,
    first: &[(u16, Cause)],
) -> Result<Closure, Memory>
    ensures { IfOk result (λ closure. closure ≡ spec.closure_of (L.world world.now) first.now) }
{
    let rounds = members_of(alloc, world, first)?;
    let members = by_slots(alloc, &rounds)?;
    let ended = ended_of(alloc, world, &rounds)?;
    let survivors = survivors_of(alloc, world, &rounds)?;
    Ok(Closure {
        members,
        ended,
        survivors,
    })
}

/// All who hang up, round by round.
#[tactic(auto, using(crate::proofs::RoundLemmas::round_rules), unfolding(crate::specs::Closure::members_of))]
fn members_of<L: Lines>(
    alloc: Global,
    world: &L,
    named: &[(u16, Cause)],
) -> Result<Vec<(u16, Cause)>, Memory>
    ensures { IfOk result (λ members. members.items ≡ spec.members_of (L.world world.now) named.now) }
{
    let mut round = by_slots(alloc, named)?;
    let mut members = Vec::from_slice(alloc, &round)?;
    for _more in 0..world.slots() {
        if round.is_empty() {
            return Ok(members);
        }
        round = next_round(alloc, world, &members, &round)?;
        members.extend_from_slice(&round)?;
    }
    Ok(members)
}

/// The next round: who is dragged by this one and is no member yet.
#[tactic(auto, using(crate::proofs::RoundLemmas::round_next))]
fn next_round<L: Lines>(
    alloc: Global,
    world: &L,
    members: &[(u16, Cause)],
    round: &[(u16, Cause)],
) -> Result<Vec<(u16, Cause)>, Memory>
    ensures { IfOk result (λ next. next.items ≡ spec.round_after (L.world world.now) members.now round.now) }
{
    let mut next = Vec::new(alloc);
    for member in round {
        let dragged = dragged(alloc, world, *member)?;
        join(&mut next, world, members, &dragged)?;
    }
    Ok(next)
}

/// Puts those into a round who live and are no members yet.
fn join<L: Lines>(
    round: &mut Vec<(u16, Cause)>,
    world: &L,
    members: &[(u16, Cause)],
    dragged: &[(u16, Cause)],
) -> Result<(), Memory>
    ensures ok { OnOk result (round.new.items
        ≡ fold placed round.old.items (filter (spec.may_join (L.world world.now) members.now) dragged.now)) }
{
    for member in dragged {
        if may_join(world, members, *member) {
            place(round, *member)?;
        }
    }
    Ok(())
}

/// Whether a channel lives and is no member yet.
fn may_join<L: Lines>(world: &L, members: &[(u16, Cause)], member: (u16, Cause)) -> bool
    ensures { result ≡ spec.may_join (L.world world.now) members.now member }
{
    world.live(member.0) && !has_slot(members, member.0)
}

/// All whom a member drags: its partner, its legs and its peer.
fn dragged<L: Lines>(
    alloc: Global,
    world: &L,
    member: (u16, Cause),
) -> Result<Vec<(u16, Cause)>, Memory>
    ensures { IfOk result (λ dragged. dragged.items ≡ spec.drags (L.world world.now) member) }
{
    let mut dragged = Vec::new(alloc);
    add(&mut dragged, partner_of(world, member))?;
    add_legs(&mut dragged, world, member.0)?;
    add(&mut dragged, peer_of(world, member))?;
    Ok(dragged)
}

/// Puts one more behind all others, if there is one.
pub(crate) fn add<T: Copy>(
    things: &mut Vec<(u16, T)>,
    thing: Option<(u16, T)>,
) -> Result<(), Memory>
    ensures ok { OnOk result (things.new.items ≡ things.old.items ++ option_to_list thing) }
{
    if let Some(thing) = thing {
        things.push(thing)?;
    }
    Ok(())
}

/// The partner of a member, with its cause.
fn partner_of<L: Lines>(world: &L, member: (u16, Cause)) -> Option<(u16, Cause)>
    ensures { option_to_list result ≡ spec.by_partner (L.world world.now) member }
{
    let partner = world.partner(member.0)?;
    Some((partner, member.1))
}

/// Puts the living legs of the origination that a slot owns behind all others.
fn add_legs<L: Lines>(members: &mut Vec<(u16, Cause)>, world: &L, slot: u16) -> Result<(), Memory>
    ensures ok { OnOk result (members.new.items ≡ members.old.items ++ spec.cancelled_legs (L.world world.now) slot) }
{
    let legs = world.legs(slot)?;
    cancel(members, &legs)
}

/// Puts legs whose origination is given up behind all others.
fn cancel(members: &mut Vec<(u16, Cause)>, legs: &[u16]) -> Result<(), Memory>
    ensures ok { OnOk result (members.new.items ≡ members.old.items ++ map spec.cancelled legs.now) }
{
    for leg in legs {
        members.push((*leg, Cause::OriginatorCancel))?;
    }
    Ok(())
}

/// The peer of a member, where it hangs up, too.
fn peer_of<L: Lines>(world: &L, member: (u16, Cause)) -> Option<(u16, Cause)>
    ensures { result ≡ option_and_then spec.hung (spec.left_by (L.world world.now) member) }
{
    let (peer, after) = left_by(world, member)?;
    match after {
        After::Hangup(cause) => Some((peer, cause)),
        After::GoOn | After::Park => None,
    }
}

/// The peer of a member, and what it does when that dies, or leaves of that cause.
pub(crate) fn left_by<L: Lines>(world: &L, member: (u16, Cause)) -> Option<(u16, After)>
    ensures { result ≡ spec.left_by (L.world world.now) member }
{
    let row = world.row(member.0)?;
    let peer = peer_in(&row, member.0);
    let vars = world.vars(peer)?;
    let after = after_kind(row.kind, row.caller == peer, vars, member.1);
    Some((peer, after))
}

/// The other leg of a bridge.
fn peer_in(row: &Row, slot: u16) -> u16
    ensures { result ≡ spec.peer_in row.now slot }
{
    if row.caller == slot {
        row.answerer
    } else {
        row.caller
    }
}

/// Some members in order of slots, and of each slot the first.
fn by_slots(alloc: Global, members: &[(u16, Cause)]) -> Result<Vec<(u16, Cause)>, Memory>
    ensures { IfOk result (λ ordered. ordered.items ≡ in_order members.now) }
{
    let mut ordered = Vec::new(alloc);
    for member in members {
        place(&mut ordered, *member)?;
    }
    Ok(ordered)
}

/// The bridges of the members, in the order in which they end.
fn ended_of<L: Lines>(
    alloc: Global,
    world: &L,
    members: &[(u16, Cause)],
) -> Result<Vec<(Row, Cause)>, Memory>
    ensures { IfOk result (λ ended. ended.items ≡ spec.ended_of (L.world world.now) members.now) }
{
    let mut ended = Vec::new(alloc);
    for member in members {
        end(&mut ended, world.row(member.0), member.1)?;
    }
    Ok(ended)
}

/// Puts a bridge behind all others that ended, if there is one that has not ended yet.
fn end(ended: &mut Vec<(Row, Cause)>, row: Option<Row>, cause: Cause) -> Result<(), Memory>
    ensures ok { OnOk result (ended.new.items ≡ spec.with_end cause ended.old.items row) }
{
    let Some(row) = row else {
        return Ok(());
    };
    if !has_ended(ended, row.caller) {
        ended.push((row, cause))?;
    }
    Ok(())
}

/// Whether one of these bridges is that of the caller.
pub(crate) fn has_ended(ended: &[(Row, Cause)], caller: u16) -> bool
    ensures { result ≡ spec.has_ended caller ended.now }
{
    ended.iter().any(|end| end.0.caller == caller)
}

/// Puts those into the survivors who are no members, in order of slots.
fn outlive(
    survivors: &mut Vec<(u16, After)>,
    members: &[(u16, Cause)],
    others: &[(u16, After)],
) -> Result<(), Memory>
    ensures ok { OnOk result (survivors.new.items
        ≡ fold placed survivors.old.items (filter (λ s. not (has_slot s.0 members.now)) others.now)) }
{
    for other in others {
        if !has_slot(members, other.0) {
            place(survivors, *other)?;
        }
    }
    Ok(())
}

/// The peers of the members that are no members, in order of slots.
fn survivors_of<L: Lines>(
    alloc: Global,
    world: &L,
    members: &[(u16, Cause)],
) -> Result<Vec<(u16, After)>, Memory>
    ensures { IfOk result (λ survivors. survivors.items ≡ spec.survivors_of (L.world world.now) members.now) }
{
    let mut survivors = Vec::new(alloc);
    for member in members {
        place_if(&mut survivors, survivor_of(world, members, *member))?;
    }
    Ok(survivors)
}

/// The peer of a member, if it is none itself.
fn survivor_of<L: Lines>(
    world: &L,
    members: &[(u16, Cause)],
    member: (u16, Cause),
) -> Option<(u16, After)>
    ensures { result ≡ spec.survivor_of (L.world world.now) members.now member }
{
    let left = left_by(world, member)?;
    if has_slot(members, left.0) {
        return None;
    }
    Some(left)
}
