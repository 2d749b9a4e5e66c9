//! What it comes to that channels hang up, or leave their bridges and live on.

ghost use Rattle.std.specs.Prelude.{◌≡◌, ◌++◌, filter_map, IfOk, OnOk};
ghost use Rattle.fs_bridge.specs.Closure as closure;
ghost use Rattle.fs_bridge.specs.Leaving as spec;

use crate::after::After;
use crate::closure::{Closure, add, closure_of_named, has_ended, left_by};
use crate::lines::Lines;
use crate::order::has_slot;
use crate::parted::Parted;
use crate::row::Row;
use fs_text::{Cause, Memory};
use std::alloc::Global;
use std::marker::Model;

/// What it comes to that some channels hang up, or leave their bridges. A contract sees its three parts.
pub struct LeavingClosure {
    parted: Vec<(Row, Cause)>,
    closure: Closure,
    leavers: Vec<u16>,
}

impl Drop for LeavingClosure {
    fn drop(self) {
        let LeavingClosure {
            parted: _parted,
            closure: _closure,
            leavers: _leavers,
        } = self;
    }
}

impl Model for LeavingClosure {
    ghost use Rattle.fs_bridge.specs.Leaving.{LeavingEnds};

    ghost Value = { LeavingEnds };

    ghost view = { λ c. record { parted = c.parted.items; ends = c.closure; leavers = c.leavers.items } };
}

impl LeavingClosure {
    /// The bridges that end as they are left, in order of their numbers, each with the cause of its end.
    pub fn parted(&self) -> &[(Row, Cause)]
        ensures { result.now ≡ self.now.parted }
    {
        self.parted.as_slice()
    }

    /// Who hangs up, which bridges end by that, and who outlives a bridge, be it left or ended by one who hangs up.
    pub fn closure(&self) -> &Closure
        ensures { result.now ≡ self.now.ends }
    {
        &self.closure
    }

    /// The slots of those who leave and do not hang up by it, in order.
    pub fn leavers(&self) -> &[u16]
        ensures { result.now ≡ self.now.leavers }
    {
        self.leavers.as_slice()
    }
}

/// What it comes to that some channels hang up of these causes, and that others leave their bridges and live on.
///
/// First end the bridges of those who leave, of a normal clearing, and drag nobody. In round 0 are those who hang up
/// first, and the other legs of these bridges where they neither leave, too, nor outlive them. From there on hang up
/// those whom each round drags along; one who leaves may be among them.
pub fn closure_of_hangup<L: Lines>(
    alloc: Global,
    world: &L,
    first: &[(u16, Cause)],
    left: &[u16],
) -> Result<LeavingClosure, Memory>
    ensures { IfOk result (λ closure. closure ≡ spec.closure_of_leaving (L.world world.now) first.now left.now) }
{
    let others = all_left(alloc, world, left)?;
    let named = first_round(alloc, first, &others)?;
    let parted_world = Parted { world, left };
    let mut closure = closure_of_named(alloc, &parted_world, &named)?;
    closure.add_survivors(&others)?;
    let parted = parted_of(alloc, world, left)?;
    let leavers = leavers_of(alloc, left, closure.members())?;
    Ok(LeavingClosure {
        parted,
        closure,
        leavers,
    })
}

/// The bridges of those who leave, in order of their numbers.
fn parted_of<L: Lines>(alloc: Global, world: &L, left: &[u16]) -> Result<Vec<(Row, Cause)>, Memory>
    ensures { IfOk result (λ parted. parted.items ≡ spec.parted_of (L.world world.now) left.now) }
{
    let mut parted = Vec::new(alloc);
    for slot in left {
        part(&mut parted, world.row(*slot))?;
    }
    Ok(parted)
}

/// Puts a bridge behind those of lesser numbers, if there is one that has not ended yet.
fn part(parted: &mut Vec<(Row, Cause)>, row: Option<Row>) -> Result<(), Memory>
    ensures ok { OnOk result (parted.new.items ≡ spec.with_parted parted.old.items row) }
{
    let Some(row) = row else {
        return Ok(());
    };
    if has_ended(parted, row.caller) {
        return Ok(());
    }
    let lesser = parted
        .iter()
        .filter(|end| end.0.number < row.number)
        .count();
    parted.insert(lesser, (row, Cause::NormalClearing))?;
    Ok(())
}

/// The other legs of the bridges of those who leave, and what they do, where they do not leave, too.
fn all_left<L: Lines>(alloc: Global, world: &L, left: &[u16]) -> Result<Vec<(u16, After)>, Memory>
    ensures { IfOk result (λ others. others.items ≡ spec.all_left (L.world world.now) left.now) }
{
    let mut others = Vec::new(alloc);
    for slot in left {
        add(&mut others, left_behind(world, left, *slot))?;
    }
    Ok(others)
}

/// The other leg of the bridge of one who leaves, and what it does, where that does not leave, too.
fn left_behind<L: Lines>(world: &L, left: &[u16], slot: u16) -> Option<(u16, After)>
    ensures { result ≡ spec.left_behind (L.world world.now) left.now slot }
{
    let other = left_by(world, (slot, Cause::NormalClearing))?;
    if left.contains(&other.0) {
        return None;
    }
    Some(other)
}

/// Those that are named, and those of the others who hang up.
fn first_round(
    alloc: Global,
    first: &[(u16, Cause)],
    others: &[(u16, After)],
) -> Result<Vec<(u16, Cause)>, Memory>
    ensures { IfOk result (λ round. round.items ≡ first.now ++ filter_map closure.hung others.now) }
{
    let mut round = Vec::from_slice(alloc, first)?;
    for other in others {
        add(&mut round, hung(*other))?;
    }
    Ok(round)
}

/// One who is left hangs up, where that is what it does.
fn hung(other: (u16, After)) -> Option<(u16, Cause)>
    ensures { result ≡ closure.hung other }
{
    match other.1 {
        After::Hangup(cause) => Some((other.0, cause)),
        After::GoOn | After::Park => None,
    }
}

/// Those who leave and do not hang up, in order of slots.
fn leavers_of(alloc: Global, left: &[u16], members: &[(u16, Cause)]) -> Result<Vec<u16>, Memory>
    ensures { IfOk result (λ leavers. leavers.items ≡ spec.leavers_of left.now members.now) }
{
    let mut leavers = Vec::new(alloc);
    for slot in left {
        if !has_slot(members, *slot) {
            place_slot(&mut leavers, *slot)?;
        }
    }
    Ok(leavers)
}

/// Puts one more slot behind lesser ones, where it is not there yet.
fn place_slot(slots: &mut Vec<u16>, slot: u16) -> Result<(), Memory>
    ensures ok { OnOk result (slots.new.items ≡ spec.with_slot slots.old.items slot) }
{
    if slots.contains(&slot) {
        return Ok(());
    }
    let lesser = slots.iter().filter(|other| **other < slot).count();
    slots.insert(lesser, slot)?;
    Ok(())
}
