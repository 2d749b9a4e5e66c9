//! The plans of the legs of a dial string, and legs behind pairs that all of them get.

ghost use Rattle.std.specs.Prelude.{◌≡◌, ◌<◌, ◌^◌, ◌++◌, length, map, IfOk};
ghost use Rattle.fs_dial.specs.DialStrings.{dial_of};
ghost use Rattle.fs_dial.specs.Legs.{leg_of};
ghost use Rattle.fs_orig.specs.Plans as spec;

use crate::plan::{LegGroup, LegPlan, LegPlans, add_copies};
use fs_dial::{DialString, Group, Leg, RawPairs};
use fs_text::{Headers, Memory, Txt};
use std::alloc::Global;

impl LegPlans {
    /// The groups of a dial string, leg by leg. A leg has the pairs of the braces, and its own behind them; their
    /// values have no quotes and backslashes.
    pub fn of(alloc: Global, dial: &DialString<'_>) -> Result<LegPlans, Memory>
        ensures { IfOk result (λ plans. plans ≡ spec.plans_of (dial_of dial.now)) }
    {
        let mut braces = Headers::new(alloc);
        add_plain(alloc, &mut braces, &dial.pairs)?;
        let mut plans = LegPlans::new(alloc);
        for group in dial.groups.as_slice() {
            plans.push(group_of(alloc, &braces, group)?)?;
        }
        Ok(plans)
    }
}

impl LegGroup {
    /// Copies of legs, less than 2^32, each with these pairs before its own.
    pub fn behind(alloc: Global, pairs: &Headers, plans: &[LegPlan]) -> Result<LegGroup, Memory>
        requires { length plans.now < 2 ^ 32 }
        ensures { IfOk result (λ group. group ≡ spec.all_behind pairs.now plans.now) }
    {
        let mut group = LegGroup::new(alloc);
        for plan in plans {
            group.push(plan_behind(alloc, pairs, plan)?)?;
        }
        Ok(group)
    }
}

/// A copy of a leg, with these pairs before its own.
fn plan_behind(alloc: Global, before: &Headers, plan: &LegPlan) -> Result<LegPlan, Memory>
    ensures { IfOk result (λ copied. copied ≡ spec.plan_behind before.now plan.now) }
{
    let mut pairs = Headers::new(alloc);
    add_copies(&mut pairs, before)?;
    add_copies(&mut pairs, &plan.pairs)?;
    Ok(LegPlan {
        endpoint: plan.endpoint.copy()?,
        pairs,
    })
}

/// The plans of the legs of a group, each with these pairs before its own.
fn group_of(alloc: Global, braces: &Headers, group: &Group<'_>) -> Result<LegGroup, Memory>
    ensures { IfOk result (λ plans. plans ≡ map (spec.leg_behind braces.now) group.now) }
{
    let mut plans = LegGroup::new(alloc);
    for leg in group.as_slice() {
        plans.push(plan_of(alloc, braces, leg)?)?;
    }
    Ok(plans)
}

/// The plan of a leg, with these pairs before its own.
fn plan_of(alloc: Global, braces: &Headers, leg: &Leg<'_>) -> Result<LegPlan, Memory>
    ensures { IfOk result (λ plan. plan ≡ spec.leg_behind braces.now (leg_of leg.now)) }
{
    let mut pairs = Headers::new(alloc);
    add_copies(&mut pairs, braces)?;
    add_plain(alloc, &mut pairs, &leg.pairs)?;
    Ok(LegPlan {
        endpoint: Txt::of(alloc, leg.endpoint)?,
        pairs,
    })
}

/// Puts pairs behind others, their values without quotes and backslashes.
fn add_plain(alloc: Global, pairs: &mut Headers, added: &RawPairs<'_>) -> Result<(), Memory>
    ensures { IfOk result (λ _. pairs.new ≡ pairs.old ++ spec.plain_pairs added.now) }
{
    for pair in added.as_slice() {
        pairs.push(Txt::of(alloc, pair.name)?, pair.plain(alloc)?)?;
    }
    Ok(())
}
