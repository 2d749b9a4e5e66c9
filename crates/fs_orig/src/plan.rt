//! What an origination is to try.

ghost use Rattle.std.specs.Prelude.{◌≡◌, ◌<◌, ◌+◌, ◌^◌, [], ◌∷◌, ◌++◌, length, IfOk, OnOk, OnErr};

use fs_text::{Headers, Memory, Txt};
use std::alloc::Global;
use std::marker::Model;

/// What one leg of a dial string is to be made of.
#[derive(Drop)]
pub struct LegPlan {
    /// Its endpoint, as `loopback/1001` or `error/USER_BUSY`.
    pub endpoint: Txt,
    /// The variables that it is to have, first those of the whole dial string.
    pub pairs: Headers,
}

/// The legs that are to ring together, in order: in a dial string they are separated by `,`. There are less than 2^32.
/// A contract sees them as that list.
#[derive(Drop)]
pub struct LegGroup {
    plans: Vec<LegPlan>,
}

/// Groups of legs that are to be tried one after another, in order: in a dial string they are separated by `|`. There
/// are less than 2^32. A contract sees them as that list.
#[derive(Drop)]
pub struct LegPlans {
    groups: Vec<LegGroup>,
}

impl Model for LegGroup {
    ghost use Rattle.std.specs.Prelude.{List, ◌<◌, ◌^◌, length};
    ghost use Rattle.fs_orig.specs.declared.plan.LegPlan.{LegPlan};

    ghost Value = { List LegPlan };

    ghost view = { λ g. g.plans.items };

    ghost invariant = { λ g. length g.plans.items < 2 ^ 32 };
}

impl Model for LegPlans {
    ghost use Rattle.std.specs.Prelude.{List, ◌<◌, ◌^◌, length};
    ghost use Rattle.fs_orig.specs.declared.plan.LegPlan.{LegPlan};

    ghost Value = { List (List LegPlan) };

    ghost view = { λ p. p.groups.items };

    ghost invariant = { λ p. length p.groups.items < 2 ^ 32 };
}

impl LegPlan {
    /// Copies the plan.
    pub fn copy(&self, alloc: Global) -> Result<LegPlan, Memory>
        ensures { IfOk result (λ plan. plan ≡ self.now) }
    {
        let mut pairs = Headers::new(alloc);
        add_copies(&mut pairs, &self.pairs)?;
        Ok(LegPlan {
            endpoint: self.endpoint.copy()?,
            pairs,
        })
    }
}

/// Puts copies of pairs behind others.
pub(crate) fn add_copies(pairs: &mut Headers, copied: &Headers) -> Result<(), Memory>
    ensures { IfOk result (λ _. pairs.new ≡ pairs.old ++ copied.now) }
{
    for (name, value) in copied.pairs() {
        pairs.push(name.copy()?, value.copy()?)?;
    }
    Ok(())
}

impl LegGroup {
    /// No legs.
    pub fn new(alloc: Global) -> LegGroup
        ensures { result ≡ [] }
    {
        LegGroup {
            plans: Vec::new(alloc),
        }
    }

    /// The legs of a vector, in its order; takes no memory.
    pub fn from_vec(plans: Vec<LegPlan>) -> LegGroup
        requires { length plans.items < 2 ^ 32 }
        ensures { result ≡ plans.items }
    {
        LegGroup { plans }
    }

    /// Puts a leg behind all others, of which there are less than 2^32 - 1.
    pub fn push(&mut self, plan: LegPlan) -> Result<(), Memory>
        requires { length self.old + 1 < 2 ^ 32 }
        ensures ok { OnOk result (self.new ≡ self.old ++ plan ∷ []) }
        ensures err { OnErr result (self.new ≡ self.old) }
    {
        self.plans.push(plan)?;
        Ok(())
    }

    /// The legs, in order: less than 2^32.
    pub fn as_slice(&self) -> &[LegPlan]
        ensures legs { result.now ≡ self.now }
        ensures bound { length self.now < 2 ^ 32 }
    {
        self.plans.as_slice()
    }

    /// Copies the group.
    pub fn copy(&self) -> Result<LegGroup, Memory>
        ensures { IfOk result (λ group. group ≡ self.now) }
    {
        let alloc = *self.plans.allocator();
        let mut group = LegGroup::new(alloc);
        for plan in &self.plans {
            group.push(plan.copy(alloc)?)?;
        }
        Ok(group)
    }
}

/// The vector of the legs, in order; takes no memory.
impl From<LegGroup> for Vec<LegPlan> {
    ghost from_gives = { λ group plans. plans.items ≡ group };

    fn from(group: LegGroup) -> Vec<LegPlan> {
        group.plans
    }
}

impl LegPlans {
    /// No groups.
    pub fn new(alloc: Global) -> LegPlans
        ensures { result ≡ [] }
    {
        LegPlans {
            groups: Vec::new(alloc),
        }
    }

    /// The groups of a vector, in its order; takes no memory.
    pub fn from_vec(groups: Vec<LegGroup>) -> LegPlans
        requires { length groups.items < 2 ^ 32 }
        ensures { result ≡ groups.items }
    {
        LegPlans { groups }
    }

    /// Puts a group behind all others, of which there are less than 2^32 - 1.
    pub fn push(&mut self, group: LegGroup) -> Result<(), Memory>
        requires { length self.old + 1 < 2 ^ 32 }
        ensures ok { OnOk result (self.new ≡ self.old ++ group ∷ []) }
        ensures err { OnErr result (self.new ≡ self.old) }
    {
        self.groups.push(group)?;
        Ok(())
    }

    /// The groups, in order: less than 2^32.
    pub fn as_slice(&self) -> &[LegGroup]
        ensures groups { result.now ≡ self.now }
        ensures bound { length self.now < 2 ^ 32 }
    {
        self.groups.as_slice()
    }

    /// Copies the groups.
    pub fn copy(&self) -> Result<LegPlans, Memory>
        ensures { IfOk result (λ plans. plans ≡ self.now) }
    {
        let mut plans = LegPlans::new(*self.groups.allocator());
        for group in &self.groups {
            plans.push(group.copy()?)?;
        }
        Ok(plans)
    }
}

/// The vector of the groups, in order; takes no memory.
impl From<LegPlans> for Vec<LegGroup> {
    ghost from_gives = { λ plans groups. groups.items ≡ plans };

    fn from(plans: LegPlans) -> Vec<LegGroup> {
        plans.groups
    }
}
