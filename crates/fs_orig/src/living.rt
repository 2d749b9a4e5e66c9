//! The slots in which the legs of an origination live.

ghost use Rattle.std.specs.Prelude.{◌≡◌, ◌++◌, IfOk, OnOk};
ghost use Rattle.fs_orig.specs.Legs as spec;

use crate::leg::OrigLeg;
use fs_text::Memory;
use std::alloc::Global;

/// The slots of the legs that live, in order.
pub fn living_slots(alloc: Global, legs: &[OrigLeg]) -> Result<Vec<u16>, Memory>
    ensures { IfOk result (λ slots. slots.items ≡ spec.living_slots legs.now) }
{
    let mut slots = Vec::new(alloc);
    add_living_slots(&mut slots, legs)?;
    Ok(slots)
}

/// Puts the slots of the legs that live behind all others.
#[tactic(auto, using(crate::proofs::LegLemmas::living_rules))]
pub fn add_living_slots(slots: &mut Vec<u16>, legs: &[OrigLeg]) -> Result<(), Memory>
    ensures { OnOk result (slots.new.items ≡ slots.old.items ++ spec.living_slots legs.now) }
{
    for leg in legs {
        if let Some(slot) = leg.living_slot() {
            slots.push(slot)?;
        }
    }
    Ok(())
}

impl OrigLeg {
    /// Its slot, if it lives.
    pub fn living_slot(&self) -> Option<u16>
        ensures { result ≡ spec.living_slot self.now }
    {
        if self.lives() { self.slot } else { None }
    }
}
