//! How often what the route of a channel rests on was changed.

ghost use Rattle.std.specs.Prelude.{◌≡◌, ◌≢◌, ◌↔◌, ℕ, ◌<◌, length, replicate, slice_index, IfOk, IsTrue};
ghost use Rattle.std.specs.Option.{option_copied};
ghost use Rattle.fs_state.specs.Drafts.{after};
ghost use Rattle.fs_machine.specs.Routes as spec;

use fs_chan::Chan;
use fs_state::{Core, Delta};
use fs_text::{Memory, State};
use std::alloc::Global;
use std::marker::Model;

/// For each slot how many entries have changed what the route of its channel rests on. A contract sees these counts.
#[derive(Drop)]
pub(crate) struct Touches {
    counts: Vec<u64>,
}

impl Model for Touches {
    ghost use Rattle.std.specs.Prelude.{ℕ, List};

    ghost Value = { List ℕ };

    ghost view = { λ t. t.counts.items };
}

impl Touches {
    /// None for so many slots.
    pub(crate) fn none(alloc: Global, slots: u16) -> Result<Touches, Memory>
        ensures { IfOk result (λ touches. touches ≡ replicate slots 0) }
    {
        let counts = vec![in alloc; 0; usize::from(slots)]?;
        Ok(Touches { counts })
    }

    /// How many entries have changed what the route of the channel in a slot rests on.
    pub(crate) fn of(&self, slot: u16) -> u64
        ensures { result ≡ slice_index self.now slot }
    {
        match self.counts.get(usize::from(slot)) {
            Some(count) => *count,
            None => 0,
        }
    }

    /// Counts an entry that is to make these changes.
    pub(crate) fn note(&mut self, core: &Core, delta: &Delta)
        requires { length self.old ≡ length core.now.switch.channels }
        ensures counted { spec.AreCountedOn core.now.switch (after core.now.switch delta.now) self.old self.new }
        ensures all { length self.new ≡ length self.old }
    {
        if keeps_globals(core, delta) {
            self.note_written(core, delta);
        } else {
            self.note_all(core, delta);
        }
    }

    // Counts it where it writes a channel, since the globals stay.
    fn note_written(&mut self, core: &Core, delta: &Delta)
        requires all { length self.old ≡ length core.now.switch.channels }
        requires globals { (after core.now.switch delta.now).globals ≡ core.now.switch.globals }
        ensures counted { spec.AreCountedOn core.now.switch (after core.now.switch delta.now) self.old self.new }
        ensures all { length self.new ≡ length self.old }
    {
        let slots = core.slots();
        for write in 0..delta.channels.len() {
            if let Some(seat) = delta.channels.last_of(write) {
                if seat < usize::from(slots) {
                    self.note_slot(core, delta, seat as u16, true);
                }
            }
        }
    }

    // Counts it wherever a channel is to be routed, since the globals change.
    fn note_all(&mut self, core: &Core, delta: &Delta)
        requires all { length self.old ≡ length core.now.switch.channels }
        requires globals { (after core.now.switch delta.now).globals ≢ core.now.switch.globals }
        ensures counted { spec.AreCountedOn core.now.switch (after core.now.switch delta.now) self.old self.new }
        ensures all { length self.new ≡ length self.old }
    {
        for slot in 0..core.slots() {
            self.note_slot(core, delta, slot, false);
        }
    }

    // Counts it in one slot, if it changes what stands there; `same` says whether the globals stay.
    fn note_slot(&mut self, core: &Core, delta: &Delta, slot: u16, same: bool)
        requires slot { slot < length self.old }
        requires same { IsTrue same ↔ ((after core.now.switch delta.now).globals ≡ core.now.switch.globals) }
        ensures here { spec.IsCountedOn (spec.basis_at slot core.now.switch)
            (spec.basis_at slot (after core.now.switch delta.now))
            (slice_index self.old slot) (slice_index self.new slot) }
        ensures others { (other : ℕ) → other ≢ slot → slice_index self.new other ≡ slice_index self.old other }
        ensures all { length self.new ≡ length self.old }
    {
        if changes(core, delta, slot, same) {
            let count = self.of(slot);
            self.counts[usize::from(slot)] = count.saturating_add(1);
        }
    }
}

// Whether changes leave the globals as they are.
fn keeps_globals(core: &Core, delta: &Delta) -> bool
    ensures { IsTrue result ↔ ((after core.now.switch delta.now).globals ≡ core.now.switch.globals) }
{
    match &delta.globals {
        Some(globals) => globals.is_same(core.globals()),
        None => true,
    }
}

// Whether changes change what the route of the channel in a slot rests on; `same` says whether the globals stay.
fn changes(core: &Core, delta: &Delta, slot: u16, same: bool) -> bool
    requires { IsTrue same ↔ ((after core.now.switch delta.now).globals ≡ core.now.switch.globals) }
    ensures { IsTrue result
        ↔ (spec.basis_at slot core.now.switch ≢ spec.basis_at slot (after core.now.switch delta.now)) }
{
    let after = to_route(core.chan_after(delta, slot));
    let Some(before) = to_route(core.chan(slot)) else {
        return after.is_some();
    };
    let Some(after) = after else {
        return true;
    };
    let alike = is_as(before, after);
    !(same && alike)
}

/// The channel that may be there, if it is to be routed.
pub(crate) fn to_route(chan: Option<&Chan>) -> Option<&Chan>
    ensures { option_copied result ≡ spec.routing_in (option_copied chan.entry) }
{
    let chan = chan?;
    if is_routing(chan.state) {
        Some(chan)
    } else {
        None
    }
}

// Whether a channel in this state is to be routed.
fn is_routing(state: State) -> bool
    ensures { result ≡ spec.is_routing state }
{
    matches!(state, State::CsRouting)
}

// Whether a channel is another one, with the same profile and variables.
fn is_as(chan: &Chan, other: &Chan) -> bool
    ensures { IsTrue result ↔ spec.IsAs chan.now other.now }
{
    if chan.uuid.as_bytes() != other.uuid.as_bytes() {
        return false;
    }
    chan.vars.is_same(&other.vars) && chan.profile.is_same(&other.profile)
}
