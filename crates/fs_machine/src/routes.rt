//! Routes that are planned beside the switch.

ghost use Rattle.std.specs.Prelude.{◌≡◌, ◌↔◌, IfOk, IsTrue};
ghost use Rattle.fs_machine.specs.Routes as spec;

use fs_chan::{Chan, SharedProfile, SharedVars};
use fs_plan::{Dialplan, Hunt};
use fs_ports::Gate;
use fs_text::{Memory, Txt};
use fs_vars::{Refused, Scope, Vars};
use std::alloc::Global;
use std::sync::Arc;

/// What a route of a channel rests on, as it stood once.
pub struct Snapshot {
    /// The identifier of the channel.
    pub uuid: Txt,
    /// How many entries had changed what its route rests on.
    pub touched: u64,
    /// How often other contexts had come into force.
    pub reloads: u64,
    /// The minute: how many had passed since moment 0.
    pub wall: i64,
    /// The variables of the channel.
    pub vars: SharedVars,
    pub profile: SharedProfile,
    /// The variables of the whole switch.
    pub globals: Vars,
    /// The dialplan in force.
    pub dialplan: Arc<Dialplan>,
}

impl Drop for Snapshot {
    fn drop(self) {
        let Snapshot {
            uuid: _uuid,
            touched: _touched,
            reloads: _reloads,
            wall: _wall,
            vars: _vars,
            profile: _profile,
            globals: _globals,
            dialplan: _dialplan,
        } = self;
    }
}

impl Snapshot {
    /// Hunts for a route, passing a gate between two conditions. None where a text is too long.
    pub fn plan<G: Gate>(self, alloc: Global, gate: &mut G) -> Result<Option<Plan>, Memory>
        ensures { IfOk result (spec.IsPlanOf self) }
    {
        match self.hunt(alloc, gate) {
            Ok(hunt) => Ok(Some(Plan { seen: self, hunt })),
            Err(Refused::TooLong { .. }) => Ok(None),
            Err(Refused::Memory) => Err(Memory),
        }
    }

    /// Whether a channel is the one that was seen, with the same variables and the same profile.
    pub(crate) fn shows(&self, chan: &Chan) -> bool
        ensures { IsTrue result ↔ spec.IsOf self.now chan.now }
    {
        if chan.uuid.as_bytes() != self.uuid.as_bytes() {
            return false;
        }
        chan.vars.is_same(&self.vars) && chan.profile.is_same(&self.profile)
    }

    // What its dialplan gives for it.
    fn hunt<G: Gate>(&self, alloc: Global, gate: &mut G) -> Result<Hunt, Refused>
        ensures { spec.IsHuntFor self.now result }
    {
        let profile = &*self.profile;
        let scope = Scope {
            vars: &self.vars,
            profile,
            globals: &self.globals,
        };
        self.dialplan
            .hunt(alloc, &scope, profile.context.as_bytes(), self.wall, gate)
    }
}

/// A route that was planned: what a hunt gave for what was seen.
pub struct Plan {
    pub seen: Snapshot,
    pub hunt: Hunt,
}

impl Drop for Plan {
    fn drop(self) {
        let Plan {
            seen: _seen,
            hunt: _hunt,
        } = self;
    }
}

impl Plan {
    /// What the hunt gave.
    pub(crate) fn into_hunt(self) -> Hunt
        ensures { result ≡ self.hunt }
    {
        let Plan { seen: _seen, hunt } = self;
        hunt
    }
}
