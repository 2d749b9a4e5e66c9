//! What bridges make of a channel, and what it hands on to the legs that it dials.
ghost use Rattle.std.specs.Prelude.{◌≡◌, ◌++◌, option_to_list, IfOk, OnOk, OnErr};
ghost use Rattle.fs_chan.specs.Bridging as spec;

use crate::chan::Chan;
use crate::exports::{exports, split_at_comma};
use crate::peer::Peer;
use crate::wait::Wait;
use fs_text::{Cause, Headers, Memory, State, Txt};
use fs_vars::Vars;
use std::alloc::Global;

impl Chan {
    /// Waits for the verdict on the origination of a number, which it owns.
    pub fn await_legs(&mut self, orig: u64)
        ensures { self.new ≡ spec.awaiting orig self.old }
    {
        self.wait = Wait::Legs { orig };
    }

    /// The number of the origination that it waits for.
    pub fn awaited(&self) -> Option<u64>
        ensures { result ≡ spec.awaited_by self.now }
    {
        match &self.wait {
            Wait::Legs { orig } => Some(*orig),
            _ => None,
        }
    }

    /// Tells by its variable `originate_disposition` what came of an origination.
    pub fn tell_disposition(&mut self, text: &[u8]) -> Result<(), Memory>
        ensures ok { OnOk result (self.new ≡ spec.with_disposition text.now self.old) }
        ensures err { OnErr result (self.new ≡ self.old) }
    {
        let _set = self.vars.set(b"originate_disposition", text)?;
        Ok(())
    }

    /// Is a leg of a bridge: it names the other one, which its variable `signal_bond` tells too, and waits for the end
    /// of the bridge.
    pub fn bridge(&mut self, peer: Peer) -> Result<(), Memory>
        ensures ok { OnOk result (self.new ≡ spec.bridged peer self.old) }
        ensures err { OnErr result (self.new ≡ self.old) }
    {
        let _set = self.vars.set(b"signal_bond", peer.uuid.as_bytes())?;
        self.peer = Some(peer);
        self.wait = Wait::Bridged;
        Ok(())
    }

    /// Has won as a leg of an origination, and is in the media of its bridge.
    pub fn enter_media(&mut self)
        ensures { self.new ≡ spec.in_media self.old }
    {
        self.leg_of = None;
        self.state = State::CsExchangeMedia;
    }

    /// Is a leg no more of a bridge that ended of a cause, which its variable `bridge_hangup_cause` tells.
    pub fn unbridge(&mut self, cause: Cause) -> Result<(), Memory>
        ensures ok { OnOk result (self.new ≡ spec.unbridged cause self.old) }
        ensures err { OnErr result (self.new ≡ self.old) }
    {
        let _set = self
            .vars
            .set(b"bridge_hangup_cause", cause.name().as_bytes())?;
        self.peer = None;
        Ok(())
    }

    /// Leaves what it ran and waited for, and the connection that held it. Its actions are dropped; messages stay.
    pub fn leave_all(&mut self)
        ensures { self.new ≡ spec.at_leisure self.old }
    {
        self.actions.clear();
        self.socket = None;
        self.go_on();
    }

    /// The variables that its new legs get, in the order of their list, each under the name that they get it by.
    pub fn exported_pairs(&self, alloc: Global) -> Result<Headers, Memory>
        ensures { IfOk result (λ pairs. pairs ≡ spec.exported_pairs self.now.vars) }
    {
        exported_pairs(alloc, &self.vars)
    }
}

/// The variables that are exported.
#[tactic(auto, using(crate::proofs::NameLemmas::told_next))]
fn exported_pairs(alloc: Global, vars: &Vars) -> Result<Headers, Memory>
    ensures { IfOk result (λ pairs. pairs ≡ spec.exported_pairs vars.now) }
{
    let mut pairs = Headers::new(alloc);
    let mut left = exports(vars);
    'names: loop {
        let (name, behind) = split_at_comma(left);
        push_exported(alloc, &mut pairs, vars, name)?;
        match behind {
            Some(rest) => left = rest,
            None => return Ok(pairs),
        }
    }
}

/// Puts the variable of a listed name behind all others, if it is there and has a name on a leg.
fn push_exported(
    alloc: Global,
    pairs: &mut Headers,
    vars: &Vars,
    listed: &[u8],
) -> Result<(), Memory>
    ensures ok { OnOk result (pairs.new ≡ pairs.old ++ option_to_list (spec.exported_pair vars.now listed.now)) }
{
    let name = local_name(listed);
    if name.is_empty() {
        return Ok(());
    }
    if let Some(value) = vars.get(listed) {
        pairs.push(Txt::of(alloc, name)?, value.copy()?)?;
    }
    Ok(())
}

/// A name without `nolocal:` in front, if that stands there.
fn local_name(name: &[u8]) -> &[u8]
    ensures { result.now ≡ spec.local_name name.now }
{
    if name.starts_with(b"nolocal:") {
        &name[8..]
    } else {
        name
    }
}
