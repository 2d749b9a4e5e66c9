//! Each single change of a channel.
ghost use Rattle.std.specs.Prelude.{◌≡◌, true, if◌then◌else◌, IfOk, OnOk, OnErr, is_none};
ghost use Rattle.fs_chan.specs.Changes as spec;

use crate::action::{Action, Actions};
use crate::chan::Chan;
use crate::left::ActionsLeft;
use crate::moment::moment_after;
use crate::target::Target3;
use crate::wait::Wait;
use fs_text::{Cause, Memory, State};
use fs_vars::Vars;
use std::alloc::Global;

/// The most messages that may wait to be run.
const MOST_MESSAGES: usize = 1_000;

impl Chan {
    /// Comes into a state; nothing else changes.
    pub fn enter(&mut self, state: State)
        ensures { self.new ≡ spec.in_state state self.old }
    {
        self.state = state;
    }

    /// Is answered by the entry at a place, where it was not answered before, and says whether it is now.
    pub fn answer(&mut self, place: u64) -> bool
        ensures answer { result ≡ is_none self.old.answered }
        ensures answered { self.new ≡ spec.with_answer_place place self.old }
    {
        if self.answered.is_some() {
            return false;
        }
        self.answered = Some(place);
        true
    }

    /// Begins to be routed to a target. What it ran, waited for and was still to run as actions is dropped, and no
    /// connection holds it any more; messages stay.
    pub fn transfer(&mut self, to: Target3) -> Result<(), Memory>
        requires { spec.IsShortTarget to }
        ensures ok { OnOk result (self.new ≡ spec.transferred to self.old) }
        ensures err { OnErr result (self.new ≡ self.old) }
        ensures short { spec.HasShortFields self.old.profile → spec.HasShortFields self.new.profile }
    {
        self.profile.send_to(to)?;
        self.actions.clear();
        self.running = None;
        self.wait = Wait::Ready;
        self.socket = None;
        self.state = State::CsRouting;
        Ok(())
    }

    /// Whether it may be routed once more: it was routed less than 70 times.
    pub fn may_route(&self) -> bool
        ensures { result ≡ spec.may_route self.now }
    {
        self.hops < 70
    }

    /// Was routed once more: it is to run these actions, and has these variables.
    pub fn route(&mut self, vars: Vars, actions: Actions) -> Result<(), Memory>
        requires { spec.may_route self.old ≡ true }
        ensures ok { OnOk result (self.new ≡ spec.routed vars actions self.old) }
        ensures err { OnErr result (self.new ≡ self.old) }
    {
        let actions = ActionsLeft::of(actions)?;
        self.vars.put(vars)?;
        self.actions = actions;
        self.hops += 1;
        self.state = State::CsExecute;
        Ok(())
    }

    /// Is sent a message, which it is to run behind those that wait, and says whether there was room for it: 1,000 may
    /// wait.
    pub fn take_message(&mut self, alloc: Global, message: Action) -> Result<bool, Memory>
        ensures answer { IfOk result (λ taken. taken ≡ spec.takes_message self.old) }
        ensures ok { IfOk result (λ taken. self.new
            ≡ (if taken then spec.with_message message self.old else self.old)) }
        ensures err { OnErr result (self.new ≡ self.old) }
    {
        if self.messages.len() >= MOST_MESSAGES {
            return Ok(false);
        }
        self.messages.push(alloc, message)?;
        Ok(true)
    }

    /// Goes on once what it waited for is over: the running application is complete.
    ///
    /// It then waits for its outbound connection, if it has one, or else rests in CS_PARK, or else is ready.
    pub fn go_on(&mut self)
        ensures { self.new ≡ spec.at_rest self.old }
    {
        self.running = None;
        self.wait = self.rest();
    }

    /// What it waits for while it runs nothing.
    fn rest(&self) -> Wait
        ensures { result ≡ spec.wait_at_rest self.now.socket self.now.state }
    {
        match (self.socket, self.state) {
            (Some(conn), _) => Wait::Socket { conn },
            (None, State::CsPark) => Wait::Parked,
            (None, _) => Wait::Ready,
        }
    }

    /// Comes to CS_PARK and rests there. Its actions are dropped; messages stay.
    pub fn park(&mut self)
        ensures { self.new ≡ spec.parked self.old }
    {
        self.actions.clear();
        self.enter(State::CsPark);
        self.go_on();
    }

    /// Sleeps for so many milliseconds from a moment on.
    pub fn sleep(&mut self, now: u64, milliseconds: u64)
        ensures { self.new ≡ spec.asleep now milliseconds self.old }
    {
        let until = moment_after(now, milliseconds.saturating_mul(1_000));
        self.wait = Wait::Sleep { until };
    }

    /// Is hung up with a cause, which its variable `hangup_cause` tells too. It waits for nothing, has nothing to run,
    /// and no longer names a partner, a peer, an origination or a connection.
    pub fn hang_up(&mut self, cause: Cause) -> Result<(), Memory>
        ensures ok { OnOk result (self.new ≡ spec.hung_up cause self.old) }
        ensures err { OnErr result (self.new ≡ self.old) }
    {
        let _set = self.vars.set(b"hangup_cause", cause.name().as_bytes())?;
        self.actions.clear();
        self.messages.clear();
        self.running = None;
        self.wait = Wait::Ready;
        self.partner = None;
        self.peer = None;
        self.leg_of = None;
        self.socket = None;
        self.cause = Some(cause);
        self.state = State::CsHangup;
        Ok(())
    }
}
