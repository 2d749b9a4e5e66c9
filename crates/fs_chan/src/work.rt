//! What a channel runs next, and when.
ghost use Rattle.std.specs.Prelude.{◌≡◌, ◌<◌, ℕ, true, is_some};
ghost use Rattle.std.specs.Option.{option_copied};
ghost use Rattle.fs_chan.specs.declared.chan.Chan.{Chan};
ghost use Rattle.fs_chan.specs.declared.due.Due.TheVariants as due;
ghost use Rattle.fs_chan.specs.Work as spec;
ghost use Rattle.fs_chan.specs.Work.{due_of, next_action};

use crate::action::Action;
use crate::chan::Chan;
use crate::due::Due;
use crate::wait::Wait;
use fs_text::State;

impl Chan {
    /// What it runs next, if there is anything: its first message, or else its first action.
    ///
    /// Messages are run where it is ready in CS_EXECUTE, and where it is parked or held by a connection in CS_EXECUTE
    /// or CS_PARK; actions only where it is ready in CS_EXECUTE.
    pub fn next_action(&self) -> Option<&Action>
        ensures { option_copied result ≡ spec.next_action self.now }
    {
        if !self.runs_messages() {
            return None;
        }
        match self.messages.first() {
            Some(message) => Some(message),
            None if self.runs_actions() => self.actions.first(),
            None => None,
        }
    }

    /// Leaves behind what it runs next, if there is anything.
    pub fn pass_action(&mut self)
        ensures { self.new ≡ spec.after_next self.old }
    {
        if !self.runs_messages() {
            return;
        }
        if !self.messages.is_empty() {
            self.messages.pass_first();
        } else if self.runs_actions() {
            self.actions.pass_first();
        }
    }

    /// Whether it may run an action: it is ready in CS_EXECUTE.
    fn runs_actions(&self) -> bool
        ensures { result ≡ spec.runs_actions self.now.state self.now.wait }
    {
        matches!((self.state, &self.wait), (State::CsExecute, Wait::Ready))
    }

    /// Whether it may run a message: it is ready in CS_EXECUTE, or waits for a message.
    fn runs_messages(&self) -> bool
        ensures { result ≡ spec.runs_messages self.now.state self.now.wait }
    {
        matches!(
            (self.state, &self.wait),
            (
                State::CsExecute,
                Wait::Ready | Wait::Parked | Wait::Socket { .. }
            ) | (State::CsPark, Wait::Parked | Wait::Socket { .. })
        )
    }

    /// When it has something to do by itself, seen at a moment in microseconds.
    ///
    /// `None` where only others can bring it something: a message, a verdict, a caller, a link, an end of its bridge.
    pub fn due(&self, now: u64) -> Option<Due>
        ensures { result ≡ spec.due_of now self.now }
    {
        match self.state {
            State::CsNew | State::CsInit | State::CsRouting => Some(Due::Now),
            State::CsHangup | State::CsReporting => Some(Due::Now),
            State::CsExecute | State::CsPark => self.due_in_wait(now),
            _ => None,
        }
    }

    /// When what it waits for in CS_EXECUTE or CS_PARK is over.
    fn due_in_wait(&self, now: u64) -> Option<Due>
        ensures { result ≡ spec.due_in_wait now self.now.state self.now.wait self.now.messages }
    {
        match &self.wait {
            Wait::Sleep { until } if *until > now => Some(Due::At(*until)),
            Wait::Sleep { .. } => Some(Due::Now),
            Wait::Ready if self.runs_actions() => Some(Due::Now),
            Wait::Parked | Wait::Socket { .. } if !self.messages.is_empty() => Some(Due::Now),
            _ => None,
        }
    }
}

/// Law: what a channel has to do by itself, seen at other moments.
pub fn due_law()
    // A moment that is told is still to come.
    ensures to_come { (now until : ℕ) (c : Chan) → due_of now c ≡ Some (due.At until) → now < until }

    // Once it has come, the channel has something to do.
    ensures has_come { (now until : ℕ) (c : Chan) → due_of now c ≡ Some (due.At until) → due_of until c ≡ Some due.Now }

    // What is to be done stays so.
    ensures stays { spec.StaysDue }

    // Where there is anything to run next, it is to be done at once.
    ensures next { (now : ℕ) (c : Chan) → is_some (next_action c) ≡ true → due_of now c ≡ Some due.Now }
{}
