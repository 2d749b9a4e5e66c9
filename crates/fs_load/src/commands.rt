//! The commands of a load, one call after another.

ghost use Rattle.std.specs.Prelude.{◌≡◌, ◌<◌, ◌++◌, [], length, IfSome, IfNone};
ghost use Rattle.fs_load.specs.Calls as spec;

use crate::texts::{EXIT, call_with};
use std::marker::Model;

const MULTIPLIER: u64 = 6_364_136_223_846_793_005;

const INCREMENT: u64 = 1_442_695_040_888_963_407;

/// The commands that are still to come: those of so many calls, and then `exit`.
///
/// A contract sees them as their text.
#[derive(Drop)]
pub(crate) struct Commands {
    calls: u64,
    // The next call is made from the number behind this one.
    number: u64,
    // Whether `exit` is still to come.
    stays: bool,
}

impl Model for Commands {
    ghost use Rattle.std.specs.Prelude.{ℕ, List, [], ◌++◌, if◌then◌else◌};
    ghost use Rattle.fs_load.specs.Calls.{calls_text, exit_text};

    ghost Value = { List ℕ };

    ghost view = { λ c. calls_text c.calls c.number ++ (if c.stays then exit_text else []) };
}

impl Commands {
    /// Those of so many calls, of which the first is made from the number behind `start`.
    pub(crate) fn of_calls(calls: u64, start: u64) -> Commands
        ensures { result ≡ spec.calls_text calls start ++ spec.exit_text }
    {
        Commands {
            calls,
            number: start,
            stays: true,
        }
    }

    /// The next of them, if there is one: those of a call, or `exit`.
    #[tactic(auto, unfolding(crate::specs::Calls::exit_text))]
    pub(crate) fn next(&mut self) -> Option<&'static str>
        ensures some { IfSome result (λ text. (0 < length text.now) × (self.old ≡ text.now ++ self.new)) }
        ensures none { IfNone result (self.old ≡ []) }
        ensures same { IfNone result (self.new ≡ self.old) }
    {
        if self.calls > 0 {
            self.calls -= 1;
            self.number = number_behind(self.number);
            return Some(call_with((self.number >> 33) % 4));
        }
        if self.stays {
            self.stays = false;
            return Some(EXIT);
        }
        None
    }
}

// The number that follows a number.
fn number_behind(number: u64) -> u64
    ensures { result ≡ spec.number_behind number }
{
    number.wrapping_mul(MULTIPLIER).wrapping_add(INCREMENT)
}
