//! What a channel does that outlives its bridge.

ghost use Rattle.std.specs.Prelude.{◌≡◌, ◌≢◌, true};
ghost use Rattle.fs_bridge.specs.After as spec;
ghost use Rattle.fs_bridge.specs.Bridges.{has_leg};

use crate::row::{BridgeKind, Row};
use fs_text::Cause;
use fs_vars::Vars;

/// What a channel does that outlives its bridge.
#[derive(Clone, Copy, Debug, PartialEq, Eq)]
pub enum After {
    /// It goes on with its actions.
    GoOn,
    /// It hangs up, too.
    Hangup(Cause),
    /// It parks.
    Park,
}

/// What the survivor of a bridge does, by its variables, once the bridge has ended of a cause.
///
/// Who dialed goes on, or hangs up for that cause where its `hangup_after_bridge` is `true`, and so does either leg
/// of a bridge out of a queue. Who was dialed hangs up, or parks where its `park_after_bridge` is `true`, and so does
/// either leg of a bridge that a command joined.
pub fn after_bridge(row: &Row, survivor: u16, vars: &Vars, cause: Cause) -> After
    requires apart { row.now.caller ≢ row.now.answerer }
    requires leg { has_leg survivor row.now ≡ true }
    ensures { result ≡ spec.after_bridge row.now survivor vars.now cause }
{
    after_kind(row.kind, row.caller == survivor, vars, cause)
}

/// What a leg does that outlives a bridge of this kind, and that called where `called`.
pub(crate) fn after_kind(kind: BridgeKind, called: bool, vars: &Vars, cause: Cause) -> After
    ensures { result ≡ spec.after_kind kind called vars.now cause }
{
    match kind {
        BridgeKind::Dial if called => after_calling(vars, cause),
        BridgeKind::Dial | BridgeKind::Joined => after_being_called(vars),
        BridgeKind::Fifo => after_calling(vars, cause),
    }
}

/// What a leg does that called.
fn after_calling(vars: &Vars, cause: Cause) -> After
    ensures { result ≡ spec.after_calling vars.now cause }
{
    if says_true(vars, b"hangup_after_bridge") {
        After::Hangup(cause)
    } else {
        After::GoOn
    }
}

/// What a leg does that was called.
fn after_being_called(vars: &Vars) -> After
    ensures { result ≡ spec.after_being_called vars.now }
{
    if says_true(vars, b"park_after_bridge") {
        After::Park
    } else {
        After::Hangup(Cause::NormalClearing)
    }
}

/// Whether a variable is `true`.
fn says_true(vars: &Vars, name: &[u8]) -> bool
    ensures { result ≡ spec.says_true vars.now name.now }
{
    match vars.get(name) {
        Some(value) => value.as_bytes() == b"true".as_slice(),
        None => false,
    }
}
