//! The states of a channel.

ghost use Rattle.std.specs.Prelude.{◌≡◌, map};
ghost use Rattle.fs_text.specs.Tables.{IsTable};
ghost use Rattle.fs_text.specs.State.{all_states, states, state_row, state_number, state_name, state_of_name};

use crate::tables::{Row, named};
use State::*;

/// Where a channel stands in its life. Names and numbers are those of FreeSWITCH's channel states.
///
/// A channel is live below `CS_HANGUP`.
#[derive(Clone, Copy, Debug, PartialEq, Eq)]
pub enum State {
    /// Was just made.
    CsNew,
    /// Is being set up.
    CsInit,
    /// Looks for an extension in the dialplan.
    CsRouting,
    /// Runs what another party gives it. Never entered here.
    CsSoftExecute,
    /// Runs the actions of its extension.
    CsExecute,
    /// Is joined to another channel.
    CsExchangeMedia,
    /// Waits for commands.
    CsPark,
    /// Waits, and drops what it hears.
    CsConsumeMedia,
    /// Sleeps. Never entered here.
    CsHibernate,
    /// Starts over. Never entered here.
    CsReset,
    /// Is hung up, and no longer live.
    CsHangup,
    /// Reports on its call.
    CsReporting,
    /// Is about to be freed.
    CsDestroy,
}

/// The table of states; a state's row stands at the position of its variant.
static STATES: [Row<State>; 13] = [
    (CsNew, 0, "CS_NEW"),
    (CsInit, 1, "CS_INIT"),
    (CsRouting, 2, "CS_ROUTING"),
    (CsSoftExecute, 3, "CS_SOFT_EXECUTE"),
    (CsExecute, 4, "CS_EXECUTE"),
    (CsExchangeMedia, 5, "CS_EXCHANGE_MEDIA"),
    (CsPark, 6, "CS_PARK"),
    (CsConsumeMedia, 7, "CS_CONSUME_MEDIA"),
    (CsHibernate, 8, "CS_HIBERNATE"),
    (CsReset, 9, "CS_RESET"),
    (CsHangup, 10, "CS_HANGUP"),
    (CsReporting, 11, "CS_REPORTING"),
    (CsDestroy, 12, "CS_DESTROY"),
];

#[tactic(auto, unfolding(crate::specs::State::state_row))]
impl State {
    /// The number of this state.
    pub fn number(self) -> u16
        ensures { result ≡ state_number self }
    {
        STATES[self as usize].1
    }

    /// The name of this state, as `CS_ROUTING`.
    pub fn name(self) -> &'static str
        ensures { result.now ≡ state_name self }
    {
        STATES[self as usize].2
    }

    /// The state that has exactly this name, if one has it.
    pub fn of_name(name: &[u8]) -> Option<State>
        ensures { result ≡ state_of_name name.now }
    {
        named(&STATES, name)
    }

    /// Each state with its number and its name, in the order of the numbers.
    pub fn table() -> &'static [(State, u16, &'static str)]
        ensures values { map (λ row. row.0) result.now ≡ all_states }
        ensures rows { map (λ row. (row.1, row.2.now)) result.now ≡ states }
    {
        &STATES
    }

    /// Law: numbers tell states apart, and `of_name` and `name` undo each other.
    pub fn table_law()
        ensures { IsTable states state_row state_of_name }
    {}
}
