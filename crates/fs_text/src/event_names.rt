//! The names of events.

ghost use Rattle.std.specs.Prelude.{◌≡◌, map};
ghost use Rattle.fs_text.specs.Tables.{IsTable};
ghost use Rattle.fs_text.specs.EventName.{all_events, events, event_row, event_number, event_name, event_of_name};

use crate::tables::{Row, named};
use EventName::*;

/// What an event tells of. The names are those of FreeSWITCH's event socket; the numbers are this
/// project's own.
#[derive(Clone, Copy, Debug, PartialEq, Eq)]
pub enum EventName {
    /// An event of a subclass, as `fifo::info`.
    Custom,
    /// A channel was made.
    ChannelCreate,
    /// A channel came into another state.
    ChannelState,
    /// A channel was answered.
    ChannelAnswer,
    /// A channel begins to run an application.
    ChannelExecute,
    /// A channel is done with an application.
    ChannelExecuteComplete,
    /// Two channels were joined.
    ChannelBridge,
    /// Two channels were parted.
    ChannelUnbridge,
    /// A channel was parked.
    ChannelPark,
    /// A parked channel goes on.
    ChannelUnpark,
    /// A channel is hung up.
    ChannelHangup,
    /// A channel that was hung up is done, and tells its variables.
    ChannelHangupComplete,
    /// A channel is gone.
    ChannelDestroy,
    /// A command that ran in the background has its answer.
    BackgroundJob,
    /// The switch is stopping.
    Shutdown,
}

/// The table of event names; the row of each stands at the position of its variant.
static EVENT_NAMES: [Row<EventName>; 15] = [
    (Custom, 1, "CUSTOM"),
    (ChannelCreate, 2, "CHANNEL_CREATE"),
    (ChannelState, 3, "CHANNEL_STATE"),
    (ChannelAnswer, 4, "CHANNEL_ANSWER"),
    (ChannelExecute, 5, "CHANNEL_EXECUTE"),
    (ChannelExecuteComplete, 6, "CHANNEL_EXECUTE_COMPLETE"),
    (ChannelBridge, 7, "CHANNEL_BRIDGE"),
    (ChannelUnbridge, 8, "CHANNEL_UNBRIDGE"),
    (ChannelPark, 9, "CHANNEL_PARK"),
    (ChannelUnpark, 10, "CHANNEL_UNPARK"),
    (ChannelHangup, 11, "CHANNEL_HANGUP"),
    (ChannelHangupComplete, 12, "CHANNEL_HANGUP_COMPLETE"),
    (ChannelDestroy, 13, "CHANNEL_DESTROY"),
    (BackgroundJob, 14, "BACKGROUND_JOB"),
    (Shutdown, 15, "SHUTDOWN"),
];

#[tactic(auto, unfolding(crate::specs::EventName::event_row))]
impl EventName {
    /// The number of this name, from 1.
    pub fn number(self) -> u16
        ensures { result ≡ event_number self }
    {
        EVENT_NAMES[self as usize].1
    }

    /// The name as it is written, as `CHANNEL_ANSWER`.
    pub fn name(self) -> &'static str
        ensures { result.now ≡ event_name self }
    {
        EVENT_NAMES[self as usize].2
    }

    /// The event name that is written exactly so, if one is.
    pub fn of_name(name: &[u8]) -> Option<EventName>
        ensures { result ≡ event_of_name name.now }
    {
        named(&EVENT_NAMES, name)
    }

    /// Each event name with its number and how it is written, in the order of the numbers.
    pub fn table() -> &'static [(EventName, u16, &'static str)]
        ensures values { map (λ row. row.0) result.now ≡ all_events }
        ensures rows { map (λ row. (row.1, row.2.now)) result.now ≡ events }
    {
        &EVENT_NAMES
    }

    /// Law: numbers tell event names apart, and `of_name` and `name` undo each other.
    pub fn table_law()
        ensures { IsTable events event_row event_of_name }
    {}
}
