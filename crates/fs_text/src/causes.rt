//! The causes of a hangup.

ghost use Rattle.std.specs.Prelude.{◌≡◌, map};
ghost use Rattle.fs_text.specs.Tables.{IsTable};
ghost use Rattle.fs_text.specs.Cause.{all_causes, causes, cause_row, cause_number, cause_name, cause_of_name};
ghost use Rattle.fs_text.specs.Cause.{cause_or_clearing};

use crate::tables::{Row, named};
use Cause::*;

/// Why a channel is hung up. Names and numbers are those of FreeSWITCH's hangup causes.
///
/// A number below 128 is the cause value of ITU-T Q.850; the others are FreeSWITCH's own.
#[derive(Clone, Copy, Debug, PartialEq, Eq)]
pub enum Cause {
    /// Q.850 cause 1: the number is assigned to nobody.
    UnallocatedNumber,
    /// Q.850 cause 3: no route to the destination.
    NoRouteDestination,
    /// Q.850 cause 16: a party hung up.
    NormalClearing,
    /// Q.850 cause 17: the called user is busy.
    UserBusy,
    /// Q.850 cause 18: the called user does not respond.
    NoUserResponse,
    /// Q.850 cause 19: the called user was alerted and did not answer.
    NoAnswer,
    /// Q.850 cause 20: the subscriber is absent.
    SubscriberAbsent,
    /// Q.850 cause 21: the call was rejected.
    CallRejected,
    /// Q.850 cause 25: an exchange failed to route the call.
    ExchangeRoutingError,
    /// Q.850 cause 27: the destination is out of order.
    DestinationOutOfOrder,
    /// Q.850 cause 28: the number is incomplete or badly formed.
    InvalidNumberFormat,
    /// Q.850 cause 31: normal, and nothing more is known.
    NormalUnspecified,
    /// Q.850 cause 41: a temporary failure.
    NormalTemporaryFailure,
    /// Q.850 cause 42: the switch has too much to do.
    SwitchCongestion,
    /// The caller gave up before an answer.
    OriginatorCancel,
    /// The switch is stopping.
    SystemShutdown,
    /// Another leg answered first.
    LoseRace,
    /// A command asked for it.
    ManagerRequest,
    /// The time that the call was given is over.
    AllottedTimeout,
    /// Another channel took the call.
    PickedOff,
}

/// The table of causes; a cause's row stands at the position of its variant.
static CAUSES: [Row<Cause>; 20] = [
    (UnallocatedNumber, 1, "UNALLOCATED_NUMBER"),
    (NoRouteDestination, 3, "NO_ROUTE_DESTINATION"),
    (NormalClearing, 16, "NORMAL_CLEARING"),
    (UserBusy, 17, "USER_BUSY"),
    (NoUserResponse, 18, "NO_USER_RESPONSE"),
    (NoAnswer, 19, "NO_ANSWER"),
    (SubscriberAbsent, 20, "SUBSCRIBER_ABSENT"),
    (CallRejected, 21, "CALL_REJECTED"),
    (ExchangeRoutingError, 25, "EXCHANGE_ROUTING_ERROR"),
    (DestinationOutOfOrder, 27, "DESTINATION_OUT_OF_ORDER"),
    (InvalidNumberFormat, 28, "INVALID_NUMBER_FORMAT"),
    (NormalUnspecified, 31, "NORMAL_UNSPECIFIED"),
    (NormalTemporaryFailure, 41, "NORMAL_TEMPORARY_FAILURE"),
    (SwitchCongestion, 42, "SWITCH_CONGESTION"),
    (OriginatorCancel, 487, "ORIGINATOR_CANCEL"),
    (SystemShutdown, 501, "SYSTEM_SHUTDOWN"),
    (LoseRace, 502, "LOSE_RACE"),
    (ManagerRequest, 503, "MANAGER_REQUEST"),
    (AllottedTimeout, 602, "ALLOTTED_TIMEOUT"),
    (PickedOff, 605, "PICKED_OFF"),
];

#[tactic(auto, unfolding(crate::specs::Cause::cause_row))]
impl Cause {
    /// The number of this cause.
    pub fn number(self) -> u16
        ensures { result ≡ cause_number self }
    {
        CAUSES[self as usize].1
    }

    /// The name of this cause, as `NORMAL_CLEARING`.
    pub fn name(self) -> &'static str
        ensures { result.now ≡ cause_name self }
    {
        CAUSES[self as usize].2
    }

    /// The cause that has exactly this name, if one has it.
    pub fn of_name(name: &[u8]) -> Option<Cause>
        ensures { result ≡ cause_of_name name.now }
    {
        named(&CAUSES, name)
    }

    /// The cause that has exactly this name, or `NORMAL_CLEARING` where none has it.
    pub fn of_name_or_clearing(name: &[u8]) -> Cause
        ensures { result ≡ cause_or_clearing name.now }
    {
        Cause::of_name(name).unwrap_or(NormalClearing)
    }

    /// Each cause with its number and its name, in the order of the numbers.
    pub fn table() -> &'static [(Cause, u16, &'static str)]
        ensures values { map (λ row. row.0) result.now ≡ all_causes }
        ensures rows { map (λ row. (row.1, row.2.now)) result.now ≡ causes }
    {
        &CAUSES
    }

    /// Law: numbers tell causes apart, and `of_name` and `name` undo each other.
    pub fn table_law()
        ensures { IsTable causes cause_row cause_of_name }
    {}
}
