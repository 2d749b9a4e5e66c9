//! The api commands.

use crate::side::Side;
use crate::usages::Which;
use fs_chan::Target3;
use fs_orig::Winner;
use fs_text::{Cause, Txt};

/// An api command.
pub enum Api {
    /// The text is the answer.
    Echo {
        text: Txt,
    },
    /// The text is expanded, over what the channel of an identifier knows or, without one, over the globals, and run as
    /// an api command.
    Expand {
        uuid: Option<Txt>,
        text: Txt,
    },
    /// A new identifier is asked for.
    CreateUuid,
    /// The value of a global is asked for, or, without a name, all globals.
    GlobalGetvar {
        name: Option<Txt>,
    },
    /// A global is to be set.
    GlobalSetvar {
        name: Txt,
        value: Txt,
    },
    /// The reply is to come after so many milliseconds, 0 to 3,600,000.
    Msleep {
        milliseconds: u64,
    },
    /// Whether there is a live channel of an identifier.
    UuidExists {
        uuid: Txt,
    },
    /// A channel is to be hung up.
    UuidKill {
        uuid: Txt,
        cause: Cause,
    },
    /// A channel is to leave what it is in, and to park.
    UuidPark {
        uuid: Txt,
    },
    /// A channel, the other leg of its bridge, or both are to leave what they are in, and to be routed anew. A dialplan
    /// or context that is not given stays that of each.
    UuidTransfer {
        uuid: Txt,
        side: Side,
        to: Target3,
    },
    /// Two channels are to be joined.
    UuidBridge {
        uuid: Txt,
        other: Txt,
    },
    /// A variable of a channel is to be set.
    UuidSetvar {
        uuid: Txt,
        name: Txt,
        value: Txt,
    },
    /// The value of a channel's variable is asked for.
    UuidGetvar {
        uuid: Txt,
        name: Txt,
    },
    /// All that is told of a channel is asked for, with its variables.
    UuidDump {
        uuid: Txt,
    },
    /// All live channels are to be hung up.
    Hupall {
        cause: Cause,
    },
    /// The dialplan is to be loaded anew.
    Reloadxml,
    /// The switch is to come to its end.
    Shutdown,
    /// Legs are to be made, and the one that wins is to do something.
    Originate {
        url: Txt,
        winner: Winner,
        cid_name: Txt,
        cid_number: Txt,
        /// How many seconds the legs have, 1 to 3,600.
        timeout: Option<u64>,
    },
    /// A word is missing, or out of its form.
    Usage(Which),
    /// There is no such command.
    Unknown(Txt),
}

impl Drop for Api {
    fn drop(self) {
        match self {
            Api::Echo { text: _text } => {}
            Api::Expand {
                uuid: _uuid,
                text: _text,
            } => {}
            Api::CreateUuid => {}
            Api::GlobalGetvar { name: _name } => {}
            Api::GlobalSetvar {
                name: _name,
                value: _value,
            } => {}
            Api::Msleep { milliseconds: _ } => {}
            Api::UuidExists { uuid: _uuid } => {}
            Api::UuidKill {
                uuid: _uuid,
                cause: _,
            } => {}
            Api::UuidPark { uuid: _uuid } => {}
            Api::UuidTransfer {
                uuid: _uuid,
                side: _,
                to: _to,
            } => {}
            Api::UuidBridge {
                uuid: _uuid,
                other: _other,
            } => {}
            Api::UuidSetvar {
                uuid: _uuid,
                name: _name,
                value: _value,
            } => {}
            Api::UuidGetvar {
                uuid: _uuid,
                name: _name,
            } => {}
            Api::UuidDump { uuid: _uuid } => {}
            Api::Hupall { cause: _ } => {}
            Api::Reloadxml => {}
            Api::Shutdown => {}
            Api::Originate {
                url: _url,
                winner: _winner,
                cid_name: _cid_name,
                cid_number: _cid_number,
                timeout: _,
            } => {}
            Api::Usage(_) => {}
            Api::Unknown(_name) => {}
        }
    }
}
