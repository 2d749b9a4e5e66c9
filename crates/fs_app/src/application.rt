//! The applications of a channel.

use fs_chan::{Assignment, Target3};
use fs_text::{Cause, Txt};

/// What an application of a dialplan is asked to do, as FreeSWITCH's mod_dptools has them.
pub enum Application {
    /// The channel is answered.
    Answer,
    /// A variable is set or taken out, as the argument says.
    Assign { how: Assignment, argument: Txt },
    /// Nothing is done beyond the expansion of the argument.
    Eval,
    /// The channel waits for so many milliseconds, 0 to 3,600,000.
    Sleep { milliseconds: u64 },
    /// The channel is hung up.
    Hangup { cause: Cause },
    /// The legs of a dial string are tried, and the channel is joined to the one that wins.
    Bridge { dial: Txt },
    /// The channel is parked.
    Park,
    /// The channel is routed anew; each text has at most 256 bytes.
    Transfer { to: Target3 },
    /// The channel waits in the queue of a name, which is not empty.
    FifoIn { name: Txt },
    /// The channel takes the first caller of the queue of a name, which is not empty; where there is none it goes on,
    /// unless it waits for one.
    FifoOut { name: Txt, waits: bool },
    /// The channel has a controller dialed, where this argument names one, and is held by its connection then.
    Socket { target: Txt },
    /// There is no such application, or its words are out of their form.
    Unknown,
}

impl Drop for Application {
    fn drop(self) {
        match self {
            Application::Answer => {}
            Application::Assign {
                how: _,
                argument: _argument,
            } => {}
            Application::Eval => {}
            Application::Sleep { milliseconds: _ } => {}
            Application::Hangup { cause: _ } => {}
            Application::Bridge { dial: _dial } => {}
            Application::Park => {}
            Application::Transfer { to: _to } => {}
            Application::FifoIn { name: _name } => {}
            Application::FifoOut {
                name: _name,
                waits: _,
            } => {}
            Application::Socket { target: _target } => {}
            Application::Unknown => {}
        }
    }
}
