//! The settings of a configuration.

ghost use Rattle.std.specs.Prelude.{◌≡◌, ◌-◌, ◌≤◌, IfOk, IfSome};
ghost use Rattle.fs_doc.specs.Settings as defs;

use fs_text::{CoreId, Memory, Txt, read_u64};
use std::alloc::Global;

/// The settings of a switch.
pub struct Settings {
    /// The identifier of the switch.
    pub core_uuid: CoreId,
    /// How many channels there may be: 1 to 256.
    pub max_sessions: u16,
    /// The most that the journal may cost: 1,048,576 to 1,073,741,824.
    pub journal_limit: u64,
    /// Where the event socket listens.
    pub listen_ip: Txt,
    /// The port where it listens, from 1.
    pub listen_port: u16,
    /// What its clients have to say: 1 to 256 bytes.
    pub password: Txt,
    /// How many connections there may be: 1 to 16.
    pub max_connections: u16,
}

impl Drop for Settings {
    fn drop(self) {
        let Settings {
            core_uuid: _core_uuid,
            max_sessions: _max_sessions,
            journal_limit: _journal_limit,
            listen_ip: _listen_ip,
            listen_port: _listen_port,
            password: _password,
            max_connections: _max_connections,
        } = self;
    }
}

/// A configuration, by what its parameters set.
#[derive(Clone, Copy, Debug, PartialEq, Eq)]
pub enum ConfigFile {
    Switch,
    EventSocket,
    Other,
}

impl ConfigFile {
    /// The configuration of a name.
    #[tactic(auto, unfolding(crate::specs::Settings::file_of))]
    pub fn of(name: &[u8]) -> ConfigFile
        ensures { result ≡ defs.file_of name.now }
    {
        if name == b"switch.conf".as_slice() {
            ConfigFile::Switch
        } else if name == b"event_socket.conf".as_slice() {
            ConfigFile::EventSocket
        } else {
            ConfigFile::Other
        }
    }
}

impl Settings {
    ghost use Rattle.fs_doc.specs.Settings.{IsSet};

    /// The settings where no document says otherwise.
    #[tactic(auto, unfolding(crate::specs::Settings::default_settings))]
    pub(crate) fn new(alloc: Global) -> Result<Settings, Memory>
        ensures { IfOk result (λ s. s ≡ defs.default_settings) }
    {
        Ok(Settings {
            core_uuid: CoreId::default(),
            max_sessions: 32,
            journal_limit: 67_108_864,
            listen_ip: Txt::of(alloc, b"127.0.0.1")?,
            listen_port: 8_021,
            password: Txt::of(alloc, b"ClueCon")?,
            max_connections: 16,
        })
    }

    /// Sets what a parameter of a configuration says, or nothing, where its value is out of range.
    #[tactic(auto, unfolding(crate::specs::Settings::setting))]
    pub(crate) fn set(&mut self, file: ConfigFile, name: &[u8], value: Txt) -> Option<()>
        ensures { IsSet self.new result (defs.setting file name.now value self.old) }
    {
        match file {
            ConfigFile::Switch => self.set_switch(name, value.as_bytes()),
            ConfigFile::EventSocket => self.set_socket(name, value),
            ConfigFile::Other => Some(()),
        }
    }

    #[tactic(auto, unfolding(crate::specs::Settings::switch_setting))]
    fn set_switch(&mut self, name: &[u8], value: &[u8]) -> Option<()>
        ensures { IsSet self.new result (defs.switch_setting name.now value.now self.old) }
    {
        if name == b"core-uuid".as_slice() {
            self.core_uuid = core_of(value)?;
            return Some(());
        }
        if name == b"max-sessions".as_slice() {
            let sessions = number_within(1, u64::MAX, value)?;
            self.max_sessions = sessions.min(256) as u16;
            return Some(());
        }
        if name == b"journal-limit".as_slice() {
            self.journal_limit = number_within(1_048_576, 1_073_741_824, value)?;
        }
        Some(())
    }

    #[tactic(auto, unfolding(crate::specs::Settings::socket_setting))]
    fn set_socket(&mut self, name: &[u8], value: Txt) -> Option<()>
        ensures { IsSet self.new result (defs.socket_setting name.now value self.old) }
    {
        if name == b"listen-ip".as_slice() {
            self.listen_ip = value;
            return Some(());
        }
        if name == b"listen-port".as_slice() {
            self.listen_port = number_within(1, 65_535, value.as_bytes())? as u16;
            return Some(());
        }
        if name == b"password".as_slice() {
            return self.set_password(value);
        }
        if name == b"max-connections".as_slice() {
            self.max_connections = number_within(1, 16, value.as_bytes())? as u16;
        }
        Some(())
    }

    #[tactic(auto, unfolding(crate::specs::Settings::password_setting))]
    fn set_password(&mut self, value: Txt) -> Option<()>
        ensures { IsSet self.new result (defs.password_setting value self.old) }
    {
        let len = value.as_bytes().len();
        if len < 1 || len > 256 {
            return None;
        }
        self.password = value;
        Some(())
    }
}

/// The number that a text says, where it is in a range.
#[tactic(auto, unfolding(crate::specs::Settings::number_within))]
fn number_within(least: u64, most: u64, text: &[u8]) -> Option<u64>
    ensures number { result ≡ defs.number_within least most text.now }
    ensures range { IfSome result (λ n. (least ≤ n) × (n ≤ most)) }
{
    let number = read_u64(text)?;
    if least <= number && number <= most {
        Some(number)
    } else {
        None
    }
}

/// The core that a text is the identifier of.
fn core_of(text: &[u8]) -> Option<CoreId>
    ensures { result ≡ defs.core_of text.now }
{
    CoreId::of_text(text)
}
