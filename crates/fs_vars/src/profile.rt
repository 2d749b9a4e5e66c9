//! What is known of a call.
ghost use Rattle.std.specs.Prelude.{◌≡◌, ◌↔◌, IfOk, option_copied, IsTrue};
ghost use Rattle.fs_vars.specs.Pairs.{value_of};

use fs_text::{Memory, Txt};
use std::alloc::Global;

/// What is known of a call: who calls whom, and how it came in.
pub struct Profile {
    pub destination_number: Txt,
    pub caller_id_name: Txt,
    pub caller_id_number: Txt,
    pub ani: Txt,
    pub rdnis: Txt,
    pub context: Txt,
    pub dialplan: Txt,
    pub source: Txt,
    pub uuid: Txt,
    pub chan_name: Txt,
    pub network_addr: Txt,
    pub username: Txt,
}

impl Drop for Profile {
    fn drop(self) {
        let Profile {
            destination_number: _destination_number,
            caller_id_name: _caller_id_name,
            caller_id_number: _caller_id_number,
            ani: _ani,
            rdnis: _rdnis,
            context: _context,
            dialplan: _dialplan,
            source: _source,
            uuid: _uuid,
            chan_name: _chan_name,
            network_addr: _network_addr,
            username: _username,
        } = self;
    }
}

impl Profile {
    ghost use Rattle.fs_vars.specs.Scopes.{fields_of, empty_profile};

    /// A profile whose fields are all empty.
    pub fn empty(alloc: Global) -> Result<Profile, Memory>
        ensures { IfOk result (λ p. p ≡ empty_profile) }
    {
        let empty = Txt::of(alloc, b"")?;
        Ok(Profile {
            destination_number: empty.copy()?,
            caller_id_name: empty.copy()?,
            caller_id_number: empty.copy()?,
            ani: empty.copy()?,
            rdnis: empty.copy()?,
            context: empty.copy()?,
            dialplan: empty.copy()?,
            source: empty.copy()?,
            uuid: empty.copy()?,
            chan_name: empty.copy()?,
            network_addr: empty.copy()?,
            username: empty,
        })
    }

    /// The same profile once more.
    pub fn copy(&self) -> Result<Profile, Memory>
        ensures { IfOk result (λ p. p ≡ self.now) }
    {
        Ok(Profile {
            destination_number: self.destination_number.copy()?,
            caller_id_name: self.caller_id_name.copy()?,
            caller_id_number: self.caller_id_number.copy()?,
            ani: self.ani.copy()?,
            rdnis: self.rdnis.copy()?,
            context: self.context.copy()?,
            dialplan: self.dialplan.copy()?,
            source: self.source.copy()?,
            uuid: self.uuid.copy()?,
            chan_name: self.chan_name.copy()?,
            network_addr: self.network_addr.copy()?,
            username: self.username.copy()?,
        })
    }

    /// Whether each field is the same.
    pub fn is_same(&self, other: &Profile) -> bool
        ensures { IsTrue result ↔ (self.now ≡ other.now) }
    {
        is_same(&self.destination_number, &other.destination_number)
            && is_same(&self.caller_id_name, &other.caller_id_name)
            && is_same(&self.caller_id_number, &other.caller_id_number)
            && is_same(&self.ani, &other.ani)
            && is_same(&self.rdnis, &other.rdnis)
            && is_same(&self.context, &other.context)
            && is_same(&self.dialplan, &other.dialplan)
            && is_same(&self.source, &other.source)
            && is_same(&self.uuid, &other.uuid)
            && is_same(&self.chan_name, &other.chan_name)
            && is_same(&self.network_addr, &other.network_addr)
            && is_same(&self.username, &other.username)
    }

    /// The field of a name.
    #[tactic(auto, unfolding(crate::specs::Scopes::fields_of))]
    pub fn get(&self, name: &[u8]) -> Option<&Txt>
        ensures { option_copied result ≡ value_of (fields_of self.now) name.now }
    {
        if name == b"destination_number".as_slice() {
            Some(&self.destination_number)
        } else if name == b"caller_id_name".as_slice() {
            Some(&self.caller_id_name)
        } else if name == b"caller_id_number".as_slice() {
            Some(&self.caller_id_number)
        } else if name == b"ani".as_slice() {
            Some(&self.ani)
        } else if name == b"rdnis".as_slice() {
            Some(&self.rdnis)
        } else if name == b"context".as_slice() {
            Some(&self.context)
        } else if name == b"dialplan".as_slice() {
            Some(&self.dialplan)
        } else if name == b"source".as_slice() {
            Some(&self.source)
        } else if name == b"uuid".as_slice() {
            Some(&self.uuid)
        } else if name == b"chan_name".as_slice() {
            Some(&self.chan_name)
        } else if name == b"network_addr".as_slice() {
            Some(&self.network_addr)
        } else if name == b"username".as_slice() {
            Some(&self.username)
        } else {
            None
        }
    }
}

/// Whether two texts have the same bytes.
fn is_same(text: &Txt, other: &Txt) -> bool
    ensures { IsTrue result ↔ (text.now ≡ other.now) }
{
    text.as_bytes() == other.as_bytes()
}
