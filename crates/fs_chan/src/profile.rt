//! The profile of a channel, shared between its copies.

ghost use Rattle.std.specs.Prelude.{◌≡◌, IfOk, OnOk, OnErr, unwrap_or};
ghost use Rattle.fs_chan.specs.Changes as spec;

use crate::target::Target3;
use fs_text::{Memory, Txt};
use fs_vars::Profile;
use std::alloc::Global;
use std::marker::Model;
use std::ops::Deref;
use std::sync::Arc;

/// A profile that its copies share until one of them is changed. A contract sees it as the profile.
#[derive(Drop)]
pub struct SharedProfile {
    alloc: Global,
    shared: Arc<Profile>,
}

impl Model for SharedProfile {
    ghost use Rattle.std.specs.Arc.{arc_value};
    ghost use Rattle.fs_vars.specs.declared.profile.Profile.{Profile};

    ghost Value = { Profile };

    ghost view = { λ p. arc_value p.shared };
}

impl SharedProfile {
    /// A profile that nothing shares yet.
    pub fn of(alloc: Global, profile: Profile) -> Result<SharedProfile, Memory>
        ensures { IfOk result (λ shared. shared ≡ profile) }
    {
        let shared = Arc::new(alloc, profile)?;
        Ok(SharedProfile { alloc, shared })
    }

    /// The same profile once more, in constant time.
    pub fn copy(&self) -> Result<SharedProfile, Memory>
        ensures { IfOk result (λ shared. shared ≡ self.now) }
    {
        let shared = self.shared.clone()?;
        Ok(SharedProfile {
            alloc: self.alloc,
            shared,
        })
    }

    /// Has a new destination. A dialplan or context that is not named stays, and so do its copies.
    pub fn send_to(&mut self, to: Target3) -> Result<(), Memory>
        ensures ok { OnOk result (self.new ≡ spec.sent_to to self.old) }
        ensures err { OnErr result (self.new ≡ self.old) }
    {
        if let Some(profile) = Arc::get_mut(&mut self.shared) {
            send(profile, to);
            return Ok(());
        }
        let mut profile = self.shared.copy()?;
        send(&mut profile, to);
        self.shared = Arc::new(self.alloc, profile)?;
        Ok(())
    }
}

impl Deref for SharedProfile {
    type Target = Profile;

    ghost deref_gives = { λ shared profile. profile ≡ shared };

    fn deref(&self) -> &Profile {
        &self.shared
    }
}

/// Gives a profile a new destination.
fn send(profile: &mut Profile, to: Target3)
    ensures { profile.new ≡ spec.sent_to to profile.old }
{
    let (exten, dialplan, context) = to.into_texts();
    profile.destination_number = exten;
    set_if_named(&mut profile.dialplan, dialplan);
    set_if_named(&mut profile.context, context);
}

/// Sets a field of a profile, where a text for it is named.
fn set_if_named(field: &mut Txt, named: Option<Txt>)
    ensures { field.new ≡ unwrap_or named field.old }
{
    let Some(text) = named else {
        return;
    };
    *field = text;
}
