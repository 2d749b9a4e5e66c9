//! The named values that a text can use.
ghost use Rattle.std.specs.Prelude.{◌≡◌, option_copied};
ghost use Rattle.fs_vars.specs.Pairs.{value_of};

use crate::profile::Profile;
use crate::vars::Vars;
use fs_text::Txt;

/// Where the names of a text are looked for: in the variables, then among the fields of the profile, then in the
/// globals.
#[derive(Clone, Copy)]
pub struct Scope<'a> {
    pub vars: &'a Vars,
    pub profile: &'a Profile,
    pub globals: &'a Vars,
}

impl<'a> Scope<'a> {
    ghost use Rattle.fs_vars.specs.Scopes.{known_in};

    /// The value of a name. A field of the profile hides a global of its name, even where it is empty.
    #[tactic(auto, using(crate::proofs::PairsLemmas::found), unfolding(crate::specs::Scopes::known_in))]
    pub fn get(&self, name: &[u8]) -> Option<&'a Txt>
        ensures { option_copied result ≡ value_of (known_in self.now) name.now }
    {
        self.vars
            .get(name)
            .or_else(|| self.profile.get(name))
            .or_else(|| self.globals.get(name))
    }
}
