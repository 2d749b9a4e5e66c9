//! Texts that a hunt expands.

ghost use Rattle.std.specs.Prelude.{◌≡◌, Ok, IfOk, IfErr};
ghost use Rattle.fs_plan.specs.Outcomes.{IsFault};
ghost use Rattle.fs_plan.specs.Hunting as spec;

use crate::hunt::Hunt;
use fs_text::Txt;
use fs_vars::{Profile, Refused, Scope, expand};
use std::alloc::Global;

impl Hunt {
    /// A text with its references expanded, by what the hunt has come to.
    #[tactic(auto, using(crate::proofs::TextLemmas::limit_rules), unfolding(fs_vars::specs::Scopes::known_in))]
    pub(crate) fn expanded(
        &self,
        alloc: Global,
        profile: &Profile,
        text: &Txt,
    ) -> Result<Txt, Refused>
        ensures ok { IfOk result (λ t. spec.expanded_in profile.now text.now self.now ≡ Ok t) }
        ensures err { IfErr result (IsFault (spec.expanded_in profile.now text.now self.now)) }
    {
        let scope = Scope {
            vars: &self.vars,
            profile,
            globals: &self.globals,
        };
        Ok(expand(alloc, &scope, text.as_bytes())?)
    }
}
