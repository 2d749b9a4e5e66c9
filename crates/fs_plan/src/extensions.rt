//! How a hunt tries extensions.

ghost use Rattle.std.specs.Prelude.{◌≡◌, Ok, IfOk, IfErr, OnOk};
ghost use Rattle.fs_plan.specs.Outcomes.{IsFault};
ghost use Rattle.fs_plan.specs.Hunting as spec;

use crate::hunt::Hunt;
use crate::pattern::Pattern;
use fs_chan::Actions;
use fs_doc::ExtensionDef;
use fs_ports::Gate;
use fs_text::Memory;
use fs_vars::{Profile, Refused};
use std::alloc::Global;
use std::mem;

impl Hunt {
    /// Tries an extension, and says whether it is taken. The actions of one that is not are dropped.
    #[tactic(auto, unfolding(crate::specs::Hunting::extension_done))]
    fn try_extension<G: Gate>(
        &mut self,
        alloc: Global,
        profile: &Profile,
        extension: &ExtensionDef<Pattern>,
        gate: &mut G,
    ) -> Result<bool, Refused>
        ensures ok { IfOk result (λ taken. spec.extension_done profile.now extension.now self.old
            ≡ Ok (spec.looked_to self.new taken)) }
        ensures err { IfErr result (IsFault (spec.extension_done profile.now extension.now self.old)) }
    {
        let before = mem::replace(&mut self.actions, Actions::new(alloc));
        let taken = self.evaluate_all(alloc, profile, extension.conditions.as_slice(), gate)?;
        self.settle(before, taken)?;
        Ok(taken)
    }

    /// Puts the actions of an extension that is taken behind those before it, and drops those of another one.
    fn settle(&mut self, before: Actions, taken: bool) -> Result<(), Memory>
        ensures { OnOk result (spec.looked_to self.new taken ≡ spec.after_extension before
            (spec.looked_to self.old taken)) }
    {
        let given = mem::replace(&mut self.actions, before);
        if taken {
            self.actions.append(given)?;
        }
        Ok(())
    }

    /// Tries extensions in order, up to one that is taken and does not go on.
    pub(crate) fn try_extensions<G: Gate>(
        &mut self,
        alloc: Global,
        profile: &Profile,
        extensions: &[ExtensionDef<Pattern>],
        gate: &mut G,
    ) -> Result<(), Refused>
        ensures ok { OnOk result (spec.extensions_done profile.now extensions.now self.old ≡ Ok self.new) }
        ensures err { IfErr result (IsFault (spec.extensions_done profile.now extensions.now self.old)) }
    {
        for extension in extensions {
            let taken = self.try_extension(alloc, profile, extension, gate)?;
            if taken && !extension.goes_on {
                return Ok(());
            }
        }
        Ok(())
    }
}
