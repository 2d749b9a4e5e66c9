//! A dialplan, and the hunt through it.

ghost use Rattle.std.specs.Prelude.{◌≡◌, Ok, IfOk, OnOk, IfErr};
ghost use Rattle.fs_plan.specs.Building as build;
ghost use Rattle.fs_plan.specs.Outcomes.{IsFault};
ghost use Rattle.fs_plan.specs.Hunting as spec;

use crate::build::contexts;
use crate::fault::PlanFault;
use crate::hunt::Hunt;
use crate::pattern::Pattern;
use fs_chan::Actions;
use fs_doc::{Config, ContextDef, ExtensionDef, Listed};
use fs_ports::{Gate, Patterns};
use fs_vars::{Refused, Scope};
use std::alloc::Global;
use std::marker::Model;

/// A dialplan whose patterns are built. A contract sees it as the contexts that it was built of, with each pattern as
/// its text.
#[derive(Drop)]
pub struct Dialplan {
    contexts: Listed<ContextDef<Pattern>>,
}

impl Model for Dialplan {
    ghost use Rattle.std.specs.Prelude.{List};
    ghost use Rattle.fs_doc.specs.Dialplans.{Context};

    ghost Value = { List Context };

    ghost view = { λ d. d.contexts };
}

impl Dialplan {
    /// Builds the patterns of a configuration once, in order. The first one that is refused is named by the number of
    /// its extension, counted over all contexts, and of its condition, counted within the extension, both from 1.
    pub fn build<P: Patterns>(
        alloc: Global,
        config: &Config,
        patterns: &mut P,
    ) -> Result<Dialplan, PlanFault>
        ensures kept { IfOk result (λ plan. plan ≡ config.now.contexts) }
        ensures read { OnOk result (build.HaveReadings (build.patterns_in config.now.contexts)) }
        ensures refused { IfErr result (build.IsPlanRefusal config.now.contexts) }
        ensures sizes { build.CountsSizes result (P.sizes patterns.old) (P.sizes patterns.new) }
        ensures files { (P.counts patterns.new ≡ P.counts patterns.old)
            × (P.loads patterns.new ≡ P.loads patterns.old) }
    {
        let contexts = contexts(alloc, config.contexts(), patterns)?;
        Ok(Dialplan { contexts })
    }

    /// What a call gets from the context of a name: the actions of the extensions that are taken, and the variables and
    /// globals as inline actions leave them. There are no actions where there is no such context.
    ///
    /// The gate is passed before each condition that is evaluated, and changes nothing of this. The hunt is refused
    /// where a field, or the data of an inline action, would be expanded to more than 65,536 bytes, with the length of
    /// the first such text.
    ///
    /// The wall is the minute of the hunt: the moment of the switch divided by 60,000,000, rounded down. No condition
    /// reads it yet.
    #[tactic(auto, unfolding(crate::specs::Hunting::hunted))]
    pub fn hunt<G: Gate>(
        &self,
        alloc: Global,
        scope: &Scope,
        context: &[u8],
        wall: i64,
        gate: &mut G,
    ) -> Result<Hunt, Refused>
        ensures found { IfOk result (λ hunt. spec.hunted_in self.now context.now scope.now wall ≡ Ok hunt) }
        ensures too_long { IfErr result (IsFault (spec.hunted_in self.now context.now scope.now wall)) }
    {
        let mut hunt = Hunt {
            actions: Actions::new(alloc),
            vars: scope.vars.copy()?,
            globals: scope.globals.copy()?,
        };
        let extensions = extensions_of(self.contexts.as_slice(), context);
        hunt.try_extensions(alloc, scope.profile, extensions, gate)?;
        Ok(hunt)
    }
}

/// The extensions of the first context of a name, or none.
fn extensions_of<'a>(
    contexts: &'a [ContextDef<Pattern>],
    name: &[u8],
) -> &'a [ExtensionDef<Pattern>]
    ensures { result.now ≡ spec.extensions_of contexts.now name.now }
{
    for context in contexts {
        if name == context.name.as_bytes() {
            return context.extensions.as_slice();
        }
    }
    &[]
}
