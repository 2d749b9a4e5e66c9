//! How the patterns of a dialplan are built.

ghost use Rattle.std.specs.Prelude.{◌≡◌, IfOk, OnOk, IfErr};
ghost use Rattle.fs_plan.specs.Building as spec;

use crate::fault::{PlanFault, Unbuilt};
use crate::pattern::Pattern;
use fs_doc::{Child, ConditionDef, ContextDef, ExtensionDef, Listed, PlanAction, Test};
use fs_ports::Patterns;
use fs_text::{Memory, Txt};
use std::alloc::Global;

/// The number of what stands at a position, from 1 on.
fn number_of(position: usize) -> u32
    ensures { result ≡ spec.number_of position }
{
    u32::try_from(position)
        .unwrap_or(u32::MAX)
        .saturating_add(1)
}

/// Copies actions.
fn copies(alloc: Global, actions: &[PlanAction]) -> Result<Listed<PlanAction>, Memory>
    ensures { IfOk result (λ copied. copied ≡ actions.now) }
{
    let mut copied = Listed::new(alloc);
    for action in actions {
        copied.push(PlanAction {
            application: action.application.copy()?,
            argument: action.argument.copy()?,
            inline: action.inline,
        })?;
    }
    Ok(copied)
}

/// Builds children in order.
#[tactic(auto, using(crate::proofs::BuildLemmas::child_unbuilt, crate::proofs::BuildLemmas::no_memory))]
fn children<P: Patterns>(
    alloc: Global,
    list: &[Child<Txt>],
    patterns: &mut P,
) -> Result<Listed<Child<Pattern>>, Unbuilt>
    ensures kept { IfOk result (λ built. built ≡ list.now) }
    ensures read { OnOk result (spec.AreRead (spec.expressions_of list.now)) }
    ensures refused { IfErr result (spec.IsUnbuilt (spec.expressions_of list.now)) }
    ensures sizes { spec.CountsUnbuilt result (P.sizes patterns.old) (P.sizes patterns.new) }
    ensures files { (P.counts patterns.new ≡ P.counts patterns.old)
        × (P.loads patterns.new ≡ P.loads patterns.old) }
{
    let mut built = Listed::new(alloc);
    for child in list {
        let expression = Pattern::build(alloc, &child.expression, patterns)?;
        let field = child.field.copy()?;
        built.push(Child { field, expression })?;
    }
    Ok(built)
}

/// Builds a test.
#[tactic(auto, using(crate::proofs::BuildLemmas::test_rules))]
fn test<P: Patterns>(
    alloc: Global,
    given: &Test<Txt>,
    patterns: &mut P,
) -> Result<Test<Pattern>, Unbuilt>
    ensures kept { IfOk result (λ built. built ≡ given.now) }
    ensures read { OnOk result (spec.AreRead (spec.patterns_of given.now)) }
    ensures refused { IfErr result (spec.IsUnbuilt (spec.patterns_of given.now)) }
    ensures sizes { spec.CountsUnbuilt result (P.sizes patterns.old) (P.sizes patterns.new) }
    ensures files { (P.counts patterns.new ≡ P.counts patterns.old)
        × (P.loads patterns.new ≡ P.loads patterns.old) }
{
    match given {
        Test::Always => Ok(Test::Always),
        Test::Plain { field, expression } => {
            let expression = Pattern::build(alloc, expression, patterns)?;
            let field = field.copy()?;
            Ok(Test::Plain { field, expression })
        }
        Test::Many {
            kind,
            children: list,
        } => {
            let children = children(alloc, list.as_slice(), patterns)?;
            Ok(Test::Many {
                kind: *kind,
                children,
            })
        }
    }
}

/// Builds a condition.
#[tactic(auto, using(crate::proofs::BuildLemmas::no_memory))]
fn condition<P: Patterns>(
    alloc: Global,
    given: &ConditionDef<Txt>,
    patterns: &mut P,
) -> Result<ConditionDef<Pattern>, Unbuilt>
    ensures kept { IfOk result (λ built. built ≡ given.now) }
    ensures read { OnOk result (spec.AreRead (spec.patterns_of given.now.test)) }
    ensures refused { IfErr result (spec.IsUnbuilt (spec.patterns_of given.now.test)) }
    ensures sizes { spec.CountsUnbuilt result (P.sizes patterns.old) (P.sizes patterns.new) }
    ensures files { (P.counts patterns.new ≡ P.counts patterns.old)
        × (P.loads patterns.new ≡ P.loads patterns.old) }
{
    let test = test(alloc, &given.test, patterns)?;
    let actions = copies(alloc, given.actions.as_slice())?;
    let anti = copies(alloc, given.anti.as_slice())?;
    Ok(ConditionDef {
        test,
        stop: given.stop,
        actions,
        anti,
    })
}

/// Builds the conditions of the extension of a number, in order.
#[tactic(auto, using(crate::proofs::BuildLemmas::condition_rules))]
fn conditions<P: Patterns>(
    alloc: Global,
    extension: u32,
    list: &[ConditionDef<Txt>],
    patterns: &mut P,
) -> Result<Listed<ConditionDef<Pattern>>, PlanFault>
    ensures kept { IfOk result (λ built. built ≡ list.now) }
    ensures read { OnOk result (spec.HaveReadings (spec.patterns_within extension list.now)) }
    ensures refused { IfErr result (spec.IsRefusalOf (spec.patterns_within extension list.now)) }
    ensures sizes { spec.CountsSizes result (P.sizes patterns.old) (P.sizes patterns.new) }
    ensures files { (P.counts patterns.new ≡ P.counts patterns.old)
        × (P.loads patterns.new ≡ P.loads patterns.old) }
{
    let mut built = Listed::new(alloc);
    for (position, given) in list.iter().enumerate() {
        match condition(alloc, given, patterns) {
            Ok(condition) => built.push(condition)?,
            Err(why) => return Err(why.at(extension, number_of(position))),
        }
    }
    Ok(built)
}

/// Builds extensions in order, where so many stand before them.
#[tactic(auto, using(crate::proofs::BuildLemmas::extension_refused, crate::proofs::BuildLemmas::no_memory_for))]
fn extensions<P: Patterns>(
    alloc: Global,
    before: usize,
    list: &[ExtensionDef<Txt>],
    patterns: &mut P,
) -> Result<Listed<ExtensionDef<Pattern>>, PlanFault>
    ensures kept { IfOk result (λ built. built ≡ list.now) }
    ensures read { OnOk result (spec.HaveReadings (spec.patterns_from before list.now)) }
    ensures refused { IfErr result (spec.IsRefusalOf (spec.patterns_from before list.now)) }
    ensures sizes { spec.CountsSizes result (P.sizes patterns.old) (P.sizes patterns.new) }
    ensures files { (P.counts patterns.new ≡ P.counts patterns.old)
        × (P.loads patterns.new ≡ P.loads patterns.old) }
{
    let mut built = Listed::new(alloc);
    for (position, given) in list.iter().enumerate() {
        let number = number_of(before.saturating_add(position));
        let conditions = conditions(alloc, number, given.conditions.as_slice(), patterns)?;
        built.push(ExtensionDef {
            name: given.name.copy()?,
            goes_on: given.goes_on,
            conditions,
        })?;
    }
    Ok(built)
}

/// Builds contexts in order.
#[tactic(auto, using(crate::proofs::BuildLemmas::context_refused, crate::proofs::BuildLemmas::no_memory_for))]
pub(crate) fn contexts<P: Patterns>(
    alloc: Global,
    list: &[ContextDef<Txt>],
    patterns: &mut P,
) -> Result<Listed<ContextDef<Pattern>>, PlanFault>
    ensures kept { IfOk result (λ built. built ≡ list.now) }
    ensures read { OnOk result (spec.HaveReadings (spec.patterns_in list.now)) }
    ensures refused { IfErr result (spec.IsPlanRefusal list.now) }
    ensures sizes { spec.CountsSizes result (P.sizes patterns.old) (P.sizes patterns.new) }
    ensures files { (P.counts patterns.new ≡ P.counts patterns.old)
        × (P.loads patterns.new ≡ P.loads patterns.old) }
{
    let mut built = Listed::new(alloc);
    let mut before: usize = 0;
    for given in list {
        let extensions = extensions(alloc, before, given.extensions.as_slice(), patterns)?;
        built.push(ContextDef {
            name: given.name.copy()?,
            extensions,
        })?;
        before = before.saturating_add(given.extensions.as_slice().len());
    }
    Ok(built)
}
