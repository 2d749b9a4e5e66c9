//! How a hunt evaluates conditions.

ghost use Rattle.std.specs.Prelude.{◌≡◌, false, Ok, IfOk, IfErr, OnOk, Option, None};
ghost use Rattle.fs_plan.specs.Outcomes.{IsFault};
ghost use Rattle.fs_plan.specs.Hunting as spec;

use crate::groups::{Groups, substituted};
use crate::hunt::Hunt;
use crate::pattern::Pattern;
use crate::tested::{Count, Tested};
use fs_chan::Action;
use fs_doc::{Break, Child, ConditionDef, Field, ManyKind, PlanAction, Test};
use fs_ports::Gate;
use fs_vars::{Profile, Refused};
use std::alloc::Global;

impl Hunt {
    /// What a pattern finds in the value of a field. One that the profile has is lent.
    #[tactic(auto, unfolding(crate::specs::Hunting::field_value))]
    fn searched(
        &self,
        alloc: Global,
        profile: &Profile,
        field: &Field,
        expression: &Pattern,
    ) -> Result<Tested, Refused>
        ensures ok { IfOk result (λ t. spec.field_tested profile.now field.now expression.now self.now ≡ Ok t) }
        ensures err { IfErr result (IsFault (spec.field_tested profile.now field.now expression.now self.now)) }
    {
        if field.has_variable() {
            let value = self.expanded(alloc, profile, field.text())?;
            return Ok(expression.tested(alloc, value.as_bytes())?);
        }
        match profile.get(field.text().as_bytes()) {
            Some(value) => Ok(expression.tested(alloc, value.as_bytes())?),
            None => Ok(expression.tested(alloc, b"")?),
        }
    }

    /// Counts the children that match.
    fn counted(
        &self,
        alloc: Global,
        profile: &Profile,
        children: &[Child<Pattern>],
    ) -> Result<Count, Refused>
        ensures ok { IfOk result (λ count. spec.all_counted profile.now children.now self.now ≡ Ok count) }
        ensures err { IfErr result (IsFault (spec.all_counted profile.now children.now self.now)) }
    {
        let mut count = Count::none();
        for child in children {
            let tested = self.searched(alloc, profile, &child.field, &child.expression)?;
            count.add(tested);
        }
        Ok(count)
    }

    /// What the test of a condition finds.
    #[tactic(auto, unfolding(crate::specs::Hunting::test_done))]
    fn tested(
        &self,
        alloc: Global,
        profile: &Profile,
        test: &Test<Pattern>,
    ) -> Result<Tested, Refused>
        ensures ok { IfOk result (λ t. spec.test_done profile.now test.now self.now ≡ Ok t) }
        ensures err { IfErr result (IsFault (spec.test_done profile.now test.now self.now)) }
    {
        match test {
            Test::Always => Ok(Tested::plain(true)),
            Test::Plain { field, expression } => {
                self.searched(alloc, profile, field, expression)
            }
            Test::Many { kind, children } => {
                let count = self.counted(alloc, profile, children.as_slice())?;
                Ok(Tested {
                    holds: holds_for(*kind, count.matched, children.as_slice().len()),
                    groups: count.groups,
                })
            }
        }
    }

    /// Puts an action behind those so far, or runs it where it is inline.
    #[tactic(auto, unfolding(crate::specs::Hunting::action_done))]
    fn give(
        &mut self,
        alloc: Global,
        profile: &Profile,
        groups: &Option<Groups>,
        action: &PlanAction,
    ) -> Result<(), Refused>
        ensures ok { OnOk result (spec.action_done profile.now groups.now action.now self.old ≡ Ok self.new) }
        ensures err { IfErr result (IsFault (spec.action_done profile.now groups.now action.now self.old)) }
    {
        let argument = substituted(alloc, groups, &action.argument)?;
        if action.inline {
            let expanded = self.expanded(alloc, profile, &argument)?;
            self.run_inline(alloc, action.application.as_bytes(), expanded.as_bytes())?;
            return Ok(());
        }
        let application = action.application.copy()?;
        self.actions.push(Action {
            application,
            argument,
        })?;
        Ok(())
    }

    /// Gives actions in order.
    fn give_all(
        &mut self,
        alloc: Global,
        profile: &Profile,
        groups: &Option<Groups>,
        actions: &[PlanAction],
    ) -> Result<(), Refused>
        ensures ok { OnOk result (spec.actions_done profile.now groups.now actions.now self.old ≡ Ok self.new) }
        ensures err { IfErr result (IsFault (spec.actions_done profile.now groups.now actions.now self.old)) }
    {
        for action in actions {
            self.give(alloc, profile, groups, action)?;
        }
        Ok(())
    }

    /// Gives the actions of a condition that was true, or the anti-actions of one that was false.
    fn give_for(
        &mut self,
        alloc: Global,
        profile: &Profile,
        condition: &ConditionDef<Pattern>,
        tested: &Tested,
    ) -> Result<(), Refused>
        ensures ok { OnOk result
            (spec.chosen_actions_done profile.now condition.now tested.now self.old ≡ Ok self.new) }
        ensures err { IfErr result (IsFault (spec.chosen_actions_done profile.now condition.now tested.now self.old)) }
    {
        if tested.holds {
            self.give_all(alloc, profile, &tested.groups, condition.actions.as_slice())
        } else {
            self.give_all(alloc, profile, &None, condition.anti.as_slice())
        }
    }

    /// Evaluates a condition, and says whether it was true.
    #[tactic(auto, unfolding(crate::specs::Hunting::condition_done))]
    fn evaluate(
        &mut self,
        alloc: Global,
        profile: &Profile,
        condition: &ConditionDef<Pattern>,
    ) -> Result<bool, Refused>
        ensures ok { IfOk result (λ holds. spec.condition_done profile.now condition.now self.old
            ≡ Ok (spec.evaluated_to self.new holds)) }
        ensures err { IfErr result (IsFault (spec.condition_done profile.now condition.now self.old)) }
    {
        let tested = self.tested(alloc, profile, &condition.test)?;
        self.give_for(alloc, profile, condition, &tested)?;
        Ok(tested.holds)
    }

    /// Evaluates conditions in order, up to one behind which the extension stops, and says whether the last one takes
    /// the extension.
    pub(crate) fn evaluate_all<G: Gate>(
        &mut self,
        alloc: Global,
        profile: &Profile,
        conditions: &[ConditionDef<Pattern>],
        gate: &mut G,
    ) -> Result<bool, Refused>
        ensures ok { IfOk result (λ taken. spec.all_done profile.now conditions.now self.old
            ≡ Ok (spec.looked_to self.new taken)) }
        ensures err { IfErr result (IsFault (spec.all_done profile.now conditions.now self.old)) }
    {
        let mut taken = false;
        for condition in conditions {
            gate.pass();
            let holds = self.evaluate(alloc, profile, condition)?;
            taken = takes(condition, holds);
            if stops(condition.stop, holds) {
                return Ok(taken);
            }
        }
        Ok(taken)
    }
}

/// Whether as many of all matched as a condition wants.
fn holds_for(kind: ManyKind, matched: usize, all: usize) -> bool
    ensures { result ≡ spec.holds_for kind matched all }
{
    match kind {
        ManyKind::All => matched == all,
        ManyKind::Any => 1 <= matched,
        ManyKind::Xor => matched == 1,
    }
}

/// Whether an extension stops behind a condition that was true, or false.
fn stops(stop: Break, holds: bool) -> bool
    ensures { result ≡ spec.stops stop holds }
{
    match stop {
        Break::OnFalse => !holds,
        Break::OnTrue => holds,
        Break::Always => true,
        Break::Never => false,
    }
}

/// Whether a condition takes its extension.
fn takes(condition: &ConditionDef<Pattern>, holds: bool) -> bool
    ensures { result ≡ spec.takes condition.now holds }
{
    holds || !condition.anti.as_slice().is_empty()
}
