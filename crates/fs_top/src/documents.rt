//! What `check` and `hunt` print over a configuration.

ghost use Rattle.std.specs.Prelude.{◌≡◌, ◌++◌, pos, map, Ok, IfOk, IfErr, OnOk};
ghost use Rattle.std.specs.List.{concat};
ghost use Rattle.fs_plan.specs.Hunting.{hunted};
ghost use Rattle.fs_plan.specs.Outcomes.{IsFault};
ghost use Rattle.fs_top.specs.Documents as spec;

use fs_chan::{Action, Actions};
use fs_doc::ContextDef;
use fs_plan::{Dialplan, Hunt};
use fs_ports::NoGate;
use fs_text::{Memory, Txt, decimal, escape};
use fs_vars::{Bounds, Profile, Refused, Scope, Vars};
use std::alloc::Global;

/// What `check` prints: the numbers of contexts and of extensions.
#[tactic(auto, unfolding(crate::specs::Documents::check_text))]
pub(crate) fn check_text(alloc: Global, contexts: &[ContextDef<Txt>]) -> Result<Txt, Memory>
    ensures { IfOk result (λ t. t ≡ spec.check_text contexts.now) }
{
    let mut text = Vec::new(alloc);
    text.extend_from_slice(b"OK ")?;
    text.extend_from_slice(decimal(alloc, contexts.len() as u64)?.as_bytes())?;
    text.extend_from_slice(b" ")?;
    text.extend_from_slice(decimal(alloc, extensions_in(contexts))?.as_bytes())?;
    text.extend_from_slice(b"\n")?;
    Txt::from_vec(text)
}

// How many extensions stand in the contexts.
fn extensions_in(contexts: &[ContextDef<Txt>]) -> u64
    ensures { result ≡ spec.extensions_counted contexts.now }
{
    let mut count = 0_u64;
    for context in contexts {
        count = count.saturating_add(context.extensions.as_slice().len() as u64);
    }
    count
}

/// What `hunt` prints: the actions of a call to this number in this context, a line each.
#[tactic(auto, unfolding(crate::specs::Documents::too_long_hunt))]
pub(crate) fn hunt_text(
    alloc: Global,
    plan: &Dialplan,
    globals: &Vars,
    context: &Txt,
    dest: &Txt,
) -> Result<Txt, Memory>
    ensures { IfOk result (λ t. t ≡ spec.hunt_text plan.now globals.now context.now dest.now) }
{
    match hunt(alloc, plan, globals, context, dest) {
        Ok(hunt) => actions_text(alloc, &hunt.actions),
        Err(Refused::TooLong { len }) => too_long_hunt(alloc, len),
        Err(Refused::Memory) => Err(Memory),
    }
}

// The hunt of a call that has no variables.
fn hunt(
    alloc: Global,
    plan: &Dialplan,
    globals: &Vars,
    context: &Txt,
    dest: &Txt,
) -> Result<Hunt, Refused>
    ensures found { IfOk result (λ hunt. hunted plan.now context.now (spec.hunt_profile context.now dest.now)
        spec.no_variables globals.now (pos 0) ≡ Ok hunt) }
    ensures too_long { IfErr result (IsFault (hunted plan.now context.now (spec.hunt_profile context.now dest.now)
        spec.no_variables globals.now (pos 0))) }
{
    let scope = Scope {
        vars: &Vars::new(alloc, Bounds::Channel)?,
        profile: &hunt_profile(alloc, context, dest)?,
        globals,
    };
    plan.hunt(alloc, &scope, context.as_bytes(), 0, &mut NoGate)
}

// The profile of a call to this number in this context.
#[tactic(auto, unfolding(crate::specs::Documents::hunt_profile))]
fn hunt_profile(alloc: Global, context: &Txt, dest: &Txt) -> Result<Profile, Memory>
    ensures { IfOk result (λ p. p ≡ spec.hunt_profile context.now dest.now) }
{
    let mut profile = Profile::empty(alloc)?;
    profile.destination_number = dest.copy()?;
    profile.context = context.copy()?;
    profile.dialplan = Txt::of(alloc, b"XML")?;
    profile.source = Txt::of(alloc, b"fsw")?;
    Ok(profile)
}

// The actions in order, a line each, or words where there are none.
#[tactic(auto, unfolding(crate::specs::Documents::actions_text))]
fn actions_text(alloc: Global, actions: &Actions) -> Result<Txt, Memory>
    ensures { IfOk result (λ t. t ≡ spec.actions_text actions.now) }
{
    if actions.is_empty() {
        return Txt::of(alloc, b"NO_ROUTE_DESTINATION\n");
    }
    action_lines(alloc, actions)
}

fn action_lines(alloc: Global, actions: &Actions) -> Result<Txt, Memory>
    ensures { IfOk result (λ t. t ≡ concat (map spec.action_line actions.now)) }
{
    let mut lines = Vec::new(alloc);
    for action in actions.iter() {
        push_action(alloc, &mut lines, action)?;
    }
    Txt::from_vec(lines)
}

// Adds the line of an action.
fn push_action(alloc: Global, lines: &mut Vec<u8>, action: &Action) -> Result<(), Memory>
    ensures { OnOk result (lines.new.items ≡ lines.old.items ++ spec.action_line action.now) }
{
    lines.extend_from_slice(action.application.as_bytes())?;
    lines.push(b' ')?;
    lines.extend_from_slice(escape(alloc, action.argument.as_bytes())?.as_bytes())?;
    lines.push(b'\n')?;
    Ok(())
}

// The length of the expansion that is too long.
#[tactic(auto, unfolding(crate::specs::Documents::too_long_hunt))]
fn too_long_hunt(alloc: Global, len: u64) -> Result<Txt, Memory>
    ensures { IfOk result (λ t. t ≡ spec.too_long_hunt len) }
{
    let mut text = Vec::new(alloc);
    text.extend_from_slice(b"-ERR too long ")?;
    text.extend_from_slice(decimal(alloc, len)?.as_bytes())?;
    text.extend_from_slice(b"\n")?;
    Txt::from_vec(text)
}
