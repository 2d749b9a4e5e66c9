//! What a leg is told by its variables: who calls, what it is called, and how long it has.

ghost use Rattle.std.specs.Prelude.{◌≡◌, IfOk};
ghost use Rattle.std.specs.List.{list_all};
ghost use Rattle.fs_state.specs.Drafts.{drafted};
ghost use Rattle.fs_machine.specs.Originations as spec;

use crate::call::Call;
use fs_chan::{SharedVars, moment_after};
use fs_orig::{Caller, seconds_of};
use fs_state::Draft;
use fs_text::{Headers, Memory, Txt};
use fs_vars::{Bounds, Vars};
use std::alloc::Global;

/// The most bytes of an identifier.
const LONGEST_NAME: usize = 64;

/// The variables that pairs come to, set one after another, unless one is refused.
#[tactic(auto, using(crate::proofs::TermLemmas::set_rules))]
pub(crate) fn set_all(alloc: Global, pairs: &Headers) -> Result<Option<Vars>, Memory>
    ensures { IfOk result (λ vars. vars ≡ spec.set_all pairs.now spec.no_variables) }
{
    let mut vars = Vars::new(alloc, Bounds::Channel)?;
    for (name, value) in pairs.pairs() {
        if !vars.set(name.as_bytes(), value.as_bytes())? {
            return Ok(None);
        }
    }
    Ok(Some(vars))
}

/// The call that a leg makes with these variables.
pub(crate) fn call_with(
    alloc: Global,
    exten: Txt,
    context: Txt,
    vars: Vars,
    caller: &Caller,
) -> Result<Call, Memory>
    ensures { IfOk result (λ call. call ≡ spec.call_with exten context vars caller.now) }
{
    let caller = caller_with(&vars, caller)?;
    let uuid = own_uuid(&vars)?;
    Ok(Call {
        exten,
        context,
        caller,
        vars: SharedVars::of(alloc, vars)?,
        uuid,
    })
}

// Who calls, as the variables have it, or else as it was asked.
fn caller_with(vars: &Vars, caller: &Caller) -> Result<Caller, Memory>
    ensures { IfOk result (λ given. given ≡ spec.caller_with vars.now caller.now) }
{
    let name = vars
        .get(b"origination_caller_id_name")
        .unwrap_or(&caller.name);
    let number = vars
        .get(b"origination_caller_id_number")
        .unwrap_or(&caller.number);
    Ok(Caller {
        name: name.copy()?,
        number: number.copy()?,
    })
}

// The identifier that a leg is to have.
fn own_uuid(vars: &Vars) -> Result<Option<Txt>, Memory>
    ensures { IfOk result (λ uuid. uuid ≡ spec.own_uuid vars.now) }
{
    match vars.get(b"origination_uuid") {
        Some(uuid) => Ok(Some(uuid.copy()?)),
        None => Ok(None),
    }
}

/// The moment at which a leg with these variables is given up that is made now.
pub(crate) fn deadline_of(vars: &Vars, now: u64) -> Option<u64>
    ensures { result ≡ spec.leg_deadline vars.now now }
{
    let seconds = seconds_of(vars.get(b"leg_timeout")?.as_bytes())?;
    Some(moment_after(now, seconds.saturating_mul(1_000_000)))
}

/// Whether a leg is to have an identifier by its variables that it cannot have.
pub(crate) fn is_misnamed(draft: &Draft<'_>, vars: &Vars) -> bool
    ensures { result ≡ spec.is_misnamed (spec.own_uuid vars.now) (drafted draft.now) }
{
    match vars.get(b"origination_uuid") {
        Some(uuid) => !is_free(draft, uuid.as_bytes()),
        None => false,
    }
}

// Whether a leg can have this identifier: the switch does not own it, and no channel has it.
fn is_free(draft: &Draft<'_>, uuid: &[u8]) -> bool
    ensures { result ≡ spec.is_free uuid.now (drafted draft.now) }
{
    is_name(uuid) && !draft.settings().core_uuid.owns(uuid) && !draft.is_held(uuid)
}

// Whether a text is 1 to 64 bytes from `!` to `~`.
fn is_name(uuid: &[u8]) -> bool
    ensures { result ≡ spec.is_name uuid.now }
{
    !uuid.is_empty() && uuid.len() <= LONGEST_NAME && are_visible(uuid)
}

// Whether each byte is one from `!` to `~`.
fn are_visible(bytes: &[u8]) -> bool
    ensures { result ≡ list_all spec.is_visible bytes.now }
{
    bytes.iter().all(|byte| matches!(byte, b'!'..=b'~'))
}
