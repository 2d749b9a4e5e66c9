//! What an api command replies, and what it does to the switch.

ghost use Rattle.std.specs.Prelude.{◌≡◌, ◌≤◌, ◌++◌, length, None, Some, is_some, Ok, IfOk, IfErr, OnOk};
ghost use Rattle.std.specs.Option.{option_copied};
ghost use Rattle.fs_vars.specs.Outputs.{IsTextRefusal};
ghost use Rattle.fs_vars.specs.Expansion.{expanded};
ghost use Rattle.fs_api.specs.declared.api.Api.TheVariants.{Expand};
ghost use Rattle.fs_api.specs.Ranges.{IsInRange};
ghost use Rattle.fs_dial.specs.DialStrings.{dial_of};
ghost use Rattle.fs_state.specs.Drafts.{drafted, Brings};
ghost use Rattle.fs_state.specs.Switch.{slot_named};
ghost use Rattle.fs_machine.specs.Api as spec;
ghost use Rattle.fs_machine.specs.Applications.{unless_too_long};
ghost use Rattle.fs_machine.specs.Done.{ComesTo};
ghost use Rattle.fs_machine.specs.Dumping.{dump_text};

use crate::applications::argument_in;
use crate::attempts::begin_originate;
use crate::dumping::dump;
use crate::globals::set_global;
use crate::hangups::hang_up_everyone;
use crate::joining::bridge_channels;
use crate::leaving::{Onward, send_channel};
use crate::owing::{Giver, begin_job};
use crate::reloading::reload;
use crate::shutdown::shut_down;
use crate::texts::{api_not_found, failed_text, hupall_text, says, usage_text};
use fs_api::{Api, Side, usage};
use fs_chan::{Chan, moment_after};
use fs_dial::{DialKind, DialString, parse};
use fs_orig::{Caller, LegPlans, Winner, braces_timeout};
use fs_state::{Draft, JobWork};
use fs_text::{Cause, Memory, Txt};
use fs_vars::{Profile, Refused, Scope, Vars, expand};
use std::alloc::Global;

/// Runs an api command, and gives its answer, unless a job goes on that gives it later.
pub(crate) fn run_api(
    draft: &mut Draft<'_>,
    giver: &Giver,
    api: &Api,
) -> Result<Option<Txt>, Memory>
    requires { IsInRange api.now }
    ensures base { draft.new.base ≡ draft.old.base }
    ensures done { IfOk result (ComesTo (spec.done_by giver.now api.now (drafted draft.old)) (drafted draft.new)) }
{
    match api {
        Api::Expand { uuid: None, text } => run_expanded(draft, giver, text),
        Api::Expand {
            uuid: Some(uuid),
            text,
        } => run_over(draft, giver, uuid, text),
        api => run_plainly(draft, giver, api),
    }
}

// Runs a text as an api command, once it is expanded over the globals.
fn run_expanded(draft: &mut Draft<'_>, giver: &Giver, text: &Txt) -> Result<Option<Txt>, Memory>
    ensures base { draft.new.base ≡ draft.old.base }
    ensures done { IfOk result
        (ComesTo (spec.done_by giver.now (Expand None text.now) (drafted draft.old)) (drafted draft.new)) }
{
    let whole = whole_globally(draft, text)?;
    run_whole(draft, giver, whole)
}

// Runs a text as an api command, once it is expanded over what the live channel of an identifier knows.
#[tactic(auto, unfolding(crate::specs::Texts::no_channel))]
fn run_over(
    draft: &mut Draft<'_>,
    giver: &Giver,
    uuid: &Txt,
    text: &Txt,
) -> Result<Option<Txt>, Memory>
    ensures base { draft.new.base ≡ draft.old.base }
    ensures done { IfOk result
        (ComesTo (spec.done_over giver.now text.now (spec.chan_named uuid.now (drafted draft.old)) (drafted draft.old))
        (drafted draft.new)) }
{
    let Some(chan) = chan_named(draft, uuid) else {
        return says(draft.alloc(), b"-ERR No such channel!\n");
    };
    let whole = argument_in(draft, chan, text)?;
    run_whole(draft, giver, whole)
}

// Runs a text that was expanded as an api command, unless it was too long.
#[tactic(auto, unfolding(crate::specs::Texts::too_long_text))]
fn run_whole(
    draft: &mut Draft<'_>,
    giver: &Giver,
    whole: Option<Txt>,
) -> Result<Option<Txt>, Memory>
    ensures base { draft.new.base ≡ draft.old.base }
    ensures done { IfOk result (ComesTo (spec.done_expanded giver.now whole (drafted draft.old)) (drafted draft.new)) }
{
    let alloc = draft.alloc();
    match whole {
        Some(whole) => {
            let api = Api::of_expanded(alloc, whole.as_bytes())?;
            run_plainly(draft, giver, &api)
        }
        None => says(alloc, b"-ERR too long\n"),
    }
}

// Expands a text over the globals alone, unless it gets too long.
fn whole_globally(draft: &Draft<'_>, text: &Txt) -> Result<Option<Txt>, Memory>
    ensures { IfOk result (λ whole. whole
        ≡ unless_too_long (expanded (drafted draft.now).globals.pairs text.now)) }
{
    match expand_globally(draft.alloc(), draft.globals(), text.as_bytes()) {
        Ok(whole) => Ok(Some(whole)),
        Err(Refused::TooLong { .. }) => Ok(None),
        Err(Refused::Memory) => Err(Memory),
    }
}

// Expands a text over the globals alone.
fn expand_globally(alloc: Global, globals: &Vars, text: &[u8]) -> Result<Txt, Refused>
    ensures text { IfOk result (λ t. t ≡ expanded globals.now.pairs text.now) }
    ensures short { IfOk result (λ t. length t ≤ 65536) }
    ensures refused { IfErr result (IsTextRefusal (expanded globals.now.pairs text.now)) }
{
    let profile = Profile::empty(alloc)?;
    let scope = Scope {
        vars: globals,
        profile: &profile,
        globals,
    };
    expand(alloc, &scope, text)
}

// Runs an api command that expands no text.
fn run_plainly(draft: &mut Draft<'_>, giver: &Giver, api: &Api) -> Result<Option<Txt>, Memory>
    requires { IsInRange api.now }
    ensures base { draft.new.base ≡ draft.old.base }
    ensures done { IfOk result (ComesTo (spec.done_plainly giver.now api.now (drafted draft.old)) (drafted draft.new)) }
{
    let alloc = draft.alloc();
    match api {
        Api::Echo { text } => Ok(Some(text.copy()?)),
        Api::Expand { .. } => Ok(Some(api_not_found(alloc, b"expand")?)),
        Api::CreateUuid => tell_identifier(draft),
        Api::GlobalGetvar { name } => get_global(alloc, draft.globals(), name.as_ref()),
        Api::GlobalSetvar { name, value } => answer_set(draft, name, value),
        Api::Msleep { milliseconds } => sleep(draft, giver, *milliseconds),
        Api::UuidExists { uuid } => tell_whether(draft, uuid),
        Api::UuidKill { uuid, cause } => kill(draft, uuid, *cause),
        Api::UuidBridge { uuid, other } => bridge_channels(draft, uuid, other),
        Api::UuidPark { uuid } => send_channel(draft, uuid, Side::This, Onward::Park),
        Api::UuidTransfer { uuid, side, to } => {
            let to = to.copy()?;
            send_channel(draft, uuid, *side, Onward::Transfer(to))
        }
        Api::UuidSetvar { uuid, name, value } => set_variable(draft, uuid, name, value),
        Api::UuidGetvar { uuid, name } => get_variable(draft, uuid, name),
        Api::UuidDump { uuid } => dump_channel(draft, uuid),
        Api::Hupall { cause } => hang_up_all(draft, *cause),
        Api::Shutdown => stop_switch(draft),
        Api::Reloadxml => reload(draft, giver),
        Api::Originate {
            url,
            winner,
            cid_name,
            cid_number,
            timeout,
        } => {
            let caller = caller_of(cid_name, cid_number)?;
            originate(draft, giver, url, winner, &caller, *timeout)
        }
        Api::Usage(which) => Ok(Some(usage_text(alloc, usage(*which).as_bytes())?)),
        Api::Unknown(name) => Ok(Some(api_not_found(alloc, name.as_bytes())?)),
    }
}

// Who calls, under this name and this number.
fn caller_of(name: &Txt, number: &Txt) -> Result<Caller, Memory>
    ensures { IfOk result (λ caller. caller ≡ record { name = name.now; number = number.now }) }
{
    Ok(Caller {
        name: name.copy()?,
        number: number.copy()?,
    })
}

// ---- channels

// Whether a live channel has an identifier.
#[tactic(auto, unfolding(crate::specs::Texts::yes, crate::specs::Texts::no))]
fn tell_whether(draft: &Draft<'_>, uuid: &Txt) -> Result<Option<Txt>, Memory>
    ensures { IfOk result
        (λ said. said ≡ Some (spec.told_whether (is_some (slot_named uuid.now (drafted draft.now))))) }
{
    match draft.slot_named(uuid.as_bytes()) {
        Some(_) => says(draft.alloc(), b"true"),
        None => says(draft.alloc(), b"false"),
    }
}

// Hangs up the live channel of an identifier.
#[tactic(auto, unfolding(crate::specs::Texts::ok, crate::specs::Texts::no_channel))]
fn kill(draft: &mut Draft<'_>, uuid: &Txt, cause: Cause) -> Result<Option<Txt>, Memory>
    ensures base { draft.new.base ≡ draft.old.base }
    ensures done { IfOk result
        (ComesTo (spec.killed_as cause uuid.now (drafted draft.old)) (drafted draft.new)) }
{
    let alloc = draft.alloc();
    let Some(slot) = draft.slot_named(uuid.as_bytes()) else {
        return says(alloc, b"-ERR No such channel!\n");
    };
    draft.hang_up(slot, cause)?;
    says(alloc, b"+OK\n")
}

// Hangs up all live channels.
fn hang_up_all(draft: &mut Draft<'_>, cause: Cause) -> Result<Option<Txt>, Memory>
    ensures base { draft.new.base ≡ draft.old.base }
    ensures done { IfOk result (ComesTo (spec.hupall_done cause (drafted draft.old)) (drafted draft.new)) }
{
    let reply = hupall_text(draft.alloc(), cause)?;
    hang_up_everyone(draft, cause)?;
    Ok(Some(reply))
}

// Lets the switch come to its end.
#[tactic(auto, unfolding(crate::specs::Texts::ok))]
fn stop_switch(draft: &mut Draft<'_>) -> Result<Option<Txt>, Memory>
    ensures base { draft.new.base ≡ draft.old.base }
    ensures done { IfOk result (ComesTo (spec.shutdown_done (drafted draft.old)) (drafted draft.new)) }
{
    shut_down(draft)?;
    says(draft.alloc(), b"+OK\n")
}

// Draws an identifier.
fn tell_identifier(draft: &mut Draft<'_>) -> Result<Option<Txt>, Memory>
    ensures base { draft.new.base ≡ draft.old.base }
    ensures done { IfOk result (ComesTo (spec.identifier_told (drafted draft.old)) (drafted draft.new)) }
{
    Ok(Some(draft.draw_identifier()?))
}

// Sets a variable of a live channel, and replies whether no limit is passed.
#[tactic(auto, unfolding(crate::specs::Texts::ok, crate::specs::Texts::no_channel, crate::specs::Texts::limit_passed))]
fn set_variable(
    draft: &mut Draft<'_>,
    uuid: &Txt,
    name: &Txt,
    value: &Txt,
) -> Result<Option<Txt>, Memory>
    ensures base { draft.new.base ≡ draft.old.base }
    ensures done { IfOk result
        (ComesTo (spec.set_variable uuid.now name.now value.now (drafted draft.old)) (drafted draft.new)) }
{
    let alloc = draft.alloc();
    let Some(slot) = draft.slot_named(uuid.as_bytes()) else {
        return says(alloc, b"-ERR No such channel!\n");
    };
    let Some(mut chan) = draft.copy_chan(slot)? else {
        return says(alloc, b"-ERR No such channel!\n");
    };
    if !chan.vars.set(name.as_bytes(), value.as_bytes())? {
        return says(alloc, b"-ERR variable limit passed\n");
    }
    draft.put_chan(slot, Some(chan))?;
    says(alloc, b"+OK\n")
}

// The value of a variable of a live channel.
#[tactic(auto, unfolding(crate::specs::Texts::no_channel, crate::specs::Texts::undefined))]
fn get_variable(draft: &Draft<'_>, uuid: &Txt, name: &Txt) -> Result<Option<Txt>, Memory>
    ensures { IfOk result
        (λ said. said ≡ Some (spec.variable_text name.now (spec.chan_named uuid.now (drafted draft.now)))) }
{
    let alloc = draft.alloc();
    let Some(chan) = chan_named(draft, uuid) else {
        return says(alloc, b"-ERR No such channel!\n");
    };
    match chan.vars.get(name.as_bytes()) {
        Some(value) => Ok(Some(value.copy()?)),
        None => says(alloc, b"_undef_"),
    }
}

// All that is told of a live channel.
#[tactic(auto, unfolding(crate::specs::Texts::no_channel))]
fn dump_channel(draft: &Draft<'_>, uuid: &Txt) -> Result<Option<Txt>, Memory>
    ensures { IfOk result
        (λ said. said ≡ Some (dump_text (spec.chan_named uuid.now (drafted draft.now)))) }
{
    let alloc = draft.alloc();
    match chan_named(draft, uuid) {
        Some(chan) => Ok(Some(dump(alloc, chan)?)),
        None => says(alloc, b"-ERR No such channel!\n"),
    }
}

// The live channel of an identifier.
fn chan_named<'a>(draft: &'a Draft<'_>, uuid: &Txt) -> Option<&'a Chan>
    ensures { option_copied result ≡ spec.chan_named uuid.now (drafted draft.now) }
{
    draft.chan(draft.slot_named(uuid.as_bytes())?)
}

// ---- jobs

// Lets the answer come once so many milliseconds have passed.
#[tactic(auto, unfolding(crate::specs::Texts::too_many_jobs))]
fn sleep(draft: &mut Draft<'_>, giver: &Giver, milliseconds: u64) -> Result<Option<Txt>, Memory>
    ensures base { draft.new.base ≡ draft.old.base }
    ensures done { IfOk result (ComesTo (spec.msleep_done giver.now milliseconds (drafted draft.old))
        (drafted draft.new)) }
{
    if draft.is_full_of_jobs() {
        return says(draft.alloc(), b"-ERR too many jobs\n");
    }
    begin_sleep(draft, giver, milliseconds)?;
    Ok(None)
}

// Begins to wait so many milliseconds.
fn begin_sleep(draft: &mut Draft<'_>, giver: &Giver, milliseconds: u64) -> Result<(), Memory>
    ensures { Brings result draft.old draft.new (spec.sleep_begun giver.now milliseconds (drafted draft.old)) }
{
    let until = moment_after(draft.moment(), milliseconds.saturating_mul(1_000));
    begin_job(draft, giver, JobWork::Sleep { until })
}

// Tries the legs of a dial string: the answer comes once one has won or all have failed.
#[tactic(auto, unfolding(crate::specs::Texts::too_many_jobs))]
fn originate(
    draft: &mut Draft<'_>,
    giver: &Giver,
    url: &Txt,
    winner: &Winner,
    caller: &Caller,
    timeout: Option<u64>,
) -> Result<Option<Txt>, Memory>
    ensures base { draft.new.base ≡ draft.old.base }
    ensures done { IfOk result
        (ComesTo (spec.originate_done giver.now url.now winner.now caller.now timeout (drafted draft.old))
        (drafted draft.new)) }
{
    let alloc = draft.alloc();
    if draft.is_full_of_jobs() {
        return says(alloc, b"-ERR too many jobs\n");
    }
    match parse(alloc, url.as_bytes()) {
        Ok(dial) => dial_legs(draft, giver, &dial, winner, caller, timeout),
        Err(fault) if fault.kind == DialKind::Memory => Err(Memory),
        Err(_fault) => Ok(Some(failed_text(alloc, Cause::InvalidNumberFormat)?)),
    }
}

// Tries the legs of a dial string that has no fault.
fn dial_legs(
    draft: &mut Draft<'_>,
    giver: &Giver,
    dial: &DialString<'_>,
    winner: &Winner,
    caller: &Caller,
    timeout: Option<u64>,
) -> Result<Option<Txt>, Memory>
    ensures base { draft.new.base ≡ draft.old.base }
    ensures done { IfOk result
        (ComesTo (spec.dialed giver.now (Ok (dial_of dial.now)) winner.now caller.now timeout (drafted draft.old))
        (drafted draft.new)) }
{
    let alloc = draft.alloc();
    let groups = LegPlans::of(alloc, dial)?;
    let timeout = match timeout {
        Some(seconds) => Some(seconds),
        None => braces_timeout(alloc, dial)?,
    };
    begin_originate(draft, giver, groups, winner, caller, timeout)?;
    Ok(None)
}

// ---- globals

// The value of a global, or nothing; without a name all globals in order, a line each.
fn get_global(alloc: Global, globals: &Vars, name: Option<&Txt>) -> Result<Option<Txt>, Memory>
    ensures { IfOk result (λ said. said ≡ Some (spec.global_text (option_copied name.entry) globals.now.pairs)) }
{
    let Some(name) = name else {
        return Ok(Some(list(alloc, globals)?));
    };
    match globals.get(name.as_bytes()) {
        Some(value) => Ok(Some(value.copy()?)),
        None => says(alloc, b""),
    }
}

// All globals in order, a line each.
fn list(alloc: Global, globals: &Vars) -> Result<Txt, Memory>
    ensures { IfOk result (λ t. t ≡ spec.listed globals.now.pairs) }
{
    let mut lines = Vec::new(alloc);
    for (name, value) in globals.pairs() {
        push_line(&mut lines, name, value.as_bytes())?;
    }
    Txt::from_vec(lines)
}

// Adds the line of a global.
fn push_line(lines: &mut Vec<u8>, name: &[u8], value: &[u8]) -> Result<(), Memory>
    ensures { OnOk result (lines.new.items ≡ lines.old.items ++ spec.line_of_pair (name.now, value.now)) }
{
    lines.extend_from_slice(name)?;
    lines.push(b'=')?;
    lines.extend_from_slice(value)?;
    lines.push(b'\n')?;
    Ok(())
}

// Sets a global, and replies whether no limit is passed.
#[tactic(auto, unfolding(crate::specs::Texts::ok, crate::specs::Texts::limit_passed))]
fn answer_set(draft: &mut Draft<'_>, name: &Txt, value: &Txt) -> Result<Option<Txt>, Memory>
    ensures base { draft.new.base ≡ draft.old.base }
    ensures done { IfOk result
        (ComesTo (spec.set_global name.now value.now (drafted draft.old)) (drafted draft.new)) }
{
    let alloc = draft.alloc();
    if set_global(draft, name, value)? {
        says(alloc, b"+OK\n")
    } else {
        says(alloc, b"-ERR variable limit passed\n")
    }
}
