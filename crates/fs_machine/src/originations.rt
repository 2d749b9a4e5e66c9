//! How the legs of an origination are made, and what a leg does that has won.

ghost use Rattle.std.specs.Prelude.{◌≡◌, ◌<◌, ◌+◌, ◌^◌, [], ◌∷◌, length, Some, IfOk, OnOk};
ghost use Rattle.fs_chan.specs.Changes.{IsShortTarget};
ghost use Rattle.fs_state.specs.Drafts.{drafted, Brings};
ghost use Rattle.fs_state.specs.Switch.{identifier_of, with_next_identifier, free_slot};
ghost use Rattle.fs_machine.specs.Originations as spec;

use crate::call::Call;
use crate::terms::{call_with, deadline_of, is_misnamed, set_all};
use fs_chan::{
    Action, Actions, ActionsLeft, Chan, Direction, SharedProfile, SharedVars, Target3, Wait,
};
use fs_orig::{Caller, Endpoint, LegPlan, OrigLeg, OrigLegs, Route, Winner};
use fs_seats::Boxed;
use fs_state::Draft;
use fs_text::{Cause, Memory, State, Txt};
use fs_vars::{Profile, Vars};
use std::alloc::Global;

/// The most bytes of a caller id.
const LONGEST_CALLER_ID: usize = 256;
/// The bytes that the name of a channel of the loopback has beside the extension.
const NAME_ROOM: usize = 11;

// One end of a pair of channels.
#[derive(Clone, Copy)]
pub(crate) struct End {
    pub(crate) direction: Direction,
    pub(crate) slot: u16,
    pub(crate) partner: u16,
    pub(crate) leg_of: Option<u64>,
}

// ---- a group of legs

/// Makes the legs of an origination of this number that the plans of a group come to, one after another. There are less
/// than 2^32.
#[tactic(auto, using(crate::proofs::GroupLemmas::group_there, crate::proofs::GroupLemmas::group_done))]
pub(crate) fn make_group(
    draft: &mut Draft<'_>,
    plans: &[LegPlan],
    caller: &Caller,
    orig: u64,
) -> Result<OrigLegs, Memory>
    requires { length plans.now < 2 ^ 32 }
    ensures base { draft.new.base ≡ draft.old.base }
    ensures made { IfOk result
        (spec.GroupComesTo (spec.group_made plans.now caller.now orig (drafted draft.old)) (drafted draft.new)) }
{
    let mut legs = OrigLegs::new(draft.alloc());
    for plan in plans {
        legs.push(make_leg(draft, plan, caller, orig)?)?;
    }
    Ok(legs)
}

// ---- a leg

// Makes the leg of an origination of this number that a plan comes to.
#[tactic(auto, unfolding(crate::specs::Originations::leg_made))]
fn make_leg(
    draft: &mut Draft<'_>,
    plan: &LegPlan,
    caller: &Caller,
    orig: u64,
) -> Result<OrigLeg, Memory>
    ensures base { draft.new.base ≡ draft.old.base }
    ensures made { IfOk result
        (spec.ComesTo (spec.leg_made plan.now caller.now orig (drafted draft.old)) (drafted draft.new)) }
{
    let alloc = draft.alloc();
    match Endpoint::of(alloc, plan.endpoint.as_bytes())? {
        Endpoint::Dead { cause } => OrigLeg::unmade(alloc, draft.place(), cause),
        Endpoint::Loopback { exten, context } => match set_all(alloc, &plan.pairs)? {
            Some(vars) => make_with(draft, exten, context, vars, caller, orig),
            None => OrigLeg::unmade(alloc, draft.place(), Cause::NormalTemporaryFailure),
        },
    }
}

// Makes a leg over the loopback with these variables, unless it cannot have its identifier.
fn make_with(
    draft: &mut Draft<'_>,
    exten: Txt,
    context: Txt,
    vars: Vars,
    caller: &Caller,
    orig: u64,
) -> Result<OrigLeg, Memory>
    ensures base { draft.new.base ≡ draft.old.base }
    ensures made { IfOk result (spec.ComesTo
        (spec.made_with exten context (Some vars) caller.now orig (drafted draft.old)) (drafted draft.new)) }
{
    if is_misnamed(draft, &vars) {
        return OrigLeg::unmade(draft.alloc(), draft.place(), Cause::NormalTemporaryFailure);
    }
    let call = call_with(draft.alloc(), exten, context, vars, caller)?;
    make_loopback(draft, &call, orig)
}

// Makes a leg over the loopback.
fn make_loopback(draft: &mut Draft<'_>, call: &Call, orig: u64) -> Result<OrigLeg, Memory>
    ensures base { draft.new.base ≡ draft.old.base }
    ensures made { IfOk result
        (spec.ComesTo (spec.loopback_made call.now orig (drafted draft.old)) (drafted draft.new)) }
{
    match free_pair(draft) {
        Some((leg, far)) if !is_congested(draft) => make_pair(draft, call, orig, leg, far),
        _ => OrigLeg::unmade(draft.alloc(), draft.place(), Cause::SwitchCongestion),
    }
}

// Whether the journal has cost over 15/16 of its limit.
fn is_congested(draft: &Draft<'_>) -> bool
    ensures { result ≡ spec.is_congested (drafted draft.now) }
{
    let limit = draft.settings().journal_limit;
    u128::from(draft.cost()) * 16 > u128::from(limit) * 15
}

// The two least free slots.
fn free_pair(draft: &Draft<'_>) -> Option<(u16, u16)>
    ensures { result ≡ spec.free_pair (drafted draft.now) }
{
    let first = draft.free_slot(1)?;
    let second = free_behind(draft, first)?;
    Some((first, second))
}

// The least free slot behind another; behind the last one there is none.
#[tactic(auto, using(fs_seats::proofs::SeatLemmas::first_nowhere))]
fn free_behind(draft: &Draft<'_>, slot: u16) -> Option<u16>
    ensures { result ≡ free_slot (slot + 1) (drafted draft.now) }
{
    if slot >= draft.slots() {
        return None;
    }
    draft.free_slot(slot + 1)
}

// Makes the two channels of a call in these slots: the first is the leg.
fn make_pair(
    draft: &mut Draft<'_>,
    call: &Call,
    orig: u64,
    leg: u16,
    far: u16,
) -> Result<OrigLeg, Memory>
    ensures base { draft.new.base ≡ draft.old.base }
    ensures made { IfOk result
        (spec.ComesTo (spec.made_in call.now orig (Some (leg, far)) (drafted draft.old)) (drafted draft.new)) }
{
    let leg_end = End {
        direction: Direction::Outbound,
        slot: leg,
        partner: far,
        leg_of: Some(orig),
    };
    let far_end = End {
        direction: Direction::Inbound,
        slot: far,
        partner: leg,
        leg_of: None,
    };
    let deadline = deadline_of(&call.vars, draft.moment());
    let uuid = make_named_end(draft, call, leg_end)?;
    let _far_uuid = make_end(draft, call, far_end)?;
    Ok(OrigLeg::ringing(leg, uuid, deadline))
}

// Makes the channel at the end that is the leg, and gives its identifier.
fn make_named_end(draft: &mut Draft<'_>, call: &Call, end: End) -> Result<Txt, Memory>
    ensures uuid { IfOk result (λ uuid. uuid ≡ spec.leg_uuid call.now.uuid (drafted draft.old)) }
    ensures made { Brings result draft.old draft.new
        (spec.named_end_made call.now.uuid call.now end (drafted draft.old)) }
{
    let Some(name) = &call.uuid else {
        return make_end(draft, call, end);
    };
    let uuid = name.copy()?;
    let chan = end_of(draft.alloc(), call, end, name.copy()?)?;
    draft.put_chan(end.slot, Some(chan))?;
    Ok(uuid)
}

// Makes the channel at one end under the next identifier, and gives that.
fn make_end(draft: &mut Draft<'_>, call: &Call, end: End) -> Result<Txt, Memory>
    ensures uuid { IfOk result (λ uuid. uuid ≡ identifier_of (with_next_identifier (drafted draft.old))) }
    ensures made { Brings result draft.old draft.new (spec.end_made call.now end (drafted draft.old)) }
{
    let uuid = draft.draw_identifier()?;
    let chan = end_of(draft.alloc(), call, end, uuid.copy()?)?;
    draft.put_chan(end.slot, Some(chan))?;
    Ok(uuid)
}

// The channel at one end of a pair.
fn end_of(alloc: Global, call: &Call, end: End, uuid: Txt) -> Result<Boxed<Chan>, Memory>
    ensures { IfOk result (λ chan. chan ≡ spec.end_of call.now end uuid) }
{
    let profile = SharedProfile::of(alloc, loopback_profile(alloc, call, end.direction, &uuid)?)?;
    let vars = call.vars.copy()?;
    let mut chan = Chan::new(uuid, end.slot, end.direction, profile, vars);
    chan.partner = Some(end.partner);
    chan.leg_of = end.leg_of;
    Boxed::of(alloc, chan)
}

// What is known of a channel of the loopback.
fn loopback_profile(
    alloc: Global,
    call: &Call,
    direction: Direction,
    uuid: &Txt,
) -> Result<Profile, Memory>
    ensures { IfOk result (λ profile. profile ≡ spec.loopback_profile call.now direction uuid.now) }
{
    let mut profile = Profile::empty(alloc)?;
    profile.caller_id_number = cut(alloc, &call.caller.number)?;
    profile.ani = profile.caller_id_number.copy()?;
    profile.caller_id_name = cut(alloc, &call.caller.name)?;
    profile.destination_number = call.exten.copy()?;
    profile.context = call.context.copy()?;
    profile.dialplan = Txt::of(alloc, b"XML")?;
    profile.source = Txt::of(alloc, b"mod_loopback")?;
    profile.uuid = uuid.copy()?;
    profile.chan_name = loopback_name(alloc, &call.exten, direction)?;
    Ok(profile)
}

// The name of a channel of the loopback.
fn loopback_name(alloc: Global, exten: &Txt, direction: Direction) -> Result<Txt, Memory>
    ensures { IfOk result (λ name. name ≡ spec.loopback_name exten.now direction) }
{
    let exten = exten.as_bytes();
    let mut name = Vec::with_capacity(alloc, exten.len().saturating_add(NAME_ROOM))?;
    name.extend_from_slice(b"loopback/")?;
    name.extend_from_slice(exten)?;
    name.extend_from_slice(side_of(direction))?;
    Txt::from_vec(name)
}

// The end of a pair, in the names of its channels.
fn side_of(direction: Direction) -> &'static [u8]
    ensures { result.now ≡ spec.side_of direction }
{
    match direction {
        Direction::Outbound => b"-a",
        Direction::Inbound => b"-b",
    }
}

// The first 256 bytes of a text, or all of a shorter one.
fn cut(alloc: Global, text: &Txt) -> Result<Txt, Memory>
    ensures { IfOk result (λ t. t ≡ spec.cut text.now) }
{
    match text.as_bytes().get(..LONGEST_CALLER_ID) {
        Some(front) => Txt::of(alloc, front),
        None => text.copy(),
    }
}

// ---- a leg that has won

/// Makes of a leg that has won a channel with one thing to run, or one that is to be routed.
pub(crate) fn win_by(alloc: Global, chan: &mut Chan, winner: &Winner) -> Result<(), Memory>
    ensures { OnOk result (chan.new ≡ spec.won_by winner.now chan.old) }
{
    chan.leg_of = None;
    match winner {
        Winner::App {
            application,
            argument,
        } => {
            chan.actions = only(alloc, application.copy()?, argument.copy()?)?;
            chan.wait = Wait::Ready;
            chan.state = State::CsExecute;
        }
        Winner::Route(route) => chan.transfer(target_of(route.copy()?))?,
    }
    Ok(())
}

// One action alone.
fn only(alloc: Global, application: Txt, argument: Txt) -> Result<ActionsLeft, Memory>
    ensures { IfOk result (λ actions. actions ≡ record { application = application; argument = argument } ∷ []) }
{
    let mut actions = Actions::new(alloc);
    actions.push(Action {
        application,
        argument,
    })?;
    ActionsLeft::of(actions)
}

// Where a route leads.
fn target_of(route: Route) -> Target3
    ensures is { result ≡ spec.target_of route }
    ensures short { IsShortTarget result }
{
    let (exten, dialplan, context) = route.into_texts();
    Target3 {
        exten,
        dialplan: Some(dialplan),
        context: Some(context),
    }
}
