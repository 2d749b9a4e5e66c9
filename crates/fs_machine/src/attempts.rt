//! Originations that jobs and channels try: how they begin, and what comes of them.
ghost use Rattle.std.specs.Prelude.{◌≡◌, ◌<◌, ◌^◌, None, length, slice_get, IfOk};
ghost use Rattle.std.specs.Option.{option_and_then};
ghost use Rattle.fs_text.specs.declared.causes.Cause.TheVariants.{LoseRace, NoAnswer};
ghost use Rattle.fs_orig.specs.declared.orig.Owner.TheVariants as owner;
ghost use Rattle.fs_orig.specs.Legs as orig_legs;
ghost use Rattle.fs_orig.specs.Verdicts.{next_group};
ghost use Rattle.fs_state.specs.Drafts.{drafted, Brings};
ghost use Rattle.fs_state.specs.Hangups.{after_hangup, after_hangups_for};
ghost use Rattle.fs_state.specs.Moves.{for_slot};
ghost use Rattle.fs_state.specs.Switch.{chan_at, without_orig};
ghost use Rattle.fs_machine.specs.declared.attempts.Party.TheVariants as party;
ghost use Rattle.fs_machine.specs.Attempts as spec;
ghost use Rattle.fs_machine.specs.Originations.{after_winning, GroupComesTo};
ghost use Rattle.fs_machine.specs.Owing.{job_number, after_job_begin, after_job_end};
ghost use Rattle.fs_machine.specs.Texts as texts;

use crate::bridging::{dial_group, fail_bridge, win_bridge};
use crate::channels::{ChanChange, awaited_at, change_chan};
use crate::hangups::hang_up_for;
use crate::originations::make_group;
use crate::owing::{Giver, begin_job, end_job, job_number};
use crate::texts::{failed_text, made_text};
use fs_chan::moment_after;
use fs_orig::{
    Caller, LegGroup, LegPlan, LegPlans, Orig, OrigLegs, Owner, Verdict, Winner, add_living_slots,
    judge, living_slots,
};
use fs_state::{Asker, Draft, JobWork};
use fs_text::{Cause, Memory, Txt};
use std::alloc::Global;

/// How many seconds an origination has without a timeout.
pub(crate) const DEFAULT_TIMEOUT: u64 = 60;

/// Who tries an origination.
pub(crate) enum Party {
    /// A job, for whoever is told its answer: a leg that wins does what it asks.
    Job {
        job: u64,
        asker: Asker,
        winner: Winner,
        caller: Caller,
    },
    /// The channel in a slot, which is joined to the leg that wins.
    Slot {
        slot: u16,
    },
}

impl Drop for Party {
    fn drop(self) {
        match self {
            Party::Job {
                job: _,
                asker: _asker,
                winner: _winner,
                caller: _caller,
            } => {}
            Party::Slot { slot: _ } => {}
        }
    }
}

/// A leg that has won, as the channel in its slot.
#[derive(Drop)]
pub(crate) struct WonLeg {
    pub(crate) slot: u16,
    pub(crate) uuid: Txt,
}

/// An origination, and who tries it.
#[derive(Drop)]
pub(crate) struct Attempt {
    pub(crate) orig: u64,
    pub(crate) party: Party,
}

// ---- the beginning

/// Begins an origination of these groups, which a job tries behind a command.
pub(crate) fn begin_originate(
    draft: &mut Draft<'_>,
    giver: &Giver,
    groups: LegPlans,
    winner: &Winner,
    caller: &Caller,
    timeout: Option<u64>,
) -> Result<(), Memory>
    ensures { Brings result draft.old draft.new
        (spec.originate_begun giver.now groups winner.now caller.now timeout (drafted draft.old)) }
{
    let orig = draft.next_orig();
    let legs = make_group(draft, first_group(&groups), caller, orig)?;
    let work = JobWork::Originate {
        orig,
        winner: winner.copy()?,
        caller: caller.copy()?,
    };
    try_by_job(
        draft,
        giver,
        groups,
        legs,
        timeout.unwrap_or(DEFAULT_TIMEOUT),
        work,
    )
}

// Begins the origination of the next number, with these legs of its first group, and lets a job try it by this work.
fn try_by_job(
    draft: &mut Draft<'_>,
    giver: &Giver,
    groups: LegPlans,
    legs: OrigLegs,
    timeout: u64,
    work: JobWork,
) -> Result<(), Memory>
    ensures { Brings result draft.old draft.new
        (after_job_begin giver.now work
        (spec.orig_begun (owner.Job (job_number giver.now (drafted draft.old))) groups legs timeout
        (drafted draft.old))) }
{
    let owner = Owner::Job(job_number(draft, giver));
    begin_orig(draft, owner, groups, legs, timeout)?;
    begin_job(draft, giver, work)
}

/// The group that is tried first: less than 2^32 legs.
pub(crate) fn first_group(groups: &LegPlans) -> &[LegPlan]
    ensures group { result.now ≡ spec.first_group groups.now }
    ensures bound { length result.now < 2 ^ 32 }
{
    match groups.as_slice().first() {
        Some(group) => group.as_slice(),
        None => &[],
    }
}

/// Begins the origination of the next number, which is its owner's: these legs of its first group are tried, until a
/// deadline.
pub(crate) fn begin_orig(
    draft: &mut Draft<'_>,
    owner: Owner,
    groups: LegPlans,
    legs: OrigLegs,
    timeout: u64,
) -> Result<(), Memory>
    ensures { Brings result draft.old draft.new (spec.orig_begun owner groups legs timeout (drafted draft.old)) }
{
    let deadline = moment_after(draft.moment(), timeout.saturating_mul(1_000_000));
    let _number = draft.add_orig(Orig::new(owner, groups, legs, deadline))?;
    Ok(())
}

// ---- the verdict

/// Does what the verdict on an origination says.
pub(crate) fn judge_attempt(draft: &mut Draft<'_>, attempt: &Attempt) -> Result<(), Memory>
    ensures { Brings result draft.old draft.new (spec.after_verdict_on attempt.now (drafted draft.old)) }
{
    let Some(orig) = draft.orig(attempt.orig) else {
        return Ok(());
    };
    match judge(orig, draft.moment()) {
        Verdict::Wait { .. } => Ok(()),
        Verdict::Won { position } => match won_leg_at(orig, position as usize)? {
            Some(leg) => {
                let losers = other_slots(draft.alloc(), orig, position as usize)?;
                end_race(draft, attempt, &leg, &losers)
            }
            None => Ok(()),
        },
        Verdict::LegExpired { position } => {
            let slot = living_slot_at(orig, position as usize);
            expire_leg(draft, slot)
        }
        Verdict::NextGroup => match next_group_of(orig)? {
            Some(group) => try_group(draft, attempt, &group),
            None => Ok(()),
        },
        Verdict::Failed(cause) => fail(draft, attempt, cause),
        Verdict::Expired => {
            let slots = living_slots(draft.alloc(), orig.legs.as_slice())?;
            expire(draft, attempt, &slots)
        }
    }
}

// ---- what is looked up in an origination

// The leg at a position, once it has won, if there is a channel of it.
fn won_leg_at(orig: &Orig, position: usize) -> Result<Option<WonLeg>, Memory>
    ensures { IfOk result (λ leg. leg ≡ option_and_then spec.won_leg (slice_get orig.now.legs position)) }
{
    let Some(leg) = orig.legs.as_slice().get(position) else {
        return Ok(None);
    };
    match leg.slot {
        Some(slot) => Ok(Some(WonLeg {
            slot,
            uuid: leg.uuid.copy()?,
        })),
        None => Ok(None),
    }
}

// The slot of the leg at a position, if it lives.
fn living_slot_at(orig: &Orig, position: usize) -> Option<u16>
    ensures { result ≡ option_and_then orig_legs.living_slot (slice_get orig.now.legs position) }
{
    orig.legs.as_slice().get(position)?.living_slot()
}

// The group that is tried after the current one.
fn next_group_of(orig: &Orig) -> Result<Option<LegGroup>, Memory>
    ensures { IfOk result (λ group. group ≡ next_group orig.now) }
{
    match orig.next_group() {
        Some(group) => Ok(Some(group.copy()?)),
        None => Ok(None),
    }
}

// The slots of the legs that live, without the leg at a position.
fn other_slots(alloc: Global, orig: &Orig, position: usize) -> Result<Vec<u16>, Memory>
    requires { position < length orig.now.legs }
    ensures { IfOk result (λ slots. slots.items ≡ orig_legs.living_slots (spec.others position orig.now.legs)) }
{
    let legs = orig.legs.as_slice();
    let mut slots = Vec::new(alloc);
    add_living_slots(&mut slots, &legs[..position])?;
    add_living_slots(&mut slots, &legs[position + 1..])?;
    Ok(slots)
}

// ---- what comes of it

// Ends a race: the legs in these slots have lost it, and the other has won, unless it died of that.
fn end_race(
    draft: &mut Draft<'_>,
    attempt: &Attempt,
    leg: &WonLeg,
    losers: &[u16],
) -> Result<(), Memory>
    ensures { Brings result draft.old draft.new
        (spec.after_race attempt.now leg.now (after_hangups_for LoseRace losers.now (drafted draft.old))) }
{
    hang_up_for(draft, losers, Cause::LoseRace)?;
    match death_in(draft, leg.slot) {
        None => win(draft, attempt, leg),
        Some(cause) => fail(draft, attempt, cause),
    }
}

// What the channel in a slot died of, if it is there and not alive.
fn death_in(draft: &Draft<'_>, slot: u16) -> Option<Cause>
    ensures { result ≡ spec.death_of (chan_at (drafted draft.now) slot) }
{
    let chan = draft.chan(slot)?;
    if chan.is_live() { None } else { chan.cause }
}

// Hangs up the leg in a slot, if it is one, that has had its time.
fn expire_leg(draft: &mut Draft<'_>, slot: Option<u16>) -> Result<(), Memory>
    ensures { Brings result draft.old draft.new (for_slot (after_hangup NoAnswer) slot (drafted draft.old)) }
{
    match slot {
        Some(slot) => draft.hang_up(slot, Cause::NoAnswer),
        None => Ok(()),
    }
}

// Ends an origination at its deadline: its legs in these slots are hung up.
fn expire(draft: &mut Draft<'_>, attempt: &Attempt, slots: &[u16]) -> Result<(), Memory>
    ensures { Brings result draft.old draft.new (spec.after_deadline attempt.now slots.now (drafted draft.old)) }
{
    hang_up_for(draft, slots, Cause::NoAnswer)?;
    fail(draft, attempt, Cause::NoAnswer)
}

// ---- the next group

// Makes the legs of the next group of an origination, and tries them.
fn try_group(draft: &mut Draft<'_>, attempt: &Attempt, group: &LegGroup) -> Result<(), Memory>
    ensures { Brings result draft.old draft.new
        (spec.with_group attempt.now.orig
        (spec.group_for attempt.now.party group.now attempt.now.orig (drafted draft.old))) }
{
    let legs = make_group_for(draft, &attempt.party, group.as_slice(), attempt.orig)?;
    draft.enter_next_group(attempt.orig, legs)
}

// Makes the legs of a group for who tries the origination of this number.
fn make_group_for(
    draft: &mut Draft<'_>,
    party: &Party,
    plans: &[LegPlan],
    orig: u64,
) -> Result<OrigLegs, Memory>
    requires { length plans.now < 2 ^ 32 }
    ensures base { draft.new.base ≡ draft.old.base }
    ensures made { IfOk result
        (GroupComesTo (spec.group_for party.now plans.now orig (drafted draft.old)) (drafted draft.new)) }
{
    match party {
        Party::Job { caller, .. } => make_group(draft, plans, caller, orig),
        Party::Slot { slot } => dial_group(draft, *slot, plans, orig),
    }
}

// ---- a leg has won

// Ends an origination that a leg has won.
fn win(draft: &mut Draft<'_>, attempt: &Attempt, leg: &WonLeg) -> Result<(), Memory>
    ensures { Brings result draft.old draft.new
        (spec.won_for attempt.now.party attempt.now.orig leg.now (drafted draft.old)) }
{
    match &attempt.party {
        Party::Job {
            job,
            asker,
            winner,
            ..
        } => win_by_job(draft, attempt.orig, *job, asker, winner, leg),
        Party::Slot { slot } => win_by_slot(draft, attempt.orig, *slot, leg),
    }
}

// Lets the leg do what the job asks, and ends the origination and the job.
fn win_by_job(
    draft: &mut Draft<'_>,
    orig: u64,
    job: u64,
    asker: &Asker,
    winner: &Winner,
    leg: &WonLeg,
) -> Result<(), Memory>
    ensures { Brings result draft.old draft.new
        (after_job_end job asker.now (texts.made_text leg.now.uuid)
        (without_orig orig (after_winning winner.now leg.now.slot (drafted draft.old)))) }
{
    let reply = made_text(draft.alloc(), leg.uuid.as_bytes())?;
    let_win(draft, leg.slot, winner)?;
    end_originate(draft, orig, job, asker, reply.as_bytes())
}

// Lets the leg in a slot run its application, or be routed.
#[tactic(auto, unfolding(crate::specs::Originations::after_winning))]
fn let_win(draft: &mut Draft<'_>, slot: u16, winner: &Winner) -> Result<(), Memory>
    ensures { Brings result draft.old draft.new (after_winning winner.now slot (drafted draft.old)) }
{
    change_chan(draft, slot, ChanChange::Win { winner })
}

// Joins the channel in a slot to the leg, if it still waits for the verdict.
fn win_by_slot(draft: &mut Draft<'_>, orig: u64, slot: u16, leg: &WonLeg) -> Result<(), Memory>
    ensures { Brings result draft.old draft.new (spec.won_for (party.Slot slot) orig leg.now (drafted draft.old)) }
{
    if !awaits(draft, slot, orig) {
        return Ok(());
    }
    draft.drop_orig(orig)?;
    win_bridge(draft, slot, leg.slot)
}

// ---- it has failed

// Ends an origination that has failed.
fn fail(draft: &mut Draft<'_>, attempt: &Attempt, cause: Cause) -> Result<(), Memory>
    ensures { Brings result draft.old draft.new (spec.after_failure attempt.now cause (drafted draft.old)) }
{
    match &attempt.party {
        Party::Job { job, asker, .. } => fail_by_job(draft, attempt.orig, *job, asker, cause),
        Party::Slot { slot } => fail_by_slot(draft, attempt.orig, *slot, cause),
    }
}

// Ends an origination that has failed, and its job.
fn fail_by_job(
    draft: &mut Draft<'_>,
    orig: u64,
    job: u64,
    asker: &Asker,
    cause: Cause,
) -> Result<(), Memory>
    ensures { Brings result draft.old draft.new
        (after_job_end job asker.now (texts.failed_text cause) (without_orig orig (drafted draft.old))) }
{
    let reply = failed_text(draft.alloc(), cause)?;
    end_originate(draft, orig, job, asker, reply.as_bytes())
}

// Lets the channel in a slot fail to bridge, if it still waits for the verdict.
fn fail_by_slot(draft: &mut Draft<'_>, orig: u64, slot: u16, cause: Cause) -> Result<(), Memory>
    ensures { Brings result draft.old draft.new (spec.failed_for (party.Slot slot) orig cause (drafted draft.old)) }
{
    if !awaits(draft, slot, orig) {
        return Ok(());
    }
    draft.drop_orig(orig)?;
    fail_bridge(draft, slot, cause)
}

// ---- both

// Whether the channel in a slot still waits for the verdict on an origination.
fn awaits(draft: &Draft<'_>, slot: u16, orig: u64) -> bool
    ensures { result ≡ spec.awaits slot orig (drafted draft.now) }
{
    awaited_at(draft, slot) == Some(orig)
}

// Ends an origination and its job with a reply.
fn end_originate(
    draft: &mut Draft<'_>,
    orig: u64,
    job: u64,
    asker: &Asker,
    reply: &[u8],
) -> Result<(), Memory>
    ensures { Brings result draft.old draft.new
        (after_job_end job asker.now reply.now (without_orig orig (drafted draft.old))) }
{
    draft.drop_orig(orig)?;
    end_job(draft, job, asker, reply)
}
