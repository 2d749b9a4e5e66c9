//! The verdict on an origination at a moment.

ghost use Rattle.std.specs.Prelude.{◌≡◌};
ghost use Rattle.fs_orig.specs.Laws as laws;
ghost use Rattle.fs_orig.specs.Verdicts as spec;

use crate::orig::Orig;
use fs_text::Cause;

/// What is to be done about an origination. A position is that of a leg in the current group, counted from 0.
#[derive(Clone, Copy, Debug, PartialEq, Eq)]
pub enum Verdict {
    /// Nothing before this moment, in microseconds, unless a leg is answered or dies.
    Wait { until: u64 },
    /// The leg at this position was answered first.
    Won { position: u32 },
    /// The leg at this position has had its time.
    LegExpired { position: u32 },
    /// All legs of the group died, and the next group is to be tried.
    NextGroup,
    /// All legs died, the last one of this cause.
    Failed(Cause),
    /// The whole origination has had its time.
    Expired,
}

/// The verdict on an origination at a moment, in microseconds.
///
/// In this order: the living leg that was answered at the least place has won, at equal places the first in the group;
/// the deadline has come; the first living leg has reached its own deadline; no leg lives, and the next group is tried,
/// or there is none and the origination has failed with the cause of the leg that died at the greatest place, at equal
/// places the last in the group; or there is nothing to do until the least deadline. Where no dead leg has a cause, an
/// origination fails with NORMAL_UNSPECIFIED.
#[tactic(auto, unfolding(crate::specs::Verdicts::verdict_of))]
pub fn judge(orig: &Orig, now: u64) -> Verdict
    ensures { result ≡ spec.verdict_of now orig.now }
{
    if let Some(position) = orig.legs.winner() {
        return Verdict::Won { position };
    }
    if orig.deadline <= now {
        return Verdict::Expired;
    }
    if let Some(position) = orig.legs.expired(now) {
        return Verdict::LegExpired { position };
    }
    if orig.legs.any_lives() {
        return Verdict::Wait {
            until: orig.least_deadline(),
        };
    }
    if orig.next_group().is_some() {
        return Verdict::NextGroup;
    }
    Verdict::Failed(orig.legs.last_cause().unwrap_or(Cause::NormalUnspecified))
}

impl Orig {
    /// The moment from which there is something to do, as seen at a moment: that one, or a later one until which there
    /// is nothing to do unless a leg is answered or dies.
    pub fn due(&self, now: u64) -> u64
        ensures { result ≡ spec.due_moment_of now self.now }
    {
        match judge(self, now) {
            Verdict::Wait { until } => until,
            _ => now,
        }
    }

    /// The least of its deadline and those of its living legs.
    fn least_deadline(&self) -> u64
        ensures { result ≡ spec.least_deadline self.now }
    {
        let limits = self.legs.as_slice().iter().filter_map(|leg| leg.limit());
        limits.fold(self.deadline, |least, limit| least.min(limit))
    }
}

/// Law: what a verdict means, and how it stands at other moments.
pub fn verdict_law()
    ensures won { laws.FirstAnswerWins }
    ensures leg_expired { laws.FirstLegExpires }
    ensures next { laws.NextMayBeEntered }
    ensures failed { laws.LastDeathIsTold }
    ensures to_come { laws.WaitIsToCome }
    ensures stays { laws.WaitStays }
    ensures has_come { laws.WaitEndsInTimeout }
    ensures decided { laws.WorkStays }
    ensures expired { laws.ExpiredStays }
{}
