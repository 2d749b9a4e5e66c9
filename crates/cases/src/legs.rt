//! An origination with its legs, and what endpoints come to.

use case_desk::{Answer, cut, number_of, slot_of};
use fs_orig::{Endpoint, LegGroup, LegPlan, LegPlans, Orig, OrigLeg, OrigLegs, Owner, judge};
use fs_text::{Cause, Headers, Memory, Txt};
use std::alloc::Global;

/// The most groups and the most legs of an origination.
const MOST: usize = u32::MAX as usize;

/// The origination that the lines so far laid out, and changed.
pub(crate) struct Legs {
    orig: Orig,
}

impl Drop for Legs {
    fn drop(self) {
        let Legs { orig: _orig } = self;
    }
}

impl Legs {
    /// An origination with no legs.
    pub(crate) fn new(alloc: Global) -> Legs {
        Legs {
            orig: orig_of(LegPlans::new(alloc), OrigLegs::new(alloc)),
        }
    }

    /// Answers what is asked of an origination, and says whether that is asked.
    ///
    /// `legs GROUPS LEG LEG ..` lays out one with the deadline 60, whose legs have the slots, deadlines, places and
    /// causes of words as `slot=1,until=10,answered=5,died=6,of=USER_BUSY`. `judge MOMENT` asks for the verdict,
    /// `answered POSITION PLACE` and `died POSITION PLACE CAUSE` change a leg, `in-slot SLOT` looks for one, and `next
    /// PLACE CAUSE` goes on to the next group, whose leg died as it was made.
    pub(crate) fn tells(&mut self, verb: &str, rest: &str, answer: &mut Answer) -> bool {
        match verb {
            "legs" => self.lay_out(rest, answer),
            "judge" => self.tell_verdict(number_of(rest), answer),
            "answered" => self.tell_answered(rest, answer),
            "died" => self.tell_died(rest, answer),
            "in-slot" => answer.shown(self.orig.legs.position_in(slot_of(rest))),
            "next" => self.tell_next(rest, answer),
            _ => return false,
        }
        true
    }

    fn lay_out(&mut self, rest: &str, answer: &mut Answer) {
        let (count, words) = cut(rest);
        let alloc = answer.alloc();
        let mut plans = LegPlans::new(alloc);
        let mut legs = OrigLegs::new(alloc);
        add_groups(number_of(count), &mut plans, answer);
        add_legs(words, &mut legs, answer);
        self.orig = orig_of(plans, legs);
    }

    fn tell_verdict(&self, now: u64, answer: &mut Answer) {
        let verdict = judge(&self.orig, now);
        let due = self.orig.due(now);
        answer.told(format_args!("{verdict:?}, due {due}"));
    }

    fn tell_answered(&mut self, rest: &str, answer: &mut Answer) {
        let (position, place) = cut(rest);
        let is_new = self
            .orig
            .leg_answered(position_of(position), number_of(place));
        answer.told(is_new);
    }

    fn tell_died(&mut self, rest: &str, answer: &mut Answer) {
        let (position, death) = cut(rest);
        let (place, cause) = cut(death);
        let is_new = self
            .orig
            .leg_died(position_of(position), number_of(place), cause_of(cause));
        answer.told(is_new);
    }

    fn tell_next(&mut self, rest: &str, answer: &mut Answer) {
        let (place, cause) = cut(rest);
        let alloc = answer.alloc();
        let mut legs = OrigLegs::new(alloc);
        let leg = OrigLeg::unmade(alloc, number_of(place), cause_of(cause));
        push_leg(&mut legs, leg, answer);
        answer.told(self.orig.enter_next_group(legs));
    }
}

/// Answers `endpoint TEXT` with what the endpoint of a leg comes to.
pub(crate) fn tell_endpoint(text: &str, answer: &mut Answer) {
    let text = answer.bytes_of(text);
    let made = Endpoint::of(answer.alloc(), &text);
    match &made {
        Ok(Endpoint::Loopback { exten, context }) => {
            answer.named_two("Loopback", exten.as_bytes(), context.as_bytes());
        }
        Ok(Endpoint::Dead { cause }) => answer.pair("Dead", cause.name().as_bytes()),
        Err(_) => {}
    }
    answer.note(made);
}

// The origination of a job, of these groups and legs, with the deadline 60.
fn orig_of(plans: LegPlans, legs: OrigLegs) -> Orig {
    Orig::new(Owner::Job(1), plans, legs, 60)
}

// Adds so many groups of one leg each.
fn add_groups(count: u64, plans: &mut LegPlans, answer: &mut Answer) {
    for _ in 0..count {
        let done = add_group(answer.alloc(), plans);
        answer.note(done);
    }
}

// Adds a group of one leg, if there is room for one more.
fn add_group(alloc: Global, plans: &mut LegPlans) -> Result<(), Memory> {
    if plans.as_slice().len() >= MOST {
        return Ok(());
    }
    let endpoint = Txt::of(alloc, b"loopback/1001")?;
    let pairs = Headers::new(alloc);
    let mut group = LegGroup::new(alloc);
    group.push(LegPlan { endpoint, pairs })?;
    plans.push(group)
}

fn add_legs(words: &str, legs: &mut OrigLegs, answer: &mut Answer) {
    for word in words.split_whitespace() {
        let leg = leg_of(word, answer);
        push_leg(legs, leg, answer);
    }
}

fn push_leg(legs: &mut OrigLegs, leg: Result<OrigLeg, Memory>, answer: &mut Answer) {
    let done = match leg {
        Ok(leg) => add_leg(legs, leg),
        Err(memory) => Err(memory),
    };
    answer.note(done);
}

// Adds a leg, if there is room for one more.
fn add_leg(legs: &mut OrigLegs, leg: OrigLeg) -> Result<(), Memory> {
    if legs.as_slice().len() >= MOST {
        return Ok(());
    }
    legs.push(leg)
}

// The leg of a word.
fn leg_of(word: &str, answer: &mut Answer) -> Result<OrigLeg, Memory> {
    let mut leg = OrigLeg::ringing(0, answer.text_of("A")?, None);
    for part in word.split(',') {
        set_part(&mut leg, part);
    }
    Ok(leg)
}

fn set_part(leg: &mut OrigLeg, part: &str) {
    let (name, value) = part.split_once('=').unwrap_or((part, ""));
    match name {
        "slot" => leg.slot = Some(slot_of(value)),
        "until" => leg.deadline = Some(number_of(value)),
        "answered" => leg.answered = Some(number_of(value)),
        "died" => leg.died = Some(number_of(value)),
        "of" => leg.cause = Cause::of_name(value.as_bytes()),
        _ => {}
    }
}

fn position_of(word: &str) -> u32 {
    u32::try_from(number_of(word)).unwrap_or(u32::MAX)
}

// The cause of a name, or NORMAL_CLEARING.
fn cause_of(name: &str) -> Cause {
    Cause::of_name(name.as_bytes()).unwrap_or(Cause::NormalClearing)
}
