//! Dial strings with their parts, the plans of their legs and their timeouts, or their faults.

use case_desk::Answer;
use fs_dial::{DialString, Group, Leg, RawPair, RawPairs, parse};
use fs_orig::{LegGroup, LegPlan, LegPlans, braces_timeout};

/// Answers `dial TEXT` with the pairs of the braces, and with the legs, each with its own pairs behind it; `or` stands
/// between groups. Behind the name of a pair stand its value as it is written, and without quotes and backslashes.
pub(crate) fn tell_dial(text: &str, answer: &mut Answer) {
    let bytes = answer.bytes_of(text);
    if let Some(dial) = read_dial(&bytes, answer) {
        tell_pairs(&dial.pairs, answer);
        tell_groups(dial.groups.as_slice(), answer);
    }
}

/// Answers `plans TEXT` with what a dial string is to try: the endpoint of each leg, and behind it the pairs that the
/// leg is to have; `or` stands between groups.
pub(crate) fn tell_plans(text: &str, answer: &mut Answer) {
    let bytes = answer.bytes_of(text);
    if let Some(dial) = read_dial(&bytes, answer) {
        let made = LegPlans::of(answer.alloc(), &dial);
        if let Ok(plans) = &made {
            tell_plan_groups(plans.as_slice(), answer);
        }
        answer.note(made);
    }
}

/// Answers `timeout TEXT` with the seconds that the braces of a dial string give.
pub(crate) fn tell_timeout(text: &str, answer: &mut Answer) {
    let bytes = answer.bytes_of(text);
    if let Some(dial) = read_dial(&bytes, answer) {
        match braces_timeout(answer.alloc(), &dial) {
            Ok(seconds) => answer.shown(seconds),
            Err(memory) => answer.want(memory),
        }
    }
}

// The dial string that these bytes are. Where they are none, their fault is told.
fn read_dial<'a>(bytes: &'a [u8], answer: &mut Answer) -> Option<DialString<'a>> {
    match parse(answer.alloc(), bytes) {
        Ok(dial) => Some(dial),
        Err(fault) => {
            answer.told(fault);
            None
        }
    }
}

fn tell_groups(groups: &[Group<'_>], answer: &mut Answer) {
    let mut between = "";
    for group in groups {
        answer.put(between);
        tell_legs(group.as_slice(), answer);
        between = "  or\n";
    }
}

fn tell_legs(legs: &[Leg<'_>], answer: &mut Answer) {
    for leg in legs {
        answer.begin();
        answer.show(format_args!("leg {}", leg.at));
        answer.bracket(leg.endpoint);
        answer.end();
        tell_pairs(&leg.pairs, answer);
    }
}

fn tell_pairs(pairs: &RawPairs<'_>, answer: &mut Answer) {
    for pair in pairs.as_slice() {
        tell_pair(pair, answer);
    }
}

fn tell_pair(pair: &RawPair<'_>, answer: &mut Answer) {
    answer.begin();
    answer.show(format_args!("pair {}", pair.at));
    answer.bracket(pair.name);
    answer.bracket(pair.value);
    let plain = pair.plain(answer.alloc());
    if let Ok(plain) = &plain {
        answer.bracket(plain.as_bytes());
    }
    answer.note(plain);
    answer.end();
}

fn tell_plan_groups(groups: &[LegGroup], answer: &mut Answer) {
    let mut between = "";
    for group in groups {
        answer.put(between);
        tell_leg_plans(group.as_slice(), answer);
        between = "  or\n";
    }
}

fn tell_leg_plans(plans: &[LegPlan], answer: &mut Answer) {
    for plan in plans {
        answer.named("leg", plan.endpoint.as_bytes());
        tell_variables(plan, answer);
    }
}

fn tell_variables(plan: &LegPlan, answer: &mut Answer) {
    for (name, value) in plan.pairs.pairs() {
        answer.named_two("pair", name.as_bytes(), value.as_bytes());
    }
}
