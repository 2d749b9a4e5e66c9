//! What `load` prints of the events that were counted.

ghost use Rattle.std.specs.Prelude.{◌≡◌, ◌++◌, map, codes, IfOk, OnOk};
ghost use Rattle.std.specs.List.{concat};
ghost use Rattle.fs_text.specs.Cause.{all_causes};
ghost use Rattle.fs_text.specs.EventName.{all_events};
ghost use Rattle.fs_top.specs.Counted as spec;

use fs_state::Counts;
use fs_text::{Cause, EventName, Memory, Txt, decimal};
use std::alloc::Global;

/// What `load` prints: the number of calls, and the counts that are not 0, of channels that were hung up with each
/// cause and of events of each name.
#[tactic(auto, unfolding(crate::specs::Counted::counts_text))]
pub(crate) fn counts_text(alloc: Global, calls: u64, counts: &Counts) -> Result<Txt, Memory>
    ensures { IfOk result (λ t. t ≡ spec.counts_text calls counts.now) }
{
    let mut text = Vec::new(alloc);
    text.extend_from_slice(b"calls")?;
    push_number(alloc, &mut text, calls)?;
    push_causes(alloc, &mut text, counts)?;
    push_events(alloc, &mut text, counts)?;
    Txt::from_vec(text)
}

// Adds the lines of the causes, in the order of their numbers.
fn push_causes(alloc: Global, text: &mut Vec<u8>, counts: &Counts) -> Result<(), Memory>
    ensures { OnOk result (text.new.items ≡ text.old.items ++ concat (map (spec.cause_line counts.now) all_causes)) }
{
    for row in Cause::table() {
        let cause = row.0;
        push_count(alloc, text, "cause ", cause.name(), counts.hangups(cause))?;
    }
    Ok(())
}

// Adds the lines of the names of events, in the order of their numbers.
fn push_events(alloc: Global, text: &mut Vec<u8>, counts: &Counts) -> Result<(), Memory>
    ensures { OnOk result (text.new.items ≡ text.old.items ++ concat (map (spec.event_line counts.now) all_events)) }
{
    for row in EventName::table() {
        let event = row.0;
        push_count(alloc, text, "event ", event.name(), counts.events(event))?;
    }
    Ok(())
}

// Adds the line of a count, unless it is 0.
fn push_count(
    alloc: Global,
    text: &mut Vec<u8>,
    kind: &str,
    name: &str,
    count: u64,
) -> Result<(), Memory>
    ensures { OnOk result (text.new.items ≡ text.old.items ++ spec.count_line kind.now name.now count) }
{
    if count == 0 {
        return Ok(());
    }
    text.extend_from_slice(kind.as_bytes())?;
    text.extend_from_slice(name.as_bytes())?;
    push_number(alloc, text, count)
}

// Adds a space, a number and a line end.
fn push_number(alloc: Global, text: &mut Vec<u8>, number: u64) -> Result<(), Memory>
    ensures { OnOk result (text.new.items ≡ text.old.items ++ spec.number_end number) }
{
    text.push(b' ')?;
    text.extend_from_slice(decimal(alloc, number)?.as_bytes())?;
    text.push(b'\n')?;
    Ok(())
}
