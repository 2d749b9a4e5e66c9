//! The queues: who waits in them, who is taken next, and what is told of them.
ghost use Rattle.std.specs.Prelude.{◌≡◌, IfOk};
ghost use Rattle.std.specs.Option.{option_copied};
ghost use Rattle.fs_seats.specs.Seats.{first_seat};
ghost use Rattle.fs_state.specs.Drafts.{drafted, Brings};
ghost use Rattle.fs_state.specs.Switch.{chan_at, with_event};
ghost use Rattle.fs_state.specs.QueueLaws as law;
ghost use Rattle.fs_state.specs.Queues as spec;

use crate::draft::Draft;
use crate::event::{Detail, Event, QueueAction};
use crate::seen::Seen;
use fs_chan::{Chan, Turn};
use fs_text::{EventName, Memory, Txt};

impl<'a> Draft<'a> {
    /// The slot of the caller of a queue that is taken next: that of the least number of a priority, and of the same
    /// the one that came first.
    pub fn first_caller(&self, name: &[u8]) -> Option<u16>
        ensures { result ≡ spec.first_caller name.now (drafted self.now) }
    {
        let mut first = None;
        let mut slot = self.filled_slots();
        'slots: while slot > 0 {
            slot -= 1;
            first = sooner(slot, turn_in(self.chan(slot), name), first);
        }
        match first {
            Some((slot, _)) => Some(slot),
            None => None,
        }
    }

    /// Something happened to the caller in a slot, in the queue of a name.
    pub fn tell_queue(&mut self, slot: u16, name: Txt, action: QueueAction) -> Result<(), Memory>
        ensures { Brings result self.old self.new
            (with_event (spec.queue_event action name slot) (drafted self.old)) }
    {
        self.tell(Event {
            name: EventName::Custom,
            subject: Some(slot),
            detail: Detail::Queue(name, action),
        })
    }

    /// The channel in a slot leaves the queue in which it waits, if it does, and tells so.
    pub fn tell_abort(&mut self, slot: u16) -> Result<(), Memory>
        ensures { Brings result self.old self.new (spec.abort_told slot (drafted self.old)) }
    {
        match self.queue_at(slot)? {
            Some(name) => self.tell_queue(slot, name, QueueAction::Abort),
            None => Ok(()),
        }
    }

    /// The name of the queue in which the channel in a slot waits.
    pub fn queue_at(&self, slot: u16) -> Result<Option<Txt>, Memory>
        ensures { IfOk result (λ name. name ≡ spec.queue_at (drafted self.now) slot) }
    {
        let Some(chan) = self.chan(slot) else {
            return Ok(None);
        };
        match chan.queue_of() {
            Some(name) => Ok(Some(name.copy()?)),
            None => Ok(None),
        }
    }
}

/// Law: of every queue of every switch. It is in order, the lesser number of a priority first, then who came first.
/// Whoever stands in it is a live channel that waits there; whoever waits there stands in it, and once. No channel
/// waits in two.
pub fn queues_law()
    ensures sound { law.QueuesAreSound }
    ensures one { law.WaitsInOne }
{}

impl<'a> Seen<'a> {
    /// Whether somebody waits in the queue of a name.
    #[tactic(auto, using(crate::proofs::QueueLemmas::waits_is))]
    pub fn has_caller(&self, name: &[u8]) -> bool
        ensures { result ≡ spec.has_caller name.now self.now }
    {
        self.first_waiting(name).is_some()
    }

    /// The least slot whose channel waits in the queue of a name.
    #[tactic(auto, using(fs_seats::proofs::SeatLemmas::filled_rules))]
    fn first_waiting(&self, name: &[u8]) -> Option<u16>
        ensures { result ≡ first_seat (spec.waits name.now) self.now.channels 0 }
    {
        for slot in 0..self.filled_slots() {
            if self.waits_at(slot, name) {
                return Some(slot);
            }
        }
        None
    }

    /// Whether the channel in a slot waits in the queue of a name.
    fn waits_at(&self, slot: u16, name: &[u8]) -> bool
        ensures { result ≡ spec.waits name.now (chan_at self.now slot) }
    {
        match self.chan(slot) {
            Some(chan) => chan.turn_in(name).is_some(),
            None => false,
        }
    }
}

/// The turn of a channel in the queue of a name, if there is one and it waits there.
fn turn_in(chan: Option<&Chan>, name: &[u8]) -> Option<Turn>
    ensures { result ≡ spec.turn_at name.now (option_copied chan.entry) }
{
    chan?.turn_in(name)
}

/// The caller in a slot, if it has a turn, or another one that comes sooner.
fn sooner(slot: u16, turn: Option<Turn>, other: Option<(u16, Turn)>) -> Option<(u16, Turn)>
    ensures { result ≡ spec.sooner_of slot turn other }
{
    match (turn, other) {
        (None, other) => other,
        (Some(turn), Some((sooner, other))) if other.is_sooner(turn) => Some((sooner, other)),
        (Some(turn), _) => Some((slot, turn)),
    }
}
