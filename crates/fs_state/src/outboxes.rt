//! The frames that wait for connections.
ghost use Rattle.std.specs.Prelude.{◌≡◌, ◌+◌, ◌≤◌, ℕ, [], true, length, IfOk, OnOk, OnErr};
ghost use Rattle.std.specs.Option.{option_copied, option_map};
ghost use Rattle.fs_event.specs.Rings.{AreBelow};
ghost use Rattle.fs_state.specs.Drafts.{events_posted};
ghost use Rattle.fs_state.specs.Outboxes as spec;
ghost use Rattle.fs_state.specs.Waiting.{no_posts, AreBehind, AreHeld, AreNoMore};

use crate::conn::Conn;
use crate::delta::{Delta, OutboxChange};
use crate::mail::{Mail, hold_all};
use crate::outbox::Outbox;
use crate::posts::Posts;
use fs_event::Ring;
use fs_seats::{Numbered, Seats};
use fs_text::{Memory, Txt};
use std::alloc::Global;
use std::marker::Model;

/// The frames that wait for connections, in the order of the connections' seats. Those of events are held in a ring,
/// each once; what waits is their numbers.
///
/// A contract sees the frames as lists, and beside them the ring.
#[derive(Drop)]
pub struct Outboxes {
    mail: Mail,
    // No outbox has more frames than this.
    most: usize,
}

impl Model for Outboxes {
    ghost use Rattle.fs_state.specs.Waiting.{Waits, AreRead, outboxes_in};
    ghost use Rattle.fs_state.specs.Outboxes.{AreWithin};

    ghost Value = { Waits };

    ghost view = { λ q. record { frames = outboxes_in q.mail.ring.pairs q.mail.outboxes.items; ring = q.mail.ring } };

    ghost invariant = { λ q. AreWithin q.mail.outboxes.items q.most × AreRead q.mail.outboxes.items q.mail.ring.pairs };
}

/// More frames than this does no outbox have.
const LIMIT: usize = 1 << 63;

impl Outboxes {
    /// So many outboxes, in which nothing waits.
    pub fn new(alloc: Global, count: usize) -> Result<Outboxes, Memory>
        ensures { IfOk result (λ outboxes. outboxes ≡ spec.nothing_waits count) }
    {
        let mut outboxes = Vec::new(alloc);
        for _seat in 0..count {
            outboxes.push(Outbox::new(alloc))?;
        }
        let ring = Ring::new(alloc)?;
        Ok(Outboxes {
            mail: Mail { outboxes, ring },
            most: 0,
        })
    }

    /// How many frames wait at a seat.
    pub fn len(&self, seat: usize) -> usize
        ensures { result ≡ length (spec.outbox_at self.now.frames seat) }
    {
        match self.mail.outboxes.get(seat) {
            Some(outbox) => outbox.len(),
            None => 0,
        }
    }

    /// How many of them tell of events.
    pub fn events(&self, seat: usize) -> usize
        ensures { result ≡ spec.events_in (spec.outbox_at self.now.frames seat) }
    {
        match self.mail.outboxes.get(seat) {
            Some(outbox) => outbox.events(),
            None => 0,
        }
    }

    /// The text of the frame that waits first at a seat.
    pub fn first(&self, seat: usize) -> Option<&Txt>
        ensures { option_copied result ≡ option_map spec.text_of (spec.first_at self.now.frames seat) }
    {
        self.mail.first(seat)
    }

    /// The events that wait, each once, with how many are still to read it. They are those whose numbers wait, so
    /// often.
    pub fn ring(&self) -> &Ring<Txt>
        ensures ring { result.now ≡ self.now.ring }
        ensures held { AreHeld self.now.frames self.now.ring.pairs }
    {
        &self.mail.ring
    }

    /// For how many more events room is set aside.
    pub fn spare(&self) -> u64
        ensures { result ≡ self.now.ring.spare }
    {
        self.mail.ring.spare()
    }

    /// Sets room aside for so many more events at least.
    pub fn make_room(&mut self, more: u32) -> Result<(), Memory>
        ensures room { OnOk result (more ≤ self.new.ring.spare) }
        ensures same { OnOk result
            (self.new ≡ record self.old { ring = record self.old.ring { spare = self.new.ring.spare } }) }
        ensures err { OnErr result (self.new ≡ self.old) }
    {
        self.mail.ring.room(more)
    }

    /// Changes the frames that wait.
    pub fn change(&mut self, change: OutboxChange)
        ensures frames { self.new.frames ≡ spec.outboxes_after change self.old.frames }
        ensures ring { AreNoMore self.old.ring self.new.ring }
    {
        match change {
            OutboxChange::Unchanged => {}
            OutboxChange::Taken { seat } => self.take_first(seat),
            OutboxChange::Cleared { seat } => self.clear(seat),
        }
    }

    /// Takes the first frame of a seat out, if there is one. Its event is read once more.
    pub fn take_first(&mut self, seat: usize)
        ensures frames { self.new.frames ≡ spec.without_first_frame seat self.old.frames }
        ensures ring { AreNoMore self.old.ring self.new.ring }
    {
        self.mail.ring.sound();
        self.mail.take_first(seat);
    }

    /// Takes all frames of a seat out. Nobody reads their events there any more.
    pub fn clear(&mut self, seat: usize)
        ensures frames { self.new.frames ≡ spec.without_frames seat self.old.frames }
        ensures ring { AreNoMore self.old.ring self.new.ring }
    {
        while self.len(seat) > 0 {
            self.take_first(seat);
        }
    }

    /// Whether each outbox may grow by so many frames, as far as it is known from how many were ever put there.
    pub fn have_room(&self, count: usize) -> bool
        ensures { result ≡ true → spec.HaveRoom self.now.frames count }
    {
        count < LIMIT.saturating_sub(self.most)
    }

    /// Puts all that is given behind the frames of the connections that are there, without memory; the rest is dropped.
    /// Each event that is posted is held, if somebody gets it. Nothing is left to be given.
    pub(crate) fn deliver(&mut self, conns: &Seats<Numbered<Conn>>, delta: &mut Delta)
        requires room { spec.HaveRoom self.old.frames (spec.frames_given (spec.all_of delta.old)) }
        requires spare { events_posted delta.old ≤ self.old.ring.spare }
        requires behind { AreBehind self.old.ring.pairs delta.old.posted.events }
        ensures frames { self.new.frames ≡ spec.delivered conns.now (spec.all_of delta.old) self.old.frames }
        ensures below { (end : ℕ) → AreBelow end self.old.ring.pairs → AreBelow end delta.old.posted.events
            → AreBelow end self.new.ring.pairs }
        ensures spare { self.old.ring.spare ≤ self.new.ring.spare + events_posted delta.old }
        ensures left { delta.new ≡ record delta.old { replies = []; posted = no_posts; late = []; notices = [] } }
    {
        if delta.gives_nothing() {
            return;
        }
        self.deliver_all(conns, delta);
    }

    /// The same, whether anything is given or not.
    fn deliver_all(&mut self, conns: &Seats<Numbered<Conn>>, delta: &mut Delta)
        requires room { spec.HaveRoom self.old.frames (spec.frames_given (spec.all_of delta.old)) }
        requires spare { events_posted delta.old ≤ self.old.ring.spare }
        requires behind { AreBehind self.old.ring.pairs delta.old.posted.events }
        ensures frames { self.new.frames ≡ spec.delivered conns.now (spec.all_of delta.old) self.old.frames }
        ensures below { (end : ℕ) → AreBelow end self.old.ring.pairs → AreBelow end delta.old.posted.events
            → AreBelow end self.new.ring.pairs }
        ensures spare { self.old.ring.spare ≤ self.new.ring.spare + events_posted delta.old }
        ensures left { delta.new ≡ record delta.old { replies = []; posted = no_posts; late = []; notices = [] } }
    {
        self.mail.ring.sound();
        self.most = self.most.saturating_add(delta.frames_given());
        let Posts { events, lists } = delta.posted.take();
        let mut lists = lists;
        hold_all(&mut self.mail.ring, events);
        self.mail.deliver_gifts(conns, &mut delta.replies);
        self.mail.deliver(conns, &mut lists);
        self.mail.deliver_gifts(conns, &mut delta.late);
        self.mail.deliver_gifts(conns, &mut delta.notices);
    }
}
