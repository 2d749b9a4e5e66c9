//! What waits for connections, and the events of which that tells.
ghost use Rattle.std.specs.Prelude.{◌≡◌, ◌≤◌, ◌+◌, ◌<◌, [], length};
ghost use Rattle.std.specs.Option.{option_copied};
ghost use Rattle.fs_event.specs.Rings.{AreBelow};
ghost use Rattle.fs_state.specs.Outboxes.{HaveRoom, frames_given};
ghost use Rattle.fs_state.specs.Posted.{event_of, events_of};
ghost use Rattle.fs_state.specs.Waiting as spec;
ghost use Rattle.fs_state.specs.Mail.{mail_of};

use crate::conn::Conn;
use crate::gift::{Gifts, Given};
use crate::outbox::{Outbox, Waiting};
use crate::post::Post;
use fs_event::Ring;
use fs_seats::{Numbered, Rows, Seats};
use fs_text::Txt;

/// What waits for connections, in the order of their seats, and the events of which that tells, each once.
#[derive(Drop)]
pub(crate) struct Mail {
    pub outboxes: Vec<Outbox>,
    pub ring: Ring<Txt>,
}

impl Mail {
    /// The frame that waits first at a seat.
    pub fn first(&self, seat: usize) -> Option<&Txt>
        ensures { option_copied result ≡ spec.first_text (mail_of self.now) seat }
    {
        match self.outboxes.get(seat)?.first()? {
            Waiting::Reply(text) => Some(text),
            Waiting::Event(number) => self.ring.get(*number),
        }
    }

    /// Takes out what waits first at a seat, if there is anything.
    pub fn take_first(&mut self, seat: usize)
        ensures mail { mail_of self.new ≡ spec.without_first seat (mail_of self.old) }
        ensures spare { self.old.ring.spare ≤ self.new.ring.spare }
    {
        let first = match self.outboxes.get_mut(seat) {
            Some(outbox) => outbox.take_first(),
            None => None,
        };
        if let Some(Waiting::Event(number)) = first {
            self.ring.release(number);
        }
    }

    /// The same of replies.
    pub fn deliver_gifts(&mut self, conns: &Seats<Numbered<Conn>>, gifts: &mut Gifts)
        requires { HaveRoom self.old.outboxes.items (frames_given gifts.old) }
        ensures mail { spec.AreDelivered conns.now gifts.old (mail_of self.old) (mail_of self.new) }
        ensures spare { self.old.ring.spare ≤ self.new.ring.spare }
        ensures left { gifts.new ≡ [] }
    {
        self.deliver(conns, &mut gifts.gifts);
    }

    /// Puts these behind what waits for their connections, without memory. What is given to a connection that is not
    /// there is dropped. None are left.
    pub fn deliver(&mut self, conns: &Seats<Numbered<Conn>>, all: &mut Vec<Given>)
        requires { HaveRoom self.old.outboxes.items (spec.waiting_given all.old.items) }
        ensures mail { mail_of self.new ≡ spec.mail_delivered conns.now all.old.items (mail_of self.old) }
        ensures spare { self.old.ring.spare ≤ self.new.ring.spare }
        ensures left { all.new.items ≡ [] }
    {
        if all.is_empty() {
            return;
        }
        for given in all.iter_mut() {
            let conn = given.conn;
            let waiting = given.take_waiting();
            self.append(conns.seat_of(conn), waiting);
        }
        all.clear();
    }

    /// Puts this behind what waits at a seat. Where there is no such seat it is dropped.
    fn append(&mut self, seat: Option<usize>, waiting: Outbox)
        requires { HaveRoom self.old.outboxes.items (length waiting) }
        ensures mail { mail_of self.new ≡ spec.with_waiting seat waiting (mail_of self.old) }
        ensures spare { self.old.ring.spare ≤ self.new.ring.spare }
    {
        match seat {
            Some(seat) => self.append_at(seat, waiting),
            None => release_all(&mut self.ring, waiting),
        }
    }

    /// The same, where a seat is known.
    fn append_at(&mut self, seat: usize, waiting: Outbox)
        requires { HaveRoom self.old.outboxes.items (length waiting) }
        ensures mail { mail_of self.new ≡ spec.with_waiting (Some seat) waiting (mail_of self.old) }
        ensures spare { self.old.ring.spare ≤ self.new.ring.spare }
    {
        match self.outboxes.get_mut(seat) {
            Some(outbox) => outbox.append(waiting),
            None => release_all(&mut self.ring, waiting),
        }
    }
}

/// Nobody reads this any more.
fn release_all(ring: &mut Ring<Txt>, waiting: Outbox)
    ensures pairs { ring.new.pairs ≡ spec.all_gone waiting ring.old.pairs }
    ensures spare { ring.old.spare ≤ ring.new.spare }
{
    let mut left = waiting;
    while let Some(first) = left.take_first() {
        if let Waiting::Event(number) = first {
            ring.release(number);
        }
    }
}

/// Holds the events of these that somebody is to read, without memory.
pub(crate) fn hold_all(ring: &mut Ring<Txt>, posts: Vec<Post>)
    requires spare { length posts.items ≤ ring.old.spare }
    requires order { spec.AreOrdered (events_of posts.items) }
    requires behind { spec.AreBehind ring.old.pairs (events_of posts.items) }
    ensures pairs { ring.new.pairs ≡ spec.with_events_held (events_of posts.items) ring.old.pairs }
    ensures spare { ring.old.spare ≤ ring.new.spare + length posts.items }
{
    for post in posts {
        hold(ring, post);
    }
}

/// Holds an event, if somebody is to read it.
fn hold(ring: &mut Ring<Txt>, post: Post)
    requires spare { 0 < ring.old.spare }
    requires last { AreBelow post.number ring.old.pairs }
    ensures pairs { ring.new.pairs ≡ spec.with_event_held (event_of post) ring.old.pairs }
    ensures spare { ring.old.spare ≤ ring.new.spare + 1 }
{
    let Post {
        number,
        frame,
        takers: _takers,
        readers,
    } = post;
    if readers > 0 {
        ring.push(number, frame, readers);
    }
}
