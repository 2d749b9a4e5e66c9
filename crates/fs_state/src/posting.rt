//! What an entry posts of its events.
ghost use Rattle.std.specs.Prelude.{◌≡◌, ◌+◌, ◌-◌, ◌^◌, ◌≤◌, ◌++◌, ℕ, true, is_some, count_by, length, map, take};
ghost use Rattle.std.specs.Prelude.{option_map, IfOk, OnOk};
ghost use Rattle.fs_event.specs.Texts.{frame};
ghost use Rattle.fs_filter.specs.Subscriptions.{lets_through};
ghost use Rattle.fs_seats.specs.Seats.{held_in, IsEmptyFrom};
ghost use Rattle.fs_seats.specs.Rows.{seat_of};
ghost use Rattle.fs_state.specs.Drafts.{drafted, Brings, with_losses_in};
ghost use Rattle.fs_state.specs.Losses.{Losses, with_loss};
ghost use Rattle.fs_state.specs.Posted.{events_of, unread};
ghost use Rattle.fs_state.specs.Posting as spec;
ghost use Rattle.fs_state.specs.Waiting.{readers_of, times, gifts_of_posts, AreCounted, AreOrdered};

use crate::conn::Conn;
use crate::draft::Draft;
use crate::event::Event;
use crate::gift::Given;
use crate::losses::Losses;
use crate::outbox::{Outbox, Waiting};
use crate::post::{Post, Takers};
use crate::posts::Posts;
use crate::switch::Core;
use fs_event::EventText;
use fs_filter::SharedSubs;
use fs_seats::{Numbered, Rows, Table};
use fs_text::{EventName, Memory, Txt};
use std::alloc::Global;
use std::mem;

/// The most events that may wait for a connection.
const MOST_EVENTS: usize = 10_000;

/// A text of events with room for more bytes than this is not kept from entry to entry.
const MOST_KEPT: usize = 65_536;

impl<'a> Draft<'a> {
    /// Posts the events of the entry in hand. Each connection that was there before the entry, and still is, gets those
    /// that it wanted before, as far as there is room; the rest is lost, and counted.
    ///
    /// Where nobody has subscribed anything no memory is taken. A text is formed once, and only where it is wanted.
    pub fn post(&mut self) -> Result<(), Memory>
        ensures { Brings result self.old self.new (spec.with_posts self.old.base (drafted self.old)) }
    {
        let core = self.core;
        let mut text = self.take_text();
        let told = self.told(&mut text, core.conns.filled())?;
        self.keep_text(text);
        let mut posts = told;
        let mut lists = Vec::new(self.alloc());
        self.post_all(&mut posts, &mut lists)?;
        self.put_posts(Posts::of(posts, lists));
        Ok(())
    }

    /// This is posted.
    fn put_posts(&mut self, posts: Posts)
        ensures base { self.new.base ≡ self.old.base }
        ensures put { drafted self.new ≡ record (drafted self.old) { posted = gifts_of_posts posts } }
    {
        self.delta.posted = posts;
    }

    /// Takes the text out in which events are formed.
    fn take_text(&mut self) -> EventText
        ensures base { self.new.base ≡ self.old.base }
        ensures same { drafted self.new ≡ drafted self.old }
    {
        let none = EventText::none(self.alloc());
        mem::replace(&mut self.delta.text, none)
    }

    /// Keeps it for the next entry, unless it has become very large.
    fn keep_text(&mut self, text: EventText)
        ensures base { self.new.base ≡ self.old.base }
        ensures same { drafted self.new ≡ drafted self.old }
    {
        if text.room() <= MOST_KEPT {
            self.delta.text = text;
        }
    }

    // ---- what is told

    /// The posts of the events of the entry that some connection wants, where no more than so many seats are filled.
    fn told(&self, text: &mut EventText, seats: usize) -> Result<Vec<Post>, Memory>
        requires within { seats ≤ length self.now.base.conns }
        requires empty { IsEmptyFrom seats self.now.base.conns }
        ensures { IfOk result (λ told. told.items ≡ spec.posts_told seats self.now.base (drafted self.now)) }
    {
        let core = self.core;
        if self.delta.news.as_slice().is_empty() || core.is_deaf() {
            return Ok(Vec::new(self.alloc()));
        }
        self.tell_all(text, seats)
    }

    /// The same, event by event. They are numbered by how many there were before; where 64 bits do not suffice for
    /// that, it is refused as for want of memory.
    fn tell_all(&self, text: &mut EventText, seats: usize) -> Result<Vec<Post>, Memory>
        requires within { seats ≤ length self.now.base.conns }
        requires empty { IsEmptyFrom seats self.now.base.conns }
        ensures { IfOk result (λ told. told.items ≡ spec.posts_told seats self.now.base (drafted self.now)) }
    {
        let core = self.core;
        let news = self.delta.news.as_slice();
        let mut told = Vec::new(self.alloc());
        let mut number = core.counts.all();
        for event in news {
            number = number_behind(number)?;
            if let Some(post) = self.tell_wanted(text, seats, number, event)? {
                told.push(post)?;
            }
        }
        Ok(told)
    }

    /// The post of an event, where it has this number and some connection wants it.
    #[tactic(auto, using(crate::proofs::PostLemmas::untold_unheard))]
    fn tell_wanted(
        &self,
        text: &mut EventText,
        seats: usize,
        number: u64,
        event: &Event,
    ) -> Result<Option<Post>, Memory>
        requires within { seats ≤ length self.now.base.conns }
        requires empty { IsEmptyFrom seats self.now.base.conns }
        ensures { IfOk result
            (λ post. post ≡ option_map (spec.post_of (take seats self.now.base.conns) number)
            (spec.told_of self.now.base (drafted self.now) number event.now)) }
    {
        if !self.core.hears(event.name, event.detail.subclass()) {
            return Ok(None);
        }
        let takers = self.takers(seats, number, event)?;
        if !takers.has_one() {
            return Ok(None);
        }
        let frame = self.frame(text, number, event)?;
        Ok(Some(Post {
            number,
            frame,
            takers,
            readers: 0,
        }))
    }

    /// The frame of an event, where it has this number. It is formed in a text that may have been used before.
    fn frame(&self, text: &mut EventText, number: u64, event: &Event) -> Result<Txt, Memory>
        ensures { IfOk result
            (λ text. text ≡ frame (spec.telling_of self.now.base (drafted self.now) number event.now)) }
    {
        text.clear();
        self.tell_headers(text, number, event)?;
        text.end(event.detail.body())?;
        text.frame()
    }

    /// Which of the connections at the first seats want an event, where it has this number.
    fn takers(&self, seats: usize, number: u64, event: &Event) -> Result<Takers, Memory>
        requires within { seats ≤ length self.now.base.conns }
        ensures { IfOk result (λ takers. takers
            ≡ map (spec.wants_at (spec.telling_of self.now.base (drafted self.now) number event.now))
            (take seats self.now.base.conns)) }
    {
        let mut takers = Takers::new(self.alloc());
        for seat in 0..seats {
            takers.push(self.wants_at(seat, number, event)?)?;
        }
        Ok(takers)
    }

    /// Whether the connection that stands at a seat, if one does, wants an event, where it has this number.
    #[tactic(auto, unfolding(crate::specs::Posting::telling_of))]
    fn wants_at(&self, seat: usize, number: u64, event: &Event) -> Result<bool, Memory>
        ensures { IfOk result (λ wants. wants
            ≡ spec.wants_at (spec.telling_of self.now.base (drafted self.now) number event.now)
            (held_in self.now.base.conns seat)) }
    {
        let core = self.core;
        let Some(row) = core.conns.get(seat) else {
            return Ok(false);
        };
        let subs = &row.held.subs;
        if !subs.hears(event.name, event.detail.subclass()) {
            return Ok(false);
        }
        self.is_let_through(subs, number, event)
    }

    /// Whether filters let an event through, where it has this number.
    fn is_let_through(&self, subs: &SharedSubs, number: u64, event: &Event) -> Result<bool, Memory>
        ensures { IfOk result (λ through. through
            ≡ lets_through subs.now.filters (spec.headers_of self.now.base (drafted self.now) number event.now)) }
    {
        let mut sieve = subs.sieve(self.alloc());
        if sieve.passes() {
            return Ok(true);
        }
        self.tell_headers(&mut sieve, number, event)?;
        Ok(sieve.passes())
    }

    // ---- who is told

    /// The connections that were there before the entry are posted what they want of these, one after another: the
    /// numbers of those events are listed for each.
    #[tactic(auto, using(crate::proofs::PostLemmas::over_rules))]
    fn post_all(&mut self, posts: &mut Vec<Post>, lists: &mut Vec<Given>) -> Result<(), Memory>
        requires { AreCounted (events_of posts.old.items) lists.old.items }
        ensures base { self.new.base ≡ self.old.base }
        ensures counted { OnOk result (AreCounted (events_of posts.new.items) lists.new.items) }
        ensures posted { OnOk result (spec.with_lists posts.new.items lists.new.items (drafted self.new)
            ≡ spec.posted_over self.old.base posts.old.items 0 self.old.base.conns
            (spec.with_lists posts.old.items lists.old.items (drafted self.old))) }
    {
        if posts.is_empty() {
            return Ok(());
        }
        let core = self.core;
        for seat in 0..core.conns.filled() {
            self.post_at(seat, posts, lists)?;
        }
        Ok(())
    }

    /// The connection that stood at a seat before the entry, if one did, is posted what it wants of these.
    fn post_at(
        &mut self,
        seat: usize,
        posts: &mut Vec<Post>,
        lists: &mut Vec<Given>,
    ) -> Result<(), Memory>
        requires { AreCounted (events_of posts.old.items) lists.old.items }
        ensures base { self.new.base ≡ self.old.base }
        ensures same { OnOk result (map unread posts.new.items ≡ map unread posts.old.items) }
        ensures counted { OnOk result (AreCounted (events_of posts.new.items) lists.new.items) }
        ensures posted { OnOk result (spec.with_lists posts.new.items lists.new.items (drafted self.new)
            ≡ spec.posted_at self.old.base posts.old.items seat (held_in self.old.base.conns seat)
            (spec.with_lists posts.old.items lists.old.items (drafted self.old))) }
    {
        let core = self.core;
        match core.conns.get(seat) {
            Some(row) => self.post_to(seat, row, posts, lists),
            None => Ok(()),
        }
    }

    /// The connection at a seat is posted what it wants of these, as far as there is room, and loses the rest.
    #[tactic(auto, using(crate::proofs::PostLemmas::posted_there))]
    fn post_to(
        &mut self,
        seat: usize,
        row: &Numbered<Conn>,
        posts: &mut Vec<Post>,
        lists: &mut Vec<Given>,
    ) -> Result<(), Memory>
        requires { AreCounted (events_of posts.old.items) lists.old.items }
        ensures base { self.new.base ≡ self.old.base }
        ensures same { OnOk result (map unread posts.new.items ≡ map unread posts.old.items) }
        ensures counted { OnOk result (AreCounted (events_of posts.new.items) lists.new.items) }
        ensures posted { OnOk result (spec.with_lists posts.new.items lists.new.items (drafted self.new)
            ≡ spec.posted_to self.old.base (spec.frames_at seat posts.old.items) row.now
            (spec.with_lists posts.old.items lists.old.items (drafted self.old))) }
    {
        if !self.is_there(row.number) {
            return Ok(());
        }
        let room = self.room_for(row.number);
        let lost = lost_behind(seat, posts, room);
        let waiting = numbers_within(self.alloc(), seat, posts, room)?;
        add_list(lists, row.number, waiting)?;
        self.lose(row.number, lost)
    }

    /// Whether the connection of a number is there.
    fn is_there(&self, number: u64) -> bool
        ensures { result ≡ is_some (seat_of (drafted self.now).conns number) }
    {
        self.conns().seat_of(number).is_some()
    }

    /// For how many events there was room, before the entry, behind the frames that waited for a connection.
    fn room_for(&self, number: u64) -> usize
        ensures { result ≡ spec.room_for self.now.base number }
    {
        let core = self.core;
        match core.conns.seat_of(number) {
            Some(seat) => MOST_EVENTS.saturating_sub(core.outboxes.events(seat)),
            None => MOST_EVENTS,
        }
    }

    /// The connection of a number loses so many events.
    fn lose(&mut self, conn: u64, events: u64) -> Result<(), Memory>
        ensures { Brings result self.old self.new (spec.with_lost conn events (drafted self.old)) }
    {
        if events == 0 {
            return Ok(());
        }
        self.add_loss(conn, events)
    }

    /// It loses so many more.
    fn add_loss(&mut self, conn: u64, events: u64) -> Result<(), Memory>
        ensures { Brings result self.old self.new
            (with_losses_in self.old (with_loss conn events (drafted self.old).losses)) }
    {
        let mut losses = self.own_losses()?;
        losses.add(conn, events)?;
        self.put_losses(losses);
        Ok(())
    }

    /// The losses, to be changed and put there again: those that were put there last are taken back, the kept ones
    /// copied.
    fn own_losses(&mut self) -> Result<Losses, Memory>
        ensures base { self.new.base ≡ self.old.base }
        ensures own { IfOk result (λ own. own ≡ (drafted self.old).losses) }
        ensures put { (losses : Losses) → with_losses_in self.new losses ≡ with_losses_in self.old losses }
    {
        let core = self.core;
        match self.delta.losses.take() {
            Some(losses) => Ok(losses),
            None => core.losses.copy(),
        }
    }

    /// There are other losses.
    fn put_losses(&mut self, losses: Losses)
        ensures base { self.new.base ≡ self.old.base }
        ensures put { drafted self.new ≡ with_losses_in self.old losses }
    {
        self.delta.losses = Some(losses);
    }
}

impl Core {
    /// Whether no connection has subscribed anything, as far as that is seen at once.
    fn is_deaf(&self) -> bool
        ensures { result ≡ true → spec.AreDeaf self.now.switch.conns }
    {
        for seat in 0..self.conns.filled() {
            if !self.is_deaf_at(seat) {
                return false;
            }
        }
        true
    }

    /// Whether the connection that stands at a seat, if one does, has subscribed nothing, as far as that is seen at
    /// once.
    fn is_deaf_at(&self, seat: usize) -> bool
        ensures { result ≡ true → spec.IsDeaf (held_in self.now.switch.conns seat) }
    {
        match self.conns.get(seat) {
            Some(row) => row.held.subs.is_idle(),
            None => true,
        }
    }

    /// Whether some connection has subscribed the events of a name, of `CUSTOM` events those with a subclass.
    #[tactic(auto, using(fs_seats::proofs::SeatLemmas::filled_rules))]
    fn hears(&self, name: EventName, subclass: &[u8]) -> bool
        ensures { result ≡ spec.is_heard self.now.switch.conns name subclass.now }
    {
        for seat in 0..self.conns.filled() {
            if self.hears_at(seat, name, subclass) {
                return true;
            }
        }
        false
    }

    /// Whether the connection that stands at a seat has.
    fn hears_at(&self, seat: usize, name: EventName, subclass: &[u8]) -> bool
        ensures { result ≡ spec.hears_at name subclass.now (held_in self.now.switch.conns seat) }
    {
        match self.conns.get(seat) {
            Some(row) => row.held.subs.hears(name, subclass),
            None => false,
        }
    }
}

/// The number of an event behind so many.
fn number_behind(count: u64) -> Result<u64, Memory>
    ensures { IfOk result (λ number. (number ≡ count + 1) × (number ≤ 2 ^ 64 - 1)) }
{
    count.checked_add(1).ok_or(Memory)
}

/// One reader more.
fn one_more(readers: u32) -> Result<u32, Memory>
    ensures { IfOk result (λ more. more ≡ readers + 1) }
{
    readers.checked_add(1).ok_or(Memory)
}

/// The numbers of those of these that the connection at a seat wants, as many as there is room for. Each of them has
/// one reader more.
fn numbers_within(
    alloc: Global,
    seat: usize,
    posts: &mut [Post],
    room: usize,
) -> Result<Outbox, Memory>
    requires { AreOrdered (events_of posts.old) }
    ensures same { OnOk result (map unread posts.new ≡ map unread posts.old) }
    ensures numbers { IfOk result
        (λ waiting. waiting ≡ spec.numbers_within room (spec.numbers_at seat posts.old)) }
    ensures readers { IfOk result (λ waiting. (number : ℕ) → readers_of number (events_of posts.new)
        ≡ readers_of number (events_of posts.old) + times number waiting) }
{
    let mut waiting = Outbox::new(alloc);
    for post in posts.iter_mut() {
        if waiting.len() < room && post.takers.has(seat) {
            waiting.push(Waiting::Event(post.number))?;
            post.readers = one_more(post.readers)?;
        }
    }
    Ok(waiting)
}

/// What waits for the connection of a number is listed, if there is anything.
fn add_list(lists: &mut Vec<Given>, conn: u64, waiting: Outbox) -> Result<(), Memory>
    ensures { OnOk result (lists.new.items ≡ lists.old.items ++ spec.lists_of conn waiting) }
{
    if waiting.len() == 0 {
        return Ok(());
    }
    lists.push(Given { conn, waiting })?;
    Ok(())
}

/// How many the connection at a seat wants behind those for which there is room.
#[tactic(auto, using(crate::proofs::PostLemmas::count_rules))]
fn lost_behind(seat: usize, told: &[Post], room: usize) -> u64
    ensures { result ≡ length (spec.frames_at seat told.now) - room }
{
    if told.len() <= room {
        return 0;
    }
    wanted_among(seat, told).saturating_sub(room) as u64
}

/// How many of these the connection at a seat wants.
fn wanted_among(seat: usize, told: &[Post]) -> usize
    ensures { result ≡ count_by (spec.is_taken seat) told.now }
{
    told.iter().filter(|post| post.takers.has(seat)).count()
}
