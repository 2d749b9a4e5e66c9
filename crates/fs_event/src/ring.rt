//! The events that are still to be read.

ghost use Rattle.std.specs.Prelude.{◌≡◌, ◌+◌, ◌-◌, ◌*◌, ◌^◌, ◌<◌, ◌≤◌, ◌++◌, ◌∷◌, []};
ghost use Rattle.std.specs.Prelude.{length, filter, slice_get, slice_set};
ghost use Rattle.std.specs.Prelude.{IfOk, OnOk, OnErr, Some, IfSome, IfNone, true, false};
ghost use Rattle.std.specs.Option.{option_copied, option_and_then};
ghost use Rattle.fs_event.specs.declared.place.Place.{Place};
ghost use Rattle.circular_buffer.specs.Buffer.{buffer};
ghost use Rattle.fs_event.specs.Places as spec_places;
ghost use Rattle.fs_event.specs.Rings as spec;

use crate::place::{Kept, Place};
use circular_buffer::HeapCircularBuffer;
use fs_text::Memory;
use std::alloc::Global;
use std::marker::Model;

/// The events that are still to be read, each kept once, with its number and how many are to read it.
///
/// A contract sees the pairs of number and event with their readers, in order of their numbers, how many places are in
/// use, and how many more are set aside.
#[derive(Drop)]
pub struct Ring<T> {
    places: HeapCircularBuffer<Place<T>>,
    // How many events are kept.
    held: usize,
}

impl<T> Model for Ring<T> {
    ghost use Rattle.std.specs.Prelude.{◌≡◌, ◌-◌, ◌+◌, ◌*◌, ◌≤◌, length};
    ghost use Rattle.fs_event.specs.Rings.{Events};
    ghost use Rattle.fs_event.specs.Places.{pairs_of, IsRing};

    ghost Value = { Events T };

    ghost view = { λ r. record {
      pairs = pairs_of r.places.items;
      slots = length r.places.items;
      spare = r.places.capacity - length r.places.items;
    } };

    ghost invariant = { λ r. IsRing r.places.items r.held };
}

impl<T: Drop> Ring<T> {
    /// No event, and no room for one.
    pub fn new(alloc: Global) -> Result<Ring<T>, Memory>
        ensures { IfOk result (λ ring. ring ≡ spec.no_events) }
    {
        let places = HeapCircularBuffer::with_capacity(alloc, 0)?;
        Ok(Ring { places, held: 0 })
    }

    /// Sets room aside for so many more events at least.
    pub fn room(&mut self, more: u32) -> Result<(), Memory>
        ensures room { OnOk result (more ≤ self.new.spare) }
        ensures same { OnOk result (self.new ≡ record self.old { spare = self.new.spare }) }
        ensures err { OnErr result (self.new ≡ self.old) }
    {
        let (len, capacity) = (self.places.len(), self.places.capacity());
        let wanted = len.saturating_add(more as usize);
        if wanted > capacity {
            self.places.resize(wanted.max(capacity.saturating_mul(2)))?;
        }
        Ok(())
    }

    /// Keeps an event behind all others, until so many have read it.
    pub fn push(&mut self, number: u64, event: T, readers: u32)
        requires spare { 0 < self.old.spare }
        requires readers { 0 < readers }
        requires last { spec.AreBelow number self.old.pairs }
        ensures pairs { self.new.pairs ≡ spec.pushed number event readers self.old.pairs }
        ensures spare { self.old.spare ≤ self.new.spare + 1 }
    {
        drop_back(&mut self.places);
        let kept = Some(Kept { event, readers });
        put_back(&mut self.places, Place { number, kept });
        self.held += 1;
    }

    /// The event of a number, where it is held.
    pub fn get(&self, number: u64) -> Option<&T>
        ensures { option_copied result ≡ spec.event_of number self.now.pairs }
    {
        match place_of(&self.places, number) {
            Some(index) => event_at(&self.places, index),
            None => None,
        }
    }

    /// Counts one reader less of the event of a number, where it is held; with the last reader it goes.
    pub fn release(&mut self, number: u64)
        ensures pairs { self.new.pairs ≡ spec.released number self.old.pairs }
        ensures spare { self.old.spare ≤ self.new.spare }
    {
        if read_once(&mut self.places, number) {
            self.held -= 1;
            give_up(&mut self.places, self.held);
        }
    }

    /// How many events are held.
    pub fn held(&self) -> u64
        ensures { result ≡ length self.now.pairs }
    {
        self.held as u64
    }

    /// How many places are in use: those of the events that are held, and some that were left.
    pub fn slots(&self) -> u64
        ensures slots { result ≡ self.now.slots }
        ensures within { result ≤ 2 * length self.now.pairs + 1 }
    {
        self.places.len() as u64
    }

    /// For how many more events room is set aside.
    pub fn spare(&self) -> u64
        ensures { result ≡ self.now.spare }
    {
        self.places.capacity().saturating_sub(self.places.len()) as u64
    }

    /// What holds of all events that are held. It does nothing, and stands for its contract.
    pub fn sound(&self)
        ensures { spec.IsSound self.now.pairs }
    {
        let _held = self.held;
    }
}

// Where the event of a number stands, if it has a place. Mostly it is the first; else the places are halved until it is
// found.
fn place_of<T: Drop>(places: &HeapCircularBuffer<Place<T>>, number: u64) -> Option<usize>
    requires { spec_places.IsOrdered places.now.items }
    ensures found { IfSome result (λ index. spec_places.IsAt number places.now.items index) }
    ensures nowhere { IfNone result (spec_places.IsNowhere number places.now.items) }
{
    let mut low = 0;
    let mut high = places.len();
    if is_first(places, number) {
        return Some(low);
    }
    while low < high {
        let middle = low + (high - low) / 2;
        let found = number_at(places, middle);
        if found == number {
            return Some(middle);
        }
        if found < number {
            low = middle + 1;
        } else {
            high = middle;
        }
    }
    None
}

// Whether the first place is of this number.
fn is_first<T: Drop>(places: &HeapCircularBuffer<Place<T>>, number: u64) -> bool
    ensures { result ≡ true → spec_places.IsAt number places.now.items 0 }
{
    match places.front() {
        Some(place) => place.number == number,
        None => false,
    }
}

// The number of a place.
fn number_at<T: Drop>(places: &HeapCircularBuffer<Place<T>>, index: usize) -> u64
    requires { index < length places.now.items }
    ensures { spec_places.IsAt result places.now.items index }
{
    match places.get(index) {
        Some(place) => place.number,
        None => unreachable!(),
    }
}

// The event of a place.
fn event_at<T: Drop>(places: &HeapCircularBuffer<Place<T>>, index: usize) -> Option<&T>
    ensures { option_copied result ≡ option_and_then spec_places.event_of (slice_get places.now.items index) }
{
    match places.get(index) {
        Some(place) => place.event(),
        None => None,
    }
}

// Counts one reader less of the event of a number. Answers whether the event went.
fn read_once<T: Drop>(places: &mut HeapCircularBuffer<Place<T>>, number: u64) -> bool
    requires { spec_places.IsOrdered places.old.items }
    ensures pairs { spec_places.pairs_of places.new.items
        ≡ spec.released number (spec_places.pairs_of places.old.items) }
    ensures order { spec_places.IsOrdered places.new.items }
    ensures count { length (spec_places.pairs_of places.new.items) + spec_places.one_if result
        ≡ length (spec_places.pairs_of places.old.items) }
    ensures slots { length places.new.items ≡ length places.old.items }
    ensures capacity { places.new.capacity ≡ places.old.capacity }
{
    match place_of(places, number) {
        Some(index) => read_at(places, index),
        None => false,
    }
}

// Counts one reader less of the event of a place. Answers whether the event went.
fn read_at<T: Drop>(places: &mut HeapCircularBuffer<Place<T>>, index: usize) -> bool
    ensures left { (place : Place T) → slice_get places.old.items index ≡ Some place
        → places.new ≡ buffer (slice_set places.old.items index (spec_places.read_once place)) places.old.capacity }
    ensures gone { (place : Place T) → slice_get places.old.items index ≡ Some place
        → result ≡ spec_places.is_last place }
{
    match places.get_mut(index) {
        Some(place) => place.read_once(),
        None => false,
    }
}

// Gives places up whose events went, where they are more than those of the events that are held.
fn give_up<T: Drop>(places: &mut HeapCircularBuffer<Place<T>>, held: usize)
    requires order { spec_places.IsOrdered places.old.items }
    requires held { held ≡ length (spec_places.pairs_of places.old.items) }
    ensures kept { spec_places.KeepsPairs places.old.items places.new.items }
    ensures capacity { places.new.capacity ≡ places.old.capacity }
    ensures within { length places.new.items ≤ 2 * held + 1 }
{
    drop_front(places);
    let len = places.len();
    if len > held && len - held > held + 1 {
        turn(places);
    }
}

// Puts a place behind all others.
fn put_back<T: Drop>(places: &mut HeapCircularBuffer<Place<T>>, place: Place<T>)
    requires { length places.old.items < places.old.capacity }
    ensures last { places.new ≡ buffer (places.old.items ++ place ∷ []) places.old.capacity }
    ensures within { length places.old.items + 1 < 2 ^ 63 }
{
    let _capacity = places.capacity();
    let _none = places.push_back(place);
}

// Gives the first place up, if its event went.
fn drop_front<T: Drop>(places: &mut HeapCircularBuffer<Place<T>>)
    ensures { places.new ≡ buffer (spec_places.without_front places.old.items) places.old.capacity }
{
    let gone = match places.front() {
        Some(place) => place.kept.is_none(),
        None => false,
    };
    if gone {
        places.pop_front();
    }
}

// Gives the last places up whose events went.
fn drop_back<T: Drop>(places: &mut HeapCircularBuffer<Place<T>>)
    requires { spec_places.IsOrdered places.old.items }
    ensures kept { spec_places.KeepsPairs places.old.items places.new.items }
    ensures capacity { places.new.capacity ≡ places.old.capacity }
    ensures last { spec_places.IsKeptLast places.new.items }
{
    while has_empty_back(places) {
        places.truncate_back(places.len().saturating_sub(1));
    }
}

// Whether there is a last place and its event went.
fn has_empty_back<T: Drop>(places: &HeapCircularBuffer<Place<T>>) -> bool
    ensures empty { result ≡ true → spec_places.HasEmptyLast places.now.items }
    ensures kept { result ≡ false → spec_places.IsKeptLast places.now.items }
{
    match places.back() {
        Some(place) => place.kept.is_none(),
        None => false,
    }
}

// Turns the ring once round: each place goes from the front to the back, or is given up if its event went.
fn turn<T: Drop>(places: &mut HeapCircularBuffer<Place<T>>)
    ensures { places.new ≡ buffer (filter spec_places.is_kept places.old.items) places.old.capacity }
{
    for _place in 0..places.len() {
        turn_one(places);
    }
}

// Moves the first place to the back, or gives it up if its event went.
fn turn_one<T: Drop>(places: &mut HeapCircularBuffer<Place<T>>)
    ensures { places.new ≡ buffer (spec_places.turned_once places.old.items) places.old.capacity }
{
    let _within = places.len();
    if let Some(place) = places.pop_front() {
        if place.kept.is_some() {
            put_back(places, place);
        }
    }
}
