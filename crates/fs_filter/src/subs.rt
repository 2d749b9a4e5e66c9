//! What a connection subscribed.

ghost use Rattle.std.specs.Prelude.{◌≡◌, true, IfOk, OnOk, OnErr};
ghost use Rattle.fs_filter.specs.Asked.{asked_in, is_known, lent};
ghost use Rattle.fs_filter.specs.Subscriptions as spec;

use crate::asked::{Asked, words_in};
use crate::filters::Filters;
use crate::sieve::Sieve;
use crate::subclasses::Subclasses;
use fs_event::Event;
use fs_text::{EventName, Headers, Memory};
use std::alloc::Global;
use std::marker::Model;

/// The events that a connection subscribed, whether it listens, and its filters.
pub struct Subs {
    names: Vec<EventName>,
    subclasses: Subclasses,
    listening: bool,
    filters: Filters,
}

impl Model for Subs {
    ghost use Rattle.fs_filter.specs.Subscriptions.{Subscription};

    ghost Value = { Subscription };

    ghost view = { λ s. record {
      names = s.names.items;
      subclasses = s.subclasses;
      listening = s.listening;
      filters = s.filters;
    } };
}

impl Drop for Subs {
    fn drop(self) {
        let Subs {
            names: _names,
            subclasses: _subclasses,
            listening: _listening,
            filters: _filters,
        } = self;
    }
}

impl Subs {
    /// Nothing is subscribed, and there is no filter.
    pub fn new(alloc: Global) -> Result<Subs, Memory>
        ensures { IfOk result (λ subs. subs ≡ spec.nothing) }
    {
        Ok(Subs {
            names: Vec::new(alloc),
            subclasses: Subclasses::none(alloc),
            listening: false,
            filters: Filters::new(alloc),
        })
    }

    /// The same once more; the texts share their bytes.
    pub fn copy(&self) -> Result<Subs, Memory>
        ensures { IfOk result (λ subs. subs ≡ self.now) }
    {
        let alloc = self.alloc();
        Ok(Subs {
            names: Vec::from_slice(alloc, self.names.as_slice())?,
            subclasses: self.subclasses.copy()?,
            listening: self.listening,
            filters: self.filters.copy()?,
        })
    }

    /// Subscribes the events that these words name. Answers whether a known name stands among them.
    ///
    /// Unknown words are passed over. `ALL` names all events and all subclasses; all words behind `CUSTOM` are
    /// subclasses.
    pub fn subscribe(&mut self, names: &[u8]) -> Result<bool, Memory>
        ensures ok { OnOk result (self.new ≡ spec.subscribed (asked_in names.now) self.old) }
        ensures known { IfOk result (λ known. known ≡ is_known (asked_in names.now)) }
        ensures err { OnErr result (self.new ≡ self.old) }
    {
        let alloc = self.alloc();
        let words = words_in(alloc, names)?;
        let asked = Asked::of(words.as_slice());
        let names = with_names(alloc, self.names.as_slice(), &asked)?;
        self.subclasses = self.subclasses.with(alloc, &asked)?;
        self.names = names;
        let known = asked.is_known();
        self.listening |= known;
        Ok(known)
    }

    /// Takes the events that these words name out again. Answers whether a known name stands among them.
    ///
    /// `CUSTOM` with nothing behind it takes all subclasses out. Where all subclasses are subscribed, none is taken out
    /// by its name.
    pub fn nix(&mut self, names: &[u8]) -> Result<bool, Memory>
        ensures ok { OnOk result (self.new ≡ spec.unsubscribed (asked_in names.now) self.old) }
        ensures known { IfOk result (λ known. known ≡ is_known (asked_in names.now)) }
        ensures err { OnErr result (self.new ≡ self.old) }
    {
        let alloc = self.alloc();
        let words = words_in(alloc, names)?;
        let asked = Asked::of(words.as_slice());
        self.subclasses = self.subclasses.without(alloc, &asked)?;
        self.names.retain(|name| !asked.has_name(*name));
        Ok(asked.is_known())
    }

    /// Takes all events out. The filters stay. Takes no memory.
    pub fn clear(&mut self)
        ensures { self.new ≡ spec.cleared self.old }
    {
        let alloc = self.alloc();
        self.names = Vec::new(alloc);
        self.subclasses = Subclasses::none(alloc);
        self.listening = false;
    }

    /// Whether a known name was subscribed, since the beginning or the last `clear`.
    pub fn listening(&self) -> bool
        ensures { result ≡ self.now.listening }
    {
        self.listening
    }

    /// Adds a filter: the header of an event with the value, unescaped, that it is to have.
    pub fn add_filter(&mut self, header: &[u8], value: &[u8]) -> Result<(), Memory>
        ensures ok { OnOk result (self.new
            ≡ record self.old { filters = spec.with_filter self.old.filters (header.now, value.now) }) }
        ensures err { OnErr result (self.new ≡ self.old) }
    {
        let alloc = self.alloc();
        self.filters.add(alloc, header, value)
    }

    /// Takes out the filters of a header, those with this value where one is named. Answers whether there was one.
    /// Takes no memory.
    pub fn delete_filter(&mut self, header: &[u8], value: Option<&[u8]>) -> bool
        ensures rest { self.new
            ≡ record self.old {
              filters = spec.without_filter self.old.filters header.now (lent value.entry);
            } }
        ensures found { result ≡ spec.has_filter self.old.filters header.now (lent value.entry) }
    {
        self.filters.remove(header, value)
    }

    /// Whether no event is subscribed, as far as that is seen at once. Takes no memory.
    pub fn is_idle(&self) -> bool
        ensures { result ≡ true → spec.HearsNothing self.now }
    {
        self.names.is_empty() && self.subclasses.is_empty()
    }

    /// Whether the events of this name are subscribed, of `CUSTOM` events those with this subclass. Takes no memory.
    pub fn hears(&self, name: EventName, subclass: &[u8]) -> bool
        ensures { result ≡ spec.has_event self.now name subclass.now }
    {
        match name {
            EventName::Custom => self.subclasses.has(subclass),
            name => has_name(self.names.as_slice(), name),
        }
    }

    /// Whether the connection is to be told of an event: it is subscribed, of a `CUSTOM` event its subclass, and there
    /// is no filter or some filter is one of its headers with its value. Takes no memory.
    pub fn wants(&self, event: &Event) -> bool
        ensures { result ≡ spec.wants self.now event.now }
    {
        self.hears(event.name, event.subclass.as_bytes()) && self.let_through(&event.headers)
    }

    // Whether there is no filter, or some filter is one of these headers with its value.
    #[tactic(auto, using(crate::proofs::SieveLemmas::sifted_lets))]
    fn let_through(&self, headers: &Headers) -> bool
        ensures { result ≡ spec.lets_through self.now.filters headers.now }
    {
        let mut sieve = self.sieve();
        for (name, value) in headers.pairs() {
            sieve.see(name.as_bytes(), value.as_bytes());
        }
        sieve.passes()
    }

    /// The filters, to be given headers one by one. Takes no memory.
    pub fn sieve(&self) -> Sieve<'_>
        ensures { result ≡ spec.sieve_of self.now.filters }
    {
        Sieve::of(self.alloc(), self.filters.pairs())
    }

    // Where its lists take their memory from.
    fn alloc(&self) -> Global {
        *self.names.allocator()
    }
}

// These names and those that are asked for, in the order of the table.
fn with_names(alloc: Global, names: &[EventName], asked: &Asked) -> Result<Vec<EventName>, Memory>
    ensures { IfOk result (λ all. all.items ≡ spec.with_names asked.now names.now) }
{
    let all = EventName::table()
        .iter()
        .map(|row| row.0)
        .filter(|name| has_name(names, *name) || asked.has_name(*name))
        .collect(alloc)?;
    Ok(all)
}

// Whether a name is among these.
fn has_name(names: &[EventName], name: EventName) -> bool
    ensures { result ≡ spec.has_name names.now name }
{
    names.iter().any(|other| other.number() == name.number())
}
