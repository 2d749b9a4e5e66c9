//! What a connection subscribed, shared between its copies.

ghost use Rattle.std.specs.Prelude.{◌≡◌, true, IfOk, OnOk, OnErr};
ghost use Rattle.fs_filter.specs.Asked.{asked_in, is_known, lent};
ghost use Rattle.fs_filter.specs.Subscriptions as spec;

use crate::filters::SharedFilters;
use crate::sieve::Sieve;
use crate::subs::Subs;
use fs_text::{EventName, Memory};
use std::alloc::Global;
use std::marker::Model;
use std::sync::Arc;

/// What a connection subscribed, shared between its copies.
///
/// A contract sees it as what is subscribed. A change leaves the other copies as they are, and shares with them what it
/// does not change: one more filter or subclass to n costs about log n.
pub struct SharedSubs {
    // What is subscribed, without the filters. None where nothing was ever asked.
    shared: Option<Arc<Subs>>,
    filters: SharedFilters,
}

impl Model for SharedSubs {
    ghost use Rattle.std.specs.Prelude.{option_map, unwrap_or};
    ghost use Rattle.std.specs.Arc.{arc_value};
    ghost use Rattle.fs_filter.specs.Subscriptions.{Subscription, nothing};

    ghost Value = { Subscription };

    ghost view = { λ s. let subs : Subscription = unwrap_or (option_map arc_value s.shared) nothing
        in record subs { filters = s.filters } };
}

impl Drop for SharedSubs {
    fn drop(self) {
        let SharedSubs {
            shared: _shared,
            filters: _filters,
        } = self;
    }
}

impl SharedSubs {
    /// Nothing is subscribed, and there is no filter. Takes no memory.
    pub fn nothing() -> SharedSubs
        ensures { result ≡ spec.nothing }
    {
        SharedSubs {
            shared: None,
            filters: SharedFilters::none(),
        }
    }

    /// The same once more, in constant time.
    pub fn copy(&self) -> Result<SharedSubs, Memory>
        ensures { IfOk result (λ subs. subs ≡ self.now) }
    {
        let shared = match &self.shared {
            Some(subs) => Some(subs.clone()?),
            None => None,
        };
        Ok(SharedSubs {
            shared,
            filters: self.filters.copy()?,
        })
    }

    /// Whether a known name was subscribed, since the beginning or the last `clear`. Takes no memory.
    pub fn listening(&self) -> bool
        ensures { result ≡ self.now.listening }
    {
        match &self.shared {
            Some(subs) => subs.listening(),
            None => false,
        }
    }

    /// Whether no event is subscribed, as far as that is seen at once. Takes no memory.
    pub fn is_idle(&self) -> bool
        ensures { result ≡ true → spec.HearsNothing self.now }
    {
        match &self.shared {
            Some(subs) => subs.is_idle(),
            None => true,
        }
    }

    /// Whether the events of this name are subscribed, of `CUSTOM` events those with this subclass. Takes no memory.
    pub fn hears(&self, name: EventName, subclass: &[u8]) -> bool
        ensures { result ≡ spec.has_event self.now name subclass.now }
    {
        match &self.shared {
            Some(subs) => subs.hears(name, subclass),
            None => false,
        }
    }

    /// The filters, to be given headers one by one. Takes no memory.
    pub fn sieve(&self, alloc: Global) -> Sieve<'_>
        ensures { result ≡ spec.sieve_of self.now.filters }
    {
        Sieve::over(alloc, self.filters.chunks())
    }

    /// Subscribes the events that these words name, as [`Subs::subscribe`] does. Answers whether a known name stands
    /// among them.
    pub fn subscribe(&mut self, alloc: Global, names: &[u8]) -> Result<bool, Memory>
        ensures ok { OnOk result (self.new ≡ spec.subscribed (asked_in names.now) self.old) }
        ensures known { IfOk result (λ known. known ≡ is_known (asked_in names.now)) }
        ensures err { OnErr result (self.new ≡ self.old) }
    {
        let mut subs = self.own(alloc)?;
        let known = subs.subscribe(names)?;
        self.put(alloc, subs)?;
        Ok(known)
    }

    /// Takes the events that these words name out again, as [`Subs::nix`] does. Answers whether a known name stands
    /// among them.
    pub fn nix(&mut self, alloc: Global, names: &[u8]) -> Result<bool, Memory>
        ensures ok { OnOk result (self.new ≡ spec.unsubscribed (asked_in names.now) self.old) }
        ensures known { IfOk result (λ known. known ≡ is_known (asked_in names.now)) }
        ensures err { OnErr result (self.new ≡ self.old) }
    {
        let mut subs = self.own(alloc)?;
        let known = subs.nix(names)?;
        self.put(alloc, subs)?;
        Ok(known)
    }

    /// Takes all events out. The filters stay.
    pub fn clear(&mut self, alloc: Global) -> Result<(), Memory>
        ensures ok { OnOk result (self.new ≡ spec.cleared self.old) }
        ensures err { OnErr result (self.new ≡ self.old) }
    {
        let mut subs = self.own(alloc)?;
        subs.clear();
        self.put(alloc, subs)
    }

    /// Adds a filter: the header of an event with the value, unescaped, that it is to have.
    pub fn add_filter(&mut self, alloc: Global, header: &[u8], value: &[u8]) -> Result<(), Memory>
        ensures ok { OnOk result (self.new
            ≡ record self.old { filters = spec.with_filter self.old.filters (header.now, value.now) }) }
        ensures err { OnErr result (self.new ≡ self.old) }
    {
        self.filters = self.filters.with(alloc, header, value)?;
        Ok(())
    }

    /// Takes out the filters of a header, those with this value where one is named. Answers whether there was one.
    pub fn delete_filter(
        &mut self,
        alloc: Global,
        header: &[u8],
        value: Option<&[u8]>,
    ) -> Result<bool, Memory>
        ensures ok { OnOk result (self.new
            ≡ record self.old {
              filters = spec.without_filter self.old.filters header.now (lent value.entry);
            }) }
        ensures found { IfOk result (λ found. found ≡ spec.has_filter self.old.filters header.now (lent value.entry)) }
        ensures err { OnErr result (self.new ≡ self.old) }
    {
        let mut filters = self.filters.whole(alloc)?;
        let found = filters.remove(header, value);
        self.filters = SharedFilters::of(alloc, filters)?;
        Ok(found)
    }

    // What is subscribed, in a copy of its own, with other filters.
    fn own(&self, alloc: Global) -> Result<Subs, Memory>
        ensures { IfOk result (λ subs. record subs { filters = self.now.filters } ≡ self.now) }
    {
        match &self.shared {
            Some(subs) => subs.copy(),
            None => Subs::new(alloc),
        }
    }

    // Puts what was changed in the place of what was subscribed. The filters stay.
    fn put(&mut self, alloc: Global, subs: Subs) -> Result<(), Memory>
        ensures ok { OnOk result (self.new ≡ record subs { filters = self.old.filters }) }
        ensures err { OnErr result (self.new ≡ self.old) }
    {
        self.shared = Some(Arc::new(alloc, subs)?);
        Ok(())
    }
}
