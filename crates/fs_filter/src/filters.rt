//! Filters over the headers of events.

ghost use Rattle.std.specs.Prelude.{◌≡◌, [], true, IfOk, OnOk, OnErr};
ghost use Rattle.fs_filter.specs.Asked.{lent};
ghost use Rattle.fs_filter.specs.Chunks.{joined};
ghost use Rattle.fs_filter.specs.Subscriptions as spec;

use crate::chunks::Chunks;
use crate::key::Key;
use fs_text::Memory;
use indexmap::IndexSet;
use std::alloc::Global;
use std::marker::Model;
use std::sync::Arc;

/// Headers with the values that they are to have, in the order in which they were added.
pub(crate) struct Filters {
    pairs: IndexSet<(Key, Key)>,
}

impl Model for Filters {
    ghost use Rattle.fs_filter.specs.Subscriptions.{Filters};

    ghost Value = { Filters };

    ghost view = { λ f. f.pairs.keys };
}

impl Drop for Filters {
    fn drop(self) {
        let Filters { pairs: _pairs } = self;
    }
}

impl Filters {
    /// No filter.
    pub fn new(alloc: Global) -> Filters
        ensures { result ≡ [] }
    {
        Filters {
            pairs: IndexSet::new(alloc),
        }
    }

    /// The same once more; the texts share their bytes.
    pub fn copy(&self) -> Result<Filters, Memory>
        ensures { IfOk result (λ filters. filters ≡ self.now) }
    {
        let pairs = self.pairs.clone()?;
        Ok(Filters { pairs })
    }

    /// Adds a filter, if it is new.
    pub fn add(&mut self, alloc: Global, header: &[u8], value: &[u8]) -> Result<(), Memory>
        ensures ok { OnOk result (self.new ≡ spec.with_filter self.old (header.now, value.now)) }
        ensures err { OnErr result (self.new ≡ self.old) }
    {
        let filter = (Key::of(alloc, header)?, Key::of(alloc, value)?);
        self.pairs.insert(filter)?;
        Ok(())
    }

    /// Takes out the filters of a header, or those with this value. Answers whether there was one.
    pub fn remove(&mut self, header: &[u8], value: Option<&[u8]>) -> bool
        ensures rest { self.new ≡ spec.without_filter self.old header.now (lent value.entry) }
        ensures found { result ≡ spec.has_filter self.old header.now (lent value.entry) }
    {
        let found = has_meant(self.pairs.as_slice(), header, value);
        self.pairs.retain(|pair| !is_meant(header, value, pair));
        found
    }

    /// The filters, in order.
    pub fn pairs(&self) -> &[(Key, Key)]
        ensures { result.now ≡ self.now }
    {
        self.pairs.as_slice()
    }

    // The filters as a set.
    fn into_set(self) -> IndexSet<(Key, Key)>
        ensures { result.keys ≡ self }
    {
        let Filters { pairs } = self;
        pairs
    }
}

/// Filters of which copies share most.
pub(crate) struct SharedFilters {
    // None where there is no filter.
    pairs: Option<Arc<Chunks<(Key, Key)>>>,
}

impl Model for SharedFilters {
    ghost use Rattle.std.specs.Prelude.{[], option_map, unwrap_or};
    ghost use Rattle.std.specs.Arc.{arc_value};
    ghost use Rattle.fs_filter.specs.Subscriptions.{Filters};

    ghost Value = { Filters };

    ghost view = { λ f. unwrap_or (option_map arc_value f.pairs) [] };
}

impl Drop for SharedFilters {
    fn drop(self) {
        let SharedFilters { pairs: _pairs } = self;
    }
}

impl SharedFilters {
    /// No filter. Takes no memory.
    pub fn none() -> SharedFilters
        ensures { result ≡ [] }
    {
        SharedFilters { pairs: None }
    }

    /// The same once more, in constant time.
    pub fn copy(&self) -> Result<SharedFilters, Memory>
        ensures { IfOk result (λ filters. filters ≡ self.now) }
    {
        let pairs = match &self.pairs {
            Some(pairs) => Some(pairs.clone()?),
            None => None,
        };
        Ok(SharedFilters { pairs })
    }

    /// These filters and one more, if it is new.
    pub fn with(&self, alloc: Global, header: &[u8], value: &[u8]) -> Result<SharedFilters, Memory>
        ensures { IfOk result (λ filters. filters ≡ spec.with_filter self.now (header.now, value.now)) }
    {
        let filter = (Key::of(alloc, header)?, Key::of(alloc, value)?);
        let pairs = match &self.pairs {
            Some(pairs) => pairs.with(filter)?,
            None => Chunks::new(alloc).with(filter)?,
        };
        let pairs = Some(Arc::new(alloc, pairs)?);
        Ok(SharedFilters { pairs })
    }

    /// The filters in a list of their own.
    pub fn whole(&self, alloc: Global) -> Result<Filters, Memory>
        ensures { IfOk result (λ filters. filters ≡ self.now) }
    {
        match &self.pairs {
            Some(pairs) => Ok(Filters {
                pairs: pairs.whole()?,
            }),
            None => Ok(Filters::new(alloc)),
        }
    }

    /// The filters of a list.
    pub fn of(alloc: Global, filters: Filters) -> Result<SharedFilters, Memory>
        ensures { IfOk result (λ shared. shared ≡ filters) }
    {
        let pairs = Chunks::of(alloc, filters.into_set())?;
        let pairs = Some(Arc::new(alloc, pairs)?);
        Ok(SharedFilters { pairs })
    }

    /// The filters in chunks.
    pub fn chunks(&self) -> &[Arc<IndexSet<(Key, Key)>>]
        ensures { joined result.now ≡ self.now }
    {
        match &self.pairs {
            Some(pairs) => pairs.chunks(),
            None => &[],
        }
    }
}

// Whether one of the filters is meant.
fn has_meant(filters: &[(Key, Key)], header: &[u8], value: Option<&[u8]>) -> bool
    ensures { result ≡ spec.has_filter filters.now header.now (lent value.entry) }
{
    filters.iter().any(|filter| is_meant(header, value, filter))
}

// Whether a filter is of this header, and has this value where one is named.
fn is_meant(header: &[u8], value: Option<&[u8]>, filter: &(Key, Key)) -> bool
    ensures { result ≡ spec.is_meant header.now (lent value.entry) filter.now }
{
    filter.0.as_bytes() == header && value.is_none_or(|value| filter.1.as_bytes() == value)
}
