//! Headers that filters see one by one.

ghost use Rattle.std.specs.Prelude.{◌≡◌, ◌==◌, length};
ghost use Rattle.fs_filter.specs.Chunks.{joined};
ghost use Rattle.fs_filter.specs.Subscriptions as spec;

use crate::key::Key;
use fs_text::{HeaderSink, Memory, variable_name};
use indexmap::IndexSet;
use std::alloc::Global;
use std::marker::Model;
use std::sync::Arc;

/// What filters say of headers that they are given one by one, made by `Subs::sieve`.
///
/// A contract sees the filters, and whether an event with the headers so far is let through.
#[derive(Drop)]
pub struct Sieve<'a> {
    alloc: Global,
    // The filters are those of a list, and those of chunks behind it.
    listed: &'a [(Key, Key)],
    chunks: &'a [Arc<IndexSet<(Key, Key)>>],
    passed: bool,
}

impl<'a> Model for Sieve<'a> {
    ghost use Rattle.std.specs.Prelude.{◌++◌};
    ghost use Rattle.fs_filter.specs.Chunks.{joined};
    ghost use Rattle.fs_filter.specs.Subscriptions.{Sieve};

    ghost Value = { Sieve };

    ghost view = { λ s. record { filters = s.listed.now ++ joined s.chunks.now; passed = s.passed } };
}

impl<'a> Sieve<'a> {
    /// Filters of a list that have seen no header yet.
    pub(crate) fn of(alloc: Global, filters: &'a [(Key, Key)]) -> Sieve<'a>
        ensures { result ≡ spec.sieve_of filters.now }
    {
        Sieve {
            alloc,
            listed: filters,
            chunks: &[],
            passed: filters.is_empty(),
        }
    }

    /// Filters in chunks that have seen no header yet.
    pub(crate) fn over(alloc: Global, chunks: &'a [Arc<IndexSet<(Key, Key)>>]) -> Sieve<'a>
        ensures { result ≡ spec.sieve_of (joined chunks.now) }
    {
        Sieve {
            alloc,
            listed: &[],
            chunks,
            passed: are_empty(chunks),
        }
    }

    /// Whether an event with the headers so far is let through. It stays so, whatever headers come.
    pub fn passes(&self) -> bool
        ensures { result ≡ self.now.passed }
    {
        self.passed
    }

    // Sees one more header.
    pub(crate) fn see(&mut self, name: &[u8], value: &[u8])
        ensures { self.new ≡ spec.sifted (name.now, value.now) self.old }
    {
        self.passed = self.passed
            || is_asked(self.listed, name, value)
            || is_asked_in(self.chunks, name, value);
    }
}

impl HeaderSink for Sieve<'_> {
    ghost taken = { spec.sifted };

    fn put(&mut self, name: &[u8], value: &[u8]) -> Result<(), Memory> {
        self.see(name, value);
        Ok(())
    }

    fn put_variable(&mut self, name: &[u8], value: &[u8]) -> Result<(), Memory> {
        let name = variable_name(self.alloc, name)?;
        self.see(name.as_bytes(), value);
        Ok(())
    }
}

// Whether no chunk has a filter.
fn are_empty(chunks: &[Arc<IndexSet<(Key, Key)>>]) -> bool
    ensures { result ≡ (length (joined chunks.now) == 0) }
{
    chunks.iter().all(|chunk| chunk.as_slice().is_empty())
}

// Whether one of these filters is this header with its value.
fn is_asked(filters: &[(Key, Key)], name: &[u8], value: &[u8]) -> bool
    ensures { result ≡ spec.is_asked filters.now (name.now, value.now) }
{
    filters.iter().any(|filter| name == filter.0.as_bytes() && value == filter.1.as_bytes())
}

// Whether a filter of these chunks is this header with its value.
fn is_asked_in(chunks: &[Arc<IndexSet<(Key, Key)>>], name: &[u8], value: &[u8]) -> bool
    ensures { result ≡ spec.is_asked (joined chunks.now) (name.now, value.now) }
{
    chunks
        .iter()
        .any(|chunk| is_asked(chunk.as_slice(), name, value))
}
