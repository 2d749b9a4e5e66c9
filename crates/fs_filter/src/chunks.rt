//! Elements in order, of which copies share most.

ghost use Rattle.std.specs.Prelude.{◌≡◌, [], ◌∷◌, ◌++◌, ◌≤◌, true, take, length, IfOk, OnOk, OnErr};
ghost use Rattle.std.specs.List.{list_any, IsDistinct};
ghost use Rattle.indexmap.specs.IndexSet.{insert_key};
ghost use Rattle.fs_filter.specs.Chunks.{elements, joined};

use fs_text::Memory;
use indexmap::IndexSet;
use std::alloc::Global;
use std::hash::Hash;
use std::marker::Model;
use std::sync::Arc;

/// Elements in the order in which they were added, each once.
///
/// They stand in chunks that copies share. What is added is a chunk of its own, which takes in those before it that are
/// not larger. So there are few chunks, and an element is moved few times.
pub(crate) struct Chunks<T: Eq + Hash> {
    chunks: Vec<Arc<IndexSet<T>>>,
}

impl<T: Eq + Hash> Model for Chunks<T> {
    ghost use Rattle.std.specs.Prelude.{List};
    ghost use Rattle.std.specs.List.{IsDistinct};
    ghost use Rattle.fs_filter.specs.Chunks.{joined};

    ghost Value = { List T };

    ghost view = { λ c. joined c.chunks.items };

    ghost invariant = { λ c. IsDistinct T.eq (joined c.chunks.items) };
}

impl<T: Eq + Hash + Drop> Drop for Chunks<T> {
    fn drop(self) {
        let Chunks { chunks: _chunks } = self;
    }
}

impl<T: Eq + Hash + Clone + Drop> Chunks<T> {
    /// No element.
    pub fn new(alloc: Global) -> Chunks<T>
        ensures { result ≡ [] }
    {
        Chunks {
            chunks: Vec::new(alloc),
        }
    }

    /// The elements of a set.
    pub fn of(alloc: Global, elements: IndexSet<T>) -> Result<Chunks<T>, Memory>
        ensures { IfOk result (λ chunks. chunks ≡ elements.keys) }
    {
        let _distinct = elements.len();
        let mut chunks = Vec::new(alloc);
        chunks.push(Arc::new(alloc, elements)?)?;
        Ok(Chunks { chunks })
    }

    /// The same once more; the chunks are shared.
    pub fn copy(&self) -> Result<Chunks<T>, Memory>
        ensures { IfOk result (λ chunks. chunks ≡ self.now) }
    {
        let chunks = Vec::from_clones(*self.chunks.allocator(), self.chunks.as_slice())?;
        Ok(Chunks { chunks })
    }

    /// Whether there is no chunk.
    pub fn is_empty(&self) -> bool
        ensures { result ≡ true → self.now ≡ [] }
    {
        self.chunks.is_empty()
    }

    /// Whether an element is among these.
    pub fn has(&self, element: &T) -> bool
        ensures { result ≡ list_any (T.eq element.now) self.now }
    {
        self.chunks.iter().any(|chunk| chunk.contains(element))
    }

    /// These elements and one more, if it is new.
    pub fn with(&self, element: T) -> Result<Chunks<T>, Memory>
        requires { (x y : T) → T.is_clone x y → y ≡ x }
        ensures { IfOk result (λ all. all ≡ insert_key T.eq self.now element) }
    {
        if self.has(&element) {
            return self.copy();
        }
        let chunks = with_newest(*self.chunks.allocator(), self.chunks.as_slice(), element)?;
        Ok(Chunks { chunks })
    }

    /// All elements in a set of their own.
    pub fn whole(&self) -> Result<IndexSet<T>, Memory>
        requires { (x y : T) → T.is_clone x y → y ≡ x }
        ensures { IfOk result (λ all. all.keys ≡ self.now) }
    {
        gathered(*self.chunks.allocator(), self.chunks.as_slice())
    }

    /// The chunks, in order.
    pub fn chunks(&self) -> &[Arc<IndexSet<T>>]
        ensures { joined result.now ≡ self.now }
    {
        self.chunks.as_slice()
    }
}

// Chunks that have one element more, shared where they stay. A chunk stays that is larger than all behind it.
fn with_newest<T: Eq + Hash + Clone + Drop>(
    alloc: Global,
    chunks: &[Arc<IndexSet<T>>],
    element: T,
) -> Result<Vec<Arc<IndexSet<T>>>, Memory>
    requires clones { (x y : T) → T.is_clone x y → y ≡ x }
    requires distinct { IsDistinct T.eq (joined chunks.now ++ element ∷ []) }
    ensures { IfOk result (λ all. joined all.items ≡ joined chunks.now ++ element ∷ []) }
{
    let (staying, others) = chunks.split_at(staying(chunks));
    let newest = newest_of(alloc, others, element)?;
    let mut all = Vec::from_clones(alloc, staying)?;
    all.push(newest)?;
    Ok(all)
}

// How many chunks stay when an element is added.
fn staying<T: Eq + Hash>(chunks: &[Arc<IndexSet<T>>]) -> usize
    ensures { result ≤ length chunks.now }
{
    let mut staying = chunks.len();
    let mut behind: usize = 1;
    while staying > 0 && chunks[staying - 1].len() <= behind {
        staying -= 1;
        behind = behind.saturating_add(chunks[staying].len());
    }
    staying
}

// A chunk of the elements of others and one more.
fn newest_of<T: Eq + Hash + Clone + Drop>(
    alloc: Global,
    chunks: &[Arc<IndexSet<T>>],
    element: T,
) -> Result<Arc<IndexSet<T>>, Memory>
    requires clones { (x y : T) → T.is_clone x y → y ≡ x }
    requires distinct { IsDistinct T.eq (joined chunks.now ++ element ∷ []) }
    ensures { IfOk result (λ newest. elements newest ≡ joined chunks.now ++ element ∷ []) }
{
    let mut newest = gathered(alloc, chunks)?;
    newest.insert(element)?;
    Ok(Arc::new(alloc, newest)?)
}

// The elements of chunks in one set.
fn gathered<T: Eq + Hash + Clone + Drop>(
    alloc: Global,
    chunks: &[Arc<IndexSet<T>>],
) -> Result<IndexSet<T>, Memory>
    requires clones { (x y : T) → T.is_clone x y → y ≡ x }
    requires distinct { IsDistinct T.eq (joined chunks.now) }
    ensures { IfOk result (λ all. all.keys ≡ joined chunks.now) }
{
    let mut all = IndexSet::new(alloc);
    for chunk in chunks {
        put_all(&mut all, chunk)?;
    }
    Ok(all)
}

// Puts the elements of a chunk behind those of a set.
fn put_all<T: Eq + Hash + Clone + Drop>(
    all: &mut IndexSet<T>,
    chunk: &Arc<IndexSet<T>>,
) -> Result<(), Memory>
    requires clones { (x y : T) → T.is_clone x y → y ≡ x }
    requires distinct { IsDistinct T.eq (all.old.keys ++ elements chunk.now) }
    ensures { OnOk result (all.new.keys ≡ all.old.keys ++ elements chunk.now) }
{
    all.reserve(chunk.len())?;
    for element in chunk.as_slice() {
        all.insert(element.clone()?)?;
    }
    Ok(())
}
