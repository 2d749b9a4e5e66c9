//! The callers that wait in queues.

ghost use Rattle.std.specs.Prelude.{◌≡◌, ◌==◌, ◌≤◌, ◌^◌, [], false, not, length, filter, position};
ghost use Rattle.std.specs.Prelude.{option_map, option_copied, IfOk, OnOk, OnErr};
ghost use Rattle.std.specs.List.{find, position_or_len};
ghost use Rattle.fs_fifo.specs.Queues as spec;
ghost use Rattle.fs_fifo.specs.Laws.{IsSound};

use crate::caller::QueuedCaller;
use fs_text::{Memory, Txt};
use std::alloc::Global;
use std::marker::Model;

/// The callers that wait in queues, by priority and then arrival. The lesser number of a priority comes first.
///
/// A contract sees the callers of all queues, in this order.
#[derive(Drop)]
pub struct Fifos {
    callers: Vec<QueuedCaller>,
}

impl Model for Fifos {
    ghost use Rattle.fs_fifo.specs.Queues.{Queues};
    ghost use Rattle.fs_fifo.specs.Laws.{IsSound};

    ghost Value = { Queues };

    ghost view = { λ f. f.callers.items };

    ghost invariant = { λ f. IsSound f.callers.items };
}

impl Fifos {
    /// No queue.
    pub fn new(alloc: Global) -> Fifos
        ensures { result ≡ [] }
    {
        Fifos {
            callers: Vec::new(alloc),
        }
    }

    /// The same queues once more.
    pub fn copy(&self) -> Result<Fifos, Memory>
        ensures { IfOk result (λ copy. copy ≡ self.now) }
    {
        let callers = copied(*self.callers.allocator(), &self.callers)?;
        Ok(Fifos { callers })
    }

    /// What holds of all queues. It does nothing, and stands for its contract.
    pub fn sound(&self)
        ensures { IsSound self.now }
    {
        let _callers = &self.callers;
    }

    /// Lets the caller of a slot, which stands in no queue, wait in the queue of a name, behind all of its priority
    /// and of lesser numbers.
    pub fn enter(&mut self, name: &Txt, priority: u8, slot: u16) -> Result<(), Memory>
        requires { spec.stands slot self.old ≡ false }
        ensures ok { OnOk result (self.new ≡ spec.entered name.now priority slot self.old) }
        ensures err { OnErr result (self.new ≡ self.old) }
    {
        let caller = QueuedCaller {
            queue: name.copy()?,
            priority,
            slot,
        };
        place(&mut self.callers, caller)
    }

    /// Takes the first caller out of a queue, and gives its slot: that of the least number of a priority, and of
    /// equal ones that of the earliest arrival.
    pub fn take(&mut self, name: &[u8]) -> Option<u16>
        ensures slot { result ≡ option_map (λ caller. caller.slot) (spec.first name.now self.old) }
        ensures taken { self.new ≡ spec.taken name.now self.old }
    {
        take_first(&mut self.callers, name)
    }

    /// Takes the caller of a slot out of its queue. Answers whether it stood in one.
    pub fn leave(&mut self, slot: u16) -> bool
        ensures stood { result ≡ spec.stands slot self.old }
        ensures left { self.new ≡ spec.left slot self.old }
    {
        let stood = self.queue_of(slot).is_some();
        keep_others(&mut self.callers, slot);
        stood
    }

    /// The name of the queue in which the caller of a slot waits.
    pub fn queue_of(&self, slot: u16) -> Option<&Txt>
        ensures { option_copied result ≡ spec.queue_of slot self.now }
    {
        let caller = self.callers.iter().find(|caller| caller.slot == slot);
        caller.map(|caller| &caller.queue)
    }

    /// How many callers wait in a queue.
    pub fn depth(&self, name: &[u8]) -> u32
        ensures { result ≡ length (spec.queue name.now self.now) }
    {
        count_in(&self.callers, name)
    }

    /// Whether whoever takes from a queue has to wait, since no caller waits in it.
    pub fn wait(&self, name: &[u8]) -> bool
        ensures { result ≡ (length (spec.queue name.now self.now) == 0) }
    {
        self.depth(name) == 0
    }
}

/// The callers once more, in order.
fn copied(alloc: Global, callers: &[QueuedCaller]) -> Result<Vec<QueuedCaller>, Memory>
    ensures { IfOk result (λ all. all.items ≡ callers.now) }
{
    let mut all = Vec::with_capacity(alloc, callers.len())?;
    for caller in callers {
        all.push(caller.copy()?)?;
    }
    Ok(all)
}

/// Puts a caller behind all of its priority and of lesser numbers.
fn place(callers: &mut Vec<QueuedCaller>, caller: QueuedCaller) -> Result<(), Memory>
    ensures ok { OnOk result (callers.new.items ≡ spec.placed caller callers.old.items) }
    ensures err { OnErr result (callers.new.items ≡ callers.old.items) }
{
    let position = position_behind(callers, caller.priority);
    callers.insert(position, caller)?;
    Ok(())
}

/// The position behind all callers of this priority and of lesser numbers.
fn position_behind(callers: &[QueuedCaller], priority: u8) -> usize
    ensures { result ≡ position_or_len (spec.is_behind priority) callers.now }
{
    callers
        .iter()
        .position(|caller| caller.priority > priority)
        .unwrap_or(callers.len())
}

/// Takes the first caller of a queue out, and gives its slot.
fn take_first(callers: &mut Vec<QueuedCaller>, name: &[u8]) -> Option<u16>
    ensures slot { result ≡ option_map (λ caller. caller.slot) (find (spec.waits_in name.now) callers.old.items) }
    ensures rest { callers.new.items ≡ spec.without_first (spec.waits_in name.now) callers.old.items }
{
    match position_of_first(callers, name) {
        Some(position) => Some(callers.remove(position).slot),
        None => None,
    }
}

/// The position of the first caller of a queue.
fn position_of_first(callers: &[QueuedCaller], name: &[u8]) -> Option<usize>
    ensures { result ≡ position (spec.waits_in name.now) callers.now }
{
    callers
        .iter()
        .position(|caller| caller.queue.as_bytes() == name)
}

/// Takes the callers of a slot out.
fn keep_others(callers: &mut Vec<QueuedCaller>, slot: u16)
    ensures { callers.new.items ≡ filter (λ caller. not (spec.has_slot slot caller)) callers.old.items }
{
    callers.retain(|caller| caller.slot != slot);
}

/// How many callers wait in a queue.
fn count_in(callers: &[QueuedCaller], name: &[u8]) -> u32
    requires { length callers.now ≤ 2 ^ 16 }
    ensures { result ≡ length (filter (spec.waits_in name.now) callers.now) }
{
    let count = callers
        .iter()
        .filter(|caller| caller.queue.as_bytes() == name)
        .count();
    count as u32
}
