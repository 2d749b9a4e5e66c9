//! The keys that channels hold.

ghost use Rattle.std.specs.Prelude.{◌≡◌, ◌<◌, ◌^◌, [], ◌∷◌, ◌++◌, true, length, IfOk, OnOk, OnErr};
ghost use Rattle.fs_limit.specs.Holds as spec;
ghost use Rattle.fs_limit.specs.Laws.{IsSound};

use crate::hold::Hold;
use fs_text::{Memory, Txt};
use std::alloc::Global;
use std::marker::Model;

/// The most holds that are there at a time. With 64 keys for each of 65,536 slots there are far fewer.
const MOST: usize = 4_294_967_295;

/// Which slots of channels hold which keys. A key is a realm and an identifier, and a slot holds it once at most.
///
/// A contract sees the holds, in the order in which they were taken.
#[derive(Drop)]
pub struct Limits {
    holds: Vec<Hold>,
}

impl Model for Limits {
    ghost use Rattle.fs_limit.specs.Holds.{Holds};
    ghost use Rattle.fs_limit.specs.Laws.{IsSound};

    ghost Value = { Holds };

    ghost view = { λ l. l.holds.items };

    ghost invariant = { λ l. IsSound l.holds.items };
}

impl Limits {
    /// No slot holds a key.
    pub fn new(alloc: Global) -> Limits
        ensures { result ≡ [] }
    {
        Limits {
            holds: Vec::new(alloc),
        }
    }

    /// The same holds once more.
    pub fn copy(&self) -> Result<Limits, Memory>
        ensures { IfOk result (λ copy. copy ≡ self.now) }
    {
        let holds = copied(*self.holds.allocator(), &self.holds)?;
        Ok(Limits { holds })
    }

    /// What is true of all holds. It does nothing, and stands for its contract.
    pub fn sound(&self)
        ensures { IsSound self.now }
    {
        let _holds = &self.holds;
    }

    /// Lets a slot hold a key, if fewer than `max` other slots hold it, as the application `limit` of FreeSWITCH does.
    /// Answers whether it may. A slot that holds the key already goes on holding it, once, whatever the answer is.
    ///
    /// Only a new hold takes memory. Behind 2^32 - 1 holds there is none: a further one is refused as for want of
    /// memory.
    pub fn hold(&mut self, realm: &[u8], id: &[u8], max: u32, slot: u16) -> Result<bool, Memory>
        ensures answer { IfOk result (λ may. may ≡ spec.may_hold realm.now id.now max slot self.old) }
        ensures ok { OnOk result (self.new ≡ spec.after_hold realm.now id.now max slot self.old) }
        ensures err { OnErr result (self.new ≡ self.old) }
        ensures wanting { OnErr result (spec.adds_hold realm.now id.now max slot self.old ≡ true) }
    {
        if count_others(&self.holds, realm, id, slot) >= max as usize {
            return Ok(false);
        }
        if self.has(realm, id, slot) {
            return Ok(true);
        }
        add(&mut self.holds, realm, id, slot)?;
        Ok(true)
    }

    /// Lets a slot hold nothing any more. It takes no memory.
    pub fn release(&mut self, slot: u16)
        ensures { self.new ≡ spec.after_release slot self.old }
    {
        keep_others(&mut self.holds, slot);
    }

    /// Whether a slot holds a key.
    pub fn has(&self, realm: &[u8], id: &[u8], slot: u16) -> bool
        ensures { result ≡ spec.has realm.now id.now slot self.now }
    {
        self.holds
            .iter()
            .any(|hold| hold.is_of(realm, id) && hold.slot == slot)
    }

    /// How many keys a slot holds.
    pub fn holds(&self, slot: u16) -> u32
        ensures { result ≡ length (spec.held_by slot self.now) }
    {
        count_held(&self.holds, slot)
    }

    /// How many slots hold a key, as the api command `limit_usage` of FreeSWITCH tells it.
    pub fn usage(&self, realm: &[u8], id: &[u8]) -> u32
        ensures { result ≡ length (spec.holders realm.now id.now self.now) }
    {
        count_holders(&self.holds, realm, id)
    }
}

/// The holds once more, in order.
fn copied(alloc: Global, holds: &[Hold]) -> Result<Vec<Hold>, Memory>
    ensures { IfOk result (λ all. all.items ≡ holds.now) }
{
    let mut all = Vec::with_capacity(alloc, holds.len())?;
    for hold in holds {
        all.push(hold.copy()?)?;
    }
    Ok(all)
}

/// Adds the hold of a key by a slot.
fn add(holds: &mut Vec<Hold>, realm: &[u8], id: &[u8], slot: u16) -> Result<(), Memory>
    ensures ok { OnOk result (holds.new.items ≡ holds.old.items ++ spec.new_hold realm.now id.now slot ∷ []) }
    ensures few { OnOk result (length holds.new.items < 2 ^ 32) }
    ensures err { OnErr result (holds.new.items ≡ holds.old.items) }
{
    if holds.len() >= MOST {
        return Err(Memory);
    }
    let alloc = *holds.allocator();
    let hold = Hold {
        realm: Txt::of(alloc, realm)?,
        id: Txt::of(alloc, id)?,
        slot,
    };
    holds.push(hold)?;
    Ok(())
}

/// Takes the holds of a slot out.
fn keep_others(holds: &mut Vec<Hold>, slot: u16)
    ensures { holds.new.items ≡ spec.after_release slot holds.old.items }
{
    holds.retain(|hold| hold.slot != slot);
}

/// How many other slots hold a key.
fn count_others(holds: &[Hold], realm: &[u8], id: &[u8], slot: u16) -> usize
    ensures { result ≡ length (spec.others realm.now id.now slot holds.now) }
{
    holds
        .iter()
        .filter(|hold| hold.is_of(realm, id) && hold.slot != slot)
        .count()
}

/// How many slots hold a key.
fn count_holders(holds: &[Hold], realm: &[u8], id: &[u8]) -> u32
    requires { length holds.now < 2 ^ 32 }
    ensures { result ≡ length (spec.holders realm.now id.now holds.now) }
{
    let count = holds.iter().filter(|hold| hold.is_of(realm, id)).count();
    count as u32
}

/// How many keys a slot holds.
fn count_held(holds: &[Hold], slot: u16) -> u32
    requires { length holds.now < 2 ^ 32 }
    ensures { result ≡ length (spec.held_by slot holds.now) }
{
    let count = holds.iter().filter(|hold| hold.slot == slot).count();
    count as u32
}
