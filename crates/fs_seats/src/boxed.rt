//! A thing behind a pointer.
ghost use Rattle.std.specs.Prelude.{◌≡◌, IfOk};

use fs_text::Memory;
use std::alloc::Global;
use std::marker::Model;
use std::ops::{Deref, DerefMut};

/// A thing behind a pointer: it is moved as one word, however large it is. A contract sees it as the thing.
#[derive(Drop)]
pub struct Boxed<T> {
    held: Box<T>,
}

impl<T> Model for Boxed<T> {
    ghost Value = { T };

    ghost coded = { T.code };

    ghost view = { λ b. b.held.value };
}

impl<T: Drop> Boxed<T> {
    /// A thing, put behind a pointer.
    pub fn of(alloc: Global, thing: T) -> Result<Boxed<T>, Memory>
        ensures { IfOk result (λ boxed. boxed ≡ thing) }
    {
        let held = Box::new(alloc, thing)?;
        Ok(Boxed { held })
    }

    /// The thing itself.
    pub fn into_inner(self) -> T
        ensures { result ≡ self }
    {
        let Boxed { held } = self;
        Box::into_inner(held)
    }
}

impl<T> Deref for Boxed<T> {
    type Target = T;

    ghost deref_gives = { λ boxed thing. thing ≡ boxed };

    fn deref(&self) -> &T
        ensures { result.now ≡ self.now }
    {
        &self.held
    }
}

impl<T> DerefMut for Boxed<T> {
    ghost use Rattle.std.specs.Prelude.{◌≡◌};
    ghost use Rattle.std.specs.Borrow.{Lends, sem};
    ghost use Rattle.fs_seats.specs.contracts.boxed.Boxed.{the_row};

    ghost deref_mut_gives = { λ boxed thing. thing ≡ boxed };

    fn deref_mut(&mut self) -> &mut T
        ensures* writes_back { sem 𝓛 (Lends (the_row T.row) T.row self.entry result (λ thing. thing)) }
        ensures value { result.now ≡ self.old }
    {
        &mut self.held
    }
}
