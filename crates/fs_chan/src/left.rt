//! Actions that a channel has left, shared between its copies.
ghost use Rattle.std.specs.Prelude.{◌≡◌, ◌==◌, [], ◌∷◌, ◌++◌, drop, length, IfOk, OnOk, OnErr};
ghost use Rattle.std.specs.Option.{option_copied};
ghost use Rattle.fs_chan.specs.Work.{first_of};

use crate::action::{Action, Actions};
use fs_text::Memory;
use std::alloc::Global;
use std::marker::Model;
use std::sync::ArcSlice;

/// Actions that a channel has left to run, in order. They never change, and its copies share them.
///
/// A contract sees them as that list.
#[derive(Drop)]
pub struct ActionsLeft {
    all: Option<ArcSlice<Action>>,
    /// How many of them are done.
    done: usize,
}

impl Model for ActionsLeft {
    ghost use Rattle.std.specs.Prelude.{◌≤◌, List, [], drop, length, option_map, unwrap_or};
    ghost use Rattle.std.specs.Arc.{arc_slice_items};
    ghost use Rattle.fs_chan.specs.declared.action.Action.{Action};

    ghost Value = { List Action };

    ghost view = { λ left. drop left.done (unwrap_or (option_map arc_slice_items left.all) []) };

    ghost invariant = { λ left. left.done ≤ length (unwrap_or (option_map arc_slice_items left.all) []) };
}

impl ActionsLeft {
    /// No actions.
    pub fn none() -> ActionsLeft
        ensures { result ≡ [] }
    {
        ActionsLeft { all: None, done: 0 }
    }

    /// All of these.
    pub fn of(actions: Actions) -> Result<ActionsLeft, Memory>
        ensures { IfOk result (λ left. left ≡ actions) }
    {
        let all = ArcSlice::from_vec(actions.into_vec())?;
        Ok(ActionsLeft {
            all: Some(all),
            done: 0,
        })
    }

    /// How many there are.
    pub fn len(&self) -> usize
        ensures { result ≡ length self.now }
    {
        self.as_slice().len()
    }

    /// Whether there is none.
    pub fn is_empty(&self) -> bool
        ensures { result ≡ (length self.now == 0) }
    {
        self.first().is_none()
    }

    /// The first one.
    pub fn first(&self) -> Option<&Action>
        ensures { option_copied result ≡ first_of self.now }
    {
        match &self.all {
            Some(all) => all.as_slice().get(self.done),
            None => None,
        }
    }

    // All of them.
    fn as_slice(&self) -> &[Action]
        ensures { result.now ≡ self.now }
    {
        match &self.all {
            Some(all) => &all.as_slice()[self.done..],
            None => &[],
        }
    }

    /// Puts an action behind all others. Its copies stay as they are.
    pub fn push(&mut self, alloc: Global, action: Action) -> Result<(), Memory>
        ensures ok { OnOk result (self.new ≡ self.old ++ action ∷ []) }
        ensures err { OnErr result (self.new ≡ self.old) }
    {
        let mut all = copied(alloc, self.as_slice())?;
        all.push(action)?;
        let all = ArcSlice::from_vec(all)?;
        *self = ActionsLeft {
            all: Some(all),
            done: 0,
        };
        Ok(())
    }

    /// Leaves the first one behind, if there is one.
    pub fn pass_first(&mut self)
        ensures { self.new ≡ drop 1 self.old }
    {
        if let Some(all) = &self.all
            && self.done < all.len()
        {
            self.done += 1;
        }
    }

    /// Takes all out.
    pub fn clear(&mut self)
        ensures { self.new ≡ [] }
    {
        *self = ActionsLeft::none();
    }

    /// The same once more, in constant time.
    pub fn copy(&self) -> Result<ActionsLeft, Memory>
        ensures { IfOk result (λ left. left ≡ self.now) }
    {
        let all = match &self.all {
            Some(all) => Some(all.clone()?),
            None => None,
        };
        Ok(ActionsLeft {
            all,
            done: self.done,
        })
    }
}

// These actions once more, with room for another.
fn copied(alloc: Global, actions: &[Action]) -> Result<Vec<Action>, Memory>
    ensures { IfOk result (λ all. all.items ≡ actions.now) }
{
    let mut all = Vec::with_capacity(alloc, actions.len().saturating_add(1))?;
    for action in actions {
        all.push(action.copy()?)?;
    }
    Ok(all)
}
