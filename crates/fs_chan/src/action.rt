//! Actions: what a channel is to run, in order.
ghost use Rattle.std.specs.Prelude.{◌≡◌, ◌==◌, [], ◌∷◌, ◌++◌, length, IfOk, OnOk, OnErr};
ghost use Rattle.std.specs.Iterator.{at_most};
ghost use Rattle.std.specs.Map.Iter.{TakesFirst};

use fs_text::{Memory, Txt};
use std::alloc::Global;
use std::collections::VecDeque;
use std::collections::vec_deque::Iter;
use std::marker::Model;

/// An application with its argument.
#[derive(Drop)]
pub struct Action {
    pub application: Txt,
    pub argument: Txt,
}

impl Action {
    /// The same action once more.
    pub fn copy(&self) -> Result<Action, Memory>
        ensures { IfOk result (λ action. action ≡ self.now) }
    {
        Ok(Action {
            application: self.application.copy()?,
            argument: self.argument.copy()?,
        })
    }
}

/// Actions that are still to be run, in order. A contract sees them as that list.
#[derive(Drop)]
pub struct Actions {
    queue: VecDeque<Action>,
}

impl Model for Actions {
    ghost use Rattle.std.specs.Prelude.{List};
    ghost use Rattle.fs_chan.specs.declared.action.Action.{Action};

    ghost Value = { List Action };

    ghost view = { λ a. a.queue.items };
}

impl Actions {
    /// No actions.
    pub fn new(alloc: Global) -> Actions
        ensures { result ≡ [] }
    {
        Actions {
            queue: VecDeque::new(alloc),
        }
    }

    /// How many there are.
    pub fn len(&self) -> usize
        ensures { result ≡ length self.now }
    {
        self.queue.len()
    }

    /// Whether there is none.
    pub fn is_empty(&self) -> bool
        ensures { result ≡ (length self.now == 0) }
    {
        self.queue.is_empty()
    }

    /// Puts an action behind all others.
    pub fn push(&mut self, action: Action) -> Result<(), Memory>
        ensures ok { OnOk result (self.new ≡ self.old ++ action ∷ []) }
        ensures err { OnErr result (self.new ≡ self.old) }
    {
        self.queue.push_back(action)?;
        Ok(())
    }

    /// Moves other actions behind these. Where that is refused, the others are gone.
    pub fn append(&mut self, other: Actions) -> Result<(), Memory>
        ensures ok { OnOk result (self.new ≡ self.old ++ other) }
        ensures err { OnErr result (self.new ≡ self.old) }
    {
        let mut queue = other.queue;
        self.queue.append(&mut queue)?;
        Ok(())
    }

    /// The actions, one after another.
    pub fn iter(&self) -> ActionsIter<'_>
        ensures { result ≡ self.now }
    {
        ActionsIter {
            queue: self.queue.iter(),
        }
    }

    /// The actions as a list.
    pub(crate) fn into_vec(self) -> Vec<Action>
        ensures { result.items ≡ self }
    {
        Vec::from(self.queue)
    }
}

/// Actions, one after another. A contract sees those that are still to come.
#[derive(Drop)]
pub struct ActionsIter<'a> {
    queue: Iter<'a, Action>,
}

impl<'a> Model for ActionsIter<'a> {
    ghost use Rattle.std.specs.Prelude.{List};
    ghost use Rattle.std.specs.VecDeque.Iter.{deque_iter_rest};
    ghost use Rattle.fs_chan.specs.declared.action.Action.{Action};

    ghost Value = { List Action };

    ghost view = { λ i. deque_iter_rest i.queue };
}

impl<'a> Iterator for ActionsIter<'a> {
    type Item = &'a Action;

    ghost next_gives = { TakesFirst (λ action. action.now) };

    ghost remaining = { λ s. at_most (length s) };

    fn next(&mut self) -> Option<&'a Action> {
        self.queue.next()
    }
}
