//! The tasks that wait for their moments.

ghost use Rattle.std.specs.Prelude.{◌≡◌, ◌+◌, ◌≤◌, not, filter, count_by, length, None, IfOk, OnOk, OnErr, is_none};
ghost use Rattle.std.specs.Option.{option_copied};
ghost use Rattle.fs_sched.specs.Tasks as spec;
ghost use Rattle.fs_sched.specs.Laws.{IsSound};

use crate::task::{Task, What};
use fs_text::{Memory, Txt, read_u64};
use std::alloc::Global;
use std::marker::Model;

/// The most tasks that are there at a time.
const MOST: usize = 1024;

/// The tasks that wait for their moments, in order of moment and number. At most 1,024 are there.
///
/// A contract sees them, and how many were added so far.
pub struct Tasks {
    tasks: Vec<Task>,
    added: u64,
}

impl Drop for Tasks {
    fn drop(self) {
        let Tasks {
            tasks: _tasks,
            added: _added,
        } = self;
    }
}

impl Model for Tasks {
    ghost use Rattle.fs_sched.specs.Tasks.{Queue};
    ghost use Rattle.fs_sched.specs.Laws.{IsSound};

    ghost Value = { Queue };

    ghost view = { λ t. record { tasks = t.tasks.items; added = t.added } };

    ghost invariant = { λ t. IsSound (record { tasks = t.tasks.items; added = t.added }) };
}

impl Tasks {
    /// No task.
    pub fn new(alloc: Global) -> Tasks
        ensures { result ≡ spec.no_tasks }
    {
        Tasks {
            tasks: Vec::new(alloc),
            added: 0,
        }
    }

    /// The same tasks once more. Their texts share their bytes.
    pub fn copy(&self) -> Result<Tasks, Memory>
        ensures { IfOk result (λ copy. copy ≡ self.now) }
    {
        let tasks = copied(*self.tasks.allocator(), &self.tasks)?;
        Ok(Tasks {
            tasks,
            added: self.added,
        })
    }

    /// What holds of all tasks that are there. It does nothing, and stands for its contract.
    pub fn sound(&self)
        ensures { IsSound self.now }
    {
        let _tasks = &self.tasks;
    }

    /// Adds a task of this group that is due at a moment, and gives its number: one more than the last one that was
    /// added had. `None` exactly where 1,024 tasks are there.
    ///
    /// Behind the number 2^64 - 1 there is none: a further task is refused as for want of memory.
    pub fn add(&mut self, moment: u64, group: &[u8], what: What) -> Result<Option<u64>, Memory>
        ensures answer { IfOk result (λ number. number ≡ spec.number_for self.old) }
        ensures ok { OnOk result (self.new ≡ spec.after_add moment group.now what self.old) }
        ensures err { OnErr result (self.new ≡ self.old) }
    {
        if self.tasks.len() == MOST {
            return Ok(None);
        }
        let number = self.added.checked_add(1).ok_or(Memory)?;
        let group = Txt::of(*self.tasks.allocator(), group)?;
        let place = due_by(&self.tasks, moment);
        let task = Task {
            number,
            moment,
            group,
            what,
        };
        self.tasks.insert(place, task)?;
        self.added = number;
        Ok(Some(number))
    }

    /// Takes out all tasks of the group that is this text, and the task of the number that its decimal digits say.
    /// Answers how many they were. It takes no memory.
    pub fn delete(&mut self, key: &[u8]) -> u32
        ensures count { result ≡ spec.meant key.now self.old }
        ensures left { self.new ≡ spec.without_tasks key.now self.old }
    {
        let number = read_u64(key);
        let count = count_meant(&self.tasks, key, number);
        keep_others(&mut self.tasks, key, number);
        count as u32
    }

    /// Takes all tasks out. Their numbers are not given again. It takes no memory.
    pub fn clear(&mut self)
        ensures { self.new ≡ spec.cleared self.old }
    {
        self.tasks.clear();
    }

    /// The task that is due next: that of the least moment, and of one moment that of the least number.
    pub fn first(&self) -> Option<&Task>
        ensures { option_copied result ≡ spec.first_of self.now.tasks }
    {
        self.tasks.first()
    }

    /// Takes out the task that is due next and gives it, if its moment has come: it is `now` or before. It takes no
    /// memory.
    pub fn fire(&mut self, now: u64) -> Option<Task>
        ensures fired { result ≡ spec.fired_of now self.old.tasks }
        ensures left { self.new ≡ spec.after_fire now self.old }
    {
        if is_first_due(&self.tasks, now) {
            Some(self.tasks.remove(0))
        } else {
            None
        }
    }
}

/// The tasks once more, in order.
fn copied(alloc: Global, tasks: &[Task]) -> Result<Vec<Task>, Memory>
    ensures { IfOk result (λ all. all.items ≡ tasks.now) }
{
    let mut all = Vec::with_capacity(alloc, tasks.len())?;
    for task in tasks {
        all.push(task.copy()?)?;
    }
    Ok(all)
}

/// How many tasks are due by a moment.
fn due_by(tasks: &[Task], moment: u64) -> usize
    ensures { result ≡ count_by (spec.is_due moment) tasks.now }
{
    tasks.iter().filter(|task| task.moment <= moment).count()
}

/// Whether there is a first task, and it is due.
fn is_first_due(tasks: &[Task], now: u64) -> bool
    ensures { result ≡ spec.is_first_due now tasks.now }
{
    match tasks {
        [task, ..] => task.moment <= now,
        [] => false,
    }
}

/// How many tasks are of a group or of a number.
fn count_meant(tasks: &[Task], key: &[u8], number: Option<u64>) -> usize
    ensures { result ≡ count_by (spec.is_meant_by key.now number) tasks.now }
{
    tasks
        .iter()
        .filter(|task| is_meant(task, key, number))
        .count()
}

/// Takes out the tasks of a group or of a number.
fn keep_others(tasks: &mut Vec<Task>, key: &[u8], number: Option<u64>)
    ensures { tasks.new.items ≡ filter (λ task. not (spec.is_meant_by key.now number task)) tasks.old.items }
{
    tasks.retain(|task| !is_meant(task, key, number));
}

/// Whether a task is of a group or of a number.
fn is_meant(task: &Task, key: &[u8], number: Option<u64>) -> bool
    ensures { result ≡ spec.is_meant_by key.now number task.now }
{
    task.group.as_bytes() == key || Some(task.number) == number
}
