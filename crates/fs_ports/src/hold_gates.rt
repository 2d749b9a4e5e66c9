//! Gates that hold up the hunts of one slot.

use crate::flag::Flag;
use crate::gate::{Gate, Gates};
use fs_text::Memory;
use std::alloc::Global;
use std::thread;

/// Gates of which the one for a slot holds its hunts up: its first pass until a flag is raised, its next one until the
/// next flag is, and so on, or until it was asked so often. Behind the last flag, and elsewhere, nothing is held up.
#[derive(Drop)]
pub struct HoldGates {
    slot: u16,
    stages: Vec<Stage>,
    used_up: Flag,
    turns: u64,
}

impl HoldGates {
    /// The gate for this slot raises one flag as it is first passed, and then asks for the other one, so often at most.
    pub fn new(
        alloc: Global,
        slot: u16,
        reached: Flag,
        flag: Flag,
        turns: u64,
    ) -> Result<HoldGates, Memory> {
        let used_up = Flag::new(alloc)?;
        let mut stages = Vec::new(alloc);
        stages.push(Stage { reached, flag })?;
        Ok(HoldGates {
            slot,
            stages,
            used_up,
            turns,
        })
    }

    /// As it is passed the next time, it does the same with these.
    pub fn add(&mut self, reached: Flag, flag: Flag) -> Result<(), Memory> {
        self.stages.push(Stage { reached, flag })?;
        Ok(())
    }

    /// Whether a hunt went on without a flag, because it had asked so often.
    pub fn used_up(&self) -> bool {
        self.used_up.is_up()
    }

    /// What holds the hunts of the slot up.
    fn held(&self) -> Result<Held, Memory> {
        let used_up = self.used_up.twin()?;
        Ok(Held {
            stages: twins_of(&self.stages, *self.stages.allocator())?,
            next: 0,
            used_up,
            turns: self.turns,
        })
    }
}

impl Gates for HoldGates {
    type Gate = HoldGate;

    fn gate(&self, slot: u16) -> HoldGate {
        if slot != self.slot {
            return HoldGate { held: None };
        }
        HoldGate {
            held: self.held().ok(),
        }
    }
}

/// A gate that holds hunts up until flags are raised, or holds nothing up.
#[derive(Drop)]
pub struct HoldGate {
    held: Option<Held>,
}

impl Gate for HoldGate {
    fn pass(&mut self) {
        if let Some(held) = &mut self.held {
            held.pass();
        }
    }
}

/// What holds hunts up.
#[derive(Drop)]
struct Held {
    stages: Vec<Stage>,
    // The stage of the next pass.
    next: usize,
    used_up: Flag,
    turns: u64,
}

impl Held {
    fn pass(&mut self) {
        let Some(stage) = self.stages.get(self.next) else {
            return;
        };
        self.next = self.next.saturating_add(1);
        if !stage.passes(self.turns) {
            self.used_up.raise();
        }
    }
}

/// A pass: the flag that it raises, and the one that it waits for.
#[derive(Drop)]
struct Stage {
    reached: Flag,
    flag: Flag,
}

impl Stage {
    /// The same flags, for another thread.
    fn twin(&self) -> Result<Stage, Memory> {
        let reached = self.reached.twin()?;
        Ok(Stage {
            reached,
            flag: self.flag.twin()?,
        })
    }

    /// Raises its one flag, and waits for the other one. Says whether that was raised before it had asked so often.
    fn passes(&self, turns: u64) -> bool {
        self.reached.raise();
        for _turn in 0..turns {
            if self.flag.is_up() {
                return true;
            }
            thread::yield_now();
        }
        self.flag.is_up()
    }
}

/// The same stages, for another thread.
fn twins_of(stages: &[Stage], alloc: Global) -> Result<Vec<Stage>, Memory> {
    let mut twins = Vec::new(alloc);
    for stage in stages {
        twins.push(stage.twin()?)?;
    }
    Ok(twins)
}
