//! A door in memory.

ghost use Rattle.std.specs.Prelude.{◌≡◌, All, IfOk};
ghost use Rattle.fs_ports.specs.Memory.{IsNewTape, new_queue};

use crate::counts::raised;
use crate::door::{Accept, Door, Listen};
use crate::mem_link::MemLink;
use crate::mem_links::MemLinks;
use fs_text::{Memory, Txt};
use std::alloc::Global;
use std::marker::Model;

/// A door in memory, which hands out links in order. Accepts that are to fail are named by their numbers, counted
/// from 1.
#[derive(Drop)]
pub struct MemDoor {
    links: MemLinks,
    failed: Vec<u64>,
    accepts: u64,
    listen_fails: bool,
    faults: u64,
}

impl Model for MemDoor {
    ghost use Rattle.std.specs.Prelude.{All};
    ghost use Rattle.fs_ports.specs.Memory.{Queue, IsNewTape};

    ghost Value = { Queue };

    ghost view = { λ d. record { links = d.links; faults = d.faults } };

    ghost invariant = { λ d. All IsNewTape d.links };
}

impl MemDoor {
    /// A door of these links. Behind the last one nobody comes.
    pub fn new(
        alloc: Global,
        links: MemLinks,
        failed_accepts: &[u64],
        listen_fails: bool,
    ) -> Result<MemDoor, Memory>
        requires { All IsNewTape links }
        ensures { IfOk result (λ door. door ≡ new_queue links) }
    {
        Ok(MemDoor {
            links,
            failed: Vec::from_slice(alloc, failed_accepts)?,
            accepts: 0,
            listen_fails,
            faults: 0,
        })
    }
}

impl Door for MemDoor {
    type Link = MemLink;

    ghost door_faults = { λ door. door.faults };

    fn listen(&mut self, _ip: &Txt, _port: u16) -> Listen {
        if self.listen_fails {
            self.faults = raised(self.faults);
            return Listen::Failed;
        }
        Listen::Listening
    }

    fn accept(&mut self) -> Accept<MemLink> {
        self.accepts = raised(self.accepts);
        if self.failed.contains(&self.accepts) {
            self.faults = raised(self.faults);
            return Accept::Failed;
        }
        let Some(link) = self.links.take_first() else {
            return Accept::NotYet;
        };
        Accept::Came(link)
    }
}
